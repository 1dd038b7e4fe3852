//! The conditions that a script's runs are made under.

ghost use Rattle.std.specs.Prelude.{◌≡◌, ◌≤◌, ◌&&◌, nat_le, is_some, IfSome, IsTrue};
ghost use Rattle.wb_heap_model.specs.Space.{is_shape};
ghost use Rattle.wb_basics.specs.declared.limits.TheConstants.{LARGEST_BUDGET};

use wb_basics::limits::LARGEST_BUDGET;
use wb_heap_model::heap::Shape;

/// What all runs share that answer one question about a script: the budget and the shape of the heap. The budget is from 1 to
/// `LARGEST_BUDGET`, and the shape is one that a heap may have.
#[derive(Clone, Copy, Debug, PartialEq, Eq)]
pub struct Conditions {
    /// The greatest number of steps that a run may take.
    pub budget: u32,
    pub shape: Shape,
    pub ghost least: { 1 ≤ budget },
    pub ghost greatest: { budget ≤ LARGEST_BUDGET },
    pub ghost shaped: { IsTrue (is_shape shape) },
}

impl Conditions {
    /// Returns the conditions with this budget, in steps, and this shape, whose lengths are in bytes. Returns `None` exactly if the budget
    /// isn't from 1 to `LARGEST_BUDGET`, or no heap may have the shape.
    pub fn new(budget: u32, shape: Shape) -> Option<Conditions>
        ensures given { IfSome result (λ conditions.
            (conditions.budget ≡ budget) × (conditions.shape ≡ shape)) }
        ensures allowed { is_some result
            ≡ (nat_le 1 budget && nat_le budget LARGEST_BUDGET && is_shape shape) }
    {
        if 1 <= budget && budget <= LARGEST_BUDGET && shape.is_allowed() {
            Some(Conditions { budget, shape })
        } else {
            None
        }
    }
}
