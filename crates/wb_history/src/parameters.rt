//! How a run is made.

use wb_heap_model::heap::{Rule, Shape};

/// How a run is made: the rule that says which attempts fail, the greatest number of steps, and the heap's shape.
#[derive(Debug, Drop)]
pub struct RunParameters {
    pub rule: Rule,
    pub budget: u32,
    pub shape: Shape,
}
