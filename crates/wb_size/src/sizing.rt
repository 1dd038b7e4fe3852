//! The length of heap that a script needs, and the table of the attempts that shorter heaps refuse first.

ghost use Rattle.std.specs.Prelude.{◌≡◌};
ghost use Rattle.wb_heap_model.specs.Rises.{top_of_rises};
ghost use Rattle.wb_size.specs.Sizing.{refusal_in};

use wb_heap_model::size::{Rises, top_of_rises};

/// The least length, in bytes, of a heap that refuses no attempt, and the rises of the run without a limit.
#[derive(Debug, Drop)]
pub struct Sizing {
    pub required: u32,
    pub rises: Rises,
}

impl Sizing {
    /// The number of the attempt that a heap of this length, in bytes, refuses first: the first rise whose top is past this length.
    /// `None` if the heap refuses no attempt.
    pub fn refused_at(&self, length: u32) -> Option<u32>
        ensures { result ≡ refusal_in self.now length }
    {
        for rise in self.rises.as_slice() {
            if rise.top > length {
                return Some(rise.number);
            }
        }
        None
    }
}

/// The sizing of a run, by its rises.
pub(crate) fn sizing_of(rises: Rises) -> Sizing
    ensures { result ≡ record { required = top_of_rises rises; rises = rises } }
{
    Sizing {
        required: top_of_rises(&rises),
        rises,
    }
}
