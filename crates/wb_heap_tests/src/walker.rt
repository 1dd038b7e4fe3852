//! Makes the calls of a table one after another. Each call in a table has the answer that it must give.

/// A heap on which calls are made.
pub(crate) trait Called: Drop {
    /// A call, and the answer that it must give.
    type Call: Copy;

    /// The reason why a heap can't be copied.
    type Fault;

    /// Whether a call gives the answer in the table.
    fn answers(&mut self, call: Self::Call) -> bool;

    fn try_copy(&self) -> Result<Self, Self::Fault>;

    /// A copy of this heap that takes over the memory of `spare`, a heap that is no longer needed.
    fn try_copy_over(&self, spare: Self) -> Result<Self, Self::Fault>;
}

/// The index of the first call that gives an answer other than the table's; `None` if there is no such call.
pub(crate) fn first_other<H: Called>(heap: &mut H, calls: &[H::Call]) -> Option<usize> {
    for (index, call) in calls.iter().enumerate() {
        if !heap.answers(*call) {
            return Some(index);
        }
    }
    None
}

/// Whether each call gives the answer in the table.
pub(crate) fn all_answer<H: Called>(heap: &mut H, calls: &[H::Call]) -> bool {
    first_other(heap, calls).is_none()
}
