//! What a run reports while it goes on. No contract mentions these reports, and no result depends on them.

/// Receives reports of how far a run has come. The method returns nothing, so the result of a run doesn't depend on the receiver.
pub trait StepProgress {
    /// The run has taken this many steps. Called every few thousand steps.
    fn take_steps(&mut self, steps: u32);
}

/// Ignores all reports.
#[derive(Clone, Copy, Debug)]
pub struct Silent;

impl StepProgress for Silent {
    fn take_steps(&mut self, _steps: u32) {}
}
