//! Whether a picture draws the end of a run once more, wider, and from which step on.

use wb_history::WatchedRun;
use wb_meaning::run::Outcome;

/// How many of a run's last attempts the second drawing of its end shows.
const LAST_ATTEMPTS: usize = 60;

/// The end of a run is drawn once more only if the run has at least this many times as many steps as its end. So the end becomes wider.
const LONG: u32 = 3;

/// Returns the step from which on the end of a run is drawn once more: the step of the first of the run's last 60 attempts. Returns `None`
/// if the run is too short, or if it neither panicked nor leaked nor was cut.
pub fn first_of_end(run: &WatchedRun<'_>) -> Option<u32> {
    if !is_worth_it(&run.outcome) {
        return None;
    }
    let attempts = run.history.attempts.kept_attempts();
    let at = attempts.len().checked_sub(LAST_ATTEMPTS)?;
    let first = attempts.get(at)?.step;
    let shown = run.history.steps().saturating_sub(first).saturating_add(1);
    (shown.saturating_mul(LONG) <= run.history.steps()).then_some(first)
}

fn is_worth_it(outcome: &Outcome) -> bool {
    match outcome {
        Outcome::Ended { leaks, .. } => leaks.len() > 0,
        Outcome::Panicked(_) | Outcome::Cut(_) => true,
        Outcome::NoCleanup => false,
    }
}
