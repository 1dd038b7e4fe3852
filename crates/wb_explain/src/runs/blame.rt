//! Which line is to be named for a panic: the line that was begun last, the line that destroyed something, or the line after which a
//! TRAP or `main` ended.

use wb_history::{Raised, Raiser, WatchedRun};

/// The line that is to be named for the panic with which a run ended.
pub fn line_of(raised: Raised, run: &WatchedRun<'_>) -> u32 {
    match raised.raiser {
        Raiser::Statement | Raiser::Holder => run.history.last_line(),
        Raiser::TrapEnd => run.history.calls.line_at(raised.depth),
        Raiser::MainEnd => run.history.calls.line_at(1),
        Raiser::Item | Raiser::Release => run.history.last_line_outside(),
    }
}

/// The line that is to be named for the panic with which a run ended; `None` if the run ended otherwise.
pub fn panicked_at(run: &WatchedRun<'_>) -> Option<u32> {
    run.end.raised.map(|raised| line_of(raised, run))
}

/// The line of the class of an object that couldn't be released, found by the destructor that ended. `None` if something
/// else raised the panic.
pub fn class_of(raised: Raised, run: &WatchedRun<'_>) -> Option<u32> {
    match raised.raiser {
        Raiser::Release => {
            let line = run.history.calls.line_at(raised.depth.saturating_add(1));
            Some(run.history.bodies.body_of(line).line)
        }
        _ => None,
    }
}
