//! What is said about an attempt that failed: the line that made it, and where the run went on.

use crate::runs::blame::panicked_at;
use crate::runs::counts::article_of;
use crate::runs::script_page::{ScriptPage, Written};
use wb_heap_model::heap::Attempt;
use wb_history::{AttemptMade, Maker, WatchedRun};
use wb_meaning::run::Outcome;

/// Where a run went on after an attempt that failed, as far as messages say so.
#[derive(Clone, Copy, Debug, PartialEq, Eq)]
pub enum Next {
    /// Nothing is said: the run ended there, or it went on with the line that panicked, which the panic's own message names.
    Unsaid,
    /// With another line.
    Line(u32),
    /// With the same line, in the next turn of a `repeat` of this line alone.
    Again(u32),
    /// With the end of `main`.
    End,
}

impl Next {
    /// The line with which the run went on; `None` if no line is named.
    pub fn line(self) -> Option<u32> {
        match self {
            Next::Line(line) | Next::Again(line) => Some(line),
            Next::Unsaid | Next::End => None,
        }
    }
}

/// Says which line's attempt failed, and where the run went on.
pub fn put_failed(
    page: &mut ScriptPage<'_>,
    made: AttemptMade<'_>,
    run: &WatchedRun<'_>,
) -> Written {
    let AttemptMade { attempt, maker, .. } = made;
    if maker.line == 0 {
        page.page.write_file_message(format_args!(
            "attempt {} (the cell of the cleanup stack) failed, so `main` did not begin",
            attempt.number
        ));
        return Ok(());
    }
    put_failed_here(page, attempt, maker.line, "")?;
    put_next(page, next_after(maker, run))
}

/// Says that an attempt failed in this line; `also` is what follows the word `here`, with a blank before it, or nothing.
pub fn put_failed_here(
    page: &mut ScriptPage<'_>,
    attempt: Attempt,
    line: u32,
    also: &str,
) -> Written {
    page.mark(
        line,
        format_args!(
            "attempt {} ({} {}-byte cell) failed here{also}",
            attempt.number,
            article_of(attempt.length),
            attempt.length
        ),
    )
}

/// Where the run went on after a failed attempt of a line of the script.
pub fn next_after(maker: Maker<'_>, run: &WatchedRun<'_>) -> Next {
    let again = maker.idle >= 2 && maker.gives_null();
    let line = if again { maker.line } else { maker.after };
    if panicked_at(run) == Some(line) {
        return Next::Unsaid;
    }
    if again {
        return Next::Again(line);
    }
    if line != 0 {
        return Next::Line(line);
    }
    match &run.outcome {
        Outcome::Ended { left: None, .. } => Next::End,
        _ => Next::Unsaid,
    }
}

/// Says where the run went on. If the run went on with the line that failed, gives only the number of this line.
pub fn put_next(page: &mut ScriptPage<'_>, next: Next) -> Written {
    match next {
        Next::Unsaid => Ok(()),
        Next::Line(line) => page.mark(line, "the run went on here"),
        Next::Again(line) => {
            page.page.write_message(
                line as usize,
                "the run went on with the same line, in the next turn of its `repeat`",
            );
            Ok(())
        }
        Next::End => {
            page.page
                .write_file_text("after that `main` ran to its end");
            Ok(())
        }
    }
}
