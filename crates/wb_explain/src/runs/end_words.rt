//! How a run ends, in the words of explanations.

use crate::runs::counts::Many;
use std::fmt;
use std::fmt::{Display, Formatter, Write};
use wb_heap_model::heap::Panic;
use wb_runs::run_end::RunEnd;

/// A panic, written as the report names it.
#[derive(Clone, Copy)]
pub struct PanicName(pub Panic);

impl Display for PanicName {
    fn fmt<W: Write>(&self, f: &mut Formatter<W>) -> fmt::Result {
        match self.0 {
            Panic::User(code) => write!(f, "panic USER {code}"),
            Panic::Alloc(place) => write!(f, "panic ALLOC {place:08x}"),
            Panic::Workbench(code) => write!(f, "panic WORKBENCH {code}"),
        }
    }
}

/// The code of a leave. For a code that scripts often leave with, Symbian's name of the code comes first.
#[derive(Clone, Copy)]
pub struct CodeName(pub i32);

impl Display for CodeName {
    fn fmt<W: Write>(&self, f: &mut Formatter<W>) -> fmt::Result {
        let code = self.0;
        match name_of(code) {
            "" => write!(f, "{code}"),
            name => write!(f, "{name} ({code})"),
        }
    }
}

/// Symbian's name of a code that scripts often leave with; empty for other codes.
fn name_of(code: i32) -> &'static str {
    match code {
        -1 => "KErrNotFound",
        -2 => "KErrGeneral",
        -3 => "KErrCancel",
        -4 => "KErrNoMemory",
        -5 => "KErrNotSupported",
        -6 => "KErrArgument",
        -9 => "KErrOverflow",
        -11 => "KErrAlreadyExists",
        -14 => "KErrInUse",
        -18 => "KErrNotReady",
        -20 => "KErrCorrupt",
        -26 => "KErrDiskFull",
        _ => "",
    }
}

/// How a run ends, if it leaks or panics; no text for any other run.
#[derive(Clone, Copy)]
pub struct EndInWords(pub RunEnd);

impl Display for EndInWords {
    fn fmt<W: Write>(&self, f: &mut Formatter<W>) -> fmt::Result {
        match self.0 {
            RunEnd::Leaked(count) => {
                let cells = Many(i64::try_from(count).unwrap_or(i64::MAX), "cell");
                write!(f, "leaks {cells}")
            }
            RunEnd::Panicked(panic) => write!(f, "ends with {}", PanicName(panic)),
            RunEnd::NoCleanup | RunEnd::Left(_) | RunEnd::Plain | RunEnd::Cut(_) => Ok(()),
        }
    }
}
