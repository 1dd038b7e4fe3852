//! A whole SARIF log.

use crate::escape::FileReference;
use crate::notifications::put_notifications;
use crate::results::put_results;
use crate::rules::put_rules;
use crate::writing::{Log, Written};
use std::alloc::{AllocError, Global};
use std::fmt::Write;
use wb_explain::runs::Explanation;
use wb_history::ScriptLines;

/// The text with which each log begins. No other output of the workbench begins with it.
pub const HEAD: &str =
    "{\"$schema\":\"https://docs.oasis-open.org/sarif/sarif/v2.1.0/errata01/os/schemas/sarif-schema-2.1.0.json\",\
    \"version\":\"2.1.0\",\"runs\":[{\"tool\":{\"driver\":{\"name\":\"workbench\",\"rules\":[";

/// Returns the SARIF log for a script with these lines and this explanation. The only error is that memory ran out.
pub fn log_of(
    alloc: Global,
    lines: &ScriptLines<'_>,
    explanation: &Explanation,
) -> Result<String, AllocError> {
    let mut log = Log {
        text: String::new(alloc),
        lines,
        explanation,
    };
    put_all(&mut log)?;
    Ok(log.text)
}

fn put_all(log: &mut Log<'_>) -> Written {
    log.text.push_str(HEAD)?;
    put_rules(log)?;
    write!(
        log.text,
        "]}}}},\n\"artifacts\":[{{\"location\":{{\"uri\":\"{}\"}}}}],\n\
         \"invocations\":[{{\"executionSuccessful\":true,\"toolExecutionNotifications\":[",
        FileReference(log.lines.name)
    )?;
    put_notifications(log)?;
    log.text.push_str("]}],\n\"results\":[")?;
    put_results(log)?;
    log.text
        .push_str("],\n\"columnKind\":\"utf16CodeUnits\"}]}\n")
}
