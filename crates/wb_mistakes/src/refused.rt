//! Chooses the explanation of a refused script according to the script's first fault.

use crate::blocks::{Blocks, blocks_before};
use crate::double::explain_double_name;
use crate::kinds::explain_wrong_kind;
use crate::leaving::explain_may_leave;
use crate::limits::explain_too_many;
use crate::lines::{Line, lines_of};
use crate::main_missing::explain_no_main;
use crate::misplaced::{explain_early_end, explain_misplaced};
use crate::misspelled::explain_misspelled;
use crate::not_ascii::explain_not_ascii;
use crate::unknown::explain_unknown_name;
use std::alloc::{AllocError, Global};
use wb_language::fault::ScriptFault;
use wb_pages::Page;

/// Says why a line isn't allowed at its place, or why it has no form; or says that the file ends too early.
fn explain_grammar(page: &mut Page, lines: &[Line], index: usize, blocks: &Blocks) {
    let number = index.saturating_add(1);
    match lines.get(index) {
        None => explain_early_end(page, lines, blocks, number),
        Some(line) if line.line_kind().is_some() => explain_misplaced(page, lines, blocks, line),
        Some(line) => explain_misspelled(page, lines, index, line),
    }
}

/// The index of the line with this number.
fn index_of(line: u32) -> usize {
    (line as usize).saturating_sub(1)
}

/// The number of the line that a fault names; 1 if the fault names no line.
fn line_of(fault: ScriptFault) -> u32 {
    match fault {
        ScriptFault::Grammar { line }
        | ScriptFault::UnknownName { line }
        | ScriptFault::DoubleName { line }
        | ScriptFault::WrongKind { line }
        | ScriptFault::MayLeave { line }
        | ScriptFault::TooMany { line }
        | ScriptFault::NotAscii { line } => line,
        ScriptFault::NoMain | ScriptFault::TooLong | ScriptFault::NoMemory => 1,
    }
}

/// Says what is wrong with the line at an index. `blocks` are the blocks that are open before this line.
fn explain_line(
    page: &mut Page,
    lines: &[Line],
    blocks: &Blocks,
    fault: ScriptFault,
    index: usize,
) {
    match fault {
        ScriptFault::Grammar { .. } => explain_grammar(page, lines, index, blocks),
        ScriptFault::UnknownName { .. } => explain_unknown_name(page, lines, index),
        ScriptFault::DoubleName { .. } => explain_double_name(page, lines, index),
        ScriptFault::WrongKind { .. } => explain_wrong_kind(page, lines, index, blocks),
        ScriptFault::MayLeave { .. } => explain_may_leave(page, lines, index),
        ScriptFault::NoMain => explain_no_main(page, lines),
        ScriptFault::TooMany { .. } => explain_too_many(page, lines, index, blocks),
        ScriptFault::NotAscii { .. } => explain_not_ascii(page, lines, index),
        ScriptFault::TooLong | ScriptFault::NoMemory => {}
    }
}

fn explain_fault(
    alloc: Global,
    page: &mut Page,
    bytes: &[u8],
    fault: ScriptFault,
) -> Result<(), AllocError> {
    let lines = lines_of(alloc, bytes)?;
    let index = index_of(line_of(fault));
    let blocks = blocks_before(alloc, &lines, index)?;
    explain_line(page, &lines, &blocks, fault, index);
    Ok(())
}

fn explain_too_long(page: &mut Page) {
    page.write_file_text("the script is longer than 65,536 bytes");
    page.write_help_text("split it into scripts that can be run separately");
}

/// Returns the text that says why a script was refused, in lines that end with a line feed. The text is empty if there is nothing to say.
///
/// `file` is the name of the script's file as messages show it, `bytes` are the bytes that were read from this file, and `fault` is the
/// fault that `wb_script::read` found in these bytes. The only error is that memory ran out.
pub fn refused_script(
    alloc: Global,
    file: &str,
    bytes: &[u8],
    fault: &ScriptFault,
) -> Result<String, AllocError> {
    let mut page = Page::new(alloc, file);
    match *fault {
        ScriptFault::TooLong => explain_too_long(&mut page),
        fault => explain_fault(alloc, &mut page, bytes, fault)?,
    }
    page.whole_text()
}
