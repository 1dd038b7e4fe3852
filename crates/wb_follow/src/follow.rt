//! Follows a run: writes its heading, its turns, and its end.

ghost use Rattle.std.specs.Prelude.{◌≤◌, IsTrue};
ghost use Rattle.wb_tree.specs.Sound.{is_script};

use crate::endings::{ending_of, put_ending};
use crate::open::Open;
use crate::rows::{RowSink, Rows, Widths};
use crate::turns::{Plan, follow_turns};
use crate::window::{Asked, window_of};
use std::alloc::Global;
use wb_basics::limits::LARGEST_BUDGET;
use wb_basics::memory::NoMemory;
use wb_history::{RunParameters, ScriptLines};
use wb_tree::script::Script;
use wb_watch::machine_of;

/// The note after the rows that were written, if the workbench runs out of memory.
const NO_MEMORY: &str = "note: memory ran out, so the rest of the run isn't followed\n";

/// The note if the run makes fewer attempts than the number of the attempt to be followed.
const NO_ATTEMPT: &str = "note: the run ends before the attempt of '--follow-around'\n";

/// The least width of the column of steps and of the column of lines: the width of their headings.
const LEAST_WIDTH: usize = 4;

/// The least width of the column of statements. `MOST_STATEMENT` is the greatest width of this column.
const LEAST_STATEMENT: usize = 20;

const MOST_STATEMENT: usize = 22;

/// How many columns are kept free for the indentation of statements.
const MOVED: usize = 2;

/// Writes the run of a script with these parameters as rows, but only the rows of the steps that `asked` selects. If memory runs out, the
/// remaining rows are left out, and a note says so.
pub fn follow_run<O: RowSink>(
    alloc: Global,
    lines: &ScriptLines<'_>,
    script: &Script,
    parameters: &RunParameters,
    asked: Asked,
    sink: &mut O,
)
    requires script { IsTrue (is_script script.now) }
    requires least { 1 ≤ parameters.now.budget }
    requires greatest { parameters.now.budget ≤ LARGEST_BUDGET }
{
    if follow_all(alloc, lines, script, parameters, asked, sink).is_err() {
        sink.take_rows(NO_MEMORY);
    }
}

/// Does what `follow_run` does, but writes no note if memory runs out. The only error is that memory ran out.
fn follow_all<O: RowSink>(
    alloc: Global,
    lines: &ScriptLines<'_>,
    script: &Script,
    parameters: &RunParameters,
    asked: Asked,
    sink: &mut O,
) -> Result<(), NoMemory>
    requires script { IsTrue (is_script script.now) }
    requires least { 1 ≤ parameters.now.budget }
    requires greatest { parameters.now.budget ≤ LARGEST_BUDGET }
{
    let Some(ending) = ending_of(alloc, script, parameters)? else {
        return Ok(());
    };
    let Some(window) = window_of(alloc, script, parameters, asked, ending.steps)? else {
        sink.take_rows(NO_ATTEMPT);
        return Ok(());
    };
    let plan = Plan {
        lines,
        script,
        ending,
        window,
        budget: parameters.budget,
    };
    let mut rows = Rows::new(alloc, widths_of(lines, ending.steps));
    put_heading(&mut rows, lines.name);
    let followed = follow_machine(alloc, plan, parameters, &mut rows, sink);
    rows.hand_to(sink)?;
    followed
}

/// Writes the turns of a run, and its end.
fn follow_machine<O: RowSink>(
    alloc: Global,
    plan: Plan<'_>,
    parameters: &RunParameters,
    rows: &mut Rows,
    sink: &mut O,
) -> Result<(), NoMemory>
    requires script { IsTrue (is_script plan.script.now) }
    requires least { 1 ≤ parameters.now.budget }
    requires greatest { parameters.now.budget ≤ LARGEST_BUDGET }
{
    let Some(mut machine) = machine_of(alloc, plan.script, parameters)? else {
        return Ok(());
    };
    let mut open = Open::new(alloc)?;
    if follow_turns(&mut machine, &mut open, plan, rows, sink)? {
        put_ending(rows, plan.ending);
    }
    Ok(())
}

/// Writes the name of the file, and the headings of the columns.
fn put_heading(rows: &mut Rows, name: &str) {
    rows.begin(true);
    rows.text(name);
    rows.text(": the run, step by step");
    rows.end();
    rows.begin(true);
    rows.head("step", "line");
    rows.text("statement");
    rows.effect_text("what it does (cell 2 is that of attempt 2)");
    rows.end();
}

/// The widths of the columns for a run of `steps` steps.
fn widths_of(lines: &ScriptLines<'_>, steps: u32) -> Widths {
    let mut longest: usize = 0;
    for number in 1..=lines.count() {
        let line = lines.line(number).trim();
        if !line.starts_with('#') {
            longest = longest.max(line.len());
        }
    }
    Widths {
        step: digits_of(steps).max(LEAST_WIDTH),
        line: digits_of(lines.count()).max(LEAST_WIDTH),
        statement: longest
            .saturating_add(MOVED)
            .clamp(LEAST_STATEMENT, MOST_STATEMENT),
    }
}

/// How many decimal digits a number has.
fn digits_of(number: u32) -> usize {
    match number {
        0..=9 => 1,
        10..=99 => 2,
        100..=999 => 3,
        1_000..=9_999 => 4,
        10_000..=99_999 => 5,
        100_000..=999_999 => 6,
        _ => 7,
    }
}
