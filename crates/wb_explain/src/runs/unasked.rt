//! What is said about the further questions that a check tries on its own if it finds nothing: which question first shows a leak or a
//! panic, which question stayed undecided, or that no question shows anything. Other code decides what is tried, and how long.

use crate::runs::end_words::EndInWords;
use crate::runs::number_lists::put_list;
use crate::runs::script_page::ScriptPage;
use crate::runs::shell_words::ShellOptions;
use crate::runs::spread::lengths_of;
use wb_heap_model::heap::Ptr;
use wb_history::{Origin, WatchedRun};
use wb_runs::lengths::LengthRange;
use wb_runs::run_end::RunEnd;

/// A further question that a check tries on its own.
#[derive(Clone, Copy, Debug, PartialEq, Eq)]
pub enum Question {
    /// Whether the script leaks or panics if some attempt and all later attempts fail.
    Persistent,
    /// Whether the script leaks or panics in a heap of some length.
    Lengths,
    /// Whether the script leaks or panics if some set of attempts fails, in a heap that moves each cell that grows.
    Sets,
}

impl Question {
    /// The command that asks the question.
    fn command(self) -> &'static str {
        match self {
            Question::Persistent => "workbench check --persistent",
            Question::Lengths => "workbench lengths",
            Question::Sets => "workbench check --sets",
        }
    }
}

/// What shows a leak or a panic that a check had not found.
#[derive(Clone, Copy)]
pub enum Shown<'a> {
    /// The failure of this attempt and of all later attempts, and how the run ends.
    Persistent(u32, RunEnd),
    /// The table of all lengths of heaps: in some of them the run leaks or panics.
    Lengths(&'a [LengthRange]),
    /// The failure of these attempts in a heap that moves each cell that grows, and how the run ends.
    Sets(&'a [u32], RunEnd),
}

/// Returns whether a cell that grew moved in a run though it had room to grow at its place.
pub fn moves_with_room(run: &WatchedRun<'_>) -> bool {
    for made in run.history.attempts.kept_attempts() {
        let (place, number) = (made.attempt.place, made.attempt.number);
        if made.is_granted()
            && let Some(life) = run.history.lives.find(Ptr { place, number })
            && life.origin == Origin::MovedWithRoom
        {
            return true;
        }
    }
    false
}

/// Says what was found, and the command that shows it. `moves` says whether a cell that grew moved in that run though it had room.
pub fn put_shown(page: &mut ScriptPage<'_>, shown: Shown<'_>, moves: bool, options: ShellOptions) {
    match shown {
        Shown::Persistent(first, end) => {
            let command = Question::Persistent.command();
            page.page.write_file_message(format_args!(
                "where attempt {first} and all later ones fail, this script {}; `{command}{options}` shows it",
                EndInWords(end)
            ));
        }
        Shown::Lengths(ranges) => put_least_bad(page, ranges, options),
        Shown::Sets(numbers, end) => put_set(page, numbers, end, moves, options),
    }
}

/// Says which set was found; the empty set is the run without failure.
fn put_set(
    page: &mut ScriptPage<'_>,
    numbers: &[u32],
    end: RunEnd,
    moves: bool,
    options: ShellOptions,
) {
    page.page.begin_file_message();
    match numbers.len() {
        0 => {}
        1 => page.page.write_text("where attempt "),
        _ => page.page.write_text("where attempts "),
    }
    put_list(page, numbers, numbers.len());
    page.page.write_text(match numbers.len() {
        0 => "where each cell that grows moves",
        1 if moves => " fails and each cell that grows moves",
        1 => " fails",
        _ if moves => " fail and each cell that grows moves",
        _ => " fail",
    });
    let command = Question::Sets.command();
    page.page.write(format_args!(
        ", this script {}; `{command}{options}` shows it",
        EndInWords(end)
    ));
    page.page.end_line();
}

/// Says which range of lengths is the first range in which runs leak or panic.
fn put_least_bad(page: &mut ScriptPage<'_>, ranges: &[LengthRange], options: ShellOptions) {
    for (index, range) in ranges.iter().enumerate() {
        if let Some(spread) = lengths_of(ranges, index)
            && range.end.is_bad()
        {
            let (end, command) = (EndInWords(range.end), Question::Lengths.command());
            page.page.write_file_message(format_args!(
                "in a heap of {spread} this script {end}; `{command}{options}` shows every length"
            ));
            return;
        }
    }
}

/// Says that a question stayed undecided, and which command asks it.
pub fn put_undecided(page: &mut ScriptPage<'_>, question: Question, options: ShellOptions) {
    let what = match question {
        Question::Persistent => "failures that persist",
        Question::Lengths => "heaps of every length",
        Question::Sets => "all sets of attempts where each cell that grows moves",
    };
    let command = question.command();
    page.page.write_file_message(format_args!(
        "{what} take more than is tried unasked; `{command}{options}` tries them"
    ));
}

/// Says that no further question shows a leak or a panic.
pub fn put_nothing_else(page: &mut ScriptPage<'_>) {
    page.page.write_file_text(
        "whatever attempts fail, and wherever cells lie, this script neither leaks nor panics",
    );
}
