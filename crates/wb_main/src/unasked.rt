//! What `check` tries unasked if it found nothing: whether the script leaks or panics when all attempts from some number on fail, when any
//! set of attempts fails in a heap in which each cell that grows moves, or in heaps of every length. It tries these in this order, up to
//! the first that shows a leak or a panic. The work is limited by steps and states, and not by time, so that a script always gets the same
//! answer. What the user is told of it is in `wb_explain`.

ghost use Rattle.std.specs.Prelude.{IsTrue, ◌≤◌};
ghost use Rattle.wb_tree.specs.Sound.{is_script};

use crate::asked::{budget_of, search_of};
use crate::progress_line::ProgressLine;
use crate::progress_words::number_of;
use std::alloc::Global;
use std::slice;
use wb_explain::runs::{Question, Shown};
use wb_heap_model::heap::{Rule, Shape};
use wb_lengths::{first_bad, lengths_within};
use wb_machine::run_reporting;
use wb_meaning::conditions::Conditions;
use wb_runs::failures::{Failing, Failures};
use wb_runs::lengths::LengthTable;
use wb_runs::part::Part;
use wb_runs::progress::{Progress, Silent};
use wb_runs::run_end::RunEnd;
use wb_sweep::{Found, sweep_every_set, sweep_whole};
use wb_tree::script::Script;
use workbench::{Command, Search};

/// How many steps the runs under failures that persist may take together.
const MOST_STEPS_FROM: u32 = 500_000;

/// How many steps the runs in heaps of all lengths may take together.
const MOST_STEPS_OF_LENGTHS: u32 = 1_000_000;

/// How many steps the search over all sets may take, if each state takes as many steps as the run without failure takes from one attempt to
/// the next.
const MOST_STEPS_OF_SETS: u32 = 500_000;

/// How many states the search over all sets may meet, however few steps each takes.
const MOST_STATES: u32 = 20_000;

/// What came of one of the questions that `check` asks unasked.
#[derive(Drop)]
pub enum Verdict {
    /// No run that was asked about leaks or panics.
    Fine,
    /// The question is open: the answer would take too many steps or states, a run was cut, or memory ran out.
    Undecided,
    /// The least attempt for which the run leaks or panics if it and all later ones fail, and how that run ends.
    From(u32, RunEnd),
    /// The table of all lengths, some of whose runs leak or panic, and the least length of such a run, in bytes.
    Length(LengthTable, u32),
    /// The least set whose run leaks or panics in a heap in which each cell that grows moves, and how that run ends.
    Set(Failing, RunEnd),
}

impl Verdict {
    /// What the user is told of the verdict; `None` if it shows neither a leak nor a panic.
    pub fn shows(&self) -> Option<Shown<'_>> {
        match self {
            Verdict::Fine | Verdict::Undecided => None,
            Verdict::From(first, end) => Some(Shown::Persistent(*first, *end)),
            Verdict::Length(table, _) => Some(Shown::Lengths(table.as_slice())),
            Verdict::Set(at, end) => Some(Shown::Sets(numbers_of(at), *end)),
        }
    }
}

/// The numbers of the attempts that fail, under a failure that a sweep over sets found.
fn numbers_of(at: &Failing) -> &[u32] {
    match at {
        Failing::Set(numbers) => numbers.as_slice(),
        Failing::Number(0) | Failing::Every(_) | Failing::From(_) | Failing::Pair(_, _) => &[],
        Failing::Number(number) => slice::from_ref(number),
    }
}

/// Whether a question is still open after a command that found nothing: the command doesn't ask it, and its answer doesn't settle it.
pub fn is_open(command: &Command, question: Question) -> bool {
    let Some(search) = search_of(&command.task) else {
        return false;
    };
    match (search, question) {
        (Search::EverySet(_), Question::Sets) => !command.shape.moving,
        (Search::EverySet(_), Question::Persistent | Question::Lengths) => false,
        (_, Question::Sets | Question::Lengths) => true,
        (Search::Least(failures) | Search::All(failures) | Search::Ends(failures), _) => {
            failures != Failures::Persistent
        }
        (Search::Sets(_), Question::Persistent) => true,
    }
}

/// Asks a question about a script for which the command itself found neither a leak nor a panic. The progress is shown unless the command
/// asks for none.
pub fn ask(rt: &HostRuntime, command: &Command, script: &Script, question: Question) -> Verdict
    requires { IsTrue (is_script script.now) }
{
    if command.quiet {
        answer(rt.alloc(), command, script, question, &mut Silent)
    } else {
        let mut line = ProgressLine::new(rt);
        answer(rt.alloc(), command, script, question, &mut line)
    }
}

/// Returns what comes of a question. `progress` is notified of how far the sweeps have come.
fn answer<P: Progress>(
    alloc: Global,
    command: &Command,
    script: &Script,
    question: Question,
    progress: &mut P,
) -> Verdict
    requires { IsTrue (is_script script.now) }
{
    let Some(conditions) = Conditions::new(budget_of(command), command.shape) else {
        return Verdict::Undecided;
    };
    match question {
        Question::Persistent => ask_persistent(alloc, script, conditions, progress),
        Question::Lengths => ask_lengths(alloc, script, conditions, progress),
        Question::Sets => ask_sets(alloc, script, conditions, progress),
    }
}

/// Whether the script leaks or panics when all attempts from some number on fail. Each run may take an equal share of the steps; a run that
/// would take more leaves the question open.
fn ask_persistent<P: Progress>(
    alloc: Global,
    script: &Script,
    conditions: Conditions,
    progress: &mut P,
) -> Verdict
    requires script { IsTrue (is_script script.now) }
{
    let Some((attempts, _)) = attempts_and_steps(alloc, script, conditions) else {
        return Verdict::Undecided;
    };
    let share = (MOST_STEPS_FROM / attempts.saturating_add(2)).max(1);
    let shorter = Conditions {
        budget: share.min(conditions.budget),
        shape: conditions.shape,
    };
    match sweep_whole(alloc, script, Failures::Persistent, shorter, progress) {
        Ok(swept) => match swept.found {
            Some(found) => Verdict::From(number_of(&found.at), RunEnd::of(&found.result.outcome)),
            None => Verdict::Fine,
        },
        Err(_) => Verdict::Undecided,
    }
}

/// How many attempts the run without failure makes, and how many steps it takes; `None` if memory ran out.
fn attempts_and_steps(alloc: Global, script: &Script, conditions: Conditions) -> Option<(u32, u32)>
    requires script { IsTrue (is_script script.now) }
{
    let plain = run_reporting(alloc, script, Rule::Number(0), conditions, &mut Silent).ok()?;
    let attempts = u32::try_from(plain.trace.len()).ok()?;
    Some((attempts, plain.steps))
}

/// Whether the script leaks or panics in a heap of some length.
fn ask_lengths<P: Progress>(
    alloc: Global,
    script: &Script,
    conditions: Conditions,
    progress: &mut P,
) -> Verdict
    requires script { IsTrue (is_script script.now) }
{
    let Ok(Some(table)) = lengths_within(alloc, script, conditions, MOST_STEPS_OF_LENGTHS, progress)
    else {
        return Verdict::Undecided;
    };
    match first_bad(&table) {
        Some(length) => Verdict::Length(table, length),
        None if has_cut(&table) => Verdict::Undecided,
        None => Verdict::Fine,
    }
}

/// Whether the run is cut in a heap of some length.
fn has_cut(table: &LengthTable) -> bool {
    table.as_slice().iter().any(|range| range.end.is_cut())
}

/// Whether the script leaks or panics when some set of attempts fails, in a heap in which each cell that grows moves.
fn ask_sets<P: Progress>(
    alloc: Global,
    script: &Script,
    conditions: Conditions,
    progress: &mut P,
) -> Verdict
    requires script { IsTrue (is_script script.now) }
{
    let moving = Conditions {
        budget: conditions.budget,
        shape: Shape {
            moving: true,
            ..conditions.shape
        },
    };
    let Some((attempts, steps)) = attempts_and_steps(alloc, script, moving) else {
        return Verdict::Undecided;
    };
    let states = states_for(attempts, steps);
    match sweep_every_set(alloc, script, Part::WHOLE, states, moving, progress) {
        Ok(swept) => match swept.found {
            Some(Found { at, result }) => Verdict::Set(at, RunEnd::of(&result.outcome)),
            None => Verdict::Fine,
        },
        Err(_) => Verdict::Undecided,
    }
}

/// How many states the search over all sets may meet, for a script whose run without failure makes `attempts` attempts in `steps` steps.
/// From each state, runs go on to the next attempt in two ways, as the attempt is granted or fails.
fn states_for(attempts: u32, steps: u32) -> u32
    ensures { 1 ≤ result }
{
    let each = (steps / attempts.max(1)).saturating_add(1);
    let states = (MOST_STEPS_OF_SETS / each) / 2;
    states.max(1).min(MOST_STATES)
}
