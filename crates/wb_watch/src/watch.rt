//! A run that is watched, one machine turn after another.

ghost use Rattle.std.specs.Prelude.{◌≡◌, ◌≤◌, false, IfOk, IfSome, IsTrue};
ghost use Rattle.wb_machine.specs.Seen.{seen_at_start, whole_run_of};
ghost use Rattle.wb_machine.specs.Turns.{IsSameRun};
ghost use Rattle.wb_tree.specs.Sound.{is_script};
ghost use Rattle.wb_watch.specs.Watched.{IsWatchedRun};

use crate::attempts::see_newest;
use crate::checks::counted_by;
use crate::pointer_faults::pointer_fault;
use crate::quiet::is_quiet;
use crate::raised::raised_by;
use crate::statements::{Ahead, last_read};
use crate::turns::Watcher;
use crate::values::values_of;
use crate::words::word_ahead;
use std::alloc::{AllocError, Global};
use wb_basics::limits::LARGEST_BUDGET;
use wb_basics::memory::NoMemory;
use wb_history::{Attempts, EndOfRun, History, Keep, RunParameters, WatchedRun};
use wb_machine::{Machine, RunFault, Turn};
use wb_tree::script::Script;

/// Runs the script once with these parameters, and keeps what explanations name and what `keep` adds; `None` if no heap may have this
/// shape. The run ends as the definitions say, but nothing is promised about what is kept. The only error is that memory
/// ran out.
pub fn watch_run<'a>(
    alloc: Global,
    script: &'a Script,
    parameters: RunParameters,
    keep: Keep,
) -> Result<Option<WatchedRun<'a>>, NoMemory>
    requires script { IsTrue (is_script script.now) }
    requires least { 1 ≤ parameters.budget }
    requires greatest { parameters.budget ≤ LARGEST_BUDGET }
    ensures watched { IfOk result (λ watched.
        IfSome watched (IsWatchedRun script.now parameters)) }
{
    match machine_of(alloc, script, &parameters)? {
        Some(machine) => Ok(Some(run_of(alloc, machine, script, parameters, keep)?)),
        None => Ok(None),
    }
}

/// Returns the machine of a run that hasn't begun; `None` if no heap may have this shape. The only error is that memory ran out.
pub fn machine_of<'a>(
    alloc: Global,
    script: &'a Script,
    parameters: &RunParameters,
) -> Result<Option<Machine<'a>>, NoMemory>
    requires script { IsTrue (is_script script.now) }
    requires least { 1 ≤ parameters.now.budget }
    requires greatest { parameters.now.budget ≤ LARGEST_BUDGET }
    ensures begins { IfOk result (λ made. IfSome made (λ machine.
        machine ≡ seen_at_start false script.now parameters.now.rule
        parameters.now.budget parameters.now.shape)) }
{
    let rule = parameters.rule.try_copy()?;
    match Machine::new(alloc, script, rule, parameters.budget, parameters.shape) {
        Ok(machine) => Ok(Some(machine)),
        Err(RunFault::BadShape) => Ok(None),
        Err(RunFault::NoMemory) => Err(NoMemory::from(AllocError)),
    }
}

/// Watches the run of a machine, lets the machine take any turns that are left, and keeps the run's outcome.
fn run_of<'a>(
    alloc: Global,
    mut machine: Machine<'a>,
    script: &Script,
    parameters: RunParameters,
    keep: Keep,
) -> Result<WatchedRun<'a>, NoMemory>
    ensures made_with { IfOk result (λ watched. watched.parameters ≡ parameters) }
    ensures ended { IfOk result (λ watched.
        watched.outcome ≡ (whole_run_of machine.entry).result.outcome) }
{
    let Seen { mut history, end } = see_run(alloc, &mut machine, script, &parameters, keep)?;
    let outcome = machine.run_to_end()?.outcome;
    history.see_outcome(&outcome);
    Ok(WatchedRun {
        parameters,
        outcome,
        history,
        end,
    })
}

/// What was seen of a run.
#[derive(Drop)]
struct Seen<'a> {
    history: History<'a>,
    end: EndOfRun<'a>,
}

/// Lets the machine take its turns, and keeps what happens.
fn see_run<'a>(
    alloc: Global,
    machine: &mut Machine<'a>,
    script: &Script,
    parameters: &RunParameters,
    keep: Keep,
) -> Result<Seen<'a>, NoMemory>
    ensures { IsSameRun machine.old machine.new }
{
    let mut watcher = Watcher::new(alloc, script, parameters.rule.try_copy()?, keep)?;
    let end = see_turns(alloc, machine, &mut watcher, parameters.budget)?;
    let history = watcher.into_history();
    Ok(Seen { history, end })
}

fn see_turns<'a>(
    alloc: Global,
    machine: &mut Machine<'a>,
    watcher: &mut Watcher<'a>,
    budget: u32,
) -> Result<EndOfRun<'a>, NoMemory>
    ensures { IsSameRun machine.old machine.new }
{
    watch(machine, watcher, budget)?;
    Ok(end_of(alloc, machine, &mut watcher.history)?)
}

/// How much of a run is to be watched.
#[derive(Clone, Copy, Debug, PartialEq, Eq)]
pub enum Until {
    /// Up to the attempt with this number.
    Attempt(u32),
    /// Up to the first rise that ends past this length, in bytes.
    Past(u32),
}

/// Runs the script with these parameters up to `until`, and returns only the attempts, with the lines that made them; `None` if no heap may
/// have this shape. The only error is that memory ran out.
pub fn watch_attempts<'a>(
    alloc: Global,
    script: &'a Script,
    parameters: RunParameters,
    until: Until,
) -> Result<Option<Attempts<'a>>, NoMemory>
    requires script { IsTrue (is_script script.now) }
    requires least { 1 ≤ parameters.budget }
    requires greatest { parameters.budget ≤ LARGEST_BUDGET }
{
    match machine_of(alloc, script, &parameters)? {
        Some(machine) => Ok(Some(attempts_of(alloc, machine, &parameters, until)?)),
        None => Ok(None),
    }
}

/// The attempts of a machine's run up to `until`. The machine isn't run any further.
fn attempts_of<'a>(
    alloc: Global,
    mut machine: Machine<'a>,
    parameters: &RunParameters,
    until: Until,
) -> Result<Attempts<'a>, NoMemory> {
    see_attempts(alloc, &mut machine, parameters, until)
}

fn see_attempts<'a>(
    alloc: Global,
    machine: &mut Machine<'a>,
    parameters: &RunParameters,
    until: Until,
) -> Result<Attempts<'a>, NoMemory> {
    let mut attempts = Attempts::new(alloc, parameters.rule.try_copy()?, Keep::Rises);
    watch_some(machine, &mut attempts, parameters.budget, until)?;
    Ok(attempts)
}

/// Lets the machine take its turns up to `until`: at most one for each step of the budget, plus the first turn and the turn that ends the
/// run.
fn watch_some<'a>(
    machine: &mut Machine<'a>,
    attempts: &mut Attempts<'a>,
    budget: u32,
    until: Until,
) -> Result<(), NoMemory> {
    for _ in 0..=budget.saturating_add(1) {
        if is_reached(attempts, until) || machine.step()? == Turn::Ended {
            break;
        }
        see_newest(attempts, machine)?;
    }
    see_newest(attempts, machine)?;
    Ok(())
}

fn is_reached(attempts: &Attempts<'_>, until: Until) -> bool {
    match until {
        Until::Attempt(number) => attempts.count() >= number,
        Until::Past(length) => attempts.top() > length,
    }
}

/// Lets the machine take its turns: at most one for each step of the budget, plus the first turn and the turn that ends the run.
fn watch<'a>(
    machine: &mut Machine<'a>,
    watcher: &mut Watcher<'a>,
    budget: u32,
) -> Result<(), NoMemory>
    ensures { IsSameRun machine.old machine.new }
{
    for _ in 0..=budget.saturating_add(1) {
        if watch_turn(machine, watcher)? == Turn::Ended {
            break;
        }
    }
    watcher.see_end(machine)?;
    Ok(())
}

/// Lets the machine take its next turn, and keeps what happens.
fn watch_turn<'a>(machine: &mut Machine<'a>, watcher: &mut Watcher<'a>) -> Result<Turn, NoMemory>
    ensures { IsSameRun machine.old machine.new }
{
    match machine.next_statement() {
        Some(statement) if is_quiet(statement) => {
            let word = word_ahead(machine, statement);
            let turn = machine.step()?;
            watcher.see_quiet(machine, word)?;
            Ok(turn)
        }
        Some(statement) => {
            let ahead = Ahead::with(machine, statement);
            let turn = machine.step()?;
            watcher.see_begun(machine, &ahead)?;
            Ok(turn)
        }
        None => {
            watcher.go_on()?;
            let turn = machine.step()?;
            watcher.see_other(machine)?;
            Ok(turn)
        }
    }
}

/// Looks at the end of a run. The only error is that memory ran out.
fn end_of<'a>(
    alloc: Global,
    machine: &Machine<'a>,
    history: &mut History<'a>,
) -> Result<EndOfRun<'a>, AllocError> {
    let raised = raised_by(machine);
    let path = match raised {
        Some(raised) => history.path_to(raised)?,
        None => 0,
    };
    let counted = counted_by(machine, alloc)?;
    Ok(EndOfRun {
        raised,
        statement: machine.statement(),
        pointer: pointer_fault(machine, history),
        values: values_of(machine),
        counted,
        names: last_read(machine),
        path: history.calls.lines_of(path)?,
    })
}
