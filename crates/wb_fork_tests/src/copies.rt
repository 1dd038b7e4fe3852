//! Compares a copy of a run under way with its source: each must stay unchanged while the other goes on to its end.

ghost use Rattle.std.specs.Prelude.{IsTrue};
ghost use Rattle.wb_tree.specs.Sound.{is_script};

use crate::comparison::Comparison;
use crate::results::{BUDGET, MOST_TURNS, SHAPE, comes_to_run};
use std::alloc::Global;
use wb_basics::memory::NoMemory;
use wb_heap_model::heap::Rule;
use wb_machine::{Machine, RunFault, Turn};
use wb_tree::script::Script;

/// How far a run has come, as far as its machine shows.
#[derive(Clone, Copy, Debug, PartialEq, Eq)]
struct Place {
    attempts: u32,
    /// The line that was begun last.
    line: u32,
    /// Whether the next turn asks for an attempt.
    asks: bool,
}

/// Which of the two, a copy or its source, goes on to its end first while the other waits.
#[derive(Clone, Copy, Debug, PartialEq, Eq)]
enum First {
    Source,
    Copy,
}

/// The rule of a run without failure.
const NONE: Rule = Rule::Number(0);

/// Copies a script's run without failure before each of the run's `forks` attempts. Finds out whether each copy and its source are
/// independent, whichever of the two ends first. `pairs` and `met` are results of earlier comparisons, and are only passed on.
pub(crate) fn compare_copies(
    alloc: Global,
    script: &Script,
    forks: u32,
    pairs: u32,
    met: u32,
) -> Result<Comparison, RunFault>
    requires { IsTrue (is_script script.now) }
{
    for made in 0..forks {
        if !are_apart(alloc, script, made)? {
            return Ok(Comparison::OtherCopy(made + 1));
        }
    }
    Ok(Comparison::Same { forks, pairs, met })
}

/// Whether a copy and its source are independent. The copy is taken after `made` attempts, before a turn that makes another attempt.
fn are_apart(alloc: Global, script: &Script, made: u32) -> Result<bool, RunFault>
    requires { IsTrue (is_script script.now) }
{
    Ok(
        one_waits(alloc, script, made, First::Source)?
            && one_waits(alloc, script, made, First::Copy)?,
    )
}

/// Whether a copy and its source are independent if `first` goes on to its end first. The other must stay unchanged meanwhile, and both
/// must have the result of the whole run.
fn one_waits(alloc: Global, script: &Script, made: u32, first: First) -> Result<bool, RunFault>
    requires { IsTrue (is_script script.now) }
{
    let mut source = Machine::new(alloc, script, NONE, BUDGET, SHAPE)?;
    let is_copy_apart = is_copy_apart(alloc, script, made, first, &mut source);
    let is_source_as_run = comes_to_run(alloc, script, &NONE, source)?;
    Ok(is_source_as_run && is_copy_apart?)
}

/// Copies a run after `made` attempts. Lets `first` go on to its end, and then the copy, if the copy hasn't ended. Returns whether two
/// things hold: the machine that waited stayed unchanged, and the copy has the result of the whole run. The caller lets the source go on to
/// its end.
fn is_copy_apart(
    alloc: Global,
    script: &Script,
    made: u32,
    first: First,
    source: &mut Machine,
) -> Result<bool, RunFault>
    requires { IsTrue (is_script script.now) }
{
    go_to_attempt(source, made)?;
    let mut copy = source.try_copy()?;
    let stays = one_stays(first, source, &mut copy);
    let is_copy_as_run = comes_to_run(alloc, script, &NONE, copy)?;
    Ok(is_copy_as_run && stays?)
}

/// Takes turns until `made` attempts are made and the next turn makes another attempt. If the run makes no other attempt, takes turns to
/// the run's end.
fn go_to_attempt(source: &mut Machine, made: u32) -> Result<(), NoMemory> {
    for _ in 0..MOST_TURNS {
        if source.attempts() == made && source.will_attempt() {
            break;
        }
        source.step()?;
    }
    Ok(())
}

fn one_stays(first: First, source: &mut Machine, copy: &mut Machine) -> Result<bool, NoMemory> {
    match first {
        First::Source => stays(copy, source),
        First::Copy => stays(source, copy),
    }
}

/// Whether two machines have come equally far, and `waiting` stays unchanged while `going` goes on to its end.
fn stays(waiting: &Machine, going: &mut Machine) -> Result<bool, NoMemory> {
    let place = place_of(waiting);
    let is_same = place == place_of(going);
    go_to_end(going)?;
    Ok(is_same && place == place_of(waiting))
}

fn place_of(machine: &Machine) -> Place {
    Place {
        attempts: machine.attempts(),
        line: machine.line(),
        asks: machine.will_attempt(),
    }
}

fn go_to_end(machine: &mut Machine) -> Result<(), NoMemory> {
    for _ in 0..MOST_TURNS {
        if let Turn::Ended = machine.step()? {
            break;
        }
    }
    Ok(())
}
