//! Takes the machine turns of a run that keeps its rises but no trace, one after another. A line is printed before and after each turn that
//! makes an attempt. So `tools/failing_allocations.py` can count the allocations of the turn. A turn must make no allocation unless its
//! attempt is a rise. The rises are printed last.

ghost use Rattle.std.specs.Prelude.{IsTrue};
ghost use Rattle.wb_tree.specs.Sound.{is_script};

use crate::runs::{BUDGET, MOST_TURNS, SHAPE, copy, step};
use crate::stop::Stop;
use std::alloc::{AllocError, Global};
use wb_basics::memory::NoMemory;
use wb_machine::{Machine, Turn, run_rises};
use wb_meaning::conditions::Conditions;
use wb_meaning::progress::Silent;
use wb_meaning::run::RisesResult;
use wb_tree::script::Script;

/// Runs a script, and then prints its rises.
pub(crate) fn run_for_rises(rt: &HostRuntime, script: &Script) -> Result<(), Stop>
    requires { IsTrue (is_script script.now) }
{
    let mut lead = machine(rt.alloc(), script)?;
    take_turns(rt, &mut lead)?;
    let (sized, _) = rises_of(rt.alloc(), script)?;
    for rise in sized.rises.as_slice() {
        println!(rt; "rise {} of the run to {}", rise.number, rise.top)?;
    }
    Ok(())
}

/// Returns a machine at the start of the run. If memory ran out, asks for the machine a second time.
fn machine<'a>(alloc: Global, script: &'a Script) -> Result<Machine<'a>, NoMemory>
    requires { IsTrue (is_script script.now) }
{
    match Machine::new_rises(alloc, script, BUDGET, SHAPE) {
        Ok(machine) => Ok(machine),
        Err(_) => Machine::new_rises(alloc, script, BUDGET, SHAPE).map_err(|_| NoMemory::from(
            AllocError,
        )),
    }
}

/// Makes the whole run, and returns its rises and its number of attempts. If memory ran out, makes the run a second time.
fn rises_of(alloc: Global, script: &Script) -> Result<(RisesResult, u32), NoMemory>
    requires { IsTrue (is_script script.now) }
{
    let conditions = Conditions {
        budget: BUDGET,
        shape: SHAPE,
    };
    match run_rises(alloc, script, conditions, &mut Silent) {
        Ok(sized) => Ok(sized),
        Err(_) => run_rises(alloc, script, conditions, &mut Silent),
    }
}

/// Takes all turns of a run.
fn take_turns(rt: &HostRuntime, lead: &mut Machine) -> Result<(), Stop> {
    for _ in 0..MOST_TURNS {
        if take_turn(rt, lead)? == Turn::Ended {
            break;
        }
    }
    Ok(())
}

/// Takes a turn of a run while a copy of the run waits.
fn take_turn(rt: &HostRuntime, lead: &mut Machine) -> Result<Turn, Stop> {
    let waiting = copy(lead)?;
    if lead.will_attempt() {
        take_asking_turn(rt, lead, &waiting)
    } else {
        Ok(step(lead, &waiting)?)
    }
}

/// Takes a turn that makes an attempt, and prints a line before and after the turn.
fn take_asking_turn<'a>(
    rt: &HostRuntime,
    lead: &mut Machine<'a>,
    waiting: &Machine<'a>,
) -> Result<Turn, Stop> {
    println!(rt; "an attempt is to come")?;
    let turn = step(lead, waiting)?;
    println!(rt;
        "attempt {} of the run, at line {}",
        lead.attempts(),
        lead.line()
    )?;
    Ok(turn)
}
