//! Takes the machine turns of a run one after another, beside copies of the run. Before each turn that makes an attempt, a copy goes on to
//! the end of the run. This copy takes over the memory of the copy before. During each turn, another copy waits. A change to the run or to
//! one of its copies must not change the others.

ghost use Rattle.std.specs.Prelude.{IsTrue};
ghost use Rattle.wb_tree.specs.Sound.{is_script};

use crate::stop::Stop;
use std::alloc::{AllocError, Global};
use wb_basics::memory::NoMemory;
use wb_heap_model::heap::{Rule, Shape};
use wb_machine::{Finished, Heap, Machine, Turn};
use wb_meaning::run::{Outcome, RunResult};
use wb_tree::script::Script;

pub(crate) const BUDGET: u32 = 1000;

/// The most turns of a run: the first turn, one turn for each step of the budget, and one turn that cuts the run.
pub(crate) const MOST_TURNS: u32 = BUDGET + 2;

pub(crate) const SHAPE: Shape = Shape {
    min: 256,
    step: 256,
    moving: false,
};

/// Runs a script.
pub(crate) fn run_script(rt: &HostRuntime, script: &Script) -> Result<(), Stop>
    requires { IsTrue (is_script script.now) }
{
    let mut lead = machine(rt.alloc(), script)?;
    take_turns(rt, &mut lead)
}

/// Returns a machine at the start of the run. If memory ran out, asks for the machine a second time.
fn machine<'a>(alloc: Global, script: &'a Script) -> Result<Machine<'a>, NoMemory>
    requires { IsTrue (is_script script.now) }
{
    match new_machine(alloc, script) {
        Ok(machine) => Ok(machine),
        Err(_) => new_machine(alloc, script),
    }
}

/// Returns a machine at the start of the run; asks for it just once. A heap may have this shape, so the only possible error is that memory
/// ran out.
fn new_machine<'a>(alloc: Global, script: &'a Script) -> Result<Machine<'a>, NoMemory>
    requires { IsTrue (is_script script.now) }
{
    match Machine::new(alloc, script, Rule::Number(0), BUDGET, SHAPE) {
        Ok(machine) => Ok(machine),
        Err(_) => Err(NoMemory::from(AllocError)),
    }
}

/// Takes all turns of a run.
fn take_turns(rt: &HostRuntime, lead: &mut Machine) -> Result<(), Stop> {
    let mut spare = None;
    for _ in 0..MOST_TURNS {
        if lead.will_attempt() {
            write_end(rt, lead, &mut spare)?;
        }
        if take_turn(rt, lead)? == Turn::Ended {
            break;
        }
    }
    write_end(rt, lead, &mut spare)
}

/// Takes a turn of a run while a copy waits, and prints how far the run and the copy have come.
fn take_turn(rt: &HostRuntime, lead: &mut Machine) -> Result<Turn, Stop> {
    let waiting = copy(lead)?;
    take_turn_beside(rt, lead, &waiting)
}

fn take_turn_beside<'a>(
    rt: &HostRuntime,
    lead: &mut Machine<'a>,
    waiting: &Machine<'a>,
) -> Result<Turn, Stop> {
    let turn = step(lead, waiting)?;
    write_turn(rt, "run", lead)?;
    write_turn(rt, "copy", waiting)?;
    Ok(turn)
}

/// Takes a turn. A machine that has run out of memory in a turn can't go on. So a copy of the waiting machine replaces the machine, and the
/// turn is taken once more.
pub(crate) fn step<'a>(lead: &mut Machine<'a>, waiting: &Machine<'a>) -> Result<Turn, NoMemory> {
    match lead.step() {
        Ok(turn) => Ok(turn),
        Err(_) => {
            *lead = copy(waiting)?;
            lead.step()
        }
    }
}

/// Copies a run. If memory ran out, copies the run a second time.
pub(crate) fn copy<'a>(machine: &Machine<'a>) -> Result<Machine<'a>, NoMemory> {
    match machine.try_copy() {
        Ok(copy) => Ok(copy),
        Err(_) => machine.try_copy(),
    }
}

/// Prints how far a run has come.
fn write_turn(rt: &HostRuntime, name: &str, machine: &Machine) -> Result<(), Stop> {
    println!(rt;
        "{name}: line {}, attempts {}, asks for one {}",
        machine.line(),
        machine.attempts(),
        machine.will_attempt()
    )?;
    Ok(())
}

/// Prints the result of a copy that goes on to the end of the run.
fn write_end(rt: &HostRuntime, lead: &Machine, spare: &mut Option<Heap>) -> Result<(), Stop> {
    let told = end(lead, spare)?;
    write_result(rt, &told)
}

/// Returns the result of the run, which a copy of the run finds. If memory ran out, a second copy finds the result.
fn end(lead: &Machine, spare: &mut Option<Heap>) -> Result<RunResult, NoMemory> {
    match end_of_copy(lead, spare) {
        Ok(told) => Ok(told),
        Err(_) => end_of_copy(lead, spare),
    }
}

fn end_of_copy(lead: &Machine, spare: &mut Option<Heap>) -> Result<RunResult, NoMemory> {
    let copy = lead.try_copy_over(spare.take())?;
    let Finished { result, heap } = copy.finish()?;
    *spare = Some(heap);
    Ok(result)
}

/// Prints how a run ended, and how much the run reported.
fn write_result(rt: &HostRuntime, told: &RunResult) -> Result<(), Stop> {
    let written = match &told.outcome {
        Outcome::Ended { left, leaks } => print!(rt; "ended: {left:?}, {} leaks", leaks.len()),
        Outcome::Panicked(panic) => print!(rt; "ended: {panic:?}"),
        Outcome::NoCleanup => print!(rt; "ended: no cleanup stack"),
        Outcome::Cut(why) => print!(rt; "ended: cut by {why:?}"),
    };
    written?;
    println!(rt;
        ", {} attempts, {} lines, notes {:?}, steps {}",
        told.trace.len(),
        told.lines.len(),
        told.notes.as_slice(),
        told.steps
    )?;
    Ok(())
}
