//! A run in which the attempts of a set fail.

ghost use Rattle.std.specs.Prelude.{◌≡◌, [], ◌∷◌, ◌++◌, false, IfOk, IsTrue};
ghost use Rattle.wb_heap_model.specs.declared.heap.Rule.TheVariants as rules;
ghost use Rattle.wb_runs.specs.Sets.{set_run};
ghost use Rattle.wb_tree.specs.Sound.{is_script};

use crate::parting::MOST_STEPS;
use std::alloc::Global;
use wb_basics::memory::NoMemory;
use wb_heap_model::heap::{Answer, Attempt, Numbers, Rule};
use wb_machine::{Finished, Heap, Machine, Turn};
use wb_meaning::conditions::Conditions;
use wb_tree::script::Script;

/// A run under way in which the attempts of a set fail.
pub(crate) struct SetRun<'a> {
    /// The run. It keeps a line for each attempt.
    pub machine: Machine<'a>,
    /// The numbers of the attempts that fail, in ascending order.
    pub numbers: Numbers,
    /// The greatest end of a cell granted so far, in bytes from the heap's start; 0 if no attempt was granted.
    pub top: u32,
    /// Whether the run is over.
    pub is_over: bool,
    ghost rule: { machine.rule ≡ rules.Set numbers },
    ghost lines: { machine.keeps_rises ≡ false },
}

/// This implementation is written out rather than derived. So a proof elsewhere that drops a `SetRun` sees one call, and only the proof of
/// this function goes through the fields.
impl Drop for SetRun<'_> {
    fn drop(self) {
        let SetRun {
            machine: _,
            numbers: _,
            top: _,
            is_over: _,
        } = self;
    }
}

/// Where the cell of an attempt ends, in bytes from the heap's start; 0 if there is no attempt, or if it isn't granted.
fn end_of(attempt: Option<Attempt>) -> u32 {
    match attempt {
        Some(attempt) if attempt.answer == Answer::Granted => {
            attempt.place.saturating_add(attempt.length)
        }
        _ => 0,
    }
}

/// The rule under which the attempts of a set fail.
fn rule_for(numbers: &Numbers) -> Result<Rule, NoMemory>
    ensures { IfOk result (λ rule. rule ≡ rules.Set numbers.now) }
{
    Ok(Rule::Set(numbers.try_copy()?))
}

/// A copy of a set with one more number at its end.
fn set_with(numbers: &Numbers, number: u32) -> Result<Numbers, NoMemory>
    ensures { IfOk result (λ longer. longer ≡ numbers.now ++ number ∷ []) }
{
    let mut longer = numbers.try_copy()?;
    longer.push(number)?;
    Ok(longer)
}

impl<'a> SetRun<'a> {
    ghost use Rattle.wb_lengths.specs.Forks.{IsOf, IsOfSame};

    /// The run before its first attempt. Its heap takes the memory of `spare`, if there is any.
    pub fn new(
        alloc: Global,
        script: &'a Script,
        numbers: Numbers,
        conditions: Conditions,
        spare: Option<Heap>,
    ) -> Result<SetRun<'a>, NoMemory>
        requires script { IsTrue (is_script script.now) }
        ensures { IfOk result (IsOf script.now conditions.budget conditions.shape) }
    {
        let rule = rule_for(&numbers)?;
        let start = Machine::start(alloc, script, rule, conditions)?;
        let machine = start.try_copy_over(spare)?;
        Ok(SetRun {
            machine,
            numbers,
            top: 0,
            is_over: false,
        })
    }

    /// A copy of the run: changing the run or its copy doesn't change the other. The copy's heap takes the memory of `spare`, if there is
    /// any.
    pub fn copy_over(&self, spare: Option<Heap>) -> Result<SetRun<'a>, NoMemory>
        ensures { IfOk result (λ copy. IsOfSame self.now copy) }
    {
        let numbers = self.numbers.try_copy()?;
        let machine = self.machine.try_copy_over(spare)?;
        Ok(SetRun {
            machine,
            numbers,
            top: self.top,
            is_over: self.is_over,
        })
    }

    /// Takes the next turn, if the run isn't over.
    pub fn step(&mut self) -> Result<(), NoMemory>
        ensures { IsOfSame self.old self.new }
    {
        let turn = self.machine.step()?;
        self.is_over = turn == Turn::Ended;
        self.top = self.top.max(end_of(self.machine.last_attempt()));
        Ok(())
    }

    /// Takes turns until the next turn makes an attempt. Returns `false` if the run is over before that, or takes too long.
    pub fn go_to_attempt(&mut self) -> Result<bool, NoMemory>
        ensures { IsOfSame self.old self.new }
    {
        for _turn in 0..MOST_STEPS + 2 {
            if self.machine.will_attempt() {
                return Ok(true);
            }
            if self.is_over {
                return Ok(false);
            }
            self.step()?;
        }
        Ok(false)
    }

    /// Makes the next attempt one of those that fail, and takes the turn that makes it. Does nothing if the next turn makes no attempt.
    pub fn refuse(&mut self) -> Result<(), NoMemory>
        ensures { IsOfSame self.old self.new }
    {
        if !self.machine.will_attempt() {
            return Ok(());
        }
        let Some(number) = self.machine.next_attempt() else {
            return Ok(());
        };
        let numbers = set_with(&self.numbers, number)?;
        let rule = rule_for(&numbers)?;
        self.machine.set_rule(rule);
        self.numbers = numbers;
        self.step()
    }

    /// Gives the run up and returns its heap, so that another run can take the heap's memory.
    pub fn into_heap(self) -> Heap {
        let SetRun {
            machine,
            numbers: _,
            top: _,
            is_over: _,
        } = self;
        machine.into_heap()
    }

    /// Takes all turns that are left. Returns the result of the run with its heap, and the numbers of the attempts that fail.
    pub fn finish(self) -> Result<(Finished, Numbers), NoMemory>
        ensures { IfOk result (λ both. both.0.result
            ≡ set_run self.entry.machine.script self.entry.machine.budget
            self.entry.machine.shape both.1) }
    {
        let SetRun {
            machine,
            numbers,
            top: _,
            is_over: _,
        } = self;
        let finished = machine.finish()?;
        Ok((finished, numbers))
    }
}
