//! The values that the parameters of a body get from the body's caller.

ghost use Rattle.std.specs.Prelude.{◌≡◌, ℕ, ◌≤◌, List, ◌++◌, map, drop, vec_len, OnOk};
ghost use Rattle.wb_heap_model.specs.Texts.{Buffer};
ghost use Rattle.wb_machine.specs.LocalValues.{value_of, values_stored, AreAscending, number_over, passed_over};
ghost use Rattle.wb_machine.specs.LocalValues.{values_over};

use crate::locals::{Slot, Stored, push_slot};
use crate::pointers::{ReadContext, pointer_over};
use std::alloc::AllocError;
use wb_heap_model::heap::Ptr;
use wb_tree::script::{Argument, Number};

/// What the parameters of a body get their values from.
#[derive(Clone, Copy)]
pub enum CallArguments<'b> {
    /// The arguments of a call, one for each parameter.
    Arguments(&'b [Argument]),
    /// The pointer of an item of the cleanup stack, for the operation that destroys the item.
    Item(Ptr),
}

/// The value that a number operand has in a frame; 0 if the operand names no number.
#[inline(always)]
pub fn number_over(frame: &[Stored], operand: Number) -> i32
    ensures { (buffers : List Buffer) →
        result ≡ number_over (values_stored buffers frame.now) operand }
{
    match operand {
        Number::Constant(number) => number,
        Number::Variable(index) => match frame.get(index as usize) {
            Some(Stored::Small(Slot::Number(number))) => *number,
            _ => 0,
        },
    }
}

/// The value that a parameter gets for an argument. The argument is read in the caller's frame.
fn argument_slot(context: ReadContext, frame: &[Stored], argument: Argument) -> Slot
    ensures { (buffers : List Buffer) →
        value_of result ≡ passed_over context.entry.script.now context.entry.heap.now
        context.entry.this (values_stored buffers frame.now) argument }
{
    match argument {
        Argument::Passed(pointer) => Slot::Pointer(pointer_over(context, frame, pointer)),
        Argument::Given(number) => Slot::Number(number_over(frame, number)),
    }
}

/// Appends the values of the arguments to `slots`, from left to right. The caller's locals begin at `base`.
fn pass(
    slots: &mut Vec<Stored>,
    base: usize,
    context: ReadContext,
    arguments: &[Argument],
) -> Result<(), AllocError>
    requires { base ≤ vec_len slots.old }
    ensures passed { (buffers : List Buffer) →
        OnOk result (values_stored buffers slots.new.items
        ≡ values_stored buffers slots.old.items
        ++ map (passed_over context.entry.script.now context.entry.heap.now context.entry.this
        (drop base (values_stored buffers slots.old.items))) arguments.now) }
    ensures ascending { (end : ℕ) → AreAscending 0 end slots.old.items →
        AreAscending 0 end slots.new.items }
    ensures more { vec_len slots.old ≤ vec_len slots.new }
{
    let end = slots.len();
    for argument in arguments {
        let slot = argument_slot(context, &slots[base..end], *argument);
        push_slot(slots, slot)?;
    }
    Ok(())
}

/// Appends to `slots` the values that a body's parameters get. The caller's locals begin at `base`.
pub fn hand(
    slots: &mut Vec<Stored>,
    base: usize,
    context: ReadContext,
    call_arguments: CallArguments,
) -> Result<(), AllocError>
    requires { base ≤ vec_len slots.old }
    ensures call_arguments { (buffers : List Buffer) →
        OnOk result (values_stored buffers slots.new.items
        ≡ values_stored buffers slots.old.items
        ++ values_over context.entry.script.now context.entry.heap.now context.entry.this
        (drop base (values_stored buffers slots.old.items)) call_arguments.entry) }
    ensures ascending { (end : ℕ) → AreAscending 0 end slots.old.items →
        AreAscending 0 end slots.new.items }
    ensures more { vec_len slots.old ≤ vec_len slots.new }
{
    match call_arguments {
        CallArguments::Arguments(arguments) => pass(slots, base, context, arguments),
        CallArguments::Item(ptr) => push_slot(slots, Slot::Pointer(ptr)),
    }
}
