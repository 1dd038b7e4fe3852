//! The values with which a line panicked. They are read from the machine that the panic stopped.

use crate::raised::raised_by;
use wb_heap_model::heap::Panic;
use wb_history::{Meant, Raiser, Values};
use wb_machine::Machine;
use wb_tree::script::{Number, Pointer, Readable, Statement, Writable};

/// Returns the values with which a line raised the panic that ended a run; `None` if the panic is about no values.
pub fn values_of(machine: &Machine<'_>) -> Option<Meant> {
    let raised = raised_by(machine)?;
    if raised.raiser != Raiser::Statement {
        return None;
    }
    let statement = machine.statement()?;
    match raised.panic {
        Panic::TOO_LONG => too_long(machine, statement),
        Panic::POSITION_OUT_OF_BOUNDS => out_of_bounds(machine, statement),
        Panic::SHORTER_THAN_TEXT => too_little_room(machine, statement),
        Panic::NUMBER_OUT_OF_RANGE => out_of_range(machine, statement),
        Panic::POP_BELOW_TRAP => too_many_items(machine, statement),
        _ => None,
    }
}

/// How many items were to be popped.
fn too_many_items(machine: &Machine<'_>, statement: &Statement) -> Option<Meant> {
    let wanted = match statement {
        Statement::Pop(number) | Statement::PopDestroy(number) => machine.number(*number),
        _ => 1,
    };
    about(1, Values::TooManyItems { wanted })
}

/// How long a text would have been.
fn too_long(machine: &Machine<'_>, statement: &Statement) -> Option<Meant> {
    match statement {
        Statement::Copy(target, text) => would_have(machine, *target, machine.length(*text)),
        Statement::Append(target, text) | Statement::Insert(target, _, text) => {
            would_have(machine, *target, both_lengths(machine, *target, *text))
        }
        Statement::SetLength(target, length) => {
            let units = u32::try_from(machine.number(*length)).ok();
            would_have(machine, *target, units)
        }
        _ => None,
    }
}

fn would_have(machine: &Machine<'_>, target: Writable, units: Option<u32>) -> Option<Meant> {
    let units = units?;
    let maximum = machine.maximum(target)?;
    // the text that would be too long is the first operand
    about(1, Values::WouldHave { units, maximum })
}

/// How many units a text would have with another text put into it.
fn both_lengths(machine: &Machine<'_>, target: Writable, text: Readable) -> Option<u32> {
    let own = machine.length(Readable::Of(target))?;
    let other = machine.length(text)?;
    Some(own.saturating_add(other))
}

/// Which position or part a text doesn't have.
fn out_of_bounds(machine: &Machine<'_>, statement: &Statement) -> Option<Meant> {
    match statement {
        Statement::Insert(target, position, _) | Statement::DeleteText(target, position, _) => {
            past_end(machine, Readable::Of(*target), *position)
        }
        Statement::Left(_, text, wanted) | Statement::Right(_, text, wanted) => {
            fewer(machine, *text, *wanted)
        }
        Statement::Mid(_, text, position, wanted) => {
            past_part(machine, *text, *position, *wanted)
        }
        _ => None,
    }
}

fn past_end(machine: &Machine<'_>, text: Readable, position: Number) -> Option<Meant> {
    let length = machine.length(text)?;
    let position = machine.number(position);
    about(2, Values::PastEnd { position, length })
}

fn fewer(machine: &Machine<'_>, text: Readable, wanted: Number) -> Option<Meant> {
    let length = machine.length(text)?;
    let wanted = machine.number(wanted);
    about(3, Values::Fewer { wanted, length })
}

fn past_part(
    machine: &Machine<'_>,
    text: Readable,
    position: Number,
    wanted: Number,
) -> Option<Meant> {
    let length = machine.length(text)?;
    about(
        3,
        Values::Part {
            position: machine.number(position),
            wanted: machine.number(wanted),
            length,
        },
    )
}

/// For how many units a text was to have room.
fn too_little_room(machine: &Machine<'_>, statement: &Statement) -> Option<Meant> {
    match statement {
        Statement::ReallocText(_, source, room) => {
            fewer(machine, Readable::Of(Writable::InCell(*source)), *room)
        }
        _ => None,
    }
}

/// Which number is out of the range that its statement allows.
fn out_of_range(machine: &Machine<'_>, statement: &Statement) -> Option<Meant> {
    match statement {
        Statement::Store(pointer, index, _) => past_words(machine, 2, *pointer, *index),
        Statement::Load(_, pointer, index) => past_words(machine, 3, *pointer, *index),
        Statement::Add(local, number) => {
            let first = machine.number(Number::Variable(*local));
            let second = machine.number(*number);
            about(2, Values::Sum { first, second })
        }
        Statement::Insert(_, position, _) => below_zero_or_own_text(machine.number(*position)),
        Statement::DeleteText(_, one, other) => either_below_zero(machine, 2, *one, *other),
        Statement::Mid(_, _, one, other) => either_below_zero(machine, 3, *one, *other),
        Statement::Repeat(number, _) | Statement::FailNext(number) | Statement::FailEvery(number) =>
            out_of_line(machine, 1, *number),
        Statement::Alloc(_, number, _) | Statement::NewText(_, number, _) => {
            out_of_line(machine, 2, *number)
        }
        Statement::Realloc(_, _, number, _) | Statement::ReallocText(_, _, number) => {
            out_of_line(machine, 3, *number)
        }
        Statement::Pop(number)
        | Statement::PopDestroy(number)
        | Statement::MarkEnd(number)
        | Statement::Check(number)
        | Statement::CheckAll(number) => below_zero(1, machine.number(*number)),
        Statement::SetLength(_, number) => below_zero(2, machine.number(*number)),
        Statement::Left(_, _, number) | Statement::Right(_, _, number) => {
            below_zero(3, machine.number(*number))
        }
        _ => None,
    }
}

fn past_words(
    machine: &Machine<'_>,
    word: usize,
    pointer: Pointer,
    index: Number,
) -> Option<Meant> {
    let bytes = machine.bytes(pointer)?;
    let index = machine.number(index);
    about(word, Values::NoWord { index, bytes })
}

fn out_of_line(machine: &Machine<'_>, word: usize, number: Number) -> Option<Meant> {
    about(word, Values::OutOfRange(machine.number(number)))
}

/// Why a text couldn't be inserted: because the position is below 0, or else because a text was to be inserted into itself.
fn below_zero_or_own_text(position: i32) -> Option<Meant> {
    below_zero(2, position).or(about(3, Values::OwnText))
}

/// The first of two numbers that is below 0. `word` is the index of the first number's word; the second number is the next word.
fn either_below_zero(
    machine: &Machine<'_>,
    word: usize,
    one: Number,
    other: Number,
) -> Option<Meant> {
    let first = below_zero(word, machine.number(one));
    first.or(below_zero(word.saturating_add(1), machine.number(other)))
}

fn below_zero(word: usize, number: i32) -> Option<Meant> {
    if number < 0 {
        about(word, Values::BelowZero(number))
    } else {
        None
    }
}

fn about(word: usize, values: Values) -> Option<Meant> {
    Some(Meant { word, values })
}
