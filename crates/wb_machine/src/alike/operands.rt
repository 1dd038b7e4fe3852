//! Whether operands of two statements are the same.

ghost use Rattle.std.specs.Prelude.{◌≡◌, true};

use wb_tree::script::{Argument, Condition, Holder, Number, Pointer, Readable, Refusal, Writable};

fn same_holder(holder: Holder, other: Holder) -> bool
    ensures { result ≡ true → other ≡ holder }
{
    match (holder, other) {
        (Holder::Local(index), Holder::Local(other)) => index == other,
        (Holder::This, Holder::This) => true,
        _ => false,
    }
}

pub fn same_pointer(pointer: Pointer, other: Pointer) -> bool
    ensures { result ≡ true → other ≡ pointer }
{
    match (pointer, other) {
        (Pointer::Held(holder), Pointer::Held(other)) => same_holder(holder, other),
        (Pointer::Field(holder, class, index), Pointer::Field(other, other_class, other_index)) => {
            same_holder(holder, other) && class == other_class && index == other_index
        }
        _ => false,
    }
}

pub fn same_number(number: Number, other: Number) -> bool
    ensures { result ≡ true → other ≡ number }
{
    match (number, other) {
        (Number::Constant(value), Number::Constant(other)) => value == other,
        (Number::Variable(index), Number::Variable(other)) => index == other,
        _ => false,
    }
}

pub fn same_writable(text: Writable, other: Writable) -> bool
    ensures { result ≡ true → other ≡ text }
{
    match (text, other) {
        (Writable::OwnBuffer(index), Writable::OwnBuffer(other)) => index == other,
        (Writable::InCell(pointer), Writable::InCell(other)) => same_pointer(pointer, other),
        _ => false,
    }
}

pub fn same_readable(text: Readable, other: Readable) -> bool
    ensures { result ≡ true → other ≡ text }
{
    match (text, other) {
        (Readable::Of(text), Readable::Of(other)) => same_writable(text, other),
        (Readable::ViewOf(index), Readable::ViewOf(other)) => index == other,
        (Readable::Quoted(index), Readable::Quoted(other)) => index == other,
        _ => false,
    }
}

pub fn same_condition(condition: Condition, other: Condition) -> bool
    ensures { result ≡ true → other ≡ condition }
{
    match (condition, other) {
        (Condition::IsNull(pointer), Condition::IsNull(other)) => same_pointer(pointer, other),
        (Condition::NotNull(pointer), Condition::NotNull(other)) => same_pointer(pointer, other),
        (Condition::Equal(one, two), Condition::Equal(three, four)) => {
            same_number(one, three) && same_number(two, four)
        }
        (Condition::Less(one, two), Condition::Less(three, four)) => {
            same_number(one, three) && same_number(two, four)
        }
        _ => false,
    }
}

pub fn same_refusal(refusal: Refusal, other: Refusal) -> bool
    ensures { result ≡ true → other ≡ refusal }
{
    match (refusal, other) {
        (Refusal::GivesNull, Refusal::GivesNull) => true,
        (Refusal::Leaves, Refusal::Leaves) => true,
        _ => false,
    }
}

fn same_argument(argument: Argument, other: Argument) -> bool
    ensures { result ≡ true → other ≡ argument }
{
    match (argument, other) {
        (Argument::Passed(pointer), Argument::Passed(other)) => same_pointer(pointer, other),
        (Argument::Given(number), Argument::Given(other)) => same_number(number, other),
        _ => false,
    }
}

pub fn same_arguments(arguments: &[Argument], others: &[Argument]) -> bool
    ensures { result ≡ true → others.now ≡ arguments.now }
{
    let (mut left, mut other_left) = (arguments, others);
    while let [argument, rest @ ..] = left {
        let [other, other_rest @ ..] = other_left else {
            return false;
        };
        if !same_argument(*argument, *other) {
            return false;
        }
        left = rest;
        other_left = other_rest;
    }
    other_left.is_empty()
}
