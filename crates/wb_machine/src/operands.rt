//! The ranges in which the numbers of statements must be. No function here changes a state.

ghost use Rattle.std.specs.Prelude.{◌≡◌, ◌≤◌, IfSome};
ghost use Rattle.wb_meaning.specs.Operands.{within, not_negative};
ghost use Rattle.wb_meaning.specs.Statements.{index_in, at_least_one};

/// The number, if it is from 0 to `greatest`; `None` otherwise.
pub fn number_within(greatest: u32, number: i32) -> Option<u32>
    ensures value { result ≡ within greatest number }
    ensures most { IfSome result (λ n. n ≤ greatest) }
{
    if 0 <= number && number as u32 <= greatest {
        Some(number as u32)
    } else {
        None
    }
}

/// The number, if it isn't negative; `None` otherwise.
pub fn not_negative(number: i32) -> Option<u32>
    ensures { result ≡ not_negative number }
{
    if 0 <= number {
        Some(number as u32)
    } else {
        None
    }
}

/// The number, if it is 1 or greater; `None` otherwise.
pub fn at_least_one(number: i32) -> Option<u32>
    ensures value { result ≡ at_least_one number }
    ensures least { IfSome result (λ n. 1 ≤ n) }
{
    if 1 <= number {
        Some(number as u32)
    } else {
        None
    }
}

/// The index `index`, if a payload of `usable` bytes has a word with this index; `None` otherwise. A word has 4 bytes.
pub fn word_within(usable: u32, index: i32) -> Option<u32>
    ensures { result ≡ index_in usable index }
{
    if 0 <= index && (index as u32) < usable / 4 {
        Some(index as u32)
    } else {
        None
    }
}
