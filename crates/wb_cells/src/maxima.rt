//! The greatest of each 64 numbers of a list, and searches among the numbers. The callers decide what the numbers mean.

ghost use Rattle.std.specs.Prelude.{◌≡◌, ◌≢◌, ℕ, ◌+◌, ◌*◌, ◌/◌, ◌<◌, ◌≤◌, length, slice_index, IfNone, IfSome};
ghost use Rattle.wb_cells.specs.Maxima.{AreGreatest, IsFirst, IsGreatest};

use crate::numbers::Numbers;
use wb_chunk::MOST_WORDS;

/// How many numbers a span has. The greatest number of each span is stored.
pub const SPAN: u32 = 64;

/// Returns the index of the first number that is at least `least`, at index `from` or above and below `end`; `None` if there is no such
/// number.
pub fn first_among(numbers: &Numbers, from: u32, end: u32, least: u32) -> Option<u32>
    requires { 0 < least }
    ensures { IsFirst (slice_index numbers.now) from end least result }
{
    let mut at = from;
    while let Some(found) = numbers.next(at) {
        if end <= found {
            return None;
        }
        if least <= numbers.number(found) {
            return Some(found);
        }
        at = found + 1;
    }
    None
}

/// Returns the greatest number at index `from` or above and below `end`; 0 if there is no number there. The caller must know that no number
/// there is greater than `most`, so the search can stop at a number that is equal to `most`.
fn greatest_among(numbers: &Numbers, from: u32, end: u32, most: u32) -> u32
    ensures { ((k : ℕ) → from ≤ k → k < end → slice_index numbers.now k ≤ most)
        → IsGreatest (slice_index numbers.now) from end result }
{
    let mut greatest = 0;
    let mut stop = end;
    while greatest < most {
        let Some(at) = numbers.last(from, stop) else {
            return greatest;
        };
        greatest = numbers.number(at).max(greatest);
        stop = at;
    }
    greatest
}

/// Updates the greatest number of a span, after the number at index `at` has changed from `old`. If the greatest number has changed, the
/// function returns its old value; otherwise it returns `None`.
pub fn renew(numbers: &Numbers, spans: &mut Numbers, at: u32, old: u32) -> Option<u32>
    requires within { at < length numbers.now }
    requires room { at / SPAN < length spans.old }
    requires small { at < MOST_WORDS }
    ensures same { IfNone result (spans.new ≡ spans.old) }
    ensures was { IfSome result (λ was. was ≡ slice_index spans.old (at / SPAN)) }
    ensures count { length spans.new ≡ length spans.old }
    ensures others { (j : ℕ) → j ≢ at / SPAN → slice_index spans.new j ≡ slice_index spans.old j }
    ensures renewed { (f : ℕ → ℕ) → f at ≡ old →
        ((k : ℕ) → k ≢ at → f k ≡ slice_index numbers.now k) → AreGreatest f spans.old →
        AreGreatest (slice_index numbers.now) spans.new }
{
    let span = at / SPAN;
    let was = spans.number(span);
    let from = span * SPAN;
    let now = greatest_now(numbers, from, from + SPAN, was, at, old);
    if now == was {
        return None;
    }
    spans.set(span, now);
    Some(was)
}

/// Returns the greatest number at index `from` or above and below `end`, after the number at index `at` in this range has changed from
/// `old`. Before the change, the greatest number was `was`. The function searches the numbers only if the changed number was the greatest
/// and is now less.
pub fn greatest_now(numbers: &Numbers, from: u32, end: u32, was: u32, at: u32, old: u32) -> u32
    requires within { at < length numbers.now }
    requires between { (from ≤ at) × (at < end) }
    ensures { (f : ℕ → ℕ) → f at ≡ old → ((k : ℕ) → k ≢ at → f k ≡ slice_index numbers.now k)
        → IsGreatest f from end was → IsGreatest (slice_index numbers.now) from end result }
{
    let now = numbers.number(at);
    if was <= now {
        now
    } else if old == was {
        greatest_among(numbers, from, end, was)
    } else {
        was
    }
}
