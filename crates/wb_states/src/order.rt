//! The order of sets. A set with fewer numbers comes first. If two sets have equally many numbers, the set with the lesser number at their
//! first difference comes first.

ghost use Rattle.std.specs.Prelude.{◌≡◌, true};
ghost use Rattle.wb_runs.specs.Sets.{has_lesser_number, set_comes_before};
ghost use Rattle.wb_states.specs.Ground.{IsEarlier, IsNoLater};

use wb_heap_model::heap::Numbers;

/// Whether the first of two lists has the lesser number at the first difference between the lists.
fn has_lesser(numbers: &[u32], others: &[u32]) -> bool
    ensures { result ≡ has_lesser_number numbers.now others.now }
{
    let (mut left, mut other_left) = (numbers, others);
    while let [number, rest @ ..] = left {
        let [other, other_rest @ ..] = other_left else {
            return false;
        };
        if number != other {
            return number < other;
        }
        left = rest;
        other_left = other_rest;
    }
    false
}

/// Whether two lists have the same numbers.
fn are_same(numbers: &[u32], others: &[u32]) -> bool
    ensures { result ≡ true → numbers.now ≡ others.now }
{
    numbers == others
}

/// Whether a set comes before another.
pub(crate) fn comes_before(set: &Numbers, other: &Numbers) -> bool
    ensures { result ≡ set_comes_before set.now other.now }
{
    set.len() < other.len()
        || (set.len() == other.len() && has_lesser(set.as_slice(), other.as_slice()))
}

/// Whether the pair of `set` and `attempts` comes no later than the pair of `other` and `later`. The order of the sets decides. If the sets
/// are the same, the pair with the lesser number of attempts comes first.
pub(crate) fn is_no_later(set: &Numbers, attempts: u32, other: &Numbers, later: u32) -> bool
    ensures { result ≡ true → IsNoLater set.now attempts other.now later }
{
    comes_before(set, other) || (attempts <= later && are_same(set.as_slice(), other.as_slice()))
}

/// Whether the pair of `set` and `attempts` comes earlier than the pair of `other` and `later`, in the order that `is_no_later` uses.
pub(crate) fn is_earlier(set: &Numbers, attempts: u32, other: &Numbers, later: u32) -> bool
    ensures { result ≡ true → IsEarlier set.now attempts other.now later }
{
    comes_before(set, other) || (attempts < later && are_same(set.as_slice(), other.as_slice()))
}
