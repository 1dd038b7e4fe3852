//! Decides whether an attempt is granted, how long a heap may be under a rule, and how long the cell for a request is, in bytes. No
//! function here uses a heap.

ghost use Rattle.std.specs.Prelude.{◌≡◌, ◌≤◌, if◌then◌else◌};
ghost use Rattle.wb_heap_model.specs.LimitedHeap.{IsCellLength};
ghost use Rattle.wb_heap_model.specs.Row.{cell_length};
ghost use Rattle.wb_heap_model.specs.Rules.{refusal_of, unless_refused};
ghost use Rattle.wb_heap_model.specs.Space.{limit_under};

use wb_basics::limits::CEILING;
use wb_heap_model::heap::{Answer, Rule};

/// Returns how a rule makes the attempt with this number fail; `None` if the rule doesn't make the attempt fail. The cell of this attempt
/// would end at `end`.
fn refusal(rule: &Rule, number: u32, end: u32) -> Option<Answer>
    ensures { result ≡ refusal_of rule.now number end }
{
    match rule {
        Rule::Unlimited => None,
        Rule::Limit(limit) => (*limit < end).then_some(Answer::Refused),
        Rule::Number(failing) => (*failing == number).then_some(Answer::Simulated),
        Rule::Every(0) => None,
        Rule::Every(rate) => (number % *rate == 0).then_some(Answer::Simulated),
        Rule::From(0) => None,
        Rule::From(first) => (*first <= number).then_some(Answer::Simulated),
        Rule::Pair(first, second) => {
            (*first == number || *second == number).then_some(Answer::Simulated)
        }
        Rule::Set(numbers) => {
            let is_named = numbers.as_slice().contains(&number);
            is_named.then_some(Answer::Simulated)
        }
    }
}

/// Returns the answer to an attempt whose cell would end at `end`. Returns `None` if neither the setting nor the rule makes the attempt
/// fail, but `end` is past the ceiling; the ceiling then cuts the run. `due` says whether the script's own setting makes the attempt fail.
/// The setting is checked before the rule.
pub fn answer(due: bool, rule: &Rule, number: u32, end: u32) -> Option<Answer>
    ensures { result ≡ (if due then Some Answer.Simulated
        else unless_refused (refusal_of rule.now number end) end) }
{
    if due {
        return Some(Answer::Simulated);
    }
    match refusal(rule, number, end) {
        Some(answer) => Some(answer),
        None => (end <= CEILING).then_some(Answer::Granted),
    }
}

/// Returns the length that a heap may reach under a rule.
pub fn limit_under(rule: &Rule) -> u32
    ensures { result ≡ limit_under rule.now }
{
    match rule {
        Rule::Limit(limit) => (*limit).min(CEILING),
        Rule::Unlimited
        | Rule::Number(_)
        | Rule::Every(_)
        | Rule::From(_)
        | Rule::Pair(..)
        | Rule::Set(_) => CEILING,
    }
}

/// Returns the cell length for a request of `bytes` bytes, including the header.
pub fn cell_length(bytes: u32) -> u32
    requires { bytes ≤ CEILING }
    ensures exact { result ≡ cell_length bytes }
    ensures fits { IsCellLength result }
{
    16 + 16 * ((bytes + 15) / 16)
}
