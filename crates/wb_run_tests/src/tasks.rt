//! Tasks as the tables of the tests write them.

use crate::rules::Refuses;
use wb_heap_model::heap::Rule;
use wb_runs::part::Part;
use workbench::{Search, Task};

/// The task that a command must have.
#[derive(Clone, Copy)]
pub(crate) enum Asks {
    Run(Refuses),
    Size,
    Lengths,
    Sweep(Search, Part),
    Check(Search),
}

impl Asks {
    /// Whether `task` is this task.
    pub(crate) fn is(self, task: &Task) -> bool {
        match (self, task) {
            (Asks::Run(wanted), Task::Run(rule)) => is_same(rule, &wanted.rule()),
            (Asks::Size, Task::Size) => true,
            (Asks::Lengths, Task::Lengths) => true,
            (Asks::Sweep(wanted, of), Task::Sweep(search, part)) => {
                *search == wanted && *part == of
            }
            (Asks::Check(wanted), Task::Check(search)) => *search == wanted,
            _ => false,
        }
    }
}

/// Whether the two rules are equal; `false` if one of the rules is a set.
fn is_same(rule: &Rule, wanted: &Rule) -> bool {
    match (rule, wanted) {
        (Rule::Unlimited, Rule::Unlimited) => true,
        (Rule::Limit(limit), Rule::Limit(other)) => limit == other,
        (Rule::Number(number), Rule::Number(other)) => number == other,
        (Rule::Every(rate), Rule::Every(other)) => rate == other,
        (Rule::From(first), Rule::From(other)) => first == other,
        (Rule::Pair(first, second), Rule::Pair(one, two)) => first == one && second == two,
        _ => false,
    }
}
