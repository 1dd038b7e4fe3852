//! Values that a command gives for its script, and values that its answer names: the name of the script's file, how many steps a run may
//! take, and the rule of the run in the report.

ghost use Rattle.std.specs.Prelude.{◌≡◌, ◌≤◌, IfOk};
ghost use Rattle.wb_main.specs.Asked.{rule_named, IsAsAsked};

use wb_basics::limits::LARGEST_BUDGET;
use wb_basics::memory::NoMemory;
use wb_command_line::command_line::MOST_STATES;
use wb_explain::runs::ManyStates;
use wb_heap_model::heap::Rule;
use wb_history::RunParameters;
use workbench::findings::Findings;
use workbench::{Command, FileName, Search, Task};

/// The name that stands for standard input in messages, before the number of a line.
const INPUT: &str = "<stdin>";

/// Returns the name of the script in an explanation or a picture.
pub fn script_name(command: &Command) -> &str {
    source_name(command, INPUT)
}

/// Returns the name of the script's file, or `input` if the script is read from standard input.
pub fn source_name<'a>(command: &'a Command, input: &'a str) -> &'a str {
    match &command.file {
        Some(name) => shown_name(name),
        None => input,
    }
}

/// Returns a file's name, or two quotes if the name is empty.
pub fn shown_name(name: &FileName) -> &str {
    if name.as_str().is_empty() {
        "\"\""
    } else {
        name.as_str()
    }
}

/// Returns the command's budget, in steps, limited to the range from 1 to `LARGEST_BUDGET`.
pub fn budget_of(command: &Command) -> u32
    ensures least { 1 ≤ result }
    ensures greatest { result ≤ LARGEST_BUDGET }
    ensures own { 1 ≤ command.now.budget → command.now.budget ≤ LARGEST_BUDGET →
        result ≡ command.now.budget }
{
    command.budget.max(1).min(LARGEST_BUDGET)
}

/// Returns the parameters of a run with this rule, and with the budget and the shape that the command asks for.
pub fn parameters_of(command: &Command, rule: Rule) -> RunParameters
    ensures asked { IsAsAsked command.now rule result }
    ensures least { 1 ≤ result.budget }
    ensures greatest { result.budget ≤ LARGEST_BUDGET }
{
    RunParameters {
        rule,
        budget: budget_of(command),
        shape: command.shape,
    }
}

/// Returns the rule of the run that a sweep's report names; `None` if the report names no run. The only error is that memory ran out.
pub fn rule_named(findings: &Findings) -> Result<Option<Rule>, NoMemory>
    ensures { IfOk result (λ rule. rule ≡ rule_named findings.now) }
{
    match &findings.values.named {
        Some(named) => Ok(Some(named.try_copy()?.rule())),
        None => Ok(None),
    }
}

/// Returns what a task searches for among failures; `None` if the task is neither a sweep nor a check.
pub fn search_of(task: &Task) -> Option<Search> {
    match task {
        Task::Sweep(search, _) | Task::Check(search) => Some(*search),
        Task::Run(_) | Task::Size | Task::Lengths => None,
    }
}

/// Returns what is known of a search that met more states than the command allows; `None` if the report isn't about such a search.
pub fn many_states(command: &Command, findings: &Findings) -> Option<ManyStates> {
    let fine = findings.values.fine?;
    let most = match search_of(&command.task)? {
        Search::EverySet(states) => states,
        _ => return None,
    };
    Some(ManyStates {
        most,
        fine,
        raised: more_states(most),
    })
}

/// How many states the user may allow next if `states` states weren't enough; `None` if the user can't allow more.
fn more_states(states: u32) -> Option<u32> {
    if states < MOST_STATES {
        Some(states.saturating_mul(10).min(MOST_STATES))
    } else {
        None
    }
}
