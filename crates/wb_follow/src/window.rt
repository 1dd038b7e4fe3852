//! Which steps of a run are shown: its first and last steps, or the steps around an attempt.

ghost use Rattle.std.specs.Prelude.{◌≤◌, IsTrue};
ghost use Rattle.wb_tree.specs.Sound.{is_script};

use std::alloc::Global;
use wb_basics::limits::LARGEST_BUDGET;
use wb_basics::memory::NoMemory;
use wb_history::RunParameters;
use wb_machine::Turn;
use wb_tree::script::Script;
use wb_watch::machine_of;

/// Which steps of a run the user asks for.
#[derive(Clone, Copy)]
pub struct Asked {
    /// How many of the first steps are shown, and as many of the last steps. If the user asks for an attempt, how many steps before the
    /// attempt's step are shown, and as many after it.
    pub steps: u32,
    /// The number of an attempt; `None` if the user asks for the first and the last steps.
    pub around: Option<u32>,
}

/// The steps that are shown. `Ends` shows the steps up to `first` and the steps from `last` on. `Between` shows the steps from `first` to
/// `last`, both included, in a run of `steps` steps.
#[derive(Clone, Copy)]
pub(crate) enum Window {
    Ends { first: u32, last: u32 },
    Between { first: u32, last: u32, steps: u32 },
}

impl Window {
    /// The first `most` steps and the last `most` steps of a run.
    fn of_ends(most: u32, steps: u32) -> Window {
        Window::Ends {
            first: most,
            last: steps.saturating_sub(most).saturating_add(1),
        }
    }

    /// This step, the `most` steps before it, and the `most` steps after it. The first row of the run is shown too, if it would be the only
    /// row left out before these steps.
    fn about(step: u32, most: u32, steps: u32) -> Window {
        let first = step.saturating_sub(most);
        Window::Between {
            first: if first > 1 { first } else { 0 },
            last: step.saturating_add(most),
            steps,
        }
    }

    /// Whether a step is shown.
    pub(crate) fn shows(self, step: u32) -> bool {
        match self {
            Window::Ends { first, last } => step <= first || step >= last,
            Window::Between { first, last, .. } => step >= first && step <= last,
        }
    }

    /// How many steps are left out from this step on. The number is 0 if this step is shown, or if the step before it is left out too.
    pub(crate) fn left_out(self, step: u32) -> u32 {
        match self {
            Window::Ends { first, last } if step == first.saturating_add(1) => {
                last.saturating_sub(step)
            }
            Window::Between { first, .. } if step == 0 => first.saturating_sub(1),
            Window::Between { last, steps, .. } if step == last.saturating_add(1) => {
                steps.saturating_sub(last)
            }
            _ => 0,
        }
    }
}

/// Returns which steps of a run of `steps` steps are shown; `None` if the run doesn't make the attempt that the user asks for. The only
/// error is that memory ran out.
pub(crate) fn window_of(
    alloc: Global,
    script: &Script,
    parameters: &RunParameters,
    asked: Asked,
    steps: u32,
) -> Result<Option<Window>, NoMemory>
    requires script { IsTrue (is_script script.now) }
    requires least { 1 ≤ parameters.now.budget }
    requires greatest { parameters.now.budget ≤ LARGEST_BUDGET }
{
    let Some(number) = asked.around else {
        return Ok(Some(Window::of_ends(asked.steps, steps)));
    };
    match step_of_attempt(alloc, script, parameters, number)? {
        Some(step) => Ok(Some(Window::about(step, asked.steps, steps))),
        None => Ok(None),
    }
}

/// Returns the step that makes an attempt; step 0 makes the first attempt. Returns `None` if the run doesn't make the attempt. The only
/// error is that memory ran out.
fn step_of_attempt(
    alloc: Global,
    script: &Script,
    parameters: &RunParameters,
    number: u32,
) -> Result<Option<u32>, NoMemory>
    requires script { IsTrue (is_script script.now) }
    requires least { 1 ≤ parameters.now.budget }
    requires greatest { parameters.now.budget ≤ LARGEST_BUDGET }
{
    let Some(mut machine) = machine_of(alloc, script, parameters)? else {
        return Ok(None);
    };
    for _ in 0..=parameters.budget.saturating_add(1) {
        let turn = machine.step()?;
        if machine.attempts() >= number {
            return Ok(Some(machine.steps()));
        }
        if turn == Turn::Ended {
            return Ok(None);
        }
    }
    Ok(None)
}
