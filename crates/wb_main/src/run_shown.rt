//! The text on a run: what the run found, and, if it leaks or panics, the command that shows the run step by step.

ghost use Rattle.std.specs.Prelude.{IsTrue};
ghost use Rattle.wb_tree.specs.Sound.{is_script};

use crate::tried_mends::with_mend;
use std::alloc::Global;
use wb_basics::memory::NoMemory;
use wb_explain::runs::{Explanation, ShellFile, ShellOptions, run_found, steps_shown};
use wb_history::{RunParameters, ScriptLines, WatchedRun};
use wb_runs::run_end::RunEnd;
use wb_tree::script::Script;
use workbench::{Command, FileName};

/// Returns the text on what a run found. If the run leaks or panics, and the command doesn't show the run's steps already, the text also
/// has a command that shows these steps. The only error is that memory ran out.
pub fn explain_run(
    alloc: Global,
    command: &Command,
    script: &Script,
    lines: &ScriptLines<'_>,
    run: &WatchedRun<'_>,
) -> Result<Explanation, NoMemory>
    requires { IsTrue (is_script script.now) }
{
    let mut said = run_found(alloc, lines, run)?;
    if RunEnd::of(&run.outcome).is_bad() {
        said = with_mend(alloc, script, lines, run, said)?;
    }
    if RunEnd::of(&run.outcome).is_bad() && command.follow.is_none() {
        let RunParameters {
            rule,
            budget,
            shape,
        } = &run.parameters;
        let options = ShellOptions {
            budget: *budget,
            shape: *shape,
        };
        let file = ShellFile(command.file.as_ref().map(FileName::as_str));
        let steps = steps_shown(alloc, lines, rule, options, file)?;
        said.add(&steps)?;
    }
    Ok(said)
}
