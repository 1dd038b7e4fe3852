//! The steps of a run on standard error, if the command asks for them.

ghost use Rattle.std.specs.Prelude.{◌≤◌, IsTrue};
ghost use Rattle.wb_tree.specs.Sound.{is_script};

use crate::asked::{parameters_of, script_name};
use std::io::Write;
use wb_basics::memory::NoMemory;
use wb_follow::{Asked, RowSink, follow_run};
use wb_heap_model::heap::Rule;
use wb_history::{ScriptFile, ScriptLines};
use workbench::exit_status::READ_OR_WRITE_FAULT;
use workbench::findings::Findings;
use workbench::program::Exit;
use workbench::{Command, Task};

/// Standard error. After a write that fails, this sink takes no more rows.
#[derive(Drop)]
struct StandardError<'a> {
    rt: &'a HostRuntime,
}

impl<'a> RowSink for StandardError<'a> {
    fn take_rows(&mut self, rows: &str) -> bool {
        self.rt.stderr().write_all(rows.as_bytes()).is_ok()
    }
}

/// Writes the steps of the run, if the command asks for these steps and the report could be written. If memory runs out, the remaining
/// steps are left out.
pub fn put_steps(rt: &HostRuntime, exit: &Exit) {
    if let (Some(command), Some(findings)) = (&exit.command, &exit.findings)
        && let (Some(most), Task::Run(rule)) = (command.follow, &command.task)
        && exit.status != READ_OR_WRITE_FAULT
    {
        let asked = Asked {
            steps: most,
            around: command.around,
        };
        let _ = follow_script(rt, command, findings, rule, asked);
    }
}

/// Writes the steps of the run with this rule. Writes nothing if the script is rejected.
fn follow_script(
    rt: &HostRuntime,
    command: &Command,
    findings: &Findings,
    rule: &Rule,
    asked: Asked,
) -> Result<(), NoMemory> {
    let alloc = rt.alloc();
    let bytes = findings.bytes.as_slice();
    let (Ok(script), Ok(text)) = (wb_script::read(alloc, bytes), str::from_utf8(bytes)) else {
        return Ok(());
    };
    let name = script_name(command);
    let lines = ScriptLines::of(alloc, ScriptFile { name, text })?;
    let parameters = parameters_of(command, rule.try_copy()?);
    follow_run(
        alloc,
        &lines,
        &script,
        &parameters,
        asked,
        &mut StandardError { rt },
    );
    Ok(())
}
