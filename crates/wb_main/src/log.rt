//! Puts the SARIF log that a command asks for into its file, after the answer is written and explained. The module `whole_file` writes the
//! file.

ghost use Rattle.std.specs.Prelude.{◌≡◌, ◌≢◌, ℕ, List, Bool, IsSome, IfSome};
ghost use Rattle.wb_main.specs.Log.{IsLogged, IsLogWanted};

use workbench::FileName;
use workbench::exit_status::READ_OR_WRITE_FAULT;
use workbench::program::Exit;

/// The files that logs are put into.
pub trait LogFiles {
    /// What putting a log into a file does, as a relation between the files before, the file's name, the result of the call, and the files
    /// after. The result is `true` if the log is in the file now or was left out.
    ghost logs: { Self → List ℕ → Bool → Self → Type 0 };

    /// Puts a log into the file with this name. Returns `false` if the log can't be put there.
    fn put_log(&mut self, name: &FileName, log: &str) -> bool
        ensures { logs self.old name.now result self.new };
}

/// Puts the log of a report into the file that the command names for the log, and into no other file. Returns the exit status: `before`,
/// the status so far, or `READ_OR_WRITE_FAULT` if the log can't be put there.
pub fn put_log<L: LogFiles>(exit: &Exit, before: u8, log: Option<&str>, files: &mut L) -> u8
    ensures { IsLogged L.logs exit.now before files.old files.new result }
{
    let (Some(log), Some(name), Some(_)) = (log, file_for_log(exit), &exit.findings) else {
        return before;
    };
    if files.put_log(name, log) {
        before
    } else {
        READ_OR_WRITE_FAULT
    }
}

/// Returns the name of the file that a log is to be put into. The result is `None` if the command asks for no log, or if reading the script
/// or writing the report failed.
fn file_for_log(exit: &Exit) -> Option<&FileName>
    ensures { IfSome result (λ name. IsLogWanted exit.now name.now) }
{
    if exit.status == READ_OR_WRITE_FAULT {
        return None;
    }
    exit.command.as_ref()?.sarif.as_ref()
}
