//! What surrounds the program: files, standard input, and the place where messages go. `program` uses all of these.
//!
//! Each trait names relations for what its calls do. No contract looks into these relations. The same holds for streams (`wb_streams`).

ghost use Rattle.std.specs.Prelude.{◌≡◌, ℕ, List, Option, ⊤};
ghost use Rattle.workbench.specs.Program.{fault_of_words};
ghost use Rattle.workbench.specs.declared.host.WordsFault.{WordsFault as Fault};
ghost use Rattle.workbench.specs.declared.host.WordsFault.TheVariants.{Refused};

use std::io;
use std::io::{ErrorKind, Write};
use thiserror::Error;
use wb_command_line::command::CommandFault;
use wb_streams::streams::Source;

/// Why the program's words aren't a command.
#[derive(Debug, Drop, Error)]
pub enum WordsFault {
    /// A word is not UTF-8.
    #[error("error: a word of the command line is not UTF-8\n")]
    NotUtf8,
    /// The words spell no command, or memory ran out.
    #[error("{0}")]
    Refused(CommandFault),
}

impl From<CommandFault> for WordsFault {
    ghost from_gives = { λ error fault. fault ≡ Refused error };

    fn from(error: CommandFault) -> WordsFault {
        WordsFault::Refused(error)
    }
}

/// The fault for an error that came in place of the words.
impl From<io::Error> for WordsFault {
    ghost from_gives = { λ error fault. fault ≡ fault_of_words error };

    fn from(error: io::Error) -> WordsFault {
        if error.kind() == ErrorKind::OutOfMemory {
            WordsFault::Refused(CommandFault::NoMemory)
        } else {
            WordsFault::NotUtf8
        }
    }
}

/// Files by their names, and standard input.
pub trait Host {
    type File: Source + Drop;

    type Input: Source + Drop;

    /// What opening a file does. It relates the host before, the file's name, the file (if it can be opened), and the host after.
    ghost opens: { Self → List ℕ → Option Self.File → Self → Type 0 };

    /// What asking for standard input does. It relates the host before, the input, and the host after.
    ghost lends: { Self → Self.Input → Self → Type 0 };

    /// Opens a file to read it; `None` if it can't be opened.
    fn open(&mut self, name: &str) -> Option<Self::File>
        ensures { opens self.old name.now result self.new };

    fn standard_input(&mut self) -> Self::Input
        ensures { lends self.old result self.new };
}

/// Where the user is told why there is no command.
pub trait Messages {
    /// What reporting a fault does. It relates the messages before, the fault, and the messages after.
    ghost reports: { Self → Fault → Self → Type 0 };

    fn report(&mut self, fault: &WordsFault)
        ensures { reports self.old fault.now self.new };
}

impl<W: Write> Messages for W {
    ghost reports = { λ _ _ _. ⊤ };

    /// Writes the message of the fault, and ignores whether the message could be written.
    fn report(&mut self, fault: &WordsFault) {
        let _ = write!(self, "{fault}");
    }
}
