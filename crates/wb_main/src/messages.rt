//! Messages of the process on standard error: about words that are no command, and about a script that is read from a terminal.

ghost use Rattle.std.specs.Prelude.{⊤};

use std::alloc::AllocError;
use std::io::{IsTerminal, Write};
use std::{env, io};
use wb_command_line::line_breaks::columns_of;
use wb_command_line::messages::message_of;
use workbench::CommandFault;
use workbench::host::{Messages, WordsFault};

/// The message when a script is read from a terminal. Without this message, the program would wait in silence.
const TYPED: &[u8] =
    b"workbench: the script is read from the terminal; end it with Ctrl-D on a line of its own\n";

/// The second message when a script is read from a terminal, if `--picture` got the name of a script.
const TAKEN: &[u8] =
    b"workbench: the word after '--picture' names the file for the picture; the script's name comes after that\n";

/// Standard error. No result depends on whether a message could be written.
#[derive(Drop)]
pub struct ProcessMessages<'a> {
    pub rt: &'a HostRuntime,
}

impl<'a> Messages for ProcessMessages<'a> {
    ghost reports = { λ _ _ _. ⊤ };

    /// Says why the words are no command. If memory runs out, the message has no tip.
    fn report(&mut self, fault: &WordsFault) {
        if let WordsFault::Refused(fault) = fault {
            if let Ok(message) = self.message(fault) {
                let _ = self.rt.stderr().write_all(message.as_bytes());
                return;
            }
        }
        let _ = write!(self.rt.stderr(), "{fault}");
    }
}

impl<'a> ProcessMessages<'a> {
    fn message(&self, fault: &CommandFault) -> io::Result<String> {
        let words: Vec<String> = env::args(self.rt)?.collect(self.rt.alloc())?;
        let columns = columns_of_messages(self.rt);
        Ok(message_of(self.rt.alloc(), words.as_slice(), fault, columns)?)
    }
}

/// How many columns the lines of a message may have. The environment variable `COLUMNS` gives the number, if it is set.
fn columns_of_messages(rt: &HostRuntime) -> usize {
    match env::var(rt, "COLUMNS") {
        Ok(text) => columns_of(text.as_str()),
        Err(_) => columns_of(""),
    }
}

/// Says that a script is read from a terminal, if both standard input and standard error are terminals.
pub fn say_if_typed(rt: &HostRuntime) {
    if rt.stdin().is_terminal() && rt.stderr().is_terminal() {
        let _ = rt.stderr().write_all(TYPED);
        if let Ok(true) = has_script_as_picture(rt) {
            let _ = rt.stderr().write_all(TAKEN);
        }
    }
}

/// Whether the word after `--picture` ends like the name of a script.
fn has_script_as_picture(rt: &HostRuntime) -> io::Result<bool> {
    let words: Vec<String> = env::args(rt)?.collect(rt.alloc())?;
    let mut is_after = false;
    for word in &words {
        let word = word.as_str();
        if (is_after || word.starts_with("--picture=")) && word.ends_with(".oom") {
            return Ok(true);
        }
        is_after = word == "--picture";
    }
    Ok(false)
}
