//! The process's own standard error and files, for the calls that come after the answer.

ghost use Rattle.std.specs.Prelude.{⊤};

use crate::afterwards::{Afterwards, Beside};
use crate::following::put_steps;
use crate::log::LogFiles;
use crate::picture::PictureFiles;
use crate::picture_name::{say_if_no_picture, say_if_script};
use crate::recorded::FirstFault;
use crate::told::tell_answer;
use crate::whole_file::ProcessFiles;
use std::cell::RefCell;
use std::io::Write;
use workbench::FileName;
use workbench::program::Exit;

/// The process's own standard error and files. A text is left out if memory runs out for it, or if it can't be written to standard error.
#[derive(Drop)]
pub struct ProcessAfterwards<'a> {
    pub rt: &'a HostRuntime,
    /// The first fault in opening, reading or writing a file.
    pub first: &'a RefCell<FirstFault>,
    pub files: ProcessFiles<'a>,
}

impl<'a> PictureFiles for ProcessAfterwards<'a> {
    ghost puts = { λ _ _ _ _. ⊤ };

    fn put(&mut self, name: &FileName, picture: &str) -> bool {
        let is_put = self.files.put(name, picture);
        if is_put {
            say_if_no_picture(self.rt, name);
        }
        is_put
    }
}

impl<'a> LogFiles for ProcessAfterwards<'a> {
    ghost logs = { λ _ _ _ _. ⊤ };

    fn put_log(&mut self, name: &FileName, log: &str) -> bool {
        self.files.put_log(name, log)
    }
}

impl<'a> Afterwards for ProcessAfterwards<'a> {
    ghost steps = { λ _ _ _. ⊤ };

    ghost explains = { λ _ _ _. ⊤ };

    fn put_steps(&mut self, exit: &Exit) {
        put_steps(self.rt, exit);
    }

    fn explain(&mut self, exit: &Exit) -> Beside {
        let Ok(first) = self.first.try_borrow() else {
            return Beside::NOTHING;
        };
        match tell_answer(self.rt, exit, *first) {
            Ok(told) => {
                let _ = self.rt.stderr().write_all(told.text.as_bytes());
                if let Some(command) = &exit.command {
                    say_if_script(self.rt, command);
                }
                told.beside
            }
            Err(_) => Beside::NOTHING,
        }
    }
}
