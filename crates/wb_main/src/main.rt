//! The program: passes the process's own words, files and streams to the workbench, explains the answer, and writes the picture and the log
//! that were asked for. Standard error gets the explanation, how far a long sweep has come, and the steps of a run if they were asked for.
#![tactic(auto)]

mod afterwards;
mod asked;
mod explanation;
mod following;
mod further;
mod log;
mod messages;
mod picture;
mod picture_name;
mod process_afterwards;
mod progress_line;
mod progress_words;
mod recorded;
mod run_shown;
mod runs;
mod set_work;
mod told;
mod tried_mends;
mod unasked;
mod whole_file;
mod work;

use crate::afterwards::finish;
use crate::messages::ProcessMessages;
use crate::process_afterwards::ProcessAfterwards;
use crate::progress_line::ProgressLine;
use crate::recorded::{Recorded, RecordedHost};
use crate::whole_file::ProcessFiles;
use std::cell::RefCell;
use std::process::ExitCode;
use std::{env, io};
use workbench::FileName;
use workbench::program::{Exit, program};

fn main(rt: HostRuntime) -> ExitCode {
    let first = RefCell::new(None);
    let exit = program(
        rt.alloc(),
        words(&rt),
        &mut RecordedHost {
            rt: &rt,
            first: &first,
        },
        &mut Recorded {
            stream: io::writer(&rt),
            first: &first,
        },
        &mut ProcessMessages { rt: &rt },
        &mut ProgressLine::new(&rt),
    );
    let mut afterwards = ProcessAfterwards {
        rt: &rt,
        first: &first,
        files: ProcessFiles::new(&rt, script_file(&exit)),
    };
    ExitCode::from(finish(&exit, &mut afterwards))
}

/// Returns the name of the script's file; `None` if the script is read from standard input, or if there is no command.
fn script_file(exit: &Exit) -> Option<&FileName> {
    exit.command.as_ref()?.file.as_ref()
}

/// All words of the command line, the program's name first.
fn words(rt: &HostRuntime) -> io::Result<Vec<String>> {
    Ok(env::args(rt)?.collect(rt.alloc())?)
}
