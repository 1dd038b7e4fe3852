//! Makes the calls that may run out of memory, one after another, and prints a line with the result of each call.
//!
//! A call that returns `NoMemory` is made once more with the same arguments. If the first call left everything as its contract says, the
//! lines are the same as in a run with enough memory. If the second call also returns `NoMemory`, the last line is `no memory`, and the
//! exit status is 4. Printing takes no memory.
#![tactic(auto)]

mod calls;
mod copies;
mod heaps;
mod lines;
mod objects;
mod rises;
mod rises_of_runs;
mod runs;
mod scripts;
mod stacks;
mod stop;
mod texts;

use std::process::ExitCode;
use stop::Stop;

fn main(rt: HostRuntime) -> ExitCode {
    match make_calls(&rt) {
        Ok(()) => ExitCode::SUCCESS,
        Err(Stop::NoMemory) => {
            let _ = println!(rt; "no memory");
            ExitCode::from(4)
        }
        Err(Stop::NotWritten) => ExitCode::from(5),
    }
}

/// Makes the calls of each module.
fn make_calls(rt: &HostRuntime) -> Result<(), Stop> {
    heaps::make_attempts(rt)?;
    rises::make_attempts(rt)?;
    copies::compare_copies(rt)?;
    stacks::push_items(rt)?;
    texts::make_texts(rt)?;
    scripts::read_scripts(rt)
}
