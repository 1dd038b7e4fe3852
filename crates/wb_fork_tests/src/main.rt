//! Compares forks of a script's run with the whole runs that must have the same results, and copies of the run with their source.
//!
//! A fork is a copy of a run, and goes on under another rule. This rule makes an attempt fail that is granted in the run itself. There are
//! three kinds of such forks. In the first kind, only one attempt fails. In the second kind, one attempt fails, and so does every later
//! attempt whose number is a multiple of the first one's number. In the third kind, one attempt and all later attempts fail. From a fork in
//! which one attempt has failed, further forks are taken, in each of which one later attempt fails as well. A fork in which one attempt has
//! failed may meet the run without failure; then the two are in the same state. After meeting, the fork must go on like the run without
//! failure, except for allocation numbers. The program reads the script from standard input, and prints how many forks there are. If a fork
//! or a copy has a wrong result, the program says which, and ends with status 1.
#![tactic(auto)]

mod comparison;
mod copies;
mod forks;
mod meetings;
mod pairs;
mod results;

use comparison::{Comparison, compare};
use std::io;
use std::io::Read;
use std::process::ExitCode;
use wb_runs::failures::Failing;

fn main(rt: HostRuntime) -> ExitCode {
    say(&rt).unwrap_or(ExitCode::FAILURE)
}

/// Prints what the comparisons found, and returns the exit status.
fn say(rt: &HostRuntime) -> io::Result<ExitCode> {
    match compare_input(rt)? {
        Some(Comparison::Same { forks, pairs, met }) => {
            println!(rt;
                "{forks} forks under numbers, as many under rates, as many in which all later attempts fail too, and {pairs} under pairs, each as its run"
            )?;
            println!(rt;
                "forks that met the run without failure, also where cells always move, each going on as it does: {met}; copies, each apart from its source: {forks}"
            )?;
            return Ok(ExitCode::SUCCESS);
        }
        Some(Comparison::OtherFork(Failing::Number(number))) => {
            println!(rt; "another result where attempt {number} fails")?;
        }
        Some(Comparison::OtherFork(Failing::Every(rate))) => {
            println!(rt;
                "another result where every attempt fails whose number is a multiple of {rate}"
            )?;
        }
        Some(Comparison::OtherFork(Failing::From(first))) => {
            println!(rt; "another result where all attempts fail from {first} on")?;
        }
        Some(Comparison::OtherFork(Failing::Pair(first, second))) => {
            println!(rt; "another result where attempts {first} and {second} fail")?;
        }
        Some(Comparison::OtherFork(Failing::Set(_))) => println!(rt; "another result of a set")?,
        Some(Comparison::OtherRun) => println!(rt; "another result of the run itself")?,
        Some(Comparison::OtherMeeting(number)) => {
            println!(rt; "another result after a meeting where attempt {number} fails")?;
        }
        Some(Comparison::OtherCopy(number)) => {
            println!(rt; "a copy before attempt {number} isn't apart from its source")?;
        }
        None => println!(rt; "no script, or no memory")?,
    }
    Ok(ExitCode::FAILURE)
}

/// Returns what the comparisons found for the script on standard input; `None` if the input is no script, or if memory ran out.
fn compare_input(rt: &HostRuntime) -> io::Result<Option<Comparison>> {
    let mut bytes = Vec::new(rt.alloc());
    rt.stdin().read_to_end(&mut bytes)?;
    Ok(compare(rt.alloc(), &bytes))
}
