//! All comparisons for a script's run, and what they find.

ghost use Rattle.std.specs.Prelude.{IsTrue};
ghost use Rattle.wb_tree.specs.Sound.{is_script};

use crate::copies::compare_copies;
use crate::forks::compare_forks;
use crate::meetings::compare_meetings;
use crate::pairs::compare_pairs;
use crate::results::{MOVING, SHAPE};
use std::alloc::Global;
use wb_machine::RunFault;
use wb_runs::failures::{Failing, Failures};
use wb_script::read;
use wb_tree::script::Script;

/// What the comparisons found.
#[derive(Debug, Drop)]
pub(crate) enum Comparison {
    /// Each fork has the same result as its whole run, the run that is made from its beginning with the same failure. In `forks` forks one
    /// attempt fails, `forks` forks have a rate, in `forks` forks all attempts from one on fail, and in `pairs` forks two attempts fail.
    /// Each of `forks` copies is independent of its source. `met` is how many forks in which one attempt fails met the run without failure,
    /// and then went on like it. Forks in a heap where cells may stay and forks in a moving heap are counted together.
    Same { forks: u32, pairs: u32, met: u32 },
    /// The result of the fork with this failure differs from the result of its whole run.
    OtherFork(Failing),
    /// The result of the run from which the forks were taken differs from the result of the run without forks.
    OtherRun,
    /// The fork in which this attempt fails met the run without failure, but the two didn't go on alike.
    OtherMeeting(u32),
    /// A copy that was taken before the attempt with this number differs from its source, or a change to the copy or the source changed the
    /// other.
    OtherCopy(u32),
}

/// Returns what the comparisons find for the script with these bytes; `None` if the bytes are no script, or if memory runs out.
pub(crate) fn compare(alloc: Global, bytes: &[u8]) -> Option<Comparison> {
    match read(alloc, bytes) {
        Ok(script) => compare_script(alloc, &script).ok(),
        Err(_) => None,
    }
}

fn compare_script(alloc: Global, script: &Script) -> Result<Comparison, RunFault>
    requires { IsTrue (is_script script.now) }
{
    match compare_met_forks(alloc, script)? {
        Comparison::Same { forks, pairs, met } => compare_copies(alloc, script, forks, pairs, met),
        other => Ok(other),
    }
}

/// Compares all forks with their whole runs. Then compares each fork that meets the run without failure with the run that it met.
fn compare_met_forks(alloc: Global, script: &Script) -> Result<Comparison, RunFault>
    requires { IsTrue (is_script script.now) }
{
    match compare_all_forks(alloc, script)? {
        Comparison::Same { forks, pairs, .. } => compare_all_meetings(alloc, script, forks, pairs),
        other => Ok(other),
    }
}

/// Compares each fork that meets the run without failure with the run that it met, both in a heap where cells may stay and in a moving
/// heap.
fn compare_all_meetings(
    alloc: Global,
    script: &Script,
    forks: u32,
    pairs: u32,
) -> Result<Comparison, RunFault>
    requires { IsTrue (is_script script.now) }
{
    match compare_meetings(alloc, script, SHAPE, forks, pairs)? {
        Comparison::Same { met, .. } => {
            let moving = compare_meetings(alloc, script, MOVING, forks, pairs)?;
            Ok(with_met(moving, met))
        }
        other => Ok(other),
    }
}

/// Adds `more` to the number of forks that met the run without failure.
fn with_met(found: Comparison, more: u32) -> Comparison {
    match found {
        Comparison::Same { forks, pairs, met } => Comparison::Same {
            forks,
            pairs,
            met: met.saturating_add(more),
        },
        other => other,
    }
}

/// Compares forks with their whole runs. In these forks, one attempt fails, the attempts at a rate fail, all attempts from one on fail, or
/// two attempts fail.
fn compare_all_forks(alloc: Global, script: &Script) -> Result<Comparison, RunFault>
    requires { IsTrue (is_script script.now) }
{
    match compare_numbered_forks(alloc, script)? {
        Comparison::Same { forks, .. } => compare_pairs(alloc, script, forks),
        other => Ok(other),
    }
}

/// Compares forks with their whole runs: forks in which one attempt fails, forks with a rate, and forks in which all attempts from one on
/// fail.
fn compare_numbered_forks(alloc: Global, script: &Script) -> Result<Comparison, RunFault>
    requires { IsTrue (is_script script.now) }
{
    match compare_single_forks(alloc, script)? {
        Comparison::Same { .. } => compare_forks(alloc, script, Failures::Persistent),
        other => Ok(other),
    }
}

/// Compares forks with their whole runs: first the forks in which one attempt fails, then the forks with a rate.
fn compare_single_forks(alloc: Global, script: &Script) -> Result<Comparison, RunFault>
    requires { IsTrue (is_script script.now) }
{
    match compare_forks(alloc, script, Failures::Single)? {
        Comparison::Same { .. } => compare_forks(alloc, script, Failures::Every),
        other => Ok(other),
    }
}
