//! Words that `clap` accepts but that still spell no command.

use std::alloc::Global;
use std::test::Fail;
use workbench::{CommandFault, command};

/// The faults of such words, in the order in which the program looks for them.
#[derive(Clone, Copy, Debug, PartialEq, Eq)]
enum Fault {
    Both,
    Also,
    Shape,
}

/// Rows of words after the program's name, each with the fault of the words.
static FAULTS: [(&[&str], Fault); 38] = [
    (&["run", "--limit", "176", "--fail", "2"], Fault::Both),
    (&["run", "--limit", "176", "--every", "2"], Fault::Both),
    (&["run", "--fail", "2", "--every", "2"], Fault::Both),
    (
        &["run", "--fail", "2", "--every", "2", "--limit", "176"],
        Fault::Both,
    ),
    (
        &["run", "--also", "3", "--fail", "2", "--limit", "176"],
        Fault::Both,
    ),
    (
        &["run", "--also", "1", "--fail", "2", "--every", "2"],
        Fault::Both,
    ),
    (&["run", "--set", "3,4", "--limit", "176"], Fault::Both),
    (&["run", "--fail=2", "a.oom", "--set=3"], Fault::Both),
    (
        &["run", "--set=3", "--also=2", "--every=2", "--min=8"],
        Fault::Both,
    ),
    (&["sweep", "--every", "--pairs"], Fault::Both),
    (&["sweep", "--pairs", "a.oom", "--every"], Fault::Both),
    (&["check", "--pairs", "--every", "--json"], Fault::Both),
    (&["check", "--every", "--pairs", "--min=8"], Fault::Both),
    (&["sweep", "--failures", "2", "--pairs"], Fault::Both),
    (&["sweep", "--every", "a.oom", "--failures=1"], Fault::Both),
    (&["check", "--all", "--failures=8", "--min=8"], Fault::Both),
    (&["sweep", "--sets", "--every"], Fault::Both),
    (&["check", "--pairs", "a.oom", "--sets"], Fault::Both),
    (&["sweep", "--failures", "2", "--sets"], Fault::Both),
    (&["check", "--all", "--sets", "--min=8"], Fault::Both),
    (&["run", "--also", "2"], Fault::Also),
    (&["run", "--also", "0"], Fault::Also),
    (&["run", "--also", "2", "--fail", "0"], Fault::Also),
    (&["run", "--also", "0", "--fail", "0"], Fault::Also),
    (&["run", "--also", "2", "--fail", "2"], Fault::Also),
    (&["run", "--also=2", "--fail=3", "a.oom"], Fault::Also),
    (&["run", "--also=16777216", "--fail=16777216"], Fault::Also),
    (&["run", "--also", "3", "--every", "2"], Fault::Also),
    (&["run", "--also", "3", "--limit", "2"], Fault::Also),
    (&["run", "--also", "5", "--set", "3,4"], Fault::Also),
    (&["run", "--set=3", "--also=4", "--step=40"], Fault::Also),
    (&["run", "--also", "2", "--step", "40"], Fault::Also),
    (&["run", "--also=3", "--fail=2", "--step=40"], Fault::Shape),
    (&["sweep", "--pairs", "--min", "8"], Fault::Shape),
    (&["check", "--pairs", "--step", "40"], Fault::Shape),
    (&["sweep", "--failures=3", "--min", "8"], Fault::Shape),
    (&["check", "--failures", "2", "--step=40"], Fault::Shape),
    (&["sweep", "--sets", "--min", "8"], Fault::Shape),
];

/// Returns the fault of the words after the program's name; `None` if the words have none of these faults.
fn fault_of(alloc: Global, rest: &[&str]) -> Result<Option<Fault>, Fail> {
    let mut words = vec![in alloc; "workbench"]?;
    words.extend_from_slice(rest)?;
    Ok(match command(alloc, words.as_slice()) {
        Err(CommandFault::Both) => Some(Fault::Both),
        Err(CommandFault::Also) => Some(Fault::Also),
        Err(CommandFault::Shape) => Some(Fault::Shape),
        _ => None,
    })
}

#[test]
fn refuses_words_that_contradict_one_another(rt: HostRuntime) -> Result<(), Fail> {
    for (index, (rest, fault)) in FAULTS.iter().enumerate() {
        assert_eq!(rt; fault_of(rt.alloc(), rest)?, Some(*fault), "row {index}");
    }
    Ok(())
}
