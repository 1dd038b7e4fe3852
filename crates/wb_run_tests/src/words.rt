//! Tests that the program accepts command lines at all. No contract promises that the program accepts a command line, because memory may
//! run out whenever memory is needed.

use crate::rules::Refuses;
use crate::tasks::Asks;
use std::alloc::Global;
use std::test::Fail;
use wb_heap_model::heap::Shape;
use wb_runs::failures::Failures;
use wb_runs::part::Part;
use workbench::{Command, CommandFault, FileName, Search, command};

/// The least length and the growth step of a heap, in bytes.
type Lengths = (u32, u32);

const DEFAULT: Lengths = (4096, 4096);

/// Which of the flags that every subcommand takes are in the command line.
#[derive(Clone, Copy)]
enum Flags {
    None,
    Json,
    Moving,
    MovingAndJson,
}

/// The subcommands, each with the task that it has without options.
static SUBCOMMANDS: [(&str, Asks); 5] = [
    ("run", Asks::Run(Refuses::Nothing)),
    ("size", Asks::Size),
    ("lengths", Asks::Lengths),
    (
        "sweep",
        Asks::Sweep(Search::Least(Failures::Single), Part::WHOLE),
    ),
    ("check", Asks::Check(Search::Least(Failures::Single))),
];

/// What options spell: the budget, the heap's lengths, the flags, and the file.
type Spelled = (u32, Lengths, Flags, Option<&'static str>);

/// Words that every subcommand takes, each row with what the words spell.
static AFTER_EACH: [(&[&str], Spelled); 20] = [
    (&[], (10_000, DEFAULT, Flags::None, None)),
    (&["--"], (10_000, DEFAULT, Flags::None, None)),
    (&["--budget", "1"], (1, DEFAULT, Flags::None, None)),
    (
        &["--budget=1000000"],
        (1_000_000, DEFAULT, Flags::None, None),
    ),
    (
        &["--budget", "+001000000"],
        (1_000_000, DEFAULT, Flags::None, None),
    ),
    (&["--min", "0"], (10_000, (0, 4096), Flags::None, None)),
    (&["--step=16"], (10_000, (4096, 16), Flags::None, None)),
    (
        &["--step", "64", "--budget=500", "--min=256"],
        (500, (256, 64), Flags::None, None),
    ),
    (&["--json"], (10_000, DEFAULT, Flags::Json, None)),
    (
        &["--budget=7", "--json", "a.oom"],
        (7, DEFAULT, Flags::Json, Some("a.oom")),
    ),
    (
        &["a.oom", "--min", "32", "--json"],
        (10_000, (32, 4096), Flags::Json, Some("a.oom")),
    ),
    (
        &["--", "--json"],
        (10_000, DEFAULT, Flags::None, Some("--json")),
    ),
    (&["size"], (10_000, DEFAULT, Flags::None, Some("size"))),
    (
        &["--min=32", "a.oom"],
        (10_000, (32, 4096), Flags::None, Some("a.oom")),
    ),
    (
        &["-", "--budget", "7"],
        (7, DEFAULT, Flags::None, Some("-")),
    ),
    (
        &["--", "--limit"],
        (10_000, DEFAULT, Flags::None, Some("--limit")),
    ),
    (&["--moving"], (10_000, DEFAULT, Flags::Moving, None)),
    (
        &["a.oom", "--moving", "--step=64", "--budget=7"],
        (7, (4096, 64), Flags::Moving, Some("a.oom")),
    ),
    (
        &["--json", "--moving"],
        (10_000, DEFAULT, Flags::MovingAndJson, None),
    ),
    (
        &["--", "--moving"],
        (10_000, DEFAULT, Flags::None, Some("--moving")),
    ),
];

/// Words that spell a run with the default budget and without flags. Each row also has the run's rule, its heap's lengths, and its file.
static RUNS: [(&[&str], Refuses, Lengths, Option<&str>); 28] = [
    (
        &["workbench", "run", "a.oom"],
        Refuses::Nothing,
        DEFAULT,
        Some("a.oom"),
    ),
    (
        &["another/name", "run", "run"],
        Refuses::Nothing,
        DEFAULT,
        Some("run"),
    ),
    (
        &["workbench", "run", "-"],
        Refuses::Nothing,
        DEFAULT,
        Some("-"),
    ),
    (
        &["workbench", "run", ""],
        Refuses::Nothing,
        DEFAULT,
        Some(""),
    ),
    (
        &["workbench", "run", "--", "--help"],
        Refuses::Nothing,
        DEFAULT,
        Some("--help"),
    ),
    (
        &["workbench", "run", "--", "--"],
        Refuses::Nothing,
        DEFAULT,
        Some("--"),
    ),
    (
        &["workbench", "run", "a.oom", "--"],
        Refuses::Nothing,
        DEFAULT,
        Some("a.oom"),
    ),
    (
        &["workbench", "run", "--limit", "303"],
        Refuses::Past(303),
        DEFAULT,
        None,
    ),
    (
        &["workbench", "run", "--limit=0"],
        Refuses::Past(0),
        DEFAULT,
        None,
    ),
    (
        &["workbench", "run", "--limit", "16777216"],
        Refuses::Past(16_777_216),
        DEFAULT,
        None,
    ),
    (
        &["workbench", "run", "--min", "256", "--step", "64"],
        Refuses::Nothing,
        (256, 64),
        None,
    ),
    (
        &["workbench", "run", "--step=16", "--min=0"],
        Refuses::Nothing,
        (0, 16),
        None,
    ),
    (
        &["workbench", "run", "--min=1048576", "--step=1048576"],
        Refuses::Nothing,
        (1_048_576, 1_048_576),
        None,
    ),
    (
        &["workbench", "run", "--limit", "+5", "--min", "0000032"],
        Refuses::Past(5),
        (32, 4096),
        None,
    ),
    (
        &["workbench", "run", "--fail", "3"],
        Refuses::Number(3),
        DEFAULT,
        None,
    ),
    (
        &["workbench", "run", "--fail", "0"],
        Refuses::Number(0),
        DEFAULT,
        None,
    ),
    (
        &["workbench", "run", "--fail=16777216"],
        Refuses::Number(16_777_216),
        DEFAULT,
        None,
    ),
    (
        &["workbench", "run", "--fail", "2", "--also", "4"],
        Refuses::Pair(2, 4),
        DEFAULT,
        None,
    ),
    (
        &["workbench", "run", "--also=16777216", "a.oom", "--fail=+1"],
        Refuses::Pair(1, 16_777_216),
        DEFAULT,
        Some("a.oom"),
    ),
    (
        &["workbench", "run", "--fail=1", "--also=2", "--", "--also"],
        Refuses::Pair(1, 2),
        DEFAULT,
        Some("--also"),
    ),
    (
        &["workbench", "run", "--every", "3"],
        Refuses::Every(3),
        DEFAULT,
        None,
    ),
    (
        &["workbench", "run", "--every=0", "--", "--every"],
        Refuses::Every(0),
        DEFAULT,
        Some("--every"),
    ),
    (
        &["workbench", "run", "a.oom", "--every", "+0016777216"],
        Refuses::Every(16_777_216),
        DEFAULT,
        Some("a.oom"),
    ),
    (
        &["workbench", "run", "--fail-from", "3"],
        Refuses::From(3),
        DEFAULT,
        None,
    ),
    (
        &["workbench", "run", "--fail-from=0", "--", "--fail-from"],
        Refuses::From(0),
        DEFAULT,
        Some("--fail-from"),
    ),
    (
        &["workbench", "run", "a.oom", "--fail-from", "+0016777216"],
        Refuses::From(16_777_216),
        DEFAULT,
        Some("a.oom"),
    ),
    (
        &["workbench", "run", "--min=32", "--fail", "2", "--step=16"],
        Refuses::Number(2),
        (32, 16),
        None,
    ),
    (
        &[
            "workbench",
            "run",
            "--min",
            "32",
            "a.oom",
            "--limit=190",
            "--step",
            "16",
        ],
        Refuses::Past(190),
        (32, 16),
        Some("a.oom"),
    ),
];

/// The flags of `sweep` and `check` that say what is searched for, each row with the search that the flags spell.
static WITH_FLAGS: [(&[&str], Search); 15] = [
    (&["--all"], Search::All(Failures::Single)),
    (&["--ends"], Search::Ends(Failures::Single)),
    (&["--every"], Search::Least(Failures::Every)),
    (&["--every", "--all"], Search::All(Failures::Every)),
    (&["--ends", "--every"], Search::Ends(Failures::Every)),
    (&["--persistent"], Search::Least(Failures::Persistent)),
    (
        &["--all", "--persistent"],
        Search::All(Failures::Persistent),
    ),
    (
        &["--persistent", "--ends"],
        Search::Ends(Failures::Persistent),
    ),
    (&["--pairs"], Search::Least(Failures::Pairs)),
    (&["--failures=1"], Search::Sets(1)),
    (&["--failures=8"], Search::Sets(8)),
    (&["--failures=+03"], Search::Sets(3)),
    (&["--sets"], Search::EverySet(100_000)),
    (&["--states=1"], Search::Least(Failures::Single)),
    (&["--states=+07"], Search::Least(Failures::Single)),
];

/// Whether the command has this task and these options.
fn is_spelled(command: &Command, asks: Asks, spelled: Spelled) -> bool {
    let (budget, (min, step), flags, file) = spelled;
    let moving = matches!(flags, Flags::Moving | Flags::MovingAndJson);
    asks.is(&command.task)
        && command.budget == budget
        && command.shape == Shape { min, step, moving }
        && command.json == matches!(flags, Flags::Json | Flags::MovingAndJson)
        && command.file.as_ref().map(FileName::as_str) == file
}

#[test]
fn takes_words_after_each_subcommand(rt: HostRuntime) -> Result<(), Fail> {
    for (name, asks) in &SUBCOMMANDS {
        for (index, (rest, spelled)) in AFTER_EACH.iter().enumerate() {
            let mut words = vec![in rt.alloc(); "workbench", name]?;
            words.extend_from_slice(rest)?;
            let command = command(rt.alloc(), words.as_slice())?;
            assert!(rt;
                is_spelled(&command, *asks, *spelled),
                "{name}, row {index}"
            );
        }
    }
    Ok(())
}

/// The flags come before the words that every subcommand takes. So the test shows that a flag doesn't take the word after it as a number.
#[test]
fn takes_flags_for_failures(rt: HostRuntime) -> Result<(), Fail> {
    for (row, (flags, search)) in WITH_FLAGS.iter().enumerate() {
        for (index, (rest, spelled)) in AFTER_EACH.iter().enumerate() {
            let mut words = vec![in rt.alloc(); "workbench", "sweep"]?;
            words.extend_from_slice(flags)?;
            words.extend_from_slice(rest)?;
            let swept = command(rt.alloc(), words.as_slice())?;
            assert!(rt;
                is_spelled(&swept, Asks::Sweep(*search, Part::WHOLE), *spelled),
                "sweep, flags {row}, row {index}"
            );
            words.as_mut_slice()[1] = "check";
            let checked = command(rt.alloc(), words.as_slice())?;
            assert!(rt;
                is_spelled(&checked, Asks::Check(*search), *spelled),
                "check, flags {row}, row {index}"
            );
        }
    }
    Ok(())
}

#[test]
fn takes_words_of_a_run(rt: HostRuntime) -> Result<(), Fail> {
    for (index, (words, rule, lengths, file)) in RUNS.iter().enumerate() {
        let command = command(rt.alloc(), words)?;
        let spelled = (10_000, *lengths, Flags::None, *file);
        assert!(rt;
            is_spelled(&command, Asks::Run(*rule), spelled),
            "row {index}"
        );
    }
    Ok(())
}

/// Whether the program rejects the words with a text of `clap` that contains `part`.
fn is_refused(alloc: Global, words: &[&str], part: &str) -> Result<bool, Fail> {
    match command(alloc, words) {
        Err(CommandFault::Usage(error)) => Ok(error.to_string(alloc)?.as_str().contains(part)),
        _ => Ok(false),
    }
}

/// The command line has no words at all, not even the program's name.
#[test]
fn refuses_no_words(rt: HostRuntime) -> Result<(), Fail> {
    assert!(rt; is_refused(rt.alloc(), &[], "requires a subcommand")?);
    Ok(())
}
