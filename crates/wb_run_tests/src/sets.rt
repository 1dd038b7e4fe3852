//! Words that spell a set of attempts, words that don't spell a set, and runs in which the attempts of a set fail.

use crate::failing::{FALLBACK, SETS, SETS_NONE, answers_of};
use std::alloc::{AllocError, Global};
use std::test::Fail;
use wb_heap_model::heap::Answer::{Granted, Simulated};
use wb_heap_model::heap::{Answer, Rule};
use workbench::{CommandFault, Task, command};

/// Texts that are lists, each with the numbers of the list.
static LISTS: [(&str, &[u32]); 8] = [
    ("1", &[1]),
    ("16777216", &[16_777_216]),
    ("3,4,5", &[3, 4, 5]),
    ("2,16777215,16777216", &[2, 16_777_215, 16_777_216]),
    ("007,0010", &[7, 10]),
    ("00000000000000000000000001,2", &[1, 2]),
    ("9,10", &[9, 10]),
    ("1,2,3,4,5,6,7,8,9", &[1, 2, 3, 4, 5, 6, 7, 8, 9]),
];

/// Texts that aren't lists.
static NO_LISTS: [&str; 24] = [
    "",
    ",",
    " ",
    "0",
    "0,1",
    "00,1",
    "3,3",
    "3,03",
    "4,3",
    "1,3,2",
    "16777217",
    "1,16777217",
    "4294967299",
    "1,18446744073709551618",
    "+3",
    "3,+4",
    "-3",
    "3,-4",
    "3, 4",
    "3 ,4",
    "3,",
    ",3",
    "3,,4",
    "3,x",
];

/// Scripts and lists, each with the answers to the attempts of the run.
static RUNS: [(&[u8], &str, &[Answer]); 7] = [
    (FALLBACK, "1,2,3", &[Simulated]),
    (
        FALLBACK,
        "2,3,4",
        &[Granted, Simulated, Simulated, Simulated],
    ),
    (FALLBACK, "3,4,5", &[Granted, Granted, Simulated]),
    (FALLBACK, "4,5,16777216", &[Granted, Granted, Granted]),
    (FALLBACK, "2,4,9", &[Granted, Simulated, Granted, Simulated]),
    // The setting makes attempt 4 fail too, but attempt 4 still fails only once.
    (
        SETS,
        "3,4,5,7",
        &[
            Granted, Granted, Simulated, Simulated, Simulated, Simulated, Simulated, Simulated,
        ],
    ),
    // No line of the script can end the rule of the set.
    (
        SETS_NONE,
        "2,3,4",
        &[Granted, Simulated, Simulated, Simulated],
    ),
];

/// Returns the task of `run` with this text as the list of `--set`, or the fault of the command.
fn task_of(alloc: Global, text: &str) -> Result<Task, CommandFault> {
    let option = format!(in alloc; "--set={text}")?;
    Ok(command(alloc, &["workbench", "run", option.as_str()])?.task)
}

/// Whether the text is a list of these numbers.
fn is_list_of(alloc: Global, text: &str, numbers: &[u32]) -> bool {
    match task_of(alloc, text) {
        Ok(Task::Run(Rule::Set(listed))) => listed.as_slice() == numbers,
        _ => false,
    }
}

/// Whether the program rejects the text because the text isn't a list.
fn is_no_list(alloc: Global, text: &str) -> Result<bool, AllocError> {
    match task_of(alloc, text) {
        Err(CommandFault::Usage(error)) => {
            let message = error.to_string(alloc)?;
            Ok(
                message
                    .as_str()
                    .contains("for '--set <LIST>': a list is 1 to 256"),
            )
        }
        _ => Ok(false),
    }
}

/// The numbers from 1 to `last`, with commas between them.
fn numbers_up_to(alloc: Global, last: u32) -> Result<String, AllocError> {
    let mut text = String::from_str(alloc, "1")?;
    for number in 2..=last {
        write!(text, ",{number}")?;
    }
    Ok(text)
}

#[test]
fn takes_lists(rt: HostRuntime) -> Result<(), Fail> {
    for (text, numbers) in &LISTS {
        assert!(rt; is_list_of(rt.alloc(), text, numbers), "{text}");
    }
    Ok(())
}

#[test]
fn refuses_texts_that_are_no_lists(rt: HostRuntime) -> Result<(), Fail> {
    for text in &NO_LISTS {
        assert!(rt; is_no_list(rt.alloc(), text)?, "{text}");
    }
    Ok(())
}

#[test]
fn takes_256_numbers_and_no_more(rt: HostRuntime) -> Result<(), Fail> {
    let most = numbers_up_to(rt.alloc(), 256)?;
    let Ok(Task::Run(Rule::Set(listed))) = task_of(rt.alloc(), most.as_str()) else {
        panic!(rt; "256 numbers are refused");
    };
    assert_eq!(rt; listed.len(), 256);
    assert_eq!(rt; listed.get(255), Some(&256));
    let more = numbers_up_to(rt.alloc(), 257)?;
    assert!(rt; is_no_list(rt.alloc(), more.as_str())?);
    Ok(())
}

#[test]
fn a_set_refuses_all_its_attempts(rt: HostRuntime) -> Result<(), Fail> {
    for (row, (script, text, wanted)) in RUNS.iter().enumerate() {
        let Task::Run(rule) = task_of(rt.alloc(), text)? else {
            panic!(rt; "run {row}: no run");
        };
        let answers = answers_of(rt.alloc(), script, rule)?;
        assert!(rt; answers.as_slice() == *wanted, "run {row}");
    }
    Ok(())
}
