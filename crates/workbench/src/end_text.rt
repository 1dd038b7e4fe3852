//! The words for how a run ended. Other modules decide which lines contain these words.

ghost use Rattle.std.specs.Prelude.{◌≡◌, ◌++◌, OnOk};
ghost use Rattle.workbench.specs.EndWords.{cut_words, end_words, panic_words};

use crate::appending::or_no_memory;
use std::io::Write;
use wb_basics::memory::NoMemory;
use wb_heap_model::heap::Panic;
use wb_meaning::run::Why;
use wb_runs::run_end::RunEnd;

/// Appends the words for how a run ended.
pub fn put_end_words(text: &mut Vec<u8>, end: RunEnd) -> Result<(), NoMemory>
    ensures { OnOk result (text.new.items ≡ text.old.items ++ end_words end) }
{
    match end {
        RunEnd::NoCleanup => or_no_memory(write!(text, "nocleanup")),
        RunEnd::Panicked(panic) => put_panic_words(text, panic),
        RunEnd::Leaked(count) => or_no_memory(write!(text, "leaks {count}")),
        RunEnd::Left(code) => or_no_memory(write!(text, "left {code}")),
        RunEnd::Plain => or_no_memory(write!(text, "ended")),
        RunEnd::Cut(why) => put_cut_words(text, why),
    }
}

/// Appends a panic's category and number.
pub fn put_panic_words(text: &mut Vec<u8>, panic: Panic) -> Result<(), NoMemory>
    ensures { OnOk result (text.new.items ≡ text.old.items ++ panic_words panic) }
{
    match panic {
        Panic::User(number) => or_no_memory(write!(text, "panic USER {number}")),
        Panic::Alloc(place) => put_failed_check(text, place),
        Panic::Workbench(number) => or_no_memory(write!(text, "panic WORKBENCH {number}")),
    }
}

fn put_failed_check(text: &mut Vec<u8>, place: u32) -> Result<(), NoMemory>
    ensures { OnOk result (text.new.items ≡ text.old.items ++ panic_words (Panic.Alloc place)) }
{
    or_no_memory(write!(text, "panic ALLOC {place:08x}"))
}

/// Appends the words for why a run was cut.
pub fn put_cut_words(text: &mut Vec<u8>, why: Why) -> Result<(), NoMemory>
    ensures { OnOk result (text.new.items ≡ text.old.items ++ cut_words why) }
{
    let put = match why {
        Why::Budget => write!(text, "cut budget"),
        Why::Ceiling => write!(text, "cut ceiling"),
    };
    or_no_memory(put)
}
