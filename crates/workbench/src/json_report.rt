//! The report as one JSON object. Other modules decide what the report says.

ghost use Rattle.std.specs.Prelude.{◌≡◌, ◌≢◌, ◌∷◌, ◌<◌, [], length, IfOk, OnOk, map};
ghost use Rattle.serde_json.specs.View.{members_view, view};
ghost use Rattle.wb_language.specs.Lines.{lines_of};
ghost use Rattle.wb_meaning.specs.Printable.{ArePrintable};
ghost use Rattle.workbench.specs.Ascii.{HasPrintableLines};
ghost use Rattle.workbench.specs.JsonReport.{common_members, count, count_or_null, count_pair, failing_number};
ghost use Rattle.workbench.specs.JsonReport.{failing_value, failures_kind, failures_version};
ghost use Rattle.workbench.specs.JsonReport.{json_text, kind_of, line_string, line_strings, range_pair, range_pairs};
ghost use Rattle.workbench.specs.JsonReport.{report_object, rise_pair, rise_pairs, search_kind, search_version, searched};
ghost use Rattle.workbench.specs.JsonReport.{told_pair, told_pairs};
ghost use Rattle.workbench.specs.JsonReport.{version_of, with_all, with_most, with_ranges, words_pair};

use crate::end_text::put_end_words;
use crate::report::Report;
use crate::report_values::FailingNumber;
use serde_json::{Map, Value, put};
use std::alloc::{AllocError, Global};
use wb_basics::memory::NoMemory;
use wb_command_line::command::{Search, Task};
use wb_heap_model::size::Rise;
use wb_lengths::{LengthRange, LengthTable};
use wb_runs::failures::{Failing, Failures};
use wb_runs::number_ends::{NumberEnd, NumberEnds};
use wb_runs::run_end::RunEnd;
use wb_size::Rises;

/// The version of the JSON form of a report, unless the report has `LATER_VERSION`.
const VERSION: u32 = 2;

/// The version for reports of all lengths, of sweeps that list numbers, and of sweeps over sets: each of these reports has a key that
/// version 2 lacks. Also the version for sweeps of a kind that version 2 lacks.
const LATER_VERSION: u32 = 3;

/// Returns the report of a task as a JSON object without blanks, followed by a line feed. The only error is that memory ran out.
#[tactic(auto, using(crate::proofs::JsonLemmas::report_has_none))]
pub fn json_text(alloc: Global, task: &Task, report: &Report) -> Result<Vec<u8>, NoMemory>
    requires { HasPrintableLines report.now.text.items }
    ensures { IfOk result (λ text. text.items
        ≡ json_text task.now report.now.text.items report.now.values report.now.status) }
{
    let mut text = report_object(alloc, task, report)?.to_vec(alloc)?;
    text.extend_from_slice(b"\n")?;
    Ok(text)
}

/// Returns the report of a task as a JSON object whose keys are in alphabetical order.
#[tactic(auto, unfolding(crate::specs::JsonReport::report_object))]
fn report_object(alloc: Global, task: &Task, report: &Report) -> Result<Value, AllocError>
    requires { HasPrintableLines report.now.text.items }
    ensures { IfOk result (λ object. view object
        ≡ report_object task.now report.now.text.items report.now.values report.now.status) }
{
    let mut members = common_members(alloc, task, report)?;
    put_ranges(&mut members, alloc, task, &report.values.ranges)?;
    put_told(&mut members, alloc, task, &report.values.all)?;
    put_most(&mut members, alloc, task)?;
    Ok(Value::Object(members))
}

/// Returns the members that the object of every report has.
#[tactic(auto, unfolding(crate::specs::JsonReport::common_members))]
fn common_members(
    alloc: Global,
    task: &Task,
    report: &Report,
) -> Result<Map<String, Value>, AllocError>
    requires { HasPrintableLines report.now.text.items }
    ensures { IfOk result (λ members. members_view members.entries
        ≡ common_members task.now report.now.text.items report.now.values report.now.status) }
{
    let values = &report.values;
    let mut members = Map::new(alloc);
    let attempts = count_or_null(values.attempts);
    put(&mut members, alloc, "attempts", attempts)?;
    let kind = kind_of(alloc, task)?;
    put(&mut members, alloc, "kind", kind)?;
    let lines = line_strings(alloc, report.text.as_slice())?;
    put(&mut members, alloc, "lines", lines)?;
    let number = failing_number(alloc, &values.number)?;
    put(&mut members, alloc, "number", number)?;
    let required = count_or_null(values.required);
    put(&mut members, alloc, "required", required)?;
    let rises = rise_pairs(alloc, &values.rises)?;
    put(&mut members, alloc, "rises", rises)?;
    put(&mut members, alloc, "status", Value::from(report.status))?;
    put(
        &mut members,
        alloc,
        "version",
        Value::from(version_of(task)),
    )?;
    Ok(members)
}

/// Adds the member `ranges`, the table of lengths, if the task's report has this table.
fn put_ranges(
    members: &mut Map<String, Value>,
    alloc: Global,
    task: &Task,
    ranges: &Option<LengthTable>,
) -> Result<(), AllocError>
    ensures { OnOk result (members_view members.new.entries
        ≡ with_ranges task.now ranges.now (members_view members.old.entries)) }
{
    match task {
        Task::Lengths => {
            let pairs = range_pairs(alloc, ranges)?;
            put(members, alloc, "ranges", pairs)
        }
        Task::Run(_) | Task::Size | Task::Sweep(..) | Task::Check(_) => Ok(()),
    }
}

/// Returns what a task searches for among failures; `None` if the task makes no such search.
fn search_of(task: &Task) -> Option<Search>
    ensures { result ≡ searched task.now }
{
    match task {
        Task::Sweep(search, _) | Task::Check(search) => Some(*search),
        Task::Run(_) | Task::Size | Task::Lengths => None,
    }
}

/// Adds the member `all`, the list of numbers, if the task's report has this list.
fn put_told(
    members: &mut Map<String, Value>,
    alloc: Global,
    task: &Task,
    ends: &Option<NumberEnds>,
) -> Result<(), AllocError>
    ensures { OnOk result (members_view members.new.entries
        ≡ with_all task.now ends.now (members_view members.old.entries)) }
{
    match search_of(task) {
        Some(Search::All(_) | Search::Ends(_)) => {
            let pairs = told_pairs(alloc, ends)?;
            put(members, alloc, "all", pairs)
        }
        Some(Search::Least(_) | Search::Sets(_) | Search::EverySet(_)) | None => Ok(()),
    }
}

/// Adds the member `most` if the task tries sets of attempts: how many attempts a set has at most, or `null` if sets of any size are tried.
fn put_most(members: &mut Map<String, Value>, alloc: Global, task: &Task) -> Result<(), AllocError>
    ensures { OnOk result (members_view members.new.entries
        ≡ with_most task.now (members_view members.old.entries)) }
{
    match search_of(task) {
        Some(Search::Sets(most)) => put(members, alloc, "most", Value::from(most)),
        Some(Search::EverySet(_)) => put(members, alloc, "most", Value::Null),
        Some(Search::Least(_) | Search::All(_) | Search::Ends(_)) | None => Ok(()),
    }
}

/// Returns the version of the JSON form of a task's report.
fn version_of(task: &Task) -> u32
    ensures { result ≡ version_of task.now }
{
    match task {
        Task::Sweep(search, _) | Task::Check(search) => search_version(*search),
        Task::Lengths => LATER_VERSION,
        Task::Run(_) | Task::Size => VERSION,
    }
}

/// Returns the version of the JSON form of a search's report.
fn search_version(search: Search) -> u32
    ensures { result ≡ search_version search }
{
    match search {
        Search::Least(failures) => failures_version(failures),
        Search::All(_) | Search::Ends(_) | Search::Sets(_) | Search::EverySet(_) => LATER_VERSION,
    }
}

/// Returns the version of the JSON form for a sweep over these failures, if the sweep reports only the least bad failure.
fn failures_version(failures: Failures) -> u32
    ensures { result ≡ failures_version failures }
{
    match failures {
        Failures::Single | Failures::Every | Failures::Pairs => VERSION,
        Failures::Persistent => LATER_VERSION,
    }
}

/// What a task tries: a kind of failures, `sets` or `lengths`; `null` if the task tries none of these. The value depends only on the task.
fn kind_of(alloc: Global, task: &Task) -> Result<Value, AllocError>
    ensures { IfOk result (λ value. view value ≡ kind_of task.now) }
{
    match task {
        Task::Sweep(search, _) | Task::Check(search) => search_kind(alloc, *search),
        Task::Lengths => Value::try_from_str(alloc, "lengths"),
        Task::Run(_) | Task::Size => Ok(Value::Null),
    }
}

fn search_kind(alloc: Global, search: Search) -> Result<Value, AllocError>
    ensures { IfOk result (λ value. view value ≡ search_kind search) }
{
    match search {
        Search::Least(failures) | Search::All(failures) | Search::Ends(failures) => {
            failures_kind(alloc, failures)
        }
        Search::Sets(_) | Search::EverySet(_) => Value::try_from_str(alloc, "sets"),
    }
}

fn failures_kind(alloc: Global, failures: Failures) -> Result<Value, AllocError>
    ensures { IfOk result (λ value. view value ≡ failures_kind failures) }
{
    match failures {
        Failures::Single => Value::try_from_str(alloc, "single"),
        Failures::Every => Value::try_from_str(alloc, "every"),
        Failures::Pairs => Value::try_from_str(alloc, "pairs"),
        Failures::Persistent => Value::try_from_str(alloc, "persistent"),
    }
}

/// A number as a JSON value; `null` if `count` is `None`.
fn count_or_null(count: Option<u64>) -> Value
    ensures { view result ≡ count_or_null count }
{
    match count {
        Some(count) => Value::from(count),
        None => Value::Null,
    }
}

/// The lines of a text, each as a string.
fn line_strings(alloc: Global, text: &[u8]) -> Result<Value, AllocError>
    requires { HasPrintableLines text.now }
    ensures { IfOk result (λ strings. view strings ≡ line_strings text.now) }
{
    let mut strings = Vec::new(alloc);
    let mut rest = text;
    while !rest.is_empty() {
        let (line, after) = first_line(rest);
        strings.push(line_string(alloc, line)?)?;
        rest = after;
    }
    Ok(Value::Array(strings))
}

/// A line of printable ASCII as a string. For such a line, the lossy conversion loses nothing.
fn line_string(alloc: Global, line: &[u8]) -> Result<Value, AllocError>
    requires { ArePrintable line.now }
    ensures { IfOk result (λ value. view value ≡ line_string line.now) }
{
    Ok(Value::String(String::from_utf8_lossy(alloc, line)?))
}

/// Returns the first line without its line feed, and the bytes after this line feed.
pub(crate) fn first_line<'a>(bytes: &'a [u8]) -> (&'a [u8], &'a [u8])
    requires { bytes.now ≢ [] }
    ensures lines { lines_of bytes.now ≡ result.0.now ∷ lines_of result.1.now }
    ensures shorter { length result.1.now < length bytes.now }
{
    for (index, byte) in bytes.iter().enumerate() {
        if *byte == b'\n' {
            return (&bytes[..index], &bytes[index + 1..]);
        }
    }
    (bytes, &bytes[bytes.len()..])
}

/// What a search found: a failure, or a length in bytes; `none` if it found nothing, `null` if no search was finished.
fn failing_number(alloc: Global, number: &Option<FailingNumber>) -> Result<Value, AllocError>
    ensures { IfOk result (λ value. view value ≡ failing_number number.now) }
{
    match number {
        Some(FailingNumber::At(failing)) => failing_value(alloc, failing),
        Some(FailingNumber::Length(length)) => Ok(Value::from(*length)),
        Some(FailingNumber::Never) => Value::try_from_str(alloc, "none"),
        None => Ok(Value::Null),
    }
}

fn all_counts(alloc: Global, numbers: &[u32]) -> Result<Vec<Value>, AllocError>
    ensures { IfOk result (λ counts. map view counts.items ≡ map count numbers.now) }
{
    let mut counts = Vec::new(alloc);
    for number in numbers {
        counts.push(Value::from(*number))?;
    }
    Ok(counts)
}

/// A failure as a JSON value: a list of the attempts of a pair or a set, or one number. The number is the attempt that fails alone, the attempt
/// from which on all attempts fail, or the rate at which attempts fail.
fn failing_value(alloc: Global, failing: &Failing) -> Result<Value, AllocError>
    ensures { IfOk result (λ value. view value ≡ failing_value failing.now) }
{
    match failing {
        Failing::Number(number) => Ok(Value::from(*number)),
        Failing::Every(rate) => Ok(Value::from(*rate)),
        Failing::Pair(first, second) => count_pair(alloc, *first, *second),
        Failing::From(first) => Ok(Value::from(*first)),
        Failing::Set(numbers) => Ok(Value::Array(all_counts(alloc, numbers.as_slice())?)),
    }
}

/// Two numbers as a list.
fn count_pair(alloc: Global, first: u32, second: u32) -> Result<Value, AllocError>
    ensures { IfOk result (λ value. view value ≡ count_pair first second) }
{
    let pair = vec![in alloc; Value::from(first), Value::from(second)]?;
    Ok(Value::Array(pair))
}

/// The table of rises; `null` if `rises` is `None`.
fn rise_pairs(alloc: Global, rises: &Option<Rises>) -> Result<Value, AllocError>
    ensures { IfOk result (λ pairs. view pairs ≡ rise_pairs rises.now) }
{
    match rises {
        Some(rises) => Ok(Value::Array(all_pairs(alloc, rises.as_slice())?)),
        None => Ok(Value::Null),
    }
}

fn all_pairs(alloc: Global, rises: &[Rise]) -> Result<Vec<Value>, AllocError>
    ensures { IfOk result (λ pairs. map view pairs.items ≡ map rise_pair rises.now) }
{
    let mut pairs = Vec::new(alloc);
    for rise in rises {
        pairs.push(count_pair(alloc, rise.number, rise.top)?)?;
    }
    Ok(pairs)
}

/// The table of lengths; `null` if `ranges` is `None`.
fn range_pairs(alloc: Global, ranges: &Option<LengthTable>) -> Result<Value, AllocError>
    ensures { IfOk result (λ pairs. view pairs ≡ range_pairs ranges.now) }
{
    match ranges {
        Some(ranges) => Ok(Value::Array(all_ranges(alloc, ranges.as_slice())?)),
        None => Ok(Value::Null),
    }
}

fn all_ranges(alloc: Global, ranges: &[LengthRange]) -> Result<Vec<Value>, AllocError>
    ensures { IfOk result (λ pairs. map view pairs.items ≡ map range_pair ranges.now) }
{
    let mut pairs = Vec::new(alloc);
    for range in ranges {
        pairs.push(words_pair(alloc, range.from, range.end)?)?;
    }
    Ok(pairs)
}

/// The numbers that a sweep lists, each with the end of its run; `null` if `ends` is `None`.
fn told_pairs(alloc: Global, ends: &Option<NumberEnds>) -> Result<Value, AllocError>
    ensures { IfOk result (λ pairs. view pairs ≡ told_pairs ends.now) }
{
    match ends {
        Some(ends) => Ok(Value::Array(all_told(alloc, ends.as_slice())?)),
        None => Ok(Value::Null),
    }
}

fn all_told(alloc: Global, ends: &[NumberEnd]) -> Result<Vec<Value>, AllocError>
    ensures { IfOk result (λ pairs. map view pairs.items ≡ map told_pair ends.now) }
{
    let mut pairs = Vec::new(alloc);
    for told in ends {
        pairs.push(words_pair(alloc, told.number, told.end)?)?;
    }
    Ok(pairs)
}

/// A list of two elements: a number, and the words for how a run ends.
fn words_pair(alloc: Global, number: u32, end: RunEnd) -> Result<Value, AllocError>
    ensures { IfOk result (λ pair. view pair ≡ words_pair number end) }
{
    let mut words = Vec::new(alloc);
    match put_end_words(&mut words, end) {
        Ok(()) => {
            let words = line_string(alloc, words.as_slice())?;
            let pair = vec![in alloc; Value::from(number), words]?;
            Ok(Value::Array(pair))
        }
        Err(error) => Err(AllocError::from(error)),
    }
}
