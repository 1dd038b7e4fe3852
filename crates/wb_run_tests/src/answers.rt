//! Tests of answers, with readers and writers in memory. Some of these readers and writers fail.

ghost use Rattle.std.specs.Prelude.{IsTrue};
ghost use Rattle.wb_command_line.specs.Command.{is_answerable};

mod failing_once;

use crate::answers::failing_once::FailingOnce;
use crate::failing::SHAPE;
use std::alloc::Global;
use std::io::{self, ErrorKind, Read, Write};
use std::test::Fail;
use wb_heap_model::heap::Rule;
use workbench::answer::answer;
use workbench::exit_status::READ_OR_WRITE_FAULT;
use workbench::{Command, Silent, Task};

/// A reader that gives the bytes in `bytes`: at most `at_once` bytes at its first read, and at each later read `grows` more than at the
/// read before. After the last byte, the reader fails, or is at its end if `then` is `None`.
#[derive(Drop)]
struct Giver<'a> {
    bytes: &'a [u8],
    at_once: usize,
    grows: usize,
    then: Option<ErrorKind>,
    reads: usize,
}

impl Read for Giver<'_> {
    fn read(&mut self, buffer: &mut [u8]) -> io::Result<usize> {
        self.reads = self.reads.wrapping_add(1);
        let count = self.bytes.len().min(buffer.len()).min(self.at_once);
        if count == 0 {
            return match self.then {
                Some(kind) => Err(io::Error::from(kind)),
                None => Ok(0),
            };
        }
        let (given, rest) = self.bytes.split_at(count);
        buffer[..count].copy_from_slice(given);
        self.bytes = rest;
        self.at_once = self.at_once.wrapping_add(self.grows);
        Ok(count)
    }
}

/// A reader that gives the byte `a` without end, `at_once` bytes at a time.
#[derive(Drop)]
struct Endless {
    at_once: usize,
    reads: usize,
}

impl Read for Endless {
    fn read(&mut self, buffer: &mut [u8]) -> io::Result<usize> {
        self.reads = self.reads.wrapping_add(1);
        let count = buffer.len().min(self.at_once);
        buffer[..count].fill(b'a');
        Ok(count)
    }
}

/// A writer that takes `room` bytes, at most `at_once` bytes at a time. After these bytes, the writer fails, or takes no more bytes if
/// `then` is `None`.
#[derive(Drop)]
struct Taker {
    taken: Vec<u8>,
    room: usize,
    at_once: usize,
    then: Option<ErrorKind>,
    writes: usize,
}

impl Write for Taker {
    fn write(&mut self, bytes: &[u8]) -> io::Result<usize> {
        self.writes = self.writes.wrapping_add(1);
        let count = bytes.len().min(self.room).min(self.at_once);
        if count == 0 {
            return match self.then {
                Some(kind) => Err(io::Error::from(kind)),
                None => Ok(0),
            };
        }
        self.taken.extend_from_slice(&bytes[..count])?;
        self.room -= count;
        Ok(count)
    }

    fn flush(&mut self) -> io::Result<()> {
        Ok(())
    }
}

/// The command for a plain run of the script, reported as lines.
fn run_command() -> Command
    ensures { IsTrue (is_answerable result) }
{
    command_in(false, false)
}

/// The command for a plain run of the script, or for the search through all lengths. `json` says whether the report is JSON or lines.
fn command_in(of_lengths: bool, json: bool) -> Command
    ensures { IsTrue (is_answerable result) }
{
    Command {
        task: if of_lengths {
            Task::Lengths
        } else {
            Task::Run(Rule::Unlimited)
        },
        file: None,
        budget: 10_000,
        shape: SHAPE,
        json,
        quiet: false,
        brief: false,
        picture: None,
        sarif: None,
        follow: None,
        around: None,
    }
}

fn giving(bytes: &[u8], then: Option<ErrorKind>) -> Giver<'_> {
    Giver {
        bytes,
        at_once: 7,
        grows: 0,
        then,
        reads: 0,
    }
}

fn taking(alloc: Global, room: usize, then: Option<ErrorKind>) -> Taker {
    Taker {
        taken: Vec::new(alloc),
        room,
        at_once: 5,
        then,
        writes: 0,
    }
}

const LEAKING: &[u8] = b"proc main\nptr a\nalloc a 16\nend\n";

const LEAKING_REPORT: &[u8] = b"attempt 1 length 144 place 0 granted
attempt 2 length 32 place 144 granted
ended
leaks 1
leak 2 length 32 place 144
steps 1
";

const READ_FAULT: &[u8] = b"read fault\n";

/// Two kinds of errors. The second is the error of an interrupted call, which isn't tried again either.
const KINDS: [ErrorKind; 2] = [ErrorKind::Other, ErrorKind::Interrupted];

/// Ways in which a write fails: with an error, or by taking no byte (`None`).
const FAILURES: [Option<ErrorKind>; 3] = [
    Some(ErrorKind::Other),
    Some(ErrorKind::Interrupted),
    None,
];

/// Whether the report for this reader has only the line that says that reading failed, and the status says the same.
fn is_read_fault(alloc: Global, reader: &mut impl Read) -> bool {
    let mut writer = Vec::new(alloc);
    let answered = answer(alloc, &run_command(), reader, &mut writer, &mut Silent);
    writer.as_slice() == READ_FAULT && answered.status == READ_OR_WRITE_FAULT
}

#[test]
fn says_that_a_read_failed(rt: HostRuntime) {
    for kind in KINDS {
        assert!(rt; is_read_fault(rt.alloc(), &mut giving(LEAKING, Some(kind))));
    }
}

/// The script comes in five reads, and a sixth read finds the end of the script. Each of the six reads fails in turn.
#[test]
fn reads_no_more_where_a_read_failed(rt: HostRuntime) {
    for kind in KINDS {
        for at in 0..6 {
            let mut reader = FailingOnce::new(giving(LEAKING, None), at, Some(kind));
            assert!(rt; is_read_fault(rt.alloc(), &mut reader));
            assert_eq!(rt; reader.calls, at + 1);
        }
    }
}

/// The script comes in five reads, a sixth read finds the end of the script, and there is no seventh read.
#[test]
fn reads_no_more_where_the_end_is_met(rt: HostRuntime) {
    let mut reader = giving(LEAKING, None);
    let mut writer = taking(rt.alloc(), 1000, None);
    let answered = answer(
        rt.alloc(),
        &run_command(),
        &mut reader,
        &mut writer,
        &mut Silent,
    );
    assert_eq!(rt; answered.status, 1);
    assert!(rt; writer.taken.as_slice() == LEAKING_REPORT);
    assert_eq!(rt; reader.reads, 6);
}

/// Whether the report for this reader is the report of the script `LEAKING`.
fn has_its_report(alloc: Global, reader: &mut impl Read) -> bool {
    let mut writer = Vec::new(alloc);
    let answered = answer(alloc, &run_command(), reader, &mut writer, &mut Silent);
    writer.as_slice() == LEAKING_REPORT && answered.status == 1
}

#[test]
fn answers_alike_however_many_bytes_come_at_once(rt: HostRuntime) {
    for at_once in 1..40 {
        let mut reader = giving(LEAKING, None);
        reader.at_once = at_once;
        assert!(rt; has_its_report(rt.alloc(), &mut reader));
        assert_eq!(rt;
            reader.reads,
            LEAKING.len().div_ceil(at_once).wrapping_add(1)
        );
    }
}

/// One byte comes at the first read, two bytes at the second read, and so on. The 31 bytes take eight reads, and a ninth read finds the
/// end.
#[test]
fn answers_alike_where_each_read_brings_more(rt: HostRuntime) {
    let mut reader = giving(LEAKING, None);
    reader.at_once = 1;
    reader.grows = 1;
    assert!(rt; has_its_report(rt.alloc(), &mut reader));
    assert_eq!(rt; reader.reads, 9);
}

#[test]
fn reads_no_further_than_a_script_may_be_long(rt: HostRuntime) {
    for (at_once, reads) in [(1, 65_537), (1000, 66), (100_000, 17)] {
        let mut reader = Endless { at_once, reads: 0 };
        let mut writer = Vec::new(rt.alloc());
        let answered = answer(
            rt.alloc(),
            &run_command(),
            &mut reader,
            &mut writer,
            &mut Silent,
        );
        assert_eq!(rt; answered.status, 2);
        assert!(rt; writer.as_slice() == b"refused 1\n".as_slice());
        assert_eq!(rt; reader.reads, reads);
    }
}

/// Whether the status says that writing failed.
fn stops(alloc: Global, reader: &mut Giver<'_>, writer: &mut impl Write) -> bool {
    answer(alloc, &run_command(), reader, writer, &mut Silent).status == READ_OR_WRITE_FAULT
}

/// Whether the writer gets the report `text`, five bytes at a time, before its write number `at`, counted from 0. This write fails, and
/// must be the last.
fn ends_at_write(
    alloc: Global,
    of_lengths: bool,
    json: bool,
    text: &[u8],
    at: usize,
    kind: Option<ErrorKind>,
) -> bool {
    let mut writer = FailingOnce::new(taking(alloc, 1000, None), at, kind);
    let answered = answer(
        alloc,
        &command_in(of_lengths, json),
        &mut giving(LEAKING, None),
        &mut writer,
        &mut Silent,
    );
    let begun = text.get(..at.wrapping_mul(5));
    answered.status == READ_OR_WRITE_FAULT
        && Some(writer.stream.taken.as_slice()) == begun
        && writer.calls == at.wrapping_add(1)
}

/// In each of two reports, in lines and as JSON, each write fails in turn, in each way.
#[test]
fn writes_no_more_where_a_write_failed(rt: HostRuntime) {
    for (of_lengths, json) in [(false, false), (false, true), (true, false), (true, true)] {
        let mut whole = taking(rt.alloc(), 1000, None);
        let answered = answer(
            rt.alloc(),
            &command_in(of_lengths, json),
            &mut giving(LEAKING, None),
            &mut whole,
            &mut Silent,
        );
        assert_eq!(rt; answered.status, 1);
        let text = whole.taken.as_slice();
        assert_eq!(rt; whole.writes, text.len().div_ceil(5));
        for at in 0..whole.writes {
            for kind in FAILURES {
                assert!(rt;
                    ends_at_write(rt.alloc(), of_lengths, json, text, at, kind),
                    "lengths {of_lengths}, json {json}, write {at}"
                );
            }
        }
    }
}

/// Whether a writer with room for six bytes holds the first six bytes of the text, and writing fails.
fn stops_at_six(
    alloc: Global,
    reader: &mut Giver<'_>,
    text: &[u8],
    then: Option<ErrorKind>,
) -> bool {
    let mut writer = taking(alloc, 6, then);
    stops(alloc, reader, &mut writer) && Some(writer.taken.as_slice()) == text.get(..6)
}

#[test]
fn stops_at_a_write_that_fails(rt: HostRuntime) {
    for kind in FAILURES {
        let mut failing = giving(b"", Some(ErrorKind::Other));
        assert!(rt; stops_at_six(rt.alloc(), &mut failing, READ_FAULT, kind));
        assert!(rt; stops_at_six(rt.alloc(), &mut giving(LEAKING, None), LEAKING_REPORT, kind));
    }
}

#[test]
fn reads_and_writes_no_oftener_than_there_are_bytes(rt: HostRuntime) -> Result<(), Fail> {
    let long = vec![in rt.alloc(); b' '; 70_000]?;
    let mut reader = giving(long.as_slice(), None);
    reader.at_once = 1;
    let mut writer = taking(rt.alloc(), 100, None);
    writer.at_once = 1;
    let answered = answer(
        rt.alloc(),
        &run_command(),
        &mut reader,
        &mut writer,
        &mut Silent,
    );
    assert_eq!(rt; reader.reads, 65_537);
    assert!(rt; writer.taken.as_slice() == b"refused 1\n".as_slice());
    assert_eq!(rt; writer.writes, 10);
    assert_eq!(rt; answered.status, 2);
    Ok(())
}
