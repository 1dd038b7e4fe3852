//! Tests of the program with a host in memory: where the report and the messages go, and what the program opens.

ghost use Rattle.std.specs.Prelude.{⊤};

use std::alloc::Global;
use std::io;
use std::io::ErrorKind;
use std::test::Fail;
use workbench::Silent;
use workbench::host::Host;
use workbench::program::program;

/// A host with one file and a standard input, which counts how often the program asks for each of them.
#[derive(Drop)]
struct Desk<'a> {
    name: &'a str,
    file: &'a [u8],
    input: &'a [u8],
    opened: usize,
    lent: usize,
}

impl<'a> Host for Desk<'a> {
    type File = &'a [u8];

    type Input = &'a [u8];

    ghost opens = { λ _ _ _ _. ⊤ };

    ghost lends = { λ _ _ _. ⊤ };

    fn open(&mut self, name: &str) -> Option<&'a [u8]> {
        self.opened = self.opened.wrapping_add(1);
        if name == self.name {
            Some(self.file)
        } else {
            None
        }
    }

    fn standard_input(&mut self) -> &'a [u8] {
        self.lent = self.lent.wrapping_add(1);
        self.input
    }
}

const FROM_FILE: &[u8] = b"proc main\nprint \"file\"\nend\n";

const FROM_INPUT: &[u8] = b"proc main\nprint \"input\"\nend\n";

const FILE_REPORT: &str =
    "print file\nattempt 1 length 144 place 0 granted\nended\nleaks 0\nsteps 1\n";

const INPUT_REPORT: &str =
    "print input\nattempt 1 length 144 place 0 granted\nended\nleaks 0\nsteps 1\n";

/// A host whose one file has the name `-`.
fn full_desk() -> Desk<'static> {
    Desk {
        name: "-",
        file: FROM_FILE,
        input: FROM_INPUT,
        opened: 0,
        lent: 0,
    }
}

/// The output and the messages that the program must write, its status, and how often it must open a file or take the standard input.
#[derive(Clone, Copy)]
struct Wanted {
    output: &'static str,
    messages: &'static str,
    status: u8,
    opened: usize,
    lent: usize,
}

/// Words after the program's name that spell a command, and what the program must do with them.
static COMMANDS: [(&[&str], Wanted); 4] = [
    (
        &["run"],
        Wanted {
            output: INPUT_REPORT,
            messages: "",
            status: 0,
            opened: 0,
            lent: 1,
        },
    ),
    (
        &["run", "-"],
        Wanted {
            output: FILE_REPORT,
            messages: "",
            status: 0,
            opened: 1,
            lent: 0,
        },
    ),
    (
        &["run", "--", "-"],
        Wanted {
            output: FILE_REPORT,
            messages: "",
            status: 0,
            opened: 1,
            lent: 0,
        },
    ),
    // The host has no file with this name.
    (
        &["run", "a.oom"],
        Wanted {
            output: "read fault\n",
            messages: "",
            status: 5,
            opened: 1,
            lent: 0,
        },
    ),
];

/// Words after the program's name that spell no command. The worked cases show the messages for such words.
static REFUSED: [&[&str]; 31] = [
    &["run", "-", "--limit", "176", "--fail", "2"],
    &["run", "-", "--limit", "176", "--every", "2"],
    &["run", "-", "--fail", "2", "--every", "2"],
    &["run", "-", "--every"],
    &["run", "-", "--also", "2"],
    &["run", "-", "--fail", "2", "--also"],
    &["run", "-", "--fail", "2", "--also", "2"],
    &["run", "-", "--set", "3,3"],
    &["run", "-", "--set", "3,3", "--fail", "2"],
    &["run", "-", "--set", "3", "--fail", "2"],
    &["run", "-", "--pairs"],
    &["size", "-", "--every"],
    &["size", "-", "--pairs"],
    &["sweep", "--every=2", "-"],
    &["sweep", "-", "--fail", "2", "--also", "4"],
    &["check", "-", "--every", "--pairs"],
    &["run", "--min", "8"],
    &["walk"],
    &["--help"],
    &["help"],
    &["run", "--help"],
    &["help", "run"],
    &["size", "--help"],
    &["size", "a.oom", "-h"],
    &["help", "size"],
    &["sweep", "--help"],
    &["sweep", "a.oom", "-h"],
    &["help", "sweep"],
    &["check", "--help"],
    &["check", "a.oom", "-h"],
    &["help", "check"],
];

/// Whether the program does what is wanted with these words. If `words` is an error, the words couldn't be read.
fn comes_to(alloc: Global, words: io::Result<Vec<&'static str>>, wanted: &Wanted) -> bool {
    let mut desk = full_desk();
    let mut output = Vec::new(alloc);
    let mut messages = Vec::new(alloc);
    let exit = program(
        alloc,
        words,
        &mut desk,
        &mut output,
        &mut messages,
        &mut Silent,
    );
    output.as_slice() == wanted.output.as_bytes()
        && messages.as_slice() == wanted.messages.as_bytes()
        && exit.status == wanted.status
        && desk.opened == wanted.opened
        && desk.lent == wanted.lent
}

/// Whether the program, with these words or this error, writes this message and ends with this status, and does nothing else.
fn is_refused(
    alloc: Global,
    words: io::Result<Vec<&'static str>>,
    messages: &'static str,
    status: u8,
) -> bool {
    let refused = Wanted {
        output: "",
        messages,
        status,
        opened: 0,
        lent: 0,
    };
    comes_to(alloc, words, &refused)
}

/// The words of a command line: the program's name, and then the words in `rest`.
fn words(alloc: Global, rest: &[&'static str]) -> Result<Vec<&'static str>, Fail> {
    let mut words = vec![in alloc; "workbench"]?;
    words.extend_from_slice(rest)?;
    Ok(words)
}

#[test]
fn carries_out_what_the_words_say(rt: HostRuntime) -> Result<(), Fail> {
    for (index, (rest, wanted)) in COMMANDS.iter().enumerate() {
        let words = words(rt.alloc(), rest)?;
        assert!(rt; comes_to(rt.alloc(), Ok(words), wanted), "row {index}");
    }
    Ok(())
}

/// Whether the program leaves everything alone with these words: it opens no file, takes no standard input and writes no report. The status
/// must say that the command line is wrong.
fn is_left_alone(alloc: Global, words: Vec<&'static str>) -> bool {
    let mut desk = full_desk();
    let mut output = Vec::new(alloc);
    let mut messages = Vec::new(alloc);
    let exit = program(
        alloc,
        Ok(words),
        &mut desk,
        &mut output,
        &mut messages,
        &mut Silent,
    );
    output.is_empty() && exit.status == 6 && desk.opened == 0 && desk.lent == 0
}

#[test]
fn opens_nothing_where_words_are_no_command(rt: HostRuntime) -> Result<(), Fail> {
    for (index, rest) in REFUSED.iter().enumerate() {
        let words = words(rt.alloc(), rest)?;
        assert!(rt; is_left_alone(rt.alloc(), words), "row {index}");
    }
    Ok(())
}

#[test]
fn says_why_there_are_no_words(rt: HostRuntime) {
    let no_memory = Err(io::Error::from(ErrorKind::OutOfMemory));
    assert!(rt; is_refused(rt.alloc(), no_memory, "error: no memory\n", 4));
    let not_text = Err(io::Error::from(ErrorKind::InvalidData));
    let message = "error: a word of the command line is not UTF-8\n";
    assert!(rt; is_refused(rt.alloc(), not_text, message, 6));
}
