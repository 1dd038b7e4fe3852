//! The process's files and streams, with a record of the first fault. Recording changes nothing in the bytes that are read and written.

ghost use Rattle.std.specs.Prelude.{⊤};

use crate::messages::say_if_typed;
use std::cell::RefCell;
use std::fs::File;
use std::io;
use std::io::{ErrorKind, StdinLock};
use wb_explain::files::Deed;
use workbench::host::Host;
use workbench::{Sink, Source};

/// The first fault: which of opening, reading and writing failed, and the kind of the error. The value is `None` if nothing failed.
pub type FirstFault = Option<(Deed, ErrorKind)>;

/// Records a fault, unless another fault was recorded before.
fn note_fault(first: &RefCell<FirstFault>, deed: Deed, kind: ErrorKind) {
    if let Ok(mut first) = first.try_borrow_mut() {
        if first.is_none() {
            *first = Some((deed, kind));
        }
    }
}

/// A source or a sink that passes each call on to `stream`, and records the fault of a call that fails, unless a fault was recorded before.
#[derive(Drop)]
pub struct Recorded<'a, S> {
    pub stream: S,
    pub first: &'a RefCell<FirstFault>,
}

impl<'a, S: Source> Source for Recorded<'a, S> {
    ghost remaining = { λ it. S.remaining it.stream };

    ghost reads = { λ old came new. S.reads old.stream came new.stream };

    fn read_once(&mut self, buffer: &mut [u8]) -> io::Result<usize> {
        let read = self.stream.read_once(buffer);
        if let Err(error) = &read {
            note_fault(self.first, Deed::Reading, error.kind());
        }
        read
    }
}

impl<'a, S: Sink> Sink for Recorded<'a, S> {
    ghost contents = { λ it. S.contents it.stream };

    ghost writes = { λ old fails new. S.writes old.stream fails new.stream };

    fn write_once(&mut self, bytes: &[u8]) -> io::Result<usize> {
        let written = self.stream.write_once(bytes);
        match &written {
            Ok(0) => note_fault(self.first, Deed::Writing, ErrorKind::WriteZero),
            Ok(_) => {}
            Err(error) => note_fault(self.first, Deed::Writing, error.kind()),
        }
        written
    }
}

/// A host of the process's files and standard input, which records the first fault.
#[derive(Drop)]
pub struct RecordedHost<'a> {
    pub rt: &'a HostRuntime,
    pub first: &'a RefCell<FirstFault>,
}

impl<'a> Host for RecordedHost<'a> {
    type File = Recorded<'a, File>;

    type Input = Recorded<'a, StdinLock<'static>>;

    ghost opens = { λ _ _ _ _. ⊤ };

    ghost lends = { λ _ _ _. ⊤ };

    fn open(&mut self, name: &str) -> Option<Recorded<'a, File>> {
        match File::open(self.rt, name) {
            Ok(file) => Some(Recorded {
                stream: file,
                first: self.first,
            }),
            Err(error) => {
                note_fault(self.first, Deed::Opening, error.kind());
                None
            }
        }
    }

    fn standard_input(&mut self) -> Recorded<'a, StdinLock<'static>> {
        say_if_typed(self.rt);
        Recorded {
            stream: self.rt.reader(),
            first: self.first,
        }
    }
}
