//! Why a file could not be opened, read or written.

use std::alloc::{AllocError, Global};
use std::io::ErrorKind;

/// What is said about a file named `-`, because many programs take `-` for standard input.
const INPUT_TIP: &str =
    "workbench: the script is read from standard input where no file is named\n";

/// What was done to a file when it failed.
#[derive(Clone, Copy, Debug, PartialEq, Eq)]
pub enum Deed {
    Opening,
    Reading,
    Writing,
}

/// The line that names a file and says why it could not be opened, read or written.
pub fn file_fault(
    alloc: Global,
    file: &str,
    deed: Deed,
    kind: ErrorKind,
) -> Result<String, AllocError> {
    let why = reason(deed, kind);
    if why.is_empty() {
        let what = doing(deed);
        return format!(in alloc; "workbench: {file}: {what} failed\n");
    }
    let to = purpose(deed, kind);
    let tip = if file == "-" { INPUT_TIP } else { "" };
    format!(in alloc; "workbench: {file}: {why}{to}\n{tip}")
}

/// What is wrong, in words; empty if there are no words for this kind of error.
fn reason(deed: Deed, kind: ErrorKind) -> &'static str {
    match kind {
        ErrorKind::NotFound => not_found(deed),
        ErrorKind::PermissionDenied => "no permission",
        ErrorKind::IsADirectory => is_directory(deed),
        ErrorKind::NotADirectory => "a part of its path is not a directory",
        ErrorKind::FilesystemLoop => "its symbolic links form a loop",
        ErrorKind::InvalidFilename => "invalid or too long file name",
        ErrorKind::InvalidInput => "invalid file name",
        ErrorKind::BrokenPipe => "nobody is reading it any more",
        ErrorKind::StorageFull => "no space is left on the device",
        ErrorKind::QuotaExceeded => "the disk quota is used up",
        ErrorKind::FileTooLarge => "it would be too large",
        ErrorKind::WriteZero => "it accepts no more bytes",
        ErrorKind::Interrupted => "interrupted by a signal",
        ErrorKind::WouldBlock => "it isn't ready, and the workbench doesn't wait",
        _ => "",
    }
}

/// What doesn't exist. A file that is to be written needs only an existing directory.
fn not_found(deed: Deed) -> &'static str {
    match deed {
        Deed::Opening | Deed::Reading => "no such file",
        Deed::Writing => "no such directory",
    }
}

fn is_directory(deed: Deed) -> &'static str {
    match deed {
        Deed::Opening | Deed::Reading => "it is a directory, not a script",
        Deed::Writing => "it is a directory",
    }
}

/// What the permission would have been for.
fn purpose(deed: Deed, kind: ErrorKind) -> &'static str {
    match (kind, deed) {
        (ErrorKind::PermissionDenied, Deed::Writing) => " to write to it",
        (ErrorKind::PermissionDenied, _) => " to read it",
        _ => "",
    }
}

fn doing(deed: Deed) -> &'static str {
    match deed {
        Deed::Opening => "opening it",
        Deed::Reading => "reading it",
        Deed::Writing => "writing to it",
    }
}
