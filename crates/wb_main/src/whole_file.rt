//! Writes pictures and logs into files, in addition to the report. Decides which files a picture or a log may replace, and writes each file
//! either whole or not at all. Other modules make the contents of the files.

ghost use Rattle.std.specs.Prelude.{⊤};

use crate::asked::shown_name;
use crate::log::LogFiles;
use crate::picture::PictureFiles;
use std::alloc::{AllocError, Global};
use std::fs::{File, Metadata, OpenOptions, Permissions};
use std::io::{ErrorKind, Read, Write};
use std::os::unix::fs::MetadataExt;
use std::path::{Path, PathBuf};
use std::{fs, io};
use wb_explain::files::{Deed, file_fault};
use wb_sarif::HEAD;
use workbench::FileName;

/// The name that leads to the file that standard input reads from.
const INPUT: &str = "/dev/stdin";

/// The names that lead to the files that standard output and standard error write to.
const OUTPUTS: [&str; 2] = ["/dev/stdout", "/dev/stderr"];

/// The most symbolic links that are followed to find the file with a name.
const MOST_LINKS: u32 = 40;

/// How many names are tried for the new file, which is renamed after it is written.
const MOST_NAMES: u32 = 100;

/// A kind of file that is written in addition to the report.
#[derive(Clone, Copy, Debug, PartialEq, Eq)]
enum Kind {
    Picture,
    Log,
}

impl Kind {
    /// The word for this kind in messages.
    fn name(self) -> &'static str {
        match self {
            Kind::Picture => "picture",
            Kind::Log => "log",
        }
    }

    /// The words for the only files that may be replaced by a file of this kind.
    fn own_file(self) -> &'static str {
        match self {
            Kind::Picture => "an SVG",
            Kind::Log => "a log of the workbench",
        }
    }
}

/// The files that the process itself may write.
#[derive(Drop)]
pub struct ProcessFiles<'a> {
    rt: &'a HostRuntime,
    /// The script's file; `None` if the script is read from standard input.
    script: Option<&'a FileName>,
}

impl<'a> ProcessFiles<'a> {
    pub fn new(rt: &'a HostRuntime, script: Option<&'a FileName>) -> ProcessFiles<'a> {
        ProcessFiles { rt, script }
    }

    fn put_kind(&mut self, kind: Kind, name: &FileName, text: &str) -> bool {
        match put_into_file(self.rt, self.script, kind, name.as_str(), text) {
            Ok(()) | Err(FileFault::System(ErrorKind::OutOfMemory)) => true,
            Err(fault) => {
                say_fault(self.rt, kind, name, fault);
                false
            }
        }
    }
}

impl<'a> PictureFiles for ProcessFiles<'a> {
    ghost puts = { λ _ _ _ _. ⊤ };

    /// Puts a picture into a file. If the picture can't be put there, says on standard error why, and leaves the file unchanged. If memory
    /// runs out, the picture is left out, nothing is said, and the call returns `true`.
    fn put(&mut self, name: &FileName, picture: &str) -> bool {
        self.put_kind(Kind::Picture, name, picture)
    }
}

impl<'a> LogFiles for ProcessFiles<'a> {
    ghost logs = { λ _ _ _ _. ⊤ };

    /// Does with a log what `put` does with a picture.
    fn put_log(&mut self, name: &FileName, log: &str) -> bool {
        self.put_kind(Kind::Log, name, log)
    }
}

/// The reason why a text isn't put into a file.
#[derive(Clone, Copy, Debug, PartialEq, Eq)]
enum FileFault {
    /// The name is `-`, which means standard output for many programs.
    Dash,
    Script,
    /// Standard output or standard error goes to this file.
    Output,
    /// The file is a device, a pipe or a socket.
    NotRegular,
    /// The file exists, but doesn't begin like a file of the kind that is to be written.
    Other,
    /// The operating system can't do what is needed, or memory ran out.
    System(ErrorKind),
}

impl From<io::Error> for FileFault {
    fn from(error: io::Error) -> FileFault {
        FileFault::System(error.kind())
    }
}

impl From<AllocError> for FileFault {
    fn from(_error: AllocError) -> FileFault {
        FileFault::System(ErrorKind::OutOfMemory)
    }
}

/// Says why a text isn't put into the file. The message is left out if memory runs out, or if the message can't be written.
fn say_fault(rt: &HostRuntime, kind: Kind, name: &FileName, fault: FileFault) {
    if let Ok(text) = message_of(rt.alloc(), kind, shown_name(name), fault) {
        let _ = rt.stderr().write_all(text.as_bytes());
    }
}

/// Returns the message that says why a text isn't put into the file with this name. The only error is that memory ran out.
fn message_of(
    alloc: Global,
    kind: Kind,
    file: &str,
    fault: FileFault,
) -> Result<String, AllocError> {
    let (what, own) = (kind.name(), kind.own_file());
    match fault {
        FileFault::Dash => {
            format!(in alloc; "workbench: {file}: a {what} is not written to standard output\n")
        }
        FileFault::Script => {
            format!(in alloc;
                "workbench: {file}: it is the script, which a {what} does not replace\n"
            )
        }
        FileFault::Output => {
            format!(in alloc; "workbench: {file}: the report or the messages go there\n")
        }
        FileFault::NotRegular => {
            format!(in alloc; "workbench: {file}: it is not a regular file\n")
        }
        FileFault::Other => {
            format!(in alloc;
                "workbench: {file}: it exists and is not {own}, so it is left as it is\n"
            )
        }
        FileFault::System(error) => file_fault(alloc, file, Deed::Writing, error),
    }
}

/// Puts a text into the file that a name leads to. An existing file is replaced only if it begins like a file of this kind.
fn put_into_file(
    rt: &HostRuntime,
    script: Option<&FileName>,
    kind: Kind,
    name: &str,
    text: &str,
) -> Result<(), FileFault> {
    match name {
        "" => return Err(FileFault::System(ErrorKind::NotFound)),
        "-" => return Err(FileFault::Dash),
        _ => {}
    }
    let path = follow_links(rt, name)?;
    let permissions = match fs::metadata(rt, path.as_path()) {
        Ok(found) => {
            see_replaceable(rt, script, kind, path.as_path(), &found)?;
            Some(found.permissions())
        }
        Err(error) if error.kind() == ErrorKind::NotFound => None,
        Err(error) => return Err(FileFault::from(error)),
    };
    put_whole(rt, kind, path.as_path(), text, permissions)
}

/// Returns the path that a name leads to. As long as the path is a symbolic link, the function follows the link.
fn follow_links(rt: &HostRuntime, name: &str) -> Result<PathBuf, FileFault> {
    let mut path = PathBuf::from_str(rt.alloc(), name)?;
    for _ in 0..MOST_LINKS {
        match fs::symlink_metadata(rt, path.as_path()) {
            Ok(found) if found.is_symlink() => {
                let link = fs::read_link(rt, path.as_path())?;
                path = match path.as_path().parent() {
                    Some(folder) => folder.join(rt.alloc(), link.as_path())?,
                    None => link,
                };
            }
            Ok(_) => return Ok(path),
            Err(error) if error.kind() == ErrorKind::NotFound => return Ok(path),
            Err(error) => return Err(FileFault::from(error)),
        }
    }
    Err(FileFault::System(ErrorKind::FilesystemLoop))
}

/// Checks that an existing file may be replaced. The file must be a regular file that begins like a file of this kind and that may be
/// written. The file must not be the script, or the file that the report or the messages go to.
fn see_replaceable(
    rt: &HostRuntime,
    script: Option<&FileName>,
    kind: Kind,
    path: Path<'_>,
    found: &Metadata,
) -> Result<(), FileFault> {
    if found.is_dir() {
        return Err(FileFault::System(ErrorKind::IsADirectory));
    }
    if !found.is_file() {
        return Err(FileFault::NotRegular);
    }
    if is_file_at(rt, script.map_or(INPUT, |name| name.as_str()), found) {
        return Err(FileFault::Script);
    }
    if OUTPUTS.iter().any(|name| is_file_at(rt, name, found)) {
        return Err(FileFault::Output);
    }
    let is_own = match kind {
        Kind::Picture => begins_as_svg(rt, path)?,
        Kind::Log => begins_as_log(rt, path)?,
    };
    if is_own {
        Ok(())
    } else {
        Err(FileFault::Other)
    }
}

/// Whether a name leads to this file; `false` if the system can't say which file the name leads to.
fn is_file_at(rt: &HostRuntime, name: &str, file: &Metadata) -> bool {
    fs::metadata(rt, name).is_ok_and(|it| it.dev() == file.dev() && it.ino() == file.ino())
}

/// Whether a file begins like an SVG file, with the opening tag of the outermost element. The file is also opened for writing. So a file
/// that may not be written leads to an error, and isn't replaced.
fn begins_as_svg(rt: &HostRuntime, path: Path<'_>) -> Result<bool, FileFault> {
    let mut start = [0u8; 5];
    let mut file = OpenOptions::new().read(true).write(true).open(rt, path)?;
    match file.read_exact(&mut start) {
        Ok(()) => Ok(
            start.starts_with(b"<svg") && matches!(start[4], b' ' | b'\t' | b'\n' | b'\r' | b'>'),
        ),
        Err(error) if error.kind() == ErrorKind::UnexpectedEof => Ok(false),
        Err(error) => Err(FileFault::from(error)),
    }
}

/// Whether a file begins like the workbench's own logs. The file is opened for reading and writing, as in `begins_as_svg`.
fn begins_as_log(rt: &HostRuntime, path: Path<'_>) -> Result<bool, FileFault> {
    let mut start = Vec::new(rt.alloc());
    start.resize(HEAD.len(), 0u8)?;
    let mut file = OpenOptions::new().read(true).write(true).open(rt, path)?;
    match file.read_exact(start.as_mut_slice()) {
        Ok(()) => Ok(start.as_slice() == HEAD.as_bytes()),
        Err(error) if error.kind() == ErrorKind::UnexpectedEof => Ok(false),
        Err(error) => Err(FileFault::from(error)),
    }
}

/// Writes a whole text to a new file in the folder of `path`, and then renames the new file to `path`. If writing or renaming fails, the
/// new file is removed.
fn put_whole(
    rt: &HostRuntime,
    kind: Kind,
    path: Path<'_>,
    text: &str,
    permissions: Option<Permissions>,
) -> Result<(), FileFault> {
    let (beside, file) = create_beside(rt, kind, path)?;
    let put = match fill(file, text, permissions) {
        Ok(()) => fs::rename(rt, beside.as_path(), path),
        Err(error) => Err(error),
    };
    if put.is_err() {
        let _ = fs::remove_file(rt, beside.as_path());
    }
    Ok(put?)
}

/// Creates a new file in the folder of `path`, under a name that no file has yet. Returns the path of the new file, and the file.
fn create_beside(
    rt: &HostRuntime,
    kind: Kind,
    path: Path<'_>,
) -> Result<(PathBuf, File), FileFault> {
    let what = kind.name();
    for number in 0..MOST_NAMES {
        let name = format!(in rt.alloc(); "workbench-{what}-{number}.tmp")?;
        let beside = path.with_file_name(rt.alloc(), name.as_str())?;
        match File::create_new(rt, beside.as_path()) {
            Ok(file) => return Ok((beside, file)),
            Err(error) if error.kind() == ErrorKind::AlreadyExists => {}
            Err(error) => return Err(FileFault::from(error)),
        }
    }
    Err(FileFault::System(ErrorKind::AlreadyExists))
}

/// Writes a text to a new file, and gives the file these permissions; `None` leaves its permissions unchanged.
fn fill(mut file: File, text: &str, permissions: Option<Permissions>) -> io::Result<()> {
    file.write_all(text.as_bytes())?;
    match permissions {
        Some(permissions) => file.set_permissions(permissions),
        None => Ok(()),
    }
}
