//! Puts the picture that a command asks for into its file, after the answer is written and explained. The module `whole_file` writes the
//! file.

ghost use Rattle.std.specs.Prelude.{◌≡◌, ◌≢◌, ℕ, List, Bool, IsSome, IfSome};
ghost use Rattle.wb_main.specs.Picture.{IsPictured, IsWanted};

use workbench::FileName;
use workbench::exit_status::READ_OR_WRITE_FAULT;
use workbench::program::Exit;

/// The files that pictures are put into.
pub trait PictureFiles {
    /// What putting a picture into a file does, as a relation between the files before, the file's name, the result of the call, and the
    /// files after. The result is `true` if the picture is in the file now or was left out.
    ghost puts: { Self → List ℕ → Bool → Self → Type 0 };

    /// Puts a picture into the file with this name. Returns `false` if the picture can't be put there.
    fn put(&mut self, name: &FileName, picture: &str) -> bool
        ensures { puts self.old name.now result self.new };
}

/// Puts the picture of a report into the file that the command names for the picture, and into no other file. Returns the exit status: the
/// answer's status, or `READ_OR_WRITE_FAULT` if the picture can't be put there.
pub fn put_picture<P: PictureFiles>(exit: &Exit, picture: Option<&str>, files: &mut P) -> u8
    ensures { IsPictured P.puts exit.now files.old files.new result }
{
    let (Some(picture), Some(name), Some(_)) = (picture, file_for_picture(exit), &exit.findings)
    else {
        return exit.status;
    };
    if files.put(name, picture) {
        exit.status
    } else {
        READ_OR_WRITE_FAULT
    }
}

/// Returns the name of the file that a picture is to be put into. The result is `None` if the command asks for no picture, or if reading
/// the script or writing the report failed.
fn file_for_picture(exit: &Exit) -> Option<&FileName>
    ensures { IfSome result (λ name. IsWanted exit.now name.now) }
{
    if exit.status == READ_OR_WRITE_FAULT {
        return None;
    }
    exit.command.as_ref()?.picture.as_ref()
}
