//! Does everything that remains to be done when the answer is written, each part once. First the steps of the run are written, then the
//! answer is explained. Then the picture is put into its file, and at last the log into its own. Other modules say how each part is done.

ghost use Rattle.wb_main.specs.Afterwards.{IsFinished};
ghost use Rattle.workbench.specs.declared.program.Exit.{Exit};

use crate::log::{LogFiles, put_log};
use crate::picture::{PictureFiles, put_picture};
use workbench::program::Exit;

/// The texts to put into files, in addition to the report. A text is `None` if it isn't to be put into a file.
#[derive(Drop)]
pub struct Beside {
    pub picture: Option<String>,
    pub log: Option<String>,
}

impl Beside {
    pub const NOTHING: Beside = Beside {
        picture: None,
        log: None,
    };
}

/// The receiver of the calls that come after an answer.
pub trait Afterwards: PictureFiles + LogFiles {
    /// What writing the steps of a run does, as a relation between the receiver before, the answer, and the receiver after.
    ghost steps: { Self → Exit → Self → Type 0 };

    /// What explaining an answer does, as a relation between the receiver before, the answer, and the receiver after.
    ghost explains: { Self → Exit → Self → Type 0 };

    /// Writes the steps of the run, if the command asks for these steps and there is a report.
    fn put_steps(&mut self, exit: &Exit)
        ensures { steps self.old exit.now self.new };

    /// Explains the answer, and returns the texts to put into files.
    fn explain(&mut self, exit: &Exit) -> Beside
        ensures { explains self.old exit.now self.new };
}

/// Makes all calls that come after an answer. Returns the exit status: the answer's status, or `READ_OR_WRITE_FAULT` if the picture or the
/// log can't be put into its file.
pub fn finish<A: Afterwards>(exit: &Exit, afterwards: &mut A) -> u8
    ensures { IsFinished A.steps A.explains A.puts A.logs exit.now
        afterwards.old afterwards.new result }
{
    afterwards.put_steps(exit);
    let Beside { picture, log } = afterwards.explain(exit);
    let status = put_picture(exit, picture.as_deref(), afterwards);
    put_log(exit, status, log.as_deref(), afterwards)
}
