//! Another run of a machine's script, made from its first attempt.

ghost use Rattle.std.specs.Prelude.{◌≡◌, false, IfOk};
ghost use Rattle.wb_meaning.specs.Run.{run};

use crate::machine::{Machine, run_reporting};
use wb_basics::memory::NoMemory;
use wb_heap_model::heap::Rule;
use wb_meaning::conditions::Conditions;
use wb_meaning::progress::Silent;
use wb_meaning::run::RunResult;

impl<'a> Machine<'a> {
    /// Runs the machine's script under another rule, from the first attempt to the end, with the machine's budget and shape. The result has
    /// a trace, even if the machine keeps its rises. The machine stays as it is.
    pub fn run_another(&self, rule: Rule) -> Result<RunResult, NoMemory>
        requires well { self.now.failed ≡ false }
        ensures { IfOk result (λ run_result. run_result
            ≡ run self.now.script rule self.now.budget self.now.shape) }
    {
        let conditions = Conditions {
            budget: self.budget,
            shape: self.shape,
        };
        run_reporting(self.alloc, self.script, rule, conditions, &mut Silent)
    }
}
