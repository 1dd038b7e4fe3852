//! Laws of reports and of the program. Each law is the contract of a function that does nothing, so that the gate proves the law.

ghost use Rattle.std.specs.Prelude.{◌≡◌, ℕ, List, None, IsTrue, false};
ghost use Rattle.clap.specs.Words.{Text};
ghost use Rattle.wb_command_line.specs.Command.{is_answerable};
ghost use Rattle.wb_command_line.specs.Spelled.{IsSpelledBy};
ghost use Rattle.wb_command_line.specs.declared.command.Command.{Command};
ghost use Rattle.wb_command_line.specs.declared.command.CommandFault.TheVariants.{NoMemory};
ghost use Rattle.wb_meaning.specs.Run.{rises, run};
ghost use Rattle.wb_heap_model.specs.declared.heap.Rule.TheVariants.{Unlimited};
ghost use Rattle.wb_heap_model.specs.declared.heap.Shape.{Shape};
ghost use Rattle.wb_tree.specs.declared.script.Script.{Script};
ghost use Rattle.workbench.specs.Ascii.{HasPrintableLines, IsPrintableText};
ghost use Rattle.workbench.specs.EverySetReport.{tries_every_set};
ghost use Rattle.workbench.specs.Program.{IsWordsFault};
ghost use Rattle.workbench.specs.Report.{IsReport, no_memory, read_fault};
ghost use Rattle.workbench.specs.Rises.{AreRises};
ghost use Rattle.workbench.specs.declared.report_values.ReportValues.{ReportValues};
ghost use Rattle.workbench.specs.declared.host.WordsFault.{WordsFault};
ghost use Rattle.workbench.specs.declared.host.WordsFault.TheVariants.{Refused};

/// The rises are granted attempts of the run without a limit, in the order of the trace: exactly those whose cells end past the cells of
/// all attempts granted before. The rises' numbers and the ends of their cells are the rows of a printed table.
pub fn rises_are()
    ensures { (script : Script) (budget : ℕ) (shape : Shape)
        → AreRises (run script Unlimited budget shape).trace (rises script budget shape) }
{}

/// The bytes and the command determine the report: any two reports of this command on these bytes have the same text, status and values. If
/// the command tries all sets, the law holds only for reports of searches that weren't ended by too many states. For the other searches,
/// the definition of the report leaves open how states are counted.
pub fn one_report()
    ensures one { (command : Command) (bytes text other_text : List ℕ)
        (values other_values : ReportValues) (status other_status : ℕ) →
        tries_every_set command.task ≡ false →
        IsReport command bytes text values status →
        IsReport command bytes other_text other_values other_status →
        (text ≡ other_text) × (values ≡ other_values) × (status ≡ other_status) }
    ensures ended { (command : Command) (bytes text other_text : List ℕ)
        (values other_values : ReportValues) (status other_status : ℕ) →
        values.fine ≡ None → other_values.fine ≡ None →
        IsReport command bytes text values status →
        IsReport command bytes other_text other_values other_status →
        (text ≡ other_text) × (values ≡ other_values) × (status ≡ other_status) }
{}

/// The text of a report is printable ASCII and line feeds, so that each of its lines has only bytes from 32 to 126. The lines that are
/// written in place of a report, `no memory` and `read fault`, are printable ASCII and line feeds too.
pub fn reports_are_ascii()
    ensures text { (command : Command) (bytes text : List ℕ) (values : ReportValues) (status : ℕ) →
        IsReport command bytes text values status → IsPrintableText text }
    ensures lines { (command : Command) (bytes text : List ℕ) (values : ReportValues) (status : ℕ) →
        IsReport command bytes text values status → HasPrintableLines text }
    ensures no_memory { IsPrintableText no_memory }
    ensures read_fault { IsPrintableText read_fault }
{}

/// If words spell a command whose numbers are in their ranges, the only fault that these words can have is that memory ran out. This fault
/// says nothing about the words. So as long as memory doesn't run out, the words alone decide whether `program` carries them out or reports
/// a fault.
pub fn words_are_obeyed_or_blamed()
    ensures { (words : List Text) (command : Command) (fault : WordsFault)
        → IsSpelledBy words command → IsTrue (is_answerable command) → IsWordsFault words fault
        → fault ≡ Refused NoMemory }
{}
