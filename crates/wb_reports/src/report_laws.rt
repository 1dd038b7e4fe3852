//! The law that there are reports. The law is the contract of a function that does nothing, so that checking the function proves the law.

ghost use Rattle.std.specs.Prelude.{ℕ, List};
ghost use Rattle.wb_command_line.specs.declared.command.Command.{Command};
ghost use Rattle.wb_language.specs.declared.fault.ScriptFault.{ScriptFault};
ghost use Rattle.wb_tree.specs.declared.script.Script.{Script};
ghost use Rattle.wb_language.specs.Scripts.{IsFaultOf, IsScriptOf};
ghost use Rattle.wb_reports.specs.AnyReport.{AnyReport};

/// Every command has a report on bytes that spell a script, and on bytes that have a fault.
pub fn every_command_has_a_report()
    ensures script { (command : Command) (bytes : List ℕ) (script : Script) →
        IsScriptOf bytes script → AnyReport command bytes }
    ensures fault { (command : Command) (bytes : List ℕ) (fault : ScriptFault) →
        IsFaultOf bytes fault → AnyReport command bytes }
{}
