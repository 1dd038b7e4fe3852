//! Laws about which bytes are scripts. Each law is the contract of a function that does nothing, so that checking this crate proves the
//! law.

ghost use Rattle.std.specs.Prelude.{◌≡◌, ℕ, List, length};
ghost use Rattle.wb_language.specs.declared.fault.ScriptFault.{ScriptFault};
ghost use Rattle.wb_tree.specs.declared.script.Script.{Script};
ghost use Rattle.wb_language.specs.declared.fault.ScriptFault.TheVariants.{UnknownName};
ghost use Rattle.wb_language.specs.Forms.{forms_of};
ghost use Rattle.wb_language.specs.Lines.{lines_of};
ghost use Rattle.wb_language.specs.Scripts.{IsScriptOf, IsFaultOf};
ghost use Rattle.wb_language.specs.Undeclared.{UsesDeclaredUpTo, IsFirstUndeclaredLine};

/// Bytes spell at most one script.
pub fn one_script()
    ensures { (bytes : List ℕ) → (script : Script) → (other : Script) → IsScriptOf bytes script →
        IsScriptOf bytes other → script ≡ other }
{}

/// Bytes have at most one first fault.
pub fn one_fault()
    ensures { (bytes : List ℕ) → (fault : ScriptFault) → (other : ScriptFault) →
        IsFaultOf bytes fault → IsFaultOf bytes other → fault ≡ other }
{}

/// Bytes that spell a script have no fault.
pub fn script_or_fault()
    ensures { (bytes : List ℕ) → (script : Script) → (fault : ScriptFault) →
        IsScriptOf bytes script → IsFaultOf bytes fault → ⊥ }
{}

/// The line with an unknown name is the first line that uses a name which its body, its class or the script doesn't declare.
pub fn unknown_is_undeclared()
    ensures { (bytes : List ℕ) → (n : ℕ) → IsFaultOf bytes (UnknownName n) →
        IsFirstUndeclaredLine (forms_of (lines_of bytes)) n }
{}

/// No line of a script uses a name that its body, its class or the script doesn't declare.
pub fn names_are_declared()
    ensures { (bytes : List ℕ) → (script : Script) → IsScriptOf bytes script →
        UsesDeclaredUpTo (forms_of (lines_of bytes)) (length (forms_of (lines_of bytes))) }
{}
