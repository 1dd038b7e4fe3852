//! Laws of the checks. The line that a check names is the first line of the script that breaks a rule; the rule may look at all lines of
//! the script. If the bytes spell a script, or have a fault of a later check, no line breaks the rule. Each law is the contract of a
//! function that does nothing, so that checking this crate proves the law.

ghost use Rattle.std.specs.Prelude.{ℕ, ◌<◌, List};
ghost use Rattle.wb_language.specs.declared.fault.ScriptFault.{ScriptFault};
ghost use Rattle.wb_language.specs.declared.fault.ScriptFault.TheVariants.{UnknownName, DoubleName};
ghost use Rattle.wb_language.specs.declared.fault.ScriptFault.TheVariants.{WrongKind, MayLeave, TooMany};
ghost use Rattle.wb_tree.specs.declared.script.Script.{Script};
ghost use Rattle.wb_language.specs.DeclaredAgain.{DeclaresAgain};
ghost use Rattle.wb_language.specs.FaultOrder.{number_of_fault};
ghost use Rattle.wb_language.specs.FirstLines.{IsFirstLine, IsOfNoLine};
ghost use Rattle.wb_language.specs.Forms.{forms_of};
ghost use Rattle.wb_language.specs.Lines.{lines_of};
ghost use Rattle.wb_language.specs.MissedFields.{UsesUnknown};
ghost use Rattle.wb_language.specs.PassedLimits.{PassesLimit};
ghost use Rattle.wb_language.specs.QuietBodies.{MayLeaveThere};
ghost use Rattle.wb_language.specs.Scripts.{IsScriptOf, IsFaultOf};
ghost use Rattle.wb_language.specs.WrongSorts.{IsWrong};

/// The fault of an unknown name is in the first line that uses an undeclared name or an undeclared field. A name is undeclared if it is
/// declared nowhere in its space, and a field if the class of the pointer before the dot doesn't declare it. A script has no such line.
pub fn unknown_names_are_declared_nowhere()
    ensures refused { (bytes : List ℕ) → (n : ℕ) → IsFaultOf bytes (UnknownName n) →
        IsFirstLine UsesUnknown (forms_of (lines_of bytes)) n }
    ensures script { (bytes : List ℕ) → (script : Script) → IsScriptOf bytes script →
        IsOfNoLine UsesUnknown (forms_of (lines_of bytes)) }
    ensures later { (bytes : List ℕ) → (fault : ScriptFault) → IsFaultOf bytes fault →
        4 < number_of_fault fault → IsOfNoLine UsesUnknown (forms_of (lines_of bytes)) }
{}

/// The fault of a double name is in the first line that declares a name again, or has two parameters with the same name. A line declares a
/// name again if an earlier line of the same space declares this name. A script has no such line.
pub fn double_names_are_declared_again()
    ensures refused { (bytes : List ℕ) → (n : ℕ) → IsFaultOf bytes (DoubleName n) →
        IsFirstLine DeclaresAgain (forms_of (lines_of bytes)) n }
    ensures script { (bytes : List ℕ) → (script : Script) → IsScriptOf bytes script →
        IsOfNoLine DeclaresAgain (forms_of (lines_of bytes)) }
    ensures later { (bytes : List ℕ) → (fault : ScriptFault) → IsFaultOf bytes fault →
        5 < number_of_fault fault → IsOfNoLine DeclaresAgain (forms_of (lines_of bytes)) }
{}

/// The fault of a wrong kind is in the first line with a wrong operand, wrong arguments, a misuse of `main`, or a `return` that isn't
/// allowed. Operands and arguments are wrong if they have the wrong kind; arguments are also wrong if their number is wrong. A script has
/// no such line.
pub fn wrong_kinds_are_wrong()
    ensures refused { (bytes : List ℕ) → (n : ℕ) → IsFaultOf bytes (WrongKind n) →
        IsFirstLine IsWrong (forms_of (lines_of bytes)) n }
    ensures script { (bytes : List ℕ) → (script : Script) → IsScriptOf bytes script →
        IsOfNoLine IsWrong (forms_of (lines_of bytes)) }
    ensures later { (bytes : List ℕ) → (fault : ScriptFault) → IsFaultOf bytes fault →
        6 < number_of_fault fault → IsOfNoLine IsWrong (forms_of (lines_of bytes)) }
{}

/// The fault of a line that may leave is in a line of the body of an operation or of a destructor. The line is the first declaration,
/// statement or head of a block that isn't one of the few allowed in such a body. A script has no such line.
pub fn leaving_lines_are_in_quiet_bodies()
    ensures refused { (bytes : List ℕ) → (n : ℕ) → IsFaultOf bytes (MayLeave n) →
        IsFirstLine MayLeaveThere (forms_of (lines_of bytes)) n }
    ensures script { (bytes : List ℕ) → (script : Script) → IsScriptOf bytes script →
        IsOfNoLine MayLeaveThere (forms_of (lines_of bytes)) }
    ensures later { (bytes : List ℕ) → (fault : ScriptFault) → IsFaultOf bytes fault →
        7 < number_of_fault fault → IsOfNoLine MayLeaveThere (forms_of (lines_of bytes)) }
{}

/// The fault of too many things is in the first line that passes a limit, counting what this line and the lines before it begin and
/// declare. A script has no such line.
pub fn too_many_is_past_a_limit()
    ensures refused { (bytes : List ℕ) → (n : ℕ) → IsFaultOf bytes (TooMany n) →
        IsFirstLine PassesLimit (forms_of (lines_of bytes)) n }
    ensures script { (bytes : List ℕ) → (script : Script) → IsScriptOf bytes script →
        IsOfNoLine PassesLimit (forms_of (lines_of bytes)) }
{}
