//! Reads a script from its bytes.

ghost use Rattle.std.specs.Prelude.{◌≡◌, ◌≢◌, ◌≤◌, ◌<◌, ◌^◌, [], ◌∷◌, ◌++◌, length, map, slice_get, true, IsTrue, IfOk};
ghost use Rattle.std.specs.Prelude.{IfErr, OnOk, MatchOption};
ghost use Rattle.std.specs.List.{list_all};
ghost use Rattle.wb_language.specs.Forms.{role_of_form};
ghost use Rattle.wb_language.specs.Grammar.{IsGrammatical, IsFirstMisfit};
ghost use Rattle.wb_language.specs.Scripts.{IsPlainText, IsScriptOf, IsFaultOf, IsTreeOf, IsLinesFault};
ghost use Rattle.wb_tree.specs.Sound.{is_script, is_sound_script, is_entry, is_literal_text};
ghost use Rattle.wb_language.specs.Trees.{script_lines, counted_from};
ghost use Rattle.wb_script.specs.Building.{AllFit, counts_of};
ghost use Rattle.wb_script.specs.Checks.{IsMain, IsFirstFault};
ghost use Rattle.wb_lines.specs.BytesOf.{bytes_of_texts, bytes_of_forms};
ghost use Rattle.wb_script.specs.BytesOf.{declared_by, bytes_of_items};
ghost use Rattle.wb_script.specs.Reads.{roles_of, IsFormsFault};
ghost use Rattle.wb_lines.specs.Typed.{AreTyped};

use crate::checks::declarations::Declarations;
use crate::checks::resolved::item_referent;
use crate::checks::resolved_lines::ResolvedLines;
use crate::checks::{FirstLines, checked_lines};
use crate::tree::bodies_of;
use std::alloc::{AllocError, Global};
use wb_basics::items::{Chars, Items};
use wb_basics::limits::LONGEST_SCRIPT;
use wb_language::fault::ScriptFault;
use wb_lines::bytes::{first_foreign_line, is_too_long};
use wb_lines::forms::{forms, role};
use wb_lines::lists::add;
use wb_lines::segments::lines;
use wb_nesting::first_misfit;
use wb_tree::script::Script;
use wb_tree::script_lines::{Form, Referent, Role};

fn roles<N>(alloc: Global, forms: &[Form<N>]) -> Result<Vec<Role>, AllocError>
    ensures { IfOk result (λ found. found.items ≡ map role_of_form forms.now) }
{
    let mut found = Vec::with_capacity(alloc, forms.len())?;
    for form in forms {
        add(&mut found, role(form))?;
    }
    Ok(found)
}

/// The index of the first line that no script can have at this point. The result is the number of lines if only an `end` is missing, and
/// `None` if the lines are grammatical as a whole script.
fn misfit(alloc: Global, forms: &[Form<&[u8]>]) -> Result<Option<usize>, AllocError>
    ensures { IfOk result (λ found. MatchOption found
        (IsGrammatical (roles_of (bytes_of_forms forms.now)))
        (IsFirstMisfit (roles_of (bytes_of_forms forms.now)))) }
{
    let roles = roles(alloc, forms)?;
    first_misfit(alloc, &roles)
}

fn chars_of(alloc: Global, text: &[u8]) -> Result<Chars, AllocError>
    ensures { IfOk result (λ chars. chars ≡ text.now) }
{
    let mut chars = Vec::new(alloc);
    chars.extend_from_slice(text)?;
    Ok(Items::from_vec(chars))
}

fn add_text(alloc: Global, literals: &mut Vec<Chars>, text: &[u8]) -> Result<(), AllocError>
    ensures { OnOk result (literals.new.items ≡ literals.old.items ++ text.now ∷ []) }
{
    add(literals, chars_of(alloc, text)?)
}

fn literals_of(alloc: Global, texts: &[&[u8]]) -> Result<Items<Chars>, AllocError>
    ensures { IfOk result (λ literals. literals ≡ bytes_of_texts texts.now) }
{
    let mut literals = Vec::new(alloc);
    for text in texts {
        add_text(alloc, &mut literals, text)?;
    }
    Ok(Items::from_vec(literals))
}

/// The script that lines without a fault spell. `literals` are its literals, and `main` is the index of its procedure `main`.
fn script_of(
    alloc: Global,
    items: &Declarations,
    lines: &ResolvedLines,
    literals: &[&[u8]],
    main: usize,
) -> Result<Script, AllocError>
    requires grammar { IsGrammatical (map role_of_form lines.now) }
    requires fit { AllFit (declared_by (length literals.now) items.now) lines.now }
    requires classes { (counts_of lines.now).classes
        ≡ (declared_by (length literals.now) items.now).fields }
    requires procedures { (counts_of lines.now).procedures
        ≡ (declared_by (length literals.now) items.now).signatures }
    requires operations { (counts_of lines.now).operations
        ≡ (declared_by (length literals.now) items.now).operations }
    requires few { (length literals.now < 2 ^ 32) × (length lines.now ≤ LONGEST_SCRIPT) }
    requires quotable { IsTrue (list_all is_literal_text (bytes_of_texts literals.now)) }
    requires main { is_entry (slice_get (counts_of lines.now).procedures main) ≡ true }
    ensures tree { IfOk result (λ s. script_lines s ≡ counted_from 1 lines.now) }
    ensures literals { IfOk result (λ s. s.literals ≡ bytes_of_texts literals.now) }
    ensures main { IfOk result (λ s. s.main ≡ main) }
    ensures sound { IfOk result (λ s. IsTrue (is_sound_script s)) }
{
    let whole = bodies_of(alloc, literals.len() as u32, items, lines)?;
    Ok(Script {
        classes: whole.classes,
        procedures: whole.procedures,
        operations: whole.operations,
        literals: literals_of(alloc, literals)?,
        main: main as u16,
    })
}

/// The index of `main` among the procedures, or the first fault. For each check, `first` says in which line the check first finds a fault.
fn place_of_main(items: &Declarations, first: FirstLines) -> Result<usize, ScriptFault>
    ensures found { IfOk result (IsMain (bytes_of_items items.now) first) }
    ensures fault { IfErr result (IsFirstFault (bytes_of_items items.now) first) }
{
    if let Some(line) = first.unknown_name {
        return Err(ScriptFault::UnknownName { line });
    }
    if let Some(line) = first.double_name {
        return Err(ScriptFault::DoubleName { line });
    }
    if let Some(line) = first.wrong_kind {
        return Err(ScriptFault::WrongKind { line });
    }
    if let Some(line) = first.may_leave {
        return Err(ScriptFault::MayLeave { line });
    }
    let Referent::Procedure(main) = item_referent(items, b"main") else {
        return Err(ScriptFault::NoMain);
    };
    match first.too_many {
        Some(line) => Err(ScriptFault::TooMany { line }),
        None => Ok(main),
    }
}

/// The script that grammatical lines spell, or their first fault that isn't a fault of grammar.
fn check_and_build(
    alloc: Global,
    forms: &[Form<&[u8]>],
) -> Result<Result<Script, ScriptFault>, AllocError>
    requires few { length forms.now ≤ LONGEST_SCRIPT }
    requires typed { AreTyped (bytes_of_forms forms.now) }
    requires grammar { IsGrammatical (roles_of (bytes_of_forms forms.now)) }
    ensures tree { IfOk result (λ answer. IfOk answer (IsTreeOf (bytes_of_forms forms.now))) }
    ensures sound { IfOk result (λ answer. IfOk answer (λ s. IsTrue (is_script s))) }
    ensures fault { IfOk result (λ answer. IfErr answer (IsLinesFault (bytes_of_forms forms.now))) }
{
    let items = Declarations::of(alloc, forms)?;
    let found = checked_lines(alloc, &items, forms)?;
    match place_of_main(&items, found.first) {
        Err(fault) => Ok(Err(fault)),
        Ok(main) => {
            let script = script_of(alloc, &items, &found.lines, &found.known.literals, main)?;
            Ok(Ok(script))
        }
    }
}

/// The script that lines with these forms spell, or the first fault of the lines.
fn read_forms(
    alloc: Global,
    forms: &[Form<&[u8]>],
) -> Result<Result<Script, ScriptFault>, AllocError>
    requires few { length forms.now ≤ LONGEST_SCRIPT }
    requires typed { AreTyped (bytes_of_forms forms.now) }
    ensures grammar { IfOk result (λ answer.
        IfOk answer (λ _. IsGrammatical (roles_of (bytes_of_forms forms.now)))) }
    ensures tree { IfOk result (λ answer. IfOk answer (IsTreeOf (bytes_of_forms forms.now))) }
    ensures sound { IfOk result (λ answer. IfOk answer (λ s. IsTrue (is_script s))) }
    ensures fault { IfOk result (λ answer. IfErr answer (IsFormsFault (bytes_of_forms forms.now))) }
{
    match misfit(alloc, forms)? {
        Some(index) => Ok(Err(ScriptFault::Grammar {
            line: index as u32 + 1,
        })),
        None => check_and_build(alloc, forms),
    }
}

/// The script that a text spells, or the first fault of its lines.
fn read_text(alloc: Global, bytes: &[u8]) -> Result<Result<Script, ScriptFault>, AllocError>
    requires { IsPlainText bytes.now }
    ensures script { IfOk result (λ answer. IfOk answer (IsScriptOf bytes.now)) }
    ensures sound { IfOk result (λ answer. IfOk answer (λ s. IsTrue (is_script s))) }
    ensures fault { IfOk result (λ answer. IfErr answer (IsFaultOf bytes.now)) }
{
    let lines = lines(alloc, bytes)?;
    let forms = forms(alloc, &lines)?;
    read_forms(alloc, &forms)
}

/// Returns the script that bytes spell, or the first fault of the bytes.
///
/// The checks come in the order of `ScriptFault`'s variants, and each check goes over the whole script. The first check that finds a fault
/// decides. The fault names the first line that has it, counted from 1, unless the fault has no line. `NoMemory` is returned only if the
/// workbench itself ran out of memory. `NoMemory` can come only after the bytes have passed the checks of `TooLong` and `NotAscii`, and
/// says nothing else about the bytes.
pub fn read(alloc: Global, bytes: &[u8]) -> Result<Script, ScriptFault>
    ensures script { IfOk result (IsScriptOf bytes.now) }
    ensures sound { IfOk result (λ s. IsTrue (is_script s)) }
    ensures fault { IfErr result (λ fault. fault ≢ ScriptFault.NoMemory →
        IsFaultOf bytes.now fault) }
    ensures memory { IfErr result (λ fault. fault ≡ ScriptFault.NoMemory → IsPlainText bytes.now) }
{
    if is_too_long(bytes) {
        return Err(ScriptFault::TooLong);
    }
    match first_foreign_line(bytes) {
        Some(line) => Err(ScriptFault::NotAscii { line }),
        None => match read_text(alloc, bytes) {
            Ok(answer) => answer,
            Err(AllocError) => Err(ScriptFault::NoMemory),
        },
    }
}
