//! The checks of names, kinds, leaves and limits: one pass over all lines, which also finds what the names in the lines stand for.

pub(crate) mod declarations;
pub(crate) mod items;
pub(crate) mod kinds;
pub(crate) mod leaving;
pub(crate) mod limits;
pub(crate) mod names;
pub(crate) mod names_so_far;
pub(crate) mod resolved;
pub(crate) mod resolved_lines;
pub(crate) mod tables;

ghost use Rattle.std.specs.Prelude.{◌≡◌, ◌+◌, ◌<◌, ◌≤◌, [], ◌∷◌, ◌++◌, List, length, IfOk, OnOk};
ghost use Rattle.wb_tree.specs.declared.script_lines.Form as model;
ghost use Rattle.wb_language.specs.Kinds.{has_wrong_kind, may_leave};
ghost use Rattle.wb_language.specs.Names as space;
ghost use Rattle.wb_language.specs.Names.{Text, declares_again, items_before, names_of, passes_limit};
ghost use Rattle.wb_language.specs.Resolved.{uses_unknown, resolved_line};
ghost use Rattle.wb_lines.specs.BytesOf.{bytes_of_form, bytes_of_forms};
ghost use Rattle.wb_script.specs.BytesOf.{bytes_of_items};
ghost use Rattle.wb_script.specs.Checks.{known_in, or_here, AreChecked, IsFew};
ghost use Rattle.wb_script.specs.ResolvedLines.{form_of};

use crate::checks::declarations::Declarations;
use crate::checks::kinds::has_wrong_kind;
use crate::checks::leaving::may_leave;
use crate::checks::limits::passes_limit;
use crate::checks::names::{declares_again, has_unknown};
use crate::checks::names_so_far::NamesSoFar;
use crate::checks::resolved_lines::{ResolvedLine, ResolvedLines};
use std::alloc::{AllocError, Global};
use wb_basics::limits::LONGEST_SCRIPT;
use wb_tree::script_lines::Form;

/// The number of the first line in which a check finds a fault, after one more line. `found` is this number for the lines before, and
/// `refused` says whether the check finds a fault in this line.
fn or_here(found: Option<u32>, line: u32, refused: bool) -> Option<u32>
    ensures { result ≡ or_here found line refused }
{
    match found {
        Some(first) => Some(first),
        None => { if refused { Some(line) } else { None } }
    }
}

/// For each check, the number of the first line in which the check finds a fault; `None` if the check has found no fault.
#[derive(Clone, Copy)]
pub(crate) struct FirstLines {
    pub unknown_name: Option<u32>,
    pub double_name: Option<u32>,
    pub wrong_kind: Option<u32>,
    pub may_leave: Option<u32>,
    pub too_many: Option<u32>,
}

impl FirstLines {
    /// The first lines with a fault, after one more line. The one more line has the number `number` and the form `form`, and `line` says
    /// what its names stand for.
    fn with(
        self,
        items: &Declarations,
        known: &NamesSoFar,
        number: u32,
        form: &Form<&[u8]>,
        line: ResolvedLine,
    ) -> FirstLines
        requires few { IsFew known.now }
        requires line { form_of line ≡ resolved_line (bytes_of_items items.now)
            (known_in known.now) (bytes_of_form form.now) }
        ensures unknown_name { result.unknown_name ≡ or_here self.unknown_name number
            (uses_unknown (bytes_of_items items.now) (known_in known.now)
            (bytes_of_form form.now)) }
        ensures double_name { result.double_name ≡ or_here self.double_name number
            (declares_again (names_of (bytes_of_items items.now)) (known_in known.now)
            (bytes_of_form form.now)) }
        ensures wrong_kind { result.wrong_kind ≡ or_here self.wrong_kind number
            (has_wrong_kind (bytes_of_items items.now) (known_in known.now)
            (bytes_of_form form.now)) }
        ensures may_leave { result.may_leave ≡ or_here self.may_leave number
            (may_leave (known_in known.now) (bytes_of_form form.now)) }
        ensures too_many { result.too_many ≡ or_here self.too_many number
            (passes_limit (known_in known.now) (bytes_of_form form.now)) }
    {
        let double = declares_again(items, known, form);
        let wrong = has_wrong_kind(items, known, form, line);
        FirstLines {
            unknown_name: or_here(self.unknown_name, number, has_unknown(line)),
            double_name: or_here(self.double_name, number, double),
            wrong_kind: or_here(self.wrong_kind, number, wrong),
            may_leave: or_here(self.may_leave, number, may_leave(known, form)),
            too_many: or_here(self.too_many, number, passes_limit(known, form)),
        }
    }
}

/// What is known about the lines that were checked so far.
#[derive(Drop)]
pub(crate) struct Checked<'a> {
    /// The lines, together with what their names and literals stand for.
    pub lines: ResolvedLines,
    pub known: NamesSoFar<'a>,
    pub first: FirstLines,
}

impl<'a> Checked<'a> {
    /// No lines yet, with room for `count` lines.
    fn with_capacity(alloc: Global, count: usize) -> Result<Checked<'a>, AllocError>
        ensures checked { IfOk result (λ checked. (items : List space.Declaration) →
            AreChecked items [] checked) }
        ensures items { IfOk result (λ checked. items_before (known_in checked.known)
            ≤ length checked.lines) }
        ensures lines { IfOk result (λ checked. length checked.lines ≡ 0) }
    {
        let lines = ResolvedLines::with_capacity(alloc, count)?;
        Ok(Checked {
            lines,
            known: NamesSoFar::nothing(alloc),
            first: FirstLines {
                unknown_name: None,
                double_name: None,
                wrong_kind: None,
                may_leave: None,
                too_many: None,
            },
        })
    }

    /// Checks one more line of a script, which declares these items in its own space. A skipped line has nothing to check.
    fn add_line(&mut self, items: &Declarations, form: &Form<&'a [u8]>) -> Result<(), AllocError>
        requires few { length self.now.lines < LONGEST_SCRIPT }
        requires items { items_before (known_in self.now.known) ≤ length self.now.lines }
        ensures checked { OnOk result ((before : List (model.Form Text)) →
            AreChecked (bytes_of_items items.now) before self.old →
            AreChecked (bytes_of_items items.now) (before ++ bytes_of_form form.now
            ∷ []) self.new) }
        ensures items { OnOk result (items_before (known_in self.new.known)
            ≤ length self.new.lines) }
        ensures lines { OnOk result (length self.new.lines ≡ length self.old.lines + 1) }
    {
        self.lines.add(items, &self.known, form)?;
        if let Form::Skip = form {
            return Ok(());
        }
        let number = self.lines.len() as u32;
        let line = self.lines.last();
        self.first = self.first.with(items, &self.known, number, form, line);
        self.known.add_line(form)?;
        Ok(())
    }
}

/// Checks all lines of a script, which declares these items in its own space.
pub(crate) fn checked_lines<'a>(
    alloc: Global,
    items: &Declarations,
    forms: &[Form<&'a [u8]>],
) -> Result<Checked<'a>, AllocError>
    requires { length forms.now ≤ LONGEST_SCRIPT }
    ensures { IfOk result (AreChecked (bytes_of_items items.now) (bytes_of_forms forms.now)) }
{
    let mut checked = Checked::with_capacity(alloc, forms.len())?;
    for form in forms {
        checked.add_line(items, form)?;
    }
    Ok(checked)
}
