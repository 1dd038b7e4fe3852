//! All lines of a script with what their names and literals stand for. The operands of all lines are in one list, so that a line needs no
//! allocation of its own. The file `resolved` finds out what a name stands for.

ghost use Rattle.std.specs.Prelude.{◌≡◌, ◌<◌, ◌≤◌, ◌++◌, [], ◌∷◌, List, drop, length, take, IfOk, OnErr, OnOk};
ghost use Rattle.wb_tree.specs.declared.script_lines.Form as model;
ghost use Rattle.wb_tree.specs.declared.script_lines.Referent as referent;
ghost use Rattle.wb_language.specs.Resolved.{resolved_line};
ghost use Rattle.wb_lines.specs.BytesOf.{bytes_of_form};
ghost use Rattle.wb_script.specs.BytesOf.{bytes_of_items};
ghost use Rattle.wb_script.specs.Checks.{known_in};
ghost use Rattle.wb_script.specs.ResolvedLines.{count_of, counted_in, form_of, lines_of_rows, with_operands};

use crate::checks::declarations::Declarations;
use crate::checks::names_so_far::NamesSoFar;
use crate::checks::resolved::add_operands;
use std::alloc::{AllocError, Global};
use std::marker::Model;
use wb_lines::lists::add;
use wb_tree::script_lines::{Form, LineKind, Operand, Referent};

/// A line with its operands, which it borrows.
#[derive(Clone, Copy)]
pub(crate) enum ResolvedLine<'a> {
    Skip,
    Unknown,
    Line(LineKind, &'a [Operand<Referent>]),
}

/// A line without its operands.
#[derive(Clone, Copy)]
pub(crate) enum Row {
    Skip,
    Unknown,
    /// A line kind, and how many operands the line has.
    Line(LineKind, usize),
}

impl Row {
    /// How many operands the line has.
    fn operand_count(self) -> usize
        ensures { result ≡ count_of self }
    {
        match self {
            Row::Line(_, count) => count,
            Row::Skip | Row::Unknown => 0,
        }
    }

    /// The line with these operands.
    fn line_with<'a>(self, operands: &'a [Operand<Referent>]) -> ResolvedLine<'a>
        ensures { form_of result ≡ with_operands self operands.now }
    {
        match self {
            Row::Skip => ResolvedLine::Skip,
            Row::Unknown => ResolvedLine::Unknown,
            Row::Line(line_kind, _) => ResolvedLine::Line(line_kind, operands),
        }
    }

    /// Takes the row's operands from the front of `operands`. Returns the line with its operands, and the operands that are left.
    pub(crate) fn split<'a>(
        self,
        operands: &'a [Operand<Referent>],
    ) -> (ResolvedLine<'a>, &'a [Operand<Referent>])
        requires { count_of self ≤ length operands.now }
        ensures line { form_of result.0
            ≡ with_operands self (take (count_of self) operands.now) }
        ensures others { result.1.now ≡ drop (count_of self) operands.now }
    {
        let (own, others) = operands.split_at(self.operand_count());
        (self.line_with(own), others)
    }
}

/// Adds the row of one more line, and its operands.
fn add_line(
    rows: &mut Vec<Row>,
    operands: &mut Vec<Operand<Referent>>,
    items: &Declarations,
    known: &NamesSoFar,
    form: &Form<&[u8]>,
) -> Result<(), AllocError>
    requires { counted_in rows.now.items ≡ length operands.now.items }
    ensures lines { OnOk result (lines_of_rows rows.new.items operands.new.items
        ≡ lines_of_rows rows.old.items operands.old.items
        ++ resolved_line (bytes_of_items items.now) (known_in known.now) (bytes_of_form form.now)
        ∷ []) }
    ensures counts { OnOk result (counted_in rows.new.items ≡ length operands.new.items) }
{
    match form {
        Form::Skip => add(rows, Row::Skip),
        Form::Unknown => add(rows, Row::Unknown),
        Form::Line(line_kind, words) => {
            let before = operands.len();
            add_operands(operands, items, known, *line_kind, words.as_slice())?;
            add(rows, Row::Line(*line_kind, operands.len() - before))
        }
    }
}

/// The lines, in order.
#[derive(Drop)]
pub(crate) struct ResolvedLines {
    rows: Vec<Row>,
    /// The operands of all lines, in the order of the lines.
    operands: Vec<Operand<Referent>>,
}

impl Model for ResolvedLines {
    ghost use Rattle.std.specs.Prelude.{◌≡◌, length, List};
    ghost use Rattle.wb_tree.specs.declared.script_lines.Form.{Form};
    ghost use Rattle.wb_tree.specs.declared.script_lines.Referent.{Referent};
    ghost use Rattle.wb_script.specs.ResolvedLines.{counted_in, lines_of_rows};

    ghost Value = { List (Form Referent) };

    ghost view = { λ l. lines_of_rows l.rows.items l.operands.items };

    ghost invariant = { λ l. counted_in l.rows.items ≡ length l.operands.items };
}

impl ResolvedLines {
    /// No lines, with room for `count` rows.
    pub(crate) fn with_capacity(alloc: Global, count: usize) -> Result<ResolvedLines, AllocError>
        ensures { IfOk result (λ lines. lines ≡ []) }
    {
        let rows = Vec::with_capacity(alloc, count)?;
        Ok(ResolvedLines {
            rows,
            operands: Vec::new(alloc),
        })
    }

    /// How many lines there are.
    pub(crate) fn len(&self) -> usize
        ensures { result ≡ length self.now }
    {
        self.rows.len()
    }

    /// Adds one more line, with what its names stand for in the script's own space and among what the earlier lines declare. If memory runs
    /// out, all lines are removed.
    pub(crate) fn add(
        &mut self,
        items: &Declarations,
        known: &NamesSoFar,
        form: &Form<&[u8]>,
    ) -> Result<(), AllocError>
        ensures added { OnOk result (self.new
            ≡ self.old ++ resolved_line (bytes_of_items items.now) (known_in known.now)
            (bytes_of_form form.now) ∷ []) }
        ensures none { OnErr result (self.new ≡ []) }
    {
        match add_line(&mut self.rows, &mut self.operands, items, known, form) {
            Ok(()) => Ok(()),
            Err(AllocError) => {
                self.rows.clear();
                self.operands.clear();
                Err(AllocError)
            }
        }
    }

    /// The line that was added last.
    pub(crate) fn last(&self) -> ResolvedLine
        requires { 0 < length self.now }
        ensures { (before : List (model.Form referent.Referent)) → (line : model.Form
            referent.Referent) → self.now ≡ before ++ line ∷ [] → form_of result ≡ line }
    {
        let row = self.rows[self.rows.len() - 1];
        let first = self.operands.len() - row.operand_count();
        row.line_with(&self.operands[first..])
    }

    /// The rows of all lines, and the operands of all lines.
    pub(crate) fn parts(&self) -> (&[Row], &[Operand<Referent>])
        ensures lines { lines_of_rows result.0.now result.1.now ≡ self.now }
        ensures counts { counted_in result.0.now ≡ length result.1.now }
    {
        (self.rows.as_slice(), self.operands.as_slice())
    }
}
