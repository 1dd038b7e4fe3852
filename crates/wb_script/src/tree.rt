//! Builds the tree of a script from its lines, with what the names in the lines stand for.

mod blocks;
mod bodies;
mod calls;
mod classes;
mod heads;
mod locals;
mod openings;
mod plain;
mod scope;
mod space;
mod statements;
mod text_statements;
mod whole;

ghost use Rattle.std.specs.Prelude.{◌≡◌, ◌≢◌, ◌≤◌, length, map, IfOk};
ghost use Rattle.wb_basics.specs.declared.limits.TheConstants.{LONGEST_SCRIPT};
ghost use Rattle.wb_tree.specs.declared.script_lines.Form.TheVariants.{Line, Unknown};
ghost use Rattle.wb_language.specs.Forms.{role_of_form};
ghost use Rattle.wb_language.specs.Grammar.{IsGrammatical};
ghost use Rattle.wb_tree.specs.Sound.{fields_declared, signatures_of};
ghost use Rattle.wb_language.specs.Trees.{counted_from, all_lines};
ghost use Rattle.wb_script.specs.Building.{AllFit, counts_of};
ghost use Rattle.wb_script.specs.Growing.{AreSound, GrowsWhereFit, IsBelow, IsSound, OpensWhereFit, declared_in_space};
ghost use Rattle.wb_script.specs.Growing.{if_added, in_body, items_in_order, outside};
ghost use Rattle.wb_script.specs.BytesOf.{declared_by};
ghost use Rattle.wb_script.specs.ResolvedLines.{form_of};

use crate::checks::declarations::Declarations;
use crate::checks::resolved_lines::{ResolvedLine, ResolvedLines};
use crate::tree::bodies::{BodyProgress, OpenBody, add_inside_body, add_to_body, closes_body};
use crate::tree::classes::{add_to_class, begin_class};
use crate::tree::openings::{begin_operation, begin_procedure};
use crate::tree::space::{Space, field_counts};
use crate::tree::whole::{Building, Owner, Stage, WholeItems, finish_body};
use std::alloc::{AllocError, Global};
use std::mem::replace;
use wb_basics::limits::LONGEST_SCRIPT;
use wb_tree::script_lines::{LineKind, Operand, Referent};

/// What the line with this number opens where nothing is open; `None` if the line is not allowed here.
fn begin_item(
    alloc: Global,
    space: Space,
    whole: &WholeItems,
    number: u32,
    line_kind: LineKind,
    operands: &[Operand<Referent>],
) -> Result<Option<Stage>, AllocError>
    requires sound { IsSound (declared_in_space space) (outside whole.now) }
    requires below { IsBelow number (outside whole.now) }
    ensures { IfOk result (OpensWhereFit (declared_in_space space.entry) number
        (Line line_kind operands.now) whole.now) }
{
    match line_kind {
        LineKind::Class => Ok(begin_class(alloc, space, whole, number, operands)),
        LineKind::Proc => begin_procedure(alloc, space, whole, number, operands),
        LineKind::Op => begin_operation(alloc, space, whole, number, operands),
        _ => Ok(None),
    }
}

/// Adds the line with this number where nothing is open; `None` if the line is not allowed here.
fn add_outside(
    alloc: Global,
    space: Space,
    whole: WholeItems,
    number: u32,
    line_kind: LineKind,
    operands: &[Operand<Referent>],
) -> Result<Option<Building>, AllocError>
    requires sound { IsSound (declared_in_space space) (outside whole) }
    requires below { IsBelow number (outside whole) }
    ensures { IfOk result (GrowsWhereFit (declared_in_space space.entry) number
        (Line line_kind operands.now) (outside whole)) }
{
    match begin_item(alloc, space, &whole, number, line_kind, operands)? {
        Some(stage) => Ok(Some(Building { whole, stage })),
        None => Ok(None),
    }
}

/// Adds the line with this number to the open body; `None` if the line is not allowed there.
fn add_inside(
    alloc: Global,
    space: Space,
    whole: WholeItems,
    owner: Owner,
    current: OpenBody,
    number: u32,
    line_kind: LineKind,
    operands: &[Operand<Referent>],
) -> Result<Option<Building>, AllocError>
    requires sound { IsSound (declared_in_space space) (in_body whole owner current) }
    requires below { IsBelow number (in_body whole owner current) }
    ensures { IfOk result (GrowsWhereFit (declared_in_space space.entry) number
        (Line line_kind operands.now) (in_body whole owner current)) }
{
    match add_to_body(alloc, space, current, number, line_kind, operands)? {
        None => Ok(None),
        Some(BodyProgress::Inside(next)) => {
            let stage = Stage::InBody(owner, next);
            Ok(Some(Building { whole, stage }))
        }
        Some(BodyProgress::Done(parameters, body)) => {
            Ok(Some(finish_body(whole, owner, parameters, body)?))
        }
    }
}

/// Adds the line with this number, which isn't skipped, to the tree; `None` if the line is not allowed here.
fn add_line(
    alloc: Global,
    space: Space,
    building: Building,
    number: u32,
    line_kind: LineKind,
    operands: &[Operand<Referent>],
) -> Result<Option<Building>, AllocError>
    requires sound { IsSound (declared_in_space space) building }
    requires below { IsBelow number building }
    ensures { IfOk result (GrowsWhereFit (declared_in_space space.entry) number
        (Line line_kind operands.now) building) }
{
    let whole = building.whole;
    match building.stage {
        Stage::Outside => add_outside(alloc, space, whole, number, line_kind, operands),
        Stage::InClass(class) => add_to_class(
            alloc, space, whole, class, number, line_kind, operands,
        ),
        Stage::InBody(owner, current) => {
            add_inside(
                alloc, space, whole, owner, current, number, line_kind, operands,
            )
        }
    }
}

/// Adds the line with this number, which has a form or is skipped, to the tree; `None` if the line is not allowed here.
fn add_form(
    alloc: Global,
    space: Space,
    building: Building,
    number: u32,
    line: ResolvedLine,
) -> Result<Option<Building>, AllocError>
    requires sound { IsSound (declared_in_space space) building }
    requires below { IsBelow number building }
    requires known { form_of line ≢ Unknown }
    ensures { IfOk result (GrowsWhereFit (declared_in_space space.entry) number
        (form_of line.entry) building) }
{
    match line {
        ResolvedLine::Skip => Ok(Some(building)),
        ResolvedLine::Unknown => unreachable!(),
        ResolvedLine::Line(line_kind, operands) => add_line(
            alloc, space, building, number, line_kind, operands,
        ),
    }
}

/// Adds the line with this number, which has a form or is skipped, to the tree in place; returns `false` if the line is not allowed here. A
/// line inside an open body changes that body, and nothing else moves. For any other line that isn't skipped, the tree is taken out and
/// built anew.
fn add_next(
    alloc: Global,
    space: Space,
    building: &mut Building,
    number: u32,
    line: ResolvedLine,
) -> Result<bool, AllocError>
    requires sound { IsSound (declared_in_space space) building.old }
    requires below { IsBelow number building.old }
    requires known { form_of line ≢ Unknown }
    ensures { IfOk result (λ added. GrowsWhereFit (declared_in_space space.entry) number
        (form_of line.entry) building.old (if_added added building.new)) }
{
    if let ResolvedLine::Skip = line {
        return Ok(true);
    }
    if let ResolvedLine::Line(line_kind, operands) = line {
        if let Stage::InBody(_, body) = &mut building.stage {
            if !closes_body(body, line_kind) {
                return add_inside_body(alloc, space, body, number, line_kind, operands);
            }
        }
    }
    let before = replace(building, Building::nothing(alloc));
    match add_form(alloc, space, before, number, line)? {
        Some(next) => {
            *building = next;
            Ok(true)
        }
        None => Ok(false),
    }
}

/// The classes, procedures and operations that are complete after all lines of a script.
fn items_from(alloc: Global, space: Space, lines: &ResolvedLines) -> Result<WholeItems, AllocError>
    requires grammar { IsGrammatical (map role_of_form lines.now) }
    requires fit { AllFit (declared_in_space space) lines.now }
    requires few { length lines.now ≤ LONGEST_SCRIPT }
    ensures lines { IfOk result (λ b. all_lines (items_in_order b) ≡ counted_from 1 lines.now) }
    ensures sound { IfOk result (λ b. AreSound (declared_in_space space.entry) b) }
    ensures fields { IfOk result (λ b. fields_declared b.classes ≡ (counts_of lines.now).classes) }
    ensures signatures { IfOk result (λ b.
        signatures_of b.procedures ≡ (counts_of lines.now).procedures) }
    ensures operations { IfOk result (λ b. length b.operations ≡ (counts_of lines.now).operations) }
{
    let (rows, mut left) = lines.parts();
    let mut building = Building::nothing(alloc);
    let mut number = 0;
    for row in rows {
        let (line, later) = row.split(left);
        left = later;
        number += 1;
        if !add_next(alloc, space, &mut building, number, line)? {
            unreachable!();
        }
    }
    match building.stage {
        Stage::Outside => Ok(building.whole),
        // The class, the owner and the body are bound to names, so that no part of the stage is left to drop in these arms.
        Stage::InClass(_class) => unreachable!(),
        Stage::InBody(_owner, _body) => unreachable!(),
    }
}

/// The classes, procedures and operations of a script, from all its lines. `literals` is the number of the script's literals, and `items`
/// is what the script declares in its own space.
pub(crate) fn bodies_of(
    alloc: Global,
    literals: u32,
    items: &Declarations,
    lines: &ResolvedLines,
) -> Result<WholeItems, AllocError>
    requires grammar { IsGrammatical (map role_of_form lines.now) }
    requires fit { AllFit (declared_by literals items.now) lines.now }
    requires few { length lines.now ≤ LONGEST_SCRIPT }
    requires classes { (counts_of lines.now).classes ≡ (declared_by literals items.now).fields }
    requires procedures { (counts_of lines.now).procedures
        ≡ (declared_by literals items.now).signatures }
    requires operations { (counts_of lines.now).operations
        ≡ (declared_by literals items.now).operations }
    ensures lines { IfOk result (λ b. all_lines (items_in_order b) ≡ counted_from 1 lines.now) }
    ensures sound { IfOk result (λ b. AreSound (declared_by literals items.now) b) }
    ensures fields { IfOk result (λ b. fields_declared b.classes ≡ (counts_of lines.now).classes) }
    ensures signatures { IfOk result (λ b.
        signatures_of b.procedures ≡ (counts_of lines.now).procedures) }
    ensures operations { IfOk result (λ b. length b.operations ≡ (counts_of lines.now).operations) }
{
    let fields = field_counts(alloc, items.as_slice())?;
    let space = Space {
        literals,
        items,
        fields: &fields,
    };
    items_from(alloc, space, lines)
}
