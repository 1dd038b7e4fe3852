//! The parts of a script's tree that are complete, and the part that is open.

ghost use Rattle.std.specs.Prelude.{◌≡◌, [], IfOk};
ghost use Rattle.wb_script.specs.Growing.{with_whole_body, outside, with_class, with_procedure, with_operation};

use crate::tree::bodies::OpenBody;
use std::alloc::{AllocError, Global};
use wb_basics::items::Items;
use wb_tree::script::{Body, Class, Operation, Parameter, Procedure};

/// The classes, the procedures and the operations of a script, each in the order of their lines.
#[derive(Drop)]
pub(crate) struct WholeItems {
    pub classes: Items<Class>,
    pub procedures: Items<Procedure>,
    pub operations: Items<Operation>,
}

/// What an open body belongs to: a procedure or an operation, given by the number of its first line, or a class, given with the parts read
/// so far.
#[derive(Drop)]
pub(crate) enum Owner {
    Procedure(u32),
    Operation(u32),
    Constructor(Class),
    Destructor(Class),
}

/// The part of the tree that is open.
#[derive(Drop)]
pub(crate) enum Stage {
    Outside,
    /// A class with the parts read so far, of which no body is open.
    InClass(Class),
    InBody(Owner, OpenBody),
}

/// The items that are complete, and the part that is open.
#[derive(Drop)]
pub(crate) struct Building {
    pub whole: WholeItems,
    pub stage: Stage,
}

impl Building {
    /// The tree of no lines, which takes no memory.
    pub(crate) fn nothing(alloc: Global) -> Building
        ensures { result ≡ outside (record { classes = []; procedures = []; operations = [] }) }
    {
        Building {
            whole: WholeItems {
                classes: Items::new(alloc),
                procedures: Items::new(alloc),
                operations: Items::new(alloc),
            },
            stage: Stage::Outside,
        }
    }
}

/// Adds a class that is complete.
pub(crate) fn with_class(whole: WholeItems, class: Class) -> Result<WholeItems, AllocError>
    ensures { IfOk result (λ next. next ≡ with_class whole class) }
{
    let mut classes = whole.classes;
    classes.push(class)?;
    Ok(WholeItems { classes, ..whole })
}

fn with_procedure(
    whole: WholeItems,
    line: u32,
    parameters: Items<Parameter>,
    body: Body,
) -> Result<WholeItems, AllocError>
    ensures { IfOk result (λ next. next ≡ with_procedure whole line parameters body) }
{
    let mut procedures = whole.procedures;
    procedures.push(Procedure {
        line,
        parameters,
        body,
    })?;
    Ok(WholeItems {
        procedures,
        ..whole
    })
}

fn with_operation(whole: WholeItems, line: u32, body: Body) -> Result<WholeItems, AllocError>
    ensures { IfOk result (λ next. next ≡ with_operation whole line body) }
{
    let mut operations = whole.operations;
    operations.push(Operation { line, body })?;
    Ok(WholeItems {
        operations,
        ..whole
    })
}

/// Adds a complete body to what the body belongs to. A complete body completes a procedure or an operation, but not a class.
pub(crate) fn finish_body(
    whole: WholeItems,
    owner: Owner,
    parameters: Items<Parameter>,
    body: Body,
) -> Result<Building, AllocError>
    ensures { IfOk result (λ next. next ≡ with_whole_body whole owner parameters body) }
{
    match owner {
        Owner::Procedure(line) => {
            let whole = with_procedure(whole, line, parameters, body)?;
            Ok(Building {
                whole,
                stage: Stage::Outside,
            })
        }
        Owner::Operation(line) => {
            let whole = with_operation(whole, line, body)?;
            Ok(Building {
                whole,
                stage: Stage::Outside,
            })
        }
        Owner::Constructor(class) => {
            let construct = Some(body);
            let stage = Stage::InClass(Class { construct, ..class });
            Ok(Building { whole, stage })
        }
        Owner::Destructor(class) => {
            let destroy = Some(body);
            let stage = Stage::InClass(Class { destroy, ..class });
            Ok(Building { whole, stage })
        }
    }
}
