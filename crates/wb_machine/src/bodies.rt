//! The bodies of a script. A body that the script doesn't have counts as an empty body.

ghost use Rattle.wb_tree.specs.Bodies.{class_at, no_body, operation_at};
ghost use Rattle.std.specs.Prelude.{unwrap_or};
ghost use Rattle.wb_machine.specs.Bodies.{IsBody};

use wb_tree::script::{Body, Class, Local, Script, StatementAt};

/// The locals that a body declares, and its statements.
#[derive(Clone, Copy)]
pub struct BodyContent<'a> {
    pub locals: &'a [Local],
    pub statements: &'a [StatementAt],
}

/// An empty body: it has no locals and no statements.
fn no_content<'a>() -> BodyContent<'a>
    ensures { IsBody result no_body }
{
    BodyContent {
        locals: &[],
        statements: &[],
    }
}

/// The locals and the statements of a body.
pub fn content_of(body: &Body) -> BodyContent
    ensures { IsBody result body.now }
{
    BodyContent {
        locals: body.locals.as_slice(),
        statements: body.statements.as_slice(),
    }
}

/// The body of the operation with this index.
pub fn operation_at(script: &Script, index: u16) -> BodyContent
    ensures { IsBody result (operation_at script.now index) }
{
    match script.operations.get(index as usize) {
        Some(operation) => content_of(&operation.body),
        None => no_content(),
    }
}

/// The `construct` body of the class with this index.
pub fn construct_at(script: &Script, class: u16) -> BodyContent
    ensures { IsBody result (unwrap_or (class_at script.now class).construct no_body) }
{
    match script.classes.get(class as usize) {
        Some(
            Class {
                construct: Some(body),
                ..
            },
        ) => content_of(body),
        _ => no_content(),
    }
}

/// The `destroy` body of the class with this index.
pub fn destroy_at(script: &Script, class: u16) -> BodyContent
    ensures { IsBody result (unwrap_or (class_at script.now class).destroy no_body) }
{
    match script.classes.get(class as usize) {
        Some(
            Class {
                destroy: Some(body),
                ..
            },
        ) => content_of(body),
        _ => no_content(),
    }
}
