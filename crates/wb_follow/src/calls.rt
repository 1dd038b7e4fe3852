//! What calls of procedures pass and return: the values of parameters when a body begins, and null when a body ends without a pointer.

use crate::begun::{Begun, What};
use crate::rows::Rows;
use crate::statements::put_pointer;
use crate::turns::Plan;
use wb_machine::Machine;
use wb_tree::script::{Holder, Number, Parameter, Pointer, Statement};
use wb_watch::has_panicked;

/// What the statement of a row did, as far as this matters for the next row.
#[derive(Clone, Copy)]
pub(crate) enum Did {
    /// The statement left.
    Left,
    /// The statement returned a pointer.
    Returned,
    /// The statement called a procedure by `callto`.
    CalledTo,
    Other,
}

/// What a machine turn did. The turn's statement must not have left.
pub(crate) fn done_by(begun: Begun<'_>) -> Did {
    match begun.what {
        What::Statement(ahead) => match ahead.statement {
            Statement::ReturnPointer(_) => Did::Returned,
            Statement::CallTo(..) => Did::CalledTo,
            _ => Did::Other,
        },
        _ => Did::Other,
    }
}

/// Whether a body that was called by `callto` ended without a pointer between two successive rows. `did` and `depth` are those of the first
/// row. `next` is what the second row begins.
pub(crate) fn gives_null(did: Did, depth: u32, next: Begun<'_>) -> bool {
    match did {
        Did::Left => false,
        Did::CalledTo if next.depth == depth => true,
        Did::Returned if next.depth.saturating_add(1) == depth => false,
        _ => next.depth < depth && next.after.calls_to,
    }
}

/// Says which values the parameters of a called procedure have, if the statement called a procedure whose body has begun.
pub(crate) fn put_arguments<'a>(
    rows: &mut Rows,
    machine: &Machine<'a>,
    begun: Begun<'a>,
    plan: Plan<'_>,
) {
    let What::Statement(ahead) = begun.what else {
        return;
    };
    let index = match ahead.statement {
        Statement::Call(index, _) | Statement::CallTo(_, index, _) => *index,
        _ => return,
    };
    let Some(procedure) = plan.script.procedures.get(index as usize) else {
        return;
    };
    if procedure.body.statements.as_slice().is_empty() || has_panicked(machine) {
        return;
    }
    for (place, parameter) in procedure.parameters.as_slice().iter().enumerate() {
        let word = plan.lines.word(procedure.line, place.saturating_add(2));
        let (name, _) = word.split_once(':').unwrap_or((word, ""));
        put_argument(
            rows,
            machine,
            name,
            u8::try_from(place).unwrap_or(0),
            *parameter,
        );
    }
}

/// Says which value a parameter has in the body that has begun. `name` is the parameter's name, and `local` its index among the locals.
fn put_argument(
    rows: &mut Rows,
    machine: &Machine<'_>,
    name: &str,
    local: u8,
    parameter: Parameter,
) {
    rows.effect_text(name);
    rows.text(" is ");
    match parameter {
        Parameter::OfPointer(_) => {
            let pointer = machine.pointer(Pointer::Held(Holder::Local(local)));
            put_pointer(rows, pointer);
        }
        Parameter::OfNumber => {
            let number = machine.number(Number::Variable(local));
            rows.value(i64::from(number));
        }
    }
}
