//! What is said about the end of a run: its panic, its leaks, or why it was cut.

use crate::runs::attempts::put_refused;
use crate::runs::blame::{class_of, line_of};
use crate::runs::caught::{overlooked_leave, put_caught, put_look};
use crate::runs::cures::{Cure, put_cure};
use crate::runs::cuts::put_cut;
use crate::runs::destroyed::{OF_OBJECT, of_item};
use crate::runs::end_words::{CodeName, PanicName};
use crate::runs::explanation::{FindingKind, Told};
use crate::runs::half_made::{half_made, put_half_made, put_since};
use crate::runs::heap_checks::{cure_of_check, put_counted, put_counts};
use crate::runs::item_cures::ItemCure;
use crate::runs::item_gone::{cure_of_gone, has_two_items, left_instead, put_item_gone, put_user};
use crate::runs::item_kept::{kept_past_use, released_before};
use crate::runs::items_left::{
    OF_MAIN, POP_FIRST, cure_of_another, cure_of_below, cure_of_left, left_to_caller, put_another,
    put_items, put_items_left, put_too_many,
};
use crate::runs::kept::{Kept, kept_value, put_cure_of_kept, put_kept};
use crate::runs::leaks::put_leaks;
use crate::runs::lent::put_given;
use crate::runs::old_value::{old_value, put_cure_of_old, put_old_value};
use crate::runs::panics::{Meaning, meaning_of, symbian_of};
use crate::runs::paths::{put_path, put_traps};
use crate::runs::pointers::{cure_of, is_left_null, is_out_of_order, member_left_null, put_fault};
use crate::runs::room::{cure_of_room, cure_of_words, put_measured, put_room};
use crate::runs::script_page::{ScriptPage, Written};
use crate::runs::sentences::put_values;
use crate::runs::stored::{put_cure_of_stored, put_stored, stored_before_panic};
use crate::runs::taken::{is_to_leave, put_cure_of_left};
use crate::runs::told::put_life;
use crate::runs::two_items::two_items;
use crate::runs::view_made::put_view;
use wb_heap_model::heap::{Panic, Rule};
use wb_history::{Ended, Leave, Life, Meant, PointerState, Raised, Raiser, Values, WatchedRun};
use wb_meaning::run::Outcome;

/// Says what a run found: first which attempts failed because of the rule, and then how the run ended.
pub fn put_findings(page: &mut ScriptPage<'_>, run: &WatchedRun<'_>) -> Written {
    put_refused(page, &run.parameters.rule, run)?;
    match &run.outcome {
        Outcome::Ended { left, leaks } => {
            if leaks.len() > 0 {
                put_own_leave(page, run)?;
            }
            if let Some(code) = *left
                && (leaks.len() > 0 || refuses(&run.parameters.rule))
            {
                put_left(page, code, run)?;
            }
            put_leaks(page, leaks.as_slice(), run)
        }
        Outcome::Panicked(_) => {
            put_own_leave(page, run)?;
            match run.end.raised {
                Some(raised) => put_panic(page, raised, run),
                None => Ok(()),
            }
        }
        Outcome::NoCleanup => Ok(()),
        Outcome::Cut(why) => put_cut(page, *why, run),
    }
}

/// Says which TRAP caught the last leave, if the rule makes no attempt fail.
fn put_own_leave(page: &mut ScriptPage<'_>, run: &WatchedRun<'_>) -> Written {
    match run.history.traps.last_leave() {
        Some(leave) if !refuses(&run.parameters.rule) => put_caught(page, leave),
        _ => Ok(()),
    }
}

/// Whether a rule may make an attempt fail. Under any other rule, a leave of `main` is what the script means to do.
fn refuses(rule: &Rule) -> bool {
    match rule {
        Rule::Unlimited | Rule::Number(0) | Rule::Every(0) | Rule::From(0) => false,
        Rule::Number(_) | Rule::Every(_) | Rule::From(_) | Rule::Pair(..) => true,
        Rule::Set(_) | Rule::Limit(_) => true,
    }
}

/// Says where `main` left, and with which code.
fn put_left(page: &mut ScriptPage<'_>, code: i32, run: &WatchedRun<'_>) -> Written {
    let line = run.history.calls.line_at(1);
    page.begin_finding(FindingKind::Left, Told::Unordered)?;
    page.mark(
        line,
        format_args!("`main` left here with {}", CodeName(code)),
    )?;
    if let Some(leave) = run.history.traps.last_leave() {
        let lines = run.history.calls.lines_of(leave.at.path)?;
        put_path(page, &run.history.bodies, lines.as_slice());
    }
    Ok(())
}

/// Says what the panic was, and shows its line, with carets under the operand that the panic is about, or else under the first word. Then
/// shows the lines that led to the panic.
fn put_panic(page: &mut ScriptPage<'_>, raised: Raised, run: &WatchedRun<'_>) -> Written {
    let line = line_of(raised, run);
    let name = page.word(line, 0);
    page.begin_finding(FindingKind::Panic(raised.panic), order_of(run))?;
    page.page.begin_message(line as usize);
    page.page
        .write(format_args!("{}: {name}: ", PanicName(raised.panic)));
    let word = put_meaning(page, line, raised, run);
    page.page.end_line();
    let spot = page.spot(line, word)?;
    page.page.show(spot);
    put_way(page, line, raised, run)?;
    put_path(page, &run.history.bodies, run.end.path.as_slice());
    put_traps(page, run.history.traps.open_traps());
    put_remarks(page, line, raised, run)
}

/// In which order of time the lines that led to a panic are shown. The cells that a check counted are shown in order of their places.
fn order_of(run: &WatchedRun<'_>) -> Told {
    if run.end.counted.is_some() {
        Told::Unordered
    } else {
        Told::Backwards
    }
}

/// Says which pointer or values the panic is about, or else what the panic means. Returns the index of the
/// word that is to be marked.
fn put_meaning(
    page: &mut ScriptPage<'_>,
    line: u32,
    raised: Raised,
    run: &WatchedRun<'_>,
) -> usize {
    if let Some(fault) = run.end.pointer {
        put_fault(page, line, fault);
        put_since(page, line, run);
        return fault.word;
    }
    if let Some(Meant { word, values }) = run.end.values {
        match values {
            Values::TooManyItems { wanted } => put_too_many(page, wanted, run),
            _ => put_values(&mut page.page, values),
        }
        return word;
    }
    match (&run.end.counted, raised.panic) {
        (Some(counted), _) => put_counts(page, counted),
        (None, Panic::ITEMS_LEFT) => put_items_left(page, raised, run),
        (None, Panic::ANOTHER_ITEM_ON_TOP) => {
            put_another(page, line, run);
            return 1;
        }
        _ => page.page.write_text(meaning(raised, run).0),
    }
    0
}

/// Shows the lines that led to a panic: what became of the cell that the panic is about, the items of the cleanup stack, the cells that
/// a check counted, and the class of an object.
fn put_way(page: &mut ScriptPage<'_>, line: u32, raised: Raised, run: &WatchedRun<'_>) -> Written {
    page.begin_way(line)?;
    // the destructor that ended is of the object's own class
    if let Some(class) = class_of(raised, run) {
        page.mark_word(class, 1, "this is the class of the object")?;
    }
    let has_two = has_two_items(run, ended_of(raised, run));
    if has_two {
        put_item_meant(page, line, raised, run)?;
    }
    if let Some(life) = life_of(raised, run) {
        put_life(page, run, life)?;
    }
    if !has_two {
        put_item_meant(page, line, raised, run)?;
    }
    put_view(page, line, run)?;
    put_room(page, run)?;
    put_measured(page, line, run)?;
    let kept = kept_value(page, line, run)?;
    put_kept(page, kept, run)?;
    put_half_made(page, line, run)?;
    put_stored(page, stored_before_panic(page, line, run))?;
    if kept.is_none() {
        put_given(page, line, ended_of(raised, run), run)?;
        put_old_value(page, old_value(page, run))?;
    }
    put_items(page, raised, run)?;
    match &run.end.counted {
        Some(counted) => put_counted(page, counted, run),
        None => Ok(()),
    }
}

/// Shows where an item was pushed, if its destruction raised a panic, or used a cell that was destroyed before.
fn put_item_meant(
    page: &mut ScriptPage<'_>,
    line: u32,
    raised: Raised,
    run: &WatchedRun<'_>,
) -> Written {
    match (run.end.pointer, ended_of(raised, run)) {
        (None, ended) if raised.raiser == Raiser::Item => put_item_gone(page, run, ended),
        (Some(fault), Some(ended)) if is_out_of_order(run, line, fault, ended) => {
            put_user(page, run)
        }
        (Some(fault), _) if kept_past_use(page, line, fault, run).is_some() => put_user(page, run),
        _ => Ok(()),
    }
}

/// The life of the cell that a panic is about.
fn life_of(raised: Raised, run: &WatchedRun<'_>) -> Option<Life> {
    match raised.raiser {
        Raiser::Item => run.history.lives.find(run.history.last_item?.pointer()),
        Raiser::Release => run.history.lives.find(run.history.last_deleted),
        _ => match run.end.pointer?.state {
            PointerState::Gone(life) => life,
            PointerState::Null => None,
        },
    }
}

/// What to do about a panic.
fn help_of(page: &ScriptPage<'_>, line: u32, raised: Raised, run: &WatchedRun<'_>) -> Cure {
    if let Some(counted) = &run.end.counted {
        return Cure::Words(cure_of_check(page, counted, run));
    }
    match run.end.pointer {
        Some(fault) => cure_of(page, run, line, fault),
        None if raised.raiser == Raiser::Item => cure_of_item(page, raised, run),
        None if raised.panic == Panic::POP_BELOW_TRAP => cure_of_below(page, run),
        None if raised.panic == Panic::ITEMS_LEFT => {
            cure_of_left(page, raised, run).unwrap_or(Cure::Words(meaning(raised, run).1))
        }
        None => Cure::Words(words_of(page, raised, run)),
    }
}

/// What to do about a panic that an item raised.
fn cure_of_item(page: &ScriptPage<'_>, raised: Raised, run: &WatchedRun<'_>) -> Cure {
    let ended = ended_of(raised, run);
    match (two_items(page, ended, run), ended) {
        (Some(items), _) => Cure::Item(ItemCure::Two(items)),
        (None, Some(ended)) if cure_of_gone(run, ended).is_none() => {
            match released_before(page, ended, run) {
                Some(cure) => Cure::Item(cure),
                None => Cure::Words(words_of(page, raised, run)),
            }
        }
        _ => Cure::Words(words_of(page, raised, run)),
    }
}

/// What to do about a panic that is about no pointer; empty if there is no more to say.
fn words_of(page: &ScriptPage<'_>, raised: Raised, run: &WatchedRun<'_>) -> &'static str {
    match raised.panic {
        Panic::ANOTHER_ITEM_ON_TOP => cure_of_another(run),
        Panic::TOO_LONG => cure_of_room(run),
        Panic::NUMBER_OUT_OF_RANGE => cure_of_words(page, run).unwrap_or(meaning(raised, run).1),
        _ => meaning(raised, run).1,
    }
}

/// How the cell that a panic is about came to the end of its life; `None` if that isn't known.
fn ended_of(raised: Raised, run: &WatchedRun<'_>) -> Option<Ended> {
    life_of(raised, run)?.ended
}

/// What a panic means, and what to look for. Both depend on what raised the panic.
fn meaning(raised: Raised, run: &WatchedRun<'_>) -> Meaning {
    match (raised.raiser, run.end.statement) {
        (Raiser::TrapEnd, _) => ("", POP_FIRST),
        (Raiser::MainEnd, _) => OF_MAIN,
        (Raiser::Item, _) => meaning_of_item(raised, run),
        (Raiser::Release, _) => OF_OBJECT,
        (Raiser::Statement | Raiser::Holder, Some(statement)) => {
            meaning_of(raised.panic, statement)
        }
        (Raiser::Statement | Raiser::Holder, None) => ("", ""),
    }
}

/// What a panic means, and what to look for, if an item raised the panic.
fn meaning_of_item(raised: Raised, run: &WatchedRun<'_>) -> Meaning {
    match ended_of(raised, run) {
        Some(ended) => {
            let (said, help) = of_item(raised.panic, Some(ended.end));
            (said, cure_of_gone(run, ended).unwrap_or(help))
        }
        None => of_item(raised.panic, None),
    }
}

/// What is said about Symbian's own panic; empty if Symbian has no such panic.
fn symbian_note(raised: Raised, run: &WatchedRun<'_>) -> &'static str {
    match run.end.pointer {
        Some(fault) if raised.panic == Panic::NULL_OR_STALE && fault.state == PointerState::Null =>
            {
                "KERN-EXEC 3 in Symbian: an unhandled exception, here by a null pointer that is used"
            }
        _ => symbian_of(raised.panic, run.end.counted.as_ref()),
    }
}

/// Writes where Symbian raises the panic, and what to look for.
fn put_remarks(
    page: &mut ScriptPage<'_>,
    line: u32,
    raised: Raised,
    run: &WatchedRun<'_>,
) -> Written {
    let note = symbian_note(raised, run);
    if !note.is_empty() {
        page.page.write_note_text(note);
    }
    if let Some(stored) = stored_before_panic(page, line, run) {
        page.page.begin_help();
        put_cure_of_stored(page, stored);
        page.page.end_line();
        return Ok(());
    }
    let kept = kept_value(page, line, run)?;
    match (look_of(page, line, kept, run), old_value(page, run)) {
        (Some(leave), _) => {
            let tested = member_left_null(page, line, run);
            put_look(page, leave, tested);
        }
        (None, Some(old)) if kept.is_none() => put_cure_of_old(page, old),
        (None, _) => put_help(page, line, raised, kept, run),
    }
    Ok(())
}

/// The leave whose code should be looked at, if an overlooked leave may have led to the panic; `None` otherwise, or if an operation set the
/// pointer to null, or if a field named an object before its second phase had ended.
fn look_of(
    page: &ScriptPage<'_>,
    line: u32,
    kept: Option<Kept>,
    run: &WatchedRun<'_>,
) -> Option<Leave> {
    match kept {
        Some(Kept::ByOperation(_) | Kept::Unchecked { .. }) => None,
        _ if half_made(page, line, run).is_some() => None,
        _ if may_come_of_leave(line, run) => overlooked_leave(page, run),
        _ => None,
    }
}

/// Says what to do about a panic to which no overlooked leave led.
fn put_help(
    page: &mut ScriptPage<'_>,
    line: u32,
    raised: Raised,
    kept: Option<Kept>,
    run: &WatchedRun<'_>,
) {
    if let Some(kept) = kept {
        return put_cure_of_kept(page, kept, run);
    }
    let left = match raised.raiser {
        Raiser::Item => left_instead(run, ended_of(raised, run)),
        _ => left_to_caller(raised, run),
    };
    if let Some(body) = left
        && !is_to_leave(page, body, run)
    {
        return put_cure_of_left(page, body, run);
    }
    let help = help_of(page, line, raised, run);
    put_cure(page, help, run);
}

/// Whether lines that a leave skipped may have led to a panic, because those lines would have made something, or made something longer.
fn may_come_of_leave(line: u32, run: &WatchedRun<'_>) -> bool {
    match (run.end.pointer, run.end.values) {
        (Some(fault), _) => is_left_null(run, line, fault),
        (None, Some(Meant { values, .. })) => matches!(
            values,
            Values::WouldHave { .. }
                | Values::PastEnd { .. }
                | Values::Fewer { .. }
                | Values::Part { .. }
                | Values::NoWord { .. }
        ),
        (None, None) => false,
    }
}
