//! The parts of a picture around its panels: the beginning and the end of the file, the script's name, and the headings.

use crate::colours::put_style;
use crate::drawing::{Drawing, Drawn};
use crate::endings::put_outcome;
use crate::escape::put_escaped;
use crate::labels::{close_text, open_text};
use crate::shown::ShownRuns;
use wb_heap_model::heap::Rule;
use wb_history::{AttemptMade, WatchedRun};

/// The most attempts that a heading names.
const MOST_NAMED: usize = 4;

/// Writes the beginning of the file. The picture is as wide as the window that shows it.
pub fn open_page(drawing: &mut Drawing<'_>, width: u32, height: u32, runs: ShownRuns<'_>) -> Drawn {
    write!(
        drawing.text,
        "<svg xmlns=\"http://www.w3.org/2000/svg\" role=\"img\" width=\"100%\" viewBox=\"0 0 {width} {height}\" aria-label=\""
    )?;
    put_summary(drawing, runs)?;
    drawing.text.push_str("\">\n<title>")?;
    put_summary(drawing, runs)?;
    drawing.text.push_str("</title>\n")?;
    put_style(drawing)?;
    write!(
        drawing.text,
        "<rect class=\"paper\" width=\"{width}\" height=\"{height}\"/>\n"
    )
}

/// Writes the name of the script's file.
fn put_file_name(drawing: &mut Drawing<'_>) -> Drawn {
    let name = drawing.lines.name;
    put_escaped(drawing, name)
}

pub fn close_page(drawing: &mut Drawing<'_>) -> Drawn {
    drawing.text.push_str("</svg>\n")
}

/// Writes the script's name.
pub fn put_script_name(drawing: &mut Drawing<'_>, x: u32, y: u32) -> Drawn {
    open_text(drawing, "name", x, y)?;
    put_file_name(drawing)?;
    close_text(drawing)
}

/// Says which runs the picture shows.
fn put_summary(drawing: &mut Drawing<'_>, runs: ShownRuns<'_>) -> Drawn {
    drawing.text.push_str("The heap over time, of ")?;
    put_file_name(drawing)?;
    drawing.text.push_str(". ")?;
    put_heading(drawing, runs.first)?;
    if let Some(second) = runs.second {
        drawing.text.push_str(". ")?;
        put_heading(drawing, second)?;
    }
    Ok(())
}

/// Writes the heading of a panel.
pub fn put_heading_text(drawing: &mut Drawing<'_>, run: &WatchedRun<'_>, x: u32, y: u32) -> Drawn {
    open_text(drawing, "h", x, y)?;
    put_heading(drawing, run)?;
    close_text(drawing)
}

/// Writes the heading of a panel that shows the end of a run once more. `attempts` are the attempts that this panel shows.
pub fn put_end_heading(
    drawing: &mut Drawing<'_>,
    attempts: &[AttemptMade<'_>],
    x: u32,
    y: u32,
) -> Drawn {
    open_text(drawing, "h", x, y)?;
    drawing.text.push_str("The end of this run once more")?;
    if let (Some(first), Some(last)) = (attempts.first(), attempts.last()) {
        let (from, until) = (first.attempt.number, last.attempt.number);
        write!(drawing.text, ": attempts {from} to {until}")?;
        let step = first.step;
        write!(drawing.text, ", from step {step} on")?;
    }
    close_text(drawing)
}

fn put_heading(drawing: &mut Drawing<'_>, run: &WatchedRun<'_>) -> Drawn {
    put_rule(drawing, &run.parameters.rule)?;
    let (attempts, steps) = (run.history.attempts.count(), run.history.steps());
    write!(drawing.text, ": attempts {attempts}, steps {steps}, ")?;
    put_outcome(drawing, &run.outcome)
}

fn put_rule(drawing: &mut Drawing<'_>, rule: &Rule) -> Drawn {
    match rule {
        Rule::Unlimited | Rule::Number(0) | Rule::Every(0) | Rule::From(0) => {
            drawing.text.push_str("The run without failure")
        }
        Rule::Limit(limit) => write!(drawing.text, "The run in a heap of {limit} bytes"),
        Rule::Number(number) => put_failures(drawing, &[*number]),
        Rule::Every(rate) => write!(
            drawing.text,
            "The run in which every attempt fails whose number is a multiple of {rate}"
        ),
        Rule::From(first) => write!(
            drawing.text,
            "The run in which attempt {first} and each later one fails"
        ),
        Rule::Pair(first, second) => put_failures(drawing, &[*first, *second]),
        Rule::Set(numbers) => put_failures(drawing, numbers.as_slice()),
    }
}

/// Says that the attempts with these numbers fail in a run. Only the first few numbers are written.
fn put_failures(drawing: &mut Drawing<'_>, numbers: &[u32]) -> Drawn {
    let is_one = numbers.len() == 1;
    drawing.text.push_str(if is_one {
        "The run in which attempt "
    } else {
        "The run in which attempts "
    })?;
    let more = numbers.len().saturating_sub(MOST_NAMED);
    for (index, number) in numbers.iter().enumerate() {
        if index >= MOST_NAMED {
            break;
        }
        let is_last = more == 0 && index + 1 == numbers.len();
        let joint = match index {
            0 => "",
            _ if is_last => " and ",
            _ => ", ",
        };
        write!(drawing.text, "{joint}{number}")?;
    }
    if more > 0 {
        write!(drawing.text, " and {more} more")?;
    }
    drawing
        .text
        .push_str(if is_one { " fails" } else { " fail" })
}
