//! Messages that fit a number of columns: lines that are longer are broken between words. No contract mentions this text.

use std::alloc::{AllocError, Global};

/// How many columns a line has if nothing says how many.
const DEFAULT_COLUMNS: usize = 80;

/// The least number of columns that must be left to words that go on in a column of their own.
const LEAST_ROOM: usize = 30;

/// Returns how many columns a line has, given the text of the variable `COLUMNS`. If the text is no number from 1 up, a line has 80
/// columns.
pub fn columns_of(text: &str) -> usize {
    match text.parse::<u32>() {
        Ok(columns) if columns > 0 => columns as usize,
        _ => DEFAULT_COLUMNS,
    }
}

/// Returns a text in which each line that is longer than `columns` is broken between words. The lines that follow begin below the last part
/// of the first line that comes after two blanks or more. The only error is that memory ran out.
pub(crate) fn broken(alloc: Global, text: &str, columns: usize) -> Result<String, AllocError> {
    let mut whole = String::new(alloc);
    for line in text.lines() {
        break_line(&mut whole, line, columns)?;
        whole.push_str("\n")?;
    }
    Ok(whole)
}

/// Adds a line, broken between words.
fn break_line(whole: &mut String, line: &str, columns: usize) -> Result<(), AllocError> {
    let indent = column_below(line, columns);
    let mut column: usize = 0;
    let mut blanks: usize = 0;
    for word in line.split(' ') {
        if !word.is_empty() {
            let width = word.len();
            let end = column.saturating_add(blanks).saturating_add(width);
            if end > columns && column > indent {
                whole.push_str("\n")?;
                push_blanks(whole, indent)?;
                column = indent.saturating_add(width);
            } else {
                push_blanks(whole, blanks)?;
                column = end;
            }
            whole.push_str(word)?;
            blanks = 0;
        }
        blanks = blanks.saturating_add(1);
    }
    Ok(())
}

fn push_blanks(whole: &mut String, count: usize) -> Result<(), AllocError> {
    for _ in 0..count {
        whole.push_str(" ")?;
    }
    Ok(())
}

/// The column in which a line goes on. A line goes on in the column of its last part after two blanks or more, if enough columns are left
/// there; otherwise, in the column of its first word.
fn column_below(line: &str, columns: usize) -> usize {
    let mut first: usize = 0;
    let mut last: usize = 0;
    let mut blanks: usize = 0;
    for (index, byte) in line.as_bytes().iter().enumerate() {
        if *byte == b' ' {
            blanks = blanks.saturating_add(1);
        } else {
            if blanks > 1 {
                last = index;
            }
            if blanks > 1 && first == 0 && blanks == index {
                first = index;
            }
            blanks = 0;
        }
    }
    if last.saturating_add(LEAST_ROOM) <= columns {
        last
    } else {
        first
    }
}
