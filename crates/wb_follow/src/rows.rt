//! The rows of a run that is followed: their columns, and how they are handed to the sink.

use std::alloc::{AllocError, Global};
use std::fmt::{Display, Write};
use wb_basics::memory::NoMemory;

/// How many bytes of whole rows are kept before the rows are handed to the sink.
const MOST_KEPT: usize = 8192;

/// The most columns of a row, unless a single word needs more columns.
const MOST_COLUMNS: usize = 80;

/// The characters that replace the rest of a long statement.
const ELLIPSIS: &str = "...";

/// How many columns a statement is indented for each call that led to the statement's body.
const INDENT: usize = 2;

/// The most calling bodies for which a statement is indented.
const MOST_INDENTS: u32 = 8;

/// A receiver of rows.
pub trait RowSink {
    /// Takes whole rows. Returns `false` if the sink takes no more rows.
    fn take_rows(&mut self, rows: &str) -> bool;
}

/// How wide the columns are.
#[derive(Clone, Copy)]
pub(crate) struct Widths {
    pub(crate) step: usize,
    pub(crate) line: usize,
    pub(crate) statement: usize,
}

impl Widths {
    /// The column in which a row begins the words about what its step does.
    fn column_of_effects(self) -> usize {
        let column = self
            .step
            .saturating_add(self.line)
            .saturating_add(self.statement);
        column.saturating_add(6)
    }
}

/// Rows that are being written. If memory runs out, the rest is left out, and `hand_to` returns an error.
pub(crate) struct Rows {
    widths: Widths,
    /// Whole rows that haven't been handed to the sink.
    whole: String,
    /// The row that is being written.
    row: String,
    /// The lines of the row that ended last.
    lines: String,
    /// Whether the row that is being written is to be shown.
    is_shown: bool,
    /// The length of the row before the words about what its step does; `None` as long as the row has no such words.
    effects: Option<usize>,
    is_cut: bool,
}

/// This `drop` is written by hand, so that dropping a `Rows` is a single call in a proof. Only the proof of `drop` itself goes over the
/// fields.
impl Drop for Rows {
    fn drop(self) {
        let Rows {
            widths: _,
            whole: _,
            row: _,
            lines: _,
            is_shown: _,
            effects: _,
            is_cut: _,
        } = self;
    }
}

impl Rows {
    /// Begins without rows.
    pub(crate) fn new(alloc: Global, widths: Widths) -> Rows {
        Rows {
            widths,
            whole: String::new(alloc),
            row: String::new(alloc),
            lines: String::new(alloc),
            is_shown: false,
            effects: None,
            is_cut: false,
        }
    }

    /// Whether the rows should be handed to the sink, because they are long enough or because memory ran out.
    pub(crate) fn is_long(&self) -> bool {
        self.is_cut || self.whole.len() >= MOST_KEPT
    }

    /// Hands the whole rows to the sink. Returns `false` if the sink takes no more. The only error is that memory ran out.
    pub(crate) fn hand_to<O: RowSink>(&mut self, sink: &mut O) -> Result<bool, NoMemory> {
        let takes = self.whole.is_empty() || sink.take_rows(self.whole.as_str());
        self.whole.clear();
        if self.is_cut {
            Err(NoMemory::from(AllocError))
        } else {
            Ok(takes)
        }
    }

    /// Begins a row; `is_shown` says whether the row will be shown.
    pub(crate) fn begin(&mut self, is_shown: bool) {
        self.row.clear();
        self.is_shown = is_shown;
        self.effects = None;
    }

    /// Ends the row. If the words about what its step does don't fit in one line, they continue in further lines.
    pub(crate) fn end(&mut self) {
        if !self.is_shown || self.is_cut {
            return;
        }
        let column = self.widths.column_of_effects();
        let length = self.effects.unwrap_or(self.row.len());
        self.lines.clear();
        self.is_cut = put_row(&mut self.lines, self.row.as_str(), length, column).is_err()
            || self.whole.push_str(self.lines.as_str()).is_err();
        self.is_shown = false;
    }

    /// Writes a text unchanged.
    pub(crate) fn text(&mut self, text: &str) {
        if self.is_shown && !self.is_cut {
            self.is_cut = self.row.push_str(text).is_err();
        }
    }

    pub(crate) fn number(&mut self, number: u32) {
        self.value(i64::from(number));
    }

    pub(crate) fn value(&mut self, value: i64) {
        if self.is_shown && !self.is_cut {
            self.is_cut = write!(self.row, "{value}").is_err();
        }
    }

    /// Writes a place as 8 hexadecimal digits, as in the name of a panic.
    pub(crate) fn place(&mut self, place: u32) {
        if self.is_shown && !self.is_cut {
            self.is_cut = write!(self.row, "{place:08x}").is_err();
        }
    }

    /// Writes the columns of the step and of the line: the numbers of the step and the line, or words instead of numbers.
    pub(crate) fn head<T: Display + Drop>(&mut self, step: T, line: T) {
        let Widths {
            step: wide,
            line: next,
            ..
        } = self.widths;
        if self.is_shown && !self.is_cut {
            self.is_cut = write!(self.row, "{step:>wide$}  {line:>next$}  ").is_err();
        }
    }

    /// Indents the text that is written next. The indentation grows with the number of bodies that run.
    pub(crate) fn indent(&mut self, depth: u32) {
        let levels = depth.saturating_sub(1).min(MOST_INDENTS) as usize;
        self.blanks(levels.saturating_mul(INDENT));
    }

    /// Writes a line of the script without the blanks around it. Only the beginning of a long line is written.
    pub(crate) fn statement(&mut self, line: &str) {
        let line = line.trim();
        let room = MOST_COLUMNS.saturating_sub(self.row.len());
        let is_whole = line.len() <= room;
        let shown = if is_whole {
            room
        } else {
            room.saturating_sub(ELLIPSIS.len())
        };
        let bytes = line.as_bytes();
        let (part, _) = bytes.split_at_checked(shown).unwrap_or((bytes, &[]));
        for byte in part {
            self.char(*byte);
        }
        if !is_whole {
            self.text(ELLIPSIS);
        }
    }

    /// Begins one item of what the row's step does. The first item goes into its own column, and each later item after the item before it.
    pub(crate) fn effect(&mut self) {
        match self.effects {
            Some(_) => self.text("; "),
            None => self.effects = Some(self.row.len()),
        }
    }

    /// Writes a text as one item of what the row's step does.
    pub(crate) fn effect_text(&mut self, text: &str) {
        self.effect();
        self.text(text);
    }

    fn char(&mut self, byte: u8) {
        if self.is_shown && !self.is_cut {
            let char = match byte {
                b' '..=b'~' => byte as char,
                _ => ' ',
            };
            self.is_cut = self.row.push(char).is_err();
        }
    }

    fn blanks(&mut self, count: usize) {
        for _ in 0..count {
            self.char(b' ');
        }
    }
}

/// Writes a row. The words after its first `length` bytes say what the row's step does. These words go into their own column, in further
/// lines if one line isn't enough. But after a long statement, these words follow at once if all of them fit in the line.
fn put_row(lines: &mut String, row: &str, length: usize, column: usize) -> Result<(), AllocError> {
    let (head, effects) = row.split_at_checked(length).unwrap_or((row, ""));
    let behind = head.len().saturating_add(2);
    let fits = behind.saturating_add(effects.len()) <= MOST_COLUMNS;
    let column = if fits { column.max(behind) } else { column };
    lines.push_str(head)?;
    let mut at = head.len();
    let mut is_first = true;
    for word in effects.split(' ') {
        if !word.is_empty() {
            at = put_word(lines, word, at, column, is_first)?;
            is_first = false;
        }
    }
    lines.push_str("\n")
}

/// Writes a word about what a step does, after the first `at` columns, or in the next line if the word doesn't fit there. Returns how many
/// columns the line has afterwards.
fn put_word(
    whole: &mut String,
    word: &str,
    at: usize,
    column: usize,
    is_first: bool,
) -> Result<usize, AllocError> {
    let fits = if is_first {
        at.saturating_add(2) <= column
    } else {
        at.saturating_add(word.len()) < MOST_COLUMNS
    };
    let at = if fits { at } else { 0 };
    if !fits {
        whole.push_str("\n")?;
    }
    let blanks = if is_first || !fits {
        column.saturating_sub(at)
    } else {
        1
    };
    for _ in 0..blanks {
        whole.push_str(" ")?;
    }
    whole.push_str(word)?;
    Ok(at.saturating_add(blanks).saturating_add(word.len()))
}
