//! Which word of a cell each line stored or loaded last.

use std::alloc::{AllocError, Global};
use wb_heap_model::heap::Ptr;

/// A word of a cell, and the number that a line stored there, or loaded from there.
#[derive(Clone, Copy, Debug, PartialEq, Eq)]
pub struct WordUse {
    pub cell: Ptr,
    /// The word's index in the cell.
    pub index: i32,
    pub number: i32,
    pub line: u32,
    /// After how many steps this came.
    pub step: u32,
    /// Whether the line stored the number.
    pub is_store: bool,
}

/// For each line that stores or loads a word of a cell, what the line stored or loaded last.
#[derive(Drop)]
pub struct WordUses {
    by_line: Vec<Option<WordUse>>,
}

impl WordUses {
    /// No line has stored or loaded a word yet.
    pub fn new(alloc: Global) -> WordUses {
        WordUses {
            by_line: Vec::new(alloc),
        }
    }

    /// Notes what a line stored or loaded. The only error is that memory ran out.
    pub fn note(&mut self, word: WordUse) -> Result<(), AllocError> {
        let at = word.line as usize;
        if self.by_line.len() <= at {
            self.by_line.resize(at.saturating_add(1), None)?;
        }
        if let Some(last) = self.by_line.get_mut(at) {
            *last = Some(word);
        }
        Ok(())
    }

    /// Returns what a line stored or loaded last; `None` if it did neither.
    pub fn of_line(&self, line: u32) -> Option<WordUse> {
        match self.by_line.get(line as usize) {
            Some(word) => *word,
            None => None,
        }
    }

    /// Returns the newest store of a word before this use of the word, among the last stores of all lines; `None` if there is none.
    pub fn store_before(&self, word: WordUse) -> Option<WordUse> {
        let mut newest: Option<WordUse> = None;
        for other in self.by_line.as_slice() {
            let Some(other) = other else {
                continue;
            };
            let is_newer = newest.is_none_or(|it| it.step <= other.step) && other.step < word.step;
            if is_newer && other.is_store && other.cell == word.cell && other.index == word.index {
                newest = Some(*other);
            }
        }
        newest
    }
}
