//! The lines of a script's file.

use std::alloc::{AllocError, Global};

/// The name of a script's file, and the text that it holds.
#[derive(Clone, Copy, Debug)]
pub struct ScriptFile<'a> {
    pub name: &'a str,
    pub text: &'a str,
}

/// The lines of a script's file, which is split only once, and the names of its classes, in the order in which the file declares them.
#[derive(Drop)]
pub struct ScriptLines<'a> {
    pub name: &'a str,
    lines: Vec<&'a str>,
    classes: Vec<&'a str>,
}

impl<'a> ScriptLines<'a> {
    /// Splits a file into lines. The only error is that memory ran out.
    pub fn of(alloc: Global, file: ScriptFile<'a>) -> Result<ScriptLines<'a>, AllocError> {
        let mut found = ScriptLines {
            name: file.name,
            lines: Vec::new(alloc),
            classes: Vec::new(alloc),
        };
        for line in file.text.lines() {
            found.add(line)?;
        }
        Ok(found)
    }

    fn add(&mut self, line: &'a str) -> Result<(), AllocError> {
        self.lines.push(line)?;
        if !line.trim_start().starts_with("class") {
            return Ok(());
        }
        let mut words = line.split_whitespace();
        if words.next() == Some("class") {
            self.classes.push(words.next().unwrap_or(""))?;
        }
        Ok(())
    }

    /// Returns the names of the classes, in order of the classes' indexes.
    pub fn class_names(&self) -> &[&'a str] {
        self.classes.as_slice()
    }

    /// Returns the name of a class, by its index; empty if there is no such class.
    pub fn class_name(&self, class: u16) -> &'a str {
        self.classes.get(class as usize).copied().unwrap_or("")
    }

    /// Returns how many lines there are.
    pub fn count(&self) -> u32 {
        u32::try_from(self.lines.len()).unwrap_or(u32::MAX)
    }

    /// Returns a line as it is in the file, by its number from 1; empty if there is none.
    pub fn line(&self, number: u32) -> &'a str {
        let Some(at) = number.checked_sub(1) else {
            return "";
        };
        match self.lines.get(at as usize) {
            Some(line) => line,
            None => "",
        }
    }

    /// Returns a word of a line, by its index from 0; empty if there is none.
    pub fn word(&self, number: u32, index: usize) -> &'a str {
        self.line(number)
            .split_whitespace()
            .nth(index)
            .unwrap_or("")
    }
}
