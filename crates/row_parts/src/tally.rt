//! What is printed of a file of rows.

use crate::answer::Answer;
use crate::row::Row;
use row_values::Shown;
use std::alloc::{AllocError, Global};

/// How many rows of a file agree, were refused memory and differ, and what is printed of it.
#[derive(Drop)]
pub struct Tally<'a> {
    alloc: Global,
    name: &'a str,
    agreeing: u32,
    refused: u32,
    differing: u32,
    /// Whether memory was refused in a call of the row that is carried out.
    is_refused: bool,
    text: Shown,
}

impl<'a> Tally<'a> {
    /// None yet of the file of this name.
    pub fn new(alloc: Global, name: &'a str) -> Self {
        Tally {
            alloc,
            name,
            agreeing: 0,
            refused: 0,
            differing: 0,
            is_refused: false,
            text: Shown::new(alloc),
        }
    }

    /// Counts a row of which no call differs.
    pub(crate) fn allow(&mut self) {
        if self.is_refused {
            self.refused = self.refused.saturating_add(1);
        } else {
            self.agreeing = self.agreeing.saturating_add(1);
        }
        self.is_refused = false;
    }

    /// Notes that memory was refused in a call of the row.
    pub(crate) fn note_refusal(&mut self) {
        self.is_refused = true;
    }

    /// Counts a row that differs, or a line that can't be read, and says why.
    pub fn deny(&mut self, line: u32, why: &str) {
        self.is_refused = false;
        self.differing = self.differing.saturating_add(1);
        let told = format!(in self.alloc; "{}:{line}: {why}\n", self.name);
        self.text.put_made(told);
    }

    /// Counts a row that differs, and shows what the call answers in its place.
    pub(crate) fn deny_row(&mut self, row: &Row, answer: &Answer, why: &str) {
        self.deny(row.line, why);
        self.text.put(&answer.out);
        self.text.put(&answer.err);
        self.text.put(&answer.ended);
    }

    /// Appends a word and a count, where there are some.
    fn put_count(&mut self, count: u32, word: &str) {
        if count > 0 {
            self.text
                .put_made(format!(in self.alloc; ", {count} {word}"));
        }
    }

    /// Appends how many rows agree.
    pub fn close(&mut self) {
        let (name, agreeing) = (self.name, self.agreeing);
        let told = format!(in self.alloc; "{name}: {agreeing} rows agree");
        self.text.put_made(told);
        self.put_count(self.refused, "are refused memory");
        self.put_count(self.differing, "differ");
        self.text.put(b"\n");
    }

    /// Whether all rows agree.
    pub fn agrees(&self) -> bool {
        self.differing == 0 && self.refused == 0
    }

    /// What is printed.
    pub fn text(self) -> Result<Vec<u8>, AllocError> {
        self.text.whole()
    }
}
