//! Rows: what a call is given, and what it has to answer. Behind a row's first line, which names the
//! call, each line has a mark and a space in front:
//!
//!     <   octets that the call reads
//!     @   devices that it is carried out with, in place of sound ones
//!     :   a line of the script
//!     ;   octets of the script
//!     >   a line that it has to write, and + a part of one
//!     !   a line that it has to report, and - a part of one
//!     ?   a line that it has to write, in place of these, where memory is refused in the call that
//!         its script marks (`marks.rt`)
//!     =   the status that it has to end with, where that isn't 0, or 1 behind reports
//!     ~   how it ends over devices, and how often it finishes each output

use crate::answer::Answer;
use crate::devices::Devices;
use bgpdump_lines::Outcome;
use row_values::{Names, REFUSED, Spelled, put_digits};
use std::alloc::{AllocError, Global};

/// A row, as far as its lines were read.
#[derive(Drop)]
pub struct Row {
    /// The number of its first line.
    pub(crate) line: u32,
    /// The octets that it reads.
    pub(crate) input: Spelled,
    /// The words that spell these.
    pub(crate) words: String,
    /// The devices that it is carried out with, by turns.
    pub(crate) devices: Vec<Devices>,
    /// The lines of its script.
    pub script: Vec<u8>,
    /// What it has to write.
    pub out: Vec<u8>,
    pub err: Vec<u8>,
    /// What it has to write where memory is refused in the call that its script marks.
    pub(crate) refused: Vec<u8>,
    /// The status, where the row names one.
    pub(crate) status: Option<u8>,
    /// How it ends over devices.
    pub(crate) ended: Vec<u8>,
}

impl Row {
    /// A row whose further lines weren't read yet.
    pub fn new(alloc: Global, line: u32) -> Self {
        Row {
            line,
            input: Spelled::new(alloc),
            words: String::new(alloc),
            devices: Vec::new(alloc),
            script: Vec::new(alloc),
            out: Vec::new(alloc),
            err: Vec::new(alloc),
            refused: Vec::new(alloc),
            status: None,
            ended: Vec::new(alloc),
        }
    }

    /// Whether a line is one of those behind the first one of a row.
    pub fn has_mark(line: &str) -> bool {
        matches!(
            line.as_bytes().first(),
            Some(b'<' | b'@' | b':' | b';' | b'>' | b'+' | b'!' | b'-' | b'?' | b'=' | b'~')
        )
    }

    /// Reads a line with a mark, and answers whether it can be read.
    pub fn read(&mut self, names: &Names, line: &str) -> bool {
        let (mark, text) = line.split_once(" ").unwrap_or((line, ""));
        match mark {
            "<" => self.read_octets(names, text).is_ok_and(|is_read| is_read),
            "@" => self.read_devices(text),
            ":" => put_line(text, &mut self.script).is_ok(),
            ";" => put_digits(text, &mut self.script),
            ">" => put_line(text, &mut self.out).is_ok(),
            "+" => self.out.extend_from_slice(text.as_bytes()).is_ok(),
            "!" => put_line(text, &mut self.err).is_ok(),
            "-" => self.err.extend_from_slice(text.as_bytes()).is_ok(),
            "?" => put_line(text, &mut self.refused).is_ok(),
            "~" => self.ended.extend_from_slice(text.as_bytes()).is_ok(),
            "=" => {
                self.status = text.parse::<u8>().ok();
                self.status.is_some()
            }
            _ => false,
        }
    }

    /// Reads what spells octets, and answers whether it does.
    fn read_octets(&mut self, names: &Names, words: &str) -> Result<bool, AllocError> {
        self.words.push_str(words)?;
        self.words.push_str("\n")?;
        Ok(self.input.put_words(names, words))
    }

    /// Reads what tells devices, and answers whether it does.
    fn read_devices(&mut self, words: &str) -> bool {
        match Devices::spelled(words) {
            Some(devices) => self.devices.push(devices).is_ok(),
            None => false,
        }
    }

    /// The status that the row wants. Where it names none, it is 1 if something is reported.
    pub(crate) fn wanted_status(&self) -> u8 {
        match self.status {
            Some(status) => status,
            None => u8::from(!self.err.is_empty()),
        }
    }

    /// What differs in the answer, or nothing.
    pub(crate) fn difference(&self, answer: &Answer) -> Option<&'static str> {
        if self.out != answer.out {
            return Some("it writes something else");
        }
        if self.err != answer.err {
            return Some("it reports something else");
        }
        if self.ended != answer.ended {
            return Some("it ends in another way");
        }
        if self.ended.is_empty() && self.wanted_status() != answer.status {
            return Some("it ends with another status");
        }
        None
    }

    /// Whether the answer is right where memory was refused in a call of the libraries: what the row
    /// wants then, or else a front of what it wants, with the line `refused` behind it or, of a run,
    /// with its status.
    pub(crate) fn is_refusal(&self, answer: &Answer) -> bool {
        if !self.refused.is_empty() {
            return self.refused == answer.out;
        }
        if answer.status == Outcome::Memory.status() {
            return self.out.starts_with(&answer.out) && self.err.starts_with(&answer.err);
        }
        let text = answer.out.strip_suffix(b"\n").unwrap_or(&answer.out);
        match text.strip_suffix(REFUSED) {
            Some(front) => self.out.starts_with(front),
            None => false,
        }
    }
}

/// Appends a line.
fn put_line(line: &str, text: &mut Vec<u8>) -> Result<(), AllocError> {
    text.extend_from_slice(line.as_bytes())?;
    text.extend_from_slice(b"\n")
}
