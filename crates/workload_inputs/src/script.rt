//! Scripts, put together word by word.

use crate::peers::Peer;
use std::alloc::{AllocError, Global};

/// A script under way. What memory is refused for is left out, which is noted.
#[derive(Drop)]
pub(crate) struct Script {
    text: String,
    is_whole: bool,
}

impl Script {
    /// A script without commands.
    pub(crate) fn new(alloc: Global) -> Self {
        Script {
            text: String::new(alloc),
            is_whole: true,
        }
    }

    /// How many octets it has.
    pub(crate) fn len(&self) -> usize {
        self.text.len()
    }

    /// Appends a text.
    pub(crate) fn put(&mut self, text: &str) {
        let put = self.text.push_str(text);
        self.note(put);
    }

    /// Appends the command that this word is, with a number.
    pub(crate) fn put_counted(&mut self, word: &str, number: u32) {
        let put = writeln!(&mut self.text, "{word} {number}");
        self.note(put);
    }

    /// Appends the word of a command, and the peer that it asks about.
    pub(crate) fn put_about(&mut self, word: &str, peer: &Peer) {
        self.put(word);
        self.put(" ");
        let put = peer.put_name(&mut self.text);
        self.note(put);
    }

    /// Appends an address of IPv4 behind a space.
    pub(crate) fn put_address(&mut self, octets: [u8; 4]) {
        let [a, b, c, d] = octets;
        let put = write!(&mut self.text, " {a}.{b}.{c}.{d}");
        self.note(put);
    }

    /// Appends a length behind a slash, and ends the line.
    pub(crate) fn put_len(&mut self, len: u8) {
        let put = writeln!(&mut self.text, "/{len}");
        self.note(put);
    }

    /// Notes that something was left out, where memory was refused.
    fn note(&mut self, put: Result<(), AllocError>) {
        if put.is_err() {
            self.is_whole = false;
        }
    }

    /// The text, where nothing was left out.
    pub(crate) fn whole(self) -> Result<String, AllocError> {
        if self.is_whole {
            return Ok(self.text);
        }
        Err(AllocError)
    }
}
