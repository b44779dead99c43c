//! Texts under way.

use bgp_wire::{AsPath, put_communities};
use ip_prefix::{Addr, Prefix, put_decimal};
use std::alloc::{AllocError, Global};

/// A text under way. What memory is refused for is left out, which is noted.
#[derive(Drop, PartialEq)]
pub struct Shown {
    octets: Vec<u8>,
    is_whole: bool,
}

impl Shown {
    /// An empty one.
    pub fn new(alloc: Global) -> Self {
        Shown {
            octets: Vec::new(alloc),
            is_whole: true,
        }
    }

    /// Appends octets.
    pub fn put(&mut self, part: &[u8]) {
        let put = self.octets.extend_from_slice(part);
        self.note(put);
    }

    /// Appends the digits of a number.
    pub fn put_number(&mut self, number: u64) {
        let put = put_decimal(number, &mut self.octets);
        self.note(put);
    }

    /// Appends the text of an address.
    pub fn put_address(&mut self, address: &Addr) {
        let put = address.put_text(&mut self.octets);
        self.note(put);
    }

    /// Appends the text of a prefix.
    pub fn put_prefix(&mut self, prefix: &Prefix) {
        let put = prefix.put_text(&mut self.octets);
        self.note(put);
    }

    /// Appends the text of a path.
    pub fn put_path(&mut self, path: &AsPath) {
        let put = path.put_text(&mut self.octets);
        self.note(put);
    }

    /// Appends the text of communities.
    pub(crate) fn put_communities(&mut self, communities: &[u32]) {
        let put = put_communities(communities, &mut self.octets);
        self.note(put);
    }

    /// Appends a text that was made, where there was memory for it.
    pub fn put_made(&mut self, made: Result<String, AllocError>) {
        match made {
            Ok(text) => self.put(text.as_bytes()),
            Err(AllocError) => self.is_whole = false,
        }
    }

    /// Has room for so many octets more.
    pub fn reserve(&mut self, octets: usize) {
        let made = self.octets.reserve(octets);
        self.note(made);
    }

    /// Notes that something was left out, where memory was refused.
    pub fn note(&mut self, put: Result<(), AllocError>) {
        if put.is_err() {
            self.is_whole = false;
        }
    }

    /// The text, where nothing was left out.
    pub fn whole(self) -> Result<Vec<u8>, AllocError> {
        if self.is_whole {
            return Ok(self.octets);
        }
        Err(AllocError)
    }
}
