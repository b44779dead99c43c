//! Where a call begins and ends, told to the library that refuses memory (`checks/refusing.c`, which
//! has the same three sizes). A mark is a block of a size that nothing else asks for; where nobody
//! looks, it does nothing.

use std::alloc::{AllocError, Global};

/// Requests from here on are those of a call: they are counted, and refused where they are to be.
const BEGIN: usize = 1_000_003;

/// Each request from here on is refused.
const REFUSE_ALL: usize = 1_000_033;

/// Requests from here on are granted.
const END: usize = 1_000_037;

/// A call begins.
pub fn begin(alloc: Global) {
    let _mark = mark(alloc, BEGIN);
}

/// Each request is refused from here on.
pub fn refuse_all(alloc: Global) {
    let _mark = mark(alloc, REFUSE_ALL);
}

/// Requests are granted again.
pub fn end(alloc: Global) {
    let _mark = mark(alloc, END);
}

/// Asks for a block. As a function that isn't inlined it can't be left out.
#[inline(never)]
fn mark(alloc: Global, octets: usize) -> Result<Vec<u8>, AllocError> {
    Vec::with_capacity(alloc, octets)
}

/// Which calls of a script are marked.
#[derive(Drop)]
pub struct Marks {
    alloc: Global,
    is_next: bool,
}

impl Marks {
    /// None yet.
    pub fn new(alloc: Global) -> Self {
        Marks {
            alloc,
            is_next: false,
        }
    }

    /// The next call is marked.
    pub fn mark_next(&mut self) {
        self.is_next = true;
    }

    /// A call begins.
    pub fn begin(&self) {
        if self.is_next {
            begin(self.alloc);
        }
    }

    /// The call has ended.
    pub fn end(&mut self) {
        if self.is_next {
            end(self.alloc);
        }
        self.is_next = false;
    }
}
