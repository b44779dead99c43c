//! Texts that calls of the libraries append to others.

use crate::marks;
use crate::shown::Shown;
use crate::words::REFUSED;
use std::alloc::{AllocError, Global};

/// What stands in a text before a call, without room behind it.
#[derive(Clone, Copy)]
pub struct Front<'a> {
    pub alloc: Global,
    pub octets: &'a [u8],
}

/// Appends what a call appends behind this front, or that memory is refused for it.
pub fn put_appended<F: FnOnce(&mut Vec<u8>) -> Result<(), AllocError>>(
    front: Front<'_>,
    put: F,
    text: &mut Shown,
)
    requires { F.IsAlwaysCallable put }
{
    match Vec::from_slice(front.alloc, front.octets) {
        Ok(before) => put_behind(front, before, put, text),
        Err(AllocError) => text.note(Err(AllocError)),
    }
}

/// Makes the call on a text that is the front.
fn put_behind<F: FnOnce(&mut Vec<u8>) -> Result<(), AllocError>>(
    front: Front<'_>,
    before: Vec<u8>,
    put: F,
    text: &mut Shown,
)
    requires { F.IsAlwaysCallable put }
{
    let mut scratch = before;
    marks::begin(front.alloc);
    let made = put(&mut scratch);
    marks::end(front.alloc);
    put_judged(made, front.octets, &scratch, text);
}

/// Appends what stands behind the front, or what is wrong. Where memory is refused, the text has to
/// be as it was.
fn put_judged(put: Result<(), AllocError>, front: &[u8], scratch: &[u8], text: &mut Shown) {
    match (put, scratch.strip_prefix(front)) {
        (Ok(()), Some(behind)) => text.put(behind),
        (Ok(()), None) => text.put(b"the front has changed"),
        (Err(AllocError), Some(behind)) if behind.is_empty() => text.put(REFUSED),
        (Err(AllocError), _) => text.put(b"refused, and the text has changed"),
    }
}
