//! Groups of octets, by what is put in front of them.

use std::alloc::AllocError;

/// How many octets a message has beside its type and its body: marker and length (RFC 4271,
/// section 4.1).
const MESSAGE_FRONT: usize = 18;

/// What becomes of the octets between a word like `2{` and its `}`.
#[derive(Clone, Copy)]
pub(crate) enum Group {
    /// Their number stands before them, in so many octets.
    Counted(usize),
    /// They are the type and the body of a message, whose marker and length stand before them.
    Message,
    /// They stand there so often.
    Repeated(usize),
    /// Each front of them stands there by turns that isn't whole.
    Front,
}

impl Group {
    /// The group that the word begins.
    pub(crate) fn begun_by(word: &str) -> Option<Group> {
        match word.strip_suffix("{")? {
            "1" => Some(Group::Counted(1)),
            "2" => Some(Group::Counted(2)),
            "4" => Some(Group::Counted(4)),
            "bgp" => Some(Group::Message),
            "front" => Some(Group::Front),
            other => {
                let count = other.strip_prefix("x")?.parse::<usize>().ok()?;
                Some(Group::Repeated(count))
            }
        }
    }

    /// Appends the group that has these octets.
    pub(crate) fn put(self, body: &[u8], octets: &mut Vec<u8>) -> Result<(), AllocError> {
        match self {
            Group::Counted(width) => {
                put_number(width, body.len(), octets)?;
                octets.extend_from_slice(body)
            }
            Group::Message => {
                octets.extend_from_slice(&[0xFF; 16])?;
                put_number(2, body.len().saturating_add(MESSAGE_FRONT), octets)?;
                octets.extend_from_slice(body)
            }
            Group::Repeated(count) => put_repeated(count, body, octets),
            Group::Front => octets.extend_from_slice(body),
        }
    }
}

/// Appends octets so often.
fn put_repeated(count: usize, body: &[u8], octets: &mut Vec<u8>) -> Result<(), AllocError> {
    for _ in 0..count {
        octets.extend_from_slice(body)?;
    }
    Ok(())
}

/// Appends the last octets of a number, as many as are named and at most eight, highest first.
fn put_number(width: usize, number: usize, octets: &mut Vec<u8>) -> Result<(), AllocError> {
    let all = (number as u64).to_be_bytes();
    octets.extend_from_slice(&all[8 - width.min(8)..])
}
