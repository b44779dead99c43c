//! Octets written in hexadecimal, and records that several tests read.

use std::alloc::{AllocError, Global};

/// A state change of an IPv4 peer, of 32 octets.
pub const STATE_CHANGE: &str =
    "00000064 0010 0000 00000014 FBF4 FBF5 0000 0001 C0000201 C0000202 0006 0001";

/// A part of a multicast table, of 31 octets.
pub const MULTICAST: &str =
    "000000C8 000D 0003 00000013 C6336401 0000 0001 00 C0000201 C0000201 FBF4";

/// Its report, where it comes first.
pub const MULTICAST_REPORT: &str = "bgpdump: record 1, byte 0: unsupported type 13 subtype 3\n";

/// The value of a hexadecimal digit.
fn digit_value(digit: u8) -> Option<u8> {
    match digit {
        b'0'..=b'9' => Some(digit - b'0'),
        b'A'..=b'F' => Some(digit - b'A' + 10),
        _ => None,
    }
}

/// The octets that the texts spell in hexadecimal, one text behind the other. Spaces are ignored.
pub fn octets_of(alloc: Global, texts: &[&str]) -> Result<Vec<u8>, AllocError> {
    let mut octets = Vec::new(alloc);
    for text in texts {
        let mut high = None;
        for value in text.bytes().filter_map(digit_value) {
            match high.take() {
                None => high = Some(value),
                Some(first) => octets.push(first << 4 | value)?,
            }
        }
    }
    Ok(octets)
}
