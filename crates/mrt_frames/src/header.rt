//! The header of an MRT record (RFC 6396, section 2). `frames.rt` parses it with [`read_header`];
//! read that first.

ghost use Rattle.std.specs.Prelude.{◌≡◌, ◌↔◌, ◌+◌, ◌≤◌, IsTrue, length, take, drop};
ghost use Rattle.std.specs.Int.{to_be_bytes, w16, w32};
ghost use Rattle.mrt_frames.specs.Buffered.{HoldsRecord};
ghost use Rattle.mrt_frames.specs.Record.{FitsHeader, header_octets};

use byteorder::{BigEndian, ByteOrder};

/// The size of the header of an MRT record, in octets (RFC 6396, section 2).
pub const HEADER_SIZE: usize = 12;

/// The greatest length of a record's body, in octets, that a header may state: 16 MiB. A record
/// whose header states one octet more is a fault ([`RecordKind::TooLong`](crate::RecordKind)),
/// after which nothing of the input is read.
pub const LONGEST_BODY: u32 = 16_777_216;

/// The header of an MRT record (RFC 6396, section 2).
#[derive(Clone, Copy)]
pub struct Header {
    /// The timestamp, in seconds since 1970-01-01 00:00:00 UTC.
    pub seconds: u32,
    /// The type of the record, as 13 for TABLE_DUMP_V2 (RFC 6396, section 4).
    pub kind: u16,
    /// The subtype of the record. What it means depends on the type.
    pub subtype: u16,
    /// The length of the body that follows the header, in octets, without the header.
    pub size: u32,
}

/// Returns the 16-bit number whose two octets, in big-endian order, begin at index `offset` of
/// `octets`. Requires that `octets` has them.
fn u16_at(octets: &[u8], offset: usize) -> u16
    requires { offset + 2 ≤ length octets.now }
    ensures { to_be_bytes w16 result ≡ take 2 (drop offset octets.now) }
{
    BigEndian::read_u16(&octets[offset..])
}

/// Returns the 32-bit number whose four octets, in big-endian order, begin at index `offset` of
/// `octets`. Requires that `octets` has them.
fn u32_at(octets: &[u8], offset: usize) -> u32
    requires { offset + 4 ≤ length octets.now }
    ensures { to_be_bytes w32 result ≡ take 4 (drop offset octets.now) }
{
    BigEndian::read_u32(&octets[offset..])
}

/// Parses the 12 octets of the header of an MRT record (RFC 6396, section 2): four numbers in
/// big-endian order. Any octets are a header.
pub(crate) fn read_header(octets: &[u8; HEADER_SIZE]) -> Header
    ensures fits { FitsHeader result.seconds result.kind result.subtype result.size }
    ensures octets { header_octets result.seconds result.kind result.subtype result.size
        ≡ octets.now }
{
    Header {
        seconds: u32_at(octets, 0),
        kind: u16_at(octets, 4),
        subtype: u16_at(octets, 6),
        size: u32_at(octets, 8),
    }
}

/// Returns `true` if `octets` begins with a whole record: a header, and a body of the length that
/// the header states, whatever that is. Returns `false` if `octets` ends before or inside the
/// record.
#[inline]
pub(crate) fn begins_with_whole_record(octets: &[u8]) -> bool
    ensures { IsTrue result ↔ HoldsRecord octets.now }
{
    let Some((header, body)) = octets.split_first_chunk::<HEADER_SIZE>() else {
        return false;
    };
    body.len() >= read_header(header).size as usize
}
