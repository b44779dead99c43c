//! The parser of length fields of two octets, which the parsers of messages (`message.rt`), of
//! UPDATEs (`update.rt`) and of attributes (`framing.rt`) call.

ghost use Rattle.std.specs.Prelude.{◌≡◌, ◌<◌, ◌^◌, length};
ghost use Rattle.std.specs.Int.{to_be_bytes, w16};

use byteorder::{BigEndian, ByteOrder};

/// The size of a length field, in octets (RFC 4271, sections 4.1 and 4.3). Some lengths of
/// attributes have one octet instead.
pub(crate) const LENGTH_SIZE: usize = 2;

/// Parses `octets` as a length field: a 16-bit number in big-endian order. Requires that `octets`
/// has exactly two octets.
#[inline]
pub(crate) fn read_length(octets: &[u8]) -> usize
    requires { length octets.now ≡ LENGTH_SIZE }
    ensures fits { result < 2 ^ 16 }
    ensures spelled { octets.now ≡ to_be_bytes w16 result }
{
    usize::from(BigEndian::read_u16(octets))
}
