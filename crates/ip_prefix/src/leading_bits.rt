//! Functions on the highest bits of numbers and of octets, of which `prefix.rt` makes prefixes.
//! Read [`keep_highest_bits`] first.

ghost use Rattle.std.specs.Prelude.{◌≡◌, ◌*◌, ◌^◌, ◌<◌, ◌≤◌, length, take};
ghost use Rattle.ip_prefix.specs.Bits.{bits_of_octets, highest_bits};
ghost use Rattle.ip_prefix.specs.Kept.{highest_part};

use crate::addr::{OCTET_BITS, V6_OCTETS};
use crate::number::{HALF_BITS, NUMBER_BITS};

/// The number of octets up to which the bits of a prefix are read as three octets at once. Most
/// IPv4 prefixes have at most 24 bits.
const SHORT: usize = 3;

/// Returns `number` with its highest `len` bits kept and all other bits set to 0. Requires that
/// `len` is at most 128.
#[inline]
pub(crate) fn keep_highest_bits(number: u128, len: u8) -> u128
    requires { len ≤ NUMBER_BITS }
    ensures { result ≡ highest_part len number }
{
    // Mostly the bits that stay are in the high half.
    if len <= HALF_BITS {
        if len == 0 {
            return 0;
        }
        let below = HALF_BITS - len;
        let half = (number >> HALF_BITS) as u64;
        return u128::from(half >> below << below) << HALF_BITS;
    }
    let below = NUMBER_BITS - len;
    number >> below << below
}

/// Returns a 128-bit number whose highest bits are the first `size` of `octets`, the most
/// significant first. The bits below them are unspecified. Requires that `size` is at most 16 and
/// at most the length of `octets`.
#[inline]
pub(crate) fn number_with_high_octets(octets: &[u8], size: usize) -> u128
    requires { (size ≤ length octets.now) × (size ≤ V6_OCTETS) }
    ensures fits { result < 2 ^ NUMBER_BITS }
    ensures bits { highest_bits (OCTET_BITS * size) result ≡ bits_of_octets (take size octets.now) }
{
    // Sixteen octets are read at once if there are as many; three are if they hold all bits.
    if let Some(front) = octets.first_chunk::<V6_OCTETS>() {
        return u128::from_be_bytes(*front);
    }
    if size <= SHORT {
        if let Some(front) = octets.first_chunk::<SHORT>() {
            let [one, two, three] = *front;
            return u128::from_be_bytes([one, two, three, 0, 0, 0, 0, 0, 0, 0, 0, 0, 0, 0, 0, 0]);
        }
    }
    let mut buffer = [0; V6_OCTETS];
    buffer[..size].copy_from_slice(&octets[..size]);
    u128::from_be_bytes(buffer)
}
