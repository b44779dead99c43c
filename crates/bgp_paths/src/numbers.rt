//! Parsers of lists of AS numbers and of communities, which are sent in network byte order
//! (big-endian). `as_numbers.rt` parses the AS numbers of longer segments with [`fill_numbers`],
//! and `bgp_wire` communities; read that function first.

ghost use Rattle.std.specs.Prelude.{◌≡◌, ◌≤◌, ◌<◌, ◌+◌, ◌/◌, ◌%◌, ◌^◌, [], length, OnOk, IfErr, vec_capacity};
ghost use Rattle.std.specs.Int.{to_be_bytes, w16};
ghost use Rattle.ip_prefix.specs.Sequences.{SpellsAll};
ghost use Rattle.bgp_paths.specs.Path.{SpellsAsn, asn_size};
ghost use Rattle.bgp_paths.specs.Readers.{Refuses};

use crate::fault::WireFault;
use byteorder::{BigEndian, ByteOrder};
use std::alloc::AllocError;

/// Whether AS numbers are sent in two or in four octets, in an AS_PATH or an AGGREGATOR.
#[derive(Clone, Copy, Debug, PartialEq, Eq)]
pub enum AsWidth {
    /// Two octets, as speakers send them that don't support RFC 6793. Greater AS numbers are then
    /// in AS4_PATH and AS4_AGGREGATOR.
    Two,
    /// Four octets, as speakers send them that support RFC 6793.
    Four,
}

impl AsWidth {
    /// Returns the size of an AS number that is sent, in octets: 2 or 4.
    #[inline]
    pub fn octets(self) -> usize
        ensures { result ≡ asn_size self }
    {
        match self {
            AsWidth::Two => 2,
            AsWidth::Four => 4,
        }
    }

    /// Parses `octets` as an AS number, in big-endian order. Requires that `octets` has 2 octets
    /// for `Two`, and 4 for `Four`.
    #[inline]
    pub fn number(self, octets: &[u8]) -> u32
        requires { length octets.now ≡ asn_size self }
        ensures { SpellsAsn self result octets.now }
    {
        match self {
            AsWidth::Two => u32::from(BigEndian::read_u16(octets)),
            AsWidth::Four => BigEndian::read_u32(octets),
        }
    }
}

/// Replaces the vector `numbers` with an empty one that has capacity for exactly `count` numbers.
/// Fails if memory allocation fails; `numbers` is then unspecified.
#[inline(never)]
fn replace_with_capacity(numbers: &mut Vec<u32>, count: usize) -> Result<(), AllocError>
    ensures none { OnOk result (numbers.new.items ≡ []) }
    ensures exact { OnOk result (vec_capacity numbers.new ≡ count) }
{
    // It is out of line, since most lists have about the capacity that they need.
    *numbers = Vec::with_capacity(*numbers.allocator(), count)?;
    Ok(())
}

/// Removes all `numbers`, and reallocates the vector if it has capacity for fewer than `count`
/// numbers or for more than `count + max_spare`. Requires that `count` is below 2^62. Fails if
/// memory allocation fails; `numbers` is then unspecified.
#[inline(always)]
pub(crate) fn clear_and_reserve(
    numbers: &mut Vec<u32>,
    count: usize,
    max_spare: u8,
) -> Result<(), AllocError>
    requires small { count < 2 ^ 62 }
    ensures none { OnOk result (numbers.new.items ≡ []) }
    ensures room { OnOk result (count ≤ vec_capacity numbers.new) }
    ensures bound { OnOk result (vec_capacity numbers.new ≤ count + max_spare) }
{
    // The upper bound lets a list take about the memory that it needs, whatever it held before.
    numbers.clear();
    // If the capacity is below `count`, the wrapped difference is a large number.
    if numbers.capacity().wrapping_sub(count) > usize::from(max_spare) {
        replace_with_capacity(numbers, count)?;
    }
    Ok(())
}

/// Parses `octets` as numbers of `width`, in big-endian order, and appends them to `numbers`.
/// Requires that `octets` has a whole number of them, and that `numbers` is empty and has capacity
/// for them.
#[inline(always)]
fn push_numbers(width: AsWidth, octets: &[u8], numbers: &mut Vec<u32>)
    requires whole { length octets.now % asn_size width ≡ 0 }
    requires none { numbers.old.items ≡ [] }
    requires room { length octets.now / asn_size width ≤ vec_capacity numbers.old }
    ensures numbers { SpellsAll (SpellsAsn width) numbers.new.items octets.now }
    ensures kept { vec_capacity numbers.new ≡ vec_capacity numbers.old }
{
    // It is inlined, so that there is a loop for each width.
    let size = width.octets();
    let mut rest = octets;
    while !rest.is_empty() {
        let (front, more) = rest.split_at(size);
        numbers.push_reserved(width.number(front));
        rest = more;
    }
}

/// Parses `octets` as numbers of `width`, in big-endian order, and replaces `numbers` with them, or
/// with none if `octets` is empty. The memory of `numbers` is reused if its capacity is enough, and
/// at most `max_spare` numbers above what is needed. Fails with `Malformed` if `octets` ends inside
/// a number, and with `Memory` if memory allocation fails; `numbers` is then unspecified.
#[inline(always)]
pub fn fill_numbers(
    numbers: &mut Vec<u32>,
    width: AsWidth,
    octets: &[u8],
    max_spare: u8,
) -> Result<(), WireFault>
    ensures filled { OnOk result (SpellsAll (SpellsAsn width) numbers.new.items octets.now) }
    ensures bound { OnOk result
        (vec_capacity numbers.new ≤ length octets.now / asn_size width + max_spare) }
    ensures refused { IfErr result (Refuses (SpellsAll (SpellsAsn width)) octets.now) }
{
    let size = width.octets();
    if octets.len() % size != 0 {
        return Err(WireFault::Malformed);
    }
    clear_and_reserve(numbers, octets.len() / size, max_spare)?;
    match width {
        AsWidth::Two => push_numbers(AsWidth::Two, octets, numbers),
        AsWidth::Four => push_numbers(AsWidth::Four, octets, numbers),
    }
    Ok(())
}
