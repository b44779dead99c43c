//! A parser of lists of prefixes (RFC 4271, section 4.3). The parsers of UPDATEs and of
//! MP_REACH_NLRI and MP_UNREACH_NLRI call [`fill_prefixes`] for each list.

ghost use Rattle.std.specs.Prelude.{OnOk, IfErr};
ghost use Rattle.ip_prefix.specs.Sequences.{SpellsAll};
ghost use Rattle.ip_prefix.specs.Network.{SpellsNetwork};
ghost use Rattle.bgp_paths.specs.Readers.{Refuses};

use bgp_paths::{VecAsList, WireFault};
use ip_prefix::{Family, Prefix};

/// The IP prefixes that a field of a message announces or withdraws, in the order in which they are
/// sent.
pub type Prefixes = VecAsList<Prefix>;

/// Parses `octets` as prefixes of `family`, one after the other, each a length in bits and as few
/// octets as hold them (RFC 4271, section 4.3), and replaces `prefixes` with them. If `octets` is
/// empty, `prefixes` becomes empty. Fails with `Malformed` if `octets` ends inside a prefix or if a
/// length is more than 32 (IPv4) or 128 (IPv6) bits, and with `Memory` if memory allocation fails;
/// `prefixes` is then unspecified.
#[inline(always)]
pub(crate) fn fill_prefixes(
    prefixes: &mut Prefixes,
    family: Family,
    octets: &[u8],
) -> Result<(), WireFault>
    ensures filled { OnOk result (SpellsAll (SpellsNetwork family) prefixes.new octets.now) }
    ensures refused { IfErr result (Refuses (SpellsAll (SpellsNetwork family)) octets.now) }
{
    if octets.is_empty() {
        prefixes.items.clear();
        return Ok(());
    }
    fill_nonempty_prefixes(prefixes, family, octets)
}

/// Parses `octets` as prefixes of `family`, one after the other (RFC 4271, section 4.3), and
/// replaces `prefixes` with them. [`fill_prefixes`] calls it for `octets` that aren't empty; it is
/// correct for empty ones too. Fails with `Malformed` if `octets` ends inside a prefix or if a
/// length is more than 32 (IPv4) or 128 (IPv6) bits, and with `Memory` if memory allocation fails;
/// `prefixes` is then unspecified.
#[inline(never)]
fn fill_nonempty_prefixes(
    prefixes: &mut Prefixes,
    family: Family,
    octets: &[u8],
) -> Result<(), WireFault>
    ensures filled { OnOk result (SpellsAll (SpellsNetwork family) prefixes.new octets.now) }
    ensures refused { IfErr result (Refuses (SpellsAll (SpellsNetwork family)) octets.now) }
{
    // This isn't inlined: in most UPDATEs some of the lists are empty.
    let list = &mut prefixes.items;
    list.clear();
    let mut rest = octets;
    while !rest.is_empty() {
        let (prefix, size) = Prefix::read(family, rest).ok_or(WireFault::Malformed)?;
        list.push(prefix)?;
        let (_, more) = rest.split_at(size);
        rest = more;
    }
    Ok(())
}
