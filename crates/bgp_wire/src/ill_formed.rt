//! The error of parsers that allocate no memory. Their callers, which do allocate, convert it to a
//! [`WireFault`].

ghost use Rattle.std.specs.Prelude.{◌≡◌};
ghost use Rattle.bgp_paths.specs.declared.fault.WireFault.TheVariants.{Malformed};

use bgp_paths::WireFault;

/// The error of a parser that allocates no memory: the octets don't have the format of the value
/// that was to be parsed. It becomes [`WireFault::Malformed`].
#[derive(Clone, Copy)]
pub(crate) struct IllFormed;

impl From<IllFormed> for WireFault {
    ghost from_gives = { λ _ fault. fault ≡ Malformed };

    fn from(_: IllFormed) -> WireFault {
        WireFault::Malformed
    }
}
