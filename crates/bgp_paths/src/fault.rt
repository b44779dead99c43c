//! The error of parsers of BGP octets, which the parsers of `bgp_paths` and `bgp_wire` return. Read
//! [`WireFault`].

ghost use Rattle.std.specs.Prelude.{◌≡◌};
ghost use Rattle.bgp_paths.specs.declared.fault.WireFault.TheVariants.{Memory};

use std::alloc::{AllocError, AllocFailed};
use thiserror::Error;

/// Why a parser of BGP messages or path attributes failed.
#[derive(Clone, Copy, Debug, PartialEq, Eq, Error)]
pub enum WireFault {
    /// The octets don't have the format of the value that was to be parsed.
    #[error("malformed")]
    Malformed,
    /// Memory allocation failed.
    #[error("out of memory")]
    Memory,
}

impl From<AllocError> for WireFault {
    ghost from_gives = { λ _ fault. fault ≡ Memory };

    fn from(_: AllocError) -> WireFault {
        WireFault::Memory
    }
}

impl<T: Drop> From<AllocFailed<T>> for WireFault {
    ghost from_gives = { λ _ fault. fault ≡ Memory };

    fn from(_: AllocFailed<T>) -> WireFault {
        WireFault::Memory
    }
}
