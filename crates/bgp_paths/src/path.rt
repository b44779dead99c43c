//! AS paths. `bgp_wire` parses the path of each route with [`AsPath::fill`], and `text.rt` formats
//! it as text. Read [`AsPath`] first.

ghost use Rattle.std.specs.Prelude.{◌≡◌, [], OnOk, IfErr};
ghost use Rattle.ip_prefix.specs.Sequences.{SpellsAll};
ghost use Rattle.bgp_paths.specs.Readers.{empty_path, Refuses};
ghost use Rattle.bgp_paths.specs.Path.{SpellsSegment, SpellsPath};

use crate::fault::WireFault;
use crate::numbers::AsWidth;
use crate::path_reader::fill_segments;
use crate::segments::Segments;
use std::alloc::Global;

/// An AS path: the ASes that a route has passed through, in segments (RFC 4271, section 5.1.2). It
/// has no segments if the route hasn't passed through another AS, or if AS_PATH is absent.
#[derive(Clone, Debug, Drop)]
pub struct AsPath {
    /// The segments as they are sent: the ASes that the route has passed through last come first.
    pub segments: Segments,
}

impl AsPath {
    /// Returns an AS path without segments, without allocating memory. [`AsPath::fill`] parses a
    /// path into it.
    #[inline]
    pub fn empty(alloc: Global) -> AsPath
        ensures { result ≡ empty_path }
    {
        AsPath {
            segments: Segments::empty(alloc),
        }
    }

    /// Removes all segments, without allocating memory. Keeps the memory of the list of segments
    /// for later ones, or frees it if it has capacity for more than four. `alloc` is the allocator
    /// for later segments.
    #[inline]
    pub fn clear(&mut self, alloc: Global)
        ensures { self.new ≡ empty_path }
    {
        self.segments.clear(alloc);
    }

    /// Parses `octets` as an AS path with AS numbers of `width` (RFC 4271, section 4.3), and
    /// replaces the path with it, reusing its memory. Empty `octets` are a path without segments.
    /// Fails with `Malformed` if `octets` isn't a list of segments, each of a known type and with
    /// at least one AS number, and with `Memory` if memory allocation fails. On error, the path is
    /// unspecified.
    #[inline]
    pub fn fill(&mut self, alloc: Global, width: AsWidth, octets: &[u8]) -> Result<(), WireFault>
        ensures filled { OnOk result (SpellsPath width self.new octets.now) }
        ensures refused { IfErr result (Refuses (SpellsPath width) octets.now) }
    {
        let segments = &mut self.segments;
        match width {
            AsWidth::Two => fill_segments(alloc, segments, AsWidth::Two, octets),
            AsWidth::Four => fill_segments(alloc, segments, AsWidth::Four, octets),
        }
    }
}
