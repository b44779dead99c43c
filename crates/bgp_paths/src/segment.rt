//! Segments of AS paths (RFC 4271, section 4.3; RFC 5065, section 3). `path_reader.rt` parses them,
//! and `text.rt` formats them as text. Read [`Segment`] first.

ghost use Rattle.std.specs.Prelude.{◌≡◌, []};

use crate::as_numbers::AsNumbers;

/// Whether a segment of an AS path is ordered, and whether its ASes are members of a confederation
/// (RFC 4271, section 4.3; RFC 5065, section 3).
#[derive(Clone, Copy, Debug, PartialEq, Eq)]
pub enum SegmentKind {
    /// AS_SET: the AS numbers are in no order.
    AsSet,
    /// AS_SEQUENCE: the AS numbers are in order, the one passed through last first.
    AsSequence,
    /// AS_CONFED_SEQUENCE: AS numbers of members of a confederation, in order, the one passed
    /// through last first.
    ConfedSequence,
    /// AS_CONFED_SET: AS numbers of members of a confederation, in no order.
    ConfedSet,
}

/// A segment of an AS path: its AS numbers, and whether they are a sequence or a set, of ASes or of
/// members of a confederation (RFC 4271, section 4.3; RFC 5065, section 3).
#[derive(Clone, Debug, Drop)]
pub struct Segment {
    /// The AS numbers of the segment, in the order in which they are sent, for sets too.
    pub numbers: AsNumbers,
    /// Whether the AS numbers are a sequence or a set, of ASes or of members of a confederation.
    pub kind: SegmentKind,
}

impl Segment {
    /// Returns a sequence without AS numbers, without allocating memory. A segment can be parsed
    /// into it.
    #[inline]
    pub(crate) fn empty() -> Segment
        ensures { result ≡ record { numbers = []; kind = SegmentKind.AsSequence } }
    {
        Segment {
            numbers: AsNumbers::empty(),
            kind: SegmentKind::AsSequence,
        }
    }
}
