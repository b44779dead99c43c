//! What [`Source::next`](crate::Source::next), the reader of the next MRT record, returns, and the
//! phases of a source. Callers match on [`Next`]; contracts of `source.rt` name [`Phase`]. Read
//! [`Next`] first.

use mrt_events::Event;
use mrt_frames::RecordFault;

/// The result of reading the next MRT record with [`Source::next`](crate::Source::next): the event
/// of a sound record, the fault of one that was skipped, or the end of the input. After a fault
/// reading can go on.
#[derive(Debug, Drop)]
pub enum Next {
    /// The event of an accepted record: its time, its type, and what it says of peers and routes.
    Event(Event),
    /// A fault of a record that was skipped, with the number of the record and the offset of its
    /// header. The source reads on after it, unless the record is cut or too long.
    Bad(RecordFault),
    /// The end of the input, or of what can be read of it: the source reads no more records.
    End,
}

/// The phase of a [`Source`](crate::Source), a reader of MRT records: it still reads its input, has
/// met the end, or has returned an error.
#[derive(Clone, Copy, Debug, PartialEq, Eq)]
pub enum Phase {
    /// The source reads its input: the next call of [`Source::next`](crate::Source::next) reads a
    /// record.
    Reading,
    /// The source has met the end of its input, a record that is cut there, or a header that states
    /// a length above 16,777,216 octets. [`Source::next`](crate::Source::next) returns
    /// [`Next::End`] from now on.
    Ended,
    /// The source has returned an error. [`Source::next`](crate::Source::next) fails with
    /// `SourceFault::Spent` from now on.
    Spent,
}
