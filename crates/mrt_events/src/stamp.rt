//! The choice of the time that the routes of routing tables get: when the table was dumped, or when
//! the route last changed. A user of `mrt_wire` passes one to its source; the program takes it from
//! its option `-t`.

/// The choice of the time that a route of a dumped routing table gets
/// ([`Route::time`](crate::Route)): the timestamp of its record, of type TABLE_DUMP or
/// TABLE_DUMP_V2, or the Originated Time of its entry in the record.
#[derive(Clone, Copy, Debug, PartialEq, Eq)]
pub enum Stamp {
    /// The timestamp of the record: about when the table was dumped.
    Dump,
    /// The Originated Time in the entry: when the route last changed (RFC 6396, sections 4.2 and
    /// 4.3.4).
    Change,
}
