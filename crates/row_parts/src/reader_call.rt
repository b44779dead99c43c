//! The calls that need neither a player nor a store.

use crate::answer::Answer;
use crate::call::IsCall;
use crate::devices::{Devices, put_calls, put_calls_by};
use crate::dumped::{dump, dump_by};
use crate::events::put_events;
use crate::printed::put_printed;
use crate::routes::{Keeping, put_routes, put_shared, put_shared_of_all};
use crate::row::Row;
use crate::settings::put_settings;
use bgp_wire::AsWidth;
use ip_prefix::Family;
use mrt_wire::Stamp;
use row_values::{
    Again, Shown, put_again, put_entry, put_joined, put_message, put_parts, put_segment_count,
    put_segments, put_summary, put_values,
};
use std::alloc::{AllocError, Global};

/// A call that needs neither a player nor a store.
#[derive(Clone, Copy)]
pub enum ReaderCall {
    /// The lines of a dump.
    Dump(Stamp),
    /// What a source answers.
    Events(Stamp),
    /// The lines of what a source answers, each event's by a call of its own.
    Printed,
    /// What a source answers to four calls, and how many octets it took then.
    Calls,
    /// The routes that a source announces, where its answers are kept so long.
    Routes(Keeping),
    /// Which items of events share a route.
    Shared,
    /// The same of all events together, while all are held.
    SharedOfAll,
    /// What the attributes of a table's entry say.
    Entry(Family, AsWidth),
    /// What the attributes of a message say.
    Message(AsWidth),
    /// The prefixes and next hops of a message.
    Summary(AsWidth),
    /// The segments of a path.
    Segments(AsWidth),
    /// What lists of attributes say, each read in place of the one before, or copied over it.
    Again(Again),
    /// What messages say, each read in place of the one before.
    Parts,
    /// Two paths that are joined.
    Join,
    /// How many segments they have then.
    JoinApart,
    /// What calls on values answer.
    Values,
    /// What command lines ask for.
    Settings,
}

/// The time of a table's entries: that of the dump, and that at which their routes originated.
const DUMP: Stamp = Stamp::Dump;

const CHANGE: Stamp = Stamp::Change;

/// AS numbers of either width.
const TWO: AsWidth = AsWidth::Two;

const FOUR: AsWidth = AsWidth::Four;

/// Either address family.
const V4: Family = Family::V4;

const V6: Family = Family::V6;

/// The words that rows begin with, and what is called for them: each of these calls has to answer
/// what the row wants.
const READER_CALLS: &[(&str, &[ReaderCall])] = &[
    ("dump", &[ReaderCall::Dump(DUMP)]),
    ("dump change", &[ReaderCall::Dump(CHANGE)]),
    ("events", &[ReaderCall::Events(DUMP)]),
    ("events change", &[ReaderCall::Events(CHANGE)]),
    ("printed", &[ReaderCall::Printed]),
    ("calls", &[ReaderCall::Calls]),
    (
        "routes",
        &[
            ReaderCall::Routes(Keeping::Dropped),
            ReaderCall::Routes(Keeping::Back),
            ReaderCall::Routes(Keeping::Held(1)),
            ReaderCall::Routes(Keeping::Held(2)),
            ReaderCall::Routes(Keeping::Whole),
        ],
    ),
    ("shared", &[ReaderCall::Shared]),
    ("shared whole", &[ReaderCall::SharedOfAll]),
    ("entry v4 two", &[ReaderCall::Entry(V4, TWO)]),
    ("entry v4 four", &[ReaderCall::Entry(V4, FOUR)]),
    ("entry v6 four", &[ReaderCall::Entry(V6, FOUR)]),
    (
        "entry v4",
        &[ReaderCall::Entry(V4, TWO), ReaderCall::Entry(V4, FOUR)],
    ),
    (
        "entry v6",
        &[ReaderCall::Entry(V6, TWO), ReaderCall::Entry(V6, FOUR)],
    ),
    (
        "entry two",
        &[ReaderCall::Entry(V4, TWO), ReaderCall::Entry(V6, TWO)],
    ),
    (
        "entry four",
        &[ReaderCall::Entry(V4, FOUR), ReaderCall::Entry(V6, FOUR)],
    ),
    ("message two", &[ReaderCall::Message(TWO)]),
    ("message four", &[ReaderCall::Message(FOUR)]),
    ("summary two", &[ReaderCall::Summary(TWO)]),
    ("summary four", &[ReaderCall::Summary(FOUR)]),
    ("segments two", &[ReaderCall::Segments(TWO)]),
    ("segments four", &[ReaderCall::Segments(FOUR)]),
    (
        "again",
        &[
            ReaderCall::Again(Again::Read),
            ReaderCall::Again(Again::Copied),
        ],
    ),
    ("parts", &[ReaderCall::Parts]),
    ("join", &[ReaderCall::Join]),
    ("join apart", &[ReaderCall::JoinApart]),
    ("values", &[ReaderCall::Values]),
    ("settings", &[ReaderCall::Settings]),
];

/// What is called for these words, where they name such calls.
pub fn reader_calls(words: &str) -> Option<&'static [ReaderCall]> {
    for (name, calls) in READER_CALLS {
        if *name == words {
            return Some(calls);
        }
    }
    None
}

impl IsCall for ReaderCall {
    fn answer(&self, alloc: Global, octets: &[u8], row: &Row) -> Result<Answer, AllocError> {
        match self {
            ReaderCall::Dump(stamp) => dump(alloc, *stamp, octets, row),
            _ => {
                let mut text = Shown::new(alloc);
                (*self).put(alloc, octets, &row.script, &mut text);
                Answer::written(alloc, text)
            }
        }
    }

    fn answer_by(
        &self,
        alloc: Global,
        devices: Devices,
        octets: &[u8],
        row: &Row,
    ) -> Result<Answer, AllocError> {
        match self {
            ReaderCall::Dump(stamp) => dump_by(alloc, devices, *stamp, octets),
            ReaderCall::Calls => {
                let mut text = Shown::new(alloc);
                put_calls_by(alloc, devices, octets, &mut text);
                Answer::written(alloc, text)
            }
            _ => self.answer(alloc, octets, row),
        }
    }
}

impl ReaderCall {
    /// Appends what a call answers that is no run.
    fn put(self, alloc: Global, octets: &[u8], script: &[u8], text: &mut Shown) {
        match self {
            ReaderCall::Events(stamp) => put_events(alloc, stamp, octets, text),
            ReaderCall::Entry(family, width) => put_entry(alloc, family, width, octets, text),
            ReaderCall::Message(width) => put_message(alloc, width, octets, text),
            ReaderCall::Summary(width) => put_summary(alloc, width, octets, text),
            ReaderCall::Printed => put_printed(alloc, octets, text),
            ReaderCall::Calls => put_calls(alloc, octets, text),
            ReaderCall::Routes(keeping) => put_routes(alloc, keeping, octets, text),
            ReaderCall::Shared => put_shared(alloc, octets, text),
            ReaderCall::SharedOfAll => put_shared_of_all(alloc, octets, text),
            ReaderCall::Segments(width) => put_segments(alloc, width, octets, text),
            ReaderCall::Again(again) => put_again(alloc, again, octets, text),
            ReaderCall::Parts => put_parts(alloc, octets, text),
            ReaderCall::Join => put_joined(alloc, script, text),
            ReaderCall::JoinApart => put_segment_count(alloc, script, text),
            ReaderCall::Values => put_values(alloc, script, text),
            ReaderCall::Settings => put_settings(alloc, script, text),
            ReaderCall::Dump(_) => {}
        }
    }
}
