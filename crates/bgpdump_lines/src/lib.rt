//! Formats MRT files (RFC 6396) as lines of text: one line for each route, withdrawal and state change,
//! and one report for each faulty record. [`run_dump`] is a whole execution of `bgpdump -m`; the other
//! functions write parts of it for programs that read records themselves. Read `dump.rt` first, then
//! `write.rt`.
#![tactic(auto)]

mod cached_line;
mod dump;
mod event_lines;
mod example_laws;
mod fault;
mod fields;
mod heading;
mod laws;
mod line_cache;
mod outcome;
mod output;
mod reports;
mod route_line;
mod table_lines;
mod write;

pub use dump::{INPUT_LIMIT, run_dump};
pub use event_lines::put_lines;
pub use example_laws::{
    law_example_as4_path, law_example_cut_record, law_example_faulty_records,
    law_example_ipv6_update, law_example_microseconds, law_example_old_table,
    law_example_state_change, law_example_table, law_example_too_long, law_example_update,
};
pub use fault::WriteFault;
pub use fields::{put_peer_fields, put_u64_field};
pub use laws::law_line_constants;
pub use outcome::Outcome;
pub use output::{
    BufferedOutput, OutFault, Output, WriteOutput, finish_outputs, flush_before_waiting, put_all,
};
pub use write::{write_report, write_rib_line, write_rib_lines};
