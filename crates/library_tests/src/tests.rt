mod adapters;
mod command_lines;
mod event_lines;
mod events;
mod faults;
mod sources;
mod waiting_lines;

/// The line of `STATE_CHANGE`.
const LINE: &str = "BGP4MP|100|STATE|192.0.2.1|64500|6|1\n";
