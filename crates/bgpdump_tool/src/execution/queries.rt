//! The commands that print parts of the player's routing table: `peers`, `table`, `route` and
//! `lookup`. `execute_command` calls these functions. Each fails if `out` or memory allocation
//! fails; some of the first octets of its reply may be written then.

ghost use Rattle.std.specs.Prelude.{◌≡◌, ◌||◌};
ghost use Rattle.bgpdump_lines.specs.WrittenSoFar.{Puts, PutsAllOrFront, is_output_fault};
ghost use Rattle.bgpdump_tool.specs.Counts.{peer_counts_text};
ghost use Rattle.bgpdump_tool.specs.Replies.{longest_match, found_text, peer_line_of, peers_text, route_text, table_text};

use crate::replies::{write_labelled_numbers, write_none};
use bgpdump_lines::{
    Output, WriteFault, put_all, put_peer_fields, put_u64_field, write_rib_line, write_rib_lines,
};
use ip_prefix::{Addr, Prefix, Text};
use mrt_wire::{Peer, Route};
use prefix_store::PrefixStore;
use rib_player::Table;
use std::alloc::Global;
use std::collections::BTreeMap;
use std::rc::Rc;

/// The number of routes, 64, that are fetched from a table at a time, so that a large one isn't
/// copied at once.
const MANY: usize = 64;

/// Executes the command `peers`: writes to `out` a line for each peer that has a route in `table`,
/// with the number of its routes, such as `PEER|192.0.2.1|65000|12`, or `none` if there is no such
/// peer. Overwrites `text`, a buffer. Fails if memory allocation or `out` fails; some of the
/// reply's first octets may have been written then.
pub(crate) fn peers<S: PrefixStore<Rc<Route>>, O: Output>(
    table: &Table<S>,
    out: &mut O,
    text: &mut Text,
) -> Result<(), WriteFault>
    ensures text { PutsAllOrFront (O.written out.old) (O.written out.new)
        (peers_text table.now.routes)
        result }
    ensures failed { O.failed out.new ≡ (O.failed out.old || is_output_fault result) }
{
    match table.routed_peers_if_few()? {
        Some(counts) => write_peer_counts(&counts, out, text),
        None => write_each_peer(table, out, text),
    }
}

/// Writes the reply to the command `peers` to `out`, where `counts` maps all peers that have a
/// route to their numbers of routes: a line for each, such as `PEER|192.0.2.1|65000|12`, or `none`
/// if there are none. Overwrites `text`, a buffer. Fails if memory allocation or `out` fails; some
/// of the reply's first octets may have been written then.
fn write_peer_counts<O: Output>(
    counts: &BTreeMap<Peer, u64>,
    out: &mut O,
    text: &mut Text,
) -> Result<(), WriteFault>
    ensures text { PutsAllOrFront (O.written out.old) (O.written out.new)
        (peer_counts_text counts.now.entries)
        result }
    ensures failed { O.failed out.new ≡ (O.failed out.old || is_output_fault result) }
{
    if counts.is_empty() {
        return write_none(out);
    }
    'peers: for (peer, routes) in counts.iter() {
        write_peer_line(peer, *routes, out, text)?;
    }
    Ok(())
}

/// Writes to `out` a line for each peer that has a route in `table`, with the number of its routes,
/// such as `PEER|192.0.2.1|65000|12`, or `none` if there is no such peer. Looks the peers up one
/// after another, so that it needs no memory for all of them. Overwrites `text`, a buffer. Fails if
/// memory allocation or `out` fails; some of the reply's first octets may have been written then.
fn write_each_peer<S: PrefixStore<Rc<Route>>, O: Output>(
    table: &Table<S>,
    out: &mut O,
    text: &mut Text,
) -> Result<(), WriteFault>
    ensures text { PutsAllOrFront (O.written out.old) (O.written out.new)
        (peers_text table.now.routes)
        result }
    ensures failed { O.failed out.new ≡ (O.failed out.old || is_output_fault result) }
{
    let mut last = None;
    'peers: while let Some(found) = table.peer_after(last.as_ref()) {
        write_peer_line(&found.0, found.1, out, text)?;
        last = Some(found.0);
    }
    if last.is_none() {
        write_none(out)?;
    }
    Ok(())
}

/// Writes the line of a peer with its number of `routes` to `out`, such as
/// `PEER|192.0.2.1|65000|12`. Overwrites `text`, a buffer. If memory allocation fails, nothing is
/// written; if `out` fails, some of the line's first octets may have been written.
fn write_peer_line<O: Output>(
    peer: &Peer,
    routes: u64,
    out: &mut O,
    text: &mut Text,
) -> Result<(), WriteFault>
    ensures text { Puts (O.written out.old) (O.written out.new) (peer_line_of peer.now routes)
        result }
    ensures failed { O.failed out.new ≡ (O.failed out.old || is_output_fault result) }
{
    text.clear();
    text.extend_from_slice(b"PEER")?;
    put_peer_fields(peer, text)?;
    put_u64_field(routes, text)?;
    text.push(b'\n')?;
    put_all(out, text.as_slice())?;
    Ok(())
}

/// Executes the command `table`: writes all routes of `peer` to `out`, each on a line that begins
/// with `RIB`, in the order of their prefixes, and then their number, such as `routes 12`. A peer
/// without routes gets `routes 0`. Overwrites `text`, a buffer. Fails if memory allocation or `out`
/// fails; some of the reply's first octets may have been written then.
pub(crate) fn table<S: PrefixStore<Rc<Route>>, O: Output>(
    table: &Table<S>,
    alloc: Global,
    peer: &Peer,
    out: &mut O,
    text: &mut Text,
) -> Result<(), WriteFault>
    ensures text { PutsAllOrFront (O.written out.old) (O.written out.new)
        (table_text table.now.routes peer.now) result }
    ensures failed { O.failed out.new ≡ (O.failed out.old || is_output_fault result) }
{
    let mut found = Vec::with_capacity(alloc, MANY)?;
    let mut passed = None;
    let mut count: u64 = 0;
    'routes: loop {
        table.next_routes(peer, passed.as_ref(), &mut found);
        let Some(end) = found.last() else {
            break;
        };
        passed = Some(end.0);
        write_rib_lines(out, peer, &found, text)?;
        count = count.saturating_add(found.len() as u64);
    }
    write_labelled_numbers(&[(b"routes ", count)], b"\n", out, text)
}

/// Writes to `out` the route of `peer` to `prefix`, or `none` if it has none. Overwrites `text`.
/// This executes the command `route`. The route is written on a line that begins with `RIB`, for
/// which `text` is a buffer. Fails if memory allocation or `out` fails; some of the reply's first
/// octets may have been written then.
pub(crate) fn route<S: PrefixStore<Rc<Route>>, O: Output>(
    table: &Table<S>,
    peer: &Peer,
    prefix: &Prefix,
    out: &mut O,
    text: &mut Text,
) -> Result<(), WriteFault>
    ensures text { Puts (O.written out.old) (O.written out.new)
        (route_text table.now.routes peer.now prefix.now) result }
    ensures failed { O.failed out.new ≡ (O.failed out.old || is_output_fault result) }
{
    match table.get(peer, prefix) {
        Some(route) => write_rib_line(out, peer, prefix, route, text),
        None => write_none(out),
    }
}

/// Executes the command `lookup`: writes to `out` the route of `peer` to the longest prefix that
/// contains `addr`, on a line that begins with `RIB`, or `none` if the peer has no route to a
/// prefix that contains it. Overwrites `text`, a buffer. Fails if memory allocation or `out` fails;
/// some of the reply's first octets may have been written then.
pub(crate) fn lookup<S: PrefixStore<Rc<Route>>, O: Output>(
    table: &Table<S>,
    peer: &Peer,
    addr: &Addr,
    out: &mut O,
    text: &mut Text,
) -> Result<(), WriteFault>
    ensures text { Puts (O.written out.old) (O.written out.new)
        (found_text peer.now (longest_match table.now.routes peer.now addr.now)) result }
    ensures failed { O.failed out.new ≡ (O.failed out.old || is_output_fault result) }
{
    match table.longest(peer, addr) {
        Some(found) => write_rib_line(out, peer, &found.0, found.1, text),
        None => write_none(out),
    }
}
