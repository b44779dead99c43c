//! Files of rows. A line that begins with no mark begins a row: what is called, a colon, and what the
//! row shows. Lines behind it have a mark and a space in front (`row_parts/src/row.rt`).
//!
//! A line `NAME = ..` has a name stand for octets; a line behind it that begins with spaces goes on
//! with them. `#` begins a comment.

use crate::call::player_calls;
use row_parts::{Row, Tally, carry_out, reader_calls};
use row_values::{Names, Spelled};
use std::alloc::Global;

/// What the lines read so far have begun.
#[derive(Drop)]
enum Begun<'a> {
    /// Nothing.
    Nothing,
    /// A name.
    Name(&'a str, Spelled),
    /// A row, behind the words that name its calls.
    Row(&'a str, Row),
}

/// Carries out the rows of a text.
pub fn read_rows(alloc: Global, text: &str, names: &mut Names, tally: &mut Tally<'_>) {
    let mut begun = Begun::Nothing;
    let mut number = 0u32;
    for line in text.lines() {
        number = number.saturating_add(1);
        let is_read = line.trim().is_empty() || line.starts_with("#");
        if !is_read && !read_further(&mut begun, line, number, names, tally) {
            end(alloc, &begun, names, tally);
            begun = begin(alloc, line, number, names, tally);
        }
    }
    end(alloc, &begun, names, tally);
}

/// Reads a line that goes on with what was begun, and answers whether it is one.
fn read_further(
    begun: &mut Begun<'_>,
    line: &str,
    number: u32,
    names: &Names,
    tally: &mut Tally<'_>,
) -> bool {
    let goes_on = match begun {
        Begun::Nothing => false,
        Begun::Name(_, _) => line.starts_with(" "),
        Begun::Row(_, _) => Row::has_mark(line),
    };
    if goes_on && !read_part_of(begun, line, names) {
        tally.deny(number, "it can't be read");
    }
    goes_on
}

/// Reads a line that goes on with what was begun, and answers whether it can be read.
fn read_part_of(begun: &mut Begun<'_>, line: &str, names: &Names) -> bool {
    match begun {
        Begun::Nothing => false,
        Begun::Name(_, octets) => octets.put_words(names, line),
        Begun::Row(_, row) => row.read(names, line),
    }
}

/// Whether the words name calls.
fn name_calls(words: &str) -> bool {
    reader_calls(words).is_some() || player_calls(words).is_some()
}

/// Begins a row or a name.
fn begin<'a>(
    alloc: Global,
    line: &'a str,
    number: u32,
    names: &Names,
    tally: &mut Tally<'_>,
) -> Begun<'a> {
    let (words, _) = line.split_once(": ").unwrap_or(("", ""));
    if name_calls(words) {
        return Begun::Row(words, Row::new(alloc, number));
    }
    let Some((name, words)) = line.split_once(" = ") else {
        tally.deny(number, "it names no call");
        return Begun::Nothing;
    };
    let mut octets = Spelled::new(alloc);
    if !octets.put_words(names, words) {
        tally.deny(number, "it spells no octets");
    }
    Begun::Name(name, octets)
}

/// Ends what was begun: a name stands for its octets from here, and a row is carried out.
fn end(alloc: Global, begun: &Begun<'_>, names: &mut Names, tally: &mut Tally<'_>) {
    match begun {
        Begun::Nothing => {}
        Begun::Name(name, octets) => end_name(alloc, name, octets, names, tally),
        Begun::Row(words, row) => end_row(alloc, words, row, names, tally),
    }
}

/// Has a name stand for octets.
fn end_name(alloc: Global, name: &str, octets: &Spelled, names: &mut Names, tally: &mut Tally<'_>) {
    let is_put = match octets.whole() {
        Some(octets) => names.put(alloc, name, octets).is_ok(),
        None => false,
    };
    if !is_put {
        tally.deny(0, "a name has a group without an end");
    }
}

/// Carries out a row by the calls that the words name.
fn end_row(alloc: Global, words: &str, row: &Row, names: &Names, tally: &mut Tally<'_>) {
    if let Some(calls) = reader_calls(words) {
        carry_out(alloc, calls, row, names, tally);
    }
    if let Some(calls) = player_calls(words) {
        carry_out(alloc, calls, row, names, tally);
    }
}
