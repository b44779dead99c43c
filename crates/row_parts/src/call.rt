//! Calls that rows make, and whether they answer what rows want.

use crate::answer::Answer;
use crate::devices::Devices;
use crate::row::Row;
use crate::tally::Tally;
use row_values::{Names, Spelled};
use std::alloc::{AllocError, Global};

/// A call that a row makes.
pub trait IsCall {
    /// What the call answers over these octets, with the script of the row.
    fn answer(&self, alloc: Global, octets: &[u8], row: &Row) -> Result<Answer, AllocError>;

    /// The same over these devices, where it is a call that takes any.
    fn answer_by(
        &self,
        alloc: Global,
        devices: Devices,
        octets: &[u8],
        row: &Row,
    ) -> Result<Answer, AllocError>;
}

/// Makes these calls of a row, over each front of its octets where it has these, and counts whether
/// each answers what the row wants.
pub fn carry_out<C: IsCall>(
    alloc: Global,
    calls: &[C],
    row: &Row,
    names: &Names,
    tally: &mut Tally<'_>,
) {
    let agrees = if row.input.fronts() == 0 {
        agrees_over(alloc, calls, row, &row.input, tally)
    } else {
        agrees_over_fronts(alloc, calls, row, names, tally)
    };
    if agrees {
        tally.allow();
    }
}

/// Makes calls over each front of the octets of a row, and answers whether none differs.
fn agrees_over_fronts<C: IsCall>(
    alloc: Global,
    calls: &[C],
    row: &Row,
    names: &Names,
    tally: &mut Tally<'_>,
) -> bool {
    for size in 0..row.input.fronts() {
        let mut cut = Spelled::cut(alloc, size);
        if !cut.put_words(names, row.words.as_str())
            || !agrees_over(alloc, calls, row, &cut, tally)
        {
            return false;
        }
    }
    true
}

/// Makes calls over these octets, and answers whether none differs from what the row wants.
fn agrees_over<C: IsCall>(
    alloc: Global,
    calls: &[C],
    row: &Row,
    input: &Spelled,
    tally: &mut Tally<'_>,
) -> bool {
    let Some(octets) = input.whole() else {
        tally.deny(row.line, "its input has a group without an end");
        return false;
    };
    for call in calls {
        if !agrees(alloc, call, row, octets, tally) {
            return false;
        }
    }
    true
}

/// Makes a call of a row, with each of its devices where it has these.
fn agrees<C: IsCall>(
    alloc: Global,
    call: &C,
    row: &Row,
    octets: &[u8],
    tally: &mut Tally<'_>,
) -> bool {
    if row.devices.is_empty() {
        return judge(row, &call.answer(alloc, octets, row), tally);
    }
    for devices in row.devices.iter() {
        if !judge(row, &call.answer_by(alloc, *devices, octets, row), tally) {
            return false;
        }
    }
    true
}

/// Answers whether an answer is what the row wants, or what it wants where memory is refused, and
/// else counts that it differs.
fn judge(row: &Row, answer: &Result<Answer, AllocError>, tally: &mut Tally<'_>) -> bool {
    let Ok(answer) = answer else {
        tally.deny(row.line, "there is no memory for what it writes");
        return false;
    };
    let Some(why) = row.difference(answer) else {
        return true;
    };
    if row.is_refusal(answer) {
        tally.note_refusal();
        return true;
    }
    tally.deny_row(row, answer, why);
    false
}
