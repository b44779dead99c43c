//! Filling buffers from an input, without reading more than a limit of octets in all. `frames.rt`
//! reads headers and bodies of records with these functions. Read [`fill_within`] first.

ghost use Rattle.std.specs.Prelude.{◌≡◌, ◌≤◌, ◌<◌, ◌+◌, ◌-◌, ◌*◌, ◌||◌, false, IfOk, length, max, take, drop, vec_len};
ghost use Rattle.mrt_frames.specs.Taken.{FillsBuffered, FillsWithinLimit, is_err_read, source_answer};

use crate::fault::{SourceFault, TakeFault};
use crate::header::LONGEST_BODY;
use crate::input::Input;
use std::ops::Range;

/// The number of octets by which a full buffer grows as long as it has no more than these. A longer
/// one is doubled.
const FIRST_GROWTH: usize = 4096;

/// Fills `buffer` from `input`, and returns the number of octets filled, which is less than the
/// length of `buffer` only at the end of the input. `taken` is the number of octets read from the
/// input so far, and grows by those read here, on error too; `limit` is the most that it may
/// become. Fails with `PastLimit` if `taken` reaches `limit` before `buffer` is full, or with
/// `InputFailed` if a read fails; `buffer` is then partly filled. Requires `taken <= limit`.
#[inline(always)]
pub(crate) fn fill_within<I: Input>(
    input: &mut I,
    buffer: &mut [u8],
    taken: &mut u64,
    limit: u64,
) -> Result<usize, TakeFault>
    requires room { taken.old ≤ limit }
    ensures octets { FillsWithinLimit (I.left input.old) (I.left input.new) taken.old taken.new
        buffer.new (length buffer.new) limit (source_answer result) }
    ensures failed { I.failed input.new
        ≡ (I.failed input.old || is_err_read (source_answer result)) }
    ensures buffered { FillsBuffered (I.buffered input.old) (I.buffered input.new)
        buffer.new (length buffer.new) (source_answer result) }
{
    // The input isn't asked for its end when the limit is met. It may have ended there, and
    // `PastLimit` is returned all the same.
    let end = (limit - *taken).min(buffer.len() as u64) as usize;
    let mut filled = 0;
    while filled < end {
        let count = input.take(&mut buffer[filled..end])?;
        if count == 0 {
            return Ok(filled);
        }
        filled += count;
        *taken += count as u64;
    }
    if end < buffer.len() {
        return Err(TakeFault::PastLimit);
    }
    Ok(filled)
}

/// Returns the exclusive end of the part of a buffer that is to be filled next, as a body of `size`
/// octets is read into it. The buffer has `held` octets, of which the first `filled` are filled.
/// The end is `held`, or, if all of these are filled, a greater length, to which the buffer is to
/// grow; it is at most `size`. Requires that `filled` is below `size`, and that `size` is at most
/// [`LONGEST_BODY`].
fn next_fill_end(held: usize, filled: usize, size: usize) -> usize
    requires unfinished { filled < size }
    requires small { size ≤ LONGEST_BODY }
    ensures further { filled < result }
    ensures within { result ≤ size }
    ensures growth { result ≤ max held (2 * filled + FIRST_GROWTH) }
{
    let end = if filled < held {
        held
    } else {
        filled + filled.max(FIRST_GROWTH)
    };
    end.min(size)
}

/// Fills the octets of `buffer` at the indices `part` from `input`, and returns the number of
/// octets filled, which is less than the length of `part` only at the end of the input. `taken` is
/// the number of octets read from the input so far, and grows by those read here, on error too;
/// `limit` is the most that it may become. Fails with `PastLimit` if `taken` reaches `limit` before
/// the part is full, or with `InputFailed` if a read fails; the part is then partly filled. The
/// octets outside of the part are unchanged. Requires `taken <= limit`, and that `part` is within
/// `buffer`.
pub(crate) fn fill_part<I: Input>(
    input: &mut I,
    buffer: &mut Vec<u8>,
    part: Range<usize>,
    taken: &mut u64,
    limit: u64,
) -> Result<usize, TakeFault>
    requires ahead { part.start ≤ part.end }
    requires within { part.end ≤ vec_len buffer.old }
    requires room { taken.old ≤ limit }
    ensures kept { take part.start buffer.new.items ≡ take part.start buffer.old.items }
    ensures size { vec_len buffer.new ≡ vec_len buffer.old }
    ensures octets { FillsWithinLimit (I.left input.old) (I.left input.new) taken.old taken.new
        (drop part.start buffer.new.items) (part.end - part.start) limit (source_answer result) }
    ensures failed { I.failed input.new
        ≡ (I.failed input.old || is_err_read (source_answer result)) }
    ensures buffered { FillsBuffered (I.buffered input.old) (I.buffered input.new)
        (drop part.start buffer.new.items) (part.end - part.start) (source_answer result) }
{
    fill_within(input, &mut buffer[part], taken, limit)
}

/// Reads a body of `size` octets into the start of `buffer`, and returns the number of octets read,
/// which is less than `size` only at the end of the input. `taken` is the number of octets read
/// from the input so far, and grows by those read here, on error too; `limit` is the most that it
/// may become. A `buffer` shorter than `size` grows to at most twice the octets read plus 4,096, so
/// that a header that states a length which the input doesn't have allocates little. Fails with
/// `InputTooLong` if `taken` reaches `limit` before the body is read, with `Read` if a read fails,
/// and with `Memory` if memory allocation fails; `buffer` is then unspecified. Requires that `size`
/// is at most [`LONGEST_BODY`], and `taken <= limit`.
#[inline(never)]
pub(crate) fn fill_body<I: Input>(
    input: &mut I,
    buffer: &mut Vec<u8>,
    size: usize,
    taken: &mut u64,
    limit: u64,
) -> Result<usize, SourceFault>
    requires small { size ≤ LONGEST_BODY }
    requires room { taken.old ≤ limit }
    ensures octets { FillsWithinLimit (I.left input.old) (I.left input.new) taken.old taken.new
        buffer.new.items size limit result }
    ensures held { IfOk result (λ count. count ≤ vec_len buffer.new) }
    ensures growth { IfOk result (λ count.
        vec_len buffer.new ≤ max (vec_len buffer.old) (2 * count + FIRST_GROWTH)) }
    ensures failed { I.failed input.new ≡ (I.failed input.old || is_err_read result) }
    ensures buffered { size ≤ length (I.buffered input.old) → is_err_read result ≡ false }
{
    // Out of line, since few bodies are longer than all before.
    let mut filled = 0;
    while filled < size {
        let end = next_fill_end(buffer.len(), filled, size);
        buffer.resize(end, 0)?;
        filled += fill_part(input, buffer, filled..end, taken, limit)?;
        if filled < end {
            break;
        }
    }
    Ok(filled)
}
