//! A growable text of octets. The crates that print AS paths, lines and replies append to it. Read
//! [`Text`] first, then [`make_room`], which all appends call.

ghost use Rattle.std.specs.Prelude.{◌≡◌, ◌+◌, ◌-◌, ◌*◌, ◌<◌, ◌≤◌, ◌++◌, ◌∷◌, [], OnOk, OnErr, length, map, take, drop, slice_range, decimal};
ghost use Rattle.octet_text.specs.Written.{IsWritten, ended_words};

use crate::cursor::{
    DECIMAL_ROOM, ENDED_ROOM, WORD_ROOM, WordFormat, WriteTextAt, copy_octets_at, write_decimal,
    write_ended_decimal,
};
use itoa::Buffer;
use std::alloc::{AllocError, Global};
use std::marker::Model;
use std::mem;

/// The least number of octets by which a buffer that has just grown is longer than its text. An
/// append of more octets than these grows the buffer by as many as it needs.
const LEAST_ROOM: usize = 512;

/// The size of a buffer, in octets, up to which [`Text::clear`] keeps it for the next text. A
/// larger buffer is freed, so that one long text doesn't occupy memory from then on.
const MOST_KEPT: usize = 1 << 18;

/// The number of octets that [`Text::extend_from_within`] copies at once if the part has no more. A
/// fixed number takes a few instructions, and another one a call. The octets after the part are
/// copied too, as far as they are needed to fill the number, but aren't in the text.
const CHUNK: usize = 32;

/// A growable string of octets, not necessarily UTF-8. Unlike `Vec<u8>`, it formats numbers right
/// in its spare capacity. Each method that appends returns `AllocError` if memory allocation fails.
/// In contracts, its value is the list of its octets; the capacity doesn't show.
#[derive(Drop)]
pub struct Text {
    // The text is its first `len` octets. Those after it are unspecified; appends overwrite them.
    buffer: Vec<u8>,
    len: usize,
}

impl Model for Text {
    ghost use Rattle.std.specs.Prelude.{ℕ, List, ◌≤◌, length, take};

    ghost Value = { List ℕ };

    ghost view = { λ text. take text.len text.buffer.items };

    ghost invariant = { λ text. text.len ≤ length text.buffer.items };
}

impl Text {
    /// Returns an empty text, without allocating memory. It allocates with `alloc` when octets are
    /// appended.
    pub fn new(alloc: Global) -> Self
        ensures { result ≡ [] }
    {
        Text {
            buffer: Vec::new(alloc),
            len: 0,
        }
    }

    /// Moves the octets of `octets` into a new text, without copying them, and leaves `octets`
    /// empty, without capacity. The text goes on using the allocator of `octets`.
    #[inline]
    pub fn taken_from(octets: &mut Vec<u8>) -> Self
        ensures taken { result ≡ octets.old.items }
        ensures left { octets.new.items ≡ [] }
    {
        let len = octets.len();
        let none = Vec::new(*octets.allocator());
        Text {
            buffer: mem::replace(octets, none),
            len,
        }
    }

    /// Converts the text into a vector of its octets, without copying them. The vector may have
    /// spare capacity.
    #[inline]
    pub fn into_vec(self) -> Vec<u8>
        ensures { result.items ≡ self }
    {
        let Text { mut buffer, len } = self;
        buffer.truncate(len);
        buffer
    }

    /// Returns the length of the text, in octets.
    #[inline]
    pub fn len(&self) -> usize
        ensures { result ≡ length self.now }
    {
        self.as_slice().len()
    }

    /// Returns the octets of the text as a slice, from first to last.
    #[inline]
    pub fn as_slice(&self) -> &[u8]
        ensures { result.now ≡ self.now }
    {
        &self.buffer[..self.len]
    }

    /// Shortens the text to its first `len` octets, and keeps its memory. A text of no more than
    /// `len` octets is unchanged.
    #[inline]
    pub fn truncate(&mut self, len: usize)
        ensures { self.new ≡ take len self.old }
    {
        self.len = self.len.min(len);
    }

    /// Removes all octets from the text. Its memory is kept for the next octets, or freed as a
    /// whole if it is more than 2^18 octets.
    #[inline]
    pub fn clear(&mut self)
        ensures { self.new ≡ [] }
    {
        self.len = 0;
        if self.buffer.len() > MOST_KEPT {
            self.buffer = Vec::new(*self.buffer.allocator());
        }
    }

    /// Appends the one octet `octet`. Returns `AllocError` if memory allocation fails; the text is
    /// unchanged then.
    #[inline]
    pub fn push(&mut self, octet: u8) -> Result<(), AllocError>
        ensures appended { OnOk result (self.new ≡ self.old ++ octet ∷ []) }
        ensures unchanged { OnErr result (self.new ≡ self.old) }
    {
        let at = self.len;
        make_room(&mut self.buffer, at, 1)?;
        self.buffer[at] = octet;
        self.len = at + 1;
        Ok(())
    }

    /// Appends `number` in decimal, without leading zeros, as in `65000`. Returns `AllocError` if
    /// memory allocation fails; the text is unchanged then.
    #[inline]
    pub fn put_decimal(&mut self, number: u32) -> Result<(), AllocError>
        ensures appended { OnOk result (self.new ≡ self.old ++ decimal number) }
        ensures unchanged { OnErr result (self.new ≡ self.old) }
    {
        make_room(&mut self.buffer, self.len, DECIMAL_ROOM)?;
        self.len = write_decimal(number, self.buffer.as_mut_slice(), self.len);
        Ok(())
    }

    /// Appends the 64-bit `number` in decimal, without leading zeros, as in `4294967296`. Returns
    /// `AllocError` if memory allocation fails; the text is unchanged then.
    pub fn put_decimal_u64(&mut self, number: u64) -> Result<(), AllocError>
        ensures appended { OnOk result (self.new ≡ self.old ++ decimal number) }
        ensures unchanged { OnErr result (self.new ≡ self.old) }
    {
        match u32::try_from(number) {
            Ok(small) => self.put_decimal(small),
            Err(_) => self.extend_from_slice(Buffer::new().format(number).as_bytes()),
        }
    }

    /// Appends `number` in decimal, without leading zeros, and then the octet `end`: for 65000 and
    /// a bar, `65000|`. Returns `AllocError` if memory allocation fails; the text is unchanged
    /// then.
    #[inline]
    pub fn put_ended_decimal(&mut self, number: u32, end: u8) -> Result<(), AllocError>
        ensures appended { OnOk result (self.new ≡ self.old ++ (decimal number ++ end ∷ [])) }
        ensures unchanged { OnErr result (self.new ≡ self.old) }
    {
        make_room(&mut self.buffer, self.len, ENDED_ROOM)?;
        self.len = write_ended_decimal(number, end, self.buffer.as_mut_slice(), self.len);
        Ok(())
    }

    /// Appends the octet `lead`, and then `number` in decimal, without leading zeros: for a bar and
    /// 65000, `|65000`. Returns `AllocError` if memory allocation fails; the text is unchanged
    /// then.
    #[inline(always)]
    pub fn put_led_decimal(&mut self, lead: u8, number: u32) -> Result<(), AllocError>
        ensures appended { OnOk result (self.new ≡ self.old ++ lead ∷ decimal number) }
        ensures unchanged { OnErr result (self.new ≡ self.old) }
    {
        let at = self.len;
        make_room(&mut self.buffer, at, ENDED_ROOM)?;
        let text = self.buffer.as_mut_slice();
        text[at] = lead;
        self.len = write_decimal(number, text, at + 1);
        Ok(())
    }

    /// Appends each of `numbers` in decimal, without leading zeros, and the octet `end` after each,
    /// the last too: for 1, 20 and a comma, `1,20,`. Appends nothing if `numbers` is empty. Returns
    /// `AllocError` if memory allocation fails; the text is unchanged then.
    #[inline]
    pub fn put_ended_decimals(&mut self, numbers: &[u32], end: u8) -> Result<(), AllocError>
        ensures appended { OnOk result
            (self.new ≡ self.old ++ ended_words end (map decimal numbers.now)) }
        ensures unchanged { OnErr result (self.new ≡ self.old) }
    {
        make_room_for_each(&mut self.buffer, self.len, numbers.len(), ENDED_ROOM)?;
        let text = self.buffer.as_mut_slice();
        let mut place = self.len;
        for number in numbers {
            place = write_ended_decimal(*number, end, text, place);
        }
        self.len = place;
        Ok(())
    }

    /// Appends each of `numbers` in the format `W`, a [`WordFormat`], and the octet `end` after
    /// each, the last too: `65000:1,no-export,` for communities and a comma. Appends nothing if
    /// `numbers` is empty. Returns `AllocError` if memory allocation fails; the text is unchanged
    /// then.
    #[inline]
    pub fn put_ended_words<W: WordFormat>(
        &mut self,
        numbers: &[u32],
        end: u8,
    ) -> Result<(), AllocError>
        ensures appended { OnOk result
            (self.new ≡ self.old ++ ended_words end (map W.word numbers.now)) }
        ensures unchanged { OnErr result (self.new ≡ self.old) }
    {
        make_room_for_each(&mut self.buffer, self.len, numbers.len(), WORD_ROOM)?;
        let text = self.buffer.as_mut_slice();
        let mut place = self.len;
        for number in numbers {
            place = W::write_ended(*number, end, text, place);
        }
        self.len = place;
        Ok(())
    }

    /// Appends `value` as text, in the format that its type has as a [`WriteTextAt`]: an IP prefix
    /// as `10.0.0.0/8`. Returns `AllocError` if memory allocation fails; the text is unchanged
    /// then.
    #[inline]
    pub fn put<V: WriteTextAt>(&mut self, value: &V) -> Result<(), AllocError>
        ensures appended { OnOk result (self.new ≡ self.old ++ V.shown value.now) }
        ensures unchanged { OnErr result (self.new ≡ self.old) }
    {
        make_room(&mut self.buffer, self.len, V::ROOM)?;
        self.len = value.write_text_at(self.buffer.as_mut_slice(), self.len);
        Ok(())
    }

    /// Appends the octet `lead`, and then `value` in the format that its type has as a
    /// [`WriteTextAt`]: for a bar and an IP prefix, `|10.0.0.0/8`. Returns `AllocError` if memory
    /// allocation fails; the text is unchanged then.
    #[inline]
    pub fn put_led<V: WriteTextAt>(&mut self, lead: u8, value: &V) -> Result<(), AllocError>
        ensures appended { OnOk result (self.new ≡ self.old ++ lead ∷ V.shown value.now) }
        ensures unchanged { OnErr result (self.new ≡ self.old) }
    {
        let at = self.len;
        make_room(&mut self.buffer, at, V::ROOM.saturating_add(1))?;
        let text = self.buffer.as_mut_slice();
        text[at] = lead;
        self.len = value.write_text_at(text, at + 1);
        Ok(())
    }

    /// Appends a copy of `octets`. Returns `AllocError` if memory allocation fails; the text is
    /// unchanged then.
    #[inline(always)]
    pub fn extend_from_slice(&mut self, octets: &[u8]) -> Result<(), AllocError>
        ensures appended { OnOk result (self.new ≡ self.old ++ octets.now) }
        ensures unchanged { OnErr result (self.new ≡ self.old) }
    {
        let at = self.len;
        make_room(&mut self.buffer, at, octets.len())?;
        copy_octets_at(octets, self.buffer.as_mut_slice(), at);
        self.len = at + octets.len();
        Ok(())
    }

    /// Appends the first `len` octets of `padded`. That takes less time than
    /// [`Text::extend_from_slice`] for a short text, since all `N` octets are copied, a number that
    /// is fixed at compile time. Requires that `len` is at most `N`. Returns `AllocError` if memory
    /// allocation fails; the text is unchanged then.
    #[inline(always)]
    pub fn extend_from_padded<const N: usize>(
        &mut self,
        padded: &[u8; N],
        len: usize,
    ) -> Result<(), AllocError>
        requires { len ≤ N }
        ensures appended { OnOk result (self.new ≡ self.old ++ take len padded.now) }
        ensures unchanged { OnErr result (self.new ≡ self.old) }
    {
        make_room(&mut self.buffer, self.len, N)?;
        self.len = write_first_octets_at(padded, len, self.buffer.as_mut_slice(), self.len);
        Ok(())
    }

    /// Appends a copy of a part of the text itself: its octets from index `start` to before index
    /// `end`. Requires that `start` is at most `end`, and `end` at most the length. Returns
    /// `AllocError` if memory allocation fails; the text is unchanged then.
    #[inline]
    pub fn extend_from_within(&mut self, start: usize, end: usize) -> Result<(), AllocError>
        requires { (start ≤ end) × (end ≤ length self.old) }
        ensures appended { OnOk result (self.new ≡ self.old ++ slice_range self.old start end) }
        ensures unchanged { OnErr result (self.new ≡ self.old) }
    {
        make_room(&mut self.buffer, self.len, (end - start).max(CHUNK))?;
        self.len = copy_part_to(self.buffer.as_mut_slice(), start, end, self.len);
        Ok(())
    }
}

/// Appends the 64-bit `number` in decimal, without leading zeros, as in `4294967296`, to a vector
/// of octets. Returns `AllocError` if memory allocation fails; `text` is unchanged then.
pub fn put_decimal(number: u64, text: &mut Vec<u8>) -> Result<(), AllocError>
    ensures appended { OnOk result (text.new.items ≡ text.old.items ++ decimal number) }
    ensures unchanged { OnErr result (text.new.items ≡ text.old.items) }
{
    text.extend_from_slice(Buffer::new().format(number).as_bytes())
}

/// Ensures that `buffer` has at least `room` octets after its first `len`, for text to be written
/// there, and resizes it if it has fewer. Its first `len` octets, which are the text so far, are
/// unchanged, on error too; those after them are unspecified. Requires that `buffer` has at least
/// `len` octets. Fails if memory allocation fails.
#[inline(always)]
fn make_room(buffer: &mut Vec<u8>, len: usize, room: usize) -> Result<(), AllocError>
    requires { len ≤ length buffer.old.items }
    ensures room { OnOk result (len + room ≤ length buffer.new.items) }
    ensures within { len ≤ length buffer.new.items }
    ensures kept { take len buffer.new.items ≡ take len buffer.old.items }
{
    if buffer.len() - len < room {
        return grow(buffer, len, room);
    }
    Ok(())
}

/// Ensures that `buffer` has at least `count * each` octets after its first `len`, so that `count`
/// words of at most `each` octets can be written there, and resizes it if it has fewer. Its first
/// `len` octets are unchanged, on error too; those after them are unspecified. Requires that
/// `buffer` has at least `len` octets and that `each` isn't 0. Fails if memory allocation fails.
#[inline(always)]
fn make_room_for_each(
    buffer: &mut Vec<u8>,
    len: usize,
    count: usize,
    each: usize,
) -> Result<(), AllocError>
    requires front { len ≤ length buffer.old.items }
    requires some { 0 < each }
    ensures room { OnOk result (len + count * each ≤ length buffer.new.items) }
    ensures within { len ≤ length buffer.new.items }
    ensures kept { take len buffer.new.items ≡ take len buffer.old.items }
{
    if (buffer.len() - len) / each < count {
        return grow(buffer, len, count.saturating_mul(each));
    }
    Ok(())
}

/// Resizes `buffer` to `len + room` octets, or to `len + 512` ([`LEAST_ROOM`]) if that is more. Its
/// first `len` octets are unchanged, on error too; those after them are unspecified. Requires that
/// `buffer` has at least `len` octets. Fails if memory allocation fails, and if the size exceeds
/// `usize::MAX`.
#[cold]
#[inline(never)]
fn grow(buffer: &mut Vec<u8>, len: usize, room: usize) -> Result<(), AllocError>
    requires { len ≤ length buffer.old.items }
    ensures room { OnOk result (len + room ≤ length buffer.new.items) }
    ensures within { len ≤ length buffer.new.items }
    ensures kept { take len buffer.new.items ≡ take len buffer.old.items }
{
    // Overflow saturates at `usize::MAX`. No vector is that long, so memory allocation fails.
    let size = len.saturating_add(room.max(LEAST_ROOM));
    buffer.resize(size, 0)
}

/// Copies the octets from index `start` to before index `end` of `octets` to index `at` of the same
/// slice, over what is there. Requires that `start <= end <= at`, so that the two parts don't
/// overlap, and that `octets` doesn't end before the copy does.
#[inline]
fn copy_within(octets: &mut [u8], start: usize, end: usize, at: usize)
    requires order { (start ≤ end) × (end ≤ at) }
    requires room { at + (end - start) ≤ length octets.old }
    ensures { octets.new ≡ take at octets.old ++ slice_range octets.old start end
        ++ drop (at + (end - start)) octets.old }
{
    let (front, back) = octets.split_at_mut(at);
    back[..end - start].copy_from_slice(&front[start..end]);
}

/// Writes the first `len` octets of `octets` into `text` at offset `at`, and returns the offset of
/// the octet after them. Requires that `octets` has at least `len` octets, and that `text` has room
/// for all of `octets` from `at` on: all are copied, since a fixed number is copied faster. The
/// octets of `text` from the returned offset on are then unspecified.
#[inline(always)]
fn write_first_octets_at(octets: &[u8], len: usize, text: &mut [u8], at: usize) -> usize
    requires within { len ≤ length octets.now }
    requires room { at + length octets.now ≤ length text.old }
    ensures { IsWritten text.old at (take len octets.now) text.new result }
{
    copy_octets_at(octets, text, at);
    at + len
}

/// Writes a copy of a part of `octets`, from index `start` to before index `end`, into the same
/// slice at offset `at`, and returns the offset of the octet after it. Requires that
/// `start <= end <= at`, and that `octets` has room for the part, and for 32 octets ([`CHUNK`]),
/// from `at` on. The octets after the copy are then unspecified.
#[inline(always)]
fn copy_part_to(octets: &mut [u8], start: usize, end: usize, at: usize) -> usize
    requires order { (start ≤ end) × (end ≤ at) }
    requires room { at + (end - start) ≤ length octets.old }
    requires chunk { at + CHUNK ≤ length octets.old }
    ensures { IsWritten octets.old at (slice_range octets.old start end) octets.new result }
{
    if end - start <= CHUNK && CHUNK <= at - start {
        return copy_short_part_to(octets, start, end, at);
    }
    copy_within(octets, start, end, at);
    at + (end - start)
}

/// Writes a copy of a part of `octets`, from index `start` to before index `end`, into the same
/// slice at offset `at`, and returns the offset of the octet after it. Requires that
/// `start <= end`, that the part has at most 32 octets ([`CHUNK`]), that `start + CHUNK <= at`, and
/// that `octets` has room for [`CHUNK`] octets from `at` on: so many are copied in any case, since
/// a fixed number is copied faster. The octets after the copy are then unspecified.
#[inline(always)]
fn copy_short_part_to(octets: &mut [u8], start: usize, end: usize, at: usize) -> usize
    requires order { (start ≤ end) × (end ≤ start + CHUNK) × (start + CHUNK ≤ at) }
    requires room { at + CHUNK ≤ length octets.old }
    ensures { IsWritten octets.old at (slice_range octets.old start end) octets.new result }
{
    let mut chunk = [0; CHUNK];
    chunk.copy_from_slice(&octets[start..start + CHUNK]);
    write_first_octets_at(&chunk, end - start, octets, at)
}
