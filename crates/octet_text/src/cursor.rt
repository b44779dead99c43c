//! Functions that write numbers and other values as text into a slice at an offset, and return the
//! offset of the octet after the text. Each needs a fixed number of octets in the slice from that
//! offset on, of which those after the text are then unspecified. [`Text`](crate::Text) and the
//! crates that print values call them. Read [`write_decimal`] first.

ghost use Rattle.std.specs.Prelude.{◌≡◌, ℕ, List, ◌+◌, ◌<◌, ◌≤◌, ◌++◌, ◌∷◌, [], length, take, drop, decimal};
ghost use Rattle.octet_text.specs.Written.{IsWritten, three_digits, left_aligned_digits, two_hex_digits};

use crate::digits::{DIGIT_ROWS, HEX_PAIRS};

/// The number of octets that [`write_decimal`] needs in its slice from the offset on: the ten
/// digits of a `u32`, and two more, since digits are written four octets at a time.
pub const DECIMAL_ROOM: usize = 12;

/// The number of octets that [`write_ended_decimal`] needs in its slice from the offset on: those
/// of a decimal, and one for the octet after it.
pub(crate) const ENDED_ROOM: usize = DECIMAL_ROOM + 1;

/// The greatest number of decimal digits of a `u32`.
const DECIMAL_DIGITS: usize = 10;

/// The number of octets that [`write_below_thousand`] writes at once, and needs in its slice from
/// the offset on. They are a row of the table of digits: up to three digits, and filling.
pub const ROW: usize = 4;

/// The number of octets that [`write_hex_octet`] writes, and needs in its slice from the offset on:
/// two hexadecimal digits.
pub const HEX_PAIR: usize = 2;

/// The ASCII code of a space. It separates words of printed text, and fills rows of the table of
/// digits that have fewer than three of them.
pub const SPACE: u8 = b' ';

/// The ASCII code of the digit 0, which is subtracted from the code of another digit to get its
/// value.
const ZERO: usize = b'0' as usize;

/// One thousand. Numbers below it have at most three digits.
const THOUSAND: u32 = 1000;

/// One million. Numbers below it have at most six digits.
const MILLION: u32 = 1_000_000;

/// Writes `number` in decimal, without leading zeros, as in `65000`, into `text` at offset `at`,
/// and returns the offset of the octet after it. Requires that `text` has [`DECIMAL_ROOM`] octets
/// from `at` on, of which those after the number are then unspecified.
#[inline]
pub fn write_decimal(number: u32, text: &mut [u8], at: usize) -> usize
    requires { at + DECIMAL_ROOM ≤ length text.old }
    ensures written { IsWritten text.old at (decimal number) text.new result }
    ensures short { result ≤ at + DECIMAL_DIGITS }
{
    if number < MILLION {
        return write_below_million(number, text, at);
    }
    write_large_decimal(number, text, at)
}

/// Writes `number` in decimal, without leading zeros, and then the octet `end`, as in `65000|`,
/// into `text` at offset `at`, and returns the offset of the octet after `end`. Requires that
/// `text` has `DECIMAL_ROOM + 1` octets from `at` on, of which those after `end` are then
/// unspecified.
#[inline]
pub fn write_ended_decimal(number: u32, end: u8, text: &mut [u8], at: usize) -> usize
    requires { at + ENDED_ROOM ≤ length text.old }
    ensures written { IsWritten text.old at (decimal number ++ end ∷ []) text.new result }
    ensures short { result ≤ at + ENDED_ROOM }
{
    let behind = write_decimal(number, text, at);
    text[behind] = end;
    behind + 1
}

/// Writes `number` in decimal into `text` at offset `at`, and returns the offset of the octet after
/// it. Requires that `number` is at least 1,000,000, and that `text` has [`DECIMAL_ROOM`] octets
/// from `at` on, of which those after the number are then unspecified.
#[inline(never)]
fn write_large_decimal(number: u32, text: &mut [u8], at: usize) -> usize
    requires { (MILLION ≤ number) × (at + DECIMAL_ROOM ≤ length text.old) }
    ensures written { IsWritten text.old at (decimal number) text.new result }
    ensures short { result ≤ at + DECIMAL_DIGITS }
{
    // It is out of line, since few numbers have so many digits.
    let low = number % MILLION;
    let millions = write_below_million(number / MILLION, text, at);
    let thousands = write_three_digits(low / THOUSAND, text, millions);
    write_three_digits(low % THOUSAND, text, thousands)
}

/// Writes `number` in decimal, without leading zeros, into `text` at offset `at`, and returns the
/// offset of the octet after it. Requires that `number` is below 1,000,000, and that `text` has at
/// least seven octets (`3 + ROW`) from `at` on, of which those after the number are then
/// unspecified.
#[inline(always)]
fn write_below_million(number: u32, text: &mut [u8], at: usize) -> usize
    requires { (number < MILLION) × (at + 3 + ROW ≤ length text.old) }
    ensures written { IsWritten text.old at (decimal number) text.new result }
    ensures short { result ≤ at + 6 }
{
    if number < THOUSAND {
        return write_below_thousand(number, text, at);
    }
    let thousands = write_below_thousand(number / THOUSAND, text, at);
    write_three_digits(number % THOUSAND, text, thousands)
}

/// Writes `number` in decimal, without leading zeros, into `text` at offset `at`, and returns the
/// offset of the octet after it. Requires that `number` is below 1,000, and that `text` has four
/// octets ([`ROW`]) from `at` on, of which those after the number are then unspecified.
#[inline(always)]
pub fn write_below_thousand(number: u32, text: &mut [u8], at: usize) -> usize
    requires { (number < THOUSAND) × (at + ROW ≤ length text.old) }
    ensures written { IsWritten text.old at (decimal number) text.new result }
    ensures short { result ≤ at + 3 }
{
    let row = left_aligned_row(number);
    copy_octets_at(&row, text, at);
    at + usize::from(row[3]) - ZERO
}

/// Writes `number` in three decimal digits, with leading zeros, as in `007`, into `text` at offset
/// `at`, and returns `at + 3`. Requires that `number` is below 1,000, and that `text` has four
/// octets ([`ROW`]) from `at` on. The octets after the digits are then unspecified.
#[inline(always)]
fn write_three_digits(number: u32, text: &mut [u8], at: usize) -> usize
    requires { (number < THOUSAND) × (at + ROW ≤ length text.old) }
    ensures { IsWritten text.old at (three_digits number) text.new result }
{
    copy_octets_at(&zero_padded_row(number), text, at);
    at + 3
}

/// Returns the decimal digits of `number`, without leading zeros, padded on the right with spaces
/// to three octets, and then the ASCII digit of their count: `7  1` for 7. Requires that `number`
/// is below 1,000.
#[inline(always)]
fn left_aligned_row(number: u32) -> [u8; ROW]
    requires { number < THOUSAND }
    ensures { result ≡ left_aligned_digits (decimal number) }
{
    DIGIT_ROWS[number as usize]
}

/// Returns `number` in three decimal digits, with leading zeros, and then a space: `007 ` for 7.
/// Requires that `number` is below 1,000.
#[inline(always)]
fn zero_padded_row(number: u32) -> [u8; ROW]
    requires { number < THOUSAND }
    ensures { result ≡ three_digits number ++ SPACE ∷ [] }
{
    DIGIT_ROWS[THOUSAND as usize + number as usize]
}

/// Writes `number`, the value of one octet, in two lower-case hexadecimal digits, as in `0a`, into
/// `text` at offset `at`, and returns `at + 2`. Requires that `number` is below 256, and that
/// `text` has two octets from `at` on.
#[inline]
pub fn write_hex_octet(number: u16, text: &mut [u8], at: usize) -> usize
    requires { (number < 0x100) × (at + HEX_PAIR ≤ length text.old) }
    ensures written { IsWritten text.old at (two_hex_digits number) text.new result }
    ensures short { result ≡ at + HEX_PAIR }
{
    copy_octets_at(&hex_pair(number), text, at);
    at + HEX_PAIR
}

/// Returns the ASCII codes of the two lower-case hexadecimal digits of `number`, as in `0a`.
/// Requires that `number` is below 256.
#[inline(always)]
pub fn hex_pair(number: u16) -> [u8; HEX_PAIR]
    requires { number < 0x100 }
    ensures { result ≡ two_hex_digits number }
{
    HEX_PAIRS[number as usize]
}

/// Copies all of `octets` into `text` at offset `at`, over what is there. Requires that `text` has
/// that many octets from `at` on.
#[inline(always)]
pub fn copy_octets_at(octets: &[u8], text: &mut [u8], at: usize)
    requires { at + length octets.now ≤ length text.old }
    ensures { text.new ≡ take at text.old ++ octets.now ++ drop (at + length octets.now) text.old }
{
    text[at..at + octets.len()].copy_from_slice(octets);
}

/// A value that can be written as text into a slice at an offset. Addresses and IP prefixes are
/// such values.
pub trait WriteTextAt {
    /// In contracts, the text of a value, as octets.
    ghost shown: { Self → List ℕ };

    /// In contracts, the value of the constant `ROOM`.
    ghost ROOM: { ℕ };

    /// The number of octets that [`WriteTextAt::write_text_at`] needs in its slice from the offset
    /// on, at least as many as any value's text has.
    const ROOM: usize;

    /// Writes the value's text into `text` at offset `at`, and returns the offset of the octet
    /// after it. Requires that `text` has [`WriteTextAt::ROOM`] octets from `at` on, of which those
    /// after the value's text are then unspecified.
    fn write_text_at(&self, text: &mut [u8], at: usize) -> usize
        requires { at + ROOM ≤ length text.old }
        ensures { IsWritten text.old at (shown self.now) text.new result };
}

/// The number of octets that [`WordFormat::write_ended`] needs in its slice from the offset on: as
/// many as two decimals, each followed by an octet.
pub const WORD_ROOM: usize = 2 * ENDED_ROOM;

/// A format of 32-bit numbers as text, such as the format of BGP communities. The text of one
/// number is its word. A type that stands for a format is the type parameter of
/// [`Text::put_ended_words`](crate::Text::put_ended_words).
pub trait WordFormat {
    /// In contracts, the word of a number, as octets.
    ghost word: { ℕ → List ℕ };

    /// Writes the word of `number`, which is its text in this format, and then the octet `end` into
    /// `text` at offset `at`. Returns the offset of the octet after `end`. Requires that `text` has
    /// [`WORD_ROOM`] octets from `at` on, of which those after `end` are then unspecified.
    fn write_ended(number: u32, end: u8, text: &mut [u8], at: usize) -> usize
        requires { at + WORD_ROOM ≤ length text.old }
        ensures written { IsWritten text.old at (word number ++ end ∷ []) text.new result }
        ensures short { result ≤ at + WORD_ROOM };
}
