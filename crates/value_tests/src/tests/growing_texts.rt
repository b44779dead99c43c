//! Texts that grow at their end.

use octet_text::Text;
use std::alloc::{AllocError, Global};
use std::process::Abort;
use std::test::Fail;

#[test]
fn long_texts_are_kept_as_they_grow(rt: HostRuntime) -> Result<(), Fail> {
    let mut text = Text::new(rt.alloc());
    for number in 0..1000 {
        text.put_decimal(number)?;
        text.push(b' ')?;
    }
    assert_eq!(rt; text.len(), 3890);
    assert_eq!(rt; &text.as_slice()[..12], b"0 1 2 3 4 5 ".as_slice());
    assert_eq!(rt; &text.as_slice()[3878..], b"997 998 999 ".as_slice());
    Ok(())
}

/// Appends 64496 and a space, the greatest number of 64 bits, and 7.
fn put_numbers(text: &mut Text) -> Result<(), AllocError> {
    text.put_ended_decimal(64_496, b' ')?;
    text.put_decimal_u64(18_446_744_073_709_551_615)?;
    text.put_decimal_u64(7)
}

#[test]
fn texts_repeat_their_parts(rt: HostRuntime) -> Result<(), Fail> {
    let mut text = Text::new(rt.alloc());
    put_numbers(&mut text)?;
    assert_eq!(rt; text.as_slice(), b"64496 184467440737095516157".as_slice());
    for (start, end) in [(2, 6), (0, 0), (0, 31)] {
        assert!(rt; start <= end && end <= text.len());
        text.extend_from_within(start, end)?;
    }
    assert_eq!(rt; text.len(), 62);
    assert_eq!(rt; text.as_slice().get(27..37), Some(b"496 64496 ".as_slice()));
    Ok(())
}

#[test]
fn texts_take_octets_and_give_them_back(rt: HostRuntime) -> Result<(), Fail> {
    let mut octets = Vec::new(rt.alloc());
    octets.extend_from_slice(b"AS")?;
    let mut text = Text::taken_from(&mut octets);
    assert!(rt; octets.is_empty());
    text.put_decimal(64_496)?;
    let octets = text.into_vec();
    assert_eq!(rt; octets.as_slice(), b"AS64496".as_slice());
    Ok(())
}

/// How many pieces a large text has, and how many octets each: the number of the piece, counted
/// from a million, and what stands behind each number.
const PIECES: u32 = 100_000;

const PIECE_SIZE: usize = 50;

const FIRST_NUMBER: u32 = 1_000_000;

const BEHIND_NUMBER: &[u8] = b" forty-three octets that follow the number.";

/// A text of all pieces.
fn large_text(alloc: Global) -> Result<Text, AllocError> {
    let mut text = Text::new(alloc);
    for piece in 0..PIECES {
        text.put_decimal(FIRST_NUMBER + piece)?;
        text.extend_from_slice(BEHIND_NUMBER)?;
    }
    Ok(text)
}

/// Asserts that these are the octets of the piece of this number.
fn assert_piece(rt: &impl Abort, alloc: Global, octets: &[u8], piece: u32) -> Result<(), Fail> {
    let number = format!(in alloc; "{}", FIRST_NUMBER.saturating_add(piece))?;
    assert!(rt; octets.starts_with(number.as_bytes()), "{piece}");
    assert!(rt; octets.ends_with(BEHIND_NUMBER), "{piece}");
    Ok(())
}

/// Appends by each of the calls.
fn put_all_kinds(text: &mut Text) -> Result<(), AllocError> {
    text.push(b'|')?;
    text.put_decimal(1)?;
    text.put_decimal_u64(4_294_967_296)?;
    text.put_ended_decimal(2, b',')?;
    text.put_led_decimal(b'=', 3)?;
    text.put_ended_decimals(&[4, 5], b';')?;
    text.extend_from_slice(b"end")
}

#[test]
fn texts_of_millions_of_octets_grow(rt: HostRuntime) -> Result<(), Fail> {
    let mut text = large_text(rt.alloc())?;
    assert_eq!(rt; text.len(), 5_000_000);
    for (piece, octets) in (0..PIECES).zip(text.as_slice().chunks_exact(PIECE_SIZE)) {
        assert_piece(&rt, rt.alloc(), octets, piece)?;
    }
    put_all_kinds(&mut text)?;
    let tail = b"|142949672962,=34;5;end";
    assert_eq!(rt; text.as_slice().get(5_000_000..), Some(tail.as_slice()));
    Ok(())
}

#[test]
fn a_large_text_is_repeated(rt: HostRuntime) -> Result<(), Fail> {
    let mut text = large_text(rt.alloc())?;
    assert_eq!(rt; text.len(), 5_000_000);
    text.extend_from_within(0, 5_000_000)?;
    assert_eq!(rt; text.len(), 10_000_000);
    let (first, second) = text.as_slice().split_at(5_000_000);
    assert!(rt; first == second);
    Ok(())
}
