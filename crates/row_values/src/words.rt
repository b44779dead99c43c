//! What words of a script spell, and words of answers.

use crate::shown::Shown;
use ip_prefix::{Addr, Prefix};
use mrt_events::Peer;

/// What is answered to a line that can't be read.
pub const UNREAD: &[u8] = b"unread";

/// What is answered where there is no value.
pub(crate) const NONE: &[u8] = b"none";

/// What is answered where memory is refused.
pub const REFUSED: &[u8] = b"refused";

/// The number that a word spells.
pub fn number_word(word: &str) -> Option<u64> {
    word.parse::<u64>().ok()
}

/// The prefix that a word spells.
pub fn prefix_word(word: &str) -> Option<Prefix> {
    Prefix::parse(word.as_bytes())
}

/// The address that a word spells.
pub fn address_word(word: &str) -> Option<Addr> {
    Addr::parse(word.as_bytes())
}

/// The first word, and what stands behind it.
pub fn split_word(words: &str) -> (&str, &str) {
    words.split_once(" ").unwrap_or((words, ""))
}

/// The peer that the first two words spell, and what stands behind them.
pub fn peer_words(words: &str) -> Option<(Peer, &str)> {
    let (address, rest) = words.split_once(" ")?;
    let (number, rest) = split_word(rest);
    let peer = Peer {
        addr: address_word(address)?,
        asn: number.parse::<u32>().ok()?,
    };
    Some((peer, rest))
}

/// Appends a word and a number.
pub fn put_count(word: &[u8], count: u64, text: &mut Shown) {
    text.put(word);
    text.put_number(count);
}

/// Appends a peer: its address, a space and its AS number.
pub fn put_peer(peer: &Peer, text: &mut Shown) {
    text.put_address(&peer.addr);
    put_count(b" ", u64::from(peer.asn), text);
}

/// Appends whether a number lies between the two that the words spell, and else the number.
pub fn put_within(number: u64, words: &str, text: &mut Shown) {
    let (least, most) = split_word(words);
    match (number_word(least), number_word(most)) {
        (Some(least), Some(most)) if least <= number && number <= most => text.put(b"within"),
        (Some(_), Some(_)) => text.put_number(number),
        _ => text.put(UNREAD),
    }
}
