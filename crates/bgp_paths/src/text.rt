//! Formatting AS paths and communities as text. `bgpdump_lines` calls [`AsPath::append_to`] and
//! [`append_communities`] for each printed route; read those first.

ghost use Rattle.std.specs.Prelude.{◌≡◌, ◌+◌, ◌<◌, ◌≤◌, [], ◌∷◌, ◌++◌, OnOk, OnErr, length, map, decimal, flat_map};
ghost use Rattle.bgp_paths.specs.Text.{bracketed_numbers, segment_words, path_text, halves_text, communities_text};
ghost use Rattle.ip_prefix.specs.Written.{IsWritten, ended_words};
ghost use Rattle.octet_text.specs.declared.cursor.TheConstants.{SPACE};
ghost use Rattle.bgp_paths.specs.Readers.{StillBegins, JoinsWords};

use crate::path::AsPath;
use crate::segment::{Segment, SegmentKind};
use ip_prefix::{COLON, SPACE, Text, WORD_ROOM, WordFormat, copy_octets_at, write_ended_decimal};
use std::alloc::AllocError;

/// The well-known community NO_EXPORT, of routes that are not to be announced outside the AS or
/// confederation (RFC 1997).
const NO_EXPORT: u32 = 0xFFFF_FF01;
/// The well-known community NO_ADVERTISE, of routes that are not to be announced to any peer (RFC
/// 1997).
const NO_ADVERTISE: u32 = 0xFFFF_FF02;
/// The well-known community NO_EXPORT_SUBCONFED, of routes that are not to be announced outside the
/// AS, nor to other members of its confederation (RFC 1997).
const NO_EXPORT_SUBCONFED: u32 = 0xFFFF_FF03;

/// The ASCII characters around and between the AS numbers of a segment whose text is in brackets: a
/// set, or a segment of a confederation.
#[derive(Clone, Copy)]
struct Brackets {
    /// The character before the first AS number.
    open: u8,
    /// The character between two AS numbers.
    separator: u8,
    /// The character after the last AS number.
    close: u8,
}

/// The brackets and separator of an AS_SET, as in `{1,2}`.
const AS_SET_BRACKETS: Brackets = Brackets {
    open: b'{',
    separator: b',',
    close: b'}',
};

/// The brackets and separator of a sequence of members of a confederation, as in `(1 2)`.
const CONFED_SEQUENCE_BRACKETS: Brackets = Brackets {
    open: b'(',
    separator: SPACE,
    close: b')',
};

/// The brackets and separator of a set of members of a confederation, as in `[1,2]`.
const CONFED_SET_BRACKETS: Brackets = Brackets {
    open: b'[',
    separator: b',',
    close: b']',
};

impl AsPath {
    /// Appends the path as text, as in `65001 65002 {1,2}`: the AS numbers of sequences, and each
    /// other segment in brackets, joined by spaces. A set is `{1,2}`, a confederation sequence
    /// `(1 2)`, and a confederation set `[1,2]`. For a path without segments, appends nothing.
    /// Returns `AllocError` if memory allocation fails; `text` is unchanged then.
    #[tactic(auto, unfolding(crate::specs::Text::path_text))]
    pub fn append_to(&self, text: &mut Text) -> Result<(), AllocError>
        ensures appended { OnOk result (text.new ≡ text.old ++ path_text self.now) }
        ensures unchanged { OnErr result (text.new ≡ text.old) }
    {
        let before = text.len();
        let result = put_segments(self.segments.as_slice(), text);
        if result.is_err() {
            text.truncate(before);
            return result;
        }
        drop_separator(before, text);
        result
    }

    /// Appends the path as text, as in `65001 65002 {1,2}`, to a vector of octets.
    /// [`AsPath::append_to`] appends the same text to a [`Text`] instead. Returns `AllocError` if
    /// memory allocation fails; `text` is unchanged then.
    pub fn put_text(&self, text: &mut Vec<u8>) -> Result<(), AllocError>
        ensures appended { OnOk result (text.new.items ≡ text.old.items ++ path_text self.now) }
        ensures unchanged { OnErr result (text.new.items ≡ text.old.items) }
    {
        let mut whole = Text::taken_from(text);
        let result = self.append_to(&mut whole);
        *text = whole.into_vec();
        result
    }
}

/// Appends communities (RFC 1997) as text, joined by spaces, as in `65000:1 no-export`. Each is its
/// two 16-bit halves in decimal, joined by a colon, but NO_EXPORT, NO_ADVERTISE and
/// NO_EXPORT_SUBCONFED are `no-export`, `no-advertise` and `local-AS`. Appends nothing if there are
/// none. Returns `AllocError` if memory allocation fails; `text` is unchanged then.
pub fn append_communities(communities: &[u32], text: &mut Text) -> Result<(), AllocError>
    ensures appended { OnOk result (text.new ≡ text.old ++ communities_text communities.now) }
    ensures unchanged { OnErr result (text.new ≡ text.old) }
{
    let before = text.len();
    text.put_ended_words::<CommunityFormat>(communities, SPACE)?;
    drop_separator(before, text);
    Ok(())
}

/// Appends communities (RFC 1997) as text, joined by spaces, as in `65000:1 no-export`, to a vector
/// of octets: each as its two 16-bit halves or by its name. [`append_communities`] appends the same
/// text to a [`Text`] instead. Returns `AllocError` if memory allocation fails; `text` is unchanged
/// then.
pub fn put_communities(communities: &[u32], text: &mut Vec<u8>) -> Result<(), AllocError>
    ensures appended { OnOk result
        (text.new.items ≡ text.old.items ++ communities_text communities.now) }
    ensures unchanged { OnErr result (text.new.items ≡ text.old.items) }
{
    let mut whole = Text::taken_from(text);
    let result = append_communities(communities, &mut whole);
    *text = whole.into_vec();
    result
}

/// Removes the last octet of `text`, the separator after the last of the words that were appended
/// to it, each with a separator. Leaves `text` unchanged if it has no more than `before` octets,
/// its length before the words were appended: there were none then.
fn drop_separator(before: usize, text: &mut Text)
    ensures { JoinsWords before text.old text.new }
{
    let end = text.len().saturating_sub(1).max(before);
    text.truncate(end);
}

/// Appends `segments` as text, as words with a space after each, the last too: `65001 {1,2} `. Each
/// AS number of a plain sequence is a word; any other segment is one word, in brackets. Fails if
/// memory allocation fails; some of the words may have been appended then.
fn put_segments(segments: &[Segment], text: &mut Text) -> Result<(), AllocError>
    ensures appended { OnOk result (text.new ≡
        text.old ++ ended_words SPACE (flat_map segment_words segments.now)) }
    ensures kept { OnErr result (StillBegins text.old text.new) }
{
    for segment in segments {
        let numbers = segment.numbers.as_slice();
        match segment.kind {
            SegmentKind::AsSequence => text.put_ended_decimals(numbers, SPACE)?,
            SegmentKind::AsSet => put_bracketed(numbers, AS_SET_BRACKETS, text)?,
            SegmentKind::ConfedSequence => put_bracketed(numbers, CONFED_SEQUENCE_BRACKETS, text)?,
            SegmentKind::ConfedSet => put_bracketed(numbers, CONFED_SET_BRACKETS, text)?,
        }
    }
    Ok(())
}

/// Appends `numbers` in decimal as one word in brackets, and then a space: `{1,2} `. `marks` has
/// the brackets and the separator. Fails if memory allocation fails; a part of the word may have
/// been appended then.
fn put_bracketed(numbers: &[u32], marks: Brackets, text: &mut Text) -> Result<(), AllocError>
    ensures appended { OnOk result (text.new ≡
        text.old ++ ended_words SPACE (bracketed_numbers marks numbers.now ∷ [])) }
    ensures kept { OnErr result (StillBegins text.old text.new) }
{
    text.push(marks.open)?;
    let before = text.len();
    text.put_ended_decimals(numbers, marks.separator)?;
    drop_separator(before, text);
    text.extend_from_slice(&[marks.close, SPACE])
}

/// The format of BGP communities as words: three well-known ones by name (`no-export`,
/// `no-advertise` and `local-AS`), and each other as its two 16-bit halves in decimal, as in
/// `65000:1`.
struct CommunityFormat;

impl WordFormat for CommunityFormat {
    ghost use Rattle.bgp_paths.specs.Text.{community_text};

    ghost word = { community_text };

    #[inline]
    #[tactic(auto, unfolding(crate::specs::Text::community_text))]
    fn write_ended(community: u32, end: u8, text: &mut [u8], at: usize) -> usize {
        match community {
            // Nearly all communities are below the named ones: one comparison.
            _ if community < NO_EXPORT => write_community_number(community, end, text, at),
            NO_EXPORT => write_community_name(b"no-export", end, text, at),
            NO_ADVERTISE => write_community_name(b"no-advertise", end, text, at),
            NO_EXPORT_SUBCONFED => write_community_name(b"local-AS", end, text, at),
            _ => write_community_number(community, end, text, at),
        }
    }
}

/// Writes the high and the low 16 bits of `number` in decimal, joined by a colon, and then the
/// octet `end`, as in `65000:1|`, into `text` at offset `at`. Returns the offset of the octet after
/// `end`. Requires that `text` has [`WORD_ROOM`] octets from `at` on, of which those after `end`
/// are then unspecified.
#[inline(always)]
fn write_community_number(number: u32, end: u8, text: &mut [u8], at: usize) -> usize
    requires { at + WORD_ROOM ≤ length text.old }
    ensures written { IsWritten text.old at (halves_text number ++ end ∷ []) text.new result }
    ensures short { result ≤ at + WORD_ROOM }
{
    let behind = write_ended_decimal(number / 0x1_0000, COLON, text, at);
    write_ended_decimal(number % 0x1_0000, end, text, behind)
}

/// Writes `name`, the ASCII name of a well-known community, and then the octet `end`, as in
/// `no-export|`, into `text` at offset `at`. Returns the offset of the octet after `end`. Requires
/// that `text` has octets for both from `at` on.
#[inline(always)]
fn write_community_name(name: &[u8], end: u8, text: &mut [u8], at: usize) -> usize
    requires { at + length name.now < length text.old }
    ensures written { IsWritten text.old at (name.now ++ end ∷ []) text.new result }
    ensures short { result ≡ at + length name.now + 1 }
{
    let behind = at + name.len();
    copy_octets_at(name, text, at);
    text[behind] = end;
    behind + 1
}
