//! Splitting a script into lines and words, and the numbers that words spell. `play.rt` splits
//! lines by [`split_once`], and `command.rt` calls all of these functions.

ghost use Rattle.std.specs.Prelude.{◌≡◌, ◌≢◌, [], ◌∷◌, ◌<◌, length, IsTrue, IsFalse, IfSome, MatchOption};
ghost use Rattle.bgp_wire.specs.Readers.{ParsesTo};
ghost use Rattle.bgpdump_tool.specs.Script.{split_at_marks, SpellsDecimal};

/// The least first octet of a number of several digits: the ASCII digit `1`, so that signs and
/// leading zeros are excluded.
const LEAST_LEADING_DIGIT: u8 = b'1';

/// Returns the octets of `text` before the first `mark`, and the octets after it, or `None` if
/// `text` has no `mark`. The `mark` itself is in neither.
pub(crate) fn split_once(text: &[u8], mark: u8) -> Option<(&[u8], &[u8])>
    ensures split_at_marks { MatchOption result (split_at_marks mark text.now ≡ text.now ∷ [])
        (λ found. split_at_marks mark text.now ≡ found.0.now ∷ split_at_marks mark found.1.now) }
    ensures shorter { IfSome result (λ found. length found.1.now < length text.now) }
{
    let at = text.iter().position(|octet| *octet == mark)?;
    Some((&text[..at], &text[at + 1..]))
}

/// Returns `true` if `word`, a word of a script, has the same octets as `name`, the name of a
/// command, and `false` if not.
pub(crate) fn equals(word: &[u8], name: &[u8]) -> bool
    ensures same { IsTrue result → word.now ≡ name.now }
    ensures other { IsFalse result → word.now ≢ name.now }
{
    word == name
}

/// Parses a decimal number from 0 to 2^32 - 1, without sign or leading zeros. Returns `None` for
/// any other word, an empty one too.
pub(crate) fn parse_number(word: &[u8]) -> Option<u32>
    ensures { ParsesTo SpellsDecimal word.now result }
{
    if word.len() > 1 && word[0] < LEAST_LEADING_DIGIT {
        return None;
    }
    let Ok(text) = str::from_utf8(word) else {
        return None;
    };
    text.parse().ok()
}
