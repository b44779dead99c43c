//! A theorem about constants of this crate. The function has no code and nothing calls it: what it states
//! is proved as the crate is checked.

ghost use Rattle.std.specs.Prelude.{◌≡◌, ◌^◌, [], ◌∷◌, codes};
ghost use Rattle.bgpdump_lines.specs.declared.dump.TheConstants.{INPUT_LIMIT};
ghost use Rattle.bgpdump_lines.specs.declared.heading.TheConstants.{MICROS_DIGITS};
ghost use Rattle.bgpdump_lines.specs.Lines.{bar, line_feed, dot, zero_digit, space};

/// States the values of constants to which the contracts of this crate refer by name:
/// - the largest number of octets that is taken from an input ([`INPUT_LIMIT`](crate::INPUT_LIMIT)):
///   2^40,
/// - the least number of digits that microseconds are written with: 6,
/// - the ASCII codes of the characters that separate or end parts of a line.
pub fn law_line_constants()
    ensures limit { INPUT_LIMIT ≡ 2 ^ 40 }
    ensures micros { MICROS_DIGITS ≡ 6 }
    ensures marks { bar ∷ line_feed ∷ dot ∷ zero_digit ∷ space ∷ [] ≡ codes "|\n.0 " }
{}
