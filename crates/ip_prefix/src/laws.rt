//! Theorems about the definitions that the contracts of this crate cite. The functions have no code
//! and nothing calls them: their `ensures` clauses are proved as the crate is checked.
//! `docs/proved.md` names them.

ghost use Rattle.std.specs.Prelude.{◌≡◌, ◌≤◌, ◌↔◌, ℕ, true, false, List, [], ◌∷◌, codes, length, IsTrue};
ghost use Rattle.std.specs.Cmp.{IsTotalOrder};
ghost use Rattle.std.specs.FinMap.{IsAntisymmetric};
ghost use Rattle.std.specs.Net.Text.{longest_zero_run};
ghost use Rattle.ip_prefix.specs.declared.addr.Family.{Family};
ghost use Rattle.ip_prefix.specs.declared.addr.TheConstants.{V4_OCTETS, V6_OCTETS, V4_BITS, V6_BITS, OCTET_BITS, GROUP_BITS, GROUP_COUNT};
ghost use Rattle.ip_prefix.specs.declared.number.TheConstants.{NUMBER_BITS};
ghost use Rattle.ip_prefix.specs.declared.text.TheConstants.{DOT, COLON, SLASH};
ghost use Rattle.ip_prefix.specs.declared.turn.Turn.TheVariants.{Outside, Here, Left, Right};
ghost use Rattle.ip_prefix.specs.Network.{Address, IsAddress, Network, IsNetwork, IsFront, contains, address_cmp, network_cmp, SpellsNetwork};
ghost use Rattle.ip_prefix.specs.Turns.{ContainsAllOf, covers, way, turn_of, half, common};
ghost use Rattle.ip_prefix.specs.Kept.{least_address_cmp};
ghost use Rattle.ip_prefix.specs.Text.{SpellsAddress, SpellsPrefix, address_text, network_text};
ghost use Rattle.ip_prefix.specs.Marks.{IsFirstLongestRun};
ghost use Rattle.octet_forms.specs.Sequences.{SpellsAll};
ghost use Rattle.octet_forms.specs.Fronts.{IsSelfDelimiting};

/// States that the order of addresses (by family, and then by octets) is total, and that only equal
/// addresses compare as equal.
pub fn law_address_order_is_total()
    ensures total { IsTotalOrder address_cmp }
    ensures ties { IsAntisymmetric address_cmp }
{}

/// States three facts about the order of prefixes:
/// - it is total;
/// - only equal prefixes compare as equal;
/// - it is by the least address that the prefix contains, and then by the length.
pub fn law_prefix_order_is_total()
    ensures total { IsTotalOrder network_cmp }
    ensures ties { IsAntisymmetric network_cmp }
    ensures filled { (m n : Network) → IsNetwork m → IsNetwork n
        → network_cmp m n ≡ least_address_cmp m n }
{}

/// States what the contracts mean by "contains" and "covers":
/// - a prefix contains an address if and only if both are of one family, and the address begins
///   with the bits of the prefix;
/// - a prefix covers another if and only if both are of one family, and the other begins with the
///   bits of the prefix;
/// - a prefix covers another if and only if it contains all addresses that the other contains.
pub fn law_containment_is_by_bits()
    ensures contained { (n : Network) (a : Address)
        → (IsTrue (contains n a) ↔ ((n.family ≡ a.family) × IsFront n.bits a.bits)) }
    ensures covered { (n other : Network)
        → (IsTrue (covers n other) ↔ ((n.family ≡ other.family) × IsFront n.bits other.bits)) }
    ensures addresses { (n other : Network) → IsNetwork other
        → (IsTrue (covers n other) ↔ ContainsAllOf n other) }
{}

/// States that "covers" (contains all addresses of) is a partial order of prefixes, and that no
/// prefix covers a shorter one. It is a partial order since each prefix covers itself, two that
/// cover each other are equal, and, if `a` covers `b` and `b` covers `c`, `a` covers `c`.
pub fn law_covering_is_partial_order()
    ensures reflexive { (n : Network) → IsTrue (covers n n) }
    ensures transitive { (a b c : Network)
        → IsTrue (covers a b) → IsTrue (covers b c) → IsTrue (covers a c) }
    ensures antisymmetric { (a b : Network) → IsTrue (covers a b) → IsTrue (covers b a) → a ≡ b }
    ensures lengths { (a b : Network) → IsTrue (covers a b) → length a.bits ≤ length b.bits }
{}

/// States that, if two prefixes contain the same address, the shorter one covers the longer one,
/// and two of equal length are equal. So at most one prefix of each length contains an address.
pub fn law_containing_prefixes_nest()
    ensures covered { (m n : Network) (a : Address) → IsTrue (contains m a) → IsTrue (contains n a)
        → length m.bits ≤ length n.bits → IsTrue (covers m n) }
    ensures one { (m n : Network) (a : Address) → IsTrue (contains m a) → IsTrue (contains n a)
        → length m.bits ≡ length n.bits → m ≡ n }
{}

/// States what a [`Turn`](crate::Turn) means for a prefix as seen from another, the base:
/// - the turn is `Outside` if and only if the base doesn't cover the prefix;
/// - the turn is `Here` if and only if the prefix and the base are equal;
/// - the turn is `Left` or `Right` if and only if the left or right half of the base covers the
///   prefix. The left half is the base with one more bit, 0, and the right half with one more bit,
///   1.
pub fn law_turns_are_by_covering()
    ensures outside { (m n : Network)
        → ((turn_of (way m) (way n) ≡ Outside) ↔ (covers m n ≡ false)) }
    ensures here { (m n : Network) → ((turn_of (way m) (way n) ≡ Here) ↔ (m ≡ n)) }
    ensures left { (m n : Network)
        → ((turn_of (way m) (way n) ≡ Left) ↔ IsTrue (covers (half m false) n)) }
    ensures right { (m n : Network)
        → ((turn_of (way m) (way n) ≡ Right) ↔ IsTrue (covers (half m true) n)) }
{}

/// States that the prefix made of the leading bits that two prefixes of one family share covers
/// both of them, and that it is the longest that does: each prefix that covers both covers it.
pub fn law_common_prefix_is_longest()
    ensures both { (m n : Network) → m.family ≡ n.family
        → IsTrue (covers (common m n) m) × IsTrue (covers (common m n) n) }
    ensures longest { (m n other : Network) → IsTrue (covers other m) → IsTrue (covers other n)
        → IsTrue (covers other (common m n)) }
{}

/// States that the text that is written for an address parses as this address, and that the text
/// that is written for a prefix parses as this prefix.
pub fn law_printed_text_parses()
    ensures addresses { (a : Address) → IsAddress a → SpellsAddress a (address_text a) }
    ensures prefixes { (n : Network) → IsNetwork n → SpellsPrefix n (network_text n) }
{}

/// States that the run of groups of 0 that the text of an IPv6 address writes as `::` if it has two
/// or more is the longest, and the first of them if several have that length (RFC 5952, section
/// 4.2).
pub fn law_longest_zero_run_is_shortened()
    ensures { (groups : List ℕ) → IsFirstLongestRun groups (longest_zero_run groups) }
{}

/// States that a text can be parsed as at most one address, and as at most one prefix.
pub fn law_text_has_one_value()
    ensures addresses { (a b : Address) (text : List ℕ)
        → SpellsAddress a text → SpellsAddress b text → a ≡ b }
    ensures prefixes { (m n : Network) (text : List ℕ)
        → SpellsPrefix m text → SpellsPrefix n text → m ≡ n }
{}

/// States that at most one prefix of a given family can be parsed at the start of octets, and that
/// octets decode as at most one list of such prefixes (NLRI, RFC 4271, section 4.3).
pub fn law_octets_have_one_prefix()
    ensures single { (family : Family) → IsSelfDelimiting (SpellsNetwork family) }
    ensures lists { (family : Family) (octets : List ℕ) (a b : List Network)
        → SpellsAll (SpellsNetwork family) a octets
        → SpellsAll (SpellsNetwork family) b octets → a ≡ b }
{}

/// States the values of constants that the theorems and contracts use by name: the sizes of
/// addresses in octets and in bits, of an octet and of a group of an IPv6 address, the number of
/// these groups, and the characters `.`, `:` and `/`.
pub fn law_address_constants()
    ensures octets { (V4_OCTETS ≡ 4) × (V6_OCTETS ≡ 16) }
    ensures bits { (V4_BITS ≡ 32) × (V6_BITS ≡ 128) × (NUMBER_BITS ≡ 128) }
    ensures parts { (OCTET_BITS ≡ 8) × (GROUP_BITS ≡ 16) × (GROUP_COUNT ≡ 8) }
    ensures marks { DOT ∷ COLON ∷ SLASH ∷ [] ≡ codes ".:/" }
{}
