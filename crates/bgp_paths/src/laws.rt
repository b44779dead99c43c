//! Theorems about the definitions that the contracts of this crate cite. The functions have no code
//! and nothing calls them: their `ensures` clauses are proved as the crate is checked.
//! `docs/proved.md` names them.

ghost use Rattle.std.specs.Prelude.{◌≡◌, ℕ, List, [], ◌∷◌, codes};
ghost use Rattle.ip_prefix.specs.declared.text.TheConstants.{COLON};
ghost use Rattle.octet_text.specs.declared.cursor.TheConstants.{SPACE};
ghost use Rattle.bgp_paths.specs.declared.text.TheConstants.{AS_SET_BRACKETS, CONFED_SEQUENCE_BRACKETS, CONFED_SET_BRACKETS, NO_EXPORT, NO_ADVERTISE, NO_EXPORT_SUBCONFED};
ghost use Rattle.bgp_paths.specs.declared.path_reader.TheConstants.{AS_SET, AS_SEQUENCE, AS_CONFED_SEQUENCE, AS_CONFED_SET};
ghost use Rattle.bgp_paths.specs.declared.numbers.AsWidth.{AsWidth};
ghost use Rattle.bgp_paths.specs.declared.path.AsPath.{AsPath};
ghost use Rattle.bgp_paths.specs.Merge.{IsMerge, path_weight};
ghost use Rattle.bgp_paths.specs.Path.{SpellsPath};
ghost use Rattle.bgp_paths.specs.Readers.{brackets_as_printed};

/// States that octets decode as at most one AS path, if it is known whether its AS numbers have two
/// or four octets.
pub fn law_octets_have_one_path()
    ensures { (width : AsWidth) (octets : List ℕ) (path other : AsPath) →
        SpellsPath width path octets → SpellsPath width other octets → path ≡ other }
{}

/// States that the merge of an AS_PATH with an AS4_PATH counts as many ASes as the AS_PATH (RFC
/// 6793, section 4.2.3): each AS number of a sequence counts, an AS_SET counts as one AS, and
/// confederation segments don't count.
pub fn law_merge_keeps_weight()
    ensures { (first second path : AsPath) → IsMerge first second path →
        path_weight path ≡ path_weight first }
{}

/// States that the merge of an AS_PATH with an AS4_PATH, as the contracts define it (RFC 6793,
/// section 4.2.3), exists and is unique, whatever the two paths are.
pub fn law_paths_have_one_merge()
    ensures some { (first second : AsPath) → (path : AsPath) × IsMerge first second path }
    ensures one { (first second path other : AsPath) →
        IsMerge first second path → IsMerge first second other → path ≡ other }
{}

/// States the characters that AS paths and communities have as text besides numbers and names:
/// words are joined by spaces, and the halves of a community by a colon. The opening bracket,
/// separator and closing bracket are `{`, `,` and `}` for sets, `(`, a space and `)` for
/// confederation sequences, and `[`, `,` and `]` for confederation sets.
pub fn law_text_punctuation()
    ensures between { SPACE ∷ COLON ∷ [] ≡ codes " :" }
    ensures sets { brackets_as_printed AS_SET_BRACKETS ≡ codes "{,}" }
    ensures confederation_sequences { brackets_as_printed CONFED_SEQUENCE_BRACKETS ≡ codes "( )" }
    ensures confederation_sets { brackets_as_printed CONFED_SET_BRACKETS ≡ codes "[,]" }
{}

/// States the values of constants that the theorems and contracts use by name: the types of AS path
/// segments, 1 to 4 (RFC 4271, section 4.3; RFC 5065, section 3), and the well-known communities
/// `NO_EXPORT`, `NO_ADVERTISE` and `NO_EXPORT_SUBCONFED` (RFC 1997).
pub fn law_path_constants()
    ensures segments { (AS_SET ≡ 1) × (AS_SEQUENCE ≡ 2) × (AS_CONFED_SEQUENCE ≡ 3)
        × (AS_CONFED_SET ≡ 4) }
    ensures communities { (NO_EXPORT ≡ 4294967041) × (NO_ADVERTISE ≡ 4294967042)
        × (NO_EXPORT_SUBCONFED ≡ 4294967043) }
{}
