//! The set of the types of path attributes that a list has, and of those that it has more than
//! once. The parser of lists (`attribute_list.rt`) fills it, and the parsers of UPDATEs and of RIB
//! entries ask it for types that are there twice.

ghost use Rattle.std.specs.Prelude.{◌≡◌, ◌<◌, List, [], ◌∷◌, ◌++◌, true, false, None, is_some};
ghost use Rattle.bgp_wire.specs.Attribute.{Attribute, first_value, repeats};
ghost use Rattle.bgp_wire.specs.PlainValues.{AreTypesOf};

use crate::framing::KINDS;
use std::marker::Model;

/// Which types of path attributes a list has, and which of them it has more than once. Types
/// numbered [`KINDS`] or above, which aren't parsed, are never in the set.
#[derive(Drop)]
pub(crate) struct SeenTypes {
    /// For each type, by its number, `true` if an attribute of the type was seen.
    seen: [bool; KINDS],
    /// For each type, by its number, `true` if more than one attribute of the type was seen.
    again: [bool; KINDS],
}

impl Model for SeenTypes {
    ghost use Rattle.std.specs.Prelude.{◌≡◌, length};
    ghost use Rattle.bgp_wire.specs.declared.framing.TheConstants.{KINDS};
    ghost use Rattle.bgp_wire.specs.PlainValues.{SeenFlags};

    ghost Value = { SeenFlags };

    ghost view = { λ t. record { seen = t.seen; again = t.again } };

    ghost invariant = { λ t. (length t.seen ≡ KINDS) × (length t.again ≡ KINDS) };
}

impl SeenTypes {
    /// Returns a set for a list of which no attribute has been seen: no type is in it.
    #[inline]
    pub(crate) fn empty() -> SeenTypes
        ensures { AreTypesOf result [] }
    {
        SeenTypes {
            seen: [false; KINDS],
            again: [false; KINDS],
        }
    }

    /// Adds `kind`, the type of the next attribute of the list. Returns `true` if an attribute of
    /// this type was added before, and notes that a type of the list is repeated. Returns `false` if it is the
    /// first, or if `kind` isn't below [`KINDS`]; such a type isn't added.
    #[inline]
    pub(crate) fn test_and_set(&mut self, kind: u8) -> bool
        ensures noted { (list : List Attribute) (a : Attribute) → a.kind ≡ kind →
            AreTypesOf self.old list → AreTypesOf self.new (list ++ a ∷ []) }
        ensures later { (list : List Attribute) → AreTypesOf self.old list →
            result ≡ true → is_some (first_value kind list) ≡ true }
        ensures first { (list : List Attribute) → AreTypesOf self.old list →
            result ≡ false → kind < KINDS → first_value kind list ≡ None }
    {
        let place = usize::from(kind);
        if place >= KINDS {
            return false;
        }
        if self.seen[place] {
            self.again[place] = true;
            return true;
        }
        self.seen[place] = true;
        false
    }

    /// Returns `true` if at least one attribute of type `kind` was added, `false` if none was.
    /// Requires that `kind` is below [`KINDS`].
    #[inline]
    pub(crate) fn has(&self, kind: u8) -> bool
        requires { kind < KINDS }
        ensures { (list : List Attribute) → AreTypesOf self.now list →
            result ≡ is_some (first_value kind list) }
    {
        self.seen[usize::from(kind)]
    }

    /// Returns `true` if two or more attributes of type `kind` were added, `false` if one or none
    /// was. Requires that `kind` is below [`KINDS`].
    #[inline]
    pub(crate) fn was_seen_twice(&self, kind: u8) -> bool
        requires { kind < KINDS }
        ensures { (list : List Attribute) → AreTypesOf self.now list → result ≡ repeats kind list }
    {
        self.again[usize::from(kind)]
    }
}
