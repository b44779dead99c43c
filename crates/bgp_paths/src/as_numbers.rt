//! The AS numbers of a segment of an AS path. Most segments have few, which are held in place,
//! without a block of memory. Read [`AsNumbers`] first.

ghost use Rattle.std.specs.Prelude.{◌≡◌, ◌≤◌, ◌/◌, ◌%◌, [], length, take, true, OnOk, IfOk, IfErr};
ghost use Rattle.ip_prefix.specs.Sequences.{SpellsAll};
ghost use Rattle.bgp_paths.specs.Path.{SpellsAsn, asn_size};
ghost use Rattle.bgp_paths.specs.Readers.{Refuses};
ghost use Rattle.bgp_paths.specs.Numbers.{held_numbers, FitsArray};
ghost use Rattle.bgp_paths.specs.declared.as_numbers.TheConstants.{MOST_IN_PLACE};

use crate::fault::WireFault;
use crate::numbers::{AsWidth, fill_numbers};
use crate::replacing::copy_numbers;
use std::alloc::{AllocError, Global};
use std::marker::Model;
use std::mem;
use std::mem::size_of;

/// The largest number of AS numbers that an [`AsNumbers`] holds in itself: 7. For 8 or more, it has
/// a vector.
const MOST_IN_PLACE: usize = 7;

/// The greatest spare capacity, in AS numbers, of a vector that is reused for other AS numbers. A
/// vector with more is shrunk or replaced, so that stored paths take little memory.
const MOST_SPARE: u8 = 8;

/// Where the AS numbers of an [`AsNumbers`] are: in the value itself, or in a vector.
#[derive(Debug, Drop)]
enum HeldNumbers {
    /// The number of AS numbers, and an array that starts with them. What follows them there is
    /// unspecified.
    Few(u8, [u32; MOST_IN_PLACE]),
    /// Any number of AS numbers, in a vector.
    Listed(Vec<u32>),
}

/// The AS numbers of a segment of an AS path, in the order in which they are sent. Up to seven are
/// mostly held in the value itself, without a vector; more are in a vector. Seven or fewer are in a
/// vector too if they replaced the numbers of one of about that size. In contracts, the value is
/// the list of the AS numbers; where they are held doesn't show.
#[derive(Debug, Drop)]
pub struct AsNumbers {
    /// The AS numbers, in place or in a vector.
    held: HeldNumbers,
}

/// The largest size of an [`AsNumbers`] in octets, without the block of its vector. A larger one
/// fails the check of the crate, by the next line.
const NUMBERS_OCTETS: usize = 32;

const _: () = prove!(size_of::<AsNumbers>() <= NUMBERS_OCTETS);

impl Model for AsNumbers {
    ghost use Rattle.std.specs.Prelude.{ℕ, List};
    ghost use Rattle.bgp_paths.specs.Numbers.{held_numbers, FitsArray};

    ghost Value = { List ℕ };

    ghost view = { λ a. held_numbers a.held };

    ghost invariant = { λ a. FitsArray a.held };
}

impl AsNumbers {
    /// Returns an empty list, without allocating memory.
    #[inline]
    pub fn empty() -> AsNumbers
        ensures { result ≡ [] }
    {
        let held = HeldNumbers::Few(0, [0; MOST_IN_PLACE]);
        AsNumbers { held }
    }

    /// Returns a list of the AS numbers in `numbers`, held in the value itself, without allocating
    /// memory. Requires that there are at most seven ([`MOST_IN_PLACE`]) of them.
    #[inline]
    fn of_few(numbers: &[u32]) -> AsNumbers
        requires { length numbers.now ≤ MOST_IN_PLACE }
        ensures { result ≡ numbers.now }
    {
        let count = numbers.len();
        let mut places = [0; MOST_IN_PLACE];
        places[..count].copy_from_slice(numbers);
        let held = HeldNumbers::Few(count as u8, places);
        AsNumbers { held }
    }

    /// Converts a vector into a list of its AS numbers, which stay in the vector, also if they are
    /// few.
    #[inline]
    fn of_list(items: Vec<u32>) -> AsNumbers
        ensures { result ≡ items.items }
    {
        let held = HeldNumbers::Listed(items);
        AsNumbers { held }
    }

    /// Returns the AS numbers as they are held, in an array or in a vector.
    #[inline]
    fn into_held(self) -> HeldNumbers
        ensures held { FitsArray result }
        ensures numbers { held_numbers result ≡ self }
    {
        let AsNumbers { held: kept } = self;
        kept
    }

    /// Converts a vector into a list of its AS numbers, without allocating memory. Up to seven are
    /// copied into the list itself, and the vector's memory is freed; more stay in the vector.
    pub fn from_vec(items: Vec<u32>) -> AsNumbers
        ensures { result ≡ items.items }
    {
        if items.len() <= MOST_IN_PLACE {
            return AsNumbers::of_few(items.as_slice());
        }
        AsNumbers::of_list(items)
    }

    /// Returns a list of copies of `numbers`, without spare capacity. Memory is allocated only if
    /// there are more than seven. Returns `AllocError` if memory allocation fails.
    pub(crate) fn from_slice(alloc: Global, numbers: &[u32]) -> Result<AsNumbers, AllocError>
        ensures { IfOk result (λ list. list ≡ numbers.now) }
    {
        if numbers.len() <= MOST_IN_PLACE {
            return Ok(AsNumbers::of_few(numbers));
        }
        Ok(AsNumbers::of_list(Vec::from_slice(alloc, numbers)?))
    }

    /// Converts the list into a vector of its AS numbers, which may have spare capacity. Allocates
    /// memory only if the numbers are held in the list itself. Returns `AllocError` if memory
    /// allocation fails.
    pub fn into_vec(self, alloc: Global) -> Result<Vec<u32>, AllocError>
        ensures { IfOk result (λ items. items.items ≡ self) }
    {
        match self.into_held() {
            HeldNumbers::Few(count, places) => {
                Vec::from_slice(alloc, &places[..usize::from(count)])
            }
            HeldNumbers::Listed(items) => Ok(items),
        }
    }

    /// Returns the AS numbers as a slice, in order.
    #[inline]
    pub fn as_slice(&self) -> &[u32]
        ensures { result.now ≡ self.now }
    {
        match &self.held {
            HeldNumbers::Few(count, places) => &places[..usize::from(*count)],
            HeldNumbers::Listed(items) => items.as_slice(),
        }
    }

    /// Returns the number of further AS numbers that the list's vector has memory for, or 0 if the
    /// numbers are held in the list itself.
    #[inline]
    pub fn spare_capacity(&self) -> usize {
        match &self.held {
            HeldNumbers::Few(..) => 0,
            HeldNumbers::Listed(items) => items.capacity() - items.len(),
        }
    }

    /// Converts this list into a copy of `numbers`. Its own numbers are dropped. Its vector, if it
    /// has one, is reused if its capacity is enough, and at most eight ([`MOST_SPARE`]) above what
    /// is needed. Otherwise, memory is allocated if there are more than seven numbers. Returns
    /// `AllocError` if memory allocation fails.
    #[inline]
    pub(crate) fn replaced_by(self, numbers: &AsNumbers) -> Result<AsNumbers, AllocError>
        ensures { IfOk result (λ copy. copy ≡ numbers.now) }
    {
        let most = numbers.as_slice().len() + usize::from(MOST_SPARE);
        if let HeldNumbers::Listed(old) = self.into_held()
            && old.capacity() <= most
        {
            let copy = copy_numbers(old, numbers.as_slice(), MOST_SPARE)?;
            return Ok(AsNumbers::of_list(copy));
        }
        numbers.clone()
    }

    /// Replaces the numbers of the list with those in `octets`, AS numbers of `width`, big-endian,
    /// if the list has no vector and needs none for them, and returns `true` then. Returns `false`,
    /// with the list unchanged, if the list has a vector, if `octets` has more than seven numbers,
    /// or if `octets` ends inside a number.
    #[inline(always)]
    fn fill_in_place(&mut self, width: AsWidth, octets: &[u8]) -> bool
        ensures { result ≡ true → SpellsAll (SpellsAsn width) self.new octets.now }
    {
        let size = width.octets();
        let count = octets.len() / size;
        if octets.len() % size == 0
            && count <= MOST_IN_PLACE
            && let HeldNumbers::Few(held_count, _) = &mut self.held
        {
            *held_count = count as u8;
            // A pattern borrows one field to write to, so there are two.
            if let HeldNumbers::Few(_, places) = &mut self.held {
                parse_numbers_into(width, octets, places);
                return true;
            }
        }
        false
    }

    /// Replaces the numbers of the list with those in `octets`: AS numbers of `width`, big-endian.
    /// Reuses the vector of the list, if it has one, if its capacity is enough, and at most eight
    /// ([`MOST_SPARE`]) above what is needed. Otherwise, allocates memory if there are more than
    /// seven numbers. Fails with `Malformed` if `octets` ends inside a number, or with `Memory` if
    /// memory allocation fails; the list is then unspecified.
    #[inline(never)]
    fn refill(&mut self, alloc: Global, width: AsWidth, octets: &[u8]) -> Result<(), WireFault>
        ensures filled { OnOk result (SpellsAll (SpellsAsn width) self.new octets.now) }
        ensures refused { IfErr result (Refuses (SpellsAll (SpellsAsn width)) octets.now) }
    {
        // It is out of line, since most segments have few AS numbers.
        let mut items = match mem::replace(self, AsNumbers::empty()).into_held() {
            HeldNumbers::Few(..) => Vec::new(alloc),
            HeldNumbers::Listed(items) => items,
        };
        let most = octets.len() / width.octets() + usize::from(MOST_SPARE);
        if items.capacity() > most && self.fill_in_place(width, octets) {
            return Ok(());
        }
        let result = fill_numbers(&mut items, width, octets, MOST_SPARE);
        self.held = HeldNumbers::Listed(items);
        result
    }

    /// Replaces the numbers of the list with those in `octets`: AS numbers of `width`, big-endian.
    /// The list is empty afterwards if `octets` is. Reuses the vector of the list, if it has one,
    /// if its capacity is enough, and at most eight above what is needed. Otherwise, allocates
    /// memory if there are more than seven numbers. Fails with `Malformed` if `octets` ends inside
    /// a number, or with `Memory` if memory allocation fails; the list is then unspecified.
    #[inline(always)]
    pub fn fill(&mut self, alloc: Global, width: AsWidth, octets: &[u8]) -> Result<(), WireFault>
        ensures filled { OnOk result (SpellsAll (SpellsAsn width) self.new octets.now) }
        ensures refused { IfErr result (Refuses (SpellsAll (SpellsAsn width)) octets.now) }
    {
        if self.fill_in_place(width, octets) {
            return Ok(());
        }
        let most = octets.len() / width.octets() + usize::from(MOST_SPARE);
        match &mut self.held {
            HeldNumbers::Listed(items) if items.capacity() <= most => {
                fill_numbers(items, width, octets, MOST_SPARE)
            }
            _ => self.refill(alloc, width, octets),
        }
    }
}

impl Clone for AsNumbers {
    ghost is_clone = { λ numbers copy. copy ≡ numbers };

    fn clone(&self) -> Result<AsNumbers, AllocError> {
        match &self.held {
            HeldNumbers::Few(count, places) => {
                let held = HeldNumbers::Few(*count, *places);
                Ok(AsNumbers { held })
            }
            HeldNumbers::Listed(items) => {
                AsNumbers::from_slice(*items.allocator(), items.as_slice())
            }
        }
    }
}

/// Parses `octets` as AS numbers of `width`, big-endian, and writes them to the first elements of
/// `places`. The other elements are unchanged. Requires that `octets` doesn't end inside a number,
/// and has at most seven ([`MOST_IN_PLACE`]) of them.
#[inline(always)]
fn parse_numbers_into(width: AsWidth, octets: &[u8], places: &mut [u32; MOST_IN_PLACE])
    requires whole { length octets.now % asn_size width ≡ 0 }
    requires room { length octets.now / asn_size width ≤ MOST_IN_PLACE }
    ensures numbers { SpellsAll (SpellsAsn width)
        (take (length octets.now / asn_size width) places.new) octets.now }
    ensures kept { length places.new ≡ MOST_IN_PLACE }
{
    // It is inlined, so that there is a loop for each width.
    let size = width.octets();
    let mut count = 0;
    let mut rest = octets;
    while !rest.is_empty() {
        let (front, more) = rest.split_at(size);
        places[count] = width.number(front);
        count += 1;
        rest = more;
    }
}
