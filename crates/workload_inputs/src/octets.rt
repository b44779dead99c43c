//! Octets of records, put one behind the other.

use byteorder::{BigEndian, ByteOrder};
use std::alloc::{AllocError, Global};

/// Octets under way. What memory is refused for is left out, which is noted.
#[derive(Drop)]
pub(crate) struct Octets {
    octets: Vec<u8>,
    is_whole: bool,
}

impl Octets {
    /// No octets.
    pub(crate) fn new(alloc: Global) -> Self {
        Octets {
            octets: Vec::new(alloc),
            is_whole: true,
        }
    }

    /// Takes all octets out; what was noted stays so.
    pub(crate) fn clear(&mut self) {
        self.octets.clear();
    }

    /// How many octets there are.
    pub(crate) fn len(&self) -> usize {
        self.octets.len()
    }

    /// The octets from a place on; none where it lies behind them.
    pub(crate) fn behind(&self, place: usize) -> &[u8] {
        self.octets.get(place..).unwrap_or(&[])
    }

    /// Appends octets.
    pub(crate) fn put(&mut self, part: &[u8]) {
        if self.octets.extend_from_slice(part).is_err() {
            self.is_whole = false;
        }
    }

    /// Appends what others are, of which something may have been left out.
    pub(crate) fn put_octets(&mut self, others: &Octets) {
        self.put(&others.octets);
        self.is_whole &= others.is_whole;
    }

    /// Appends a number in two octets.
    pub(crate) fn put_u16(&mut self, number: u16) {
        self.put(&number.to_be_bytes());
    }

    /// Appends a number in four octets.
    pub(crate) fn put_u32(&mut self, number: u32) {
        self.put(&number.to_be_bytes());
    }

    /// Appends a length in an octet; one that doesn't fit as 255.
    pub(crate) fn put_len8(&mut self, len: usize) {
        self.put(&[u8::try_from(len).unwrap_or(u8::MAX)]);
    }

    /// Appends a length in two octets; one that doesn't fit as 65,535.
    pub(crate) fn put_len16(&mut self, len: usize) {
        self.put_u16(u16::try_from(len).unwrap_or(u16::MAX));
    }

    /// Appends a length in four octets; one that doesn't fit as the greatest number.
    pub(crate) fn put_len32(&mut self, len: usize) {
        self.put_u32(u32::try_from(len).unwrap_or(u32::MAX));
    }

    /// Appends what stands in front of octets; all of them where there are fewer.
    pub(crate) fn put_front(&mut self, whole: &[u8], len: usize) {
        self.put(&whole[..len.min(whole.len())]);
    }

    /// Writes a number over the two octets at a place, if they are there.
    pub(crate) fn set_u16(&mut self, place: usize, number: u16) {
        let octets = self.octets.as_mut_slice();
        if place <= octets.len() && octets.len() - place >= 2 {
            BigEndian::write_u16(&mut octets[place..], number);
        }
    }

    /// Tells that memory was refused, where something was left out.
    pub(crate) fn check(&self) -> Result<(), AllocError> {
        if self.is_whole {
            return Ok(());
        }
        Err(AllocError)
    }

    /// The octets, where nothing was left out.
    pub(crate) fn whole(self) -> Result<Vec<u8>, AllocError> {
        if self.is_whole {
            return Ok(self.octets);
        }
        Err(AllocError)
    }
}
