//! Lists whose values in contracts are their elements alone, without a capacity. Communities and
//! the prefixes of messages are such lists. Read [`VecAsList`] first.

ghost use Rattle.std.specs.Prelude.{◌≡◌, []};

use std::alloc::{AllocError, Global};
use std::marker::Model;

/// A vector whose value in contracts is the list of its elements, without its capacity. So two of
/// these with equal elements are equal in contracts.
#[derive(Debug, Drop)]
pub struct VecAsList<T> {
    /// The vector of the elements.
    pub items: Vec<T>,
}

impl<T> Model for VecAsList<T> {
    ghost use Rattle.std.specs.Prelude.{List};

    ghost Value = { List T };

    ghost view = { λ a. a.items.items };
}

impl<T: Drop> VecAsList<T> {
    /// Converts a vector into a list of its elements, without copying them.
    #[inline]
    pub fn from_vec(items: Vec<T>) -> Self
        ensures { result ≡ items.items }
    {
        VecAsList { items }
    }

    /// Returns an empty list, without allocating memory. `alloc` is the allocator of its vector.
    #[inline]
    pub fn empty(alloc: Global) -> Self
        ensures { result ≡ [] }
    {
        VecAsList::from_vec(Vec::new(alloc))
    }

    /// Converts the list into a vector of its elements, without copying them. The vector may have
    /// spare capacity.
    #[inline]
    pub fn into_vec(self) -> Vec<T>
        ensures { result.items ≡ self }
    {
        let VecAsList { items: kept } = self;
        kept
    }

    /// Returns the elements as a slice, in order.
    #[inline]
    pub fn as_slice(&self) -> &[T]
        ensures { result.now ≡ self.now }
    {
        self.items.as_slice()
    }
}

impl Clone for VecAsList<u32> {
    ghost is_clone = { λ numbers copy. copy ≡ numbers };

    fn clone(&self) -> Result<VecAsList<u32>, AllocError> {
        let numbers = Vec::from_slice(*self.items.allocator(), self.as_slice())?;
        Ok(VecAsList::from_vec(numbers))
    }
}
