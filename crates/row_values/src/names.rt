//! Names that stand for octets.

use std::alloc::{AllocError, Global};

/// A name, and the octets that it stands for.
#[derive(Drop)]
struct Named {
    name: String,
    octets: Vec<u8>,
}

impl Named {
    /// A copy of both.
    fn copied(alloc: Global, name: &str, octets: &[u8]) -> Result<Self, AllocError> {
        Ok(Named {
            name: String::from_str(alloc, name)?,
            octets: Vec::from_slice(alloc, octets)?,
        })
    }
}

/// All names so far. Of two that are alike the later one counts.
#[derive(Drop)]
pub struct Names {
    all: Vec<Named>,
}

impl Names {
    /// None.
    pub fn new(alloc: Global) -> Self {
        Names {
            all: Vec::new(alloc),
        }
    }

    /// Has the name stand for these octets.
    pub fn put(&mut self, alloc: Global, name: &str, octets: &[u8]) -> Result<(), AllocError> {
        self.all.push(Named::copied(alloc, name, octets)?)?;
        Ok(())
    }

    /// The octets that the name stands for.
    pub fn get(&self, name: &str) -> Option<&[u8]> {
        for named in self.all.iter().rev() {
            if named.name.as_str() == name {
                return Some(named.octets.as_slice());
            }
        }
        None
    }
}
