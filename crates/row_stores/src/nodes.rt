//! Stores that may have nodes.

use rib_store::{LeakingStore, MapStore, RadixStore};

/// A store that may have nodes.
pub trait HasNodes {
    /// How many nodes it has, where it has any.
    fn node_count(&self) -> Option<u64>;
}

impl<R: Drop> HasNodes for MapStore<R> {
    fn node_count(&self) -> Option<u64> {
        None
    }
}

impl<R: Drop> HasNodes for RadixStore<R> {
    fn node_count(&self) -> Option<u64> {
        Some(self.nodes())
    }
}

impl<S> HasNodes for LeakingStore<S> {
    fn node_count(&self) -> Option<u64> {
        None
    }
}
