//! Numbers of entries.

use std::alloc::{AllocError, Global};
use std::marker::Model;
use std::slice::from_ref;

/// Where they are: a single one in the value itself, others on the heap.
#[derive(Debug, Drop)]
enum Items {
    One(u32),
    Many(Vec<u32>),
}

/// Numbers of entries, which contracts see as a list. A single one takes no memory.
#[derive(Debug, Drop)]
pub struct Numbers {
    items: Items,
}

impl Model for Numbers {
    ghost use Rattle.std.specs.Prelude.{List, ℕ};
    ghost use Rattle.journal_book.specs.Listing.{listed};

    ghost Value = { List ℕ };

    ghost view = { λ n. listed n.items };
}

impl Numbers {
    ghost use Rattle.std.specs.Prelude.{◌≡◌, IfOk};

    /// A copy of the numbers.
    pub fn from_slice(alloc: Global, numbers: &[u32]) -> Result<Numbers, AllocError>
        ensures { IfOk result (λ n. n ≡ numbers.now) }
    {
        let items = match numbers {
            [number] => Items::One(*number),
            _ => Items::Many(Vec::from_slice(alloc, numbers)?),
        };
        Ok(Numbers { items })
    }

    pub fn as_slice(&self) -> &[u32]
        ensures { result.now ≡ self.now }
    {
        match &self.items {
            Items::One(number) => from_ref(number),
            Items::Many(items) => items.as_slice(),
        }
    }

    /// An equal value.
    pub fn copy(&self) -> Result<Numbers, AllocError>
        ensures { IfOk result (λ n. n ≡ self.now) }
    {
        let items = match &self.items {
            Items::One(number) => Items::One(*number),
            Items::Many(items) => {
                Items::Many(Vec::from_slice(*items.allocator(), items.as_slice())?)
            }
        };
        Ok(Numbers { items })
    }
}
