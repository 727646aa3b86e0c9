//! Lists that contracts see as lists.

ghost use Rattle.std.specs.Prelude.{◌≡◌, IfOk};
ghost use Rattle.proxy_settings.specs.Firsts.{firsts as firsts_of};

use std::alloc::{AllocError, AllocFailed, Global};
use std::collections::BTreeSet;
use std::marker::Model;

/// Items in the order of the file. Contracts see the list.
#[derive(Drop)]
pub struct Listing<T> {
    items: Vec<T>,
}

impl<T> Model for Listing<T> {
    ghost use Rattle.std.specs.Prelude.{List};

    ghost Value = { List T };

    ghost view = { λ l. l.items.items };
}

impl<T> Listing<T> {
    ghost use Rattle.std.specs.Prelude.{◌≡◌, [], ◌∷◌, ◌++◌, length, OnOk, OnErr};

    /// No items.
    pub fn new(alloc: Global) -> Listing<T>
        ensures { result ≡ [] }
    {
        Listing {
            items: Vec::new(alloc),
        }
    }

    /// Puts an item last.
    pub fn push(&mut self, item: T) -> Result<(), AllocFailed<T>>
        ensures ok { OnOk result (self.new ≡ self.old ++ item ∷ []) }
        ensures err { OnErr result (self.new ≡ self.old) }
    {
        self.items.push(item)
    }

    /// The items.
    pub fn as_slice(&self) -> &[T]
        ensures { result.now ≡ self.now }
    {
        self.items.as_slice()
    }

    /// How many there are.
    pub fn len(&self) -> usize
        ensures { result ≡ length self.now }
    {
        self.items.len()
    }
}

/// What has a name.
pub(crate) trait Named {
    ghost use Rattle.std.specs.Prelude.{List, ℕ};

    ghost name: { Self → List ℕ };

    fn name(&self) -> &str
        ensures { result.now ≡ name self.now };
}

/// Those that have no equal name before them.
pub(crate) fn firsts<T: Named + Drop>(
    alloc: Global,
    all: Listing<T>,
) -> Result<Listing<T>, AllocError>
    ensures { IfOk result (λ kept. kept ≡ firsts_of T.name all) }
{
    let Listing { items } = all;
    let mut seen = BTreeSet::new(alloc);
    let mut kept = Vec::new(alloc);
    'each: for item in items {
        let name = String::from_str(alloc, item.name())?;
        if seen.insert(name)? {
            kept.push(item)?;
        }
    }
    Ok(Listing { items: kept })
}
