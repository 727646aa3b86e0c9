//! Items that several lists share.

ghost use Rattle.std.specs.Prelude.{◌≡◌, [], IfOk};

use std::alloc::{AllocError, Global};
use std::marker::Model;
use std::sync::Arc;

/// A list of items, made once and never changed; all who have it share it.
#[derive(Drop)]
pub struct Earlier<T: Copy> {
    items: Option<Arc<Vec<T>>>,
}

impl<T: Copy> Model for Earlier<T> {
    ghost use Rattle.std.specs.Prelude.{List, [], None, Some};
    ghost use Rattle.std.specs.Arc.{arc_value};

    ghost Value = { List T };

    ghost view = { λ e.
        elim e.items as (λ _. List T) [ None ↦ [] | Some a ↦ (arc_value a).items ] };
}

impl<T: Copy> Earlier<T> {
    pub fn none() -> Earlier<T>
        ensures { result ≡ [] }
    {
        Earlier { items: None }
    }

    /// Takes the items over.
    pub fn new(alloc: Global, items: Vec<T>) -> Result<Earlier<T>, AllocError>
        ensures { IfOk result (λ e. e ≡ items.items) }
    {
        let items = Arc::new(alloc, items)?;
        Ok(Earlier { items: Some(items) })
    }

    /// The same items, shared and not copied.
    pub fn share(&self) -> Result<Earlier<T>, AllocError>
        ensures { IfOk result (λ e. e ≡ self.now) }
    {
        match &self.items {
            None => Ok(Earlier::none()),
            Some(items) => {
                let items = Arc::try_clone(items)?;
                Ok(Earlier { items: Some(items) })
            }
        }
    }

    /// The items.
    pub fn as_slice(&self) -> &[T]
        ensures { result.now ≡ self.now }
    {
        match &self.items {
            None => &[],
            Some(items) => items.as_slice(),
        }
    }
}
