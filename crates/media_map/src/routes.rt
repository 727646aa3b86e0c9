//! Between which forms bodies can be transformed.

ghost use Rattle.std.specs.Prelude.{◌≡◌, [], ◌∷◌, ◌++◌, OnOk, OnErr, IfOk};

use crate::form::Form;
use std::alloc::{AllocError, Global};
use std::marker::Model;

/// Pairs (from, to) of forms, the first of equal ones counting. Contracts see the list.
#[derive(Debug, Drop)]
pub struct Routes {
    pairs: Vec<(Form, Form)>,
}

impl Model for Routes {
    ghost use Rattle.std.specs.Prelude.{List};
    ghost use Rattle.media_map.specs.declared.form.Form.{Form};

    ghost Value = { List (Form × Form) };

    ghost view = { λ r. r.pairs.items };
}

impl Routes {
    /// No pairs.
    pub fn new(alloc: Global) -> Routes
        ensures { result ≡ [] }
    {
        Routes {
            pairs: Vec::new(alloc),
        }
    }

    /// Puts a pair last.
    pub fn push(&mut self, from: Form, to: Form) -> Result<(), AllocError>
        ensures ok { OnOk result (self.new ≡ self.old ++ (from, to) ∷ []) }
        ensures err { OnErr result (self.new ≡ self.old) }
    {
        self.pairs.push((from, to))?;
        Ok(())
    }

    /// The pairs in order.
    pub fn as_slice(&self) -> &[(Form, Form)]
        ensures { result.now ≡ self.now }
    {
        self.pairs.as_slice()
    }

    /// An equal value.
    pub fn copy(&self) -> Result<Routes, AllocError>
        ensures { IfOk result (λ r. r ≡ self.now) }
    {
        let mut pairs = Vec::new(*self.pairs.allocator());
        'each: for pair in self.pairs.iter() {
            pairs.push((pair.0.copy()?, pair.1.copy()?))?;
        }
        Ok(Routes { pairs })
    }
}
