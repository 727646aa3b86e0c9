//! The segments of a path, and the arguments of a query.

ghost use Rattle.std.specs.Prelude.{◌≡◌, map, IfOk};
ghost use Rattle.coap_codec.specs.Spelling.{entries};
ghost use Rattle.coap_codec.specs.Values.{values};

use crate::fault::{Memory, out_of_memory};
use coap_codec::{Message, values_of};
use std::alloc::{AllocError, Global};
use std::marker::Model;

/// The value of a Uri-Path or Uri-Query option. Contracts see its bytes.
#[derive(Drop)]
pub struct Segment {
    bytes: Vec<u8>,
}

impl Model for Segment {
    ghost use Rattle.std.specs.Prelude.{ℕ, List};

    ghost Value = { List ℕ };

    ghost view = { λ s. s.bytes.items };
}

impl Segment {
    /// The segment with these bytes.
    pub fn copy_of(alloc: Global, bytes: &[u8]) -> Result<Segment, AllocError>
        ensures { IfOk result (λ s. s ≡ bytes.now) }
    {
        Ok(Segment {
            bytes: Vec::from_slice(alloc, bytes)?,
        })
    }

    /// Its bytes.
    pub fn as_slice(&self) -> &[u8]
        ensures { result.now ≡ self.now }
    {
        self.bytes.as_slice()
    }
}

impl PartialEq for Segment {
    ghost use Rattle.std.specs.Prelude.{◌==◌};
    ghost use Rattle.std.specs.Cmp.Lexicographic.{pointwise, nat_list_eq_equiv};
    ghost use Rattle.std.specs.Cmp.{partial_equiv_from_equiv};

    ghost eq = { pointwise ◌==◌ };

    ghost laws = { partial_equiv_from_equiv nat_list_eq_equiv };

    fn eq(&self, other: &Segment) -> bool {
        self.as_slice() == other.as_slice()
    }
}

/// Segments in order. Contracts see the list of their bytes.
#[derive(Drop)]
pub struct Segments {
    items: Vec<Segment>,
}

impl Model for Segments {
    ghost use Rattle.std.specs.Prelude.{ℕ, List};

    ghost Value = { List (List ℕ) };

    ghost view = { λ s. s.items.items };
}

impl Segments {
    ghost use Rattle.std.specs.Prelude.{[], ◌∷◌, ◌++◌, OnOk, OnErr};

    /// No segments.
    pub fn new(alloc: Global) -> Segments
        ensures { result ≡ [] }
    {
        Segments {
            items: Vec::new(alloc),
        }
    }

    /// Puts a copy of a segment last.
    pub fn push(&mut self, bytes: &[u8]) -> Result<(), AllocError>
        ensures ok { OnOk result (self.new ≡ self.old ++ bytes.now ∷ []) }
        ensures err { OnErr result (self.new ≡ self.old) }
    {
        let segment = Segment::copy_of(*self.items.allocator(), bytes)?;
        self.items.push(segment)?;
        Ok(())
    }

    /// The segments.
    pub fn as_slice(&self) -> &[Segment]
        ensures { result.now ≡ self.now }
    {
        self.items.as_slice()
    }

    /// A copy of the segments.
    pub fn copy(&self) -> Result<Segments, AllocError>
        ensures { IfOk result (λ s. s ≡ self.now) }
    {
        let alloc = *self.items.allocator();
        let mut items = Vec::new(alloc);
        'each: for segment in &self.items {
            items.push(Segment::copy_of(alloc, segment.as_slice())?)?;
        }
        Ok(Segments { items })
    }

    /// The values of the message's options of that number.
    pub(crate) fn of(alloc: Global, m: &Message, number: u16) -> Result<Segments, Memory>
        ensures { IfOk result (λ s. s ≡ values number (entries m.now.options.items)) }
    {
        let values = values_of(alloc, m, number).map_err(out_of_memory)?;
        let segments = Segments::copies_of(alloc, &values)?;
        Ok(segments)
    }

    fn copies_of(alloc: Global, values: &[&[u8]]) -> Result<Segments, AllocError>
        ensures { IfOk result (λ s. s ≡ map (λ value. value.now) values.now) }
    {
        let mut items = Vec::new(alloc);
        'each: for value in values {
            items.push(Segment::copy_of(alloc, value)?)?;
        }
        Ok(Segments { items })
    }
}

impl PartialEq for Segments {
    ghost use Rattle.std.specs.Prelude.{◌==◌};
    ghost use Rattle.std.specs.Cmp.Lexicographic.{pointwise, nat_list_eq_equiv, lists_equiv};
    ghost use Rattle.std.specs.Cmp.{partial_equiv_from_equiv};

    ghost eq = { pointwise (pointwise ◌==◌) };

    ghost laws = { partial_equiv_from_equiv (lists_equiv nat_list_eq_equiv) };

    fn eq(&self, other: &Segments) -> bool {
        self.as_slice() == other.as_slice()
    }
}
