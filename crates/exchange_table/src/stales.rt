//! What open exchanges ask about.

ghost use Rattle.std.specs.Prelude.{◌≡◌, ◌≤◌, ◌<◌, ◌∷◌, ◌++◌, [], None, true, false, filter, length, nat_lt, option_copied, vec_capacity, vec_len, IfOk, IfSome, OnErr, OnOk};
ghost use Rattle.std.specs.List.{AllByRecursion};
ghost use Rattle.exchange_model.specs.declared.kept.Stale.{Stale as StaleValue};
ghost use Rattle.exchange_model.specs.Matters.{is_stale_of, stale_in};
ghost use Rattle.exchange_model.specs.Hearing.{is_stale_of_none};
ghost use Rattle.exchange_table.specs.Places.{RiseBy, IsOnlyAt, IsNowhere};
ghost use Rattle.exchange_table.specs.Stales.{asked_in, is_about_another};
ghost use Rattle.exchange_table.specs.Tables.{opening_of};

use crate::places::is_opened;
use exchange_model::{Exchange, Stale};
use resp_cache::StoredResponse;
use std::alloc::{AllocError, Global};
use std::marker::Model;

/// The stored responses of which open exchanges ask whether they are valid still, in the order of
/// the openings.
#[derive(Drop)]
pub struct Stales {
    stales: Vec<Stale>,
}

impl Model for Stales {
    ghost use Rattle.std.specs.Prelude.{vec_capacity, vec_len, nat_lt};
    ghost use Rattle.exchange_table.specs.Places.{RiseBy};
    ghost use Rattle.exchange_table.specs.Stales.{StalesValue, asked_in};

    ghost Value = { StalesValue };

    ghost view = { λ t. record {
      stales = t.stales.items;
      room = nat_lt (vec_len t.stales) (vec_capacity t.stales);
    } };

    ghost invariant = { λ t. RiseBy asked_in t.stales.items };
}

impl Stales {
    /// Nothing is asked about.
    pub fn new(alloc: Global) -> Stales
        ensures { result.stales ≡ [] }
    {
        Stales {
            stales: Vec::new(alloc),
        }
    }

    /// Makes room for one more, so that noting it takes no memory.
    pub fn make_room(&mut self) -> Result<(), AllocError>
        ensures same { self.new.stales ≡ self.old.stales }
        ensures room { OnOk result (self.new.room ≡ true) }
        ensures wanted { OnErr result (self.old.room ≡ false) }
    {
        self.stales.try_reserve(1)?;
        Ok(())
    }

    /// Notes what an exchange asks about that was opened after all others that ask so.
    pub fn push_in_room(&mut self, stale: Stale)
        requires room { self.old.room ≡ true }
        requires latest { AllByRecursion (λ (x : StaleValue).
            x.opening < stale.opening) self.old.stales }
        ensures { self.new.stales ≡ self.old.stales ++ stale ∷ [] }
    {
        self.stales.push_reserved(stale);
    }

    /// What the exchange with this opening asks about, if it does.
    pub fn of(&self, opening: u32) -> Option<&StoredResponse>
        ensures { option_copied result ≡ stale_in opening self.now.stales }
    {
        stale_of(&self.stales, opening)
    }

    /// The exchange with this opening asks about nothing any more. It takes no memory.
    pub fn drop_of(&mut self, opening: u32)
        ensures stales { self.new.stales ≡ filter (is_about_another opening) self.old.stales }
        ensures room { self.old.room ≡ true → self.new.room ≡ true }
    {
        drop_stale(&mut self.stales, opening);
    }

    /// Nor do these exchanges, which are in the order of their openings. It takes no memory.
    pub fn drop_all(&mut self, over: &[Exchange])
        requires { RiseBy opening_of over.now }
        ensures stales { self.new.stales ≡ filter (is_stale_of_none over.now) self.old.stales }
        ensures room { self.old.room ≡ true → self.new.room ≡ true }
    {
        drop_stales(&mut self.stales, over);
    }

    /// The same, which share the responses.
    pub fn copy(&self, alloc: Global) -> Result<Stales, AllocError>
        ensures { IfOk result (λ t. t.stales ≡ self.now.stales) }
    {
        let stales = copy_stales(alloc, &self.stales)?;
        Ok(Stales { stales })
    }
}

/// The place of what the exchange with this opening asks about.
fn stale_place(stales: &[Stale], opening: u32) -> Option<usize>
    requires { RiseBy asked_in stales.now }
    ensures below { IfSome result (λ i. i < length stales.now) }
    ensures some { IfSome result (IsOnlyAt (is_stale_of opening) stales.now) }
    ensures none { result ≡ None → IsNowhere (is_stale_of opening) stales.now }
{
    let place = stales.partition_point(
        |stale: &Stale| -> bool
            ensures { result ≡ nat_lt stale.now.opening opening }
        { stale.opening < opening },
    );
    let stale = stales.get(place)?;
    if stale.opening == opening {
        Some(place)
    } else {
        None
    }
}

/// What the exchange with this opening asks about.
fn stale_of(stales: &[Stale], opening: u32) -> Option<&StoredResponse>
    requires { RiseBy asked_in stales.now }
    ensures { option_copied result ≡ stale_in opening stales.now }
{
    let place = stale_place(stales, opening)?;
    Some(&stales[place].stored)
}

/// Drops what the exchange with this opening asks about, if it does.
fn drop_stale(stales: &mut Vec<Stale>, opening: u32)
    requires { RiseBy asked_in stales.old.items }
    ensures stales { stales.new.items ≡ filter (is_about_another opening) stales.old.items }
    ensures order { RiseBy asked_in stales.new.items }
    ensures fewer { vec_len stales.new ≤ vec_len stales.old }
    ensures capacity { vec_capacity stales.new ≡ vec_capacity stales.old }
{
    if let Some(place) = stale_place(stales.as_slice(), opening) {
        stales.remove(place);
    }
}

/// Drops what these exchanges ask about.
fn drop_stales(stales: &mut Vec<Stale>, over: &[Exchange])
    requires order { RiseBy asked_in stales.old.items }
    requires rising { RiseBy opening_of over.now }
    ensures stales { stales.new.items ≡ filter (is_stale_of_none over.now) stales.old.items }
    ensures order { RiseBy asked_in stales.new.items }
    ensures fewer { vec_len stales.new ≤ vec_len stales.old }
    ensures capacity { vec_capacity stales.new ≡ vec_capacity stales.old }
{
    stales.retain(|stale| !is_opened(over, stale.opening));
}

/// An equal list, which shares the responses.
fn copy_stales(alloc: Global, stales: &[Stale]) -> Result<Vec<Stale>, AllocError>
    ensures { IfOk result (λ v. v.items ≡ stales.now) }
{
    let mut copies = Vec::new(alloc);
    'each: for stale in stales {
        copies.push(Stale {
            opening: stale.opening,
            stored: stale.stored.share()?,
        })?;
    }
    Ok(copies)
}
