//! The table of open exchanges.

ghost use Rattle.std.specs.Prelude.{◌≡◌, ◌∷◌, ◌++◌, [], Bool, true, false, filter, find, length, map, not, IfOk, OnErr, OnOk};
ghost use Rattle.std.specs.Option.{option_copied};
ghost use Rattle.exchange_model.specs.declared.kept.Exchange.{Exchange as Row};
ghost use Rattle.std.specs.List.{AllByRecursion, list_any};
ghost use Rattle.exchange_model.specs.Steps.{is_under, read_at, went_out};
ghost use Rattle.exchange_model.specs.Matters.{IsDigested, is_other, is_reading, left_by};
ghost use Rattle.exchange_model.specs.Hearing.{outdated_by};
ghost use Rattle.exchange_table.specs.Asks.{IsAskedHere};
ghost use Rattle.exchange_table.specs.Joining.{is_joined_by};
ghost use Rattle.exchange_table.specs.Tables.{IsLatest, IsNewest, is_under_none, went_on};

use crate::index::{self, Named};
use crate::marks::{self, Mark};
use crate::{joining, keyed, outrunning, rows};
use ask_model::Mapped;
use cache_key::{Digests, Key};
use coap_codec::Token;
use exchange_model::{Exchange, Work};
use journal_book::Journal;
use std::alloc::{AllocError, Global};
use std::marker::Model;
use transformers::Relation;

/// The open exchanges, in the order of their openings.
#[derive(Drop)]
pub struct Exchanges {
    rows: Vec<Exchange>,
    /// the same ones, in the order in which the tokens of their latest messages were issued
    names: Vec<Named>,
    /// the marks of the same ones by their keys
    keys: Vec<Mark>,
    /// and by their places
    places: Vec<Mark>,
}

impl Model for Exchanges {
    ghost use Rattle.std.specs.Prelude.{◌&&◌, vec_capacity, vec_len};
    ghost use Rattle.exchange_table.specs.Marks.{IsTable};
    ghost use Rattle.exchange_table.specs.Tables.{TableValue, has_room};

    ghost Value = { TableValue };

    ghost view = { λ t. record {
      exchanges = t.rows.items;
      room = has_room (vec_len t.rows) (vec_capacity t.rows)
          (vec_len t.names) (vec_capacity t.names)
          && has_room (vec_len t.keys) (vec_capacity t.keys)
          (vec_len t.places) (vec_capacity t.places);
    } };

    ghost invariant = { λ t. IsTable t.rows.items t.names.items t.keys.items t.places.items };
}

impl Exchanges {
    ghost use Rattle.exchange_table.specs.Places.{RiseBy};
    ghost use Rattle.exchange_table.specs.Tables.{opening_of};

    /// No exchange is open.
    pub fn new(alloc: Global) -> Exchanges
        ensures { result.exchanges ≡ [] }
    {
        Exchanges {
            rows: Vec::new(alloc),
            names: Vec::new(alloc),
            keys: Vec::new(alloc),
            places: Vec::new(alloc),
        }
    }

    /// All of them, in the order of their openings.
    pub fn as_slice(&self) -> &[Exchange]
        ensures all { result.now ≡ self.now.exchanges }
        ensures ordered { RiseBy opening_of self.now.exchanges }
    {
        &self.rows
    }

    /// The exchange whose latest message goes under the token.
    pub fn find(&self, token: &Token) -> Option<&Exchange>
        ensures { option_copied result ≡ find (is_under token.now) self.now.exchanges }
    {
        rows::row_under(&self.rows, &self.names, token)
    }

    /// The exchange that the request joins, where each has the digests of what it was opened for.
    /// No other is looked at than those whose keys have the digest of what it reads.
    pub fn joined<R: Relation>(&self, journal: &Journal<R>, mapped: &Mapped<R>) -> Option<&Exchange>
        requires digested { AllByRecursion (IsDigested journal.now.entries) self.now.exchanges }
        requires here { AllByRecursion (IsAskedHere journal.now.given journal.now.kept)
            self.now.exchanges }
        ensures { option_copied result
            ≡ find (is_joined_by journal.now.entries mapped.now.sense) self.now.exchanges }
    {
        joining::joined(&self.rows, &self.keys, journal, mapped)
    }

    /// Whether any of them reads what is under the key. No other is looked at than those whose keys
    /// have its digest.
    pub fn is_read<R: Relation>(&self, journal: &Journal<R>, key: &Key) -> bool
        requires digested { AllByRecursion (IsDigested journal.now.entries) self.now.exchanges }
        requires here { AllByRecursion (IsAskedHere journal.now.given journal.now.kept)
            self.now.exchanges }
        ensures { result ≡ list_any (is_reading journal.now.entries key.now) self.now.exchanges }
    {
        keyed::is_read(&self.rows, &self.keys, journal, key)
    }

    /// Makes room for one more, so that opening it takes no memory.
    pub fn make_room(&mut self) -> Result<(), AllocError>
        ensures same { self.new.exchanges ≡ self.old.exchanges }
        ensures room { OnOk result (self.new.room ≡ true) }
        ensures wanted { OnErr result (self.old.room ≡ false) }
    {
        self.rows.try_reserve(1)?;
        self.names.try_reserve(1)?;
        self.keys.try_reserve(1)?;
        self.places.try_reserve(1)?;
        Ok(())
    }

    /// Opens an exchange after all others, under a token that was issued after theirs.
    pub fn push_in_room(&mut self, exchange: Exchange)
        requires room { self.old.room ≡ true }
        requires latest { IsLatest exchange self.old.exchanges }
        ensures { self.new.exchanges ≡ self.old.exchanges ++ exchange ∷ [] }
    {
        self.names.push_reserved(Named {
            number: index::number_of(&exchange.token),
            opening: exchange.opening,
        });
        let Digests { key, place } = exchange.digests;
        marks::put_mark(&mut self.keys, marks::half_of(key), exchange.opening);
        marks::put_mark(&mut self.places, marks::half_of(place), exchange.opening);
        self.rows.push_reserved(exchange);
    }

    /// Notes that the message under the token went out, in the entry with this number.
    pub fn note_sending(&mut self, token: &Token, number: u32)
        ensures exchanges { self.new.exchanges
            ≡ map (went_out token.now number) self.old.exchanges }
        ensures room { self.new.room ≡ self.old.room }
    {
        rows::note_sending(&mut self.rows, &self.names, token, number);
    }

    /// The exchange under the token goes on with its next message under the next token, which was
    /// issued after those of all others, having come so far by its replies: what is fetched is new,
    /// where this is the first of them. It takes no memory.
    pub fn go_on(&mut self, token: &Token, next: &Token, work: Work, is_first: bool)
        requires { IsNewest next.now self.old.exchanges }
        ensures exchanges { self.new.exchanges
            ≡ map (went_on token.now next.now work is_first) self.old.exchanges }
        ensures room { self.new.room ≡ self.old.room }
    {
        rows::go_on(&mut self.rows, &mut self.names, token, next, work, is_first);
    }

    /// An ask reads at this moment what the exchange with this opening fetches. It takes no memory.
    pub fn read(&mut self, opening: u32, moment: u64)
        ensures exchanges { self.new.exchanges ≡ map (read_at moment opening) self.old.exchanges }
        ensures room { self.new.room ≡ self.old.room }
    {
        rows::read(&mut self.rows, opening, moment);
    }

    /// A notification of this key counts: what exchanges fetch of that is out of date. No other is
    /// looked at than those whose keys have its digest. It takes no memory.
    pub fn outdate<R: Relation>(&mut self, journal: &Journal<R>, key: &Key)
        requires digested { AllByRecursion (IsDigested journal.now.entries) self.old.exchanges }
        requires here { AllByRecursion (IsAskedHere journal.now.given journal.now.kept)
            self.old.exchanges }
        ensures exchanges { self.new.exchanges
            ≡ map (outdated_by journal.now.entries key.now) self.old.exchanges }
        ensures room { self.new.room ≡ self.old.room }
    {
        outrunning::outdate(&mut self.rows, &self.keys, journal, key);
    }

    /// An exchange has ended: where it was a write, GETs join those of its place no more. No other
    /// is looked at than those whose places have its digest.
    pub fn outrun<R: Relation>(&mut self, journal: &Journal<R>, ended: &Exchange)
        requires digested { AllByRecursion (IsDigested journal.now.entries) self.old.exchanges }
        requires here { AllByRecursion (IsAskedHere journal.now.given journal.now.kept)
            self.old.exchanges }
        requires ended { IsAskedHere journal.now.given journal.now.kept ended.now }
        ensures exchanges { self.new.exchanges
            ≡ left_by journal.now.entries (ended.now ∷ []) self.old.exchanges }
        ensures room { self.new.room ≡ self.old.room }
    {
        outrunning::outrun(&mut self.rows, &self.places, journal, ended);
    }

    /// Takes out the exchange whose latest message goes under the token.
    pub fn remove(&mut self, token: &Token)
        ensures { self.new.exchanges ≡ filter (is_other token.now) self.old.exchanges }
    {
        rows::remove(
            &mut self.rows,
            &mut self.names,
            &mut self.keys,
            &mut self.places,
            token,
        );
    }

    /// Takes out those of its exchanges that are given, each from its place. It takes no memory.
    pub fn remove_all(&mut self, over: &[Exchange])
        ensures others { self.new.exchanges ≡ filter (is_under_none over.now) self.old.exchanges }
        ensures those { (ends : Row → Bool) → over.now ≡ filter ends self.old.exchanges
            → self.new.exchanges ≡ filter (λ e. not (ends e)) self.old.exchanges }
    {
        rows::remove_all(
            &mut self.rows,
            &mut self.names,
            &mut self.keys,
            &mut self.places,
            over,
        );
    }

    /// The same exchanges.
    pub fn copy(&self, alloc: Global) -> Result<Exchanges, AllocError>
        ensures { IfOk result (λ t. t.exchanges ≡ self.now.exchanges) }
    {
        Ok(Exchanges {
            rows: Vec::from_slice(alloc, &self.rows)?,
            names: Vec::from_slice(alloc, &self.names)?,
            keys: Vec::from_slice(alloc, &self.keys)?,
            places: Vec::from_slice(alloc, &self.places)?,
        })
    }
}
