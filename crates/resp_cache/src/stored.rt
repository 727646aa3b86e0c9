//! Responses that are stored.

ghost use Rattle.std.specs.Prelude.{◌≡◌, IfOk};
ghost use Rattle.resp_cache.specs.Stored.{lifetime, is_fresh, has_no_lifetime, is_never_fresh};

use crate::response::Response;
use std::alloc::{AllocError, Global};
use std::marker::Model;
use std::sync::Arc;

/// How long a response without a Max-Age is fresh, in seconds (RFC 7252, section 5.10.5).
const DEFAULT_MAX_AGE: u32 = 60;

/// A response with what it rests on.
#[derive(Drop)]
struct Record {
    response: Arc<Response>,
    opening: u32,
    heard: u64,
    list: Vec<u32>,
}

/// A response that may be served again. Its copies share it.
#[derive(Drop)]
pub struct StoredResponse {
    record: Arc<Record>,
}

impl Model for StoredResponse {
    ghost use Rattle.std.specs.Arc.{arc_value};
    ghost use Rattle.resp_cache.specs.Stored.{Stored};

    ghost Value = { Stored };

    ghost view = { λ s. record {
      response = arc_value (arc_value s.record).response;
      opening = (arc_value s.record).opening;
      heard = (arc_value s.record).heard;
      list = (arc_value s.record).list.items;
    } };
}

/// How long it is fresh, in milliseconds.
fn lifetime_of(max_age: Option<u32>) -> u64
    ensures { result ≡ lifetime max_age }
{
    1000 * u64::from(max_age.unwrap_or(DEFAULT_MAX_AGE))
}

impl Response {
    /// Whether its Max-Age is 0, so that it isn't stored.
    pub fn is_never_fresh(&self) -> bool
        ensures { result ≡ has_no_lifetime self.now }
    {
        lifetime_of(self.max_age) == 0
    }
}

impl StoredResponse {
    ghost use Rattle.std.specs.Arc.{arc_value};
    ghost use Rattle.resp_cache.specs.Stored.{stored_of};

    /// A response, which isn't copied, the number of the journal's entry that opened its exchange,
    /// the moment in milliseconds from which its freshness counts, and the numbers of the entries
    /// that it rests on.
    pub fn new(
        alloc: Global,
        response: Arc<Response>,
        opening: u32,
        heard: u64,
        list: Vec<u32>,
    ) -> Result<StoredResponse, AllocError>
        ensures { IfOk result (λ s. s ≡ stored_of (arc_value response) opening heard list.items) }
    {
        let record = Record {
            response,
            opening,
            heard,
            list,
        };
        Ok(StoredResponse {
            record: Arc::new(alloc, record)?,
        })
    }

    /// The response.
    pub fn response(&self) -> &Response
        ensures { result.now ≡ self.now.response }
    {
        &self.record.response
    }

    /// The response, for all who are told it to share.
    pub fn shared(&self) -> &Arc<Response>
        ensures { arc_value result.now ≡ self.now.response }
    {
        &self.record.response
    }

    /// The number of the journal's entry that opened its exchange.
    pub fn opening(&self) -> u32
        ensures { result ≡ self.now.opening }
    {
        self.record.opening
    }

    /// The moment from which its freshness counts, in milliseconds.
    pub fn heard(&self) -> u64
        ensures { result ≡ self.now.heard }
    {
        self.record.heard
    }

    /// The numbers of the journal's entries that it rests on.
    pub fn list(&self) -> &[u32]
        ensures { result.now ≡ self.now.list }
    {
        self.record.list.as_slice()
    }

    /// Whether it may be served at this moment.
    pub fn is_fresh(&self, moment: u64) -> bool
        ensures { result ≡ is_fresh moment self.now }
    {
        let heard = self.record.heard;
        moment < heard || moment - heard < lifetime_of(self.record.response.max_age)
    }

    /// Whether its Max-Age is 0, so that it isn't stored.
    pub fn is_never_fresh(&self) -> bool
        ensures { result ≡ is_never_fresh self.now }
    {
        self.record.response.is_never_fresh()
    }

    /// The same once more, which isn't copied.
    pub fn share(&self) -> Result<StoredResponse, AllocError>
        ensures { IfOk result (λ s. s ≡ self.now) }
    {
        Ok(StoredResponse {
            record: Arc::try_clone(&self.record)?,
        })
    }

    /// The same response, which isn't copied, with what it rests on in another journal.
    pub fn carried(
        &self,
        alloc: Global,
        opening: u32,
        list: Vec<u32>,
    ) -> Result<StoredResponse, AllocError>
        ensures { IfOk result (λ s.
            s ≡ stored_of self.now.response opening self.now.heard list.items) }
    {
        let response = Arc::try_clone(&self.record.response)?;
        StoredResponse::new(alloc, response, opening, self.record.heard, list)
    }
}
