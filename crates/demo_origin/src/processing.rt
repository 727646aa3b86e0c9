//! What a device does with a request.

ghost use Rattle.std.specs.Prelude.{◌≡◌, ◌≢◌, ◌<◌, ◌^◌, slice_get, IfOk, IfSome, OnErr};
ghost use Rattle.coap_codec.specs.Spelling.{content};
ghost use Rattle.demo_origin.specs.Requests.{CanChange, asked, judged};
ghost use Rattle.demo_origin.specs.Hearing.{reply_of, piece_after, Comes, Executes, Finishes, TakesPiece, Asks, Processes};
ghost use Rattle.demo_origin.specs.Blocks.{IsSized};
ghost use Rattle.demo_origin.specs.Origins.{Sound, device, count};

use crate::answer::{Asker, ignore};
use crate::behaviour::Behaviour;
use crate::blocks::named_in;
use crate::execution::{Outcome, Taken, decline, execute, read, refuse, request_of};
use crate::fault::Memory;
use crate::judge::{Judged, judge};
use crate::observers::wish_in;
use crate::origin::Origin;
use crate::request::{CoapRequest, Method};
use crate::uploads::{
    Joined, before_piece, drop_upload, give_up, judge_piece, keep_piece, upload_of, whole_body,
};
use coap_codec::{Block, Message, number};

/// The code 4.06.
const NOT_ACCEPTABLE: u8 = 134;

/// The code 4.08.
const INCOMPLETE: u8 = 136;

/// The code 4.13.
const TOO_LARGE: u8 = 141;

impl<H: Behaviour> Origin<H> {
    /// What comes of a request for the resource of that number.
    fn outcome(&self, place: usize, request: &CoapRequest) -> Result<Outcome, Memory>
        requires sound { Sound H.relation self.now }
        requires place { place < count self.now }
        ensures comes { IfOk result (λ o. IfSome (slice_get self.now.state.resources.items place)
            (λ h. Comes H.relation h.state request.now o.after (reply_of o))) }
        ensures code { IfOk result (λ o. o.code ≢ 0) }
    {
        let handler = &self.handlers[place];
        let held = &self.state.resources[place];
        handler.outcome(self.alloc, held, request)
    }

    /// What comes of a message that asks for the resource of that number.
    fn outcome_of(&self, m: &mut Message, place: usize, method: Method) -> Result<Outcome, Memory>
        requires sound { Sound H.relation self.now }
        requires place { place < count self.now }
        ensures comes { IfOk result (λ o. IfSome (slice_get self.now.state.resources.items place)
            (λ h. Comes H.relation h.state (asked method (content m.old)) o.after (reply_of o))) }
        ensures code { IfOk result (λ o. o.code ≢ 0) }
    {
        let request = request_of(self.alloc, m, method)?;
        self.outcome(place, &request)
    }

    /// Executes a request.
    fn execute(
        &mut self,
        to: Asker,
        m: &mut Message,
        place: usize,
        method: Method,
    ) -> Result<Taken, Memory>
        requires sound { Sound H.relation self.old }
        requires place { place < count self.old }
        requires version { IfSome (slice_get self.old.state.resources.items place) CanChange }
        ensures ok { IfOk result (λ taken.
            Executes H.relation to (content m.old) place method
            (device self.old) (device self.new) taken) }
        ensures err { OnErr result (device self.new ≡ device self.old) }
        ensures handlers { self.new.handlers ≡ self.old.handlers }
        ensures resources { count self.new ≡ count self.old }
    {
        let outcome = self.outcome_of(m, place, method)?;
        execute(self.alloc, &mut self.state, to, place, method, outcome)
    }

    /// Processes a request that wasn't heard before.
    pub(crate) fn process(&mut self, to: Asker, m: &mut Message) -> Result<Option<Taken>, Memory>
        requires sound { Sound H.relation self.old }
        ensures ok { IfOk result (λ taken. let asked = content m.old in
            Processes H.relation to asked (judged asked self.old.state.resources.items)
            (device self.old) (device self.new) taken) }
        ensures err { OnErr result (device self.new ≡ device self.old) }
        ensures handlers { self.new.handlers ≡ self.old.handlers }
        ensures resources { count self.new ≡ count self.old }
    {
        match judge(self.alloc, m, &self.state.resources)? {
            Judged::Dropped => {
                ignore(&mut self.state, to)?;
                Ok(None)
            }
            Judged::Refused(code) => {
                refuse(self.alloc, &mut self.state, to, code)?;
                Ok(None)
            }
            Judged::NotAcceptable(place) => {
                let wish = wish_in(m);
                decline(self.alloc, &mut self.state, to, place, wish, NOT_ACCEPTABLE)?;
                Ok(None)
            }
            Judged::Read(place) => {
                read(self.alloc, &mut self.state, to, place, m)?;
                Ok(None)
            }
            Judged::Asked(place, method) => {
                let named = named_in(m, number::BLOCK1);
                self.ask(to, m, place, method, named)
            }
        }
    }

    /// Asks the handler, once the body is whole.
    fn ask(
        &mut self,
        to: Asker,
        m: &mut Message,
        place: usize,
        method: Method,
        named: Option<Block>,
    ) -> Result<Option<Taken>, Memory>
        requires sound { Sound H.relation self.old }
        requires place { place < count self.old }
        requires version { IfSome (slice_get self.old.state.resources.items place) CanChange }
        requires sized { IsSized named }
        ensures ok { IfOk result (λ taken.
            Asks H.relation to (content m.old) place method named
            (device self.old) (device self.new) taken) }
        ensures err { OnErr result (device self.new ≡ device self.old) }
        ensures handlers { self.new.handlers ≡ self.old.handlers }
        ensures resources { count self.new ≡ count self.old }
    {
        match named {
            None => {
                let taken = self.execute(to, m, place, method)?;
                Ok(Some(taken))
            }
            Some(b) => self.take_piece(to, m, place, method, b),
        }
    }

    /// Takes a piece of a body.
    fn take_piece(
        &mut self,
        to: Asker,
        m: &mut Message,
        place: usize,
        method: Method,
        b: Block,
    ) -> Result<Option<Taken>, Memory>
        requires sound { Sound H.relation self.old }
        requires place { place < count self.old }
        requires version { IfSome (slice_get self.old.state.resources.items place) CanChange }
        requires szx { b.szx < 7 }
        requires num { b.num < 2 ^ 20 }
        ensures ok { IfOk result (λ taken. let asked = content m.old in
            TakesPiece H.relation to asked place method b
            (piece_after to.peer place b asked (device self.old))
            (device self.old) (device self.new) taken) }
        ensures err { OnErr result (device self.new ≡ device self.old) }
        ensures handlers { self.new.handlers ≡ self.old.handlers }
        ensures resources { count self.new ≡ count self.old }
    {
        let k = upload_of(&self.state.uploads, &to.peer, place);
        let len = before_piece(&self.state.uploads, k, b).len();
        match judge_piece(b, len, m.payload.len()) {
            Joined::Gap => {
                give_up(self.alloc, &mut self.state, to, place, INCOMPLETE)?;
                Ok(None)
            }
            Joined::TooLarge => {
                give_up(self.alloc, &mut self.state, to, place, TOO_LARGE)?;
                Ok(None)
            }
            Joined::Next => {
                keep_piece(self.alloc, &mut self.state, to, place, b, m)?;
                Ok(None)
            }
            Joined::Last => {
                let taken = self.finish(to, m, place, method, b)?;
                Ok(Some(taken))
            }
        }
    }

    /// Executes a request whose last piece came.
    fn finish(
        &mut self,
        to: Asker,
        m: &mut Message,
        place: usize,
        method: Method,
        b: Block,
    ) -> Result<Taken, Memory>
        requires sound { Sound H.relation self.old }
        requires place { place < count self.old }
        requires version { IfSome (slice_get self.old.state.resources.items place) CanChange }
        ensures ok { IfOk result (λ taken.
            Finishes H.relation to (content m.old) place method b
            (device self.old) (device self.new) taken) }
        ensures err { OnErr result (device self.new ≡ device self.old) }
        ensures handlers { self.new.handlers ≡ self.old.handlers }
        ensures resources { count self.new ≡ count self.old }
    {
        let k = upload_of(&self.state.uploads, &to.peer, place);
        let before = before_piece(&self.state.uploads, k, b);
        let body = whole_body(self.alloc, before, &m.payload)?;
        m.payload = body;
        let taken = self.execute(to, m, place, method)?;
        drop_upload(&mut self.state.uploads, &to.peer, place);
        Ok(taken)
    }
}
