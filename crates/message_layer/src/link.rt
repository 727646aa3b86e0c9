//! A link towards one peer.

ghost use Rattle.std.specs.Prelude.{◌≡◌, ◌≤◌, ◌^◌, OnOk, OnErr, IfOk, IsOk, IsOkUnless, true, false};
ghost use Rattle.std.specs.Option.{option_map};
ghost use Rattle.limits.specs.declared.TheConstants.{LAST_MOMENT};
ghost use Rattle.coap_codec.specs.Spelling.{content};
ghost use Rattle.coap_codec.specs.Writing.{IsEncodable};
ghost use Rattle.message_layer.specs.Values.{told, empty_link};
ghost use Rattle.message_layer.specs.Sending.{ticked, submitted, Submits, IsSubmitted, due_of, is_over_by};
ghost use Rattle.message_layer.specs.Hearing.{hears, applied};
ghost use Rattle.message_layer.specs.Calls.{forgotten, expected, sent_out, without, out_empty, kept_link};
ghost use Rattle.message_layer.specs.Prepared.{IsUnnumberedCon, IsSubmission, MaySubmit, MayHeed, MayFollow, IsPreparedFor, IsTicking, link_after, followed, heeded};

use crate::bytes::Bytes;
use crate::fault::LinkFault;
use crate::mids::Mids;
use crate::prepared::{Hearing, Heeding, Submission, Ticking};
use crate::remembered::Remembered;
use crate::state::{State, Up};
use crate::{calls, hearing, more, over, sending};
use coap_codec::{Message, MsgType, Token};
use std::alloc::Global;
use std::collections::VecDeque;
use std::marker::Model;

/// The messages to and from one peer (RFC 7252 section 4).
///
/// Moments are milliseconds of any clock that doesn't go back.
pub struct Link {
    alloc: Global,
    state: State,
}

/// As derived; but written here, how all that it has is dropped is proved in this crate alone.
impl Drop for Link {
    fn drop(self) {
        let Link { alloc: _, state: _ } = self;
    }
}

impl Model for Link {
    ghost use Rattle.message_layer.specs.Values.{LinkValue, seen, shown, IsSound};

    ghost Value = { LinkValue };

    ghost view = { λ l. shown l.state };

    ghost invariant = { λ l. IsSound (seen l.state) };
}

impl Link {
    /// A link to which nothing was handed in.
    pub fn new(alloc: Global) -> Link
        ensures { result.state ≡ empty_link }
    {
        Link {
            alloc,
            state: State {
                waiting: Vec::new(alloc),
                outstanding: None,
                last_mid: None,
                given: Mids::new(alloc),
                awaited: Vec::new(alloc),
                heard: Remembered::new(alloc),
                out: VecDeque::new(alloc),
            },
        }
    }

    /// Takes a message to be sent as a CON: at once where nothing is outstanding, else in its
    /// turn. The link gives it its message ID when it is sent first; the word is random, and
    /// sets the initial timeout and the link's first ID. From the first sending on a response is
    /// awaited under its token.
    pub fn submit(&mut self, m: Message, moment: u64, word: u64) -> Result<(), LinkFault>
        requires moment { moment ≤ LAST_MOMENT }
        requires confirmable { m.kind ≡ MsgType.Con }
        requires encodable { IsEncodable (content m) }
        ensures ok { OnOk result (Submits moment word (content m) self.old.state self.new.state) }
        ensures err { OnErr result (self.new.state ≡ self.old.state) }
        ensures fault { IsSubmitted moment self.old.state result }
    {
        sending::submit(self.alloc, &mut self.state, m, moment, word)?;
        Ok(())
    }

    /// Whether there is a place for a message: among those that wait, and a message ID that isn't in
    /// use (RFC 7252 sections 4.4, 4.7).
    pub fn check(&self, moment: u64) -> Result<(), LinkFault>
        requires { moment ≤ LAST_MOMENT }
        ensures { IsSubmitted moment self.now.state result }
    {
        sending::check(&self.state, moment)
    }

    /// Prepares to take a message that is already encoded, as a CON under message ID 0. It
    /// allocates all that `submit_prepared` needs, and changes nothing else.
    #[tactic(auto, using(crate::proofs::Numbering::unnumbered_text))]
    pub fn prepare_submit(
        &mut self,
        token: Token,
        text: &[u8],
        moment: u64,
        word: u64,
    ) -> Result<Submission, LinkFault>
        requires moment { moment ≤ LAST_MOMENT }
        requires message { IsUnnumberedCon token text.now }
        ensures same { self.new.state ≡ self.old.state }
        ensures ok { IfOk result (λ x. IsSubmission moment token text.now word self.new x) }
        ensures fault { IsSubmitted moment self.old.state result }
    {
        sending::check(&self.state, moment)?;
        sending::prepare_submit(self.alloc, &mut self.state, token, text, moment, word)
    }

    /// Takes a message that was prepared at this moment, and the link has not changed since.
    pub fn submit_prepared(&mut self, x: Submission, moment: u64)
        requires moment { moment ≤ LAST_MOMENT }
        requires ready { MaySubmit moment self.old x }
        ensures { self.new.state ≡ submitted moment x.waiting self.old.state }
    {
        sending::submit_prepared(&mut self.state, x, moment);
    }

    /// Prepares a tick, after which nothing that bears one of these tokens is awaited or sent any
    /// more. It allocates all that `tick_prepared` needs, and changes nothing else.
    pub fn prepare_tick(&mut self, moment: u64, gone: &[Token]) -> Result<Ticking, LinkFault>
        requires { moment ≤ LAST_MOMENT }
        ensures same { self.new.state ≡ self.old.state }
        ensures ok { IfOk result (λ x. IsTicking moment gone.now self.new x) }
        ensures memory { IsOkUnless result LinkFault.Memory }
    {
        let x = sending::prepare_tick(self.alloc, &mut self.state, moment, gone)?;
        Ok(x)
    }

    /// Removes what bears one of these tokens, and does the tick that was prepared for that at this
    /// moment.
    pub fn tick_prepared(&mut self, x: Ticking, moment: u64, gone: &[Token]) -> Up
        requires moment { moment ≤ LAST_MOMENT }
        requires ready { IsTicking moment gone.now self.old x }
        ensures { ticked moment (without gone.now self.old.state) ≡ (self.new.state, told result) }
    {
        sending::tick_prepared(&mut self.state, x, moment, gone)
    }

    /// Looks at the timer: sends one copy, or gives the message up and sends the next one, or does
    /// nothing.
    pub fn tick(&mut self, moment: u64) -> Result<Up, LinkFault>
        requires { moment ≤ LAST_MOMENT }
        ensures ok { IfOk result (λ up. ticked moment self.old.state ≡ (self.new.state, told up)) }
        ensures err { OnErr result (self.new.state ≡ self.old.state) }
        ensures memory { IsOkUnless result LinkFault.Memory }
    {
        let x = self.prepare_tick(moment, &[])?;
        Ok(self.tick_prepared(x, moment, &[]))
    }

    /// Prepares to hear a datagram of the peer's: what it does to the link, and what it tells. It
    /// allocates all that `hear_prepared` needs, and changes nothing else. `None`: the datagram
    /// counts as lost, and nothing is to be done.
    pub fn prepare_heard(
        &mut self,
        datagram: &[u8],
        moment: u64,
    ) -> Result<Option<Hearing>, LinkFault>
        requires { moment ≤ LAST_MOMENT }
        ensures same { self.new.state ≡ self.old.state }
        ensures ok { IfOk result (λ o. IsPreparedFor moment datagram.now self.new o) }
        ensures memory { IsOkUnless result LinkFault.Memory }
    {
        hearing::prepare_heard(self.alloc, &mut self.state, datagram, moment)
    }

    /// Does what a datagram makes the link do, as it was prepared at this moment.
    pub fn hear_prepared(&mut self, x: Heeding, moment: u64)
        requires moment { moment ≤ LAST_MOMENT }
        requires ready { MayHeed moment self.old x }
        ensures { self.new.state ≡ applied moment x.mid x.token x.verdict self.old.state }
    {
        self.hear_with_more_prepared(x, None, moment);
    }

    /// Prepares that a message is taken after a datagram that was prepared at this moment: one
    /// that is spelled already, as a CON under message ID 0. It waits behind all that waits once
    /// the datagram was heard, and is sent at once where nothing is outstanding then. The room for
    /// both is there.
    #[tactic(auto, using(crate::proofs::Numbering::unnumbered_text))]
    pub fn prepare_more(
        &self,
        x: &Heeding,
        token: Token,
        text: &[u8],
        moment: u64,
        word: u64,
    ) -> Result<Submission, LinkFault>
        requires moment { moment ≤ LAST_MOMENT }
        requires ready { MayHeed moment self.now x.now }
        requires message { IsUnnumberedCon token text.now }
        ensures ok { IfOk result
            (λ more. IsSubmission moment token text.now word
            (link_after moment x.now self.now) more) }
        ensures fault { IsSubmitted moment (heeded moment x.now self.now.state) result }
    {
        more::check_more(&self.state, x, moment)?;
        more::prepare_more(self.alloc, &self.state, x, token, text, moment, word)
    }

    /// Does what a datagram makes the link do, and takes the message that was prepared after it,
    /// if there is one.
    pub fn hear_with_more_prepared(&mut self, x: Heeding, more: Option<Submission>, moment: u64)
        requires moment { moment ≤ LAST_MOMENT }
        requires ready { MayHeed moment self.old x }
        requires more { MayFollow moment self.old x more }
        ensures { self.new.state ≡ followed moment more (heeded moment x self.old.state) }
    {
        more::heed_with(&mut self.state, x, more, moment);
    }

    /// Takes a datagram of the peer's. A response is told even where it is rejected: `judge`
    /// says what it is good for. Where a response or an RST was told, or a message timed out,
    /// its token is awaited until `expect` says otherwise.
    pub fn heard(&mut self, datagram: &[u8], moment: u64) -> Result<Up, LinkFault>
        requires { moment ≤ LAST_MOMENT }
        ensures ok { IfOk result (λ up.
            hears moment datagram.now self.old.state ≡ (self.new.state, told up)) }
        ensures err { OnErr result (self.new.state ≡ self.old.state) }
        ensures memory { IsOkUnless result LinkFault.Memory }
    {
        let up = hearing::hear(self.alloc, &mut self.state, datagram, moment)?;
        Ok(up)
    }

    /// Messages with this token that still wait are not sent. Copies of one that was sent go on.
    pub fn forget(&mut self, token: &Token)
        ensures { self.new.state ≡ forgotten token.now self.old.state }
    {
        calls::forget(&mut self.state, token);
    }

    /// Whether a response in a CON or NON is awaited under this token.
    pub fn expect(&mut self, token: &Token, on: bool) -> Result<(), LinkFault>
        ensures ok { OnOk result (self.new.state ≡ expected token.now on self.old.state) }
        ensures err { OnErr result (self.new.state ≡ self.old.state) }
        ensures off { on ≡ false → IsOk result }
        ensures memory { IsOkUnless result LinkFault.Memory }
    {
        calls::expect(&mut self.state, token, on)?;
        Ok(())
    }

    /// The next datagram to be sent to the peer.
    pub fn take_send(&mut self) -> Option<Bytes>
        ensures { sent_out self.old.state ≡ (self.new.state, result) }
    {
        calls::take_send(&mut self.state)
    }

    /// Drops the datagrams that are to be sent, for a caller that took them from what was prepared.
    pub fn clear_out(&mut self)
        ensures { self.new.state ≡ out_empty self.old.state }
    {
        calls::clear_out(&mut self.state);
    }

    /// Forgets all that is under way: what waits or is outstanding, each token under which a
    /// response is awaited, and the datagrams that are to be given out. What has to be remembered
    /// at this moment stays: the message IDs that are in use (RFC 7252 section 4.4), and the CONs
    /// and NONs that may be repeated, by which a repeated one is answered as before (section 4.5).
    /// It takes no memory.
    pub fn forget_exchanges(&mut self, moment: u64)
        ensures { self.new.state ≡ kept_link moment self.old.state }
    {
        calls::forget_exchanges(&mut self.state, moment);
    }

    /// When a tick has something to do, in milliseconds; None where nothing is outstanding.
    pub fn next_due(&self) -> Option<u64>
        ensures { result ≡ option_map due_of self.now.state.outstanding }
    {
        sending::next_due(&self.state)
    }

    /// Whether nothing would be outstanding at this moment if all ticks came in time: by then at
    /// the latest the message that is, is given up (RFC 7252 section 4.2).
    pub fn is_over(&self, moment: u64) -> bool
        ensures { result ≡ is_over_by moment self.now.state.outstanding }
    {
        over::is_over(&self.state, moment)
    }

    /// An equal link, which shares the bytes of its messages.
    pub fn copy(&self) -> Result<Link, LinkFault>
        ensures ok { IfOk result (λ link. link.state ≡ self.now.state) }
        ensures memory { IsOkUnless result LinkFault.Memory }
    {
        Ok(Link {
            alloc: self.alloc,
            state: calls::copy(self.alloc, &self.state)?,
        })
    }
}
