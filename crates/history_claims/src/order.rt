//! What a device is asked, and when, as contracts of functions that do nothing but call others.

ghost use Rattle.history_claims.specs.Once.{AsksOnce};
ghost use Rattle.history_claims.specs.Order.{KeepsOrder};
ghost use Rattle.history_claims.specs.WorkedOrder.{
  AskedAnew,
  AskedApart,
  CopiedEarly,
  InOrder,
  NotWaited,
  SentTwice,
  ServedAgain,
  Waited,
};

use history_laws::writes_in_order;

/// An ask that can be answered by what is stored is, in its own moment, and a GET that can wait for
/// what was asked for another does: nothing is sent for either (RFC 7252 section 5.6).
pub fn asked_once()
    ensures { AsksOnce }
{}

/// What goes out is in order: each write once, as one message or in blocks without a gap (RFC 7959
/// section 2.3); to an endpoint one message at a time, under an ID of its own, and its copies when
/// they are due (RFC 7252 sections 4.2, 4.4, 4.7); and nothing else but confirmations. No answer to
/// a GET rests on a message from before a write that was answered when it was asked.
pub fn in_order()
    ensures { KeepsOrder }
{
    // Its contract says what a write sends.
    writes_in_order();
}

/// A response that is kept for an equal GET, and a GET that can wait for an equal one. And what
/// isn't so: a message of its own for either.
pub fn worked_once()
    ensures served { ServedAgain }
    ensures anew { AskedAnew }
    ensures waited { Waited }
    ensures apart { AskedApart }
{}

/// A message that is copied while another waits, and a body in two pieces. And what isn't so: a
/// copy before it is due, a message while another is on its way, and a DELETE that goes out once
/// more after its response.
pub fn worked_order()
    ensures in_order { InOrder }
    ensures early { CopiedEarly }
    ensures at_once { NotWaited }
    ensures twice { SentTwice }
{
    // Its contract says what a write sends.
    writes_in_order();
}
