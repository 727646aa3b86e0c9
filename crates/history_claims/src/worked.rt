//! Worked journals: what their answers rest on and name, and what they don't.

ghost use Rattle.history_claims.specs.Worked.{
  Answered,
  TimedOut,
  Rejected,
  GivenUp,
  Crossed,
  Foreseen,
  Early,
  Late,
  Second,
  Unheeded,
  Unnamed,
  Unrejected,
  Abandoned,
  Joined,
  OutOfDate,
  HeardBefore,
  Unlike,
  CountedTwice,
  Unjoined,
  Fetched,
  Astray,
  AskedEarly,
  Gap,
  Uploaded,
  TurnedDown,
  LeftOut,
  Endless,
  AnsweredAnew,
  Repeated,
  SentAgain,
  Served,
  Expired,
  Overwritten,
  OtherQuery,
  ServedCarried,
  CarriedLate,
  CarriedForAnother,
  CarriedOutrun,
  Updated,
  Outdated,
  UpdatedInPieces,
  RestAlone,
  Renewed,
  OtherTag,
  ValidLate,
  RenewedAfter,
};

/// A separate response, and one in an ACK.
pub fn worked_answers()
    ensures { Answered }
{}

/// A deadline with and without a message, a Reset message, and five sendings with no reply.
pub fn worked_causes()
    ensures timed_out { TimedOut }
    ensures rejected { Rejected }
    ensures given_up { GivenUp }
{}

/// What an answer may not rest on or name: the response to another request, what comes after it, a
/// deadline before its time, a response after the deadline.
pub fn not_so()
    ensures crossed { Crossed }
    ensures foreseen { Foreseen }
    ensures early { Early }
    ensures late { Late }
{}

/// What comes too late excuses nothing: a second response, a deadline after the reply, a Reset
/// message after an ACK, an ask whose client has been gone for 93 seconds. Nor does an equal ask
/// that was answered before.
pub fn not_excused()
    ensures second { Second }
    ensures unheeded { Unheeded }
    ensures unnamed { Unnamed }
    ensures unrejected { Unrejected }
    ensures abandoned { Abandoned }
{}

/// A response that answers two. And what joining excuses nowhere: a response from before a write
/// was answered, or from before the ask, a deadline of what asks for something else, a crowd of
/// readers of one exchange, and that one is turned away who may join.
pub fn worked_readers()
    ensures joined { Joined }
    ensures out_of_date { OutOfDate }
    ensures heard_before { HeardBefore }
    ensures unlike { Unlike }
    ensures counted_twice { CountedTwice }
    ensures unjoined { Unjoined }
{}

/// A response in two pieces, and a second piece that isn't understood. And responses that are none,
/// whose second piece came to a message that asks for another block, or that was sent before the
/// first came.
pub fn worked_pieces()
    ensures fetched { Fetched }
    ensures astray { Astray }
    ensures early { AskedEarly }
    ensures gap { Gap }
{}

/// An answer to a body in two pieces, which rests on the answers to both; one that refuses the
/// first; and one to the last piece that isn't understood. And a response that is none without the
/// first answer.
pub fn worked_uploads()
    ensures uploaded { Uploaded }
    ensures turned_down { TurnedDown }
    ensures left_out { LeftOut }
    ensures endless { Endless }
{}

/// After copies of an older journal's entries: a response to what is asked anew, and what repeats
/// one of before. And a token of before, which nothing may bear any more.
pub fn worked_copies()
    ensures answered { AnsweredAnew }
    ensures repeated { Repeated }
    ensures sent_again { SentAgain }
{}

/// A response that is kept for an equal GET. And what it is kept for in vain: a GET when it is
/// fresh no more, one after a write, and one for something else.
pub fn worked_store()
    ensures served { Served }
    ensures expired { Expired }
    ensures overwritten { Overwritten }
    ensures query { OtherQuery }
{}

/// A response with which a journal begins, and which is kept for an equal GET. And what it is kept
/// for in vain, as above.
pub fn worked_carried()
    ensures served { ServedCarried }
    ensures late { CarriedLate }
    ensures query { CarriedForAnother }
    ensures overwritten { CarriedOutrun }
{}

/// A notification that is kept for an equal GET (RFC 7641 section 3.2), and one that a newer one
/// outdates.
pub fn worked_watches()
    ensures updated { Updated }
    ensures outdated { Outdated }
{}

/// An update in two pieces, the second of which is fetched: both answer a GET that joined between
/// them, and are kept for an equal GET (RFC 7641 section 3.2, RFC 7959 section 2.6). And what isn't
/// so: the second alone as an answer.
pub fn worked_updates()
    ensures both { UpdatedInPieces }
    ensures rest { RestAlone }
{
    // Its contract says that this journal is legal.
    history_laws::worked_updates();
}

/// A stored response that a 2.03 renews, once and again: told, and kept for an equal GET (RFC 7252
/// section 5.9.1.3). And what doesn't: a 2.03 with another ETag, one that answers the next message,
/// and any where a write to the place was answered before the ask.
pub fn worked_renewed()
    ensures renewed { Renewed }
    ensures other { OtherTag }
    ensures late { ValidLate }
    ensures written { RenewedAfter }
{}
