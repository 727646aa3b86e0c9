//! What holds of every legal reading of a history, as contracts of functions that do nothing.

ghost use Rattle.ask_model.specs.Sharing.{AsksAlike};
ghost use Rattle.history_laws.specs.Laws.{
  TokensApart,
  IdsApart,
  AnsweredInOrder,
  AnsweredOnce,
  OneOutstanding,
  FewCopies,
  CopiedInTime,
  NoneLeft,
  OpenExactly,
  EndsFirst,
  FetchedInOrder,
  SendsNext,
  NoneAfterEnd,
  RepliesFit,
  AskedOnce,
  SentAtOnce,
  AnsweredAtOnce,
  NothingElseSent,
  OneJoinable,
  WritesInOrder,
  ReadsOpened,
  ObservesAsked,
  ObservesFew,
  BegunByNotices,
};
ghost use Rattle.history_laws.specs.Grounds.{
  CarriedRepliesFit,
  RestsOnItsOwn,
  ConfirmedAsAsked,
  RestsOnTheStore,
  NothingOutrun,
};

/// Tokens and message IDs keep the proxy's messages apart (RFC 7252 sections 4.4, 5.3.1): a token
/// is borne by one first sending of all, and an ID by one of those to a peer in 494 seconds.
pub fn sendings_apart()
    ensures tokens { TokensApart }
    ensures ids { IdsApart }
{}

/// Each ask is answered at most once, and those of a connection in their order (RFC 9112 section
/// 9.3).
pub fn answered_in_order()
    ensures in_order { AnsweredInOrder }
    ensures once { AnsweredOnce }
{}

/// To one peer one message is outstanding (NSTART, RFC 7252 section 4.7). It is copied four times
/// at most, and each copy goes out in the step of the first tick that finds it due (section 4.2).
pub fn one_outstanding()
    ensures one { OneOutstanding }
    ensures few { FewCopies }
    ensures in_time { CopiedInTime }
    ensures none_left { NoneLeft }
{}

/// An exchange is open exactly if it was opened and has not ended, and it ends at the first entry
/// that ends it. After that nothing goes out for it but copies.
pub fn open_exactly()
    ensures open_ones { OpenExactly }
    ensures first { EndsFirst }
    ensures none_after { NoneAfterEnd }
{}

/// A reply came after the first sending that it replies to, from its peer, under its token, and is
/// no repeat (RFC 7252 sections 4.5, 5.3.2). What a journal begins with has the copy of that
/// sending too.
pub fn replies_fit()
    ensures replies { RepliesFit }
    ensures carried { CarriedRepliesFit }
{}

/// Each message of an exchange is the next one after the replies before it, and a whole response
/// came piece by piece, each one after those before: the pieces of a representation, or the answers
/// to those of a body (RFC 7959 sections 2.4 and 2.3).
pub fn fetched_in_order()
    ensures next { SendsNext }
    ensures order { FetchedInOrder }
{}

/// What a write sends are one message, or blocks of its body, in order, without a gap and without
/// an overlap (RFC 7959 section 2.3).
pub fn writes_in_order()
    ensures { WritesInOrder }
{}

/// A GET joins the open exchange of an equal one, which goes to the same server in an equal message
/// (RFC 7252 section 5.6). There is one at most that it may join, and it was opened before.
pub fn readers_join_one()
    ensures alike { AsksAlike }
    ensures one { OneJoinable }
    ensures opened { ReadsOpened }
{}

/// An answer rests on replies to the exchange that its ask reads alone, or on those of a response
/// that was stored for what it asks and is fresh, or that the exchange has renewed (RFC 7252
/// section 5.6). They came to messages that ask just what it means; so no answer to a GET is older
/// than a write to its resource that had ended when it was asked.
pub fn rests_on_its_own()
    ensures own { RestsOnItsOwn }
    ensures store { RestsOnTheStore }
    ensures outrun { NothingOutrun }
{}

/// What is stored is renewed by the reply to a message that asks for that by its ETag (RFC 7252
/// section 5.9.1.3).
pub fn confirmed_as_asked()
    ensures { ConfirmedAsAsked }
{}

/// An ask for what is stored and fresh is served that, in its own step. Each other one opens one
/// exchange whose messages go out once each (RFC 7252 section 4.5 is why no request may go twice)
/// and wait only while another is outstanding at their peer; or it joins one; or it does neither
/// and is refused in its own step. Nothing else is sent but equal copies, ACKs and RSTs.
pub fn asked_once()
    ensures asked { AskedOnce }
    ensures sent { SentAtOnce }
    ensures answered { AnsweredAtOnce }
    ensures nothing_else { NothingElseSent }
{}

/// A resource is observed by a GET that asked for that, of a server whose resources are to be
/// observed, and was replied to (RFC 7641 section 3.1). At most 64 are. What a notification brings
/// the first piece of was asked for so, and no write to its place has ended since.
pub fn observed_as_asked()
    ensures asked { ObservesAsked }
    ensures few { ObservesFew }
    ensures begun { BegunByNotices }
{}
