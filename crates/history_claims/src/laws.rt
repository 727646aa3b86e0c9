//! What holds of the entries of every journal that stands, as contracts of functions that do
//! nothing.

ghost use Rattle.history_claims.specs.Stored.{RestsOnReplies, RestsOnStored};
ghost use Rattle.history_claims.specs.Causes.{NamesCause};
ghost use Rattle.history_claims.specs.Apart.{
  TokensOnce,
  IdsOnce,
  RepliesOnce,
  AnsweredOnce,
  AnswersAnAsk,
  AskedInTurn,
  AnsweredInOrder,
  CopiesFirst,
};

/// An answer that isn't the proxy's own rests on one whole response, heard under tokens that were
/// issued for what its ask means, and for the blocks of that one after another (RFC 7252 section
/// 5.3.2, RFC 7959 section 2.4).
pub fn rests_on_replies()
    ensures { RestsOnReplies }
{}

/// An answer that was kept rests on a whole 2.05 to an earlier ask for the same, or on one that the
/// journal begins with, which is fresh and outdated by no write (RFC 7252 sections 5.6, 5.9.2).
pub fn rests_on_stored()
    ensures { RestsOnStored }
{}

/// Every other answer names its cause, and the entry that shows it.
pub fn names_cause()
    ensures { NamesCause }
{}

/// Tokens, message IDs and replies serve once: a token one message, an ID one of those to an
/// endpoint in 494 seconds, a reply the answers, live or kept, to one ask or to GETs for the same
/// (RFC 7252 sections 4.4, 5.3.1, 5.6).
pub fn served_once()
    ensures tokens { TokensOnce }
    ensures ids { IdsOnce }
    ensures replies { RepliesOnce }
{}

/// Each ask is answered at most once, and those of a connection in their order, one after another
/// (RFC 9112 section 9.3).
pub fn answered_in_order()
    ensures once { AnsweredOnce }
    ensures asked { AnswersAnAsk }
    ensures in_turn { AskedInTurn }
    ensures in_order { AnsweredInOrder }
{}

/// A journal begins with the copies that it has of an older one's entries, in their order.
pub fn copies_first()
    ensures { CopiesFirst }
{}
