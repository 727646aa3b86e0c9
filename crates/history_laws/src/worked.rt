//! Worked journals: each is legal and at rest, or, where it is spoiled in one entry, not legal.

ghost use Rattle.history_laws.specs.Worked.{Holds, Refused};
ghost use Rattle.history_laws.specs.WorkedCarried as A;
ghost use Rattle.history_laws.specs.WorkedCopies as C;
ghost use Rattle.history_laws.specs.WorkedEndings as E;
ghost use Rattle.history_laws.specs.WorkedLate as L;
ghost use Rattle.history_laws.specs.WorkedMessages as M;
ghost use Rattle.history_laws.specs.WorkedPieces as P;
ghost use Rattle.history_laws.specs.WorkedReaders as R;
ghost use Rattle.history_laws.specs.WorkedRenewed as V;
ghost use Rattle.history_laws.specs.WorkedSpoiled as S;
ghost use Rattle.history_laws.specs.WorkedStore as K;
ghost use Rattle.history_laws.specs.WorkedUpdates as N;
ghost use Rattle.history_laws.specs.WorkedUploads as U;
ghost use Rattle.history_laws.specs.WorkedWatches as W;

/// Copies, an empty ACK, a separate response, its repeat, a message that waits, deadlines.
pub fn worked_messages()
    ensures answered { Holds M.all_answered }
    ensures given_up { Holds M.given_up }
    ensures copied_early { Refused M.copied_early }
    ensures not_waited { Refused M.not_waited }
    ensures not_acknowledged { Refused M.not_acknowledged }
    ensures not_copied { Refused M.not_copied }
{}

/// A response in a NON, a Reset message, and five sendings with no reply.
pub fn worked_endings()
    ensures rejected { Holds E.rejected }
    ensures timed_out { Holds E.timed_out }
{}

/// What comes too late to count: a second response under a token, a Reset message after an ACK, the
/// end of an exchange whose client is gone. And a reply to one of two asks.
pub fn worked_late()
    ensures heard_twice { Holds L.heard_twice }
    ensures half_answered { Holds L.half_answered }
    ensures rejected_after { Holds L.rejected_after }
    ensures abandoned { Holds L.abandoned }
{}

/// A GET whose response comes in two pieces, and one whose second piece leaves a gap. And what is
/// wrong there: another block asked for than the next one.
pub fn worked_pieces()
    ensures fetched { Holds P.fetched }
    ensures gap { Holds P.gap_heard }
    ensures other { Refused P.other_asked }
{}

/// A PUT whose body goes in two pieces, as the first answer asks for smaller ones; one that is
/// refused after the first piece; and one whose last piece isn't answered. And what is wrong there:
/// a piece before the answer to the one before, or one that has bytes of that.
pub fn worked_uploads()
    ensures uploaded { Holds U.uploaded }
    ensures turned_down { Holds U.turned_down }
    ensures endless { Holds U.endless }
    ensures hurried { Refused U.hurried }
    ensures overlapping { Refused U.overlapping }
{}

/// GETs that are asked by several: one response for two, and an exchange of its own where a write
/// has ended since. And what is wrong there: an exchange for each, one joined that a write has
/// outrun, a PUT that joins, a reader that isn't told.
pub fn worked_readers()
    ensures both { Holds R.both_answered }
    ensures anew { Holds R.read_anew }
    ensures twice { Refused R.asked_twice }
    ensures before { Refused R.read_before }
    ensures put { Refused R.put_once }
    ensures one_told { Refused R.one_told }
{}

/// A GET that is answered from the store, in the last millisecond in which the response is fresh,
/// and one that goes out anew in the next. And what is wrong there: each in the moment of the
/// other, an answer kept after its ask's moment, for another query or Accept, after a write to the
/// place, the older one of two responses.
pub fn worked_store()
    ensures served { Holds K.read_from_store }
    ensures anew { Holds K.fetched_when_stale }
    ensures vain { Refused K.fetched_though_fresh }
    ensures expired { Refused K.read_expired }
    ensures late { Refused K.kept_late }
    ensures query { Refused K.other_query }
    ensures accept { Refused K.other_accept }
    ensures outdated { Refused K.read_outdated }
    ensures older { Refused K.read_older }
{}

/// A GET that asks by an ETag whether what was stored is valid still, as a 2.03 says that it is;
/// one that is served that, in the last millisecond in which it is fresh, counted from the 2.03;
/// one that asks once more; a 2.03 with another ETag, and one to a later message, which aren't
/// understood. And what is wrong there: that these renew; asking while it is fresh, after a write
/// to the place, or by a later message.
pub fn worked_renewed()
    ensures renewed { Holds V.renewed }
    ensures served { Holds V.served_renewed }
    ensures again { Holds V.renewed_again }
    ensures unknown { Holds V.unknown_tag }
    ensures late_unknown { Holds V.late_unknown }
    ensures other_tag { Refused V.other_tag }
    ensures late { Refused V.valid_late }
    ensures fresh { Refused V.asked_while_fresh }
    ensures outrun { Refused V.asked_outrun }
    ensures tagged_late { Refused V.tagged_late }
{}

/// What goes out wrongly: too often, under another or a used message ID, or before its turn.
pub fn spoiled_sendings()
    ensures sixth { Refused S.sent_six_times }
    ensures renumbered { Refused S.renumbered }
    ensures overtaken { Refused S.overtaken }
    ensures used_again { Refused S.used_again }
{}

/// What is heard or answered wrongly: a repeat as a new message, a Reset message after an ACK, a
/// 504 too early, a reply to another request. And a journal that is sealed where there is room.
pub fn spoiled_answers()
    ensures heard_as_new { Refused S.heard_as_new }
    ensures rejected_late { Refused S.rejected_late }
    ensures timed_out_early { Refused S.timed_out_early }
    ensures crossed { Refused S.crossed }
    ensures sealed_early { Refused S.sealed_early }
{}

/// A journal that begins with copies of an older one's entries: a repeat of what was heard before,
/// and the next message. And what is wrong there: a token or an ID that a copy bears, a repeat as a
/// new message, a copy after an entry of the journal's own.
pub fn worked_copies()
    ensures answered { Holds C.answered_anew }
    ensures token { Refused C.token_used_again }
    ensures id { Refused C.id_used_again }
    ensures heard_as_new { Refused C.copy_heard_as_new }
    ensures copied_late { Refused C.copied_late }
{}

/// Journals that begin with what is stored, which answers an equal GET while it is fresh. And what
/// is wrong there: served a millisecond later, for another resource, or after a write; carried with
/// another message than the ask's, with a message that is remembered alone, or for two asks of the
/// same.
pub fn worked_carried()
    ensures served { Holds A.served_carried }
    ensures late { Refused A.carried_late }
    ensures another { Refused A.carried_for_another }
    ensures outrun { Refused A.carried_outrun }
    ensures other_message { Refused A.carried_other_message }
    ensures without_message { Refused A.carried_without_message }
    ensures twice { Refused A.carried_twice }
{}

/// A resource that is observed: an older notification that comes late and doesn't count, and an ask
/// that is served the newest one; a write that ends it, after which notifications are rejected; a
/// tick that forgets it. And what is wrong there: a GET that asks to observe where it may not, or
/// doesn't where it is to; the older notification as an update, or served; what came before a write
/// served after it, a notification that counts then.
pub fn worked_watches()
    ensures served { Holds W.served }
    ensures written { Holds W.rejected }
    ensures forgotten { Holds W.forgotten }
    ensures unasked { Refused W.unasked }
    ensures left_out { Refused W.left_out }
    ensures older { Refused W.not_newer }
    ensures older_served { Refused W.older_served }
    ensures served_after { Refused W.served_after }
    ensures counted_after { Refused W.counted_after }
{}

/// A notification with the first piece of a representation: the next one is asked for, a GET joins
/// that and is told of both, and both are stored; and one that a newer notification comes after,
/// which is stored in its place. And what is wrong there: the rest isn't asked for, or all of it
/// anew; a GET opens an exchange of its own; it is told of the rest alone; the older one is served;
/// the rest is fetched twice.
pub fn worked_updates()
    ensures served { Holds N.served_both }
    ensures newer { Holds N.served_newer }
    ensures left { Refused N.left }
    ensures whole { Refused N.whole_asked }
    ensures apart { Refused N.asked_apart }
    ensures rest { Refused N.told_the_rest }
    ensures older { Refused N.served_older }
    ensures twice { Refused N.fetched_twice }
{}
