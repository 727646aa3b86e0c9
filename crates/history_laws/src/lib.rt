//! What makes the whole history of a proxy justified, with its messages on their way: copies, one
//! outstanding message a peer, message IDs, repeats (RFC 7252 section 4).
//!
//! A history is a list of entries, each with its moment. A reading gives each entry a note, which
//! says what the entry is: the request of an exchange, which one an ask reads along, what it is
//! served from the store, whose message is sent, what a datagram answers or repeats. A history is
//! justified if some reading is legal, that is, if each of its entries may follow the ones before
//! it, and an input comes only where all that was due is done.
//!
//! The definitions stand in `specs/`, to be read in this order. What a history and a core share:
//! `Responses`, when replies are one whole response, and what it says (RFC 7252 section 5.10, RFC
//! 7959); `Confirmations`, which ACK or RST answers a datagram; `Causes`, which causes refuse a
//! request; `Numbering`, the number that a token bears. What a history is: `Readings`,
//! `Connections`, `Progress`, `Transmissions`, `Exchanges`, `Joining`, `Observing`, `Storing`,
//! `Hearing`, `Carrying`, `Confirming`, `Sealing`, `Justified`; then the worked journals, and
//! `Laws` and `Grounds`, which say what follows.
#![tactic(auto)]

mod laws;
mod worked;

pub use laws::{
    answered_in_order, asked_once, fetched_in_order, observed_as_asked, one_outstanding,
    open_exactly, readers_join_one, replies_fit, rests_on_its_own, sendings_apart, writes_in_order,
};
pub use worked::{
    spoiled_answers, spoiled_sendings, worked_carried, worked_copies, worked_endings, worked_late,
    worked_messages, worked_pieces, worked_readers, worked_renewed, worked_store, worked_updates,
    worked_uploads, worked_watches,
};
