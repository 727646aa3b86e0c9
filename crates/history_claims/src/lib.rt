//! What an HTTP answer rests on, said of the entries of a journal alone, without any reading of
//! them.
#![tactic(auto)]

mod laws;
mod order;
mod worked;

pub use laws::{
    answered_in_order, copies_first, names_cause, rests_on_replies, rests_on_stored, served_once,
};
pub use order::{asked_once, in_order, worked_once, worked_order};
pub use worked::{
    not_excused, not_so, worked_answers, worked_carried, worked_causes, worked_copies,
    worked_pieces, worked_readers, worked_renewed, worked_store, worked_updates, worked_uploads,
    worked_watches,
};
