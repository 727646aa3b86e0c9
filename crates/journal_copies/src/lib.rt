//! The copies that the next journal begins with: what has to be remembered of a journal that is
//! given out, and what stored responses rest on.
//!
//! Two contracts. The copies are those that `exchange_model` says: of the first sendings whose
//! message IDs are still in use, of the messages that may still be repeated, and of what the
//! responses rest on that are carried over. And these are the first that may be, as long as the
//! copies are half of a journal at most; they name the copies by their places. The journal is gone
//! through once for each of these things, and never for one entry or one response.
//!
//! The definitions stand in `specs/`, to be read in this order: `Sources`, `Knowing`, `Marking`,
//! `Copying`; `Lines`, `Tracing`; `Carrying`; and `Equal` and `EqualLines`, laws that types need.
#![tactic(auto)]

mod copies;
mod line;
mod marks;
mod places;
mod remembering;
mod seen;
mod source;
mod taking;
mod traces;
mod turning;

pub use copies::Copies;
pub use marks::Marks;
pub use remembering::remembered;
pub use turning::{Begun, begin};
