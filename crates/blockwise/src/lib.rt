//! Bodies that go in pieces (RFC 7959).
//!
//! An `Upload` says which piece of a body goes next and what the answer to it means. A `Download`
//! takes the pieces of a representation and gives the whole, or the first reason why a piece can't
//! be one of it. `Pieces` is a download without the bytes, for who keeps them elsewhere.
//!
//! The one contract: the pieces of an upload join to its body (`uploads_join`, `uploads_succeed`),
//! and a download gives a body exactly where the messages that it took are the pieces of one
//! representation, one after the other, of which it is the join (`downloads_join`). Whoever asks a
//! CoAP server for more than fits in one message, or sends it more, stands on this crate.
//!
//! A response is read here by its code, its payload and the options Block1, Block2, ETag and
//! Content-Format. Whether its other options may be passed over, and whether the code of a piece
//! that is downloaded is one that readers may see, is for the caller to judge.
#![tactic(auto)]

mod download;
mod fault;
mod laws;
mod pieces;
mod reading;
mod representation;
mod sizes;
mod upload;

pub use download::{Download, Progress};
pub use fault::BlockFault;
pub use laws::{downloads_join, one_message, uploads_answered, uploads_join, uploads_succeed};
pub use pieces::{Pieces, Step, is_only_piece};
pub use reading::answers_piece;
pub use representation::{EntityTag, Representation};
pub use sizes::LARGEST_SZX;
pub use upload::{Answered, Piece, Upload, slice_of};
