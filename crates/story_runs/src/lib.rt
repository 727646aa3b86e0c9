//! Stories: a gateway, a network and a device together, turn by turn, told in words.
//!
//! The one contract: what is told are the turns of all lines, one after another, each taken as
//! `three_parties` says; and the device is the one that the lines before them say.
#![tactic(auto)]

mod book;
mod message;
mod play;
mod settings;
mod steps;
mod telling;
mod untold;

pub use book::{Book, Step, book_of};
pub use play::{play_book, tell_story};
pub use steps::take_step;
pub use untold::Untold;
