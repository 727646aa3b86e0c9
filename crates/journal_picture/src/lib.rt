//! A journal as a picture: the lines that `replay --journal` prints are read, and drawn as one page
//! of HTML with a sequence diagram of clients, the gateway and devices.
//!
//! Three contracts: the lines that are read are the text's, each once and in order; an entry is
//! what its line says, word by word; and text from the journal is escaped wherever it stands on the
//! page.
#![tactic(auto)]

mod coap;
mod diagram;
mod entry;
mod extent;
mod fault;
mod head;
mod journal;
mod label;
mod layout;
mod page;
mod rows;

pub use diagram::{draw, draw_part};
pub use entry::{
    Answer, Carried, Datagram, Entry, Event, Grounds, Line, Request, Told, Written, line_of,
};
pub use extent::Extent;
pub use fault::{LineFault, PictureFault};
pub use journal::{Journal, Mark, Row, journal_of};
pub use page::Page;
