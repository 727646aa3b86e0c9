//! What trials of servers share: clients and devices over sockets of this machine, who looks at a
//! window, and the settings of a gateway for them. Trials alone stand on this crate.
#![tactic(auto)]

mod sample;
mod sockets;
mod table;
mod window;

pub use sample::{Nothing, settings, shared_settings};
pub use sockets::{IDLE, any_port, go, is_given_up, is_taken, open_client, reply_to};
pub use table::{ACK, Row, rows};
pub use window::{Shown, answers_all, is_counted, shows_journal, told_to};
