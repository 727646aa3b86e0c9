//! Watches: which resources are observed, and which of two notifications is the newer (RFC 7641).
//!
//! The one contract: a watch holds the number and the moment of the newest notification that came
//! under its token, and no more than 64 stand. `newer` is the formula of RFC 7641 section 3.4, and
//! `newest_wins` says what it is good for: of notifications that came in any order, the last one
//! sent is the one that is kept. Only a registration wants memory, and room for it can be made
//! before (`Watch::make_room`). A history says by it which notifications count, and the core keeps
//! its watches by it.
#![tactic(auto)]

mod fault;
mod hints;
mod laws;
mod notice;
mod order;
mod registration;
mod watch;

pub use fault::WatchFault;
pub use laws::newest_wins;
pub use notice::{Notice, Notified};
pub use order::newer;
pub use registration::Registration;
pub use watch::Watch;
