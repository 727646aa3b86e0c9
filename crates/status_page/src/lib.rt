//! What is shown of a running gateway: a page for people, figures for programs that watch it,
//! whether it takes requests, and its journal.
//!
//! Three contracts: which page a request is for, all others being refused; which status code it is
//! answered with, where a HEAD gets no body; and text that came from strangers is escaped, on the
//! page and among the figures.
#![tactic(auto)]

mod answer;
mod asked;
mod excerpt;
mod metrics;
mod people;
mod samples;
mod status;

pub use answer::answer_of;
pub use asked::{Refusal, View, view_of};
pub use excerpt::Excerpt;
pub use status::{Classes, Connections, Device, Fill, Last, Phase, Responses, Status};
