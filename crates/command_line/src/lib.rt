//! The command line: what its words ask for, the lines of scripts and stories, the rules that
//! settings give, and how a failure is reported.
//!
//! The one contract: each kind of failure has its exit status, and a run or the gateway goes by the
//! rules of the settings.
#![tactic(auto)]

mod command;
mod demo;
mod fault;
mod report;
mod script;
mod serving;
mod settings;
mod story;
mod wrong;

pub use command::{Command, command_of};
pub use demo::{COAP_PORT, DEVICE, Demonstration, GATEWAY, WEB_PORT, WINDOW_PORT, loopback};
pub use fault::{Reason, ReplayFault};
pub use report::{Failure, Hint, Report, USAGE};
pub use script::{Event, Line, LineFault, line_of};
pub use serving::Serving;
pub use settings::{demonstration, followed};
pub use story::{StoryFault, StoryLine, StoryTurn, story_line_of};
pub use wrong::Wrong;
