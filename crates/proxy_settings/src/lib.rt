//! Settings from the text of a TOML file: the proxy's, and the demonstration device's.
//!
//! One contract: `settings_of` gives exactly the settings that the file's table has by the
//! relations of `specs/Setups.antt`, a line for each key, and refuses exactly the texts that have
//! none. The program stands on it.
#![tactic(auto)]

mod by;
mod device;
mod fault;
mod file;
mod keys;
mod kind;
mod listing;
mod members;
mod name;
mod origin;
mod part;
mod place;
mod resource;
mod route;
mod rows;
mod serve;
mod values;

pub use by::By;
pub use device::Device;
pub use fault::{Reason, SetupFault, Why, Wrong};
pub use file::{FILE_LIMIT, FileFault, read_setup};
pub use kind::Kind;
pub use listing::Listing;
pub use name::Name;
pub use origin::Origin;
pub use part::{Part, Setup, settings_of, setup_of};
pub use resource::Resource;
pub use route::Route;
pub use serve::Serve;
