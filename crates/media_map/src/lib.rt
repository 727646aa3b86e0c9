//! Media types and CoAP content formats: what a Content-Type, an Accept and a Content-Format mean
//! to one another (RFC 9110 sections 8.3 and 12.5.1, RFC 8075 section 6).
//!
//! One contract: each answer is read off a table of formats, the pieces of the field's text, and
//! the routes along which bodies can be transformed. An Accept gives the first of the greatest
//! weight that can be had. Mapping requests and rendering answers stand on it, and so do the
//! closures that transform bodies, whose pairs of forms are its routes.
#![tactic(auto)]

mod accept;
mod fault;
mod form;
mod formats;
mod laws;
mod media_type;
mod pick;
mod policy;
mod routes;
mod text;
mod value;
mod wanted;
mod weight;

pub use accept::accept_of;
pub use fault::MediaFault;
pub use form::{Form, Media};
pub use formats::{format_of, media_named, media_of};
pub use laws::{best_is_wanted, format_returns, pieces_join, table_returns};
pub use pick::route_of;
pub use policy::Policy;
pub use routes::Routes;
pub use wanted::Wanted;
