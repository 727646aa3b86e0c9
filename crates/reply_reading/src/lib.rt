//! What the replies to an exchange make known to who asked.
//!
//! One contract: `answer_of` says of the replies to a request other than a GET what its readers are
//! told and on what grounds: the whole response that the last one is (RFC 7252 section 5.10), whose
//! body is its payload. `fetched_of` says the same of the pieces of a representation that a GET
//! fetched: the response that they are together. Which piece a reader may be told of is
//! `is_tellable`; which may follow another, and what answers a piece of a body, is `blockwise`'s to
//! say (RFC 7959). The type of a `Finding` keeps that what is told fits its grounds. `confirms`
//! says whether a 2.03 tells that what has an ETag is valid still, and `renewed` what that makes of
//! it. The core and what HTTP says of CoAP stand on it.
#![tactic(auto)]

mod finding;
mod reading;
mod renewing;
mod response;

pub use finding::{Finding, Outcome, answer_of, fetched_of};
pub use reading::is_tellable;
pub use renewing::{confirms, renewed};
pub use resp_cache::{Location, Response, Values};
pub use response::version_of;
