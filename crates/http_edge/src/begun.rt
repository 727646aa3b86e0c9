//! A request whose head was read.

ghost use Rattle.std.specs.Prelude.{◌≡◌, true, IfOk};
ghost use Rattle.http_edge.specs.Requests.{content};

use crate::body::Left;
use crate::memory::Memory;
use crate::request::Request;

/// A request whose body comes in.
#[derive(Drop)]
pub struct Begun {
    pub request: Request,
    pub left: Left,
    /// The head asks for `100 Continue`.
    pub wants: bool,
    /// The client was told to go on.
    pub told: bool,
    ghost only: { told ≡ true → wants ≡ true },
}

impl Begun {
    /// An equal one.
    pub fn copy(&self) -> Result<Begun, Memory>
        ensures { IfOk result (λ b. (content b.request ≡ content self.now.request)
            × (b.left ≡ self.now.left) × (b.wants ≡ self.now.wants) × (b.told ≡ self.now.told)) }
    {
        Ok(Begun {
            request: self.request.copy()?,
            left: self.left,
            wants: self.wants,
            told: self.told,
        })
    }
}
