//! Handlers, and the relation that each keeps.

ghost use Rattle.std.specs.Prelude.{◌≢◌, ℕ, List, IfOk, IsErrOf};
ghost use Rattle.demo_origin.specs.declared.request.CoapRequest.{CoapRequest};

use crate::behaviour::Behaviour;
use crate::execution::Outcome;
use crate::fault::{Memory, Refused};
use crate::request::{CoapRequest, Reply};
use crate::state::Held;
use message_layer::Bytes;
use std::alloc::Global;
use std::marker::PhantomData;

/// The code 5.00.
const INTERNAL_SERVER_ERROR: u8 = 160;

/// A handler: from a state and a request to the new state and the reply.
pub type Call = Box<dyn Fn(&[u8], &CoapRequest) -> Result<(Vec<u8>, Reply), Refused> + Send>;

// A handler that may always be called.
#[derive(Drop)]
pub struct Boxed {
    pub call: Call,
    pub ghost callable: { Call.IsAlwaysCallable call },
}

/// A handler beside the relation that it keeps.
#[derive(Drop)]
pub struct Handler<H: Behaviour> {
    /// The handler itself.
    pub closure: Boxed,
    kept: PhantomData<H>,
}

impl<H: Behaviour> Handler<H> {
    ghost use Rattle.std.specs.Borrow.{Bor};
    ghost use Rattle.demo_origin.specs.Keeps.{Answer, Fits, Gives, Keeps, KeepsRelation};
    ghost use Rattle.demo_origin.specs.Hearing.{reply_of, Comes};

    /// Takes a handler that keeps the relation. Each of its replies has a code of class 2, 4 or 5,
    /// and each of its new states at most 65,536 bytes.
    pub fn new(call: Call) -> Handler<H>
        requires callable { Call.IsAlwaysCallable call }
        requires keeps { Keeps H.relation (λ p q r. Call.post call p q r) }
        ensures keeps { KeepsRelation H.relation result }
        ensures same { (p : Bor (List ℕ)) (q : Bor CoapRequest) (r : Answer)
            → Gives result p q r → Call.post call p q r }
    {
        Handler {
            closure: Boxed { call },
            kept: PhantomData,
        }
    }

    /// What it makes of the state and the request.
    pub fn answer(&self, state: &[u8], request: &CoapRequest) -> Result<(Vec<u8>, Reply), Refused>
        requires { KeepsRelation H.relation self.now }
        ensures fits { Fits (H.relation.holds state.now request.now) result }
        ensures refused { IsErrOf result Refused.Content
            → ¬ H.relation.takes state.now request.now }
    {
        self.call(state, request)
    }

    /// What comes of the request for a resource.
    pub(crate) fn outcome(
        &self,
        alloc: Global,
        held: &Held,
        request: &CoapRequest,
    ) -> Result<Outcome, Memory>
        requires { KeepsRelation H.relation self.now }
        ensures comes { IfOk result (λ o.
            Comes H.relation held.now.state request.now o.after (reply_of o)) }
        ensures code { IfOk result (λ o. o.code ≢ 0) }
    {
        match self.answer(held.state.as_slice(), request) {
            Ok((after, reply)) => Ok(Outcome {
                code: reply.code,
                payload: reply.payload,
                changed: reply.changed,
                after: Bytes::new(alloc, after)?,
            }),
            Err(Refused::Content) => Ok(Outcome {
                code: INTERNAL_SERVER_ERROR,
                payload: Vec::new(alloc),
                changed: false,
                after: held.state.share()?,
            }),
            Err(Refused::Memory) => Err(Memory::Memory),
        }
    }

    fn call(&self, state: &[u8], request: &CoapRequest) -> Result<(Vec<u8>, Reply), Refused>
        requires { Keeps H.relation (λ p q r. Call.post self.now.closure.call p q r) }
        ensures fits { Fits (H.relation.holds state.now request.now) result }
        ensures refused { IsErrOf result Refused.Content
            → ¬ H.relation.takes state.now request.now }
    {
        (self.closure.call)(state, request)
    }
}
