ghost use Rattle.std.specs.Prelude.{◌≡◌, ◌↔◌, IsTrue, IfOk};

use crate::refused::Refused;
use crate::relation::Relation;
use media_map::Form;
use std::alloc::AllocError;
use std::marker::PhantomData;

/// A transformer: from the bytes of an input to those of an output.
pub type Call = Box<dyn Fn(&[u8]) -> Result<Vec<u8>, Refused> + Send + Sync>;

// A transformer that may always be called.
#[derive(Drop)]
pub struct Boxed {
    pub call: Call,
    pub ghost callable: { Call.IsAlwaysCallable call },
}

/// A transformer with the pair of forms that it is for.
#[derive(Drop)]
pub struct Stored<R: Relation> {
    /// What its inputs are in.
    pub from: Form,
    /// What its outputs are in.
    pub to: Form,
    /// The transformer itself.
    pub closure: Boxed,
    relation: PhantomData<R>,
}

impl<R: Relation> Stored<R> {
    ghost use Rattle.std.specs.Fn.{FnReturnsAt};
    ghost use Rattle.transformers.specs.Keeps.{Fits, Gives, Keeps, KeepsRelation, pair_of};

    /// Stores a transformer that keeps the relation for this pair.
    pub fn new(from: Form, to: Form, call: Call) -> Stored<R>
        requires callable { Call.IsAlwaysCallable call }
        requires keeps { Keeps (R.holds from to) (R.takes from to)
            (λ x r. FnReturnsAt Call.Fn call x r) }
        ensures pair { pair_of result ≡ (from, to) }
        ensures call { result.closure.call ≡ call }
        ensures keeps { KeepsRelation R.holds R.takes result }
    {
        Stored {
            from,
            to,
            closure: Boxed { call },
            relation: PhantomData,
        }
    }

    /// The pair of forms, copied.
    pub fn pair(&self) -> Result<(Form, Form), AllocError>
        ensures { IfOk result (λ p. p ≡ pair_of self.now) }
    {
        Ok((self.from.copy()?, self.to.copy()?))
    }

    /// Whether this is a transformer for the pair.
    pub fn is_for(&self, from: &Form, to: &Form) -> bool
        ensures { IsTrue result ↔ (pair_of self.now ≡ (from.now, to.now)) }
    {
        self.from.is_same(from) && self.to.is_same(to)
    }

    /// Calls the transformer.
    pub fn answer(&self, input: &[u8]) -> Result<Vec<u8>, Refused>
        requires { KeepsRelation R.holds R.takes self.now }
        ensures fits { Fits (R.holds self.now.from self.now.to input.now)
            (R.takes self.now.from self.now.to input.now) result }
        ensures gives { Gives self.now input.now result }
    {
        self.call(input)
    }

    fn call(&self, input: &[u8]) -> Result<Vec<u8>, Refused>
        requires { Keeps (R.holds self.now.from self.now.to) (R.takes self.now.from self.now.to)
            (λ x r. FnReturnsAt Call.Fn self.now.closure.call x r) }
        ensures fits { Fits (R.holds self.now.from self.now.to input.now)
            (R.takes self.now.from self.now.to input.now) result }
        ensures gives { FnReturnsAt Call.Fn self.now.closure.call input.now result }
    {
        (self.closure.call)(input)
    }
}
