ghost use Rattle.std.specs.Prelude.{◌≡◌, ◌<◌, ◌≤◌, ◌↔◌, List, ℕ, length, map, IfOk, IfSome, IsNone, IsErrOf, Contains, OnOk, OnErr, [], ◌∷◌, ◌++◌, Ok, None};
ghost use Rattle.transformers.specs.Keeps.{AllKeep, IsFirstFor, IsFromFirst, KeepsRelation, pair_of};

use crate::apply_fault::ApplyFault;
use crate::refused::Refused;
use crate::relation::Relation;
use crate::stored::Stored;
use limits::MAX_BODY_LEN;
use media_map::{Form, Routes};
use std::alloc::AllocError;

// The most bytes that a transformer's output may have.
/// Transformers in order. Of several for one pair the first counts.
#[derive(Drop)]
pub struct Bank<R: Relation> {
    /// In the order in which they are looked up.
    pub stored: Vec<Stored<R>>,
}

impl<R: Relation> Bank<R> {
    /// The bank of these transformers. `store` makes the list that keeps the relation.
    pub fn new(stored: Vec<Stored<R>>) -> Bank<R>
        ensures stored { result.stored ≡ stored }
        ensures keep { AllKeep R.holds R.takes stored.items
            → AllKeep R.holds R.takes result.stored.items }
    {
        Bank { stored }
    }

    /// The pairs that transformers stand for, in order.
    pub fn routes(&self) -> Result<Routes, AllocError>
        ensures { IfOk result (λ v. v ≡ map pair_of self.now.stored.items) }
    {
        let mut all = Routes::new(*self.stored.allocator());
        'each: for s in &self.stored {
            let (from, to) = s.pair()?;
            all.push(from, to)?;
        }
        Ok(all)
    }

    /// What the first transformer for the pair makes of the input, and `None` where there is none.
    pub fn apply(&self, from: &Form, to: &Form, input: &[u8]) -> Result<Option<Vec<u8>>, ApplyFault>
        requires { AllKeep R.holds R.takes self.now.stored.items }

        ensures none { (result ≡ Ok None)
            ↔ (¬ Contains (map pair_of self.now.stored.items) (from.now, to.now)) }
        ensures holds { IfOk result (λ o.
            IfSome o (λ v. R.holds from.now to.now input.now v.items)) }
        ensures small { IfOk result (λ o. IfSome o (λ v. length v.items ≤ MAX_BODY_LEN)) }

        // When each fault comes.
        ensures refused { IsErrOf result ApplyFault.Refused → ¬ R.takes from.now to.now input.now }
        ensures too_large { IsErrOf result ApplyFault.TooLarge
            → ((v : List ℕ) × R.holds from.now to.now input.now v × (MAX_BODY_LEN < length v)) }

        // Any other answer than None is that of the first transformer for the pair.
        ensures first { (¬ (result ≡ Ok None))
            → IsFromFirst self.now.stored.items from.now to.now input.now result }
    {
        let Some(first) = self.first_for(from, to) else {
            return Ok(None);
        };
        match first.answer(input) {
            Ok(v) if v.len() > MAX_BODY_LEN => Err(ApplyFault::TooLarge),
            Ok(v) => Ok(Some(v)),
            Err(Refused::Content) => Err(ApplyFault::Refused),
            Err(Refused::Memory) => Err(ApplyFault::Memory),
        }
    }

    // The first transformer for the pair.
    fn first_for(&self, from: &Form, to: &Form) -> Option<&Stored<R>>
        ensures none { IsNone result
            ↔ (¬ Contains (map pair_of self.now.stored.items) (from.now, to.now)) }
        ensures some { IfSome result (λ s. IsFirstFor self.now.stored.items from.now to.now s.now) }
    {
        'each: for s in &self.stored {
            if s.is_for(from, to) {
                return Some(s);
            }
        }
        None
    }
}

/// Puts one more transformer last: how a list is made that keeps the relation.
pub fn store<R: Relation>(all: &mut Vec<Stored<R>>, one: Stored<R>) -> Result<(), AllocError>
    requires all { AllKeep R.holds R.takes all.old.items }
    requires one { KeepsRelation R.holds R.takes one }
    ensures keep { AllKeep R.holds R.takes all.new.items }
    ensures ok { OnOk result (all.new.items ≡ all.old.items ++ one ∷ []) }
    ensures err { OnErr result (all.new.items ≡ all.old.items) }
{
    all.push(one)?;
    Ok(())
}
