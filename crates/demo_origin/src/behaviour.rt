/// What handlers keep: which new state and which reply a state and a request may lead to, and which
/// requests they may not refuse.
pub trait Behaviour {
    ghost use Rattle.demo_origin.specs.Values.{Relation};

    ghost relation: { Relation };
}
