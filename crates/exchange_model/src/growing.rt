//! What each call adds to the journal, as contracts of functions that do nothing.

ghost use Rattle.exchange_model.specs.Carried.{CarriesNothingOutrun};
ghost use Rattle.exchange_model.specs.Growing.{
  OpensAdd,
  ShutsAdd,
  SealsAdd,
  AsksAdd,
  HearsAdd,
  LateAdds,
  TicksAdd,
  OpensAlone,
  AsksAnswer,
  HearsAnswer,
  TicksAnswer,
  ConnsBelow,
  ConnsRise,
  ReadersRise,
  ReadersKnown,
  StoreHeard,
  StalesHeard,
};

/// A call adds entries at its moment, and the connections follow from them.
pub fn calls_add()
    ensures opens { OpensAdd }
    ensures shuts { ShutsAdd }
    ensures seals { SealsAdd }
    ensures asks { AsksAdd }
    ensures hears { HearsAdd }
    ensures late { LateAdds }
    ensures ticks { TicksAdd }
{}

/// Opening adds the connection or the seal at most; an ask adds itself, and answers no other ask; a
/// datagram that is heard, and a tick, neither open nor ask nor shut.
pub fn calls_add_their_own()
    ensures opens { OpensAlone }
    ensures asks { AsksAnswer }
    ensures hears { HearsAnswer }
    ensures ticks { TicksAnswer }
{}

/// Who waits stands in the order of asks, which the journal has, each for what its exchange asks.
pub fn readers_rise()
    ensures rise { ReadersRise }
    ensures known { ReadersKnown }
{}

/// The connections stand in the order of their numbers, each below the next number.
pub fn connections_rise()
    ensures below { ConnsBelow }
    ensures rise { ConnsRise }
{}

/// What is stored was heard whole, in entries of the journal, or in those that it has copies of; so
/// was what open exchanges ask about.
pub fn stored_was_heard()
    ensures stored { StoreHeard }
    ensures kept { StalesHeard }
{}

/// What is carried over a rotation is as fresh as what stays stored: no write has outrun it.
pub fn carries_nothing_outrun()
    ensures { CarriesNothingOutrun }
{}
