//! That what a core looks up stands in memory, as contracts of functions that do nothing.

ghost use Rattle.exchange_model.specs.Here.{
  AsksHere,
  GivesHere,
  HearsHere,
  OpensHere,
  ShutsHere,
  StartsHere,
  TicksHere,
  TurnsHere,
};

/// A call gives no entry out, and looks up later what it looked up before, or what it adds: so what
/// a core looks up stands in memory from call to call.
pub fn calls_keep_here()
    ensures start { StartsHere }
    ensures opens { OpensHere }
    ensures shuts { ShutsHere }
    ensures asks { AsksHere }
    ensures hears { HearsHere }
    ensures ticks { TicksHere }
{}

/// Entries may be given out where what is looked up stands in memory after that; and the journal
/// after a turn stands in memory whole.
pub fn giving_keeps_here()
    ensures gives { GivesHere }
    ensures turns { TurnsHere }
{}
