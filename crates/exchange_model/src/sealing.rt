//! That the journal stays within its limits, as contracts of functions that do nothing.

ghost use Rattle.exchange_model.specs.Room.{WithinLimits, GivesKeeps, GivesFree};
ghost use Rattle.exchange_model.specs.Rotating.{RotatesKeeps, RotatesInRoom, RotatesDrained};
ghost use Rattle.exchange_model.specs.Sealing.{
  StartInRoom,
  OpensInRoom,
  ShutsInRoom,
  AsksInRoom,
  HearsInRoom,
  TicksInRoom,
  TicksPromptly,
  SealedAnswers,
};

/// A journal has 65,536 entries and 256 MiB in memory at most, with what has to come, and each call
/// keeps this: one that doesn't fit seals it and does nothing else, and after that a connection may be
/// shut still.
pub fn calls_keep_room()
    ensures start { StartInRoom }
    ensures within { WithinLimits }
    ensures opens { OpensInRoom }
    ensures shuts { ShutsInRoom }
    ensures asks { AsksInRoom }
    ensures hears { HearsInRoom }
{}

/// So does a tick, sealed or not, after which nobody waits for an exchange that has been open for
/// as long as it may (RFC 7252 section 4.8.2). After the seal it adds answers alone.
pub fn ticks_keep_room()
    ensures keeps { TicksInRoom }
    ensures promptly { TicksPromptly }
    ensures sealed { SealedAnswers }
{}

/// Entries may be given out between any two calls, where what is looked up stands in memory after
/// that: what is kept stays kept, and what they took of the limits is free again.
pub fn giving_keeps()
    ensures keeps { GivesKeeps }
    ensures free { GivesFree }
{}

/// A journal that begins with copies of one that is given out stands, is within its limits, and
/// says what the state after the turn says.
pub fn rotation_keeps()
    ensures keeps { RotatesKeeps }
    ensures room { RotatesInRoom }
    ensures drained { RotatesDrained }
{}
