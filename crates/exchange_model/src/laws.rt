//! What each entry does to a state, as contracts of functions that do nothing.

ghost use Rattle.exchange_model.specs.Laws.{
  OpensLeads,
  ShutsLeads,
  SealsLeads,
  AnswersLeads,
  AsksLeads,
  RecallsLeads,
  JoinsLeads,
  BeginsLeads,
  FirstLeads,
  CopyLeads,
  ConfirmsLeads,
  RepeatsLeads,
  GarbledLeads,
  HearsLeads,
  PassesLeads,
};
ghost use Rattle.exchange_model.specs.Due.{NextDue};
ghost use Rattle.exchange_model.specs.Keeping.{
  StartKeeps,
  KeptStands,
  OpensKeeps,
  ShutsKeeps,
  SealsKeeps,
  AsksKeeps,
  HearsKeeps,
  TicksKeeps,
  TicksDo,
};
ghost use Rattle.exchange_model.specs.Worked.{AnsweredRun, GivenUpRun};
ghost use Rattle.exchange_model.specs.Resting.{ConnsTell, RestsAtRest};
ghost use Rattle.exchange_model.specs.Entering.{
  BeginsEnter,
  ServedEnters,
  JoinsEnter,
  RefusalsEnter,
  BusyEnters,
  MessageEnters,
  GarbledEnters,
  LostStays,
  UnknownStays,
  LongStays,
  DroppedStays,
  TicksEnter,
  TickStays,
  GoneTokens,
  StaysDrained,
};

/// A connection may be opened and shut, an ask answered on its grounds, and the journal sealed
/// where it is as good as full.
pub fn connections_lead()
    ensures opens { OpensLeads }
    ensures shuts { ShutsLeads }
    ensures seals { SealsLeads }
    ensures answers { AnswersLeads }
{}

/// An ask is served what is stored, opens an exchange under a token of its own, joins one, or does
/// none of these.
pub fn asks_lead()
    ensures refused { AsksLeads }
    ensures recalls { RecallsLeads }
    ensures joins { JoinsLeads }
    ensures begins { BeginsLeads }
{}

/// A message goes out in its turn, once more when that is due, and an ACK or RST where one is owed
/// (RFC 7252 sections 4.2, 4.7).
pub fn sendings_lead()
    ensures first { FirstLeads }
    ensures copy { CopyLeads }
    ensures confirms { ConfirmsLeads }
{}

/// A datagram repeats one, is no message, or ends what it answers, unless the exchange goes on by
/// it (RFC 7252 sections 4.2, 4.5, 5.3.2, RFC 7959 section 2).
pub fn hearing_leads()
    ensures repeats { RepeatsLeads }
    ensures garbled { GarbledLeads }
    ensures hears { HearsLeads }
{}

/// A tick ends the exchanges that took too long, and gives up what was sent five times.
pub fn passes_lead()
    ensures { PassesLeads }
{}

/// Where all that was due is done, the history is at rest; and the state has just the open
/// connections.
pub fn rests_at_rest()
    ensures conns { ConnsTell }
    ensures rests { RestsAtRest }
{}

/// A step keeps that the journal stands, and that the state says what it says: a connection opened
/// or shut, the seal, an ask.
pub fn step_keeps()
    ensures start { StartKeeps }
    ensures stands { KeptStands }
    ensures opens { OpensKeeps }
    ensures shuts { ShutsKeeps }
    ensures seals { SealsKeeps }
    ensures asks { AsksKeeps }
{}

/// So does a datagram that is heard.
pub fn hearing_keeps()
    ensures { HearsKeeps }
{}

/// So does a tick, after which nothing is due. It has something to do from one moment on.
pub fn ticking_keeps()
    ensures keeps { TicksKeeps }
    ensures done { TicksDo }
    ensures due { NextDue }
{}

/// Worked runs leave the entries of worked journals: a copy, a message that waits, an empty ACK, a
/// response of its own and its repeat; and no reply at all.
pub fn worked_runs()
    ensures answered { AnsweredRun }
    ensures given_up { GivenUpRun }
{}

/// What an ask leaves: the entries that it adds, in order, and each table after it.
pub fn asks_enter()
    ensures begins { BeginsEnter }
    ensures served { ServedEnters }
    ensures joins { JoinsEnter }
    ensures refused { RefusalsEnter }
    ensures busy { BusyEnters }
{}

/// What a datagram leaves (RFC 7252 sections 4.2, 4.5, 5.3.2).
pub fn hearing_enters()
    ensures message { MessageEnters }
    ensures garbled { GarbledEnters }
    ensures lost { LostStays }
    ensures unknown { UnknownStays }
    ensures long { LongStays }
    ensures dropped { DroppedStays }
{}

/// What a tick leaves where something is due, and that each call leaves links that gave out all.
pub fn ticking_enters()
    ensures ticks { TicksEnter }
    ensures stays { TickStays }
    ensures gone { GoneTokens }
    ensures drained { StaysDrained }
{}
