//! What holds of every link: laws over runs, which are lists of calls with their answers, and
//! over one call of a link in any state.

ghost use Rattle.message_layer.specs.Transmissions.{RunTransmits, MidsApart, RunKeepsTurn};
ghost use Rattle.message_layer.specs.Answers.{RunAnswers, HandsUpOnce};
ghost use Rattle.message_layer.specs.Laws.{TickSends, HeardSends, SentSpells, TakesAfter};
ghost use Rattle.message_layer.specs.Prepared.{HearsAsPrepared};

/// Over any run, the CONs that go out are the sendings of messages one after another: each at
/// most five times, equal byte for byte, each copy at the first tick at or after the moment when
/// the timeout, which doubles, is over.
pub fn run_transmits()
    ensures { RunTransmits }
{}

/// Two messages of a run with the same ID lie at least 494,000 ms apart.
pub fn mids_apart()
    ensures { MidsApart }
{}

/// After any run nothing waits where nothing is outstanding.
pub fn run_keeps_turn()
    ensures { RunKeepsTurn }
{}

/// Over any run, whether a datagram is told, and whether it gets an ACK, an RST or nothing, follows
/// from the calls before it, what they told and what they put out. What the link keeps as awaited
/// and as outstanding is what the run says.
pub fn run_answers()
    ensures { RunAnswers }
{}

/// Over any run, no response in a CON or NON is told within 247,000 ms of another one with the
/// same ID.
pub fn hands_up_once()
    ensures { HandsUpOnce }
{}

/// A tick does nothing before the timeout is over, then sends an equal copy, and after four of
/// them gives up.
pub fn tick_sends()
    ensures { TickSends }
{}

/// A datagram lets no copy go.
pub fn heard_sends()
    ensures { HeardSends }
{}

/// What is sent spells the message that was handed in, under the ID that it is given.
pub fn sent_spells()
    ensures { SentSpells }
{}

/// What was prepared for a datagram is what hearing it does and tells.
pub fn hears_as_prepared()
    ensures { HearsAsPrepared }
{}

/// A message that is taken after a datagram waits behind all that waited before it, and only then
/// the one that waits first has its turn.
pub fn takes_after()
    ensures { TakesAfter }
{}
