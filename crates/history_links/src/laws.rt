//! What the calls of a link leave in a history, as contracts of functions that do nothing.

ghost use Rattle.history_links.specs.Steps.{
  SilentAgrees,
  CopyFollows,
  NextFollows,
  QueuedAgrees,
  RepeatAgrees,
  GarbledAgrees,
  SaysAgrees,
  GoesOnAgrees,
  PassAgrees,
  AskElsewhere,
  FirstElsewhere,
  CopyElsewhere,
  SaysElsewhere,
};

/// Entries of connections, ACKs, RSTs, and what is heard and is nothing new, are nothing to any
/// link.
pub fn silent_agrees()
    ensures { SilentAgrees }
{}

/// A copy that is due may follow (RFC 7252 section 4.2).
pub fn copy_follows()
    ensures { CopyFollows }
{}

/// The message that waits first may follow where nothing is outstanding (RFC 7252 section 4.7),
/// under an ID of its own (section 4.4).
pub fn next_follows()
    ensures { NextFollows }
{}

/// Where an ask opens an exchange with the peer, its message waits last.
pub fn queued_agrees()
    ensures { QueuedAgrees }
{}

/// A datagram that repeats one gets its answer again, and one that is no message is reset where it
/// begins as a CON does; both change nothing else (RFC 7252 sections 4.2, 4.5).
pub fn unchanged_by()
    ensures repeats { RepeatAgrees }
    ensures garbled { GarbledAgrees }
{}

/// A message that is new ends what it answers, and asks for what a link answers (RFC 7252 sections
/// 4.2, 4.3). Where an exchange goes on by it, the next message of that waits last.
pub fn says_agrees()
    ensures ends { SaysAgrees }
    ensures goes_on { GoesOnAgrees }
{}

/// A tick gives up what was sent five times, and ends what took too long (RFC 7252 sections 4.2,
/// 4.8.2).
pub fn pass_agrees()
    ensures { PassAgrees }
{}

/// What concerns another peer leaves the link.
pub fn elsewhere_agrees()
    ensures asks { AskElsewhere }
    ensures first { FirstElsewhere }
    ensures copies { CopyElsewhere }
    ensures says { SaysElsewhere }
{}
