//! What every input keeps, and what it shows, as contracts of functions that do nothing.

ghost use Rattle.gateway_model.specs.Closing.{InputsClose};
ghost use Rattle.gateway_model.specs.Continuing.{ActsContinue};
ghost use Rattle.gateway_model.specs.Hearing.{InputsShow, TicksShow};
ghost use Rattle.gateway_model.specs.Resting.{InputsRest};

/// Between two inputs each open connection waits for an answer, or for bytes; and one whose last
/// request was read waits for the answer to that, after which it is closed (RFC 9112 section 9.6).
pub fn nothing_is_left()
    ensures { InputsRest }
{}

/// A datagram that comes in stands first among the entries that it brings, or was dropped for a
/// reason that is named; no other input shows one. A tick does all that is due.
pub fn what_comes_shows()
    ensures inputs { InputsShow }
    ensures ticks { TicksShow }
{}

/// The proxy closes a connection right after the answer to its last request, and each then, or
/// since the journal takes no more of its requests, or since memory is refused and it is given up;
/// after that nothing is said to it (RFC 9112 section 9.6).
pub fn closings_have_reasons()
    ensures { InputsClose }
{}

/// A connection is told to go on with a body at most once for each of its requests that is read,
/// and once for the one that is next (RFC 9110 section 10.1.1).
pub fn told_to_go_on_once()
    ensures { ActsContinue }
{}
