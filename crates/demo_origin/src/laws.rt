//! Laws of whole runs.

ghost use Rattle.demo_origin.specs.Once.{AnsweredAlike, ExecutedOnce};
ghost use Rattle.demo_origin.specs.Asked.{RegistrationsAreAsked};
ghost use Rattle.demo_origin.specs.Done.{ExecutionsTell, StatesAreTold};
ghost use Rattle.demo_origin.specs.LastPiece.{LastPieceExecutes};
ghost use Rattle.demo_origin.specs.Made.{AnswersAreMade};
ghost use Rattle.demo_origin.specs.Versions.{TagsTell, VersionsTell};
ghost use Rattle.demo_origin.specs.Told.{ObserversTold, OnlyObserversTold};

use crate::behaviour::Behaviour;

/// While a message is remembered it is executed at most once, whatever is heard after it.
pub fn executed_once<H: Behaviour>()
    ensures { ExecutedOnce H.relation }
{}

/// A CON that is sent again within 247 s gets the datagram that answered it first, and executes
/// nothing, whatever is heard between them.
pub fn answered_alike<H: Behaviour>()
    ensures { AnsweredAlike H.relation }
{}

/// After a change, an ACK or an RST, and after each tick, every observer was told of the state as
/// it stands, or its peer is yet to acknowledge what it was sent last.
pub fn observers_told()
    ensures { ObserversTold }
{}

/// What goes out to observers after a change, an ACK or an RST is, each time, a notification under
/// a registration that stands, of the state as it stands.
pub fn only_observers_told()
    ensures { OnlyObserversTold }
{}

/// A request whose body comes in pieces is executed by the last of them alone.
pub fn last_piece_executes<H: Behaviour>()
    ensures { LastPieceExecutes H.relation }
{}

/// The version of a resource doesn't fall, and where it is the same the state is. So the versions
/// that responses bear as ETags tell its states apart.
pub fn versions_tell<H: Behaviour>()
    ensures { VersionsTell H.relation }
{}

/// A resource that has the ETag that it had before has the state that it had. So a 2.03 says that
/// the state is the one that was shown under its ETag.
pub fn tags_tell<H: Behaviour>()
    ensures { TagsTell H.relation }
{}

/// Whatever a device gives out, once it heard nothing before, was made by a call: an RST for what
/// was heard, an answer to the request that was heard, of the state as it stood then, or a
/// notification under a registration that stood. Success answers a POST, PUT or DELETE only where
/// it was executed, save for 2.31, which asks for more after a piece that isn't the last.
pub fn answers_are_made<H: Behaviour>()
    ensures { AnswersAreMade H.relation }
{}

/// What is told of an execution is what the message asked for, and what the resource of its path
/// held before and after.
pub fn executions_tell<H: Behaviour>()
    ensures { ExecutionsTell H.relation }
{}

/// Over a run a resource holds what the executions told that they left it with, in their order.
pub fn states_are_told<H: Behaviour>()
    ensures { StatesAreTold H.relation }
{}

/// Whoever is told of changes asked for it: each registration that stands was made by a GET with
/// Observe 0 of its resource, which its peer sent with its token.
pub fn registrations_are_asked<H: Behaviour>()
    ensures { RegistrationsAreAsked H.relation }
{}
