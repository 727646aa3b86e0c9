//! What holds of whatever acts a proxy does, as contracts of functions that do nothing.

ghost use Rattle.gateway_model.specs.Asking.{InputsAsk};
ghost use Rattle.gateway_model.specs.Going.{AllGoOut, AllSendJust};
ghost use Rattle.gateway_model.specs.Told.{AllTell, ToldAreMeant, WholeAreTold};

use transformers::Relation;

/// The datagrams of the new entries go out after those that waited, each once and in their order;
/// entries are only added.
pub fn datagrams_go_out<R: Relation>()
    ensures all { AllGoOut R.holds R.takes }
    ensures just { AllSendJust R.holds R.takes }
{}

/// Where nothing waits before and after, and the journal stands, each connection is told just the
/// answers to it among the new entries, in their order. Each shows one whole response that was
/// heard for what its ask asks for, or is the proxy's own error. All that was asked is what
/// requests mean by the rules. Only a connection that is given up, since memory is refused, may be
/// told an answer fewer, the last.
pub fn connections_are_told<R: Relation>()
    ensures all { AllTell R.holds R.takes }
    ensures whole { WholeAreTold R.holds R.takes }
{}

/// Where all that was asked was mapped by the rules, and own errors name their causes, each answer
/// that is told is one to what its request means, or an own error that has its cause.
pub fn told_answers_are_meant<R: Relation>()
    ensures { ToldAreMeant R.holds R.takes }
{}

/// Each connection asks just what its bytes spell: at an input the first requests of what waited
/// and of what comes, in order, as the rules say what they mean; what these leave waits. After its
/// last request it asks nothing (RFC 9112 sections 2.2 and 9.3.2).
pub fn connections_ask_what_bytes_spell<R: Relation>()
    ensures { InputsAsk R.holds R.takes }
{}
