//! What the thread of a connection does.

ghost use Rattle.std.specs.Prelude.{◌≡◌, ◌≢◌, ◌⊎◌, ◌<◌, [], true, Some, None, IfSome};
ghost use Rattle.ask_model.specs.Views.{rules_of};
ghost use Rattle.http_edge.specs.Edges.{item, unread_len};
ghost use Rattle.http_edge.specs.Reading.{closes};
ghost use Rattle.std.specs.Arc.{arc_value};
ghost use Rattle.transformers.specs.Suits.{Suits};
ghost use Rattle.sessions.specs.Asking.{as_last};
ghost use Rattle.sessions.specs.Devices.{Rises, Grown};
ghost use Rattle.sessions.specs.Serving.{Serves};
ghost use Rattle.sessions.specs.Steps.{TakesRead, TellsToGoOn, EndsReading, TakesTurn, CutsTurn};

use crate::devices::{Gate, Point, Stream};
use crate::loops::send_due;
use crate::reading::Reading;
use crate::writing::{reply_of, write_continue};
use ask_model::Settings;
use exchange_core::AskFault;
use gateway_desk::{Clock, ClosedPass, LockedDesk, Pass, Wire};
use http_edge::Incoming;
use http_mapping::map_request;
use std::alloc::Global;
use std::fmt;
use std::sync::ledger::Ledger;
use std::sync::{Arc, Wait};
use transformers::{Bank, Relation};

/// Why a session ended.
#[derive(Clone, Copy, Debug, PartialEq, Eq)]
pub enum End {
    /// The client closed the connection, or its last request was answered: the last by its own
    /// word, or because the journal is nearly full.
    Finished,
    /// A read failed.
    ReadFault,
    /// A write failed: a part of an answer may have gone out.
    WriteFault,
    /// The journal takes no more entries, so an ask was not taken.
    Sealed,
    /// Memory ran out.
    Memory,
    /// The gate said no.
    Held,
    /// The desk was shut.
    Closed,
}

impl fmt::Display for End {
    fn fmt<W: fmt::Write>(&self, f: &mut fmt::Formatter<W>) -> fmt::Result {
        f.write_str(match self {
            End::Finished => "Finished",
            End::ReadFault => "ReadFault",
            End::WriteFault => "WriteFault",
            End::Sealed => "Sealed",
            End::Memory => "Memory",
            End::Held => "Held",
            End::Closed => "Closed",
        })
    }
}

/// What is left of a session once its connection is closed at the desk.
#[derive(Drop)]
pub struct Done<R: Relation, L: Ledger> {
    pub pass: ClosedPass<R, L>,
    pub end: End,
}

/// What a session serves its client by.
#[derive(Drop)]
pub struct Gateway<'a, R: Relation, C: Clock, L: Ledger, N: Wire> {
    pub alloc: Global,
    /// where datagrams go out
    pub wire: &'a N,
    pub desk: &'a LockedDesk<R, C, L>,
    /// the rules by which requests are mapped
    pub settings: &'a Arc<Settings>,
    /// the transformers of the routes in the settings
    pub bank: &'a Bank<R>,
}

/// Serves a connection until it ends: reads requests, asks each one as soon as the one before it is
/// answered, and writes the answers. What an ask sends goes out at once. While the desk's journal
/// is nearly full, the next answer is the last, and says that the connection is closed. A session
/// that finished has asked everything that came before its end.
pub fn serve<R: Relation, C: Clock, L: Ledger, S: Stream, N: Wire, G: Gate, W: Wait>(
    rt: &W,
    gateway: &Gateway<'_, R, C, L, N>,
    stream: &mut S,
    gate: &mut G,
    pass: Pass<R, L>,
) -> Done<R, L>
    requires suits { Suits R.holds R.takes (rules_of (arc_value gateway.now.settings.now)).routes
        gateway.now.bank.now }
    ensures serves { Serves R.holds R.takes (rules_of (arc_value gateway.now.settings.now))
        result.end pass.lines result.pass.lines (S.gave stream.old) (S.gave stream.new)
        (S.written stream.old) (S.written stream.new) }
    ensures read_fault { result.end ≡ End.ReadFault
        → Rises (S.count stream.old) (S.count stream.new) }
    ensures write_fault { result.end ≡ End.WriteFault
        → Rises (S.count stream.old) (S.count stream.new) }
    ensures held { result.end ≡ End.Held → Rises (G.nays gate.old) (G.nays gate.new) }
{
    let mut pass = pass;
    let end = talk(rt, gateway, stream, gate, &mut pass);
    Done {
        pass: gateway.desk.close(rt, pass),
        end,
    }
}

/// Reads, asks, waits and writes by turns.
fn talk<R: Relation, C: Clock, L: Ledger, S: Stream, N: Wire, G: Gate, W: Wait>(
    rt: &W,
    gateway: &Gateway<'_, R, C, L, N>,
    stream: &mut S,
    gate: &mut G,
    pass: &mut Pass<R, L>,
) -> End
    requires suits { Suits R.holds R.takes (rules_of (arc_value gateway.now.settings.now)).routes
        gateway.now.bank.now }
    ensures serves { Serves R.holds R.takes (rules_of (arc_value gateway.now.settings.now)) result
        pass.old.lines pass.new.lines (S.gave stream.old) (S.gave stream.new)
        (S.written stream.old) (S.written stream.new) }
    ensures read_fault { result ≡ End.ReadFault → Rises (S.count stream.old) (S.count stream.new) }
    ensures write_fault { result ≡ End.WriteFault
        → Rises (S.count stream.old) (S.count stream.new) }
    ensures held { result ≡ End.Held → Rises (G.nays gate.old) (G.nays gate.new) }
{
    let Ok(mut reading) = Reading::new(gateway.alloc) else {
        return End::Memory;
    };
    let mut between = true;
    for _ in rt.forever() {
        match reading.edge.next() {
            Err(_) => return End::Memory,
            Ok(Some(incoming)) => {
                let request = last_if(gateway.desk.is_closing(), incoming);
                let last = is_last(&request);
                if let Some(end) = turn(rt, gateway, stream, gate, pass, request) {
                    return end;
                }
                if last {
                    return End::Finished;
                }
                between = reading.edge.unread() == 0;
            }
            Ok(None) => {
                if let Some(end) = read_on(stream, &mut reading, between) {
                    return end;
                }
                between = false;
            }
        }
    }
    unreachable!()
}

/// What was read, as the last of its connection where the session ends with it: the answer says so
/// (RFC 9112, section 9.6).
fn last_if(ends: bool, incoming: Incoming) -> Incoming
    ensures { item result ≡ as_last ends (item incoming) }
{
    match incoming {
        Incoming::Request(mut request) => {
            if ends {
                request.close = true;
            }
            Incoming::Request(request)
        }
        Incoming::Bad(kind) => Incoming::Bad(kind),
    }
}

/// Whether the connection is closed after the answer to what was read.
fn is_last(incoming: &Incoming) -> bool
    ensures { result ≡ closes (item incoming.now) }
{
    match incoming {
        Incoming::Request(request) => request.close,
        Incoming::Bad(_) => true,
    }
}

/// Reads more, where the client isn't to be told first that it may go on.
fn read_on<S: Stream>(stream: &mut S, reading: &mut Reading, between: bool) -> Option<End>
    requires room { unread_len reading.old.edge < 8192 }
    requires waits { reading.old.edge.waits ≡ true }
    ensures goes_on { result ≡ None
        → TellsToGoOn reading.old.edge reading.new.edge (S.gave stream.old) (S.gave stream.new)
        (S.written stream.old) (S.written stream.new)
        ⊎ (TakesRead true reading.old.edge reading.new.edge (S.gave stream.old) (S.gave stream.new)
        × Grown (S.written stream.old) (S.written stream.new) []) }
    ensures ends { IfSome result (λ end.
        EndsReading end reading.old.edge reading.new.edge (S.gave stream.old) (S.gave stream.new)
        (S.written stream.old) (S.written stream.new)) }
    ensures faults { result ≡ Some End.ReadFault → Rises (S.count stream.old) (S.count stream.new) }
    ensures write_fault { result ≡ Some End.WriteFault
        → Rises (S.count stream.old) (S.count stream.new) }
    ensures others { result ≢ Some End.Held }
    ensures counted { result ≡ None → S.count stream.new ≡ S.count stream.old }
{
    if reading.edge.wants_continue() {
        return match write_continue(stream) {
            Ok(()) => None,
            Err(_) => Some(End::WriteFault),
        };
    }
    match reading.more(stream, between) {
        Ok(true) => None,
        Ok(false) => Some(End::Finished),
        Err(_) => Some(End::ReadFault),
    }
}

/// Serves one request.
fn turn<R: Relation, C: Clock, L: Ledger, S: Stream, N: Wire, G: Gate, W: Wait>(
    rt: &W,
    gateway: &Gateway<'_, R, C, L, N>,
    stream: &mut S,
    gate: &mut G,
    pass: &mut Pass<R, L>,
    incoming: Incoming,
) -> Option<End>
    requires suits { Suits R.holds R.takes (rules_of (arc_value gateway.now.settings.now)).routes
        gateway.now.bank.now }
    ensures answered { result ≡ None
        → TakesTurn R.holds R.takes (rules_of (arc_value gateway.now.settings.now))
        (item incoming) pass.old.lines pass.new.lines
        (S.written stream.old) (S.written stream.new) }
    ensures cut { IfSome result (λ end.
        CutsTurn R.holds R.takes (rules_of (arc_value gateway.now.settings.now)) end
        (item incoming) pass.old.lines pass.new.lines
        (S.written stream.old) (S.written stream.new)) }
    ensures write_fault { result ≡ Some End.WriteFault
        → Rises (S.count stream.old) (S.count stream.new) }
    ensures held { result ≡ Some End.Held → Rises (G.nays gate.old) (G.nays gate.new) }
    ensures others { (result ≢ Some End.Finished) × (result ≢ Some End.ReadFault) }
    ensures counted { result ≡ None → S.count stream.new ≡ S.count stream.old }
    ensures passed { result ≡ None → G.nays gate.new ≡ G.nays gate.old }
    ensures quiet { Grown (S.gave stream.old) (S.gave stream.new) [] }
{
    let Ok(mapped) = map_request(gateway.alloc, gateway.settings, gateway.bank, incoming) else {
        return Some(End::Memory);
    };
    let Ok(mapped) = Arc::new(gateway.alloc, mapped) else {
        return Some(End::Memory);
    };
    let ticket = match gateway.desk.ask(rt, pass, mapped) {
        Ok(ticket) => ticket,
        Err(AskFault::Memory) => return Some(End::Memory),
        Err(_) => return Some(End::Sealed),
    };
    let number = ticket.number;
    send_due(rt, gateway.wire, gateway.desk);
    if !gate.pass(Point::Asked, number) {
        return Some(End::Held);
    }
    let Some(receipt) = gateway.desk.answer(rt, ticket) else {
        return Some(End::Closed);
    };
    let reply = reply_of(gateway.alloc, gateway.bank, &receipt.answer);
    pass.keep(receipt);
    if !gate.pass(Point::Answered, number) {
        return Some(End::Held);
    }
    let Ok(reply) = reply else {
        return Some(End::Memory);
    };
    match stream.write(reply.as_slice()) {
        Ok(()) => None,
        Err(_) => Some(End::WriteFault),
    }
}
