//! Which entries of a journal tell of one request.

ghost use Rattle.std.specs.Prelude.{◌≤◌, length, vec_capacity, vec_len};

use crate::extract::{MOST_COPIED, MOST_COPIED_LEN};
use journal_book::{Entry, Event, Grounds, Journal};
use std::alloc::{AllocError, Global};
use transformers::Relation;
use uri_map::{Peer, is_same_peer};

/// How many entries a search looks at in one round.
const MOST_SEEN: usize = 4096;

/// How many rounds a search takes at most. It looks at each entry that the journal holds three
/// times: to find the answer, to find the connection, and to choose. Each of these begins with a
/// round of its own.
pub const MOST_GOES: usize = 64;

/// What the entry is that a search begins at.
#[derive(Clone, Copy)]
enum Start {
    /// the request
    Ask,
    /// its answer
    Answer,
    /// what the answer rests on, or names as its cause
    Ground,
}

/// A request.
#[derive(Clone, Copy)]
struct Request {
    /// the number of its entry
    ask: usize,
    conn: u32,
    /// the number of its connection's entry, or its own where there is none
    opened: usize,
    /// the device that is asked
    device: Option<Peer>,
    /// the number of its answer, where it is answered
    answer: Option<usize>,
    /// that number, or how many entries there were when none was found
    end: usize,
}

/// How far a search has come.
#[derive(Clone, Copy)]
enum Stage {
    /// The answer isn't before this entry.
    Answer(usize),
    /// The connection's entry isn't at this one nor after it.
    Opened(Request, usize),
    /// What tells of the request is chosen before this entry.
    Choosing(Request, usize),
    Done,
}

/// A search for the entries that tell of one request: its connection's, its own, those of the
/// datagrams to and from its device until it was answered, its answer's, and those that the answer
/// rests on. It looks at some entries at a time; meanwhile more may be added to the journal. Entries
/// that were given out aren't looked through.
#[derive(Drop)]
pub struct Search {
    /// the entry that it begins at
    number: usize,
    stage: Stage,
    /// the entries that were chosen
    chosen: Vec<u32>,
    /// what the datagrams among them count
    bytes: u64,
    ghost few: { vec_len chosen ≤ 256 },
    ghost room: { 256 ≤ vec_capacity chosen },
}

impl Search {
    /// A search for the request that the entry with this number is, or answers, or that was
    /// answered first by it. It allocates nothing later.
    pub fn new(alloc: Global, number: usize) -> Result<Search, AllocError> {
        Ok(Search {
            number,
            stage: Stage::Answer(number),
            chosen: Vec::with_capacity(alloc, MOST_COPIED)?,
            bytes: 0,
        })
    }

    /// The numbers of the entries that tell of the request; none if there is no such request.
    pub fn chosen(&self) -> &[u32]
        ensures { length result.now ≤ 256 }
    {
        &self.chosen
    }

    /// Makes the next round over this journal. True once the search has ended.
    pub fn go_on<R: Relation>(&mut self, journal: &Journal<R>) -> bool {
        match self.stage {
            Stage::Answer(from) => self.find_answer(journal, from),
            Stage::Opened(request, before) => self.find_opened(journal, request, before),
            Stage::Choosing(request, from) => self.choose_between(journal, request, from),
            Stage::Done => {}
        }
        matches!(self.stage, Stage::Done)
    }

    /// Looks for the answer, from this entry on.
    fn find_answer<R: Relation>(&mut self, journal: &Journal<R>, from: usize) {
        let Some(start) = start_at(journal, self.number) else {
            self.stage = Stage::Done;
            return;
        };
        let from = from.max(journal.given());
        let to = from.saturating_add(MOST_SEEN).min(journal.len());
        let answer = answer_in(journal, start, self.number, from, to);
        if answer.is_none() && to < journal.len() {
            self.stage = Stage::Answer(to);
            return;
        }
        self.stage = match request_of(journal, self.number, answer) {
            Some(request) => Stage::Opened(request, request.ask),
            None => Stage::Done,
        };
    }

    /// Looks for the connection's entry, before this one, and then chooses what stands before the
    /// request.
    fn find_opened<R: Relation>(&mut self, journal: &Journal<R>, request: Request, before: usize) {
        let from = before.saturating_sub(MOST_SEEN).max(journal.given());
        let opened = opened_in(journal, request.conn, from, before);
        if opened.is_none() && from > journal.given() {
            self.stage = Stage::Opened(request, from);
            return;
        }
        let request = Request {
            opened: opened.unwrap_or(request.ask),
            ..request
        };
        self.choose_before(journal, request);
        self.stage = Stage::Choosing(request, request.ask.saturating_add(1));
    }

    /// Chooses the datagrams between the gateway and the device, from this entry on until the
    /// request is answered; and then the answer.
    fn choose_between<R: Relation>(&mut self, journal: &Journal<R>, request: Request, from: usize) {
        let from = from.max(journal.given());
        let to = from.saturating_add(MOST_SEEN).min(request.end);
        let cause = cause_at(journal, request);
        'each: for number in from..to {
            if let Some(entry) = journal.get(number) {
                if is_of(entry, &request.device) || cause == Some(number) {
                    self.choose_datagram(journal, number);
                }
            }
        }
        if to < request.end {
            self.stage = Stage::Choosing(request, to);
            return;
        }
        if let Some(answer) = request.answer {
            self.choose(journal, answer);
        }
        self.stage = Stage::Done;
    }

    /// Chooses an entry, where there is one.
    fn choose<R: Relation>(&mut self, journal: &Journal<R>, number: usize) {
        if number < journal.len() && self.chosen.len() < MOST_COPIED {
            if let Ok(number) = u32::try_from(number) {
                self.chosen.push_reserved(number);
            }
        }
    }

    /// Chooses a datagram, if that leaves room for the connection, the request and the answer.
    fn choose_datagram<R: Relation>(&mut self, journal: &Journal<R>, number: usize) {
        let Some(entry) = journal.get(number) else {
            return;
        };
        let bytes = self.bytes.saturating_add(entry.size());
        if bytes <= MOST_COPIED_LEN && self.chosen.len() <= MOST_COPIED - 4 {
            self.bytes = bytes;
            self.choose(journal, number);
        }
    }

    /// Chooses those entries between these numbers that the answer rests on.
    fn choose_grounds<R: Relation>(
        &mut self,
        journal: &Journal<R>,
        request: Request,
        from: usize,
        to: usize,
    ) {
        match grounds_of(journal, request) {
            Some(Grounds::Live(numbers) | Grounds::Kept(numbers)) => {
                'each: for number in numbers.as_slice() {
                    let number = *number as usize;
                    if from <= number && number < to {
                        self.choose_datagram(journal, number);
                    }
                }
            }
            Some(Grounds::Fault(_, number)) => {
                let number = *number as usize;
                if from <= number && number < to {
                    self.choose_datagram(journal, number);
                }
            }
            None => {}
        }
    }

    /// Chooses the connection, what the answer rests on before the request, and the request itself.
    fn choose_before<R: Relation>(&mut self, journal: &Journal<R>, request: Request) {
        let (opened, ask) = (request.opened, request.ask);
        self.choose_grounds(journal, request, 0, opened);
        if opened < ask {
            self.choose(journal, opened);
            self.choose_grounds(journal, request, opened.saturating_add(1), ask);
        }
        self.choose(journal, ask);
    }
}

/// What the entry with this number is, where there is one.
fn start_at<R: Relation>(journal: &Journal<R>, number: usize) -> Option<Start> {
    Some(match &journal.get(number)?.event {
        Event::Asked(_, _) => Start::Ask,
        Event::Answered { .. } => Start::Answer,
        _ => Start::Ground,
    })
}

/// Whether this entry is the answer that is looked for from the entry with this number on.
fn is_answer<R: Relation>(entry: &Entry<R>, start: Start, number: usize) -> bool {
    let Event::Answered { ask, grounds, .. } = &entry.event else {
        return false;
    };
    match start {
        Start::Ask => *ask as usize == number,
        Start::Answer => true,
        Start::Ground => rests_on(grounds, number),
    }
}

/// Whether an answer rests on that entry, or names it as its cause. The numbers it rests on are in
/// ascending order.
fn rests_on(grounds: &Grounds, number: usize) -> bool {
    let Ok(number) = u32::try_from(number) else {
        return false;
    };
    match grounds {
        Grounds::Live(numbers) | Grounds::Kept(numbers) => {
            numbers.as_slice().binary_search(&number).is_ok()
        }
        Grounds::Fault(_, cause) => *cause == number,
    }
}

/// The number of the answer that is looked for, if it is between these numbers.
fn answer_in<R: Relation>(
    journal: &Journal<R>,
    start: Start,
    number: usize,
    from: usize,
    to: usize,
) -> Option<usize> {
    'each: for place in from..to {
        if is_answer(journal.get(place)?, start, number) {
            return Some(place);
        }
    }
    None
}

/// The number of the request that is answered there.
fn ask_of<R: Relation>(journal: &Journal<R>, answer: usize) -> Option<usize> {
    match &journal.get(answer)?.event {
        Event::Answered { ask, .. } => Some(*ask as usize),
        _ => None,
    }
}

/// The request that is answered there; or, where there is no answer, the one that the entry with
/// this number is.
fn request_of<R: Relation>(
    journal: &Journal<R>,
    number: usize,
    answer: Option<usize>,
) -> Option<Request> {
    let ask = match answer {
        Some(answer) => ask_of(journal, answer)?,
        None => number,
    };
    match &journal.get(ask)?.event {
        Event::Asked(conn, mapped) => Some(Request {
            ask,
            conn: *conn,
            opened: ask,
            device: mapped.peer(),
            answer,
            end: answer.unwrap_or(journal.len()),
        }),
        _ => None,
    }
}

/// The number of the entry of a connection, where it is between these numbers.
fn opened_in<R: Relation>(
    journal: &Journal<R>,
    conn: u32,
    from: usize,
    to: usize,
) -> Option<usize> {
    'each: for place in from..to {
        if let Some(entry) = journal.get(place) {
            if matches!(&entry.event, Event::Opened(opened) if *opened == conn) {
                return Some(place);
            }
        }
    }
    None
}

/// Whether the entry is a datagram to that device or from it.
fn is_of<R: Relation>(entry: &Entry<R>, device: &Option<Peer>) -> bool {
    let Some(device) = device else { return false };
    match &entry.event {
        Event::Sent { peer, .. } | Event::Heard { peer, .. } => is_same_peer(peer, device),
        _ => false,
    }
}

/// What the answer to a request rests on, where it is answered.
fn grounds_of<R: Relation>(journal: &Journal<R>, request: Request) -> Option<&Grounds> {
    match &journal.get(request.answer?)?.event {
        Event::Answered { grounds, .. } => Some(grounds),
        _ => None,
    }
}

/// The entry that the answer to a request names as its cause.
fn cause_at<R: Relation>(journal: &Journal<R>, request: Request) -> Option<usize> {
    match grounds_of(journal, request)? {
        Grounds::Fault(_, cause) => Some(*cause as usize),
        Grounds::Live(_) | Grounds::Kept(_) => None,
    }
}
