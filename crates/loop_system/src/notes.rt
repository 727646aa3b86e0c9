//! What is noted and counted of connections and of answers.

use crate::client::Client;
use crate::devices::Devices;
use crate::host::Arrival;
use ask_model::Mapped;
use gateway_loop::{GivenUp, Loop, Told, Why};
use gateway_window::{Given, Line, Watch, heading_of};
use journal_book::{Entry, Event, Grounds, Journal};
use log::{Log, info, warn};
use route_bank::Profile;
use std::alloc::{AllocError, Global};
use std::collections::VecDeque;
use std::net::SocketAddr;
use std::rt::Clock;
use std::sync::{Arc, Wait};

/// An answer that was told, and isn't noted yet: what its line needs of two entries, which may leave
/// memory until then.
#[derive(Drop)]
struct Answer {
    /// the entry of the request, and what was asked
    ask: u32,
    asked: Arc<Mapped<Profile>>,
    grounds: Grounds,
    /// how long it took, in milliseconds
    time: u64,
}

/// One who is connected.
#[derive(Drop)]
struct Seat {
    number: u32,
    address: SocketAddr,
    /// its answers that weren't noted yet
    answers: VecDeque<Answer>,
}

/// Notes and counts what the loop does, as far as that is wanted.
#[derive(Drop)]
pub struct Notes<'a> {
    alloc: Global,
    /// Answers are noted.
    access: bool,
    /// where they are counted, if they are
    watch: Option<&'a Watch>,
    /// who is connected, where answers are noted or counted
    seats: Vec<Seat>,
    /// how many entries of the journal were looked at
    seen: usize,
    /// The last who came was turned away.
    turning_away: bool,
}

/// The first status that an answer has: what comes before tells a client only to go on.
const FIRST_STATUS: u16 = 200;

impl<'a> Notes<'a> {
    /// Nothing was done yet.
    pub fn new(alloc: Global, access: bool, watch: Option<&'a Watch>) -> Notes<'a> {
        Notes {
            alloc,
            access,
            watch,
            seats: Vec::new(alloc),
            seen: 0,
            turning_away: false,
        }
    }

    /// Whether it looks at single answers.
    pub fn wants_told(&self) -> bool {
        self.access || self.watch.is_some()
    }

    /// Whether anything is to be noted or counted of the last turn, in which these came.
    pub fn wants(&self, it: &Loop<Profile, Client, Devices>, arrivals: &[Arrival]) -> bool {
        self.wants_told() || !arrivals.is_empty() || !it.given_up().is_empty()
    }

    /// Notes what was done since it looked last.
    pub fn look<V: Wait + Log + Clock>(
        &mut self,
        rt: &V,
        it: &Loop<Profile, Client, Devices>,
        arrivals: &[Arrival],
    ) {
        'given_up: for given_up in it.given_up() {
            note_given_up(rt, *given_up);
        }
        self.seat_all(rt, arrivals, it.count());
        if !self.wants_told() {
            return;
        }
        let journal = it.core().journal();
        let count = journal.len();
        if !it.told().is_empty() {
            self.add_answers(journal);
        }
        'told: for told in it.told() {
            self.note_told(rt, told);
        }
        'shut: for place in self.seen..count {
            self.unseat(journal, place);
        }
        self.seen = count;
    }

    /// Those who came are connected or were turned away; the next has this number.
    fn seat_all<V: Log>(&mut self, rt: &V, arrivals: &[Arrival], count: usize) {
        'each: for (place, arrival) in arrivals.iter().enumerate() {
            let again = match arrivals.get(place + 1) {
                Some(next) => next.number == arrival.number,
                None => false,
            };
            self.seat(rt, *arrival, !again && (arrival.number as usize) < count);
        }
    }

    /// One is connected or was turned away. The first of some who were is noted. Who was connected
    /// before is counted once.
    fn seat<V: Log>(&mut self, rt: &V, arrival: Arrival, taken: bool) {
        if let (Some(watch), false) = (self.watch, arrival.carried) {
            watch.count_connection(taken);
        }
        if taken && self.wants_told() {
            let _ = self.sit(arrival);
        }
        if !taken && !self.turning_away {
            warn!(rt; target: "hcproxy", "a connection is turned away: no place for it");
        }
        self.turning_away = !taken;
    }

    /// One is connected, and has no answer yet.
    fn sit(&mut self, arrival: Arrival) -> Result<(), AllocError> {
        self.seats.push(Seat {
            number: arrival.number,
            address: arrival.address,
            answers: VecDeque::new(self.alloc),
        })?;
        Ok(())
    }

    /// The answers that were told stand in the order of each connection's answers.
    fn add_answers(&mut self, journal: &Journal<Profile>) {
        'each: for place in self.seen..journal.len() {
            self.add_answer(journal, place);
        }
    }

    /// An entry that is an answer is one of its connection.
    fn add_answer(&mut self, journal: &Journal<Profile>, place: usize) {
        let Some(entry) = journal.get(place) else {
            return;
        };
        let Event::Answered { conn, .. } = &entry.event else {
            return;
        };
        'each: for seat in self.seats.iter_mut() {
            if seat.number == *conn {
                if let Some(answer) = answer_of(journal, entry) {
                    let _ = seat.answers.push_back(answer);
                }
                return;
            }
        }
    }

    /// Who is connected under this number, and the next of its answers, which is noted.
    fn take_answer(&mut self, number: u32) -> Option<(SocketAddr, Answer)> {
        'each: for seat in self.seats.iter_mut() {
            if seat.number == number {
                let answer = seat.answers.pop_front()?;
                return Some((seat.address, answer));
            }
        }
        None
    }

    /// One is connected no more whose connection was closed by this entry.
    fn unseat(&mut self, journal: &Journal<Profile>, place: usize) {
        let Some(entry) = journal.get(place) else {
            return;
        };
        if let Event::Shut(conn) = &entry.event {
            let conn = *conn;
            self.seats.retain(|seat| seat.number != conn);
        }
    }

    /// Notes and counts what was given out, if it is an answer: the next one of its connection.
    fn note_told<V: Wait + Log + Clock>(&mut self, rt: &V, told: &Told) {
        if heading_of(&told.head).status < FIRST_STATUS {
            return;
        }
        if let Some((client, answer)) = self.take_answer(told.number) {
            self.note(rt, &answer, told, client);
        }
    }

    /// Notes and counts the answer.
    fn note<V: Wait + Log + Clock>(
        &self,
        rt: &V,
        answer: &Answer,
        told: &Told,
        client: SocketAddr,
    ) {
        let heading = heading_of(&told.head);
        let given = Given {
            came: answer.asked.came(),
            peer: answer.asked.peer(),
            grounds: &answer.grounds,
            status: heading.status,
            cause: heading.cause,
            count: Some(told.count),
        };
        if let Some(watch) = self.watch {
            watch.count_answer(rt, &given, answer.ask);
        }
        if self.access {
            let line = Line {
                client,
                conn: told.number,
                time: answer.time,
                given,
            };
            info!(rt; target: "access", "{line}");
        }
    }
}

/// What the line of the answer with this entry needs. None where memory is refused for it.
fn answer_of(journal: &Journal<Profile>, entry: &Entry<Profile>) -> Option<Answer> {
    let Event::Answered { ask, grounds, .. } = &entry.event else {
        return None;
    };
    let request = journal.get(*ask as usize)?;
    let Event::Asked(_, asked) = &request.event else {
        return None;
    };
    Some(Answer {
        ask: *ask,
        asked: Arc::try_clone(asked).ok()?,
        grounds: grounds.copy().ok()?,
        time: entry.moment.saturating_sub(request.moment),
    })
}

/// Notes that a connection was closed since its client didn't go on.
fn note_given_up<V: Log>(rt: &V, given_up: GivenUp) {
    let number = given_up.number;
    match given_up.why {
        Why::Still => {
            info!(rt; target: "hcproxy", "connection {number} is closed: its client stood still");
        }
        Why::Gone => info!(
            rt;
            target: "hcproxy",
            "connection {number} is closed for another one: its client left and waits no more"
        ),
        Why::Idle(time) => {
            let time = time / 1000;
            info!(
                rt;
                target: "hcproxy",
                "connection {number} is closed for another one: its request didn't go on for {time} s"
            );
        }
        Why::Heading => info!(
            rt;
            target: "hcproxy",
            "connection {number} is closed: the head of its request wasn't whole in time"
        ),
        Why::Crowded => info!(
            rt;
            target: "hcproxy",
            "connection {number} is closed for another one: nothing was asked on it for longest"
        ),
    }
}
