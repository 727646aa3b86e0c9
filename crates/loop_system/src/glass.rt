//! What who looks at the gateway sees of the loop: threads ask, and the loop answers after a turn.

use crate::client::Client;
use crate::devices::Devices;
use crate::figures::figures_of;
use exchange_core::Core;
use gateway_loop::Loop;
use gateway_window::{Figures, Payloads, Phase, Shown, Watch};
use journal_extracts::{
    Extract, MOST_COPIED, MOST_GOES, Numbered, Search, extract_of, numbered_of,
};
use mio::Waker;
use route_bank::Profile;
use std::alloc::{AllocError, Global};
use std::sync::atomic::{AtomicBool, Ordering};
use std::sync::{Condvar, Mutex, Wait};

/// What one who looks asks the loop.
#[derive(Drop)]
enum Question {
    Figures,
    /// the entries of the journal from this one on
    From(usize),
    /// those that a search is for
    About(Search),
}

/// What the loop answers.
#[derive(Drop)]
enum Reply {
    Figures(Figures),
    From(Extract<Profile>),
    /// The search has to go on.
    Going(Search),
    About(Vec<Numbered<Profile>>),
    /// Memory was refused.
    Memory,
}

/// What is asked, and what was answered.
#[derive(Drop)]
struct Slot {
    question: Option<Question>,
    reply: Option<Reply>,
}

/// What the loop and those who look share.
#[derive(Drop)]
pub struct Glass {
    pub watch: Watch,
    payloads: Payloads,
    /// wakes the loop
    waker: Waker,
    /// something is asked
    asked: AtomicBool,
    /// held by the one who asks
    asks: Mutex<bool>,
    slot: Mutex<Slot>,
    answered: Condvar,
}

impl Glass {
    /// Nothing is asked yet of the loop that this wakes.
    pub fn new(watch: Watch, payloads: Payloads, waker: Waker) -> Glass {
        Glass {
            watch,
            payloads,
            waker,
            asked: AtomicBool::new(false),
            asks: Mutex::new(false),
            slot: Mutex::new(Slot {
                question: None,
                reply: None,
            }),
            answered: Condvar::new(),
        }
    }

    /// Answers what is asked, as the loop is now.
    pub fn answer<W: Wait>(&self, rt: &W, alloc: Global, it: &Loop<Profile, Client, Devices>) {
        if !self.asked.load(Ordering::SeqCst) {
            return;
        }
        self.asked.store(false, Ordering::SeqCst);
        let Some(question) = self.take(rt) else {
            return;
        };
        match reply_to(alloc, question, it) {
            Ok(reply) => self.give(rt, reply),
            Err(AllocError) => self.give(rt, Reply::Memory),
        }
    }

    /// What is asked.
    fn take<W: Wait>(&self, rt: &W) -> Option<Question> {
        let mut slot = self.slot.lock(rt);
        slot.question.take()
    }

    /// Leaves an answer where the one who asked finds it.
    fn give<W: Wait>(&self, rt: &W, reply: Reply) {
        let mut slot = self.slot.lock(rt);
        slot.reply = Some(reply);
        self.answered.notify_all();
    }

    /// Asks the loop, and waits for its answer.
    fn ask<W: Wait>(&self, rt: &W, question: Question) -> Reply {
        let _alone = self.asks.lock(rt);
        self.put(rt, question);
        let _ = self.waker.wake();
        let mut slot = self.slot.lock(rt);
        for _ in rt.forever() {
            if let Some(reply) = slot.reply.take() {
                return reply;
            }
            slot = self.answered.wait(rt, slot);
        }
        unreachable!()
    }

    /// Puts a question where the loop finds it.
    fn put<W: Wait>(&self, rt: &W, question: Question) {
        let mut slot = self.slot.lock(rt);
        slot.question = Some(question);
        slot.reply = None;
        self.asked.store(true, Ordering::SeqCst);
    }
}

/// What the loop answers.
fn reply_to(
    alloc: Global,
    question: Question,
    it: &Loop<Profile, Client, Devices>,
) -> Result<Reply, AllocError> {
    let core = it.core();
    match question {
        Question::Figures => Ok(Reply::Figures(figures_of(alloc, core, it.wire())?)),
        Question::From(from) => {
            let entries = Vec::with_capacity(alloc, MOST_COPIED)?;
            Ok(Reply::From(extract_of(core.journal(), from, entries)?))
        }
        Question::About(search) => search_on(alloc, core, search),
    }
}

/// One go of a search.
fn search_on(alloc: Global, core: &Core<Profile>, search: Search) -> Result<Reply, AllocError> {
    let mut search = search;
    let journal = core.journal();
    if !search.go_on(journal) {
        return Ok(Reply::Going(search));
    }
    let entries = Vec::with_capacity(alloc, MOST_COPIED)?;
    Ok(Reply::About(numbered_of(journal, search.chosen(), entries)?))
}

impl Shown for Glass {
    fn watch(&self) -> Option<&Watch> {
        Some(&self.watch)
    }

    fn payloads(&self) -> Payloads {
        self.payloads
    }

    fn phase<W: Wait>(&self, _rt: &W) -> Phase {
        Phase::Serving
    }

    fn figures<W: Wait>(&self, rt: &W, _alloc: Global) -> Result<Figures, AllocError> {
        match self.ask(rt, Question::Figures) {
            Reply::Figures(figures) => Ok(figures),
            _ => Err(AllocError),
        }
    }

    fn entries_from<W: Wait>(
        &self,
        rt: &W,
        _alloc: Global,
        from: usize,
    ) -> Result<Option<Extract<Profile>>, AllocError> {
        match self.ask(rt, Question::From(from)) {
            Reply::From(extract) => Ok(Some(extract)),
            _ => Err(AllocError),
        }
    }

    /// The loop makes one go of the search after a turn, which looks at 4,096 entries.
    fn entries_about<W: Wait>(
        &self,
        rt: &W,
        alloc: Global,
        number: usize,
    ) -> Result<Option<Vec<Numbered<Profile>>>, AllocError> {
        let mut search = Search::new(alloc, number)?;
        'each: for _ in 0..MOST_GOES {
            let reply = self.ask(rt, Question::About(search));
            match reply {
                Reply::Going(rest) => search = rest,
                Reply::About(found) => return Ok(Some(found)),
                _ => return Err(AllocError),
            }
        }
        Ok(None)
    }
}
