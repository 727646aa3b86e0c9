//! What the lines of a story say.

use crate::untold::Untold;
use command_line::{StoryFault, StoryLine, StoryTurn, story_line_of};
use proxy_settings::Resource;
use rand_core::{Rng, SeedableRng};
use rand_xoshiro::Xoshiro256PlusPlus;
use std::alloc::Global;
use std::io::{self, BufRead, BufReader, ErrorKind, Read};

/// A turn, at that moment, with 64 random bits.
#[derive(Drop)]
pub struct Step {
    /// The number of its line, from 1.
    pub line: u64,
    pub moment: u64,
    pub word: u64,
    pub turn: StoryTurn,
}

/// What the lines of a story say.
#[derive(Drop)]
pub struct Book {
    /// What the device has at first.
    pub held: Vec<Resource>,
    pub steps: Vec<Step>,
}

/// A book, of which not all lines are read yet.
#[derive(Drop)]
struct Reading {
    book: Book,
    /// What the next random bits come of.
    random: Xoshiro256PlusPlus,
}

/// Reads the lines of a story, and answers the first that is none.
pub fn book_of<I: Read + Drop>(alloc: Global, reader: I) -> Result<Book, Untold> {
    let reader = match BufReader::new(alloc, reader) {
        Ok(reader) => reader,
        Err(_) => return Err(Untold::Memory),
    };
    let mut reading = Reading {
        book: Book {
            held: Vec::new(alloc),
            steps: Vec::new(alloc),
        },
        random: Xoshiro256PlusPlus::seed_from_u64(0),
    };
    let mut number = 0u64;
    'each: for line in reader.lines(alloc) {
        number = number.saturating_add(1);
        reading.read(alloc, number, line)?;
    }
    Ok(reading.book)
}

impl Reading {
    /// Takes the line of that number.
    fn read(&mut self, alloc: Global, number: u64, line: io::Result<String>) -> Result<(), Untold> {
        match line {
            Ok(line) => match story_line_of(alloc, line.as_str()) {
                Ok(line) => self.take(number, line),
                Err(StoryFault::Memory) => Err(Untold::Memory),
                Err(fault) => Err(Untold::Line(number, fault)),
            },
            Err(e) if e.kind() == ErrorKind::InvalidData => Err(Untold::NotText(number)),
            Err(e) if e.kind() == ErrorKind::OutOfMemory => Err(Untold::Memory),
            Err(e) => Err(Untold::Unread(e)),
        }
    }

    /// Takes what the line of that number says.
    fn take(&mut self, number: u64, line: StoryLine) -> Result<(), Untold> {
        let late = !self.book.steps.is_empty();
        match line {
            StoryLine::Remark => {}
            StoryLine::Turn(moment, turn) => {
                let word = self.random.next_u64();
                self.book.steps.push(Step {
                    line: number,
                    moment,
                    word,
                    turn,
                })?;
            }
            _ if late => return Err(Untold::Line(number, StoryFault::Late)),
            StoryLine::Seed(seed) => self.random = Xoshiro256PlusPlus::seed_from_u64(seed),
            StoryLine::Resource(resource) => self.book.held.push(resource)?,
        }
        Ok(())
    }
}
