//! A journal's lines, read and placed.

ghost use Rattle.std.specs.Prelude.{◌≡◌, ◌++◌, ◌∷◌, [], IfOk, IfSome, OnOk};
ghost use Rattle.journal_picture.specs.Lines.{ended, lines_in};

use crate::entry::{
    Answer, Datagram, Entry, Event, Grounds, Line, Told, Written, decimal, line_of,
};
use crate::extent::Extent;
use crate::fault::{LineFault, PictureFault};
use std::alloc::Global;
use std::collections::BTreeMap;

/// What is told of an entry beside its line.
#[derive(Clone, Copy)]
pub struct Mark {
    /// Of a datagram: the device that it goes to or comes from, counted from 0 in the order in
    /// which they were met.
    pub device: u64,
    /// Of a datagram: how many equal ones went the same way before it.
    pub copies: u32,
    /// The number of the first of them, or its own.
    pub first: u64,
    /// Of a datagram: whether an equal one went the same way after it, or its request timed out.
    pub unanswered: bool,
}

/// An entry, and what is told beside its line.
#[derive(Clone, Copy)]
pub struct Row<'a> {
    pub entry: Entry<'a>,
    pub mark: Mark,
}

impl Row<'_> {
    /// Whether it is a confirmable message that went out and got no answer in time. Its type, in
    /// the first byte, is 0 (RFC 7252 section 3).
    pub(crate) fn is_lost(&self) -> bool {
        match self.entry.event {
            Event::Sent(datagram) => self.mark.unanswered && datagram.digits.starts_with('4'),
            _ => false,
        }
    }

    /// Of a copy: the number of the first of these datagrams.
    pub(crate) fn first(&self) -> Option<u64> {
        if self.mark.copies > 0 {
            Some(self.mark.first)
        } else {
            None
        }
    }
}

/// A journal that was read.
#[derive(Drop)]
pub struct Journal<'a> {
    extent: Extent,
    /// The lines of outputs.
    outputs: Vec<&'a str>,
    /// What was written to clients since the journal began, without interim responses.
    written: Vec<Written<'a>>,
    entries: Vec<Entry<'a>>,
    /// One for each entry.
    marks: Vec<Mark>,
    /// The first connection that was opened, and the one after the last.
    first: u32,
    next: u32,
    /// The devices' endpoints, in the order in which they were met.
    devices: Vec<&'a str>,
    /// The place of each device.
    places: BTreeMap<&'a str, u64>,
    /// The last entry of each datagram, by what its line says after the moment.
    last: BTreeMap<&'a str, usize>,
}

impl<'a> Journal<'a> {
    fn new(alloc: Global, extent: Extent) -> Journal<'a>
        ensures { lines_in result ≡ [] }
    {
        Journal {
            extent,
            outputs: Vec::new(alloc),
            written: Vec::new(alloc),
            entries: Vec::new(alloc),
            marks: Vec::new(alloc),
            first: 0,
            next: 0,
            devices: Vec::new(alloc),
            places: BTreeMap::new(alloc),
            last: BTreeMap::new(alloc),
        }
    }

    /// What was written to clients, in order, without interim responses.
    pub fn written(&self) -> &[Written<'a>] {
        &self.written
    }

    /// The entries, in order.
    pub fn entries(&self) -> &[Entry<'a>] {
        &self.entries
    }

    /// The entry at that place, and what is told beside it.
    pub fn row(&self, place: usize) -> Option<Row<'a>> {
        match (self.entries.get(place), self.marks.get(place)) {
            (Some(entry), Some(mark)) => Some(Row {
                entry: *entry,
                mark: *mark,
            }),
            _ => None,
        }
    }

    /// The first connection that was opened.
    pub fn first(&self) -> u32 {
        self.first
    }

    /// How many connections were opened.
    pub fn connections(&self) -> u32 {
        self.next.saturating_sub(self.first)
    }

    /// The devices' endpoints, in the order in which they were met.
    pub fn devices(&self) -> &[&'a str] {
        &self.devices
    }

    /// Takes a line.
    fn take(&mut self, line: &'a str) -> Result<(), LineFault>
        ensures { OnOk result (lines_in self.new ≡ lines_in self.old ++ line.now ∷ []) }
    {
        match line_of(line)? {
            Line::Output(line, told) => self.take_output(line, told),
            Line::Entry(entry) => self.take_entry(entry),
        }
    }

    /// Takes the line of an output.
    fn take_output(&mut self, line: &'a str, told: Told<'a>) -> Result<(), LineFault>
        ensures { OnOk result (lines_in self.new ≡ lines_in self.old ++ line.now ∷ []) }
    {
        if !self.entries.is_empty() {
            return Err(LineFault::Order);
        }
        match told {
            Told::Written(written) if !written.digits.starts_with(INTERIM) => {
                self.written.push(written)?;
            }
            Told::Rotated => self.written.clear(),
            _ => {}
        }
        self.outputs.push(line)?;
        Ok(())
    }

    /// Takes an entry.
    fn take_entry(&mut self, entry: Entry<'a>) -> Result<(), LineFault>
        ensures { OnOk result (lines_in self.new ≡ lines_in self.old ++ entry.entry.line.now ∷ []) }
    {
        if !self.is_next(entry.number) {
            return Err(LineFault::Order);
        }
        match entry.carried {
            Some(_) => self.check_first()?,
            None => self.check(entry.number, &entry.event)?,
        }
        let mark = self.mark_of(&entry)?;
        self.marks.push(mark)?;
        self.entries.push(entry)?;
        Ok(())
    }

    /// Whether the next entry may have that number.
    fn is_next(&self, number: u64) -> bool {
        match (self.extent, self.entries.last()) {
            (Extent::Whole, _) => number == self.entries.len() as u64,
            (Extent::Part, Some(last)) => last.number < number,
            (Extent::Part, None) => true,
        }
    }

    /// What the entry of that number says, where there is one.
    fn text_of(&self, number: u64) -> Option<&'a str> {
        let entries = self.entries.as_slice();
        let place = entries.binary_search_by_key(&number, |entry| entry.number);
        Some(entries.get(place.ok()?)?.text)
    }

    /// Checks that all entries so far are copies.
    fn check_first(&self) -> Result<(), LineFault> {
        match self.entries.last() {
            Some(last) if last.carried.is_none() => Err(LineFault::Order),
            _ => Ok(()),
        }
    }

    /// Checks what the entry of that number names.
    fn check(&mut self, number: u64, event: &Event<'a>) -> Result<(), LineFault>
        ensures { lines_in self.new ≡ lines_in self.old }
    {
        match event {
            Event::Opened(connection) => self.open(*connection),
            Event::Asked(connection, _) | Event::Bad(connection) | Event::Shut(connection) => {
                self.check_open(*connection)
            }
            Event::Answered(answer) => {
                self.check_open(answer.connection)?;
                if answer.ask >= number {
                    return Err(LineFault::Ground);
                }
                check_grounds(number, answer.grounds)
            }
            Event::Sent(_) | Event::Heard(_) | Event::Passed | Event::Sealed => Ok(()),
        }
    }

    /// Counts the connection. The first one has any number: a journal may follow another.
    fn open(&mut self, connection: u32) -> Result<(), LineFault>
        ensures { lines_in self.new ≡ lines_in self.old }
    {
        if self.first == self.next {
            self.first = connection;
            self.next = connection;
        }
        if connection != self.next || connection == u32::MAX {
            return Err(LineFault::Connection);
        }
        self.next += 1;
        Ok(())
    }

    /// Whether the connection was opened.
    fn check_open(&self, connection: u32) -> Result<(), LineFault> {
        if self.first <= connection && connection < self.next {
            Ok(())
        } else {
            Err(LineFault::Connection)
        }
    }

    /// What is told of an entry beside its line.
    fn mark_of(&mut self, entry: &Entry<'a>) -> Result<Mark, LineFault>
        ensures { lines_in self.new ≡ lines_in self.old }
    {
        match entry.event {
            Event::Sent(datagram) | Event::Heard(datagram) => self.datagram_mark(entry, datagram),
            Event::Answered(answer) => {
                self.note_timeout(answer);
                Ok(mark_alone(0, entry.number))
            }
            _ => Ok(mark_alone(0, entry.number)),
        }
    }

    /// What is told of a datagram. The last equal one got no answer before it.
    fn datagram_mark(
        &mut self,
        entry: &Entry<'a>,
        datagram: Datagram<'a>,
    ) -> Result<Mark, LineFault>
        ensures { lines_in self.new ≡ lines_in self.old }
    {
        let device = self.device_of(datagram.peer)?;
        match self.last.insert(entry.text, self.entries.len())? {
            Some(last) => Ok(mark_copy(&mut self.marks, last, mark_alone(device, entry.number))),
            None => Ok(mark_alone(device, entry.number)),
        }
    }

    /// If the answer says that its request timed out, the last copy of its datagram got no answer
    /// either.
    fn note_timeout(&mut self, answer: Answer<'a>)
        ensures { lines_in self.new ≡ lines_in self.old }
    {
        let Grounds::Fault(kind, number) = answer.grounds else {
            return;
        };
        if kind != "timeout" {
            return;
        }
        let Some(text) = self.text_of(number) else {
            return;
        };
        if let Some(last) = self.last.get(text) {
            mark_unanswered(&mut self.marks, *last);
        }
    }

    /// The place of the device.
    fn device_of(&mut self, peer: &'a str) -> Result<u64, LineFault>
        ensures { lines_in self.new ≡ lines_in self.old }
    {
        if let Some(place) = self.places.get(peer) {
            return Ok(*place);
        }
        let place = self.devices.len() as u64;
        self.places.insert(peer, place)?;
        self.devices.push(peer)?;
        Ok(place)
    }
}

/// What is told of an entry that is no copy.
fn mark_alone(device: u64, number: u64) -> Mark {
    Mark {
        device,
        copies: 0,
        first: number,
        unanswered: false,
    }
}

/// Marks that no answer came in time.
fn mark_unanswered(marks: &mut Vec<Mark>, place: usize) {
    if let Some(mark) = marks.get_mut(place) {
        mark.unanswered = true;
    }
}

/// What is told of the next copy of the datagram at that place, which got no answer before it.
fn mark_copy(marks: &mut Vec<Mark>, place: usize, next: Mark) -> Mark {
    mark_unanswered(marks, place);
    match marks.get(place) {
        Some(last) => Mark {
            copies: last.copies.saturating_add(1),
            first: last.first,
            ..next
        },
        None => next,
    }
}

/// How an interim response begins, in hexadecimal digits: `HTTP/1.1 1`.
const INTERIM: &str = "485454502f312e312031";

/// Checks that the entries that an answer rests on stand before that number.
fn check_grounds(number: u64, grounds: Grounds<'_>) -> Result<(), LineFault> {
    match grounds {
        Grounds::Live(numbers) | Grounds::Kept(numbers) => check_numbers(number, numbers),
        Grounds::Fault(_, cause) if cause < number => Ok(()),
        Grounds::Fault(_, _) => Err(LineFault::Ground),
    }
}

/// Checks that numbers with commas between are below that number.
fn check_numbers(number: u64, numbers: &str) -> Result<(), LineFault> {
    'each: for one in numbers.split(',') {
        if decimal(one)? >= number {
            return Err(LineFault::Ground);
        }
    }
    Ok(())
}

/// The first line, and what follows its end.
fn next_line(text: &str) -> Option<(&str, &str)>
    ensures { IfSome result (λ p. text.now ≡ p.0.now ++ 10 ∷ p.1.now) }
{
    text.split_once('\n')
}

/// Reads the lines of a journal. The first that is refused is told.
pub fn journal_of<'a>(
    alloc: Global,
    text: &'a str,
    extent: Extent,
) -> Result<Journal<'a>, PictureFault>
    // Each line was taken, once and in order.
    ensures { IfOk result (λ j. ended (lines_in j) ≡ text.now) }
{
    let mut journal = Journal::new(alloc, extent);
    let mut rest = text;
    let mut number: u64 = 1;
    'each: while let Some((line, next)) = next_line(rest) {
        match journal.take(line) {
            Ok(()) => {}
            Err(LineFault::Memory) => return Err(PictureFault::Memory),
            Err(fault) => return Err(PictureFault::Line(number, fault)),
        }
        number = number.saturating_add(1);
        rest = next;
    }
    if rest.is_empty() {
        Ok(journal)
    } else {
        Err(PictureFault::Unended(number))
    }
}
