//! What the lines say.

ghost use Rattle.std.specs.Prelude.{◌≡◌, ◌++◌, ◌∷◌, IfOk};
ghost use Rattle.journal_picture.specs.Lines.{IsLine};
ghost use Rattle.journal_picture.specs.Saying.{IsNumber, Says, SaysAnswer, SaysAsked, SaysCarried, SaysDatagram, SaysEntry, SaysGrounds};

use crate::fault::LineFault;
use uri_map::peer_at;

/// A datagram of a device or to one.
#[derive(Clone, Copy)]
pub struct Datagram<'a> {
    /// The endpoint: address and port.
    pub peer: &'a str,
    /// Its bytes, in pairs of hexadecimal digits.
    pub digits: &'a str,
}

/// A request of a client.
#[derive(Clone, Copy)]
pub struct Request<'a> {
    pub method: &'a str,
    pub target: &'a str,
    /// How many bytes its body has.
    pub length: u64,
}

/// What an answer rests on.
#[derive(Clone, Copy)]
pub enum Grounds<'a> {
    /// Replies, by the numbers of their entries with commas between.
    Live(&'a str),
    /// A stored response, by the numbers of its replies.
    Kept(&'a str),
    /// The gateway's own error: its kind, and the entry that shows its cause.
    Fault(&'a str, u64),
}

/// An answer to a client.
#[derive(Clone, Copy)]
pub struct Answer<'a> {
    pub connection: u32,
    /// The entry that it answers.
    pub ask: u64,
    pub grounds: Grounds<'a>,
}

/// What happened.
#[derive(Clone, Copy)]
pub enum Event<'a> {
    Opened(u32),
    Asked(u32, Request<'a>),
    /// Bytes that are no request.
    Bad(u32),
    Sent(Datagram<'a>),
    Heard(Datagram<'a>),
    /// Time went on.
    Passed,
    Answered(Answer<'a>),
    Shut(u32),
    Sealed,
}

impl Event<'_> {
    /// Whether it is drawn on the devices' side.
    fn is_far(&self) -> bool {
        matches!(
            self,
            Event::Sent(_) | Event::Heard(_) | Event::Passed | Event::Sealed
        )
    }

    /// Whether a journal begins with copies of such entries.
    fn is_carried(&self) -> bool {
        matches!(
            self,
            Event::Asked(_, _) | Event::Bad(_) | Event::Sent(_) | Event::Heard(_)
        )
    }
}

/// Where a copy was copied from.
#[derive(Clone, Copy)]
pub struct Carried<'a> {
    /// The entry in the journal before.
    pub number: u64,
    /// What the copy is for: `ground` or `past`.
    pub mark: &'a str,
}

/// An entry of the journal.
#[derive(Clone, Copy)]
pub struct Entry<'a> {
    /// The whole line.
    pub line: &'a str,
    /// What it says after the moment, and a copy after its mark.
    pub text: &'a str,
    pub number: u64,
    /// In milliseconds.
    pub moment: u64,
    /// Of a copy from the journal before.
    pub carried: Option<Carried<'a>>,
    pub event: Event<'a>,
}

impl Entry<'_> {
    /// Whether it is drawn on the devices' side and not on the clients'. The client of a copied
    /// request was connected in an earlier journal.
    pub(crate) fn is_far(&self) -> bool {
        self.carried.is_some() || self.event.is_far()
    }
}

/// Bytes that went out on a connection.
#[derive(Clone, Copy)]
pub struct Written<'a> {
    pub moment: u64,
    pub connection: u32,
    pub digits: &'a str,
}

/// What an output tells of the journal.
#[derive(Clone, Copy)]
pub enum Told<'a> {
    /// What went out on a connection.
    Written(Written<'a>),
    /// The journal so far was given out, and a new one begun.
    Rotated,
    Nothing,
}

/// A line that `replay --journal` prints.
#[derive(Clone, Copy)]
pub enum Line<'a> {
    Output(&'a str, Told<'a>),
    Entry(Entry<'a>),
}

/// Reads a line, which stands here without its line end.
pub fn line_of(line: &str) -> Result<Line<'_>, LineFault>
    ensures { IfOk result (λ l. IsLine l line.now) }
{
    let (first, rest) = words(line)?;
    match rest.split_once(' ') {
        Some((second, _)) if is_decimal(second) => Ok(Line::Entry(entry_of(line)?)),
        _ => Ok(Line::Output(line, output_of(decimal(first)?, rest)?)),
    }
}

/// `NUMBER MOMENT EVENT`, or `NUMBER MOMENT carried OLD MARK EVENT`.
fn entry_of(line: &str) -> Result<Entry<'_>, LineFault>
    ensures line { IfOk result (λ entry. entry.line.now ≡ line.now) }
    ensures said { IfOk result (λ entry. SaysEntry entry line.now) }
{
    let (number, rest) = words(line)?;
    let (moment, rest) = words(rest)?;
    let (carried, text) = carried_of(rest)?;
    let event = event_of(text)?;
    if carried.is_some() && !event.is_carried() {
        return Err(LineFault::Form);
    }
    Ok(Entry {
        line,
        text,
        number: decimal(number)?,
        moment: decimal(moment)?,
        carried,
        event,
    })
}

/// Of a copy, what stands before the words of its entry, and those words.
fn carried_of(text: &str) -> Result<(Option<Carried<'_>>, &str), LineFault>
    ensures { IfOk result (λ p. SaysCarried p.0 p.1.now text.now) }
{
    let Some((name, rest)) = text.split_once(' ') else {
        return Ok((None, text));
    };
    match name {
        "carried" => {
            let (number, rest) = words(rest)?;
            let (mark, rest) = words(rest)?;
            let number = decimal(number)?;
            let mark = mark_of(mark)?;
            Ok((Some(Carried { number, mark }), rest))
        }
        _ => Ok((None, text)),
    }
}

/// `ground` or `past`.
fn mark_of(text: &str) -> Result<&str, LineFault>
    ensures { IfOk result (λ mark. mark.now ≡ text.now) }
{
    match text {
        "ground" | "past" => Ok(text),
        _ => Err(LineFault::Form),
    }
}

/// What stands before the first space, and what stands after it.
fn words(text: &str) -> Result<(&str, &str), LineFault>
    ensures { IfOk result (λ p. text.now ≡ p.0.now ++ 32 ∷ p.1.now) }
{
    text.split_once(' ').ok_or(LineFault::Form)
}

/// Whether there are decimal digits, and nothing else.
fn is_decimal(text: &str) -> bool {
    !text.is_empty() && text.as_bytes().iter().all(|b| b.is_ascii_digit())
}

/// The number that decimal digits give.
pub(crate) fn decimal(text: &str) -> Result<u64, LineFault>
    ensures { IfOk result (IsNumber text.now) }
{
    if !is_decimal(text) {
        return Err(LineFault::Number);
    }
    match text.parse::<u64>() {
        Ok(number) => Ok(number),
        Err(_) => Err(LineFault::Number),
    }
}

/// The number of a connection.
fn connection_of(text: &str) -> Result<u32, LineFault>
    ensures { IfOk result (IsNumber text.now) }
{
    match u32::try_from(decimal(text)?) {
        Ok(number) => Ok(number),
        Err(_) => Err(LineFault::Number),
    }
}

/// Hexadecimal digits in lower case, in pairs.
fn digits_of(text: &str) -> Result<&str, LineFault>
    ensures { IfOk result (λ digits. digits.now ≡ text.now) }
{
    let is_digit = |b: &u8| matches!(*b, b'0'..=b'9' | b'a'..=b'f');
    if text.len() % 2 == 0 && text.as_bytes().iter().all(is_digit) {
        Ok(text)
    } else {
        Err(LineFault::Hex)
    }
}

/// `PEER HEX`.
fn datagram_of(text: &str) -> Result<Datagram<'_>, LineFault>
    ensures { IfOk result (λ d. SaysDatagram d text.now) }
{
    let (peer, digits) = words(text)?;
    if peer_at(peer.as_bytes()).is_none() {
        return Err(LineFault::Peer);
    }
    let digits = digits_of(digits)?;
    Ok(Datagram { peer, digits })
}

/// One of `bytes CONN HEX`, `datagram PEER HEX`, `closed CONN`, `turned`, `rotated COUNT` and
/// `unrotated FAULT`, at that moment.
fn output_of(moment: u64, text: &str) -> Result<Told<'_>, LineFault> {
    if text == "turned" {
        return Ok(Told::Nothing);
    }
    let (name, rest) = words(text)?;
    match name {
        "bytes" => Ok(Told::Written(written_of(moment, rest)?)),
        "datagram" => {
            datagram_of(rest)?;
            Ok(Told::Nothing)
        }
        "closed" => {
            connection_of(rest)?;
            Ok(Told::Nothing)
        }
        "rotated" => {
            decimal(rest)?;
            Ok(Told::Rotated)
        }
        "unrotated" => {
            decimal(rest)?;
            Ok(Told::Nothing)
        }
        _ => Err(LineFault::Form),
    }
}

/// `CONN HEX`.
fn written_of(moment: u64, text: &str) -> Result<Written<'_>, LineFault> {
    let (connection, digits) = words(text)?;
    Ok(Written {
        moment,
        connection: connection_of(connection)?,
        digits: digits_of(digits)?,
    })
}

/// What an entry says after its number and its moment.
fn event_of(text: &str) -> Result<Event<'_>, LineFault>
    ensures { IfOk result (λ event. Says event text.now) }
{
    if text == "passed" {
        return Ok(Event::Passed);
    }
    if text == "sealed" {
        return Ok(Event::Sealed);
    }
    let (name, rest) = words(text)?;
    match name {
        "opened" => Ok(Event::Opened(connection_of(rest)?)),
        "asked" => asked_of(rest),
        "sent" => Ok(Event::Sent(datagram_of(rest)?)),
        "heard" => Ok(Event::Heard(datagram_of(rest)?)),
        "answered" => Ok(Event::Answered(answer_of(rest)?)),
        "shut" => Ok(Event::Shut(connection_of(rest)?)),
        _ => Err(LineFault::Form),
    }
}

/// `CONN METHOD TARGET LENGTH`, or `CONN bad`.
fn asked_of(text: &str) -> Result<Event<'_>, LineFault>
    ensures { IfOk result (λ event. SaysAsked event text.now) }
{
    let (connection, rest) = words(text)?;
    let connection = connection_of(connection)?;
    if rest == "bad" {
        return Ok(Event::Bad(connection));
    }
    let (method, rest) = words(rest)?;
    let (target, length) = words(rest)?;
    let length = decimal(length)?;
    Ok(Event::Asked(
        connection,
        Request {
            method,
            target,
            length,
        },
    ))
}

/// `CONN ASK live N,N..`, `CONN ASK kept N,N..` or `CONN ASK fault KIND N`.
fn answer_of(text: &str) -> Result<Answer<'_>, LineFault>
    ensures { IfOk result (λ answer. SaysAnswer answer text.now) }
{
    let (connection, rest) = words(text)?;
    let (ask, rest) = words(rest)?;
    Ok(Answer {
        connection: connection_of(connection)?,
        ask: decimal(ask)?,
        grounds: grounds_of(rest)?,
    })
}

/// `live N,N..`, `kept N,N..` or `fault KIND N`.
fn grounds_of(text: &str) -> Result<Grounds<'_>, LineFault>
    ensures { IfOk result (λ grounds. SaysGrounds grounds text.now) }
{
    let (name, rest) = words(text)?;
    match name {
        "live" => Ok(Grounds::Live(rest)),
        "kept" => Ok(Grounds::Kept(rest)),
        "fault" => {
            let (kind, number) = words(rest)?;
            Ok(Grounds::Fault(kind, decimal(number)?))
        }
        _ => Err(LineFault::Form),
    }
}
