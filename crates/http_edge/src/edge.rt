//! A connection's bytes, read as requests.

ghost use Rattle.std.specs.Prelude.{◌≡◌, ◌≤◌, ◌<◌, ◌+◌, ◌-◌, ◌*◌, ◌++◌, ℕ, List, [], take, length, min, IfOk, IfSome, OnErr, IsSome, IsTrue, ◌↔◌, ◌||◌, false, true, Ok, None};

use crate::begun::Begun;
use crate::body::{Fill, fill_body, is_all};
use crate::head::{Start, start_of};
use crate::memory::Memory;
use crate::request::Incoming;
use crate::unread::Unread;
use std::alloc::Global;

/// The unread bytes of a connection, and the request begun.
#[derive(Drop)]
pub struct Edge {
    alloc: Global,
    unread: Unread,
    begun: Option<Begun>,
    /// Nothing can be read before more bytes come.
    waits: bool,
    ended: bool,
    ghost room: { waits ≡ true → length unread < 8192 },
}

impl Edge {
    ghost use Rattle.http_edge.specs.Reading.{closes};
    ghost use Rattle.http_edge.specs.Edges.{Stands, Expects, item, Steps, Fills, IsBegun, IsWholeIn, IsAsking, IsUnread, Leaves, LeavesBytes, Falls, is_told, unread_len, work_left};
    ghost use Rattle.http_edge.specs.Edges as spec;

    /// No bytes, and room for 8,192.
    pub fn new(alloc: Global) -> Result<Edge, Memory>
        ensures stands { IfOk result (λ e. Stands e []) }
        ensures empty { IfOk result (λ e. unread_len e ≡ 0) }
        ensures told { IfOk result (λ e. is_told e ≡ false) }
        ensures only { IfOk result (λ e. (text : List ℕ) → Stands e text → text ≡ []) }
    {
        Ok(Edge {
            alloc,
            unread: Unread::new(alloc)?,
            begun: None,
            waits: false,
            ended: false,
        })
    }

    /// Forgets what it was fed, and is like a new one. It allocates nothing.
    pub fn restart(&mut self)
        ensures stands { Stands self.new [] }
        ensures empty { unread_len self.new ≡ 0 }
        ensures told { is_told self.new ≡ false }
        ensures only { (text : List ℕ) → Stands self.new text → text ≡ [] }
        ensures open { self.new.ended ≡ false }
        ensures ready { self.new.waits ≡ false }
    {
        self.unread.clear();
        self.begun = None;
        self.waits = false;
        self.ended = false;
    }

    /// An edge that goes on as this one does.
    pub fn copy(&self) -> Result<Edge, Memory>
        ensures stands { IfOk result (λ e. (text : List ℕ) → Stands self.now text → Stands e text) }
        ensures ended { IfOk result (λ e. e.ended ≡ self.now.ended) }
        ensures told { IfOk result (λ e. is_told e ≡ is_told self.now) }
        ensures unread { IfOk result (λ e. unread_len e ≡ unread_len self.now) }
    {
        let begun = match &self.begun {
            Some(begun) => Some(begun.copy()?),
            None => None,
        };
        Ok(Edge {
            alloc: self.alloc,
            unread: self.unread.copy(self.alloc)?,
            begun,
            waits: self.waits,
            ended: self.ended,
        })
    }

    /// Takes as many of the bytes as fit beside those unread, 8,192 in all, and gives how many
    /// those are. It allocates nothing.
    pub fn feed(&mut self, bytes: &[u8]) -> usize
        ensures count { result ≡ min (length bytes.now) (8192 - unread_len self.old) }
        ensures more { (text : List ℕ) → Stands self.old text
            → Stands self.new (text ++ take result bytes.now) }
        ensures unread { unread_len self.new ≡ unread_len self.old + result }
        ensures work { work_left self.new ≡ work_left self.old + 2 * result }
        ensures waits { result ≡ 0 → self.new.waits ≡ self.old.waits }
        ensures ended { self.new.ended ≡ self.old.ended }
        ensures told { is_told self.new ≡ is_told self.old }
    {
        let taken = self.unread.feed(bytes);
        if taken > 0 {
            self.waits = false;
        }
        taken
    }

    /// How many bytes are unread, at most 8,192. What came in of the request begun is read.
    pub fn unread(&self) -> usize
        ensures len { result ≡ unread_len self.now }
        ensures few { result ≤ 8192 }
        ensures counts { (text : List ℕ) → Stands self.now text → IsUnread text result }
        ensures exact { self.now.waits ≡ true → (text : List ℕ) → Stands self.now text
            → LeavesBytes text result }
    {
        self.unread.as_slice().len()
    }

    /// The next request, or the refusal of what stands in its place. None where more bytes are
    /// needed, after a refusal, and after a request that closes the connection.
    pub fn next(&mut self) -> Result<Option<Incoming>, Memory>
        ensures steps { (text : List ℕ) → Stands self.old text → Steps result self.new text }
        ensures ended { self.old.ended ≡ true → (result ≡ Ok None) × (self.new.ended ≡ true) }
        ensures room { self.old.ended ≡ false → result ≡ Ok None → unread_len self.new < 8192 }
        ensures waits { self.old.ended ≡ false → result ≡ Ok None → self.new.waits ≡ true }
        ensures left { self.old.ended ≡ false → result ≡ Ok None → (text : List ℕ)
            → Stands self.new text → Leaves text self.new.unread }
        ensures told { is_told self.new ≡ true → is_told self.old ≡ true }
        ensures fresh { IfOk result (λ found.
            IfSome found (λ i. closes (item i) ≡ false → is_told self.new ≡ false)) }
        ensures still_told { result ≡ Ok None → is_told self.new ≡ is_told self.old }
        ensures told_on_refusal { OnErr result (is_told self.new ≡ is_told self.old) }
        ensures less { IfOk result (λ item. Falls item (work_left self.old) (work_left self.new)) }
        ensures behind { IfOk result (λ found. IfSome found (λ i. closes (item i) ≡ false
            → (text : List ℕ) → Stands self.new text → text ≡ self.new.unread)) }
    {
        if self.ended || self.waits {
            return Ok(None);
        }
        if self.begun.is_some() {
            return self.go_on();
        }
        if self.unread.as_slice().is_empty() {
            self.waits = true;
            return Ok(None);
        }
        self.begin()
    }

    /// Whether the request that has begun waits for `100 Continue`: true once for each request
    /// (RFC 9110 section 10.1.1). To be asked after a `next` that gave None.
    pub fn wants_continue(&mut self) -> bool
        ensures asks { (text : List ℕ) → Stands self.old text
            → (IsTrue result ↔ IsAsking self.old text) }
        ensures told { is_told self.new ≡ (result || is_told self.old) }
        ensures expects { (text : List ℕ) → Stands self.new text → self.new.waits ≡ true
            → (is_told self.new ≡ true ↔ Expects text) }
        ensures fresh { IsTrue result → is_told self.old ≡ false }
        ensures stands { (text : List ℕ) → Stands self.old text → Stands self.new text }
        ensures ended { self.new.ended ≡ self.old.ended }
        ensures unread { unread_len self.new ≡ unread_len self.old }
        ensures waits { self.new.waits ≡ self.old.waits }
    {
        match &mut self.begun {
            Some(begun) if begun.wants && !begun.told => {
                begun.told = true;
                true
            }
            _ => false,
        }
    }

    /// Reads the head at the front, where no request is begun, and then its body. A request without
    /// a body is whole with its head.
    fn begin(&mut self) -> Result<Option<Incoming>, Memory>
        requires open { self.old.ended ≡ false }
        requires reads { self.old.waits ≡ false }
        requires none { self.old.begun ≡ None }
        ensures steps { (text : List ℕ) → Stands self.old text → Steps result self.new text }
        ensures room { result ≡ Ok None → unread_len self.new < 8192 }
        ensures waits { result ≡ Ok None → self.new.waits ≡ true }
        ensures left { result ≡ Ok None → (text : List ℕ)
            → Stands self.new text → Leaves text self.new.unread }
        ensures told { is_told self.new ≡ true → is_told self.old ≡ true }
        ensures fresh { IfOk result (λ found.
            IfSome found (λ i. closes (item i) ≡ false → is_told self.new ≡ false)) }
        ensures still_told { result ≡ Ok None → is_told self.new ≡ is_told self.old }
        ensures told_on_refusal { OnErr result (is_told self.new ≡ is_told self.old) }
        ensures less { IfOk result (λ item. Falls item (work_left self.old) (work_left self.new)) }
        ensures behind { IfOk result (λ found. IfSome found (λ i. closes (item i) ≡ false
            → (text : List ℕ) → Stands self.new text → text ≡ self.new.unread)) }
    {
        match start_of(self.alloc, self.unread.as_slice())? {
            Start::Wait => {
                self.waits = true;
                Ok(None)
            }
            Start::Bad(kind) => {
                self.ended = true;
                Ok(Some(Incoming::Bad(kind)))
            }
            Start::Head(begun, len) => {
                self.unread.skip(len);
                if is_all(begun.left) {
                    self.ended = begun.request.close;
                    return Ok(Some(Incoming::Request(begun.request)));
                }
                self.begun = Some(begun);
                self.go_on()
            }
        }
    }

    /// Reads on in the body of the request begun.
    fn go_on(&mut self) -> Result<Option<Incoming>, Memory>
        requires open { self.old.ended ≡ false }
        requires reads { self.old.waits ≡ false }
        requires begun { IsBegun self.old }
        ensures steps { (text : List ℕ) → Stands self.old text → Steps result self.new text }
        ensures room { result ≡ Ok None → unread_len self.new < 8192 }
        ensures waits { result ≡ Ok None → self.new.waits ≡ true }
        ensures left { result ≡ Ok None → (text : List ℕ)
            → Stands self.new text → Leaves text self.new.unread }
        ensures told { is_told self.new ≡ true → is_told self.old ≡ true }
        ensures fresh { IfOk result (λ found.
            IfSome found (λ i. closes (item i) ≡ false → is_told self.new ≡ false)) }
        ensures still_told { result ≡ Ok None → is_told self.new ≡ is_told self.old }
        ensures told_on_refusal { OnErr result (is_told self.new ≡ is_told self.old) }
        ensures less { IfOk result (λ item. Falls item (work_left self.old) (work_left self.new)) }
        ensures behind { IfOk result (λ found. IfSome found (λ i. closes (item i) ≡ false
            → (text : List ℕ) → Stands self.new text → text ≡ self.new.unread)) }
    {
        match self.fill()? {
            Fill::Whole => Ok(self.whole()),
            Fill::Wait => {
                self.waits = true;
                Ok(None)
            }
            Fill::Bad(kind) => {
                self.ended = true;
                Ok(Some(Incoming::Bad(kind)))
            }
        }
    }

    /// Moves unread bytes into the body that comes in.
    fn fill(&mut self) -> Result<Fill, Memory>
        requires reads { self.old.waits ≡ false }
        ensures fills { (text : List ℕ) → Stands self.old text → IsBegun self.old
            → Fills result self.new text }
        ensures told { is_told self.new ≡ is_told self.old }
        ensures less { work_left self.new ≤ work_left self.old }
        ensures ended { self.new.ended ≡ self.old.ended }
        ensures begun { IsBegun self.old → IsBegun self.new }
        ensures room { IsBegun self.old → result ≡ Ok Fill.Wait → unread_len self.new < 8192 }
    {
        match &mut self.begun {
            Some(begun) => fill_body(&mut begun.left, &mut begun.request.body, &mut self.unread),
            None => Ok(Fill::Wait),
        }
    }

    /// The request begun, which is whole.
    fn whole(&mut self) -> Option<Incoming>
        requires { self.old.ended ≡ false }
        ensures steps { (text : List ℕ) → IsBegun self.old
            → IsWholeIn self.old.begun self.old.unread text
            → Steps (spec.ok_of result) self.new text }
        ensures told { is_told self.new ≡ false }
        ensures none { result ≡ None → is_told self.old ≡ false }
        ensures some { IsBegun self.old → IsSome result }
        ensures less { Falls result (work_left self.old) (work_left self.new) }
        ensures behind { (text : List ℕ) → Stands self.new text → text ≡ self.new.unread }
    {
        let begun = self.begun.take()?;
        self.waits = false;
        self.ended = begun.request.close;
        Some(Incoming::Request(begun.request))
    }
}
