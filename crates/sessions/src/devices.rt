//! What sessions are given from outside.

ghost use Rattle.std.specs.Prelude.{ℕ, ◌≡◌, ◌≤◌, ◌<◌, ◌∷◌, [], length, take, IfOk, IfSome, OnOk, OnErr, IsTrue, IsFalse};
ghost use Rattle.sessions.specs.Devices.{Rises, Grown, GrownPartly};

use gateway_desk::Failed;

/// A client's connection.
pub trait Stream {
    ghost use Rattle.std.specs.Prelude.{List, ℕ, Option};

    /// how often it failed
    ghost count: { Self → ℕ };

    /// what was written, where that can be known
    ghost written: { Self → Option (List ℕ) };

    /// what each read gave that didn't fail, where that can be known
    ghost gave: { Self → Option (List (List ℕ)) };

    /// How often it failed. A count at the greatest `u64` stays there.
    fn faults(&self) -> u64
        ensures { result ≡ count self.now };

    /// Puts what comes next into the buffer, and gives how many bytes that are: 0 at the end. With
    /// `between`, the session waits between two requests, and the stream may end of its own accord
    /// (RFC 9112 section 9.3.1).
    fn read(&mut self, buffer: &mut [u8], between: bool) -> Result<usize, Failed>
        requires room { 0 < length buffer.old }
        ensures fits { IfOk result (λ n. n ≤ length buffer.new) }
        ensures length { length buffer.new ≡ length buffer.old }
        ensures same { Grown (written self.old) (written self.new) [] }
        ensures came { IfOk result (λ n.
            Grown (gave self.old) (gave self.new) (take n buffer.new ∷ [])) }
        ensures none { OnErr result (Grown (gave self.old) (gave self.new) []) }
        ensures ok { OnOk result (count self.new ≡ count self.old) }
        ensures err { OnErr result (Rises (count self.old) (count self.new)) };

    /// Writes the bytes, or a part of them where it fails.
    fn write(&mut self, bytes: &[u8]) -> Result<(), Failed>
        ensures quiet { Grown (gave self.old) (gave self.new) [] }
        ensures ok { OnOk result (Grown (written self.old) (written self.new) bytes.now
            × (count self.new ≡ count self.old)) }
        ensures err { OnErr result (GrownPartly (written self.old) (written self.new) bytes.now
            × Rises (count self.old) (count self.new)) };
}

/// Where a session may be held.
#[derive(Clone, Copy, Debug, PartialEq, Eq)]
pub enum Point {
    /// after an ask
    Asked,
    /// after the wait for its answer
    Answered,
}

/// Decides at each point whether a session goes on.
pub trait Gate {
    ghost use Rattle.std.specs.Prelude.{ℕ};

    /// how often it said no
    ghost nays: { Self → ℕ };

    /// How often it said no. A count at the greatest `u64` stays there.
    fn noes(&self) -> u64
        ensures { result ≡ nays self.now };

    /// Whether the session goes on; the number is the ask's.
    fn pass(&mut self, point: Point, number: u32) -> bool
        ensures yes { IsTrue result → nays self.new ≡ nays self.old }
        ensures no { IsFalse result → Rises (nays self.old) (nays self.new) };
}

/// A gate that never says no.
#[derive(Clone, Copy, Debug)]
pub struct Open;

impl Gate for Open {
    ghost nays = { λ g. 0 };

    fn noes(&self) -> u64 {
        0
    }

    fn pass(&mut self, _point: Point, _number: u32) -> bool {
        true
    }
}
