//! Where moments and random words come from.

ghost use Rattle.std.specs.Prelude.{◌≡◌, ◌<◌, ◌≤◌};

/// A clock and a source of random words. A desk keeps it under its lock, beside the core.
pub trait Clock: Drop {
    ghost use Rattle.std.specs.Prelude.{ℕ};

    ghost count: { Self → ℕ };

    /// the moment that it read last
    ghost time: { Self → ℕ };

    /// the word that it gave last
    ghost drawn: { Self → ℕ };

    /// How often a reading failed. A count at the greatest `u64` stays there.
    fn faults(&self) -> u64
        ensures { result ≡ count self.now };

    /// Milliseconds since it began. A reading that fails gives the last one again, at first 0.
    fn moment(&mut self) -> u64
        ensures reads { result ≡ time self.new }
        ensures counts { count self.old ≤ count self.new }
        ensures again { count self.old < count self.new → time self.new ≡ time self.old };

    /// 64 random bits.
    fn word(&mut self) -> u64
        ensures draws { result ≡ drawn self.new }
        ensures counts { count self.old ≤ count self.new }
        ensures stays { time self.new ≡ time self.old };
}
