//! The clock of a device.

ghost use Rattle.std.specs.Prelude.{◌≡◌, [], ◌∷◌, true, IfOk, OnOk, OnErr};
ghost use Rattle.device_server.specs.Turns.{Grown};

use crate::wire::Failed;
use std::rt::Clock as SystemTime;
use std::time::Instant;

/// What says how late it is.
pub trait Clock {
    ghost use Rattle.std.specs.Prelude.{List, ℕ, Option, Bool};

    /// the moments that it told, in order, where that can be known
    ghost told: { Self → Option (List ℕ) };

    /// whether it failed
    ghost failed: { Self → Bool };

    /// Milliseconds since it began.
    fn moment(&mut self) -> Result<u64, Failed>
        ensures ok { IfOk result (λ t. Grown (told self.old) (told self.new) (t ∷ [])) }
        ensures err { OnErr result (told self.new ≡ told self.old) }
        ensures sound { OnOk result (failed self.new ≡ failed self.old) }
        ensures fails { OnErr result (failed self.new ≡ true) };
}

/// The system's clock.
#[derive(Drop)]
pub struct SystemClock<W: SystemTime + Drop> {
    rt: W,
    begin: Instant,
    failed: bool,
}

impl<W: SystemTime + Drop> SystemClock<W> {
    /// A clock that counts from this moment.
    pub fn new(rt: W, begin: Instant) -> SystemClock<W> {
        SystemClock {
            rt,
            begin,
            failed: false,
        }
    }
}

impl<W: SystemTime + Drop> Clock for SystemClock<W> {
    ghost use Rattle.std.specs.Prelude.{None};

    ghost told = { λ c. None };

    ghost failed = { λ c. c.failed };

    fn moment(&mut self) -> Result<u64, Failed> {
        match self.begin.elapsed(&self.rt) {
            Ok(gone) => Ok(u64::try_from(gone.as_millis()).unwrap_or(u64::MAX)),
            Err(_) => {
                self.failed = true;
                Err(Failed)
            }
        }
    }
}
