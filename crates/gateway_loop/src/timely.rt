//! Time goes on in a loop: what came before is heard first.

ghost use Rattle.std.specs.Prelude.{◌≡◌, ◌⊎◌, ◌≤◌, true, false, IfOk};
ghost use Rattle.transformers.specs.Suits.{Suits};

use crate::hearing::Listened;
use crate::host::Host;
use crate::inputs::Passed;
use crate::sockets::{Stream, Wire};
use crate::turns::{AT_ONCE, Loop, PAUSE};
use http_edge::Memory;
use transformers::{Bank, Relation};

/// In how many turns time doesn't go on, at most, though something is due, since datagrams came.
const MOST_PUT_OFF: u32 = 16;

impl<R: Relation, S: Stream + Drop, W: Wire + Drop> Loop<R, S, W> {
    /// Hears the datagrams that are there, some of them.
    pub(crate) fn hear_all<H: Host<S>>(
        self,
        bank: &Bank<R>,
        host: &mut H,
    ) -> Result<Loop<R, S, W>, Memory>
        requires suits { Suits R.holds R.takes self.gateway.world.rules.routes bank.now }
        ensures rules { IfOk result (λ l. l.gateway.world.rules ≡ self.gateway.world.rules) }
        ensures all { IfOk result (λ l. l.rest.value.wire ≡ false
            → (self.rest.value.wire ≡ false) ⊎ (W.spent l.gateway.wire ≡ true)) }
    {
        let mut it = self;
        if !it.rest.wire {
            return Ok(it);
        }
        'each: for _ in 0..AT_ONCE {
            let when = it.when(host);
            let Listened { gateway, heard } = it.gateway.hear(bank, when, &mut it.rest.buffer)?;
            it.gateway = gateway;
            if !heard {
                it.rest.wire = false;
                return Ok(it);
            }
        }
        // There may be more.
        it.rest.wire = true;
        Ok(it)
    }

    /// Whether something is due at this moment, of which the first is due then.
    pub(crate) fn is_time(&self, due: Option<u64>) -> bool {
        match due {
            Some(due) => due.max(self.rest.again) <= self.rest.moment,
            None => false,
        }
    }

    /// Lets time go on, where something is due. What came before is heard first: where the process
    /// stood still, time has passed though no sign told yet of what came.
    pub(crate) fn pass<H: Host<S>>(
        self,
        bank: &Bank<R>,
        host: &mut H,
    ) -> Result<Loop<R, S, W>, Memory>
        requires suits { Suits R.holds R.takes self.gateway.world.rules.routes bank.now }
        ensures rules { IfOk result (λ l. l.gateway.world.rules ≡ self.gateway.world.rules) }
    {
        let mut it = self;
        if !it.is_time(it.gateway.next_due()) {
            return Ok(it);
        }
        it.rest.wire = true;
        let mut it = it.hear_all(bank, host)?;
        if it.rest.wire && it.rest.put_off < MOST_PUT_OFF {
            it.rest.put_off = it.rest.put_off.saturating_add(1);
            return Ok(it);
        }
        it.tick(bank, host)
    }

    /// Lets time go on: nothing came that wasn't heard, or that was put off often enough.
    fn tick<H: Host<S>>(self, bank: &Bank<R>, host: &mut H) -> Result<Loop<R, S, W>, Memory>
        requires suits { Suits R.holds R.takes self.gateway.world.rules.routes bank.now }
        requires heard { (W.spent self.gateway.wire ≡ true)
            ⊎ (MOST_PUT_OFF ≤ self.rest.value.put_off) }
        ensures rules { IfOk result (λ l. l.gateway.world.rules ≡ self.gateway.world.rules) }
    {
        let mut it = self;
        let when = it.when(host);
        let Passed { gateway, taken } = it.gateway.tick(bank, when)?;
        it.gateway = gateway;
        it.rest.put_off = 0;
        if !taken {
            it.rest.again = it.rest.moment.saturating_add(PAUSE);
        }
        Ok(it)
    }
}
