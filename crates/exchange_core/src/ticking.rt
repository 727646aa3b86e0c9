//! Ticks: what is due because time passed.

ghost use Rattle.std.specs.Prelude.{◌≡◌, ◌≤◌, ◌^◌, true, false, OnOk, OnErr};
ghost use Rattle.limits.specs.declared.TheConstants.{LAST_MOMENT};
ghost use Rattle.exchange_model.specs.Calls.{something_due, ticked};
ghost use Rattle.exchange_model.specs.Room.{fits};
ghost use Rattle.exchange_model.specs.Sealing.{late, ticks_in_room};
ghost use Rattle.exchange_model.specs.Steps.{seals};
ghost use Rattle.exchange_core.specs.Sound.{IsSound};
ghost use Rattle.exchange_core.specs.States.{state_of, seen};
ghost use Rattle.exchange_core.specs.Values.{stepped};

use crate::passing::{draft_tick, is_due, pass, prepare};
use crate::room;
use crate::state::{self, State};
use crate::timeouts::{draft_late, draft_sealing};
use crate::turns::sends_count;
use std::alloc::{AllocError, Global};
use transformers::Relation;

/// A tick of a sealed core: it answers the asks whose exchanges have been open for as long as they
/// may.
fn tick_sealed<R: Relation>(alloc: Global, s: &mut State<R>, moment: u64) -> Result<(), AllocError>
    requires sound { IsSound s.old }
    requires sealed { s.old.sealed ≡ true }
    requires later { s.old.moment ≤ moment }
    requires early { moment ≤ LAST_MOMENT }
    ensures sound { IsSound s.new }
    ensures ticks { OnOk result (seen s.new ≡ stepped (late moment (state_of s.old)) (seen s.old)) }
    ensures memory { OnErr result (seen s.new ≡ seen s.old) }
{
    let draft = draft_late(alloc, s, moment)?;
    if draft.len() == 0 {
        return Ok(());
    }
    state::make_places(s, &draft)?;
    let mut draft = draft;
    state::commit(s, &mut draft, moment);
    Ok(())
}

/// A tick that doesn't fit: it seals the core, and does what a tick of a sealed one does.
fn tick_full<R: Relation>(alloc: Global, s: &mut State<R>, moment: u64) -> Result<(), AllocError>
    requires sound { IsSound s.old }
    requires unsealed { s.old.sealed ≡ false }
    requires full { fits (ticked moment (state_of s.old)) ≡ false }
    requires later { s.old.moment ≤ moment }
    requires early { moment ≤ LAST_MOMENT }
    ensures sound { IsSound s.new }
    ensures ticks { OnOk result
        (seen s.new ≡ stepped (late moment (seals moment (state_of s.old))) (seen s.old)) }
    ensures memory { OnErr result (seen s.new ≡ seen s.old) }
{
    let draft = draft_sealing(alloc, s, moment)?;
    state::make_places(s, &draft)?;
    let mut draft = draft;
    state::commit(s, &mut draft, moment);
    s.sealed = true;
    Ok(())
}

/// A tick of a core that isn't sealed, where something is due.
fn tick_due<R: Relation>(alloc: Global, s: &mut State<R>, moment: u64) -> Result<(), AllocError>
    requires sound { IsSound s.old }
    requires unsealed { s.old.sealed ≡ false }
    requires due { something_due moment (state_of s.old) ≡ true }
    requires later { s.old.moment ≤ moment }
    requires early { moment ≤ LAST_MOMENT }
    ensures sound { IsSound s.new }
    ensures ticks { OnOk result
        (seen s.new ≡ stepped (ticks_in_room moment (state_of s.old)) (seen s.old)) }
    ensures memory { OnErr result (seen s.new ≡ seen s.old) }
{
    let passing = prepare(alloc, s, moment)?;
    if !room::has_entries(s, sends_count(&passing.turns)) {
        return tick_full(alloc, s, moment);
    }
    let draft = draft_tick(alloc, s, &passing.over, &passing.turns, moment)?;
    let taken = room::takes(alloc, s, &draft)?;
    if !taken {
        return tick_full(alloc, s, moment);
    }
    state::make_places(s, &draft)?;
    pass(s, passing, draft, moment);
    Ok(())
}

/// Does what is due at this moment: copies go out, messages that were sent five times are given up
/// and the next ones go out, and asks whose exchanges took too long are answered.
pub fn tick<R: Relation>(alloc: Global, s: &mut State<R>, moment: u64) -> Result<(), AllocError>
    requires sound { IsSound s.old }
    requires later { s.old.moment ≤ moment }
    requires early { moment ≤ LAST_MOMENT }
    ensures sound { IsSound s.new }
    ensures ticks { OnOk result
        (seen s.new ≡ stepped (ticks_in_room moment (state_of s.old)) (seen s.old)) }
    ensures memory { OnErr result (seen s.new ≡ seen s.old) }
{
    if s.sealed {
        return tick_sealed(alloc, s, moment);
    }
    if !is_due(s, moment) {
        return Ok(());
    }
    tick_due(alloc, s, moment)
}
