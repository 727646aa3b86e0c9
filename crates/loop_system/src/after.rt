//! What is done after each turn of the loop.

ghost use Rattle.std.specs.Prelude.{◌≡◌};

use crate::client::Client;
use crate::devices::Devices;
use crate::glass::Glass;
use crate::host::Arrival;
use crate::notes::Notes;
use crate::outlet::Outlet;
use gateway_loop::Loop;
use log::Log;
use route_bank::Profile;
use std::alloc::Global;
use std::rt::Clock;
use std::sync::Wait;
use std::thread::Threads;

/// What is done after each turn.
#[derive(Drop)]
pub struct After<'a> {
    alloc: Global,
    /// through which the gateway is looked at, if it is
    glass: Option<&'a Glass>,
    notes: Notes<'a>,
    outlet: Outlet,
}

impl<'a> After<'a> {
    /// Nothing was done yet. Answers are noted, where that is wanted, and counted, where there is a
    /// glass.
    pub fn new(alloc: Global, outlet: Outlet, glass: Option<&'a Glass>, access: bool) -> After<'a> {
        let watch = match glass {
            Some(glass) => Some(&glass.watch),
            None => None,
        };
        After {
            alloc,
            glass,
            notes: Notes::new(alloc, access, watch),
            outlet,
        }
    }

    /// Has the loop keep what it is to look at.
    pub fn begin(&self, it: &mut Loop<Profile, Client, Devices>)
        ensures { it.new.gateway.world ≡ it.old.gateway.world }
    {
        if self.notes.wants_told() {
            it.keep_told();
        }
    }

    /// Notes what was done in the turn, lets the first entries leave memory, where too many are held,
    /// and answers who looks.
    pub fn look<V: Wait + Log + Clock>(
        &mut self,
        rt: &V,
        it: &mut Loop<Profile, Client, Devices>,
        arrivals: &[Arrival],
    )
        ensures { it.new.gateway.world.rules ≡ it.old.gateway.world.rules }
    {
        if self.notes.wants(it, arrivals) {
            self.notes.look(rt, it, arrivals);
        }
        it.forget_told();
        self.outlet.look(rt, it);
        self.show(rt, it);
    }

    /// The loop ends: all is kept that it holds.
    pub fn end<V: Threads + Wait + Log + Clock>(
        &mut self,
        rt: &V,
        it: Option<&Loop<Profile, Client, Devices>>,
    ) {
        self.outlet.end(rt, it);
    }

    /// Answers who looks, if anybody does.
    fn show<V: Wait>(&self, rt: &V, it: &Loop<Profile, Client, Devices>) {
        if let Some(glass) = self.glass {
            glass.answer(rt, self.alloc, it);
        }
    }
}
