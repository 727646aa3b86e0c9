//! What the threads of the gateway share, and how a connection is served.

use crate::roll::Roll;
use ask_model::Settings;
use gateway_desk::{LockedDesk, Pass};
use gateway_system::{Client, DeviceSocket, Line, SystemClock};
use log::{Log, info};
use route_bank::{Profile, store_for};
use sessions::{Done, End, Gateway, Open, serve};
use std::alloc::{AllocError, Global};
use std::random::RandomSource;
use std::rt::Clock;
use std::sync::ledger::Ledger;
use std::sync::{Arc, Mutex, Wait};
use std::time::Duration;
use transformers::{Bank, Stored};

/// What the threads of the gateway share.
#[derive(Drop)]
pub struct Shared<W: Clock + RandomSource + Drop, L: Ledger> {
    pub desk: LockedDesk<Profile, SystemClock<W>, L>,
    pub devices: DeviceSocket,
    pub settings: Arc<Settings>,
    /// how long a client has for its next request, for the rest of one, and to take an answer
    pub patience: Duration,
    pub roll: Mutex<Roll<L>>,
}

impl<W: Clock + RandomSource + Drop, L: Ledger> Shared<W, L> {
    /// Serves a connection until it ends, keeps the pass that its session leaves, and notes how it
    /// ended.
    pub fn serve_client<V: Wait + Log + Clock>(
        &self,
        rt: &V,
        alloc: Global,
        line: Arc<Line>,
        pass: Pass<Profile, L>,
    ) {
        let (number, stub) = (pass.conn(), pass.stub());
        let mut client = Client::new(rt, line, self.patience);
        let (pass, end) = match self.serve_with_bank(rt, alloc, &mut client, pass) {
            Ok(Done { pass, end }) => (Some(pass.into_pass()), end),
            Err(AllocError) => {
                self.desk.close_lost(rt, stub);
                (None, End::Memory)
            }
        };
        self.roll.lock(rt).leave(Some(number), pass);
        let why = why_of(end, client.gave_up());
        info!(rt; target: "hcproxy", "session {number} {end}{why}");
        client.end();
    }

    /// Serves a connection with the transformers that the routes of the settings ask for. Each
    /// session makes its own bank, of a few pairs of forms at most, so what the bank keeps is known
    /// where it is made.
    fn serve_with_bank<V: Wait + Clock>(
        &self,
        rt: &V,
        alloc: Global,
        client: &mut Client<'_, V>,
        pass: Pass<Profile, L>,
    ) -> Result<Done<Profile, L>, AllocError> {
        let mut all: Vec<Stored<Profile>> = Vec::new(alloc);
        'each: for route in self.settings.routes.as_slice() {
            store_for!(alloc, all, route);
        }
        let bank = Bank::new(all);
        let gateway = Gateway {
            alloc,
            wire: &self.devices,
            desk: &self.desk,
            settings: &self.settings,
            bank: &bank,
        };
        Ok(serve(rt, &gateway, client, &mut Open, pass))
    }
}

/// What else is noted of a session that ended.
fn why_of(end: End, gave_up: bool) -> &'static str {
    match end {
        End::Sealed => ": the journal is sealed, and isn't turned over yet",
        _ if gave_up => ": its client stood still",
        _ => "",
    }
}
