//! Runs a script through the proxy and prints what comes out.

ghost use Rattle.std.specs.Prelude.{◌≡◌, IfOk};
ghost use Rattle.transformers.specs.Suits.{Suits};
ghost use Rattle.ask_model.specs.Views.{rules_of};

use crate::inputs::input_of;
use crate::lines::{write_entry, write_outputs};
use ask_model::Settings;
use command_line::{Line, LineFault, Reason, ReplayFault, Report, line_of};
use gateway_world::{World, WorldFault};
use journal_book::Journal;
use route_bank::{Profile, store_for};
use std::alloc::Global;
use std::io::{ErrorKind, Read, Write};
use transformers::{Bank, Relation, Stored};

/// How often a script is read at most.
const READS: u64 = 1 << 32;

/// How many bytes are read at a time.
const CHUNK: usize = 65536;

/// A run of a script. Each call that runs lines takes the bank whose pairs the settings list.
#[derive(Drop)]
pub struct Script<R: Relation> {
    alloc: Global,
    world: World<R>,
    /// The line begun.
    line: Vec<u8>,
    /// How many lines were begun and ended.
    lines: u64,
    /// What more can be said of the fault that ended the run.
    reason: Option<Reason>,
}

impl<R: Relation> Script<R> {
    /// A run of no line yet.
    pub fn new(alloc: Global, settings: Settings) -> Result<Script<R>, ReplayFault>
        ensures { IfOk result (λ s. s.world.rules ≡ rules_of settings) }
    {
        let Ok(world) = World::new(alloc, settings) else {
            return Err(ReplayFault::Memory);
        };
        Ok(Script {
            alloc,
            world,
            line: Vec::new(alloc),
            lines: 0,
            reason: None,
        })
    }

    /// What happened since the last journal was given out, or since the beginning.
    pub fn journal(&self) -> &Journal<R> {
        self.world.journal()
    }

    /// What more can be said of the fault that ended the run.
    pub fn reason(&self) -> Option<Reason> {
        self.reason
    }

    /// Refuses the line of that number.
    fn refuse(&mut self, line: u64, reason: Reason) -> ReplayFault
        ensures { self.new.world ≡ self.old.world }
    {
        self.reason = Some(reason);
        ReplayFault::Line(line)
    }

    /// Runs the lines that end within the bytes, and keeps the one that is begun.
    fn take<W: Write>(
        &mut self,
        bank: &Bank<R>,
        bytes: &[u8],
        writer: &mut W,
    ) -> Result<(), ReplayFault>
        requires { Suits R.holds R.takes self.old.world.rules.routes bank.now }
        ensures { self.new.world.rules ≡ self.old.world.rules }
    {
        'each: for byte in bytes {
            self.take_byte(bank, *byte, writer)?;
        }
        Ok(())
    }

    /// Runs the line that the byte ends, or keeps the byte.
    fn take_byte<W: Write>(
        &mut self,
        bank: &Bank<R>,
        byte: u8,
        writer: &mut W,
    ) -> Result<(), ReplayFault>
        requires { Suits R.holds R.takes self.old.world.rules.routes bank.now }
        ensures { self.new.world.rules ≡ self.old.world.rules }
    {
        if byte == b'\n' {
            self.lines = self.lines.saturating_add(1);
            self.run_line(bank, writer)?;
            self.line.clear();
        } else {
            self.line.push(byte)?;
        }
        Ok(())
    }

    /// Runs the line that was read.
    fn run_line<W: Write>(&mut self, bank: &Bank<R>, writer: &mut W) -> Result<(), ReplayFault>
        requires { Suits R.holds R.takes self.old.world.rules.routes bank.now }
        ensures { self.new.world.rules ≡ self.old.world.rules }
    {
        if self.line.is_empty() {
            return Ok(());
        }
        match line_of(self.alloc, &self.line) {
            Ok(line) => self.give(bank, &line, writer),
            Err(LineFault::Memory) => Err(ReplayFault::Memory),
            Err(fault) => Err(self.refuse(self.lines, Reason::Line(fault))),
        }
    }

    /// Gives the world the input of a line, and writes what comes out.
    fn give<W: Write>(
        &mut self,
        bank: &Bank<R>,
        line: &Line,
        writer: &mut W,
    ) -> Result<(), ReplayFault>
        requires { Suits R.holds R.takes self.old.world.rules.routes bank.now }
        ensures { self.new.world.rules ≡ self.old.world.rules }
    {
        match self.world.input(bank, input_of(line)) {
            Ok(outputs) => write_outputs(self.alloc, writer, &self.world, &outputs),
            Err(WorldFault::Backlog) => Err(self.refuse(self.lines, Reason::Backlog)),
            Err(WorldFault::Memory) => Err(ReplayFault::Memory),
        }
    }

    /// Refuses a line that has no end.
    fn end(&mut self) -> Result<(), ReplayFault> {
        if self.line.is_empty() {
            Ok(())
        } else {
            Err(self.refuse(self.lines.saturating_add(1), Reason::Unended))
        }
    }

    /// Writes the entries of the last journal.
    fn write_journal<W: Write>(&self, writer: &mut W) -> Result<(), ReplayFault> {
        let journal = self.journal();
        for number in 0..journal.len() {
            if let Some(entry) = journal.get(number) {
                write_entry(self.alloc, writer, number, entry)?;
            }
        }
        Ok(())
    }

    /// Reads a script, runs it, and writes the outputs and, where asked for, the entries of the
    /// last journal after them. The first fault met in reading order ends it; what the lines before
    /// it gave is written.
    pub fn run<I: Read, W: Write>(
        &mut self,
        bank: &Bank<R>,
        reader: &mut I,
        writer: &mut W,
        journal: bool,
    ) -> Result<(), ReplayFault>
        requires { Suits R.holds R.takes self.old.world.rules.routes bank.now }
    {
        let mut outcome = self.run_lines(bank, reader, writer);
        if journal && outcome.is_ok() {
            outcome = self.write_journal(writer);
        }
        if writer.flush().is_err() && outcome.is_ok() {
            outcome = Err(ReplayFault::Device);
        }
        if outcome == Err(ReplayFault::Device) && self.reason.is_none() {
            self.reason = Some(Reason::Output);
        }
        outcome
    }

    /// Reads the script to its end and runs it line by line.
    fn run_lines<I: Read, W: Write>(
        &mut self,
        bank: &Bank<R>,
        reader: &mut I,
        writer: &mut W,
    ) -> Result<(), ReplayFault>
        requires { Suits R.holds R.takes self.old.world.rules.routes bank.now }
    {
        let mut chunk = vec![in self.alloc; 0u8; CHUNK]?;
        'each: for _ in 0..READS {
            if !self.read_on(bank, reader, &mut chunk, writer)? {
                return self.end();
            }
        }
        self.reason = Some(Reason::Input);
        Err(ReplayFault::Device)
    }

    /// Reads once, and runs the lines that end in what came. False at the end of the script.
    fn read_on<I: Read, W: Write>(
        &mut self,
        bank: &Bank<R>,
        reader: &mut I,
        chunk: &mut [u8],
        writer: &mut W,
    ) -> Result<bool, ReplayFault>
        requires { Suits R.holds R.takes self.old.world.rules.routes bank.now }
        ensures { self.new.world.rules ≡ self.old.world.rules }
    {
        match reader.read(chunk) {
            Ok(0) => Ok(false),
            Ok(n) => {
                self.take(bank, &chunk[..n], writer)?;
                Ok(true)
            }
            Err(e) if e.kind() == ErrorKind::Interrupted => Ok(true),
            Err(_) => {
                self.reason = Some(Reason::Input);
                Err(ReplayFault::Device)
            }
        }
    }
}

/// Runs a script under the settings with the transformers that their routes ask for, as
/// `Script::run` does, and tells why it ended.
pub fn replay<I: Read, W: Write>(
    alloc: Global,
    settings: Settings,
    reader: &mut I,
    writer: &mut W,
    journal: bool,
) -> Result<(), Report<'static>> {
    let mut all: Vec<Stored<Profile>> = Vec::new(alloc);
    'each: for route in settings.routes.as_slice() {
        store_for!(alloc, all, route);
    }
    replay_with(alloc, settings, &Bank::new(all), reader, writer, journal)
}

/// Runs a script with a bank that suits the settings.
fn replay_with<R: Relation, I: Read, W: Write>(
    alloc: Global,
    settings: Settings,
    bank: &Bank<R>,
    reader: &mut I,
    writer: &mut W,
    journal: bool,
) -> Result<(), Report<'static>>
    requires { Suits R.holds R.takes (rules_of settings).routes bank.now }
{
    let mut script = match Script::new(alloc, settings) {
        Ok(script) => script,
        Err(fault) => return Err(Report::replay(fault, None)),
    };
    let outcome = script.run(bank, reader, writer, journal);
    outcome.map_err(|fault| Report::replay(fault, script.reason()))
}
