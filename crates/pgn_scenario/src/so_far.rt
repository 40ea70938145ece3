ghost use Rattle.std.specs.Prelude.{◌≡◌, ◌+◌, ◌++◌, ◌^◌, ◌<◌, ◌≤◌, false, [], ◌∷◌, length, option_map, IfOk, IfSome, OnOk, OnErr};
ghost use Rattle.pgn_base.specs.declared.limits.TheConstants.{INPUT_BYTES_MAX, NOTE_LINES_MAX, SECTIONS_MAX};
ghost use Rattle.pgn_base.specs.Names.{has_name};
ghost use Rattle.pgn_language.specs.Inputs.{is_note_act};
ghost use Rattle.pgn_scenario.specs.Saying.{told, told_deed};
ghost use Rattle.pgn_scenario.specs.Steps.{at_start, note_of, with_line, acted, ended, added, opened, opening, running, signals, awaits, quits, step, passed, finished, outcome};

use crate::flags::Flags;
use crate::said::{Deed, Said, said_of};
use crate::texts::trimmed;
use indexmap::IndexSet;
use memchr::memchr;
use pgn_base::{
    Command, Copied, DbOid, FLAGS_MAX, LINE_BYTES_MAX, NOTE_LINES_MAX, Name, SECTIONS_MAX, Seed,
    SessionNo,
};
use pgn_language::{
    Act, LineText, Scenario, ScenarioFault, ScriptLine, ScriptLines, Section, Sections,
};
use std::alloc::{AllocError, Global};
use std::marker::Model;
use std::{mem, str};

/// What the lines so far make. Contracts see it as `State`.
#[derive(Drop)]
pub struct SoFar {
    // The sections that have ended, and the one that has not.
    done: Sections,
    part: Option<Section>,
    // The names of both.
    names: IndexSet<Name, Seed>,
    flags: Flags,
    // How many lines notify.
    notes: usize,
    // The section that has not ended has its `\quit`.
    quit: bool,
    // The next line's number, and the byte at which it begins.
    line: u32,
    at: usize,
}

impl Model for SoFar {
    ghost use Rattle.pgn_scenario.specs.Steps.{State, IsCounted, IsPlaced};

    ghost Value = { State };

    ghost view = { λ s. record {
      done = s.done;
      part = s.part;
      names = s.names.keys;
      flags = s.flags;
      notes = s.notes;
      quit = s.quit;
      line = s.line;
      at = s.at;
    } };

    ghost invariant = { λ s. IsCounted s.notes s.part × IsPlaced s.line s.at };
}

impl SoFar {
    /// What no lines make. Hashes are made with this seed. It takes no memory.
    pub fn new(alloc: Global, seed: Seed) -> SoFar
        ensures { result ≡ at_start }
    {
        SoFar {
            done: Sections::new(alloc),
            part: None,
            names: IndexSet::with_hasher(alloc, seed),
            flags: Flags::new(alloc, seed),
            notes: 0,
            quit: false,
            line: 1,
            at: 0,
        }
    }

    /// Takes the next line, or tells its fault.
    pub fn take(&mut self, alloc: Global, line: &[u8]) -> Result<Option<ScenarioFault>, AllocError>
        requires { self.old.at + length line.now ≤ INPUT_BYTES_MAX }
        ensures { IfOk result (λ found. outcome found self.new ≡ step self.old line.now) }
    {
        let number = self.line;
        if line.len() > LINE_BYTES_MAX {
            return Ok(Some(ScenarioFault::LineTooLong { line: number }));
        }
        let text = match str::from_utf8(line) {
            Ok(text) => text,
            Err(error) => {
                let at = self.at + error.valid_up_to();
                return Ok(Some(ScenarioFault::NotUtf8 { at: at as u32 }));
            }
        };
        if memchr(0, line).is_some() {
            return Ok(Some(ScenarioFault::NulByte { line: number }));
        }
        let text = trimmed(text);
        let said = said_of(alloc, text)?;
        match self.add(alloc, text, said)? {
            None => {
                self.pass(line.len());
                Ok(None)
            }
            Some(fault) => Ok(Some(fault)),
        }
    }

    // The next line begins so many bytes and an LF later.
    fn pass(&mut self, bytes: usize)
        requires { self.old.at + bytes ≤ INPUT_BYTES_MAX }
        ensures { self.new ≡ passed bytes self.old }
    {
        self.line += 1;
        self.at += bytes + 1;
    }

    // Adds a line, by its text and what it says.
    fn add(
        &mut self,
        alloc: Global,
        text: &str,
        said: Said,
    ) -> Result<Option<ScenarioFault>, AllocError>
        ensures { IfOk result
            (λ found. outcome found self.new ≡ added self.old text.now (told said)) }
    {
        let line = self.line;
        match said {
            Said::Nothing => Ok(None),
            Said::Opens(name, db) => self.open(alloc, name, db),
            Said::Does(deed) => self.act(alloc, text, deed),
            Said::NoMeta => Ok(Some(ScenarioFault::BadMeta { line })),
        }
    }

    // A section begins.
    fn open(
        &mut self,
        alloc: Global,
        name: Name,
        db: DbOid,
    ) -> Result<Option<ScenarioFault>, AllocError>
        ensures { IfOk result (λ found. outcome found self.new ≡ opening self.old name db) }
    {
        let line = self.line;
        if self.names.contains(&name) {
            // Dropped here, by a call, as what else has parts where there are several ways out.
            drop(name);
            return Ok(Some(ScenarioFault::SameName { line }));
        }
        if self.names.len() + 1 > SECTIONS_MAX as usize {
            drop(name);
            return Ok(Some(ScenarioFault::TooMany { line }));
        }
        self.begin(alloc, name, db)?;
        Ok(None)
    }

    // A section begins whose name is new.
    fn begin(&mut self, alloc: Global, name: Name, db: DbOid) -> Result<(), AllocError>
        requires new { has_name self.old.names name ≡ false }
        requires few { length self.old.names + 1 ≤ SECTIONS_MAX }
        ensures { OnOk result (self.new ≡ opened self.old name db) }
    {
        let no = SessionNo::new(self.names.len() as u32 + 1);
        if let Err(AllocError) = self.enter(alloc, &name) {
            drop(name);
            return Err(AllocError);
        }
        let section = Section {
            no,
            name,
            db,
            lines: ScriptLines::new(alloc),
            note_lines: 0,
        };
        drop(self.part.replace(section));
        self.quit = false;
        Ok(())
    }

    // The name is a section's, and the section that has not ended ends.
    fn enter(&mut self, alloc: Global, name: &Name) -> Result<(), AllocError>
        requires { has_name self.old.names name.now ≡ false }
        ensures { OnOk result
            (self.new ≡ record (ended self.old) { names = self.old.names ++ name.now ∷ [] }) }
    {
        let copy = name.copy(alloc)?;
        self.names.insert(copy)?;
        self.end_part()?;
        Ok(())
    }

    // The session does something, which needs a section without a `\quit`.
    fn act(
        &mut self,
        alloc: Global,
        text: &str,
        deed: Deed,
    ) -> Result<Option<ScenarioFault>, AllocError>
        ensures { IfOk result
            (λ found. outcome found self.new ≡ added self.old text.now (told_deed deed)) }
    {
        let line = self.line;
        if self.quit {
            drop(deed);
            return Ok(Some(ScenarioFault::BadMeta { line }));
        }
        if self.part.is_none() {
            drop(deed);
            return Ok(Some(ScenarioFault::NoSession { line }));
        }
        match deed {
            Deed::Runs(command) => self.run(alloc, text, command),
            Deed::Signals(flag) => self.signal(alloc, text, flag),
            Deed::Awaits(flag) => self.wait(alloc, text, flag),
            Deed::Quits => self.end(alloc, text),
        }
    }

    // A command runs.
    fn run(
        &mut self,
        alloc: Global,
        text: &str,
        command: Command,
    ) -> Result<Option<ScenarioFault>, AllocError>
        ensures { IfOk result
            (λ found. outcome found self.new ≡ running self.old text.now command) }
    {
        let act = Act::Run(command);
        if self.notes + usize::from(is_note(&act)) > NOTE_LINES_MAX {
            drop(act);
            return Ok(Some(ScenarioFault::TooMany { line: self.line }));
        }
        self.push(alloc, text, act)?;
        Ok(None)
    }

    // A flag is signalled.
    fn signal(
        &mut self,
        alloc: Global,
        text: &str,
        flag: Name,
    ) -> Result<Option<ScenarioFault>, AllocError>
        ensures { IfOk result
            (λ found. outcome found self.new ≡ signals self.old text.now flag) }
    {
        let number = self.flags.signal(alloc, flag)?;
        if self.flags.len() > FLAGS_MAX {
            return Ok(Some(ScenarioFault::TooMany { line: self.line }));
        }
        self.push(alloc, text, Act::Signal(number as u32))?;
        Ok(None)
    }

    // A flag is awaited.
    fn wait(
        &mut self,
        alloc: Global,
        text: &str,
        flag: Name,
    ) -> Result<Option<ScenarioFault>, AllocError>
        ensures { IfOk result
            (λ found. outcome found self.new ≡ awaits self.old text.now flag) }
    {
        let number = self.flags.wait(alloc, flag, self.line)?;
        if self.flags.len() > FLAGS_MAX {
            return Ok(Some(ScenarioFault::TooMany { line: self.line }));
        }
        self.push(alloc, text, Act::Await(number as u32))?;
        Ok(None)
    }

    // The session quits.
    fn end(&mut self, alloc: Global, text: &str) -> Result<Option<ScenarioFault>, AllocError>
        ensures { IfOk result (λ found. outcome found self.new ≡ quits self.old text.now) }
    {
        self.quit = true;
        self.push(alloc, text, Act::Quit)?;
        Ok(None)
    }

    // Puts a line at the end of the section's script.
    fn push(&mut self, alloc: Global, text: &str, act: Act) -> Result<(), AllocError>
        requires { self.old.notes + note_of act ≤ NOTE_LINES_MAX }
        ensures { OnOk result (self.new ≡ acted self.old text.now act) }
    {
        let note = is_note(&act);
        let Ok(text) = LineText::new(alloc, text) else {
            drop(act);
            return Err(AllocError);
        };
        let line = ScriptLine {
            line: self.line,
            text,
            act,
        };
        self.notes += usize::from(note);
        push_line(&mut self.part, line, u32::from(note))
    }

    // The section that has not ended ends.
    fn end_part(&mut self) -> Result<(), AllocError>
        ensures { OnOk result (self.new ≡ ended self.old) }
    {
        match self.part.take() {
            Some(part) => self.done.push(part),
            None => Ok(()),
        }
    }

    /// What all lines make, where none has a fault: a scenario, or a fault of the whole. The sections are taken out.
    pub fn finish(&mut self, alloc: Global) -> Result<Result<Scenario, ScenarioFault>, AllocError>
        ensures { IfOk result (λ reading. reading ≡ finished self.old) }
    {
        if self.part.is_none() {
            return Ok(Err(ScenarioFault::Empty));
        }
        if let Some(line) = self.flags.unsignalled() {
            return Ok(Err(ScenarioFault::NeverSignalled { line }));
        }
        self.end_part()?;
        let flags = self.flags.names(alloc)?;
        let sections = mem::replace(&mut self.done, Sections::new(alloc));
        Ok(Ok(Scenario { sections, flags }))
    }
}

// Puts a line at the end of a section's script, if there is a section. It counts as so many lines that notify.
fn push_line(part: &mut Option<Section>, line: ScriptLine, notes: u32) -> Result<(), AllocError>
    requires note { notes ≡ note_of line.act }
    requires fits { IfSome part.old (λ one. one.note_lines + notes < 2 ^ 32) }
    ensures ok { OnOk result (part.new ≡ option_map (with_line line) part.old) }
    ensures err { OnErr result (part.new ≡ part.old) }
{
    let Some(section) = part else {
        drop(line);
        return Ok(());
    };
    section.lines.push(line)?;
    section.note_lines += notes;
    Ok(())
}

// The act is NOTIFY or a call of pg_notify.
fn is_note(act: &Act) -> bool
    ensures { result ≡ is_note_act act.now }
{
    matches!(act, Act::Run(Command::Notify(_) | Command::PgNotify(_)))
}
