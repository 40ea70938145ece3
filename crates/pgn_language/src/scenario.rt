use crate::LineText;
use pgn_base::{Command, Copied, DbOid, Name, Names, Seq, SessionNo};
use std::alloc::{AllocError, Global};

/// What a script line does. A flag goes by its place in the scenario's `flags`.
#[derive(Drop)]
pub enum Act {
    Run(Command),
    Signal(u32),
    Await(u32),
    Quit,
}

/// A line of a script: its number in the input, from 1, its text without the blanks at both ends, and its act.
pub struct ScriptLine {
    pub line: u32,
    pub text: LineText,
    pub act: Act,
}

// Written out, so that this crate proves it once for all that drop one.
impl Drop for ScriptLine {
    fn drop(self) {
        let ScriptLine {
            line: _,
            text: _,
            act: _,
        } = self;
    }
}

pub type ScriptLines = Seq<ScriptLine>;

/// One session's script. `note_lines` is how many of its lines have the command Notify or PgNotify; one that is Invalid or Bad
/// does not count.
pub struct Section {
    pub no: SessionNo,
    pub name: Name,
    pub db: DbOid,
    pub lines: ScriptLines,
    pub note_lines: u32,
}

// Written out, so that this crate proves it once for all that drop one.
impl Drop for Section {
    fn drop(self) {
        let Section {
            no: _,
            name: _,
            db: _,
            lines: _,
            note_lines: _,
        } = self;
    }
}

pub type Sections = Seq<Section>;

/// The scripts of all sessions, and the flags that they name, in order of first appearance.
#[derive(Drop)]
pub struct Scenario {
    pub sections: Sections,
    pub flags: Names,
}

/// Why an input is no scenario. `line` counts from 1, and `at` counts bytes of the input from 0.
#[derive(Clone, Copy)]
pub enum ScenarioFault {
    /// It has more than 16,777,216 bytes.
    TooLarge,
    /// A line has more than 65,536 bytes.
    LineTooLong { line: u32 },
    /// A line is not UTF-8, from this byte on.
    NotUtf8 { at: u32 },
    /// A line has a zero byte.
    NulByte { line: u32 },
    /// A line begins with `\` and is no meta line, or stands after the `\quit` of its section.
    BadMeta { line: u32 },
    /// A line stands before the first section.
    NoSession { line: u32 },
    /// A section has the name of an earlier one.
    SameName { line: u32 },
    /// There are more than 256 sections, 256 flags or 65,536 lines that notify.
    TooMany { line: u32 },
    /// There is no section.
    Empty,
    /// A flag is awaited that no line signals.
    NeverSignalled { line: u32 },
}

impl Copied for Act {
    fn copy(&self, alloc: Global) -> Result<Self, AllocError> {
        match self {
            Act::Run(command) => {
                let command = command.copy(alloc)?;
                Ok(Act::Run(command))
            }
            Act::Signal(flag) => Ok(Act::Signal(*flag)),
            Act::Await(flag) => Ok(Act::Await(*flag)),
            Act::Quit => Ok(Act::Quit),
        }
    }
}

impl Copied for ScriptLine {
    fn copy(&self, alloc: Global) -> Result<Self, AllocError> {
        let text = self.text.copy(alloc)?;
        let act = self.act.copy(alloc)?;
        Ok(ScriptLine {
            line: self.line,
            text,
            act,
        })
    }
}

impl Copied for Section {
    fn copy(&self, alloc: Global) -> Result<Self, AllocError> {
        let name = self.name.copy(alloc)?;
        let lines = self.lines.copy(alloc)?;
        Ok(Section {
            no: self.no,
            name,
            db: self.db,
            lines,
            note_lines: self.note_lines,
        })
    }
}
