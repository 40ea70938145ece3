//! The settings of a client.
ghost use Rattle.std.specs.Prelude.{◌≡◌, ◌≤◌, length, IfOk, MatchOption, OnOk};
ghost use Rattle.std.specs.List.{position_or_len};
ghost use Rattle.pgn_requests.specs.Settings.{default_of, fresh, is_of, set_back, settled_kept, value_in, with_start, with_value, with_set};
ghost use Rattle.pgn_requests.specs.declared.short_text.TheConstants.{SHORT_BYTES_MAX};

use crate::setting::{default_of, number_of};
use crate::{Setting, Settled, ShortText};
use pgn_base::Copied;
use std::alloc::{AllocError, Global};
use std::marker::Model;

/// A setting that was set, with its value.
#[derive(Drop)]
pub struct Entry {
    pub setting: Setting,
    pub value: ShortText,
}

/// The settings of a client. Those that were not set have their default. Contracts see what was set.
pub struct Settings {
    start: Vec<Entry>,
    now: Vec<Entry>,
}

// Written out, so that this crate proves it once for all that drop one.
impl Drop for Settings {
    fn drop(self) {
        let Settings { start: _, now: _ } = self;
    }
}

impl Model for Settings {
    ghost use Rattle.pgn_requests.specs.Settings.{Kept};

    ghost Value = { Kept };

    ghost view = { λ s. record { start = s.start.items; now = s.now.items } };
}

impl Settings {
    /// The settings before a client's first word. It takes no memory.
    pub fn new(alloc: Global) -> Settings
        ensures { result ≡ fresh }
    {
        Settings {
            start: Vec::new(alloc),
            now: Vec::new(alloc),
        }
    }

    /// The value of a setting.
    pub fn value(&self, setting: Setting) -> &[u8]
        ensures value { result.now ≡ value_in self.entry.now.now setting }
        ensures short { length result.now ≤ SHORT_BYTES_MAX }
    {
        match value_of(self.now.as_slice(), setting) {
            Some(value) => value.as_bytes(),
            None => default_of(setting).as_bytes(),
        }
    }

    /// Does what was settled, outside of a failed block. After a refusal they are the settings of nobody.
    pub fn settle(&mut self, alloc: Global, settled: &Settled) -> Result<(), AllocError>
        ensures { OnOk result (self.new ≡ settled_kept settled.now self.old) }
    {
        match settled {
            Settled::Sets {
                setting,
                value,
                starts,
            } => self.set(alloc, *setting, value, *starts),
            Settled::SetsBack { setting } => self.start_over(alloc, *setting),
            Settled::Resets { setting } => self.start_over(alloc, *setting),
            Settled::ResetsAll => self.set_back(alloc),
            _ => Ok(()),
        }
    }

    /// All settings as at the start. A refusal changes nothing.
    pub fn set_back(&mut self, alloc: Global) -> Result<(), AllocError>
        ensures { OnOk result (self.new ≡ set_back self.old) }
    {
        let start = copied(alloc, self.start.as_slice())?;
        self.now = start;
        Ok(())
    }

    // Sets one, also as what it is at the start.
    fn set(
        &mut self,
        alloc: Global,
        setting: Setting,
        value: &ShortText,
        starts: bool,
    ) -> Result<(), AllocError>
        ensures { OnOk result (self.new ≡ with_set setting value.now starts self.old) }
    {
        if starts {
            put(alloc, &mut self.start, setting, value)?;
        }
        put(alloc, &mut self.now, setting, value)
    }

    // Sets one to what it is at the start.
    fn start_over(&mut self, alloc: Global, setting: Setting) -> Result<(), AllocError>
        ensures { OnOk result (self.new ≡ with_start self.old setting) }
    {
        match value_of(self.start.as_slice(), setting) {
            Some(value) => put(alloc, &mut self.now, setting, value),
            None => {
                let value = ShortText::new(alloc, default_of(setting))?;
                put(alloc, &mut self.now, setting, &value)
            }
        }
    }
}

impl Copied for Settings {
    fn copy(&self, alloc: Global) -> Result<Self, AllocError> {
        let start = copied(alloc, self.start.as_slice())?;
        let now = copied(alloc, self.now.as_slice())?;
        Ok(Settings { start, now })
    }
}

impl Copied for Entry {
    fn copy(&self, alloc: Global) -> Result<Self, AllocError> {
        let value = self.value.copy(alloc)?;
        Ok(Entry {
            setting: self.setting,
            value,
        })
    }
}

fn copied(alloc: Global, entries: &[Entry]) -> Result<Vec<Entry>, AllocError>
    ensures { IfOk result (λ copies. copies.items ≡ entries.now) }
{
    let mut copies = Vec::with_capacity(alloc, entries.len())?;
    for entry in entries {
        copies.push(entry.copy(alloc)?)?;
    }
    Ok(copies)
}

// The value that a setting was given, if it was.
fn value_of(entries: &[Entry], setting: Setting) -> Option<&ShortText>
    ensures { MatchOption result (value_in entries.now setting ≡ default_of setting) (λ value. value_in entries.now setting ≡ value.now) }
{
    match entries.get(place_of(entries, setting)) {
        Some(entry) => Some(&entry.value),
        None => None,
    }
}

// Where a setting stands, or the length.
fn place_of(entries: &[Entry], setting: Setting) -> usize
    ensures { result ≡ position_or_len (is_of setting) entries.now }
{
    for (at, entry) in entries.iter().enumerate() {
        if number_of(entry.setting) == number_of(setting) {
            return at;
        }
    }
    entries.len()
}

// Gives a setting this value.
fn put(
    alloc: Global,
    entries: &mut Vec<Entry>,
    setting: Setting,
    value: &ShortText,
) -> Result<(), AllocError>
    ensures { OnOk result (entries.new.items ≡ with_value entries.old.items setting value.now) }
{
    let value = value.copy(alloc)?;
    let at = place_of(entries.as_slice(), setting);
    if at < entries.len() {
        entries[at].value = value;
        return Ok(());
    }
    entries.push(Entry { setting, value })?;
    Ok(())
}
