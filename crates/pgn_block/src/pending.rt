ghost use Rattle.std.specs.Prelude.{◌≡◌, ◌+◌, ◌≤◌, ◌↔◌, [], ◌∷◌, ◌++◌, List, length, vec_capacity, false, IsErr, OnOk, OnErr};
ghost use Rattle.pgn_base.specs.Names.{has_name};
ghost use Rattle.pgn_answers.specs.Savepoints.{Change, Saved, Acted, Noted, RolledBack, Released, live_names, surviving_actions, surviving_notes, firsts};
ghost use Rattle.pgn_block.specs.Kept.{HasHistory, StandsFor, with_note};

use crate::savepoint::Savepoint;
use crate::savepoints::Savepoints;
use indexmap::IndexSet;
use pgn_base::{Action, Actions, Name, Note, Notes, Seed};
use std::alloc::{AllocError, Global};
use std::marker::Model;

/// What a transaction has sent and done so far, and its savepoints. Contracts see it as `Kept`.
pub struct Pending {
    actions: Vec<Action>,
    notes: IndexSet<Note, Seed>,
    savepoints: Savepoints,
    // Empty, with room for all the notes: what `finish` puts them into.
    room: Vec<Note>,
}

// Written out, so that this crate proves it once for all that drop one.
impl Drop for Pending {
    fn drop(self) {
        let Pending {
            actions: _,
            notes: _,
            savepoints: _,
            room: _,
        } = self;
    }
}

/// No savepoint that stands has the name.
#[derive(Clone, Copy)]
pub struct NoSuch;

impl Model for Pending {
    ghost use Rattle.std.specs.Prelude.{◌≡◌, ◌≤◌, [], length, vec_capacity};
    ghost use Rattle.pgn_block.specs.Kept.{Kept, HasHistory, kept};

    ghost Value = { Kept };

    ghost view = { λ p. kept p.actions.items p.notes.keys p.savepoints };

    ghost invariant = { λ p. (p.room.items ≡ []) × (length p.notes.keys ≤ vec_capacity p.room)
        × HasHistory (kept p.actions.items p.notes.keys p.savepoints) };
}

impl Pending {
    /// What a transaction has at its start: nothing. Its hashes are made with this seed. It takes no memory.
    pub fn new(alloc: Global, seed: Seed) -> Pending
        ensures { StandsFor [] result }
    {
        Pending {
            actions: Vec::new(alloc),
            notes: IndexSet::with_hasher(alloc, seed),
            savepoints: Savepoints::new(alloc, seed),
            room: Vec::new(alloc),
        }
    }

    /// NOTIFY. A notification that is kept already stays in its place. Where memory does not suffice, nothing changes.
    pub fn note(&mut self, note: Note) -> Result<(), AllocError>
        ensures ok { OnOk result ((changes : List Change) → StandsFor changes self.old
            → StandsFor (changes ++ Noted note ∷ []) self.new) }
        ensures err { OnErr result (self.new ≡ self.old) }
    {
        self.room.reserve(self.notes.len() + 1)?;
        keep(&mut self.notes, note)?;
        Ok(())
    }

    /// LISTEN and UNLISTEN. Where memory does not suffice, nothing changes.
    pub fn action(&mut self, action: Action) -> Result<(), AllocError>
        ensures ok { OnOk result ((changes : List Change) → StandsFor changes self.old
            → StandsFor (changes ++ Acted action ∷ []) self.new) }
        ensures err { OnErr result (self.new ≡ self.old) }
    {
        self.actions.push(action)?;
        Ok(())
    }

    /// SAVEPOINT. Where memory does not suffice, nothing changes.
    pub fn mark(&mut self, name: Name) -> Result<(), AllocError>
        ensures ok { OnOk result ((changes : List Change) → StandsFor changes self.old
            → StandsFor (changes ++ Saved name ∷ []) self.new) }
        ensures err { OnErr result (self.new ≡ self.old) }
    {
        let savepoint = Savepoint {
            name,
            notes: self.notes.len(),
            actions: self.actions.len(),
        };
        self.savepoints.push(savepoint)?;
        Ok(())
    }

    /// ROLLBACK TO: drops what came after the newest savepoint of this name, later savepoints too, and keeps this one. It takes no
    /// memory. `NoSuch` where no savepoint that stands has the name; nothing changes then.
    pub fn back_to(&mut self, name: &Name) -> Result<(), NoSuch>
        ensures not_live { (changes : List Change) → StandsFor changes self.old
            → (IsErr result ↔ (has_name (live_names changes) name.now ≡ false)) }
        ensures unchanged { OnErr result (self.new ≡ self.old) }
        ensures after { (changes : List Change) → StandsFor changes self.old
            → StandsFor (changes ++ RolledBack name.now ∷ []) self.new }
    {
        let Some(at) = self.savepoints.newest(name) else {
            return Err(NoSuch);
        };
        let savepoint = self.savepoints.at(at);
        self.notes.truncate(savepoint.notes);
        self.actions.truncate(savepoint.actions);
        self.savepoints.truncate(at + 1);
        Ok(())
    }

    /// RELEASE: drops the newest savepoint of this name and later ones, and keeps what came after. It takes no memory. `NoSuch`
    /// where no savepoint that stands has the name; nothing changes then.
    pub fn release(&mut self, name: &Name) -> Result<(), NoSuch>
        ensures not_live { (changes : List Change) → StandsFor changes self.old
            → (IsErr result ↔ (has_name (live_names changes) name.now ≡ false)) }
        ensures unchanged { OnErr result (self.new ≡ self.old) }
        ensures after { (changes : List Change) → StandsFor changes self.old
            → StandsFor (changes ++ Released name.now ∷ []) self.new }
    {
        let Some(from) = self.savepoints.newest(name) else {
            return Err(NoSuch);
        };
        self.savepoints.truncate(from);
        Ok(())
    }

    /// The surviving actions, and the surviving notifications without their repeats, each in order. It takes no memory.
    pub fn finish(self) -> (Actions, Notes)
        ensures actions { (changes : List Change) → StandsFor changes self
            → result.0 ≡ surviving_actions changes }
        ensures notes { (changes : List Change) → StandsFor changes self
            → result.1 ≡ firsts (surviving_notes changes) }
    {
        let Pending {
            actions,
            notes,
            savepoints: _,
            room,
        } = self;
        (Actions::from_items(actions), in_list(notes, room))
    }
}

// Puts a notification at the end of a set, unless an equal one is there. A refusal changes nothing.
fn keep(notes: &mut IndexSet<Note, Seed>, note: Note) -> Result<(), AllocError>
    ensures keys { OnOk result (notes.new.keys ≡ with_note notes.old.keys note) }
    ensures most { length notes.new.keys ≤ length notes.old.keys + 1 }
    ensures err { OnErr result (notes.new.keys ≡ notes.old.keys) }
{
    notes.insert(note)?;
    Ok(())
}

// The notes of a set, put into a list that has room for them.
fn in_list(set: IndexSet<Note, Seed>, room: Vec<Note>) -> Notes
    requires empty { room.items ≡ [] }
    requires fits { length set.keys ≤ vec_capacity room }
    ensures { result ≡ set.keys }
{
    let mut notes = room;
    for note in set {
        notes.push(note).unwrap();
    }
    Notes::from_items(notes)
}
