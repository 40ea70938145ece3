ghost use Rattle.std.specs.Prelude.{◌&&◌, [], ◌∷◌, All, bytes_eq};
ghost use Rattle.std.proofs.Common.{rules};
ghost use Rattle.std.specs.Cmp.Rules.{comparing, hashing};
ghost use Rattle.pgn_base.specs.Notes.{IsNote};

use crate::{Copied, Name, Payload, Seq, Xid};
use std::alloc::{AllocError, Global};
use std::hash::{Hash, Hasher};

/// A notification as NOTIFY names it: a channel and a payload.
pub struct Note {
    pub channel: Name,
    pub payload: Payload,
}

// Written out, so that this crate proves it once for all that drop one.
impl Drop for Note {
    fn drop(self) {
        let Note {
            channel: _,
            payload: _,
        } = self;
    }
}

pub type Notes = Seq<Note>;

impl Copied for Note {
    fn copy(&self, alloc: Global) -> Result<Self, AllocError> {
        let channel = self.channel.copy(alloc)?;
        let payload = self.payload.copy(alloc)?;
        Ok(Note { channel, payload })
    }
}

impl PartialEq for Note {
    ghost eq = { λ a b. bytes_eq a.channel b.channel && bytes_eq a.payload b.payload };

    ghost laws = { Prim.search (comparing, rules) };

    fn eq(&self, other: &Note) -> bool {
        self.channel == other.channel && self.payload == other.payload
    }
}

impl Eq for Note {
    ghost laws = { Prim.search (comparing, rules) };
}

impl Hash for Note {
    ghost hash_input = { λ note. note.channel ∷ note.payload ∷ [] };

    ghost respects_eq = { Prim.search (hashing, rules) };

    fn hash<H: Hasher>(&self, state: &mut H) {
        self.channel.hash(state);
        self.payload.hash(state);
    }
}

/// A notification as a listener receives it. `pid` is the process number of its sender, 1000 and the session's number.
pub struct Delivery {
    pub xid: Xid,
    pub pid: u32,
    pub note: Note,
}

// Written out, so that this crate proves it once for all that drop one.
impl Drop for Delivery {
    fn drop(self) {
        let Delivery {
            xid: _,
            pid: _,
            note: _,
        } = self;
    }
}

pub type Deliveries = Seq<Delivery>;

impl Copied for Delivery {
    fn copy(&self, alloc: Global) -> Result<Self, AllocError> {
        let note = self.note.copy(alloc)?;
        Ok(Delivery {
            xid: self.xid,
            pid: self.pid,
            note,
        })
    }
}

/// Each of these notifications can be sent. It is called for what it says: a slice by itself tells nothing of its items.
pub fn are_notes(notes: &[Note])
    ensures { All IsNote notes.now }
{
    for note in notes {
        is_note(note);
    }
}

// A notification can be sent.
fn is_note(note: &Note)
    ensures { IsNote note.now }
{
    let _channel = note.channel.as_bytes();
    let _payload = note.payload.as_bytes();
}
