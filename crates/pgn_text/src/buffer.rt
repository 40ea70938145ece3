#![tactic(auto)]

ghost use Rattle.std.specs.Prelude.{◌≡◌, ◌+◌, ◌≤◌, [], ◌++◌, IsTrue, flat_map, if◌then◌else◌, length, take};
ghost use Rattle.pgn_language.specs.Quotes.{doubled_byte};

use std::marker::Model;

// How many bytes a buffer keeps back at most.
pub(crate) const SIZE: usize = 8192;

/// Bytes that are kept back until there are enough of them for a write. Contracts see those bytes.
#[derive(Drop)]
pub(crate) struct Buffer {
    bytes: [u8; SIZE],
    used: usize,
}

impl Model for Buffer {
    ghost use Rattle.std.specs.Prelude.{List, ℕ, ◌≤◌, take};
    ghost use Rattle.pgn_text.specs.declared.buffer.TheConstants.{SIZE};

    ghost Value = { List ℕ };

    ghost view = { λ buffer. take buffer.used buffer.bytes };

    ghost invariant = { λ buffer. buffer.used ≤ SIZE };
}

// Copies a text up to the first quote in it, and says whether that is all.
#[inline(always)]
fn copied_without(into: &mut [u8], quote: u8, text: &[u8]) -> bool
    requires { length text.now ≤ length into.old }
    ensures whole { IsTrue result
        → take (length text.now) into.new ≡ flat_map (doubled_byte quote) text.now }
    ensures length { length into.new ≡ length into.old }
{
    for i in 0..text.len() {
        if text[i] == quote {
            return false;
        }
        into[i] = text[i];
    }
    true
}

impl Buffer {
    pub(crate) fn new() -> Self
        ensures { result ≡ [] }
    {
        Buffer {
            bytes: [0; SIZE],
            used: 0,
        }
    }

    pub(crate) fn as_slice(&self) -> &[u8]
        ensures value { result.now ≡ self.now }
        ensures within { length self.now ≤ SIZE }
    {
        &self.bytes[..self.used]
    }

    #[inline(always)]
    pub(crate) fn room(&self) -> usize
        ensures { result + length self.now ≡ SIZE }
    {
        SIZE - self.used
    }

    pub(crate) fn clear(&mut self)
        ensures { self.new ≡ [] }
    {
        self.used = 0;
    }

    #[inline(always)]
    pub(crate) fn push(&mut self, piece: &[u8])
        requires { length self.old + length piece.now ≤ SIZE }
        ensures { self.new ≡ self.old ++ piece.now }
    {
        let end = self.used + piece.len();
        self.bytes[self.used..end].copy_from_slice(piece);
        self.used = end;
    }

    // Keeps a text back as one whose quotes stand twice, if it has none.
    #[inline(always)]
    pub(crate) fn push_unquoted(&mut self, quote: u8, text: &[u8]) -> bool
        requires { length self.old + length text.now ≤ SIZE }
        ensures kept { self.new
            ≡ self.old ++ (if result then flat_map (doubled_byte quote) text.now else []) }
        ensures short { length self.new ≤ length self.old + length text.now }
    {
        if !copied_without(&mut self.bytes[self.used..], quote, text) {
            return false;
        }
        self.used += text.len();
        true
    }
}
