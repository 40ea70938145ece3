#![tactic(auto, using(crate::proofs::PutsLaws::put_laws))]

ghost use Rattle.std.specs.Prelude.{◌≡◌, ◌+◌, ◌≤◌, [], ◌++◌, Ok, OnOk, decimal, length};
ghost use Rattle.pgn_text.specs.Rendering.{Puts};

use crate::buffer::{Buffer, SIZE};
use pgn_base::{Failed, Sink, write_all};

/// What is on its way to a sink. After a failed write nothing more is given out; what is kept back then goes nowhere.
#[derive(Drop)]
pub struct Out {
    pub(crate) kept: Buffer,
    pub so_far: Result<(), Failed>,
}

impl Out {
    pub fn new() -> Self
        ensures nothing { result.kept ≡ [] }
        ensures fine { result.so_far ≡ Ok tt }
    {
        Out {
            kept: Buffer::new(),
            so_far: Ok(()),
        }
    }

    /// Sends what is kept back.
    #[tactic(auto, using(crate::proofs::PutsLaws::send_laws))]
    pub fn send<K: Sink>(&mut self, sink: &mut K)
        ensures puts { Puts K.held K.faults sink.old self.old sink.new self.new [] }
        ensures emptied { OnOk self.new.so_far (self.new.kept ≡ []) }
    {
        if self.so_far.is_err() {
            return;
        }
        self.so_far = write_all(sink, self.kept.as_slice());
        self.kept.clear();
    }

    // Keeps a piece back, or writes it where it would fill the buffer.
    #[tactic(auto, using(crate::proofs::PutsLaws::out_laws))]
    fn keep<K: Sink>(&mut self, sink: &mut K, piece: &[u8])
        requires { OnOk self.old.so_far (self.old.kept ≡ []) }
        ensures { Puts K.held K.faults sink.old self.old sink.new self.new piece.now }
    {
        if self.so_far.is_err() {
            return;
        }
        if piece.len() >= SIZE {
            self.so_far = write_all(sink, piece);
            return;
        }
        self.kept.push(piece);
    }

    // Gives a piece out that there is no room for.
    #[cold]
    fn overflow<K: Sink>(&mut self, sink: &mut K, piece: &[u8])
        requires large { SIZE ≤ length self.old.kept + length piece.now }
        ensures { Puts K.held K.faults sink.old self.old sink.new self.new piece.now }
    {
        match self.so_far {
            Ok(()) => self.refill(sink, piece),
            Err(Failed) => self.kept.clear(),
        }
    }

    // Fills the buffer with the piece's front, sends it, and keeps the rest.
    fn refill<K: Sink>(&mut self, sink: &mut K, piece: &[u8])
        requires fine { self.old.so_far ≡ Ok tt }
        requires large { SIZE ≤ length self.old.kept + length piece.now }
        ensures { Puts K.held K.faults sink.old self.old sink.new self.new piece.now }
    {
        let (front, rest) = piece.split_at(self.kept.room());
        self.kept.push(front);
        self.send(sink);
        self.keep(sink, rest);
    }

    /// Gives bytes out.
    #[inline]
    #[tactic(auto, using(crate::proofs::PutsLaws::out_laws))]
    pub fn text<K: Sink>(&mut self, sink: &mut K, piece: &[u8])
        ensures { Puts K.held K.faults sink.old self.old sink.new self.new piece.now }
    {
        if piece.len() > self.kept.room() {
            self.overflow(sink, piece);
            return;
        }
        self.kept.push(piece);
    }

    /// Gives a number out in decimal.
    pub fn number<K: Sink>(&mut self, sink: &mut K, number: u64)
        ensures { Puts K.held K.faults sink.old self.old sink.new self.new (decimal number) }
    {
        self.number_in(sink, b"", number, b"");
    }
}
