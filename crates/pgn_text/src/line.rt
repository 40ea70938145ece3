#![tactic(auto, using(crate::proofs::PutsLaws::put_laws))]

ghost use Rattle.std.specs.Prelude.{◌<◌, ◌++◌, codes, decimal, length};
ghost use Rattle.pgn_text.specs.Rendering.{Puts, ended, mark_of};
ghost use Rattle.pgn_text.specs.declared.pieces.TheConstants.{AROUND_MAX};

use crate::Out;
use crate::span::Span;
use pgn_base::{Sink, Xid};

impl Out {
    // What stands before each line.
    #[inline(always)]
    pub(crate) fn mark<K: Sink>(&mut self, sink: &mut K, mark: Option<u32>)
        ensures { Puts K.held K.faults sink.old self.old sink.new self.new (mark_of mark) }
    {
        let Some(number) = mark else {
            return;
        };
        self.number(sink, u64::from(number));
        self.text(sink, b"| ");
    }

    // The line of a start and a text.
    #[inline(always)]
    pub(crate) fn text_line<K: Sink>(
        &mut self,
        sink: &mut K,
        mark: Option<u32>,
        start: &[u8],
        text: &[u8],
    )
        requires { length start.now < AROUND_MAX }
        ensures { Puts K.held K.faults sink.old self.old sink.new self.new
            (ended (mark_of mark ++ (start.now ++ text.now))) }
    {
        self.mark(sink, mark);
        self.text_in(sink, start, text, b"\n");
    }

    // The line of a start and a transaction number.
    #[inline(always)]
    pub(crate) fn xid_line<K: Sink>(
        &mut self,
        sink: &mut K,
        mark: Option<u32>,
        start: &[u8],
        xid: &Xid,
    )
        requires { length start.now < AROUND_MAX }
        ensures { Puts K.held K.faults sink.old self.old sink.new self.new
            (ended (mark_of mark ++ (start.now ++ decimal xid.now))) }
    {
        self.number_line(sink, mark, start, u64::from(xid.get()));
    }

    // The line of a start and two transaction numbers.
    #[inline(always)]
    pub(crate) fn span_line<K: Sink>(
        &mut self,
        sink: &mut K,
        mark: Option<u32>,
        start: &[u8],
        span: &Span,
    )
        requires { length start.now < AROUND_MAX }
        ensures { Puts K.held K.faults sink.old self.old sink.new self.new
            (ended (mark_of mark
            ++ (start.now ++ decimal span.now.from ++ codes " " ++ decimal span.now.to))) }
    {
        self.mark(sink, mark);
        self.number_in(sink, start, u64::from(span.from.get()), b" ");
        self.number_end(sink, b"", u64::from(span.to.get()));
    }

    // A start and a number.
    #[inline(always)]
    pub(crate) fn labelled<K: Sink>(&mut self, sink: &mut K, start: &[u8], number: u64)
        requires { length start.now < AROUND_MAX }
        ensures { Puts K.held K.faults sink.old self.old sink.new self.new
            (start.now ++ decimal number) }
    {
        self.number_in(sink, start, number, b"");
    }

    // A start and a number, at the end of a line.
    #[inline(always)]
    pub(crate) fn number_end<K: Sink>(&mut self, sink: &mut K, start: &[u8], number: u64)
        requires { length start.now < AROUND_MAX }
        ensures { Puts K.held K.faults sink.old self.old sink.new self.new
            (ended (start.now ++ decimal number)) }
    {
        self.number_in(sink, start, number, b"\n");
    }

    // The line of a start and a number.
    #[inline(always)]
    pub(crate) fn number_line<K: Sink>(
        &mut self,
        sink: &mut K,
        mark: Option<u32>,
        start: &[u8],
        number: u64,
    )
        requires { length start.now < AROUND_MAX }
        ensures { Puts K.held K.faults sink.old self.old sink.new self.new
            (ended (mark_of mark ++ (start.now ++ decimal number))) }
    {
        self.mark(sink, mark);
        self.number_end(sink, start, number);
    }
}
