#![tactic(auto, using(crate::proofs::PutsLaws::put_laws))]

ghost use Rattle.std.specs.Prelude.{◌+◌, ◌≤◌, ◌++◌, decimal, flat_map, length};
ghost use Rattle.pgn_language.specs.Quotes.{doubled_byte};
ghost use Rattle.pgn_text.specs.Rendering.{Puts};
ghost use Rattle.pgn_text.specs.declared.pieces.TheConstants.{AROUND_MAX};

use crate::Out;
use crate::buffer::SIZE;
use crate::digits::NUMBER_ROOM;
use memchr::memchr;
use pgn_base::Sink;

// The texts around a number or a text have at most so many bytes together.
pub(crate) const AROUND_MAX: usize = 99;

// How long a text is at most that is copied byte by byte.
const SHORT: usize = 16;

// What stands around a text in which this quote is to stand twice.
#[derive(Clone, Copy)]
pub(crate) struct Quotes<'a> {
    pub(crate) front: &'a [u8],
    pub(crate) quote: u8,
    pub(crate) back: &'a [u8],
}

impl Out {
    // A number, where there may be no room.
    fn digits<K: Sink>(&mut self, sink: &mut K, number: u64)
        ensures { Puts K.held K.faults sink.old self.old sink.new self.new (decimal number) }
    {
        let mut digits = itoa::Buffer::new();
        self.text(sink, digits.format(number).as_bytes());
    }

    // A number between two texts, where there may be no room.
    #[cold]
    #[inline(never)]
    fn number_apart<K: Sink>(&mut self, sink: &mut K, front: &[u8], number: u64, back: &[u8])
        ensures { Puts K.held K.faults sink.old self.old sink.new self.new
            (front.now ++ decimal number ++ back.now) }
    {
        self.text(sink, front);
        self.digits(sink, number);
        self.text(sink, back);
    }

    // A number between two texts.
    #[inline(always)]
    pub(crate) fn number_in<K: Sink>(
        &mut self,
        sink: &mut K,
        front: &[u8],
        number: u64,
        back: &[u8],
    )
        requires { length front.now + length back.now ≤ AROUND_MAX }
        ensures { Puts K.held K.faults sink.old self.old sink.new self.new
            (front.now ++ decimal number ++ back.now) }
    {
        if front.len() + NUMBER_ROOM + back.len() > self.kept.room() {
            self.number_apart(sink, front, number, back);
            return;
        }
        self.kept.push(front);
        self.kept.push_number(number);
        self.kept.push(back);
    }

    // A text between two others, where there may be no room.
    #[cold]
    #[inline(never)]
    fn text_apart<K: Sink>(&mut self, sink: &mut K, front: &[u8], text: &[u8], back: &[u8])
        ensures { Puts K.held K.faults sink.old self.old sink.new self.new
            (front.now ++ text.now ++ back.now) }
    {
        self.text(sink, front);
        self.text(sink, text);
        self.text(sink, back);
    }

    // A text between two others.
    #[inline(always)]
    pub(crate) fn text_in<K: Sink>(&mut self, sink: &mut K, front: &[u8], text: &[u8], back: &[u8])
        requires { length front.now + length back.now ≤ AROUND_MAX }
        ensures { Puts K.held K.faults sink.old self.old sink.new self.new
            (front.now ++ text.now ++ back.now) }
    {
        if text.len() > SIZE || front.len() + text.len() + back.len() > self.kept.room() {
            self.text_apart(sink, front, text, back);
            return;
        }
        self.kept.push(front);
        self.kept.push(text);
        self.kept.push(back);
    }

    // A text with each quote twice, put in runs that end with a quote; the next run begins with it again.
    #[cold]
    #[inline(never)]
    #[tactic(auto, using(crate::proofs::PutsLaws::loop_laws))]
    fn runs<K: Sink>(&mut self, sink: &mut K, quote: u8, text: &[u8])
        ensures { Puts K.held K.faults sink.old self.old sink.new self.new
            (flat_map (doubled_byte quote) text.now) }
    {
        let mut start = 0;
        for i in 0..text.len() {
            if text[i] != quote {
                continue;
            }
            self.text(sink, &text[start..i + 1]);
            start = i;
        }
        self.text(sink, &text[start..]);
    }

    // A text with each quote twice, if it has any.
    #[inline]
    fn doubled<K: Sink>(&mut self, sink: &mut K, quote: u8, text: &[u8])
        ensures { Puts K.held K.faults sink.old self.old sink.new self.new
            (flat_map (doubled_byte quote) text.now) }
    {
        match memchr(quote, text) {
            Some(_) => self.runs(sink, quote, text),
            None => self.text(sink, text),
        }
    }

    // A text between quotes, where there may be no room.
    #[inline(never)]
    fn quoted_apart<K: Sink>(&mut self, sink: &mut K, quotes: Quotes<'_>, text: &[u8])
        ensures { Puts K.held K.faults sink.old self.old sink.new self.new
            (quotes.entry.front.now ++ flat_map (doubled_byte quotes.entry.quote) text.now
            ++ quotes.entry.back.now) }
    {
        self.text(sink, quotes.front);
        self.doubled(sink, quotes.quote, text);
        self.text(sink, quotes.back);
    }

    // A text between quotes.
    #[inline(always)]
    pub(crate) fn quoted_in<K: Sink>(&mut self, sink: &mut K, quotes: Quotes<'_>, text: &[u8])
        requires { length quotes.front.now + length quotes.back.now ≤ AROUND_MAX }
        ensures { Puts K.held K.faults sink.old self.old sink.new self.new
            (quotes.entry.front.now ++ flat_map (doubled_byte quotes.entry.quote) text.now
            ++ quotes.entry.back.now) }
    {
        let around = quotes.front.len() + quotes.back.len();
        if text.len() > SHORT || around + SHORT > self.kept.room() {
            self.quoted_apart(sink, quotes, text);
            return;
        }
        self.kept.push(quotes.front);
        if self.kept.push_unquoted(quotes.quote, text) {
            self.kept.push(quotes.back);
            return;
        }
        self.runs(sink, quotes.quote, text);
        self.text(sink, quotes.back);
    }
}
