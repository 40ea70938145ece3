#![tactic(auto, using(crate::proofs::PutsLaws::put_laws))]

ghost use Rattle.std.specs.Prelude.{◌≤◌, ◌++◌, codes, decimal, length, map};
ghost use Rattle.pgn_model.specs.Text.{channel_line, delivery_line, joined, note_line};
ghost use Rattle.pgn_text.specs.Rendering.{Puts, ended, mark_of, marked, note_behind};

use crate::Out;
use crate::pieces::Quotes;
use pgn_base::{Delivery, Name, Note, Sink};

impl Out {
    // A notification behind a text and its first quote, at the end of a line.
    #[inline(always)]
    fn note<K: Sink>(&mut self, sink: &mut K, front: &[u8], note: &Note)
        requires { length front.now ≤ 9 }
        ensures { Puts K.held K.faults sink.old self.old sink.new self.new
            (front.now ++ ended (note_behind note.now)) }
    {
        let channel = Quotes {
            front,
            quote: b'"',
            back: b"\", '",
        };
        let payload = Quotes {
            front: b"",
            quote: b'\'',
            back: b"'\n",
        };
        self.quoted_in(sink, channel, note.channel.as_bytes());
        self.quoted_in(sink, payload, note.payload.as_bytes());
    }

    // The line of a notification of the journal.
    fn note_line<K: Sink>(&mut self, sink: &mut K, note: &Note)
        ensures { Puts K.held K.faults sink.old self.old sink.new self.new
            (ended (note_line note.now)) }
    {
        self.note(sink, b"  \"", note);
    }

    /// The lines of the notifications of a transaction.
    #[tactic(auto, using(crate::proofs::PutsLaws::loop_laws))]
    pub fn note_lines<K: Sink>(&mut self, sink: &mut K, notes: &[Note])
        ensures { Puts K.held K.faults sink.old self.old sink.new self.new
            (joined (map note_line notes.now)) }
    {
        for note in notes {
            self.note_line(sink, note);
        }
    }

    // Where a notification that was received comes from, and its first quote.
    #[inline(always)]
    fn sender<K: Sink>(&mut self, sink: &mut K, delivery: &Delivery)
        ensures { Puts K.held K.faults sink.old self.old sink.new self.new
            (codes "  " ++ decimal delivery.now.xid ++ codes " "
            ++ decimal delivery.now.pid ++ codes " \"") }
    {
        self.number_in(sink, b"  ", u64::from(delivery.xid.get()), b" ");
        self.number_in(sink, b"", u64::from(delivery.pid), b" \"");
    }

    // The line of a notification that was received.
    fn delivery_line<K: Sink>(&mut self, sink: &mut K, mark: Option<u32>, delivery: &Delivery)
        ensures { Puts K.held K.faults sink.old self.old sink.new self.new
            (ended (mark_of mark ++ delivery_line delivery.now)) }
    {
        self.mark(sink, mark);
        self.sender(sink, delivery);
        self.note(sink, b"", &delivery.note);
    }

    // The lines of the notifications that a read received.
    #[tactic(auto, using(crate::proofs::PutsLaws::loop_laws))]
    pub(crate) fn delivery_lines<K: Sink>(
        &mut self,
        sink: &mut K,
        mark: Option<u32>,
        got: &[Delivery],
    )
        ensures { Puts K.held K.faults sink.old self.old sink.new self.new
            (joined (marked mark (map delivery_line got.now))) }
    {
        for delivery in got {
            self.delivery_line(sink, mark, delivery);
        }
    }

    // The row of a channel.
    fn channel_line<K: Sink>(&mut self, sink: &mut K, mark: Option<u32>, name: &Name)
        ensures { Puts K.held K.faults sink.old self.old sink.new self.new
            (ended (mark_of mark ++ channel_line name.now)) }
    {
        self.mark(sink, mark);
        let quotes = Quotes {
            front: b"  \"",
            quote: b'"',
            back: b"\"\n",
        };
        self.quoted_in(sink, quotes, name.as_bytes());
    }

    // The rows of the channels that a session listens to.
    #[tactic(auto, using(crate::proofs::PutsLaws::loop_laws))]
    pub(crate) fn channel_lines<K: Sink>(&mut self, sink: &mut K, mark: Option<u32>, names: &[Name])
        ensures { Puts K.held K.faults sink.old self.old sink.new self.new
            (joined (marked mark (map channel_line names.now))) }
    {
        for name in names {
            self.channel_line(sink, mark, name);
        }
    }
}
