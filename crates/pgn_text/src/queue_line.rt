#![tactic(auto, using(crate::proofs::PutsLaws::put_laws))]

ghost use Rattle.std.specs.Prelude.{◌++◌, codes, decimal};
ghost use Rattle.pgn_model.specs.Text.{full_line, holder_text, joined, usage_lines};
ghost use Rattle.pgn_text.specs.Rendering.{Puts, ended, mark_of, marked};

use crate::Out;
use pgn_base::{Full, SessionNo, Sink, Usage};

impl Out {
    // The session that holds the floor, and the end of the line.
    fn holder_end<K: Sink>(&mut self, sink: &mut K, holder: &Option<SessionNo>)
        ensures { Puts K.held K.faults sink.old self.old sink.new self.new
            (ended (codes " holder " ++ holder_text holder.now)) }
    {
        match holder {
            None => self.text(sink, b" holder none\n"),
            Some(session) => self.number_end(sink, b" holder ", u64::from(session.get())),
        }
    }

    // Which transaction met a full queue, how many of its notifications were queued, and the head's page.
    fn full_head<K: Sink>(&mut self, sink: &mut K, full: &Full)
        ensures { Puts K.held K.faults sink.old self.old sink.new self.new
            (codes "+full " ++ decimal full.now.xid ++ codes " queued " ++ decimal full.now.queued
            ++ codes " head " ++ decimal full.now.head_page) }
    {
        self.labelled(sink, b"+full ", u64::from(full.xid.get()));
        self.labelled(sink, b" queued ", u64::from(full.queued));
        self.labelled(sink, b" head ", full.head_page);
    }

    // The floor of a full queue, its page and who holds it, and the end of the line.
    fn full_floor<K: Sink>(&mut self, sink: &mut K, full: &Full)
        ensures { Puts K.held K.faults sink.old self.old sink.new self.new
            (ended (codes " floor " ++ decimal full.now.floor_mark
            ++ codes " page " ++ decimal full.now.floor_page
            ++ codes " holder " ++ holder_text full.now.holder)) }
    {
        self.labelled(sink, b" floor ", u64::from(full.floor_mark.get()));
        self.labelled(sink, b" page ", full.floor_page);
        self.holder_end(sink, &full.holder);
    }

    // Why a transaction met a full queue.
    pub(crate) fn full<K: Sink>(&mut self, sink: &mut K, mark: Option<u32>, full: &Full)
        ensures { Puts K.held K.faults sink.old self.old sink.new self.new
            (ended (mark_of mark ++ full_line full.now)) }
    {
        self.mark(sink, mark);
        self.full_head(sink, full);
        self.full_floor(sink, full);
    }

    // Where the queue's usage was measured.
    fn usage_place<K: Sink>(&mut self, sink: &mut K, mark: Option<u32>, usage: &Usage)
        ensures { Puts K.held K.faults sink.old self.old sink.new self.new
            (ended (mark_of mark
            ++ (codes "+usage " ++ decimal usage.now.at ++ codes " floor " ++ decimal usage.now.floor_mark
            ++ codes " holder " ++ holder_text usage.now.holder))) }
    {
        self.mark(sink, mark);
        self.labelled(sink, b"+usage ", u64::from(usage.at.get()));
        self.labelled(sink, b" floor ", u64::from(usage.floor_mark.get()));
        self.holder_end(sink, &usage.holder);
    }

    // The pages that are in use, of those that there may be.
    fn usage_pages<K: Sink>(&mut self, sink: &mut K, mark: Option<u32>, usage: &Usage)
        ensures { Puts K.held K.faults sink.old self.old sink.new self.new
            (ended (mark_of mark
            ++ (codes "  " ++ decimal usage.now.occupied ++ codes "/" ++ decimal usage.now.limit))) }
    {
        self.mark(sink, mark);
        self.labelled(sink, b"  ", usage.occupied);
        self.number_end(sink, b"/", u64::from(usage.limit));
    }

    // The queue's usage.
    pub(crate) fn usage<K: Sink>(&mut self, sink: &mut K, mark: Option<u32>, usage: &Usage)
        ensures { Puts K.held K.faults sink.old self.old sink.new self.new
            (joined (marked mark (usage_lines usage.now))) }
    {
        self.usage_place(sink, mark, usage);
        self.usage_pages(sink, mark, usage);
    }
}
