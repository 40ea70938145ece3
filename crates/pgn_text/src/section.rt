#![tactic(auto, using(crate::proofs::PutsLaws::put_laws))]

ghost use Rattle.std.specs.Prelude.{◌+◌, ◌++◌, codes, decimal};
ghost use Rattle.pgn_base.specs.declared.limits.TheConstants.{PID_BASE};
ghost use Rattle.pgn_model.specs.Text.{end_line, joined, section_line, trace_lines, traces_lines};
ghost use Rattle.pgn_text.specs.Rendering.{Puts, ended, ends_lines};

use crate::{LineCursor, Out};
use pgn_base::{PID_BASE, SessionNo, Sink, Xid};
use pgn_language::Section;
use pgn_model::Trace;

impl Out {
    // A section's number, name and database.
    fn place<K: Sink>(&mut self, sink: &mut K, section: &Section)
        ensures { Puts K.held K.faults sink.old self.old sink.new self.new
            (decimal section.now.no ++ codes " " ++ section.now.name
            ++ codes " db " ++ decimal section.now.db) }
    {
        self.number(sink, u64::from(section.no.get()));
        self.text(sink, b" ");
        self.text(sink, section.name.as_bytes());
        self.text(sink, b" db ");
        self.number(sink, u64::from(section.db.get()));
    }

    // The process number of a session.
    fn pid<K: Sink>(&mut self, sink: &mut K, session: &SessionNo)
        ensures { Puts K.held K.faults sink.old self.old sink.new self.new
            (decimal (PID_BASE + session.now)) }
    {
        self.number(sink, u64::from(PID_BASE + session.get()));
    }

    // A section's head.
    fn section_line<K: Sink>(&mut self, sink: &mut K, section: &Section)
        ensures { Puts K.held K.faults sink.old self.old sink.new self.new
            (ended (section_line section.now)) }
    {
        self.text(sink, b"session ");
        self.place(sink, section);
        self.text(sink, b" pid ");
        self.pid(sink, &section.no);
        self.text(sink, b"\n");
    }

    // The last line of a trace.
    fn end<K: Sink>(&mut self, sink: &mut K, last: &Option<Xid>)
        ensures { Puts K.held K.faults sink.old self.old sink.new self.new
            (ended (end_line last.now)) }
    {
        match last {
            None => self.text(sink, b"end\n"),
            Some(mark) => {
                self.text(sink, b"end mark ");
                self.number(sink, u64::from(mark.get()));
                self.text(sink, b"\n");
            }
        }
    }

    // The lines of a section with its trace.
    fn section<K: Sink>(&mut self, sink: &mut K, section: &Section, trace: &Trace)
        ensures { Puts K.held K.faults sink.old self.old sink.new self.new
            (joined (trace_lines section.now trace.now)) }
    {
        self.section_line(sink, section);
        let mut cursor = LineCursor::new();
        self.items(
            sink,
            section.lines.as_slice(),
            &mut cursor,
            None,
            trace.items.as_slice(),
        );
        self.end(sink, &trace.last);
    }

    /// The lines of the sections with their traces.
    #[tactic(auto, using(crate::proofs::PutsLaws::loop_laws))]
    pub fn sections<K: Sink>(&mut self, sink: &mut K, sections: &[Section], traces: &[Trace])
        ensures { Puts K.held K.faults sink.old self.old sink.new self.new
            (joined (traces_lines sections.now traces.now)) }
    {
        let count = sections.len().min(traces.len());
        for i in 0..count {
            self.section(sink, &sections[i], &traces[i]);
        }
    }

    // A section's head, and the end of its trace.
    fn section_end<K: Sink>(&mut self, sink: &mut K, section: &Section, trace: &Trace)
        ensures { Puts K.held K.faults sink.old self.old sink.new self.new
            (ended (section_line section.now) ++ ended (end_line trace.now.last)) }
    {
        self.section_line(sink, section);
        self.end(sink, &trace.last);
    }

    /// The heads of the sections, each with the end of its trace.
    #[tactic(auto, using(crate::proofs::PutsLaws::loop_laws))]
    pub fn ends<K: Sink>(&mut self, sink: &mut K, sections: &[Section], traces: &[Trace])
        ensures { Puts K.held K.faults sink.old self.old sink.new self.new
            (joined (ends_lines sections.now traces.now)) }
    {
        let count = sections.len().min(traces.len());
        for i in 0..count {
            self.section_end(sink, &sections[i], &traces[i]);
        }
    }
}
