#![tactic(auto, using(crate::proofs::PutsLaws::put_laws))]

ghost use Rattle.std.specs.Prelude.{◌≡◌, [], ◌∷◌, ◌++◌, codes, decimal, map};
ghost use Rattle.pgn_answers.specs.Refusals.{tag_text, warning_lines, warning_text};
ghost use Rattle.pgn_model.specs.Text.{delivery_line, item_lines, joined};
ghost use Rattle.pgn_text.specs.Rendering.{HasPassed, Puts, ended, mark_of, marked, marked_items};

use crate::span::Span;
use crate::{LineCursor, Out};
use pgn_base::{Delivery, Sink, Tag, Warning};
use pgn_language::ScriptLine;
use pgn_model::Item;

// A warning's code and text.
fn text_of_warning(warning: Warning) -> &'static [u8]
    ensures { result.now ≡ warning_text warning }
{
    match warning {
        Warning::AlreadyInBlock => b"25001: there is already a transaction in progress",
        Warning::NotInBlock => b"25P01: there is no transaction in progress",
    }
}

impl Out {
    // A command's tag, and the end of its line.
    fn tag<K: Sink>(&mut self, sink: &mut K, tag: &Tag)
        ensures { Puts K.held K.faults sink.old self.old sink.new self.new
            (ended (tag_text tag.now)) }
    {
        match tag {
            Tag::Begin => self.text(sink, b"BEGIN\n"),
            Tag::Start => self.text(sink, b"START TRANSACTION\n"),
            Tag::Commit => self.text(sink, b"COMMIT\n"),
            Tag::Rollback => self.text(sink, b"ROLLBACK\n"),
            Tag::Savepoint => self.text(sink, b"SAVEPOINT\n"),
            Tag::Release => self.text(sink, b"RELEASE\n"),
            Tag::Listen => self.text(sink, b"LISTEN\n"),
            Tag::Unlisten => self.text(sink, b"UNLISTEN\n"),
            Tag::Notify => self.text(sink, b"NOTIFY\n"),
            Tag::Select(rows) => self.number_end(sink, b"SELECT ", u64::from(*rows)),
        }
    }

    // The line of a command's tag.
    fn tag_line<K: Sink>(&mut self, sink: &mut K, mark: Option<u32>, tag: &Tag)
        ensures { Puts K.held K.faults sink.old self.old sink.new self.new
            (ended (mark_of mark ++ tag_text tag.now)) }
    {
        self.mark(sink, mark);
        self.tag(sink, tag);
    }

    // A reply, after its warning.
    fn reply<K: Sink>(
        &mut self,
        sink: &mut K,
        mark: Option<u32>,
        tag: &Tag,
        warning: &Option<Warning>,
    )
        ensures { Puts K.held K.faults sink.old self.old sink.new self.new
            (joined (marked mark (warning_lines warning.now ++ tag_text tag.now ∷ []))) }
    {
        if let Some(warning) = warning {
            self.text_line(sink, mark, b"WARNING: ", text_of_warning(*warning));
        }
        self.tag_line(sink, mark, tag);
    }

    // From where to where a read moved the mark, and what it received.
    fn read<K: Sink>(&mut self, sink: &mut K, mark: Option<u32>, span: &Span, got: &[Delivery])
        ensures { Puts K.held K.faults sink.old self.old sink.new self.new
            (joined (marked mark
            ((codes "+read " ++ decimal span.now.from ++ codes " " ++ decimal span.now.to)
            ∷ map delivery_line got.now))) }
    {
        self.span_line(sink, mark, b"+read ", span);
        self.delivery_lines(sink, mark, got);
    }

    /// The lines of an item of a trace of these script lines, each behind the mark.
    pub fn item<K: Sink>(
        &mut self,
        sink: &mut K,
        lines: &[ScriptLine],
        cursor: &mut LineCursor,
        mark: Option<u32>,
        item: &Item,
    )
        requires { HasPassed lines.now cursor.old }
        ensures puts { Puts K.held K.faults sink.old self.old sink.new self.new
            (joined (marked mark (item_lines lines.now item.now))) }
        ensures passed { HasPassed lines.now cursor.new }
    {
        match item {
            Item::Line { line } => self.text_line(sink, mark, b"> ", cursor.find(lines, *line)),
            Item::Enlist { base, point } => {
                let span = Span {
                    from: *base,
                    to: *point,
                };
                self.span_line(sink, mark, b"+enlist ", &span);
            }
            Item::Publish { xid, .. } => self.xid_line(sink, mark, b"+publish ", xid),
            Item::QueueFull { full, .. } => self.full(sink, mark, full),
            Item::Leave => self.text_line(sink, mark, b"+leave", b""),
            Item::Reply { tag, warning } => self.reply(sink, mark, tag, warning),
            Item::Refuse { refusal } => self.refusal_line(sink, mark, refusal),
            Item::Channels { names } => self.channel_lines(sink, mark, names.as_slice()),
            Item::Used { usage } => self.usage(sink, mark, usage),
            Item::Raise { value } => self.xid_line(sink, mark, b"+signal ", value),
            Item::Found { value } => self.xid_line(sink, mark, b"+await ", value),
            Item::TimedOut { looks } => self.number_line(sink, mark, b"+timeout ", *looks),
            Item::Read { from, to, got } => {
                let span = Span {
                    from: *from,
                    to: *to,
                };
                self.read(sink, mark, &span, got.as_slice());
            }
        }
    }

    /// The lines of items of a trace of these script lines, each behind the mark.
    #[tactic(auto, using(crate::proofs::PutsLaws::loop_laws))]
    pub fn items<K: Sink>(
        &mut self,
        sink: &mut K,
        lines: &[ScriptLine],
        cursor: &mut LineCursor,
        mark: Option<u32>,
        items: &[Item],
    )
        requires { HasPassed lines.now cursor.old }
        ensures puts { Puts K.held K.faults sink.old self.old sink.new self.new
            (joined (marked_items mark lines.now items.now)) }
        ensures passed { HasPassed lines.now cursor.new }
    {
        for item in items {
            self.item(sink, lines, cursor, mark, item);
        }
    }
}
