#![tactic(auto, using(crate::proofs::PutsLaws::put_laws))]

ghost use Rattle.std.specs.Prelude.{◌≡◌, ◌++◌, codes};
ghost use Rattle.pgn_answers.specs.Refusals.{refusal_code, refusal_message, refusal_text};
ghost use Rattle.pgn_text.specs.Rendering.{Puts, ended, mark_of};

use crate::Out;
use pgn_base::{Needs, Refusal, Sink, Which};

// The code of a refusal.
fn code_of_refusal(refusal: &Refusal) -> &'static [u8]
    ensures { result.now ≡ refusal_code refusal.now }
{
    match refusal {
        Refusal::Syntax { .. } => b"42601",
        Refusal::Bounds { .. } => b"22023",
        Refusal::NeedsBlock { .. } => b"25P01",
        Refusal::NoSavepoint { .. } => b"3B001",
        Refusal::Aborted => b"25P02",
        Refusal::QueueFull => b"54000",
    }
}

// What is said of each limit.
fn text_of_bounds(which: Which) -> &'static [u8]
    ensures { result.now ≡ refusal_message (Refusal.Bounds which) }
{
    match which {
        Which::ChannelEmpty => b"channel name cannot be empty",
        Which::ChannelTooLong => b"channel name too long",
        Which::PayloadTooLong => b"payload string too long",
    }
}

// What is said where a command can only be used in a block.
fn text_of_needs(what: Needs) -> &'static [u8]
    ensures { result.now ≡ refusal_message (Refusal.NeedsBlock what) }
{
    match what {
        Needs::Savepoint => b"SAVEPOINT can only be used in transaction blocks",
        Needs::RollbackTo => b"ROLLBACK TO SAVEPOINT can only be used in transaction blocks",
        Needs::Release => b"RELEASE SAVEPOINT can only be used in transaction blocks",
    }
}

impl Out {
    // What a refusal says after its code.
    fn message<K: Sink>(&mut self, sink: &mut K, refusal: &Refusal)
        ensures { Puts K.held K.faults sink.old self.old sink.new self.new
            (refusal_message refusal.now) }
    {
        match refusal {
            Refusal::Syntax { at } => self.labelled(sink, b"syntax error at byte ", u64::from(*at)),
            Refusal::Bounds { which } => self.text(sink, text_of_bounds(*which)),
            Refusal::NeedsBlock { what } => self.text(sink, text_of_needs(*what)),
            Refusal::NoSavepoint { name } => {
                self.text(sink, b"savepoint \"");
                self.text(sink, name.as_bytes());
                self.text(sink, b"\" does not exist");
            }
            Refusal::Aborted => self.text(
                sink,
                b"current transaction is aborted, commands ignored until end of transaction block",
            ),
            Refusal::QueueFull => self.text(sink, b"too many notifications in the NOTIFY queue"),
        }
    }

    // A refusal's code and message.
    fn refusal<K: Sink>(&mut self, sink: &mut K, refusal: &Refusal)
        ensures { Puts K.held K.faults sink.old self.old sink.new self.new
            (refusal_text refusal.now) }
    {
        self.text(sink, code_of_refusal(refusal));
        self.text(sink, b": ");
        self.message(sink, refusal);
    }

    // The line of a refusal.
    pub(crate) fn refusal_line<K: Sink>(
        &mut self,
        sink: &mut K,
        mark: Option<u32>,
        refusal: &Refusal,
    )
        ensures { Puts K.held K.faults sink.old self.old sink.new self.new
            (ended (mark_of mark ++ (codes "ERROR: " ++ refusal_text refusal.now))) }
    {
        self.mark(sink, mark);
        self.text(sink, b"ERROR: ");
        self.refusal(sink, refusal);
        self.text(sink, b"\n");
    }
}
