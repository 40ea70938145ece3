#![tactic(auto, using(crate::proofs::PutsLaws::put_laws))]

ghost use Rattle.std.specs.Prelude.{◌+◌, ◌++◌, codes, decimal, length};
ghost use Rattle.pgn_base.specs.declared.limits.TheConstants.{FIRST_XID};
ghost use Rattle.pgn_model.specs.Text.{entries_lines, entry_lines, fate_text, joined, journal_lines};
ghost use Rattle.pgn_text.specs.Rendering.{Puts};

use crate::Out;
use pgn_base::{FIRST_XID, Sink};
use pgn_journal::{Fate, Tx};

impl Out {
    // How a transaction ended.
    fn fate<K: Sink>(&mut self, sink: &mut K, tx: &Tx)
        ensures { Puts K.held K.faults sink.old self.old sink.new self.new
            (fate_text tx.now.fate tx.now.queued (length tx.now.notes)) }
    {
        let count = tx.notes.as_slice().len() as u64;
        match tx.fate {
            Fate::Committed => {
                self.labelled(sink, b" commit ", count);
            }
            Fate::Aborted => {
                self.labelled(sink, b" abort ", u64::from(tx.queued));
                self.labelled(sink, b" of ", count);
            }
        }
    }

    // The number of a transaction and that of its session.
    fn numbers<K: Sink>(&mut self, sink: &mut K, x: u64, session: u64)
        ensures { Puts K.held K.faults sink.old self.old sink.new self.new
            (codes "xid " ++ decimal x ++ codes " session " ++ decimal session) }
    {
        self.labelled(sink, b"xid ", x);
        self.labelled(sink, b" session ", session);
    }

    // The lines of the transaction numbered x.
    fn entry<K: Sink>(&mut self, sink: &mut K, x: u64, tx: &Tx)
        ensures { Puts K.held K.faults sink.old self.old sink.new self.new
            (joined (entry_lines x tx.now)) }
    {
        self.numbers(sink, x, u64::from(tx.session.get()));
        self.fate(sink, tx);
        self.text(sink, b"\n");
        self.note_lines(sink, tx.notes.as_slice());
    }

    // The lines of the transactions.
    #[tactic(auto, using(crate::proofs::PutsLaws::loop_laws))]
    fn entries<K: Sink>(&mut self, sink: &mut K, journal: &[Tx])
        ensures { Puts K.held K.faults sink.old self.old sink.new self.new
            (joined (entries_lines FIRST_XID journal.now)) }
    {
        for (k, tx) in journal.iter().enumerate() {
            self.entry(sink, u64::from(FIRST_XID) + k as u64, tx);
        }
    }

    /// The lines of the journal.
    pub fn journal<K: Sink>(&mut self, sink: &mut K, journal: &[Tx])
        ensures { Puts K.held K.faults sink.old self.old sink.new self.new
            (joined (journal_lines journal.now)) }
    {
        self.text(sink, b"journal ");
        self.number(sink, journal.len() as u64);
        self.text(sink, b"\n");
        self.entries(sink, journal);
    }
}
