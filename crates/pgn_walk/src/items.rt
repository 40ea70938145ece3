ghost use Rattle.std.specs.Prelude.{◌≡◌, ◌↔◌, ◌≤◌, ℕ, max, true, false, Some, None, List, IfOk, OnOk, IfSome, IsSomeAnd};
ghost use Rattle.pgn_base.specs.declared.note.Note.{Note};
ghost use Rattle.pgn_journal.specs.Journal.{entry, next_xid};
ghost use Rattle.pgn_language.specs.declared.scenario.Section.{Section};
ghost use Rattle.pgn_base.specs.declared.format.Format.{Format};
ghost use Rattle.pgn_journal.specs.declared.tx.Tx.{Tx};
ghost use Rattle.pgn_model.specs.Walk.{Settings, Terms, IsAbortedBy, IsCommittedBy};
ghost use Rattle.pgn_walk.specs.Standing.{known_at};
ghost use Rattle.pgn_walk.specs.Steps.{Knows, Moves, Reaches, is_leaving, may_read};

use crate::same::{same_names, same_notes, same_refusal, same_reply};
use crate::span::Span;
use crate::standing::Standing;
use pgn_answers::BlockState;
use pgn_base::{Delivery, Full, Name, Note, Refusal, Seq, Tag, Usage, Warning, Xid};
use pgn_journal::{Fate, Tx};
use pgn_language::Section;
use pgn_ledger::{Ending, Ledger, ToShow, is_floor_for};
use pgn_model::Item;
use std::alloc::{AllocError, Global};

// An item is judged, and where it is allowed the session stands behind it.
impl Standing<'_> {
    /// A script line begins.
    #[tactic(auto, using(crate::proofs::ItemLaws::line_past))]
    pub fn line(&mut self, alloc: Global, section: &Section, line: u32) -> Result<bool, AllocError>
        ensures { IfOk result (λ allowed. (settings : Settings) (journal : List Tx) → Moves (record { section = section.now; settings = settings }) journal self.old (Item.Line line) allowed self.new) }
    {
        if !self.has_answered() {
            return Ok(false);
        }
        let Some(next) = section.lines.as_slice().get(self.next) else {
            return Ok(false);
        };
        if next.line != line {
            return Ok(false);
        }
        self.next += 1;
        self.begin(alloc, &next.act)?;
        Ok(true)
    }

    /// The session becomes a listener.
    pub fn enlist(&mut self, ledger: &Ledger, base: Xid, point: Xid) -> Result<bool, AllocError>
        ensures { IfOk result (λ allowed. (terms : Terms)
            → Moves terms ledger.now.journal.now self.old (Item.Enlist base point) allowed self.new) }
    {
        let ToShow::Enlisting { .. } = &self.owed else {
            return Ok(false);
        };
        if !self.may_enlist(ledger, base, point) {
            return Ok(false);
        }
        self.watch.begin(&self.set, point)?;
        self.mark = Some(point);
        self.told = point;
        self.greatest = point.get();
        self.go_on_committing()?;
        Ok(true)
    }

    // The point is not below the base, nor below what the session was told, nor below any earlier mark.
    fn may_enlist(&self, ledger: &Ledger, base: Xid, point: Xid) -> bool
        ensures value { (result ≡ true) ↔
            ((base ≤ point) × (self.now.told ≤ point) × (self.now.greatest ≤ point)
            × (point ≤ next_xid ledger.now.journal.now)) }
        ensures first { 3 ≤ base }
    {
        base.get() <= point.get()
            && self.told <= point
            && self.greatest <= point.get()
            && point.get() <= ledger.next_xid()
    }

    /// A transaction committed.
    pub fn publish(
        &mut self,
        section: &Section,
        ledger: &Ledger,
        xid: Xid,
    ) -> Result<bool, AllocError>
        ensures { IfOk result (λ allowed. (settings : Settings) (notes : List Note) → Moves (record { section = section.now; settings = settings }) ledger.now.journal.now self.old (Item.Publish xid notes) allowed self.new) }
    {
        let ToShow::Queueing { notes, .. } = &self.owed else {
            return Ok(false);
        };
        if !self.is_behind(xid) {
            return Ok(false);
        }
        if !is_committed_by(section, ledger, notes.as_slice(), xid) {
            return Ok(false);
        }
        self.told = Xid::new(xid.get() + 1);
        self.go_on_committing()?;
        Ok(true)
    }

    // A number is not below what the session was told, nor below its mark.
    fn is_behind(&self, xid: Xid) -> bool
        ensures { (result ≡ true) ↔
            ((self.now.told ≤ xid) × IfSome self.now.mark (λ mark. mark ≤ xid)) }
    {
        self.told <= xid && is_past(&self.mark, xid)
    }

    /// A transaction met a full queue.
    pub fn meet_full(&mut self, section: &Section, ledger: &Ledger, full: &Full) -> bool
        ensures { (settings : Settings) (notes : List Note) → Moves (record { section = section.now; settings = settings }) ledger.now.journal.now self.old (Item.QueueFull full.now notes) result self.new }
    {
        let ToShow::Queueing { notes, .. } = &self.owed else {
            return false;
        };
        if !self.is_behind(full.xid) {
            return false;
        }
        if !is_aborted_by(section, ledger, notes.as_slice(), full) {
            return false;
        }
        if !is_floor_for(&section.no, &self.mark, &full.floor_mark, &full.holder) {
            return false;
        }
        self.told = Xid::new(full.xid.get() + 1);
        self.leave_or_answer(Ending::Refused {
            refusal: Refusal::QueueFull,
        });
        true
    }

    /// The session stopped being a listener.
    pub fn leave(&mut self) -> bool
        ensures { (terms : Terms) (journal : List Tx)
            → Moves terms journal self.old Item.Leave result self.new }
    {
        let due = self.is_leaving();
        self.mark = None;
        self.go_on();
        due
    }

    // This is what comes next.
    fn is_leaving(&self) -> bool
        ensures { result ≡ is_leaving self.now.owed }
    {
        match &self.owed {
            ToShow::Leaving { .. } | ToShow::Quitting => true,
            _ => false,
        }
    }

    /// A tag.
    pub fn reply(&mut self, tag: &Tag, warning: &Option<Warning>) -> bool
        ensures { (terms : Terms) (journal : List Tx)
            → Moves terms journal self.old (Item.Reply tag.now warning.now) result self.new }
    {
        let ToShow::Answering { ending } = &self.owed else {
            return false;
        };
        let due = is_reply(ending, tag, warning);
        self.owed.set(ToShow::Nothing);
        due
    }

    /// A refusal.
    pub fn refuse(&mut self, refusal: &Refusal) -> bool
        ensures { (terms : Terms) (journal : List Tx)
            → Moves terms journal self.old (Item.Refuse refusal.now) result self.new }
    {
        let ToShow::Answering { ending } = &self.owed else {
            return false;
        };
        let due = is_refusal(ending, refusal);
        self.owed.set(ToShow::Nothing);
        due
    }

    /// Rows of channels.
    pub fn rows(&mut self, names: &[Name]) -> bool
        ensures { (terms : Terms) (journal : List Tx)
            → Moves terms journal self.old (Item.Channels names.now) result self.new }
    {
        let ToShow::Listing { names: due, .. } = &self.owed else {
            return false;
        };
        let same = same_names(names, due.as_slice());
        self.go_on();
        same
    }

    /// The row of the queue's usage.
    pub fn measure(&mut self, section: &Section, limit: u32, ledger: &Ledger, usage: &Usage) -> bool
        ensures { (patience : ℕ) → Moves (record { section = section.now; settings = record { format = ledger.now.format; limit = limit; patience = patience } }) ledger.now.journal.now self.old (Item.Used usage.now) result self.new }
    {
        let ToShow::Measuring { .. } = &self.owed else {
            return false;
        };
        if !self.is_behind(usage.at) {
            return false;
        }
        if !ledger.shows_usage(limit, usage) {
            return false;
        }
        if !is_floor_for(&section.no, &self.mark, &usage.floor_mark, &usage.holder) {
            return false;
        }
        self.go_on();
        true
    }

    /// A flag was raised.
    #[tactic(auto, using(crate::proofs::FlagLaws::raise_other))]
    pub fn raise(&mut self, value: Xid) -> Result<bool, AllocError>
        ensures { IfOk result (λ allowed. (terms : Terms) (journal : List Tx)
            → Moves terms journal self.old (Item.Raise value) allowed self.new) }
    {
        let ToShow::Raising { flag } = self.owed else {
            return Ok(false);
        };
        if value != self.told {
            return Ok(false);
        }
        self.know(flag, value)?;
        self.owed.set(ToShow::Nothing);
        Ok(true)
    }

    /// A flag was found.
    pub fn find(&mut self, value: Xid) -> Result<bool, AllocError>
        ensures { IfOk result (λ allowed. (terms : Terms) (journal : List Tx)
            → Moves terms journal self.old (Item.Found value) allowed self.new) }
    {
        let ToShow::Awaiting { flag } = self.owed else {
            return Ok(false);
        };
        if !self.is_greatest(flag, value) {
            return Ok(false);
        }
        self.know(flag, value)?;
        self.hear(value);
        Ok(true)
    }

    // The session was told of a number, and has nothing left to show.
    fn hear(&mut self, value: Xid)
        ensures { self.new ≡
            record self.old { told = max self.old.told value; owed = ToShow.Nothing } }
    {
        if self.told < value {
            self.told = value;
        }
        self.owed.set(ToShow::Nothing);
    }

    // No greater number is known of the flag.
    fn is_greatest(&self, flag: u32, value: Xid) -> bool
        ensures { (result ≡ true) ↔
            IfSome (known_at self.now.known.entries flag) (λ most. most ≤ value) }
    {
        match self.known.get(&flag) {
            None => true,
            Some(most) => *most <= value.get(),
        }
    }

    // The flag was raised or found.
    fn is_known(&self, flag: u32) -> bool
        ensures { (result ≡ false) ↔ (known_at self.now.known.entries flag ≡ None) }
    {
        match self.known.get(&flag) {
            None => false,
            Some(_) => true,
        }
    }

    // The flag is known with this number, or a greater one.
    #[tactic(auto, using(crate::proofs::FlagLaws::knows_put, crate::proofs::FlagLaws::knows_kept))]
    fn know(&mut self, flag: u32, value: Xid) -> Result<(), AllocError>
        ensures { OnOk result (Knows self.old flag value self.new) }
    {
        if self.is_greatest(flag, value) {
            self.known.insert(flag, value.get())?;
        }
        Ok(())
    }

    /// A flag was not found.
    pub fn time_out(&mut self, patience: u64, looks: u64) -> bool
        ensures { (section : Section) (format : Format) (limit : ℕ) (journal : List Tx) → Moves (record { section = section; settings = record { format = format; limit = limit; patience = patience } }) journal self.old (Item.TimedOut looks) result self.new }
    {
        let ToShow::Awaiting { flag } = self.owed else {
            return false;
        };
        if looks != patience {
            return false;
        }
        if self.is_known(flag) {
            return false;
        }
        self.owed.set(ToShow::Nothing);
        true
    }

    /// A read.
    pub fn read(
        &mut self,
        section: &Section,
        ledger: &Ledger,
        span: &Span,
        got: &Seq<Delivery>,
    ) -> Result<bool, AllocError>
        ensures { IfOk result (λ allowed. (settings : Settings)
            → Moves (record { section = section.now; settings = settings }) ledger.now.journal.now self.old
            (Item.Read span.now.from span.now.to got.now) allowed self.new) }
    {
        if !self.may_read(section) {
            return Ok(false);
        }
        if !self.reaches(ledger, span) {
            return Ok(false);
        }
        if !self.watch.takes(span.to, got.as_slice())? {
            return Ok(false);
        }
        self.come_to(span.to);
        Ok(true)
    }

    // No block is open, between lines and while a flag is awaited; at the script's end an open block is dropped.
    fn may_read(&self, section: &Section) -> bool
        ensures { result ≡ may_read self.now section.now }
    {
        match self.owed {
            ToShow::Nothing => { self.is_idle() || self.next >= section.lines.as_slice().len() }
            ToShow::Awaiting { .. } => self.is_idle(),
            _ => false,
        }
    }

    /// No block is open.
    pub fn is_idle(&self) -> bool
        ensures { (result ≡ true) ↔ (self.now.block.state ≡ BlockState.Idle) }
    {
        matches!(self.block.state(), BlockState::Idle)
    }

    // A read goes from the mark on, and to no earlier than what the session was told.
    fn reaches(&self, ledger: &Ledger, span: &Span) -> bool
        ensures value { (result ≡ true) ↔
            Reaches self.now ledger.now.journal.now span.now.from span.now.to }
        ensures first { result ≡ true → 3 ≤ span.now.from }
    {
        match &self.mark {
            None => false,
            Some(mark) => {
                mark.get() == span.from.get()
                    && span.from < span.to
                    && self.told <= span.to
                    && span.to.get() <= ledger.next_xid()
            }
        }
    }

    // The mark is here, and everything before it is known to be finished.
    fn come_to(&mut self, to: Xid)
        ensures { self.new ≡
            record self.old { mark = Some to; told = to; greatest = max self.old.greatest to } }
    {
        self.mark = Some(to);
        self.told = to;
        self.greatest = self.greatest.max(to.get());
    }
}

// A line is answered by this tag, with this warning or none.
#[tactic(auto, using(crate::proofs::AnswerLaws::reply_other))]
fn is_reply(ending: &Ending, tag: &Tag, warning: &Option<Warning>) -> bool
    ensures { (result ≡ true) ↔ (ending.now ≡ Ending.Replied tag.now warning.now) }
{
    match ending {
        Ending::Replied {
            tag: due,
            warning: before,
        } => same_reply(tag, warning, due, before),
        Ending::Refused { .. } => false,
    }
}

// A line is answered by this refusal.
#[tactic(auto, using(crate::proofs::AnswerLaws::refuse_other))]
fn is_refusal(ending: &Ending, refusal: &Refusal) -> bool
    ensures { (result ≡ true) ↔ (ending.now ≡ Ending.Refused refusal.now) }
{
    match ending {
        Ending::Replied { .. } => false,
        Ending::Refused { refusal: due } => same_refusal(refusal, due),
    }
}

// A mark is not above a number.
fn is_past(mark: &Option<Xid>, xid: Xid) -> bool
    ensures { (result ≡ true) ↔ IfSome mark.now (λ own. own ≤ xid) }
{
    match mark {
        None => true,
        Some(own) => own.get() <= xid.get(),
    }
}

// The transaction is this session's, of its database, with these notifications, and committed.
fn is_committed_by(section: &Section, ledger: &Ledger, notes: &[Note], xid: Xid) -> bool
    ensures { (result ≡ true) ↔ IsSomeAnd (entry ledger.now.journal.now xid)
        (IsCommittedBy section.now notes.now) }
{
    let Some(tx) = ledger.entry(xid) else {
        return false;
    };
    match tx.fate {
        Fate::Committed => is_of(section, notes, tx),
        Fate::Aborted => false,
    }
}

// The transaction is this session's, of its database, with these notifications, and aborted with so many of them queued.
fn is_aborted_by(section: &Section, ledger: &Ledger, notes: &[Note], full: &Full) -> bool
    ensures { (result ≡ true) ↔ IsSomeAnd (entry ledger.now.journal.now full.now.xid)
        (IsAbortedBy section.now notes.now full.now.queued) }
{
    let Some(tx) = ledger.entry(full.xid) else {
        return false;
    };
    match tx.fate {
        Fate::Committed => false,
        Fate::Aborted => tx.queued == full.queued && is_of(section, notes, tx),
    }
}

// It is this session's, of its database, with these notifications.
fn is_of(section: &Section, notes: &[Note], tx: &Tx) -> bool
    ensures { (result ≡ true) ↔
        ((tx.now.session ≡ section.now.no) × (tx.now.db ≡ section.now.db)
        × (tx.now.notes ≡ notes.now)) }
{
    tx.session == section.no && tx.db == section.db && same_notes(tx.notes.as_slice(), notes)
}
