ghost use Rattle.std.specs.Prelude.{◌≡◌, ◌≢◌, ℕ, ◌+◌, ◌*◌, ◌<◌, ◌≤◌, true, length, map, replicate, All};
ghost use Rattle.pgn_lanes.specs.Behind.{mask_bit, plain_behind};
ghost use Rattle.pgn_journal.specs.Journal.{is_committed};
ghost use Rattle.pgn_words.specs.Passes.{IsPassOf, view_of, known_of};
ghost use Rattle.pgn_words.specs.Positions.{place_or};
ghost use Rattle.pgn_words.specs.Views.{AreDecided, seat_of};
ghost use Rattle.pgn_wordhub.specs.declared.wakes.TheConstants.{FEW, MASK_BITS};
ghost use Rattle.pgn_words.specs.Waking.{verdict_on, verdict_of, is_concerned, concerned_db, wake_set};
ghost use Rattle.pgn_words.specs.declared.view.Phase.TheVariants as phases;
ghost use Rattle.pgn_wordhub.specs.Passes.{hub_shape};
ghost use Rattle.pgn_wordhub.specs.Wakes.{decided_as, deemed_as, signalled_as, AreConcerned, IsSent, Names, NamesFrom, IsWaiting, IsAtHead};
ghost use Rattle.pgn_words.specs.declared.view.Verdict.TheVariants.{Unseen, Decided};

use crate::WordHub;
use pgn_base::SECTIONS_MAX;
use pgn_hub::PassView;
use pgn_journal::Fate;
use pgn_lanes::behind;
use pgn_layout::Pos;
use pgn_words::{PosWord, WordPass};

/// A place for each seat.
const SEATS: usize = SECTIONS_MAX as usize;

/// So many seats or fewer are decided on by small arrays.
const FEW: usize = 8;

/// The seats that one word of a mask has.
const MASK_BITS: usize = 64;

/// So many words of a mask have a bit for each seat.
const WORDS: usize = SEATS / MASK_BITS;

/// How a transaction has ended: the head behind it, the bits of the channels that it has sent on, and its fate.
#[derive(Clone, Copy)]
pub(crate) struct Ending {
    pub head: Pos,
    pub sent: u64,
    pub fate: Fate,
}

// The place of a position, and the head where it has none.
fn place_of(position: PosWord, head: Pos) -> u64
    ensures { result ≡ place_or head position }
{
    match position {
        PosWord::At { pos, .. } => pos.get(),
        _ => head.get(),
    }
}

impl WordHub {
    // The database of a seat.
    fn db_of(&self, seat: u32) -> u32
        requires { seat < length (hub_shape self.now).seats }
        ensures { result ≡ (seat_of (hub_shape self.now) (seat + 1)).db }
    {
        self.dbs.as_slice()[seat as usize]
    }

    // By which database the listener of a seat is tested after a commit of the database `db`: by its own, but by none where it is that
    // one and the listener listens to nothing that was sent. Of another database no interest is loaded: the test goes by pages alone
    // there.
    fn database_to_test(&self, pass: &mut WordPass, seat: u32, db: u32, sent: u64) -> u32
        requires own { IsPassOf self.now.queue pass.old }
        requires phase { (view_of pass.old).phase ≡ phases.Signalling }
        requires seat { seat < length (hub_shape self.now).seats }
        requires db { db ≡ (known_of pass.old).db }
        requires sent { IsSent (view_of pass.old) sent }
        requires committed { is_committed (view_of pass.old).pen.ending.fate ≡ true }
        requires may { is_concerned (view_of pass.old) seat ≡ true }
        ensures own { IsPassOf self.now.queue pass.new }
        ensures view { view_of pass.new
            ≡ deemed_as (view_of pass.new).concerned (view_of pass.old) }
        ensures others { (i : ℕ) → i ≢ seat
            → is_concerned (view_of pass.new) i ≡ is_concerned (view_of pass.old) i }
        ensures database { result ≡ concerned_db (view_of pass.new) seat }
    {
        let own = self.db_of(seat);
        if own != db {
            return own;
        }
        let interest = self.queue.load_interest(pass, seat);
        if interest & sent == 0 { 0 } else { own }
    }

    // The same of each seat in turn.
    fn load_interests(&self, pass: &mut WordPass, sent: u64, owns: &mut [u32])
        requires own { IsPassOf self.now.queue pass.old }
        requires waits { IsWaiting (hub_shape self.now) (view_of pass.old) }
        requires sent { IsSent (view_of pass.old) sent }
        requires committed { is_committed (view_of pass.old).pen.ending.fate ≡ true }
        requires long { length owns.old ≡ length (hub_shape self.now).seats }
        ensures own { IsPassOf self.now.queue pass.new }
        ensures view { view_of pass.new
            ≡ deemed_as (view_of pass.new).concerned (view_of pass.old) }
        ensures concerned { AreConcerned (view_of pass.new) owns.new }
        ensures same_length { length owns.new ≡ length owns.old }
    {
        let db = pass.db().get();
        for seat in 0..self.seats() {
            owns[seat as usize] = self.database_to_test(pass, seat, db, sent);
        }
    }

    // By which database the listener of each seat is tested. After a transaction that was aborted, for which the queue was full, each is
    // tested by the writer's, so that everybody who is behind is woken and frees what it holds.
    fn databases_to_test(&self, pass: &mut WordPass, sent: u64, fate: Fate, owns: &mut [u32])
        requires own { IsPassOf self.now.queue pass.old }
        requires waits { IsWaiting (hub_shape self.now) (view_of pass.old) }
        requires sent { IsSent (view_of pass.old) sent }
        requires fate { fate ≡ (view_of pass.old).pen.ending.fate }
        requires long { length owns.old ≡ length (hub_shape self.now).seats }
        ensures own { IsPassOf self.now.queue pass.new }
        ensures view { view_of pass.new
            ≡ deemed_as (view_of pass.new).concerned (view_of pass.old) }
        ensures concerned { AreConcerned (view_of pass.new) owns.new }
        ensures same_length { length owns.new ≡ length owns.old }
    {
        match fate {
            Fate::Committed => self.load_interests(pass, sent, owns),
            Fate::Aborted => owns.fill(pass.db().get()),
        }
    }

    // Looks at each seat: the place where its listener stands, and the head where nobody listens there.
    fn look_to_wake(&self, pass: &mut WordPass, head: Pos, owns: &[u32], places: &mut [u64])
        requires own { IsPassOf self.now.queue pass.old }
        requires phase { (view_of pass.old).phase ≡ phases.Signalling }
        requires unseen { (view_of pass.old).verdicts
            ≡ replicate (length (hub_shape self.now).seats) Unseen }
        requires concerned { AreConcerned (view_of pass.old) owns.now }
        requires each { length owns.now ≡ length (hub_shape self.now).seats }
        requires head { IsAtHead (hub_shape self.now) (view_of pass.old) head }
        requires long { length places.old ≡ length (hub_shape self.now).seats }
        ensures own { IsPassOf self.now.queue pass.new }
        ensures view { view_of pass.new
            ≡ decided_as (map verdict_of (plain_behind head (known_of pass.old).db places.new
            owns.now)) (view_of pass.old) }
        ensures not_past { All (λ place. place ≤ head) places.new }
        ensures same_length { length places.new ≡ length places.old }
        ensures long { length (view_of pass.new).verdicts ≡ length (hub_shape self.now).seats }
    {
        for seat in 0..self.seats() {
            let position = self.queue.wake_look(pass, seat);
            places[seat as usize] = place_of(position, head);
        }
    }

    // Sets the wake of a seat that needs it.
    fn set_wake_of(&self, pass: &mut WordPass, seat: u32, needs: bool)
        requires own { IsPassOf self.now.queue pass.old }
        requires phase { (view_of pass.old).phase ≡ phases.Signalling }
        requires seat { seat < length (hub_shape self.now).seats }
        requires verdict { verdict_on (view_of pass.old) seat ≡ verdict_of needs }
        requires long { length (view_of pass.old).verdicts ≡ length (hub_shape self.now).seats }
        ensures own { IsPassOf self.now.queue pass.new }
        ensures view { view_of pass.new ≡ wake_set seat (view_of pass.old) }
    {
        if needs {
            self.queue.set_wake(pass, seat);
            // Behind the wake, so that who arms its bell before this finds the one or hears the other.
            self.bells.ring(seat);
        }
    }

    // Whether a mask names a seat.
    fn names(mask: &[u64], seat: u32) -> bool
        requires { seat < 64 * length mask.now }
        ensures { result ≡ mask_bit mask.now seat }
    {
        (mask[seat as usize / MASK_BITS] >> (seat as usize % MASK_BITS)) & 1 == 1
    }

    // Sets the wakes of the seats that one word of a mask names. Most words name none.
    fn set_wakes_of(&self, pass: &mut WordPass, mask: &[u64], word: u32)
        requires own { IsPassOf self.now.queue pass.old }
        requires phase { (view_of pass.old).phase ≡ phases.Signalling }
        requires word { MASK_BITS * word < length (hub_shape self.now).seats }
        requires named { NamesFrom mask.now (view_of pass.old).verdicts (MASK_BITS * word) }
        requires long { length (view_of pass.old).verdicts ≡ length (hub_shape self.now).seats }
        requires room { length (hub_shape self.now).seats ≤ MASK_BITS * length mask.now }
        ensures own { IsPassOf self.now.queue pass.new }
        ensures view { view_of pass.new
            ≡ decided_as (view_of pass.new).verdicts (view_of pass.old) }
        ensures long { length (view_of pass.new).verdicts ≡ length (view_of pass.old).verdicts }
        ensures decided { (i : ℕ) → MASK_BITS * word ≤ i → i < MASK_BITS * (word + 1)
            → verdict_on (view_of pass.new) i ≡ Decided }
        ensures before { (i : ℕ) → i < MASK_BITS * word
            → verdict_on (view_of pass.new) i ≡ verdict_on (view_of pass.old) i }
        ensures behind { (i : ℕ) → MASK_BITS * (word + 1) ≤ i
            → verdict_on (view_of pass.new) i ≡ verdict_on (view_of pass.old) i }
    {
        if mask[word as usize] == 0 {
            return;
        }
        let from = word * MASK_BITS as u32;
        let to = self.seats().min(from + MASK_BITS as u32);
        for seat in from..to {
            self.set_wake_of(pass, seat, WordHub::names(mask, seat));
        }
    }

    // Sets the wakes of the seats that a mask names.
    fn set_wakes(&self, pass: &mut WordPass, mask: &[u64])
        requires own { IsPassOf self.now.queue pass.old }
        requires phase { (view_of pass.old).phase ≡ phases.Signalling }
        requires named { Names mask.now (view_of pass.old).verdicts }
        requires long { length (view_of pass.old).verdicts ≡ length (hub_shape self.now).seats }
        requires room { length (hub_shape self.now).seats ≤ MASK_BITS * length mask.now }
        ensures own { IsPassOf self.now.queue pass.new }
        ensures view { view_of pass.new
            ≡ decided_as (view_of pass.new).verdicts (view_of pass.old) }
        ensures decided { AreDecided (view_of pass.new).verdicts }
    {
        for word in 0..self.seats().div_ceil(MASK_BITS as u32) {
            self.set_wakes_of(pass, mask, word);
        }
    }

    // Decides about each seat: the mask names those whose listener needs a wake. Each is tested by a database of `owns` and at a place of
    // `places`, which it writes.
    fn decide(
        &self,
        pass: &mut WordPass,
        ending: &Ending,
        owns: &mut [u32],
        places: &mut [u64],
    ) -> [u64; WORDS]
        requires own { IsPassOf self.now.queue pass.old }
        requires waits { IsWaiting (hub_shape self.now) (view_of pass.old) }
        requires head { IsAtHead (hub_shape self.now) (view_of pass.old) ending.now.head }
        requires sent { IsSent (view_of pass.old) ending.now.sent }
        requires fate { ending.now.fate ≡ (view_of pass.old).pen.ending.fate }
        requires each { length owns.old ≡ length (hub_shape self.now).seats }
        requires long { length places.old ≡ length (hub_shape self.now).seats }
        ensures own { IsPassOf self.now.queue pass.new }
        ensures view { view_of pass.new
            ≡ signalled_as (view_of pass.new).verdicts (view_of pass.new).concerned
            (view_of pass.old) }
        ensures named { Names result (view_of pass.new).verdicts }
        ensures each { length (view_of pass.new).verdicts ≡ length (hub_shape self.now).seats }
    {
        self.databases_to_test(pass, ending.sent, ending.fate, owns);
        self.look_to_wake(pass, ending.head, owns, places);
        let db = pass.db().get();
        let mut mask = [0; WORDS];
        behind(places, owns, ending.head.get(), db, &mut mask);
        mask
    }

    // Decides about each seat and sets the wakes, by arrays of a place for each seat.
    fn wake_by(&self, pass: &mut WordPass, ending: &Ending, owns: &mut [u32], places: &mut [u64])
        requires own { IsPassOf self.now.queue pass.old }
        requires waits { IsWaiting (hub_shape self.now) (view_of pass.old) }
        requires head { IsAtHead (hub_shape self.now) (view_of pass.old) ending.now.head }
        requires sent { IsSent (view_of pass.old) ending.now.sent }
        requires fate { ending.now.fate ≡ (view_of pass.old).pen.ending.fate }
        requires each { length owns.old ≡ length (hub_shape self.now).seats }
        requires long { length places.old ≡ length (hub_shape self.now).seats }
        ensures own { IsPassOf self.now.queue pass.new }
        ensures view { view_of pass.new
            ≡ signalled_as (view_of pass.new).verdicts (view_of pass.new).concerned
            (view_of pass.old) }
        ensures decided { AreDecided (view_of pass.new).verdicts }
    {
        let mask = self.decide(pass, ending, owns, places);
        self.set_wakes(pass, &mask);
    }

    // The same of few seats, with small arrays: to clear large ones for each commit costs as much as a tenth of a short line.
    fn wake_few(&self, pass: &mut WordPass, ending: &Ending)
        requires own { IsPassOf self.now.queue pass.old }
        requires waits { IsWaiting (hub_shape self.now) (view_of pass.old) }
        requires head { IsAtHead (hub_shape self.now) (view_of pass.old) ending.now.head }
        requires sent { IsSent (view_of pass.old) ending.now.sent }
        requires fate { ending.now.fate ≡ (view_of pass.old).pen.ending.fate }
        requires few { length (hub_shape self.now).seats ≤ FEW }
        ensures own { IsPassOf self.now.queue pass.new }
        ensures view { view_of pass.new
            ≡ signalled_as (view_of pass.new).verdicts (view_of pass.new).concerned
            (view_of pass.old) }
        ensures decided { AreDecided (view_of pass.new).verdicts }
    {
        let mut owns = [0; FEW];
        let mut places = [0; FEW];
        let seats = self.dbs.len();
        self.wake_by(pass, ending, &mut owns[..seats], &mut places[..seats]);
    }

    // The same of as many seats as there may be.
    fn wake_many(&self, pass: &mut WordPass, ending: &Ending)
        requires own { IsPassOf self.now.queue pass.old }
        requires waits { IsWaiting (hub_shape self.now) (view_of pass.old) }
        requires head { IsAtHead (hub_shape self.now) (view_of pass.old) ending.now.head }
        requires sent { IsSent (view_of pass.old) ending.now.sent }
        requires fate { ending.now.fate ≡ (view_of pass.old).pen.ending.fate }
        ensures own { IsPassOf self.now.queue pass.new }
        ensures view { view_of pass.new
            ≡ signalled_as (view_of pass.new).verdicts (view_of pass.new).concerned
            (view_of pass.old) }
        ensures decided { AreDecided (view_of pass.new).verdicts }
    {
        let mut owns = [0; SEATS];
        let mut places = [0; SEATS];
        let seats = self.dbs.len();
        self.wake_by(pass, ending, &mut owns[..seats], &mut places[..seats]);
    }

    // Wakes the listeners that a transaction concerns which has ended so.
    pub(crate) fn wake(&self, pass: &mut WordPass, ending: &Ending)
        requires own { IsPassOf self.now.queue pass.old }
        requires waits { IsWaiting (hub_shape self.now) (view_of pass.old) }
        requires head { IsAtHead (hub_shape self.now) (view_of pass.old) ending.now.head }
        requires sent { IsSent (view_of pass.old) ending.now.sent }
        requires fate { ending.now.fate ≡ (view_of pass.old).pen.ending.fate }
        ensures own { IsPassOf self.now.queue pass.new }
        ensures view { view_of pass.new
            ≡ signalled_as (view_of pass.new).verdicts (view_of pass.new).concerned
            (view_of pass.old) }
        ensures decided { AreDecided (view_of pass.new).verdicts }
    {
        if self.dbs.len() <= FEW {
            self.wake_few(pass, ending);
        } else {
            self.wake_many(pass, ending);
        }
    }
}
