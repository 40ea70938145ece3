ghost use Rattle.std.specs.Prelude.{◌≡◌, List, [], ◌∷◌, ◌++◌, length, Result, Ok, OnOk, All};
ghost use Rattle.std.specs.Result.{result_and};
ghost use Rattle.std.specs.declared.alloc.AllocError.{AllocError};
ghost use Rattle.pgn_workers.specs.Parts.{Part, part, AreOfHalves, HasTakenRounds, StandsFor};

use crate::{Pause, Turn};
use std::alloc::AllocError;

/// What workers are and come to that take turns again and again until all are over, and what a turn does, how workers wait that had nothing
/// to do, and how they end. A part of the workers has a hand, which they share: what they have in common while they take turns on one thread.
pub trait Work<W, A> {
    /// The part may begin.
    ghost begins: { Self → Part W A → Type 0 };

    /// It may take a round of turns.
    ghost goes: { Self → Part W A → Type 0 };

    /// It was the one, has taken turns, also where one was refused, and is the other.
    ghost took: { Self → Part W A → Part W A → Type 0 };

    /// A worker whose last turn was not refused; one that is over.
    ghost ready: { Self → W → Type 0 };

    ghost over: { Self → W → Type 0 };

    /// The part was the one when it began, is the other once it has run, and this is its answer.
    ghost ran: { Self → Part W A → Part W A → Result Unit AllocError → Type 0 };

    /// A part that may begin was cut in two that may, each with a hand of its own.
    ghost cut_in: { Self → Part W A → Part W A → Part W A → Type 0 };

    /// The hands of two parts were made one.
    ghost joined: { Self → A → A → A → Type 0 };

    /// A turn of one worker.
    fn turn(&self, worker: &mut W, hand: &mut A) -> Result<Turn, AllocError>
        requires { goes self.now (part (worker.old ∷ []) hand.old) }
        ensures took { took self.now (part (worker.old ∷ []) hand.old)
            (part (worker.new ∷ []) hand.new) }
        ensures ready { OnOk result (ready self.now worker.new) }
        ensures over { result ≡ Ok Turn.Ended → over self.now worker.new };

    /// A wait behind a round in which nothing was done. It answers how many such rounds came in a row.
    fn wait(&self, workers: &mut [W], hand: &mut A, pause: Pause) -> u32
        requires { goes self.now (part workers.old hand.old) }
        ensures took { took self.now (part workers.old hand.old) (part workers.new hand.new) }
        ensures ready { All (ready self.now) workers.new };

    /// The end of a part whose workers are all over, or one of which was refused memory.
    fn end(
        &self,
        workers: &mut [W],
        hand: &mut A,
        rounds: Result<(), AllocError>,
    ) -> Result<(), AllocError>
        requires { (old : Part W A)
            × HasTakenRounds (begins self.now) (took self.now) (over self.now) old
            (part workers.old hand.old) rounds }
        ensures { (old : Part W A)
            → HasTakenRounds (begins self.now) (took self.now) (over self.now) old
            (part workers.old hand.old) rounds
            → ran self.now old (part workers.new hand.new) result };

    /// Cuts the hand of workers that have not begun: it becomes that of the first of them, so many, and the answer is that of the others.
    fn cut(&self, hand: &mut A, size: usize) -> A
        requires { (xs : List W) × (ys : List W) × (length xs ≡ size)
            × begins self.now (part (xs ++ ys) hand.old) }
        ensures { (xs ys : List W) → length xs ≡ size → begins self.now (part (xs ++ ys) hand.old)
            → cut_in self.now (part (xs ++ ys) hand.old) (part xs hand.new) (part ys result) };

    /// Makes the hands of two halves one again, once both have run or neither has.
    fn join(&self, hand: &mut A, other: A)
        requires { AreOfHalves (cut_in self.now) (ran self.now) hand.old other }
        ensures { joined self.now hand.old other hand.new };

    /// It does nothing: its clauses are the laws of the work.
    ///
    /// - *goes_begun*: what may begin may take a round.
    /// - *took_none*, *took_more*, *goes_on*: no turn at all; turns after turns; a round after a round.
    /// - *goes_front*, *goes_behind*, *took_both*: a round of two parts that share a hand, of which the one goes first.
    /// - *begin_left*, *begin_right*, *ran_both*, *ran_neither*: two parts with a hand each that may begin; that have both run; and of
    ///   which neither has.
    fn laws(&self)
        ensures goes_begun { (p : Part W A) → begins self.now p → goes self.now p }
        ensures took_none { (p : Part W A) → goes self.now p → took self.now p p }
        ensures took_more { (p q r : Part W A) → took self.now p q → took self.now q r
            → took self.now p r }
        ensures goes_on { (p q : Part W A) → goes self.now p → took self.now p q
            → All (ready self.now) q.workers → goes self.now q }
        ensures goes_front { (xs ys : List W) (h : A) → goes self.now (part (xs ++ ys) h)
            → goes self.now (part xs h) }
        ensures goes_behind { (xs ys : List W) (h : A) (p : Part W A)
            → goes self.now (part (xs ++ ys) h) → took self.now (part xs h) p
            → goes self.now (part ys p.hand) }
        ensures took_both { (xs ys : List W) (h : A) (p q : Part W A)
            → goes self.now (part (xs ++ ys) h) → took self.now (part xs h) p
            → took self.now (part ys p.hand) q
            → took self.now (part (xs ++ ys) h) (part (p.workers ++ q.workers) q.hand) }
        ensures begin_left { (p l r : Part W A) → cut_in self.now p l r → begins self.now l }
        ensures begin_right { (p l r : Part W A) → cut_in self.now p l r → begins self.now r }
        ensures ran_both { (p l l_new r r_new : Part W A) (h : A) (a b : Result Unit AllocError)
            → cut_in self.now p l r → ran self.now l l_new a → ran self.now r r_new b
            → joined self.now l_new.hand r_new.hand h
            → ran self.now p (part (l_new.workers ++ r_new.workers) h) (result_and a b) }
        ensures ran_neither { (p l r : Part W A) (h : A) → cut_in self.now p l r
            → joined self.now l.hand r.hand h
            → StandsFor (begins self.now) (ran self.now) p (part (l.workers ++ r.workers) h) };
}
