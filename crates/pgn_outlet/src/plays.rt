//! The rule, and what each step on the queue tells.
ghost use Rattle.std.specs.Prelude.{◌≡◌};
ghost use Rattle.pgn_outlet.specs.Rule.{Comes, first_hand, lower, upper, sends_alone, takes_alone, joined, taken_over, spent, with_sent, with_got, HasAllBut};

use crate::{Came, Hand};
use crossbeam_queue::protocol::{Join, Lesson, Outcome, Protocol, Split};
use std::marker::{Brand, PhantomData};

// The rule that every step keeps.
pub struct InOrder;

impl<T> Protocol<Came<T>, Hand<T>> for InOrder {
    ghost holds = { Comes };

    ghost first = { first_hand };
}

// One pass pushes and the other takes.
pub(crate) struct Roles;

impl<T> Split<Hand<T>> for Roles {
    ghost left = { sends_alone };

    ghost right = { takes_alone };
}

impl<T> Join<Hand<T>> for Roles {
    ghost both = { taken_over };

    ghost spent = { spent };
}

// How many sessions a pass keeps that is cut. It is no operand of the step, so the caller gives it to the proof.
pub(crate) trait Size {
    ghost use Rattle.std.specs.Prelude.{ℕ};

    ghost size: { ℕ };
}

impl Size for Brand {
    ghost size = { 0 };
}

// One pass pushes for the first sessions, so many, and the other for the rest.
pub(crate) struct Cut<N> {
    size: PhantomData<N>,
}

impl<T, N: Size> Split<Hand<T>> for Cut<N> {
    ghost left = { lower N.size };

    ghost right = { upper N.size };
}

// One pass pushes for the sessions of two.
pub(crate) struct Both;

impl<T> Join<Hand<T>> for Both {
    ghost both = { joined };

    ghost spent = { spent };
}

// The pass has pushed this.
pub(crate) struct Sent;

impl<T> Outcome<Came<T>, Hand<T>> for Sent {
    ghost then = { λ v came w. w ≡ with_sent v came };
}

// The pass has taken this.
pub(crate) struct Got;

impl<T> Outcome<Came<T>, Hand<T>> for Got {
    ghost then = { λ v came w. w ≡ with_got v came };
}

impl<T> Lesson<Came<T>, Hand<T>> for Got {
    ghost fact = { HasAllBut };
}
