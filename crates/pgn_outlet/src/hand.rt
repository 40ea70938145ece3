use crate::Came;
use std::collections::LinkedList;

/// What a pass may do, and what it has done. No value of it is made.
pub struct Hand<T> {
    /// It may push for `count` sessions, from the one with the number `first` on.
    pub first: u64,
    pub count: u64,
    /// What it has pushed, in order.
    pub sent: LinkedList<Came<T>>,
    /// Whether it may take.
    pub takes: bool,
    /// What it has taken, in order.
    pub got: LinkedList<Came<T>>,
}
