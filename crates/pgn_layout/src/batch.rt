use crate::Pos;

/// What is written next of the notifications that are left: the entries of the first few, all on one page, and a filler where the
/// next one does not fit there. The head moves once it is written.
#[derive(Clone, Copy, PartialEq, Eq)]
pub struct Batch {
    /// How many notifications it writes.
    pub fits: usize,
    /// The bytes of the filler after their entries, or 0.
    pub filler: u32,
    /// The place after it, where the next batch begins.
    pub next: Pos,
}
