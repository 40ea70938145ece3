/// A format of the queue's entries. A run takes the one that its words name; the drill and a client of the wire have `One`.
#[derive(Clone, Copy)]
pub enum Format {
    /// A head of 16 bytes, with the transaction's number in four of them, and lengths that are multiples of 4.
    One,
    /// A head of 24 bytes, with the transaction's number in eight of them and four zero bytes at its end, and lengths that are
    /// multiples of 8.
    Two,
}
