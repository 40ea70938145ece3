/// Why bytes begin with no entry and no filler of a format: the first that holds, in this order, but that the zero bytes which end
/// the head in format Two are looked at before the body.
#[derive(Clone, Copy, PartialEq, Eq)]
pub enum EntryFault {
    /// There are fewer bytes than the shortest entry has, 20 or 32, or fewer than the length says.
    Short,
    /// The length is below that of the shortest entry, above 8,192, or no multiple of 4 or 8.
    BadLength,
    /// Of an entry: fewer than two zero bytes stand between the head and the length.
    NoNul,
    /// Of an entry: the channel is no name or the payload no payload. Of a filler, which has database 0: a byte after the head is
    /// not zero.
    BadText,
    /// In format Two: one of the four bytes that end the head is not zero, which is told before the two faults above. Of an entry:
    /// the length is not that of these two texts, or a byte after them and before the length is not zero.
    BadPad,
}
