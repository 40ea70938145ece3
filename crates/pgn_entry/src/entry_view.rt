/// What bytes begin with. The channel and the payload are parts of the bytes that were read.
#[derive(Clone, Copy)]
pub enum EntryView<'a> {
    /// A notification, in `len` bytes. `db` is its sender's database, from 1, `xid` the transaction and `pid` the process number
    /// of its sender: any numbers of 32 bits, and in format Two `xid` one of 64.
    Entry {
        len: u32,
        db: u32,
        xid: u64,
        pid: u32,
        channel: &'a [u8],
        payload: &'a [u8],
    },
    /// `len` bytes that say nothing, written by this transaction and process.
    Filler {
        len: u32,
        xid: u64,
        pid: u32,
    },
}
