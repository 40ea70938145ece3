/// Why a client's bytes are refused. `at` is the offset of the message's first byte, counted from 0. The faults are tested in this
/// order.
#[derive(Clone, Copy)]
pub enum WireFault {
    /// The message is neither a Query nor a Terminate.
    BadType { at: u64 },
    /// Its length is there, and is none that such a message may have.
    BadLength { at: u64 },
    /// The bytes end inside it.
    Truncated { at: u64 },
    /// A Query's body does not end with its only zero byte, or its text is not UTF-8.
    BadText { at: u64 },
    /// With this Query there are more than 4,294,967,294, or more whose command is NOTIFY or a call of pg_notify
    /// than the client may ask.
    TooMany { at: u64 },
}
