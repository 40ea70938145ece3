use pgn_base::{Delivery, Full, Name, Note, Refusal, SessionNo, Tag, Warning, Xid};

/// What a line of an output shows, but for the lines that are known beforehand: the head of a section, and a line of its script.
/// Each number stands in its line in decimal, without leading zeros.
#[derive(Drop)]
pub enum Shown {
    /// `journal N`, with the number of entries.
    Journal {
        entries: u32,
    },
    /// `xid X session S commit K`, with the number of the transaction's notifications.
    Committed {
        xid: Xid,
        session: SessionNo,
        notes: u32,
    },
    /// `xid X session S abort Q of K`, with how many notifications were queued, and their number.
    Aborted {
        xid: Xid,
        session: SessionNo,
        queued: u32,
        notes: u32,
    },
    /// `  "c", 'p'`: a notification of the journal.
    Sent {
        note: Note,
    },
    /// `+enlist B P`.
    Enlist {
        base: Xid,
        point: Xid,
    },
    /// `+publish X`.
    Publish {
        xid: Xid,
    },
    /// `+full X queued Q head H floor M page F holder S`, or `none` for S.
    QueueFull {
        full: Full,
    },
    /// `+leave`.
    Leave,
    /// `WARNING: ` with its code and text.
    Warn {
        warning: Warning,
    },
    /// A command's tag.
    Tagged {
        tag: Tag,
    },
    /// `ERROR: ` with its code and text.
    Refuse {
        refusal: Refusal,
    },
    /// `  "c"`: the row of a channel.
    Channel {
        name: Name,
    },
    /// `+usage X floor M holder S`, or `none` for S.
    Measured {
        at: Xid,
        floor_mark: Xid,
        holder: Option<SessionNo>,
    },
    /// `  O/L`: the pages that are in use, of those that there may be.
    Pages {
        occupied: u64,
        limit: u32,
    },
    /// `+signal X`.
    Raise {
        value: Xid,
    },
    /// `+await X`.
    Found {
        value: Xid,
    },
    /// `+timeout N`.
    TimedOut {
        looks: u64,
    },
    /// `+read F T`.
    Read {
        from: Xid,
        to: Xid,
    },
    /// `  X P "c", 'p'`: a notification that was received.
    Received {
        delivery: Delivery,
    },
    /// `end`, or `end mark M`.
    End {
        mark: Option<Xid>,
    },
}
