use pgn_base::Xid;

/// From one transaction number to another, as a line shows them.
#[derive(Clone, Copy)]
pub(crate) struct Span {
    pub(crate) from: Xid,
    pub(crate) to: Xid,
}
