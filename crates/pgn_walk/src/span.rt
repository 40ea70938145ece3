use pgn_base::Xid;

/// From where to where a read moves the mark.
#[derive(Clone, Copy)]
pub struct Span {
    pub from: Xid,
    pub to: Xid,
}
