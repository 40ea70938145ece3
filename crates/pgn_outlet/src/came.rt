use pgn_base::SessionNo;

/// What one push carries, and for which session.
#[derive(Drop)]
pub struct Came<T> {
    pub session: SessionNo,
    pub what: T,
}
