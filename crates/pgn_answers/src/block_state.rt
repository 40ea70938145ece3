/// Where a session stands with its transaction block, as PostgreSQL's status byte `I`, `T` or `E`.
#[derive(Clone, Copy, PartialEq, Eq)]
pub enum BlockState {
    Idle,
    InBlock,
    Failed,
}
