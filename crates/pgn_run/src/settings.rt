use pgn_base::Format;

/// The settings of a run: the limit of the queue in pages, how many looks, made or slept over, an await takes, and the format of the
/// queue's entries.
#[derive(Clone, Copy)]
pub struct RunSettings {
    pub pages: u32,
    pub patience: u64,
    pub format: Format,
}
