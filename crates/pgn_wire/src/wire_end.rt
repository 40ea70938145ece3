use pgn_queries::WireFault;

/// Why a client was served no longer, though it had not ended.
#[derive(Clone, Copy)]
pub enum WireEnd {
    /// Its bytes are at fault.
    Bad(WireFault),
    /// The source failed.
    Read,
    /// The sink failed.
    Write,
    Memory,
}
