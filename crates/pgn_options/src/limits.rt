/// The most looks of an await that may be asked for.
pub const PATIENCE_MAX: u64 = 1_000_000_000;

/// The most sessions of a drill.
pub const DRILL_SESSIONS_MAX: u32 = 32;

/// The most notifications of each session of a drill.
pub const DRILL_NOTES_MAX: u32 = 1_000;

/// The most seats of a service.
pub const SEATS_MAX: u32 = 256;

/// The seats of a service where nothing is said.
pub const SEATS_DEFAULT: u32 = 64;
