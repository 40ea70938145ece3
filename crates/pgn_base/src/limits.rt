/// The most bytes of a name: of a channel, a savepoint, a section or a flag.
pub const NAME_BYTES_MAX: usize = 63;

/// The most bytes of a payload.
pub const PAYLOAD_BYTES_MAX: usize = 7_999;

/// The most bytes of an input.
pub const INPUT_BYTES_MAX: usize = 16_777_216;

/// The most bytes of a line of an input, without its LF.
pub const LINE_BYTES_MAX: usize = 65_536;

/// The most sections of a scenario, and so the most sessions.
pub const SECTIONS_MAX: u32 = 256;

/// The most different flags of a scenario.
pub const FLAGS_MAX: usize = 256;

/// The most lines of a scenario whose command is NOTIFY or a call of pg_notify.
pub const NOTE_LINES_MAX: usize = 65_536;

/// The most notifications that all sessions of a queue send. With so many of the longest the places in the queue stay below 2^32.
pub const HUB_NOTES_MAX: u32 = 1_048_575;

/// The most times that `repeat` in a call of pg_notify repeats its text.
pub const REPEATS_MAX: u32 = 10_000;

/// The number of the first transaction of a run. Entry k of the journal, from 0, has this number and k.
pub const FIRST_XID: u32 = 3;

/// A session's process number is its own number and this one.
pub const PID_BASE: u32 = 1_000;

/// The least and the greatest limit of the queue, in pages.
pub const PAGES_MIN: u32 = 2;

pub const PAGES_MAX: u32 = 1_024;

/// The most flags of a queue: those that a scenario names, and one for the end of each session.
pub const HUB_FLAGS_MAX: u32 = 512;

/// How many pages the queue has at most, where the command line sets nothing.
pub const PAGES_DEFAULT: u32 = 256;

/// How many looks, made or slept over, an await takes before it times out, where the command line sets nothing. A microsecond of
/// sleep counts as one.
pub const PATIENCE_DEFAULT: u64 = 10_000_000;

/// The bytes of a page of the queue. The longest entry has as many.
pub const PAGE_BYTES: usize = 8_192;

/// A listener that is this many pages or more behind the head is woken whatever was sent, and the tail is advanced where the head
/// enters a page whose number is a multiple of it. It is the cleanup delay of `async.c`.
pub const CLEANUP_DELAY_PAGES: u64 = 4;

/// The bytes of a cell, the unit in which places in the queue are counted.
pub const CELL_BYTES: usize = 4;
