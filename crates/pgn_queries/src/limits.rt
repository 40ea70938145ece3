/// The least length of a Query, in bytes: itself and the zero byte of an empty text.
pub const QUERY_LENGTH_MIN: u32 = 5;

/// The greatest length of a Query, in bytes: itself, a text of 65,536 bytes, and its zero byte.
pub const QUERY_LENGTH_MAX: u32 = 65_541;

/// The length of a Terminate, in bytes: it counts itself alone.
pub const TERMINATE_LENGTH: u32 = 4;

/// The most queries of a client. The line that ends its script has the next greater number, 4,294,967,295.
pub const QUERIES_MAX: u32 = 4_294_967_294;
