//! The limits that all layers share: each number has its home here.

/// The limit of offsets: bytes that are read end there at the latest.
pub const OFFSET_LIMIT: u64 = 1 << 63;

/// The limit of stored numbers and of sums: they are strictly between it and its negative.
pub const SUM_LIMIT: u64 = 1 << 62;

/// The same limit, as a signed number.
pub const STORED_LIMIT: i64 = 1 << 62;

/// The limit of payloads: each has fewer bytes.
pub const RAW_LIMIT: usize = 33_554_432;
