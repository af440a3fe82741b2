//! The limits of an instance and of its tree. A value that is equal to its limit is within it.

/// The greatest id of a sink.
pub const MAX_ID: u32 = 999_999_999;

/// The most sinks of an instance, 2^16.
pub const MAX_SINKS: usize = 65_536;

/// The most buffers of a library.
pub const MAX_BUFFERS: usize = 16;

/// The greatest coordinate in nm, 10^8.
pub const MAX_COORDINATE: i64 = 100_000_000;

/// The greatest input capacitance of a sink or a buffer in zF, 10^12.
pub const MAX_CAPACITANCE: u64 = 1_000_000_000_000;

/// The greatest length of one wire in nm, 2^31 - 1.
pub const MAX_LENGTH: u64 = 2_147_483_647;

/// The greatest load at one point in zF, 2^56.
pub const MAX_LOAD: u64 = 1 << 56;

/// The greatest doubled delay in 10^-27 s, 2^104.
pub const MAX_DELAY: u128 = 1 << 104;
