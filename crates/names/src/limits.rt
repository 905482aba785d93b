//! The numbers that bound a farm.

/// How many nodes a farm has at most.
pub const NODES: u32 = 1024;

/// How many events a schedule has at most.
pub const EVENTS: usize = 65_536;

/// The greatest instance of a PRIVATE folder.
pub const INSTANCES: u32 = 4096;

/// The greatest ticket, life and ask.
pub const GREATEST: u64 = u64::MAX;
