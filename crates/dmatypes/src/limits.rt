//! Limits of calls, and of what a manager keeps (own).

/// The ids of domains are 1 to this number.
pub const MOST_DOMAINS: u64 = 15;

/// The numbers of devices are below it: one bus, one row of contexts.
pub const DEVICES: u64 = 16;

/// A map's address is a multiple of 2^`order` pages, with an order of at most so much.
pub const MOST_ORDER: u64 = 9;

/// The most segments of a map.
pub const MOST_SEGMENTS: usize = 16;

/// The most retired records of a domain.
pub const MOST_RECORDS: u64 = 256;

/// The most tickets that are open, over all domains.
pub const MOST_TICKETS: u64 = 64;

/// The most bytes of a script's line, its newline left out.
pub const LONGEST_LINE: usize = 512;

/// The fewest table frames of a manager.
pub const LEAST_TABLE_FRAMES: u64 = 16;

/// The most table frames of a manager.
pub const MOST_TABLE_FRAMES: u64 = 4096;

/// The most calls in a history.
pub const MOST_CALLS: u64 = 1 << 20;

/// The most calls of one state, so that no count of its waits and steps passes 64 bits.
pub const CALLS_END: u64 = 1 << 56;

/// The most steps of the unit that a call makes.
pub const MOST_STEPS: u64 = 130;

/// The most shares by which a manager is called.
pub const MOST_SHARES: u64 = 64;

/// The most leaves that a unit remembers.
pub const MOST_CACHED_LEAVES: usize = 64;

/// The most tables that a unit remembers.
pub const MOST_CACHED_NON_LEAVES: usize = 32;

/// The most contexts that a unit remembers.
pub const MOST_CACHED_CONTEXTS: usize = 16;

/// The most absent pages that a unit remembers.
pub const MOST_CACHED_FAULTS: usize = 64;
