// The numbers that bound every policy.

// Pages are the numbers below this one.
pub const PAGES: u32 = 4096;

// The most pages that a policy holds.
pub const MOST_PAGES: u16 = 1024;

// The most faults that a policy accepts.
pub const MOST_FAULTS: u32 = 16_000_000;
