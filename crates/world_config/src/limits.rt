/// The greatest number of updates.
pub const GREATEST_UPDATES: u32 = 1_000_000;

/// The greatest seed.
pub const GREATEST_SEED: u64 = 9_223_372_036_854_775_807;

/// The greatest average of the slices in an update.
pub const GREATEST_AVERAGE: u32 = 1000;

/// The greatest age limit, as a factor of a genome's length.
pub const GREATEST_AGE: u32 = 1000;

/// The greatest percentage.
pub const GREATEST_PERCENT: u32 = 100;

/// The most events that a configuration lists.
pub const MOST_EVENTS: u32 = 1000;
