// The ranges of the numbers in a line.
use crate::range::Range;
use genome::{GREATEST_LENGTH, LEAST_LENGTH};

/// The numbers from the least to the greatest.
macro_rules! from_to {
    ($least:expr, $greatest:expr) => {
        Range {
            least: $least,
            greatest: $greatest,
        }
    };
}

/// A number below 2^32.
const ANY_SMALL: Range = from_to!(0, 0xFFFF_FFFF);

/// A number below 2^64.
const ANY_LARGE: Range = from_to!(0, u64::MAX);

/// 0 or 1.
const ANY_FLAG: Range = from_to!(0, 1);

/// Parts per million.
const ANY_RATE: Range = from_to!(0, 1_000_000);

/// The number of a set of tasks.
const ANY_TASKS: Range = from_to!(0, 511);

/// The low 24 bits of an input.
const ANY_INPUT: Range = from_to!(0, 0xFF_FFFF);

/// The version of a saved world.
const VERSION: Range = from_to!(1, 1);

/// A side of the world.
const ANY_SIDE: Range = from_to!(1, 256);

/// An update.
const ANY_UPDATE: Range = from_to!(0, 1_000_000);

/// The id that the next organism gets.
const ANY_NEXT_ID: Range = from_to!(1, 1 << 62);

/// A seed.
const ANY_SEED: Range = from_to!(0, (1 << 63) - 1);

/// The average number of slices, or the age of death as a multiple of a length.
const ANY_THOUSAND: Range = from_to!(1, 1000);

/// A percentage above 0.
const ANY_PERCENT: Range = from_to!(1, 100);

/// The length of a genome.
const ANY_LENGTH: Range = from_to!(LEAST_LENGTH as u64, GREATEST_LENGTH as u64);

/// The version, and the values of a head in their order.
pub const HEAD_RANGES: [Range; 22] = [
    VERSION,
    ANY_SIDE,
    ANY_SIDE,
    ANY_UPDATE,
    ANY_NEXT_ID,
    ANY_SEED,
    ANY_THOUSAND,
    ANY_FLAG,
    ANY_THOUSAND,
    ANY_RATE,
    ANY_RATE,
    ANY_RATE,
    ANY_RATE,
    ANY_RATE,
    ANY_RATE,
    ANY_FLAG,
    ANY_FLAG,
    ANY_PERCENT,
    ANY_PERCENT,
    ANY_LENGTH,
    ANY_LENGTH,
    ANY_LENGTH,
];

/// Cell, id, merit, credited set, age, inputs read, gestation set, and three inputs.
pub const ORGANISM_RANGES: [Range; 10] = [
    ANY_SMALL, ANY_LARGE, ANY_LARGE, ANY_TASKS, ANY_LARGE, ANY_LARGE, ANY_TASKS, ANY_INPUT,
    ANY_INPUT, ANY_INPUT,
];

/// Active stack, IP, READ, WRITE, FLOW, and whether an allocation is pending.
pub const MACHINE_RANGES: [Range; 6] = [
    ANY_FLAG, ANY_SMALL, ANY_SMALL, ANY_SMALL, ANY_SMALL, ANY_FLAG,
];
