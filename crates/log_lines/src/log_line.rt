use crate::stats::Stats;
use genome::Genome;
use mutations::{Origin, RateName};

/// The version that a new log has.
pub const LAST_VERSION: u32 = 2;

/// One line of a log.
#[derive(Drop)]
pub enum LogLine {
    /// The first line, of version 1 or `LAST_VERSION`: the size of the world, and its founder.
    Start {
        version: u32,
        width: u32,
        height: u32,
        cell: u32,
        genome: Genome,
    },
    /// A death of age.
    Death {
        id: u64,
        update: u32,
        cell: u32,
    },
    /// A birth, with the organism that the newborn replaced, if any.
    Birth {
        id: u64,
        parent: u64,
        update: u32,
        cell: u32,
        over: Option<u64>,
        origin: Origin,
    },
    /// An injected organism, with the organism that it replaced, if any.
    Injected {
        id: u64,
        update: u32,
        cell: u32,
        over: Option<u64>,
        genome: Genome,
    },
    /// An organism cleared by an event.
    Cleared {
        id: u64,
        update: u32,
        cell: u32,
    },
    /// A rate, in parts per million.
    Rate {
        update: u32,
        name: RateName,
        ppm: u32,
    },
    /// The end of an update.
    Count(Stats),
    /// The last line.
    End {
        updates: u32,
    },
}
