ghost use Rattle.std.specs.Prelude.{◌≡◌};
ghost use Rattle.lineage_log.specs.declared.log_stop.LogStop.TheVariants as stop;

use avida_port::Memory;
use std::alloc::AllocFailed;

/// Why bytes are rejected as a log: the first faulty line, numbered from 1, or out of memory.
#[derive(Clone, Copy, Debug, PartialEq, Eq)]
pub enum LogStop {
    /// Out of memory: an allocation failed.
    Memory,
    /// The line has none of the forms, or has no newline.
    BadLine { line: u64 },
    /// The line does not fit what stands before it.
    BadOrder { line: u64 },
    /// The parent did not live when its update began.
    UnknownParent { line: u64 },
    /// The record of a birth can't be applied to its parent's genome.
    BadChange { line: u64 },
    /// All lines are good and none is the last line of a log; the line is the one that would
    /// follow.
    Unended { line: u64 },
}

impl From<Memory> for LogStop {
    ghost from_gives = { λ _ made. made ≡ stop.Memory };

    fn from(_memory: Memory) -> LogStop {
        LogStop::Memory
    }
}

impl<T: Drop> From<AllocFailed<T>> for LogStop {
    ghost from_gives = { λ _ made. made ≡ stop.Memory };

    fn from(_e: AllocFailed<T>) -> LogStop {
        LogStop::Memory
    }
}
