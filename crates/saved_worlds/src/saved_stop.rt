// Why bytes are no saved world.
ghost use Rattle.std.specs.Prelude.{◌≡◌};
ghost use Rattle.saved_worlds.specs.declared.saved_stop.SavedStop.TheVariants as stop;

use avida_port::Memory;

/// Why bytes are rejected as a saved world: the first faulty line, numbered from 1, or out of
/// memory.
#[derive(Clone, Copy, Debug, PartialEq, Eq)]
pub enum SavedStop {
    /// Out of memory: an allocation failed.
    Memory,
    /// The line has none of the forms, or has no newline.
    BadLine { line: u64 },
    /// The line does not fit what stands before it.
    BadState { line: u64 },
    /// All lines are good and none is the last line of a saved world; the line is the one that
    /// would follow.
    Unended { line: u64 },
}

impl From<Memory> for SavedStop {
    ghost from_gives = { λ _ made. made ≡ stop.Memory };

    fn from(_memory: Memory) -> SavedStop {
        SavedStop::Memory
    }
}
