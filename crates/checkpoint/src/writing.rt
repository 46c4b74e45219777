// Writes a saved world, part by part.
ghost use Rattle.std.specs.Prelude.{◌≡◌, ◌*◌, ◌<◌, ◌++◌, None, OnErr, OnOk, slice_index_or};
ghost use Rattle.checkpoint.specs.Prelude.{taken, slot_text, ids_of};
ghost use Rattle.saved_lines.specs.SavedText as text;

use avida_port::Memory;
use saved_lines::{write_count, write_head, write_resident};
use std::alloc::Global;
use world_core::State;

/// Appends the first line of a saved world. When memory runs out `out` stays as it was.
pub fn head_text(state: &State, out: &mut Vec<u8>) -> Result<(), Memory>
    ensures ok { OnOk result (out.new.items ≡ out.old.items
        ++ text.saved_head_text state.now.head) }
    ensures err { OnErr result (out.new.items ≡ out.old.items) }
{
    write_head(&state.head(), out)
}

/// Appends the lines of the organism in a cell of the world, and nothing for an empty cell. When
/// memory runs out `out` stays as it was.
pub fn cell_text(state: &State, alloc: Global, cell: u32, out: &mut Vec<u8>) -> Result<(), Memory>
    requires { cell < state.now.head.width * state.now.head.height }
    ensures ok { OnOk result (out.new.items
        ≡ out.old.items ++ slot_text cell (slice_index_or state.now.cells cell None)) }
    ensures err { OnErr result (out.new.items ≡ out.old.items) }
{
    match state.resident(alloc, cell)? {
        Some(resident) => write_resident(&resident, out),
        None => Ok(()),
    }
}

/// Appends the last line of a saved world. When memory runs out `out` stays as it was.
pub fn tail_text(state: &State, out: &mut Vec<u8>) -> Result<(), Memory>
    ensures ok { OnOk result (out.new.items
        ≡ out.old.items ++ text.count_text (taken (ids_of state.now.cells))) }
    ensures err { OnErr result (out.new.items ≡ out.old.items) }
{
    write_count(state.living(), out)
}
