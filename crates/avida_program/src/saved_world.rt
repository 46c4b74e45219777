// Writes a saved world.
ghost use Rattle.std.specs.Prelude.{◌<◌, ◌*◌, None, length, slice_index_or};
ghost use Rattle.avida_program.specs.Prelude.{saved_text, slot_text, WritesAll};
ghost use Rattle.lineage_log.specs.Reader.{taken};
ghost use Rattle.world_rules.specs.World.{ids_of};
ghost use Rattle.saved_lines.specs.SavedText as text;
ghost use Rattle.checkpoint.specs.Reading.{first_cells_text};

use crate::puts::put_text;
use avida_port::{Sink, SinkStop};
use checkpoint::laws::texts_are_written_by_cells;
use checkpoint::{cell_text, head_text, tail_text};
use std::alloc::Global;
use world_core::State;

fn write_head<O: Sink>(alloc: Global, state: &State, out: &mut O) -> Result<(), SinkStop>
    ensures { WritesAll (O.seen out.old) (O.seen out.new)
        (text.saved_head_text state.now.head) result }
{
    let mut line = Vec::new(alloc);
    head_text(state, &mut line)?;
    put_text(&line, out)
}

/// Puts the lines of a cell. They take the place of what is in `lines`.
fn write_cell<O: Sink>(
    alloc: Global,
    state: &State,
    cell: u32,
    lines: &mut Vec<u8>,
    out: &mut O,
) -> Result<(), SinkStop>
    requires { cell < state.now.head.width * state.now.head.height }
    ensures { WritesAll (O.seen out.old) (O.seen out.new)
        (slot_text cell (slice_index_or state.now.cells cell None)) result }
{
    lines.clear();
    cell_text(state, alloc, cell, lines)?;
    put_text(lines, out)
}

fn write_cells<O: Sink>(alloc: Global, state: &State, out: &mut O) -> Result<(), SinkStop>
    ensures { WritesAll (O.seen out.old) (O.seen out.new)
        (first_cells_text state.now.cells (length state.now.cells)) result }
{
    texts_are_written_by_cells();
    let mut lines = Vec::new(alloc);
    for cell in 0..state.cells() {
        write_cell(alloc, state, cell, &mut lines, out)?;
    }
    Ok(())
}

fn write_tail<O: Sink>(alloc: Global, state: &State, out: &mut O) -> Result<(), SinkStop>
    ensures { WritesAll (O.seen out.old) (O.seen out.new)
        (text.count_text (taken (ids_of state.now.cells))) result }
{
    let mut line = Vec::new(alloc);
    tail_text(state, &mut line)?;
    put_text(&line, out)
}

/// Writes a saved world, its first line, each cell and its last line one after another.
pub fn write_state<O: Sink>(alloc: Global, state: &State, out: &mut O) -> Result<(), SinkStop>
    ensures { WritesAll (O.seen out.old) (O.seen out.new) (saved_text state.now) result }
{
    texts_are_written_by_cells();
    write_head(alloc, state, out)?;
    write_cells(alloc, state, out)?;
    write_tail(alloc, state, out)
}
