// The events of an update.
ghost use Rattle.std.specs.Prelude.{◌≡◌, ◌+◌, ◌*◌, ◌++◌, ◌<◌, ◌≤◌, [], ◌∷◌, Some, OnOk, length};
ghost use Rattle.world_core.specs.Prelude.{option_to_list, letters, lines_text, Rate, what_value, inject, clear, values_of, event_lines, what_lines, cleared_line, cells_from, with_deaths, after_events, after_what};
ghost use Rattle.world_core.specs.Endings.{CanHappen};
ghost use Rattle.world_core.specs.Scenes.{Grows, scene_in};

use crate::founding::found_in;
use crate::scene::Scene;
use avida_port::Memory;
use genome::Genome;
use genotype_bank::laws::genotypes_are_what_was_interned;
use log_lines::{LogLine, write_injection, write_line};
use mutations::RateName;
use random_streams::CELLS;
use std::alloc::Global;
use std::sync::Wait;
use world_config::{Config, MOST_EVENTS, What};

/// The events of the scene's update in order, with their lines. After `Memory` drop the scene.
pub(crate) fn apply_events<R: Wait>(
    rt: &R,
    alloc: Global,
    config: &Config,
    scene: &mut Scene,
    text: &mut Vec<u8>,
) -> Result<(), Memory>
    requires size { length scene.old.cells ≡ config.now.width * config.now.height }
    ensures scene { OnOk result
        (scene_in scene.new ≡ after_events (values_of config.now) (scene_in scene.old)) }
    ensures text { OnOk result (text.new.items
        ≡ text.old.items ++ lines_text (event_lines (values_of config.now) (scene_in scene.old))) }
    ensures size { OnOk result (length scene.new.cells ≡ length scene.old.cells) }
    ensures everyone { OnOk result
        (length scene.new.everyone ≤ length scene.old.everyone + MOST_EVENTS) }
    ensures first { OnOk result (scene.new.first ≡ scene.old.first) }
    ensures bank { OnOk result
        (Grows scene.old.bank scene.new.bank scene.old.everyone scene.new.everyone) }
{
    let update = scene.update;
    for (at, event) in config.event.as_slice().iter().enumerate() {
        if event.update == update {
            apply_event(rt, alloc, config, scene, at as u32 + 1, &event.what, text)?;
        }
    }
    Ok(())
}

/// What an event does, given its place in the list from 1, with its lines.
fn apply_event<R: Wait>(
    rt: &R,
    alloc: Global,
    config: &Config,
    scene: &mut Scene,
    nth: u32,
    what: &What,
    text: &mut Vec<u8>,
) -> Result<(), Memory>
    requires cells { length scene.old.cells ≤ CELLS }
    requires nth { nth ≤ MOST_EVENTS }
    requires fits { CanHappen (length scene.old.cells) config.now.greatest_length
        (what_value what.now) }
    ensures scene { OnOk result (scene_in scene.new
        ≡ after_what (values_of config.now) (scene_in scene.old) nth (what_value what.now)) }
    ensures text { OnOk result (text.new.items
        ≡ text.old.items ++ lines_text (what_lines (scene_in scene.old) (what_value what.now))) }
    ensures grown { OnOk result ((length scene.new.cells ≡ length scene.old.cells)
        × (length scene.new.everyone ≤ length scene.old.everyone + 1)
        × (scene.new.first ≡ scene.old.first)
        × Grows scene.old.bank scene.new.bank scene.old.everyone scene.new.everyone) }
{
    match what {
        What::Inject { cell, genome } => inject(rt, alloc, config, scene, nth, *cell, genome, text),
        What::Clear { first, last } => clear(scene, *first, *last, text),
        What::Rate { name, ppm } => tell_rate(scene, *name, *ppm, text),
    }
}

/// An organism of this genome stands in the cell, and who stood there dies.
fn inject<R: Wait>(
    rt: &R,
    alloc: Global,
    config: &Config,
    scene: &mut Scene,
    nth: u32,
    cell: u32,
    genome: &Genome,
    text: &mut Vec<u8>,
) -> Result<(), Memory>
    requires cells { length scene.old.cells ≤ CELLS }
    requires cell { cell < length scene.old.cells }
    requires nth { nth ≤ MOST_EVENTS }
    requires genome { length (letters genome.now) ≤ config.now.greatest_length }
    ensures scene { OnOk result (scene_in scene.new ≡ after_what (values_of config.now)
        (scene_in scene.old) nth (inject cell (letters genome.now))) }
    ensures text { OnOk result (text.new.items
        ≡ text.old.items ++ lines_text
        (what_lines (scene_in scene.old) (inject cell (letters genome.now)))) }
    ensures grown { OnOk result ((length scene.new.cells ≡ length scene.old.cells)
        × (length scene.new.everyone ≡ length scene.old.everyone + 1)
        × (scene.new.first ≡ scene.old.first)
        × Grows scene.old.bank scene.new.bank scene.old.everyone scene.new.everyone) }
{
    genotypes_are_what_was_interned();
    tell_injection(scene, cell, genome, text)?;
    found_in(rt, alloc, config, scene, nth, cell, genome)?;
    Ok(())
}

/// The line of an injection.
fn tell_injection(
    scene: &Scene,
    cell: u32,
    genome: &Genome,
    text: &mut Vec<u8>,
) -> Result<(), Memory>
    requires { cell < length scene.now.cells }
    ensures { OnOk result (text.new.items
        ≡ text.old.items ++ lines_text
        (what_lines (scene_in scene.now) (inject cell (letters genome.now)))) }
{
    let over = scene.standing_at(cell);
    write_injection(scene.next_id(), scene.update, cell, over, genome, text)
}

/// Who stands in these cells dies, with a line for each.
fn clear(scene: &mut Scene, first: u32, last: u32, text: &mut Vec<u8>) -> Result<(), Memory>
    requires cells { length scene.old.cells ≤ CELLS }
    requires last { last < length scene.old.cells }
    ensures scene { OnOk result (scene_in scene.new
        ≡ with_deaths (scene_in scene.old) (cells_from first last)) }
    ensures text { OnOk result (text.new.items
        ≡ text.old.items ++ lines_text (what_lines (scene_in scene.old) (clear first last))) }
    ensures kept { OnOk result ((length scene.new.cells ≡ length scene.old.cells)
        × (scene.new.everyone ≡ scene.old.everyone) × (scene.new.first ≡ scene.old.first)
        × (scene.new.bank ≡ scene.old.bank)) }
{
    for cell in first..last + 1 {
        tell_clearing(scene, cell, text)?;
        scene.kill(cell)?;
    }
    Ok(())
}

/// The line of who is cleared, where somebody stands in the cell.
fn tell_clearing(scene: &Scene, cell: u32, text: &mut Vec<u8>) -> Result<(), Memory>
    requires { cell < length scene.now.cells }
    ensures { OnOk result (text.new.items
        ≡ text.old.items ++ lines_text (option_to_list (cleared_line (scene_in scene.now) cell))) }
{
    match scene.standing_at(cell) {
        Some(id) => {
            let update = scene.update;
            write_line(&LogLine::Cleared { id, update, cell }, text)
        }
        None => Ok(()),
    }
}

/// The line of a rate.
fn tell_rate(scene: &Scene, name: RateName, ppm: u32, text: &mut Vec<u8>) -> Result<(), Memory>
    ensures { OnOk result (text.new.items
        ≡ text.old.items ++ lines_text (Rate scene.now.update name ppm ∷ [])) }
{
    let update = scene.update;
    write_line(&LogLine::Rate { update, name, ppm }, text)
}
