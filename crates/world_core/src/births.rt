// The newborns of an update are placed, one after another.
ghost use Rattle.std.specs.Prelude.{◌≡◌, ◌+◌, ◌*◌, ◌++◌, ◌<◌, ◌≤◌, ◌^◌, All, OnOk, IfOk, length, map};
ghost use Rattle.world_core.specs.Prelude.{genome_in, letters, lines_text, line_text, record_of, new_organism, values_of, birth_line, birth_lines, next_id, standing_at, ids_of, placings_of, with_newborn, after_births};
ghost use Rattle.log_lines.specs.Line as line;
ghost use Rattle.world_core.specs.Bounds.{IsDelivery, AreDeliveries};
ghost use Rattle.world_core.specs.Scenes.{HasNumber, genomes_ever, scene_in};
ghost use Rattle.world_core.specs.Endings.{deliveries_in, delivery_from};

use crate::cell_table::CellTable;
use crate::lived::{Lived, id_in};
use crate::scene::Scene;
use crate::settings::{placing_round_at, torus_of};
use avida_port::Memory;
use birth_board::{Occupants, Parents, Placing, Placings, place};
use cell_shards::{BoxedOrganism, Delivered};
use genome::Genome;
use log_lines::write_birth;
use logic_tasks::{Inputs, Tasks};
use mutations::Origin;
use organism::Organism;
use std::alloc::Global;
use std::sync::Arc;
use world_config::Config;

/// Places the newborns, with a line for each. After `Memory` drop the scene.
pub(crate) fn place_births(
    alloc: Global,
    config: &Config,
    scene: &mut Scene,
    lived: Lived,
    text: &mut Vec<u8>,
) -> Result<(), Memory>
    requires size { length scene.old.cells ≡ config.now.width * config.now.height }
    requires births { AreDeliveries (values_of config.now) (length scene.old.cells)
        (deliveries_in lived) }
    requires numbers { All (HasNumber scene.old.bank) lived.born.items }
    requires few { length scene.old.everyone ≤ 2 ^ 62 + 2 ^ 60 }
    ensures scene { OnOk result (scene_in scene.new ≡ after_births (values_of config.now)
        (scene_in scene.old) (deliveries_in lived)) }
    ensures text { OnOk result (text.new.items
        ≡ text.old.items ++ lines_text (birth_lines (values_of config.now)
        (scene_in scene.old) (deliveries_in lived))) }
    ensures grown { OnOk result ((length scene.new.cells ≡ length scene.old.cells)
        × (length scene.new.everyone ≡ length scene.old.everyone + length lived.born.items)
        × (scene.new.first ≡ scene.old.first) × (scene.new.bank ≡ scene.old.bank)
        × (genomes_ever scene.new.everyone
        ≡ genomes_ever scene.old.everyone ++ map genome_in lived.born.items)) }
{
    let placings = placings_of(alloc, config, scene, &lived)?;
    let Lived { born, ids, .. } = lived;
    for (newborn, placing) in born.into_iter().zip(placings.into_vec()) {
        let parent = id_in(&ids, newborn.cell);
        place_newborn(alloc, config, scene, parent, newborn, &placing, text)?;
    }
    Ok(())
}

/// Where the newborns are placed.
#[tactic(auto, unfolding(world_rules::specs::Update::placings_of))]
fn placings_of(
    alloc: Global,
    config: &Config,
    scene: &Scene,
    lived: &Lived,
) -> Result<Placings, Memory>
    requires size { length scene.now.cells ≡ config.now.width * config.now.height }
    requires births { AreDeliveries (values_of config.now) (length scene.now.cells)
        (deliveries_in lived.now) }
    requires few { length scene.now.everyone ≤ 2 ^ 62 + 2 ^ 60 }
    ensures placings { IfOk result (λ placings. placings
        ≡ placings_of (values_of config.now) (scene_in scene.now) (deliveries_in lived.now)) }
    ensures count { IfOk result (λ placings. length placings ≡ length lived.now.born.items) }
    ensures in_world { IfOk result (λ placings.
        All (λ placing. placing.cell < length scene.now.cells) placings) }
{
    let torus = torus_of(config);
    let parents = parents_of(alloc, &lived.born)?;
    let mut board = board_of(alloc, scene.cells.cells())?;
    let round = placing_round_at(config, scene.update, scene.next_id());
    place(alloc, &torus, &parents, &mut board, &round)
}

/// The cells of the newborns' parents.
fn parents_of(alloc: Global, newborns: &[Delivered]) -> Result<Parents, Memory>
    ensures { IfOk result (λ parents. parents ≡ map (λ d. d.cell) newborns.now) }
{
    let cells = newborns.iter().map(|newborn| newborn.cell).collect(alloc)?;
    Ok(Parents::from_vec(cells))
}

/// The id of who stands in each cell.
fn board_of(alloc: Global, cells: &CellTable) -> Result<Occupants, Memory>
    ensures { IfOk result (λ board. board ≡ ids_of cells.now) }
{
    let ids = cells.all_ids(alloc)?;
    Ok(Occupants::from_vec(ids))
}

/// A newborn stands in the cell of its placing, with the next id, and has its line.
#[tactic(auto, using(crate::proofs::BoundedCells::set_over), unfolding(world_rules::specs::Update::with_newborn, world_rules::specs::World::with_death, world_rules::specs::World::with_newcomer, organism::specs::OrganismState::new_organism))]
fn place_newborn(
    alloc: Global,
    config: &Config,
    scene: &mut Scene,
    parent: u64,
    newborn: Delivered,
    placing: &Placing,
    text: &mut Vec<u8>,
) -> Result<(), Memory>
    requires cell { placing.now.cell < length scene.old.cells }
    requires birth { IsDelivery (values_of config.now) (length scene.old.cells)
        (delivery_from parent newborn) }
    requires number { HasNumber scene.old.bank newborn }
    ensures scene { OnOk result (scene_in scene.new ≡ with_newborn (values_of config.now)
        (scene_in scene.old) (delivery_from parent newborn, placing.now)) }
    ensures text { OnOk result (text.new.items ≡ text.old.items
        ++ line_text (birth_line (scene_in scene.old) (delivery_from parent newborn, placing.now))) }
    ensures grown { OnOk result ((length scene.new.cells ≡ length scene.old.cells)
        × (length scene.new.everyone ≡ length scene.old.everyone + 1)
        × (scene.new.first ≡ scene.old.first) × (scene.new.bank ≡ scene.old.bank)) }
{
    let id = scene.next_id();
    let Delivered {
        handle,
        tree_genome,
        origin,
        merit,
        credited,
        ..
    } = newborn;
    let cell = placing.cell;
    tell_birth(scene, parent, cell, &origin, text)?;
    scene.add_newcomer(Some(parent), cell, Some(origin), tree_genome)?;
    let organism = organism_over(
        alloc,
        scene.kill(cell)?,
        handle.genome,
        placing.inputs,
        merit,
        credited,
        config.memory_limit,
    )?;
    scene.put(id, cell, handle.number, organism)
}

/// An organism at its beginning, in the memory of who stood in its cell, where somebody did.
fn organism_over(
    alloc: Global,
    over: Option<BoxedOrganism>,
    genome: Arc<Genome, Global>,
    inputs: Inputs,
    merit: u64,
    credited: Tasks,
    memory_limit: u32,
) -> Result<BoxedOrganism, Memory>
    requires genome_within { length (letters genome.value) ≤ memory_limit }
    requires greatest { memory_limit ≤ 8192 }
    ensures { IfOk result (λ organism. organism
        ≡ new_organism (letters genome.value) inputs merit credited memory_limit) }
{
    match over {
        Some(mut organism) => {
            organism.replace(genome, inputs, merit, credited, memory_limit);
            Ok(organism)
        }
        None => {
            let organism = Organism::found(alloc, genome, inputs, merit, credited, memory_limit)?;
            BoxedOrganism::new(alloc, organism)
        }
    }
}

/// The line of a birth.
fn tell_birth(
    scene: &Scene,
    parent: u64,
    cell: u32,
    origin: &Origin,
    text: &mut Vec<u8>,
) -> Result<(), Memory>
    requires { cell < length scene.now.cells }
    ensures { OnOk result (text.new.items ≡ text.old.items ++ line_text (line.Birth
        (next_id (scene_in scene.now)) parent scene.now.update cell
        (standing_at (scene_in scene.now) cell) (record_of origin.now))) }
{
    let over = scene.standing_at(cell);
    write_birth(
        scene.next_id(),
        parent,
        scene.update,
        cell,
        over,
        origin,
        text,
    )
}
