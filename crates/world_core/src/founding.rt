// Founders: the configuration's own, and those that events inject.
ghost use Rattle.std.specs.Prelude.{◌≡◌, ◌+◌, ◌++◌, ◌∷◌, ◌*◌, ◌^◌, ◌<◌, ◌≤◌, [], IfOk, OnOk, Some, length, slice_get};
ghost use Rattle.world_core.specs.Prelude.{letters, values_of, next_id, with_newcomer, founder_link, founder_of, founder_words, first_world, world_of, HasEachOnce, with_genome};
ghost use Rattle.logic_tasks.specs.Inputs.{inputs_of};
ghost use Rattle.random_streams.specs.RandomStream.{after};
ghost use Rattle.world_core.specs.Scenes.{genomes_ever, scene_in};

use crate::everyone::Everyone;
use crate::pairs::beside;
use crate::scene::Scene;
use avida_port::Memory;
use cell_shards::BoxedOrganism;
use genome::Genome;
use genotype_bank::Handle;
use genotype_bank::laws::genotypes_are_what_was_interned;
use logic_tasks::{Inputs, Tasks};
use organism::Organism;
use random_streams::{CELLS, Draws, Purpose};
use std::alloc::Global;
use std::sync::{Arc, Wait};
use world_config::{Config, MOST_EVENTS};

/// Founder number `nth` of a run, in this cell.
#[tactic(auto, unfolding(world_rules::specs::World::founder_of))]
fn founder(
    alloc: Global,
    config: &Config,
    cell: u32,
    nth: u32,
    genome: Arc<Genome, Global>,
) -> Result<BoxedOrganism, Memory>
    requires cell { cell < CELLS }
    requires nth { nth ≤ MOST_EVENTS }
    requires genome { length (letters genome.value) ≤ config.now.greatest_length }
    ensures { IfOk result (λ organism.
        organism ≡ founder_of (values_of config.now) cell nth (letters genome.value)) }
{
    let inputs = founder_inputs(config.seed, cell, nth);
    let merit = u64::from(genome.len());
    let tasks = Tasks::none();
    let organism = Organism::found(alloc, genome, inputs, merit, tasks, config.memory_limit)?;
    BoxedOrganism::new(alloc, organism)
}

/// The inputs of founder number `nth`, by three words of update 0.
fn founder_inputs(seed: u64, cell: u32, nth: u32) -> Inputs
    requires cell { cell < CELLS }
    requires nth { nth ≤ MOST_EVENTS }
    ensures { result ≡ inputs_of (founder_words seed cell nth) }
{
    let mut draws = Draws::start(seed, 0, cell, Purpose::Place);
    pass_over(&mut draws, 3 * nth);
    let first = draws.word();
    let second = draws.word();
    let third = draws.word();
    Inputs::of([first, second, third])
}

/// Takes so many words, for others.
fn pass_over(draws: &mut Draws, words: u32)
    requires { draws.old.taken + words < 2 ^ 48 }
    ensures { draws.new ≡ after words draws.old }
{
    for _ in 0..words {
        draws.word();
    }
}

/// Founder number `nth` of a run, of this genome, stands in the cell, and who stood there dies. After
/// `Memory` drop the scene.
pub(crate) fn found_in<R: Wait>(
    rt: &R,
    alloc: Global,
    config: &Config,
    scene: &mut Scene,
    nth: u32,
    cell: u32,
    genome: &Genome,
) -> Result<(), Memory>
    requires cells { length scene.old.cells ≤ CELLS }
    requires cell { cell < length scene.old.cells }
    requires nth { nth ≤ MOST_EVENTS }
    requires genome { length (letters genome.now) ≤ config.now.greatest_length }
    ensures scene { OnOk result (scene_in scene.new ≡ with_newcomer (scene_in scene.old)
        (founder_link (next_id (scene_in scene.old)) scene.old.update cell (letters genome.now))
        (founder_of (values_of config.now) cell nth (letters genome.now))) }
    ensures bank { OnOk result
        (scene.new.bank ≡ with_genome scene.old.bank (letters genome.now)) }
    ensures first { OnOk result (scene.new.first ≡ scene.old.first) }
{
    let id = scene.next_id();
    let handle = add_founder(rt, alloc, scene, cell, genome)?;
    let organism = founder(alloc, config, cell, nth, handle.genome)?;
    scene.put_over(id, cell, handle.number, organism)
}

/// The next id goes to a founder of this genome, which is interned. After `Memory` drop the scene.
fn add_founder<R: Wait>(
    rt: &R,
    alloc: Global,
    scene: &mut Scene,
    cell: u32,
    genome: &Genome,
) -> Result<Handle, Memory>
    ensures scene { OnOk result (scene.new ≡ record scene.old {
      everyone = scene.old.everyone ++ founder_link (next_id (scene_in scene.old))
          scene.old.update cell (letters genome.now) ∷ [];
      bank = with_genome scene.old.bank (letters genome.now);
    }) }
    ensures genome { IfOk result (λ handle. letters handle.genome.value ≡ letters genome.now) }
    ensures number { IfOk result (λ handle.
        slice_get scene.new.bank handle.number ≡ Some (letters genome.now)) }
{
    let handle = scene.intern(rt, alloc, genome.copy(alloc)?)?;
    let tree_genome = Arc::try_clone(&handle.genome)?;
    scene.add_newcomer(None, cell, None, tree_genome)?;
    Ok(handle)
}

/// The scene of update 0: the configuration's founder alone.
pub(crate) fn first_scene<R: Wait>(rt: &R, alloc: Global, config: &Config) -> Result<Scene, Memory>
    ensures world { IfOk result
        (λ scene. world_of (scene_in scene) ≡ first_world (values_of config.now)) }
    ensures size { IfOk result
        (λ scene. length scene.cells ≡ config.now.width * config.now.height) }
    ensures nobody { IfOk result (λ scene. scene.gone ≡ []) }
    ensures one { IfOk result (λ scene. length scene.everyone ≡ 1) }
    ensures first { IfOk result (λ scene. scene.first ≡ 0) }
    ensures bank { IfOk result (λ scene. HasEachOnce scene.bank (genomes_ever scene.everyone)) }
{
    genotypes_are_what_was_interned();
    let mut scene = Scene::none(
        alloc,
        0,
        config.width * config.height,
        Everyone::none(alloc),
    )?;
    let founded = found_in(
        rt,
        alloc,
        config,
        &mut scene,
        0,
        config.founder_cell,
        &config.ancestor,
    );
    let (scene, ()) = beside(scene, founded)?;
    Ok(scene)
}
