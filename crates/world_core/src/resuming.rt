// How a saved world is taken up again.
ghost use Rattle.std.specs.Prelude.{◌≡◌, ◌+◌, ◌*◌, ◌<◌, ◌≤◌, ◌^◌, All, None, Some, IfOk, OnOk, ℕ, fold, length, map, replicate, slice_get, slice_set};
ghost use Rattle.world_core.specs.Prelude.{letters, with_genome, organism_of_image, head_values, forgotten, world_of_state, state_of_lines, with_placed, head_at, IsHead, MayStandThere, placed_in, values_of, world_of};
ghost use Rattle.organism.specs.Lived.{IsSoundOrganism};
ghost use Rattle.mutations.specs.RecordForm.{IsWithin};
ghost use Rattle.world_core.specs.Scenes.{KeepsPast, scene_in};

use crate::everyone::Everyone;
use crate::pairs::beside;
use crate::scene::Scene;
use crate::settings::rates_at;
use avida_port::Memory;
use cell_shards::BoxedOrganism;
use genome::Genome;
use instruction_set::Letter;
use organism::{Image, Organism};
use saved_lines::{Resident, StateHead};
use std::alloc::Global;
use std::sync::{Arc, Wait};
use world_config::{Config, Events};

/// The values of a saved world besides its organisms. The rates are those of the next update.
pub(crate) fn head_at(config: &Config, update: u32, next_id: u64) -> StateHead
    requires { update ≤ 1000000 }
    ensures { head_values result ≡ head_at (values_of config.now) update next_id }
{
    StateHead {
        width: config.width,
        height: config.height,
        update,
        next_id,
        seed: config.seed,
        average_slices: config.average_slices,
        death: config.death,
        age_limit: config.age_limit,
        rates: rates_at(config, update + 1),
        prefer_empty: config.prefer_empty,
        need_alloc: config.need_alloc,
        executed_percent: config.executed_percent,
        copied_percent: config.copied_percent,
        least_length: config.least_length,
        greatest_length: config.greatest_length,
        memory_limit: config.memory_limit,
    }
}

/// A configuration without events that goes on as this head does. Of its ancestor a saved world
/// tells nothing, so it is any genome.
#[tactic(auto, unfolding(world_rules::specs::Settings::rates_at))]
fn config_of(alloc: Global, head: &StateHead) -> Result<Config, Memory>
    requires { IsHead (head_values head.now) }
    ensures head { IfOk result (λ config.
        head_at (values_of config) head.now.update head.now.next_id ≡ head_values head.now) }
    ensures over { IfOk result (λ config. config.updates ≡ 0) }
{
    Ok(Config {
        width: head.width,
        height: head.height,
        updates: 0,
        seed: head.seed,
        founder_cell: 0,
        average_slices: head.average_slices,
        death: head.death,
        age_limit: head.age_limit,
        copy_error: head.rates.copy,
        divide_insert: head.rates.insert,
        divide_delete: head.rates.delete,
        site_point: head.rates.site_point,
        site_insert: head.rates.site_insert,
        site_delete: head.rates.site_delete,
        prefer_empty: head.prefer_empty,
        need_alloc: head.need_alloc,
        executed_percent: head.executed_percent,
        copied_percent: head.copied_percent,
        least_length: head.least_length,
        greatest_length: head.greatest_length,
        memory_limit: head.memory_limit,
        ancestor: any_genome(alloc, head.least_length)?,
        event: Events::none(alloc),
    })
}

/// A genome of so many letters.
fn any_genome(alloc: Global, count: u32) -> Result<Genome, Memory>
    requires { IsWithin 8 8192 count }
    ensures { IfOk result (λ genome. length (letters genome) ≡ count) }
{
    let letters = vec![in alloc; Letter::NopA; count as usize]?;
    Genome::from_letters(alloc, &letters).map_err(|_| Memory)
}

/// The world of a head in which nobody stands yet.
fn resumed_scene(alloc: Global, head: &StateHead) -> Result<Scene, Memory>
    requires { IsHead (head_values head.now) }
    ensures update { IfOk result (λ scene. scene.update ≡ head.now.update) }
    ensures cells { IfOk result
        (λ scene. scene.cells ≡ replicate (head.now.width * head.now.height) None) }
    ensures everyone { IfOk result
        (λ scene. scene.everyone ≡ replicate head.now.next_id forgotten) }
    ensures first { IfOk result (λ scene. scene.first ≡ head.now.next_id) }
{
    let everyone = Everyone::forgotten(alloc, head.next_id);
    Scene::none(alloc, head.update, head.width * head.height, everyone)
}

/// A configuration that goes on as this head does, on the heap.
pub(crate) fn shared_config(alloc: Global, head: &StateHead) -> Result<Arc<Config, Global>, Memory>
    requires { IsHead (head_values head.now) }
    ensures head { IfOk result (λ config. head_at (values_of config.value) head.now.update
        head.now.next_id ≡ head_values head.now) }
    ensures over { IfOk result (λ config. config.value.updates ≡ 0) }
{
    let config = config_of(alloc, head)?;
    Ok(Arc::new(alloc, config)?)
}

/// The scene of a saved world: nothing is known of its organisms ever but their number, and these
/// stand in their cells.
pub(crate) fn restored_scene<R: Wait>(
    rt: &R,
    alloc: Global,
    head: &StateHead,
    residents: Vec<Resident>,
) -> Result<Scene, Memory>
    requires head { IsHead (head_values head.now) }
    requires each { All (MayStandThere (head_values head.now))
        (map (placed_in (head_values head.now)) residents.items) }
    ensures world { IfOk result (λ scene. world_of (scene_in scene)
        ≡ world_of_state (state_of_lines (head_values head.now)
        (map (placed_in (head_values head.now)) residents.items))) }
    ensures settled { IfOk result (λ scene. scene.first ≡ length scene.everyone) }
{
    let mut scene = resumed_scene(alloc, head)?;
    let restored = restore_all(rt, alloc, &mut scene, head, residents);
    let (scene, ()) = beside(scene, restored)?;
    Ok(scene)
}

/// The organisms stand in their cells again. After `Memory` drop the scene.
fn restore_all<R: Wait>(
    rt: &R,
    alloc: Global,
    scene: &mut Scene,
    head: &StateHead,
    residents: Vec<Resident>,
) -> Result<(), Memory>
    requires size { length scene.old.cells ≡ head.now.width * head.now.height }
    requires each { All (MayStandThere (head_values head.now))
        (map (placed_in (head_values head.now)) residents.items) }
    ensures cells { OnOk result (scene.new.cells ≡ fold with_placed scene.old.cells
        (map (placed_in (head_values head.now)) residents.items)) }
    ensures past { OnOk result (KeepsPast scene.old scene.new) }
{
    for mut resident in residents {
        restore(rt, alloc, scene, head.memory_limit, &mut resident)?;
    }
    Ok(())
}

/// An organism stands in its cell again, with its values. After `Memory` drop the scene.
fn restore<R: Wait>(
    rt: &R,
    alloc: Global,
    scene: &mut Scene,
    memory_limit: u32,
    resident: &mut Resident,
) -> Result<(), Memory>
    requires cell { resident.old.cell < length scene.old.cells }
    requires sound { IsSoundOrganism (organism_of_image resident.old.image memory_limit) }
    requires age { resident.old.image.age < 2 ^ 48 }
    ensures cells { OnOk result (scene.new.cells ≡ slice_set scene.old.cells resident.old.cell
        (Some (record {
          id = resident.old.id;
          organism = organism_of_image resident.old.image memory_limit;
        }))) }
    ensures past { OnOk result (KeepsPast scene.old scene.new) }
{
    let number = intern_again(rt, alloc, scene, &mut resident.image)?;
    let organism = organism_of(alloc, &resident.image, memory_limit)?;
    scene.put_over(resident.id, resident.cell, number, organism)
}

/// Interns the genome of an image, which from now on is that of the bank. After `Memory` drop the
/// scene.
fn intern_again<R: Wait>(
    rt: &R,
    alloc: Global,
    scene: &mut Scene,
    image: &mut Image,
) -> Result<u64, Memory>
    ensures scene { OnOk result (scene.new ≡ record scene.old {
      bank = with_genome scene.old.bank (letters image.old.genome.value);
    }) }
    ensures same { OnOk result ((limit : ℕ)
        → organism_of_image image.new limit ≡ organism_of_image image.old limit) }
    ensures number { IfOk result (λ number.
        slice_get scene.new.bank number ≡ Some (letters image.old.genome.value)) }
{
    let handle = scene.intern(rt, alloc, image.genome.copy(alloc)?)?;
    image.genome = handle.genome;
    Ok(handle.number)
}

/// The organism with the values of an image.
fn organism_of(alloc: Global, image: &Image, memory_limit: u32) -> Result<BoxedOrganism, Memory>
    requires { IsSoundOrganism (organism_of_image image.now memory_limit) }
    ensures { IfOk result (λ organism. organism ≡ organism_of_image image.now memory_limit) }
{
    let organism = Organism::from_image(alloc, image, memory_limit)?;
    BoxedOrganism::new(alloc, organism)
}
