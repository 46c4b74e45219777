// One update.
ghost use Rattle.std.specs.Prelude.{◌≡◌, ◌+◌, ◌++◌, ◌*◌, ◌<◌, ◌≤◌, ◌^◌, [], All, IfOk, OnOk, length, map};
ghost use Rattle.world_core.specs.Prelude.{lines_text, Count, line_text, values_of, LiveOn, lives_of, update_lines, births_of, world_of};
ghost use Rattle.world_core.specs.Bounds.{AreDeliveries};
ghost use Rattle.world_core.specs.Endings.{Ends, IsNext, last_lines, deliveries_in, departed_from, departures_in, staying_in};
ghost use Rattle.world_core.specs.Scenes.{HasNumber, TakesIn, scene_in};

use crate::births::place_births;
use crate::burials::bury;
use crate::events::apply_events;
use crate::lived::Lived;
use crate::pairs::beside;
use crate::scene::Scene;
use avida_port::{Gate, Memory};
use log_lines::{LogLine, Stats, write_line};
use std::alloc::Global;
use std::sync::Wait;
use std::thread::Threads;
use world_config::{Config, GREATEST_UPDATES};

/// The scene at the end of the next update, what is counted of it, its lines, and what comes of
/// `meanwhile`, which the calling thread does once the others have begun.
pub(crate) fn next_scene<
    R: Threads + Wait + Sync,
    G: Gate + Sync,
    T: Drop,
    F: FnOnce() -> T + Drop,
>(
    rt: &R,
    alloc: Global,
    config: &Config,
    scene: Scene,
    workers: u32,
    gate: &G,
    meanwhile: F,
) -> Result<(Scene, Stats, Vec<u8>, T), Memory>
    requires size { length scene.cells ≡ config.now.width * config.now.height }
    requires update { scene.update < GREATEST_UPDATES }
    requires few { length scene.everyone ≤ 2 ^ 62 + 2 ^ 60 }
    requires workers { (1 ≤ workers) × (workers ≤ 64) }
    requires lives { LiveOn (values_of config.now) (world_of (scene_in scene)) }
    requires meanwhile { F.pre meanwhile }
    ensures next { IfOk result
        (λ next. IsNext (values_of config.now) scene next.0 next.1) }
    ensures text { IfOk result (λ next. next.2.items
        ≡ lines_text (update_lines (values_of config.now) (world_of (scene_in scene)))) }
    ensures meanwhile { IfOk result (λ next. F.post meanwhile next.3) }
{
    let (mut scene, lived, outcome) = scene_of_lives(
        rt, alloc, config, scene, workers, gate, meanwhile,
    )?;
    let mut text = Vec::new(alloc);
    let stats = end_update(rt, alloc, config, &mut scene, lived, &mut text);
    let ((scene, text, outcome), stats) = beside((scene, text, outcome), stats)?;
    Ok((scene, stats, text, outcome))
}

/// What follows the lives of an update: burials, births and events, with their lines, and what is
/// counted at its end. After `Memory` drop the scene.
fn end_update<R: Wait>(
    rt: &R,
    alloc: Global,
    config: &Config,
    scene: &mut Scene,
    lived: Lived,
    text: &mut Vec<u8>,
) -> Result<Stats, Memory>
    requires size { length scene.old.cells ≡ config.now.width * config.now.height }
    requires few { length scene.old.everyone ≤ 2 ^ 62 + 2 ^ 60 }
    requires births { AreDeliveries (values_of config.now) (length scene.old.cells)
        (deliveries_in lived) }
    requires numbers { All (HasNumber scene.old.bank) lived.born.items }
    ensures ends { IfOk result (Ends (values_of config.now) lived scene.old scene.new) }
    ensures text { IfOk result (λ stats. text.new.items ≡ text.old.items ++ lines_text
        (last_lines (values_of config.now) (scene_in scene.old) (departures_in lived)
        (deliveries_in lived) stats)) }
{
    let count = lived.born.len() as u64;
    bury(scene, &lived, text)?;
    place_births(alloc, config, scene, lived, text)?;
    apply_events(rt, alloc, config, scene, text)?;
    let stats = scene.stats(count);
    tell_count(stats, text)?;
    Ok(stats)
}

/// The line of what is counted.
fn tell_count(stats: Stats, text: &mut Vec<u8>) -> Result<(), Memory>
    ensures { OnOk result (text.new.items ≡ text.old.items ++ line_text (Count stats)) }
{
    write_line(&LogLine::Count(stats), text)
}

/// The scene as all lives of the next update have ended, and the dead have left their cells.
fn scene_of_lives<R: Threads + Wait + Sync, G: Gate + Sync, T: Drop, F: FnOnce() -> T + Drop>(
    rt: &R,
    alloc: Global,
    config: &Config,
    scene: Scene,
    workers: u32,
    gate: &G,
    meanwhile: F,
) -> Result<(Scene, Lived, T), Memory>
    requires size { length scene.cells ≡ config.now.width * config.now.height }
    requires update { scene.update < GREATEST_UPDATES }
    requires workers { (1 ≤ workers) × (workers ≤ 64) }
    requires lives { LiveOn (values_of config.now) (world_of (scene_in scene)) }
    requires meanwhile { F.pre meanwhile }
    ensures scene { IfOk result (λ next. scene_in next.0 ≡ record {
      update = scene.update + 1;
      cells = map staying_in (lives_of (values_of config.now) (scene.update + 1) scene.cells);
      everyone = scene.everyone;
      gone = [];
    }) }
    ensures births { IfOk result (λ next. deliveries_in next.1
        ≡ births_of (lives_of (values_of config.now) (scene.update + 1) scene.cells)) }
    ensures deliveries { IfOk result (λ next. AreDeliveries (values_of config.now)
        (length scene.cells) (deliveries_in next.1)) }
    ensures dead { IfOk result (λ next. departures_in next.1
        ≡ departed_from 0 (lives_of (values_of config.now) (scene.update + 1) scene.cells)) }
    ensures bank { IfOk result (λ next. TakesIn scene.bank next.0.bank next.1.born.items) }
    ensures size { IfOk result (λ next. length next.0.cells ≡ length scene.cells) }
    ensures first { IfOk result (λ next. next.0.first ≡ scene.first) }
    ensures meanwhile { IfOk result (λ next. F.post meanwhile next.2) }
{
    let Scene {
        update,
        cells,
        everyone,
        mut gone,
    } = scene;
    let (cells, lived, outcome) = cells.live(rt, alloc, config, update, workers, gate, meanwhile)?;
    gone.clear();
    let scene = Scene {
        update: update + 1,
        cells,
        everyone,
        gone,
    };
    Ok((scene, lived, outcome))
}
