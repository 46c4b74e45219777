// A world that goes on.
ghost use Rattle.std.specs.Prelude.{◌≡◌, ◌+◌, ◌^◌, ◌<◌, ◌≤◌, [], IfOk, OnOk, length};
ghost use Rattle.world_core.specs.Prelude.{IsPrefix, values_of, update_text, stats_of, world_after, IsTreeOf};
ghost use Rattle.world_core.specs.LateTrees.{IsLateTreeOf, IsLeftBehind};
ghost use Rattle.world_core.specs.Scenes.{WorldValue};

use crate::late_tree::LateTree;
use crate::pairs::beside;
use crate::scene::Scene;
use crate::updating::next_scene;
use crate::world::{Present, World};
use avida_port::{Gate, Memory};
use log_lines::Stats;
use std::alloc::Global;
use std::marker::Model;
use std::sync::{Arc, Wait};
use std::thread::Threads;
use world_config::Config;
use world_laws::laws::organisms_live_on;
use world_tree::WorldTree;

/// A world that goes on: its tree may be one update behind, and grows in the next update, once the
/// other threads have begun with the cells. Only `World::into_running` and `advance` make one.
#[derive(Drop)]
pub struct RunningWorld {
    pub(crate) present: Present,
    pub(crate) tree: LateTree,
}

impl Model for RunningWorld {
    ghost use Rattle.world_core.specs.LateTrees.{IsLateTreeOf};
    ghost use Rattle.world_core.specs.Scenes.{WorldValue};

    ghost Value = { WorldValue };

    ghost view = { λ w. w.present };

    ghost invariant = { λ w. IsLateTreeOf w.present.config w.present.update w.tree };
}

impl RunningWorld {
    /// One update, and its lines, by as many threads as the world has workers. After `Memory` no
    /// world is left. It may wait, since it interns the genomes of the newborns and of the
    /// injected.
    pub fn advance<R: Threads + Wait + Sync, G: Gate + Sync>(
        self,
        rt: &R,
        alloc: Global,
        gate: &G,
    ) -> Result<(RunningWorld, Vec<u8>), Memory>
        requires { self.update < 1000000 }
        ensures config { IfOk result (λ next. next.0.config ≡ self.config) }
        ensures update { IfOk result (λ next. next.0.update ≡ self.update + 1) }
        ensures text { IfOk result
            (λ next. next.1.items ≡ update_text self.config (self.update + 1)) }
        ensures bank { IfOk result (λ next. IsPrefix self.bank next.0.bank) }
    {
        let RunningWorld { present, tree } = self;
        let Present {
            config,
            scene,
            workers,
            ..
        } = present;
        let update = scene.update;
        let rules: &Config = &config;
        organisms_live_on(rules, update);
        let grow = move || -> Result<WorldTree, Memory>
            requires { IsLateTreeOf (values_of rules.now) update tree }
            ensures { IfOk result (IsTreeOf (world_after (values_of rules.entry.now) update)) }
        { tree.grown(rules, update) };
        let (mut scene, stats, text, grown) = next_scene(
            rt, alloc, rules, scene, workers, gate, grow,
        )?;
        let tree = left_behind(alloc, &config, &mut scene, grown);
        let ((scene, text), tree) = beside((scene, text), tree)?;
        let present = Present {
            config,
            scene,
            stats,
            workers,
        };
        Ok((RunningWorld { present, tree }, text))
    }

    /// What is counted after this update.
    pub fn stats(&self) -> Stats
        ensures { result ≡ stats_of self.now.config self.now.update }
    {
        self.present.stats
    }

    /// The world as it stands, whose tree has grown. After `Memory` no world is left.
    pub fn into_world(self) -> Result<World, Memory>
        ensures { IfOk result (λ world. world ≡ self) }
    {
        let RunningWorld { present, tree } = self;
        let now = &present;
        let tree = tree.grown(&now.config, now.scene.update);
        let (present, tree) = beside(present, tree)?;
        Ok(World { present, tree })
    }
}

/// The tree, which grew in the update, is left one update behind the scene: who came and who died
/// in it leave the scene. After `Memory` drop the scene.
fn left_behind(
    alloc: Global,
    config: &Arc<Config, Global>,
    scene: &mut Scene,
    grown: Result<WorldTree, Memory>,
) -> Result<LateTree, Memory>
    requires world { scene.old.everyone
        ≡ (world_after (values_of config.now.value) scene.old.update).everyone }
    requires few { length scene.old.everyone ≤ 2 ^ 62 + 2 ^ 60 }
    ensures scene { OnOk result (scene.new
        ≡ record scene.old { first = length scene.old.everyone; gone = [] }) }
    ensures tree { IfOk result (IsLeftBehind grown scene.old) }
{
    let tree = grown?;
    let newcomers = scene.take_newcomers(alloc, config)?;
    let gone = scene.take_gone(alloc);
    Ok(LateTree::Behind {
        tree,
        newcomers,
        gone,
    })
}
