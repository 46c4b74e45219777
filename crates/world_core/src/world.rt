// A world.
ghost use Rattle.std.specs.Prelude.{◌≡◌, ◌+◌, ◌*◌, ◌<◌, ◌≤◌, IfOk, IfSome, Some, length, option_map, slice_get, None, slice_index_or};
ghost use Rattle.world_core.specs.Prelude.{IsPrefix, letters, HasEachOnce, line_text, state_of, values_of, head_text, update_text, end_text, stats_of, living_and_ancestors, id_at};
ghost use Rattle.log_lines.specs.Line as line_spec;
ghost use Rattle.world_rules.specs.Descent.{line_in};
ghost use Rattle.world_laws.specs.Turnover.{IsStanding};
ghost use Rattle.world_core.specs.Scenes.{genomes_ever, WorldValue, world_in};
ghost use Rattle.world_core.specs.Population.{occupant_genome};

use crate::first_tree::first_tree;
use crate::founding::first_scene;
use crate::late_tree::LateTree;
use crate::pairs::beside;
use crate::picture::WorldPicture;
use crate::running_world::RunningWorld;
use crate::scene::Scene;
use crate::state::State;
use avida_port::{Gate, Memory};
use genome::Genome;
use lineage_log::Path;
use log_lines::{LAST_VERSION, LogLine, Stats, write_line};
use saved_worlds::laws::runs_can_go_on;
use std::alloc::Global;
use std::marker::Model;
use std::sync::{Arc, Wait};
use std::thread::Threads;
use world_config::Config;
use world_rules::laws::ids_are_places;
use world_tree::WorldTree;

/// A world without the tree of its past.
#[derive(Drop)]
pub(crate) struct Present {
    pub(crate) config: Arc<Config, Global>,
    pub(crate) scene: Scene,
    pub(crate) stats: Stats,
    pub(crate) workers: u32,
}

impl Model for Present {
    ghost use Rattle.std.specs.Prelude.{◌≤◌};
    ghost use Rattle.world_config.specs.Values.{values_of};
    ghost use Rattle.world_core.specs.Scenes.{WorldValue, IsWorldOf};

    ghost Value = { WorldValue };

    ghost view = { λ w. record {
      config = values_of w.config.value;
      update = w.scene.update;
      bank = w.scene.bank;
    } };

    ghost invariant = { λ w. IsWorldOf (values_of w.config.value) w.scene w.stats
        × (1 ≤ w.workers) × (w.workers ≤ 64) };
}

impl Present {
    /// As `World::bank_len`.
    fn bank_len(&self) -> u64
        ensures len { result ≡ length self.now.bank }
        ensures each { HasEachOnce self.now.bank (genomes_ever (world_in self.now).everyone) }
    {
        self.scene.cells.bank_len()
    }

    /// As `World::handle_at`.
    fn handle_at(&self, cell: u32) -> Option<u64>
        requires { cell < self.now.config.width * self.now.config.height }
        ensures { option_map (λ number. slice_get self.now.bank number) result
            ≡ option_map (λ genome. Some genome)
            (occupant_genome (slice_index_or (world_in self.now).cells cell None)) }
    {
        self.scene.cells.number_at(cell)
    }

    /// The id of who stands in the cell.
    fn standing_at(&self, cell: u32) -> Option<u64>
        requires { cell < self.now.config.width * self.now.config.height }
        ensures id { result ≡ id_at (world_in self.now).cells cell }
        ensures standing { IfSome result (λ id. IsStanding (world_in self.now).cells id) }
    {
        self.scene.standing_at(cell)
    }
}

/// The world of a configuration after some number of updates. Only `found`, `advance` and
/// `RunningWorld::into_world` make one.
#[derive(Drop)]
pub struct World {
    pub(crate) present: Present,
    pub(crate) tree: WorldTree,
}

impl Model for World {
    ghost use Rattle.world_tree.specs.WorldTrees.{IsTreeOf};
    ghost use Rattle.world_core.specs.Scenes.{WorldValue, world_in};

    ghost Value = { WorldValue };

    ghost view = { λ w. w.present };

    ghost invariant = { λ w. IsTreeOf (world_in w.present) w.tree };
}

impl World {
    /// The world of update 0: the configuration's founder alone. It may wait, since it interns the
    /// founder's genome.
    #[tactic(auto, unfolding(world_rules::specs::WorldRun::world_after, world_rules::specs::World::first_world, world_rules::specs::Statistics::stats_of))]
    pub fn found<R: Wait>(
        rt: &R,
        alloc: Global,
        config: Config,
        workers: u32,
    ) -> Result<World, Memory>
        requires workers { (1 ≤ workers) × (workers ≤ 64) }
        ensures { IfOk result (λ world. (world.config ≡ values_of config) × (world.update ≡ 0)) }
    {
        let config = Arc::new(alloc, config)?;
        let mut scene = first_scene(rt, alloc, &config)?;
        let tree = first_tree(alloc, &config, &mut scene);
        let ((config, scene), tree) = beside((config, scene), tree)?;
        let stats = scene.stats(0);
        let present = Present {
            config,
            scene,
            stats,
            workers,
        };
        Ok(World { present, tree })
    }

    /// One update, and its lines, by as many threads as the world has workers. After `Memory` no
    /// world is left. It may wait, since it interns the genomes of the newborns and of the
    /// injected.
    pub fn advance<R: Threads + Wait + Sync, G: Gate + Sync>(
        self,
        rt: &R,
        alloc: Global,
        gate: &G,
    ) -> Result<(World, Vec<u8>), Memory>
        requires { self.update < 1000000 }
        ensures config { IfOk result (λ next. next.0.config ≡ self.config) }
        ensures update { IfOk result (λ next. next.0.update ≡ self.update + 1) }
        ensures text { IfOk result
            (λ next. next.1.items ≡ update_text self.config (self.update + 1)) }
        ensures bank { IfOk result (λ next. IsPrefix self.bank next.0.bank) }
    {
        let (running, text) = self.into_running().advance(rt, alloc, gate)?;
        Ok((running.into_world()?, text))
    }

    /// The same world, to be advanced by many updates. Its tree need not have grown before the next
    /// update begins.
    pub fn into_running(self) -> RunningWorld
        ensures { result ≡ self }
    {
        let World { present, tree } = self;
        let tree = LateTree::Grown { tree };
        RunningWorld { present, tree }
    }

    /// What the run leaves, as a saved world, which goes on without events.
    pub fn into_state(self) -> State
        requires { self.update ≡ self.config.updates }
        ensures { result ≡ state_of self.config }
    {
        let World { present, .. } = self;
        let Present {
            config,
            scene,
            workers,
            ..
        } = present;
        runs_can_go_on(&config, scene.update);
        State {
            config,
            scene,
            workers,
        }
    }

    /// The first line of the log.
    #[tactic(auto, unfolding(world_rules::specs::LogText::head_text))]
    pub fn first_line(&self, alloc: Global) -> Result<Vec<u8>, Memory>
        ensures { IfOk result (λ text. text.items ≡ head_text self.now.config) }
    {
        let config = &self.present.config;
        let line = LogLine::Start {
            version: LAST_VERSION,
            width: config.width,
            height: config.height,
            cell: config.founder_cell,
            genome: config.ancestor.copy(alloc)?,
        };
        line_alone(alloc, &line)
    }

    /// The last line of a log that ends with this update.
    #[tactic(auto, unfolding(world_rules::specs::LogText::end_text))]
    pub fn last_line(&self, alloc: Global) -> Result<Vec<u8>, Memory>
        ensures { IfOk result (λ text. text.items ≡ end_text self.now.update) }
    {
        let line = LogLine::End {
            updates: self.present.scene.update,
        };
        line_alone(alloc, &line)
    }

    /// The number of updates so far.
    pub fn update(&self) -> u32
        ensures { result ≡ self.now.update }
    {
        self.present.scene.update
    }

    /// The number of cells.
    pub fn cells(&self) -> u32
        ensures { result ≡ self.now.config.width * self.now.config.height }
    {
        self.present.config.width * self.present.config.height
    }

    /// The number of different genomes of all founders so far and of all births. The bank has each
    /// of them once.
    pub fn bank_len(&self) -> u64
        ensures len { result ≡ length self.now.bank }
        ensures each { HasEachOnce self.now.bank (genomes_ever (world_in self.now).everyone) }
    {
        self.present.bank_len()
    }

    /// What is counted after this update.
    pub fn stats(&self) -> Stats
        ensures { result ≡ stats_of self.now.config self.now.update }
    {
        self.present.stats
    }

    /// What this world shows.
    #[tactic(auto, unfolding(world_rules::specs::Picture::picture_of))]
    pub fn picture(&self, alloc: Global) -> Result<Arc<WorldPicture, Global>, Memory>
        ensures config { IfOk result
            (λ picture. values_of picture.value.config.value ≡ self.now.config) }
        ensures update { IfOk result (λ picture. picture.value.update ≡ self.now.update) }
    {
        let present = &self.present;
        let stats = &present.stats;
        let picture = WorldPicture {
            config: Arc::try_clone(&present.config)?,
            update: present.scene.update,
            living: stats.living,
            genotypes: stats.genotypes,
            merit: stats.merit,
            dominant: present.scene.cells.dominant()?,
        };
        Ok(Arc::new(alloc, picture)?)
    }

    /// The genome of the organism in the cell; None exactly if it is empty.
    pub fn genome_at(&self, cell: u32) -> Option<&Genome>
        requires { cell < self.now.config.width * self.now.config.height }
        ensures { option_map (λ genome. letters genome.now) result
            ≡ occupant_genome (slice_index_or (world_in self.now).cells cell None) }
    {
        self.present.scene.cells.cells().genome_at(cell as usize)
    }

    /// The number of the genome in the cell, which is its place in the bank; None exactly if the
    /// cell is empty.
    pub fn handle_at(&self, cell: u32) -> Option<u64>
        requires { cell < self.now.config.width * self.now.config.height }
        ensures { option_map (λ number. slice_get self.now.bank number) result
            ≡ option_map (λ genome. Some genome)
            (occupant_genome (slice_index_or (world_in self.now).cells cell None)) }
    {
        self.present.handle_at(cell)
    }

    /// The line of descent of the organism in the cell, its founder first; `Ok(None)` exactly if it
    /// is empty.
    pub fn lineage(&self, alloc: Global, cell: u32) -> Result<Option<Path>, Memory>
        requires { cell < self.now.config.width * self.now.config.height }
        ensures { IfOk result (λ path. path ≡ line_in (world_in self.now) cell) }
    {
        ids_are_places();
        match self.present.standing_at(cell) {
            Some(id) => Ok(Some(self.tree.lineage(alloc, id)?)),
            None => Ok(None),
        }
    }

    /// How many organisms stand in a cell or are an ancestor of one that does. No others are in
    /// memory.
    pub fn nodes(&self) -> u64
        ensures { result ≡ length (living_and_ancestors (world_in self.now)) }
    {
        self.tree.nodes()
    }
}

/// The text of one line.
fn line_alone(alloc: Global, line: &LogLine) -> Result<Vec<u8>, Memory>
    ensures { IfOk result (λ text. text.items ≡ line_text (line_spec.line_values line.now)) }
{
    let mut text = Vec::new(alloc);
    write_line(line, &mut text)?;
    Ok(text)
}
