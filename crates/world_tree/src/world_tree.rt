// The tree of a world.
ghost use Rattle.std.specs.Prelude.{◌≡◌, ◌+◌, Contains, IfOk, OnOk, length};
ghost use Rattle.genome.specs.Genome.{letters};
ghost use Rattle.world_config.specs.Values.{values_of};
ghost use Rattle.world_rules.specs.Descent.{IsNumberedWorld, descent_line_of};
ghost use Rattle.world_rules.specs.World.{World};
ghost use Rattle.world_rules.specs.WorldRun.{world_after};
ghost use Rattle.world_tree.specs.WorldTrees.{IsTreeOf, living_and_ancestors, newcomers_of, scene_after};

use crate::burying::bury_all;
use crate::entering::enter_all;
use avida_port::Memory;
use genome::Genome;
use lineage_log::laws::{keeping_goes_on, lines_come_from_parents};
use lineage_log::{Ancestor, Path, Tree};
use std::alloc::Global;
use std::marker::Model;
use std::sync::Arc;
use world_config::Config;

/// The living organisms of a world, and their ancestors.
#[derive(Drop)]
pub struct WorldTree {
    tree: Tree,
}

impl Model for WorldTree {
    ghost use Rattle.lineage_log.specs.Ancestry.{TreeValue};

    ghost Value = { TreeValue };

    ghost view = { λ w. w.tree };
}

impl WorldTree {
    /// The tree of the world of update 0: its founder, with the ancestor's genome.
    #[tactic(auto, unfolding(world_rules::specs::WorldRun::world_after, world_rules::specs::World::first_world))]
    pub fn found(
        alloc: Global,
        config: &Config,
        genome: Arc<Genome, Global>,
    ) -> Result<WorldTree, Memory>
        requires { letters genome.value ≡ (values_of config.now).ancestor }
        ensures { IfOk result (λ tree. IsTreeOf (world_after (values_of config.now) 0) tree) }
    {
        let tree = Tree::found(alloc, genome, config.founder_cell)?;
        Ok(WorldTree { tree })
    }

    /// From the world after an update to the next one: the organisms that came enter, and then
    /// those that died leave. After `Memory` drop the tree.
    pub fn grow(
        &mut self,
        config: &Config,
        update: u32,
        newcomers: Vec<Ancestor>,
        gone: &[u64],
    ) -> Result<(), Memory>
        requires tree { IsTreeOf (world_after (values_of config.now) update) self.old }
        requires newcomers { newcomers.items ≡ newcomers_of (values_of config.now) update }
        requires gone { gone.now ≡ (scene_after (values_of config.now) update).gone }
        ensures { OnOk result
            (IsTreeOf (world_after (values_of config.now) (update + 1)) self.new) }
    {
        enter_all(&mut self.tree, config, update, newcomers)?;
        bury_all(&mut self.tree, config, update, gone);
        Ok(())
    }

    /// The line of descent of an organism that stands in a cell, its founder first.
    pub fn lineage(&self, alloc: Global, id: u64) -> Result<Path, Memory>
        requires { Contains self.now.living id }
        ensures { IfOk result (λ path. (w : World)
            → IsNumberedWorld w → IsTreeOf w self.now → path ≡ descent_line_of w.everyone id) }
    {
        keeping_goes_on();
        lines_come_from_parents();
        world_rules::laws::lines_come_from_parents();
        let _nodes = self.tree.nodes();
        self.tree.path(alloc, id)
    }

    /// How many organisms live or are an ancestor of one that lives.
    pub fn nodes(&self) -> u64
        ensures { (w : World) → IsTreeOf w self.now → result ≡ length (living_and_ancestors w) }
    {
        keeping_goes_on();
        self.tree.nodes()
    }
}
