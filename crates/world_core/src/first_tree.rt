// The tree of a new world.
ghost use Rattle.std.specs.Prelude.{◌≡◌, IfOk, OnOk, length};
ghost use Rattle.world_core.specs.Prelude.{values_of, world_of, world_after, IsTreeOf};
ghost use Rattle.world_core.specs.Scenes.{scene_in};

use crate::scene::Scene;
use avida_port::Memory;
use std::alloc::Global;
use std::sync::Arc;
use world_config::Config;
use world_tree::WorldTree;

/// The tree of the world of update 0. The scene's founder leaves the list of the latest. After
/// `Memory` drop the scene.
#[tactic(auto, unfolding(world_rules::specs::WorldRun::world_after, world_rules::specs::World::first_world))]
pub(crate) fn first_tree(
    alloc: Global,
    config: &Arc<Config, Global>,
    scene: &mut Scene,
) -> Result<WorldTree, Memory>
    requires world { world_of (scene_in scene.old)
        ≡ world_after (values_of config.now.value) 0 }
    requires first { scene.old.first ≡ 0 }
    ensures scene { OnOk result
        (scene.new ≡ record scene.old { first = length scene.old.everyone }) }
    ensures tree { IfOk result
        (λ tree. IsTreeOf (world_after (values_of config.now.value) 0) tree) }
{
    let mut founders = scene.take_newcomers(alloc, config)?;
    match founders.pop() {
        Some(founder) => WorldTree::found(alloc, config, founder.genome),
        None => unreachable!(),
    }
}
