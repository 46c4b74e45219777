// Those that died in an update leave the tree.
ghost use Rattle.std.specs.Prelude.{◌≡◌, ◌+◌};
ghost use Rattle.world_config.specs.Values.{values_of};
ghost use Rattle.world_rules.specs.WorldRun.{world_after};
ghost use Rattle.world_tree.specs.WorldTrees.{HasBuried, IsTreeOf, scene_after};

use lineage_log::Tree;
use lineage_log::laws::keeping_goes_on;
use world_config::Config;
use world_laws::laws::organisms_come_and_go;
use world_rules::laws::ids_are_places;

/// Those that died in the update after so many leave the tree. It takes no memory.
pub(crate) fn bury_all(tree: &mut Tree, config: &Config, update: u32, gone: &[u64])
    requires tree { HasBuried (world_after (values_of config.now) update)
        (scene_after (values_of config.now) update) 0 tree.old }
    requires gone { gone.now ≡ (scene_after (values_of config.now) update).gone }
    ensures { IsTreeOf (world_after (values_of config.now) (update + 1)) tree.new }
{
    organisms_come_and_go(config, update);
    ids_are_places();
    keeping_goes_on();
    for id in gone {
        tree.died(*id);
    }
}
