// Those that come in an update enter the tree.
ghost use Rattle.std.specs.Prelude.{◌≡◌, OnOk};
ghost use Rattle.world_config.specs.Values.{values_of};
ghost use Rattle.world_rules.specs.WorldRun.{world_after};
ghost use Rattle.world_tree.specs.WorldTrees.{HasBuried, IsTreeOf, newcomers_of, scene_after};

use avida_port::Memory;
use lineage_log::laws::keeping_goes_on;
use lineage_log::{Ancestor, Tree};
use world_config::Config;
use world_laws::laws::organisms_come_and_go;
use world_rules::laws::ids_are_places;

/// Those that come in the update after so many enter the tree, before any of the dead leave it.
pub(crate) fn enter_all(
    tree: &mut Tree,
    config: &Config,
    update: u32,
    newcomers: Vec<Ancestor>,
) -> Result<(), Memory>
    requires tree { IsTreeOf (world_after (values_of config.now) update) tree.old }
    requires newcomers { newcomers.items ≡ newcomers_of (values_of config.now) update }
    ensures { OnOk result (HasBuried (world_after (values_of config.now) update)
        (scene_after (values_of config.now) update) 0 tree.new) }
{
    organisms_come_and_go(config, update);
    ids_are_places();
    keeping_goes_on();
    for newcomer in newcomers {
        tree.enter(newcomer)?;
    }
    Ok(())
}
