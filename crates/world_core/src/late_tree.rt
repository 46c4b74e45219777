// The tree of a world, which may be one update behind.
ghost use Rattle.std.specs.Prelude.{IfOk};
ghost use Rattle.world_core.specs.Prelude.{values_of, world_after, IsTreeOf};
ghost use Rattle.world_core.specs.LateTrees.{IsLateTreeOf};

use avida_port::Memory;
use lineage_log::Ancestor;
use world_config::Config;
use world_tree::WorldTree;

/// The tree of a world, or that of the world one update before.
#[derive(Drop)]
pub(crate) enum LateTree {
    Grown {
        tree: WorldTree,
    },
    /// Beside it are those who came in the last update, and the ids of those who died in it.
    Behind {
        tree: WorldTree,
        newcomers: Vec<Ancestor>,
        gone: Vec<u64>,
    },
}

impl LateTree {
    /// The tree of the world after so many updates.
    pub(crate) fn grown(self, config: &Config, update: u32) -> Result<WorldTree, Memory>
        requires { IsLateTreeOf (values_of config.now) update self }
        ensures { IfOk result (IsTreeOf (world_after (values_of config.now) update)) }
    {
        match self {
            LateTree::Grown { tree } => Ok(tree),
            LateTree::Behind {
                mut tree,
                newcomers,
                gone,
            } => {
                tree.grow(config, update - 1, newcomers, &gone)?;
                Ok(tree)
            }
        }
    }
}
