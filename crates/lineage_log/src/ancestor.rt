use genome::Genome;
use mutations::Origin;
use std::alloc::Global;
use std::marker::Model;
use std::sync::Arc;

/// How an organism came: its parent and its record of birth, both None for a founder, and the
/// update and the cell.
#[derive(Drop)]
pub struct Provenance {
    pub parent: Option<u64>,
    pub origin: Option<Origin>,
    pub update: u32,
    pub cell: u32,
}

/// One organism, as it comes into a tree: its id, how it came, and its genome at birth, which may
/// be shared.
#[derive(Drop)]
pub struct Ancestor {
    pub id: u64,
    pub came: Provenance,
    pub genome: Arc<Genome, Global>,
}

impl Model for Ancestor {
    ghost use Rattle.std.specs.Prelude.{option_map};
    ghost use Rattle.lineage_log.specs.Prelude.{letters, record_of};
    ghost use Rattle.lineage_log.specs.Ancestry.{Link};

    ghost Value = { Link };

    ghost view = { λ a. record {
      id = a.id;
      parent = a.came.parent;
      update = a.came.update;
      cell = a.came.cell;
      origin = option_map record_of a.came.origin;
      genome = letters a.genome.value;
    } };
}
