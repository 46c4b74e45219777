use avida_port::Items;
use genome::Genome;
use mutations::Origin;
use std::marker::Model;

/// One organism of a line of descent: where it came from, and its genome at birth.
#[derive(Debug, Drop)]
pub struct Link {
    pub id: u64,
    /// None for a founder.
    pub parent: Option<u64>,
    pub update: u32,
    pub cell: u32,
    /// None for a founder.
    pub origin: Option<Origin>,
    pub genome: Genome,
}

impl Model for Link {
    ghost use Rattle.std.specs.Prelude.{option_map};
    ghost use Rattle.genome.specs.Genome.{letters};
    ghost use Rattle.mutations.specs.BirthRecord.{record_of};
    ghost use Rattle.lineage_log.specs.Ancestry.{Link};

    ghost Value = { Link };

    ghost view = { λ a. record {
      id = a.id;
      parent = a.parent;
      update = a.update;
      cell = a.cell;
      origin = option_map record_of a.origin;
      genome = letters a.genome;
    } };
}

/// A line of descent, the founder first.
pub type Path = Items<Link>;
