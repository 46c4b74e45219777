use avida_port::Items;
use genome::Genome;
use std::marker::Model;

/// An organism that is alive at the end of a log, with its cell.
#[derive(Debug, Drop)]
pub struct Living {
    pub cell: u32,
    pub id: u64,
    pub genome: Genome,
}

impl Model for Living {
    ghost use Rattle.genome.specs.Genome.{letters};
    ghost use Rattle.lineage_log.specs.Replay.{Resident};

    ghost Value = { Resident };

    ghost view = { λ a. record { cell = a.cell; id = a.id; genome = letters a.genome } };
}

/// The organisms alive at the end of a log, in order of cells.
pub type Livings = Items<Living>;
