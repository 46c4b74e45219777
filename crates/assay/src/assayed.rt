use avida_port::Items;
use genome::Genome;
use std::marker::Model;
use world_core::Stats;

/// What became of a seed's run.
#[derive(Drop)]
pub struct Assay {
    pub seed: u64,
    /// The births of all updates.
    pub births: u128,
    /// The deaths of all updates, those by events among them.
    pub deaths: u128,
    /// What is counted after the last update.
    pub last: Stats,
    /// The genome that most of the living have after the last update. None exactly if the world is
    /// empty.
    pub dominant: Option<Genome>,
}

impl Model for Assay {
    ghost use Rattle.std.specs.Prelude.{option_map};
    ghost use Rattle.genome.specs.Genome.{letters};
    ghost use Rattle.assay.specs.Assay.{AssayValue};

    ghost Value = { AssayValue };

    ghost view = { λ a. record {
      seed = a.seed;
      births = a.births;
      deaths = a.deaths;
      last = a.last;
      dominant = option_map letters a.dominant;
    } };
}

/// The runs of several seeds, in order of the seeds.
pub type Assays = Items<Assay>;
