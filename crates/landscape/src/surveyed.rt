use crate::entry::Entries;
use crate::first_divide::Trial;
use std::marker::Model;

/// The trials of a genome, and of all genomes that differ from it in one letter.
#[derive(Debug, Drop)]
pub struct Survey {
    /// The genome itself. None where no divide is viable.
    pub base: Option<Trial>,
    pub entries: Entries,
}

impl Model for Survey {
    ghost use Rattle.landscape.specs.Landscape.{Landscape};

    ghost Value = { Landscape };

    ghost view = { λ s. record { base = s.base; entries = s.entries } };
}
