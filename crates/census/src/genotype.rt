// A genome and its count.
ghost use Rattle.std.specs.Prelude.{◌≡◌, ◌+◌, ◌-◌, ◌<◌, ◌^◌, IfOk};
ghost use Rattle.genome.specs.Genome.{letters};
ghost use Rattle.census.specs.Counts.{outranks, dominant_value};

use crate::Dominant;
use avida_port::Memory;
use genome::Genome;
use std::alloc::Global;
use std::marker::Model;
use std::sync::Arc;

/// A genome, and how many of the counted organisms have it.
#[derive(Drop)]
pub(crate) struct Genotype {
    genome: Arc<Genome, Global>,
    count: u64,
}

impl Model for Genotype {
    ghost use Rattle.genome.specs.Genome.{letters};
    ghost use Rattle.census.specs.Counts.{GenotypeCount};

    ghost Value = { GenotypeCount };

    ghost view = { λ g. record { genome = letters g.genome.value; count = g.count } };
}

impl Genotype {
    pub(crate) fn new(genome: Arc<Genome, Global>, count: u64) -> Genotype
        ensures { result ≡ record { genome = letters genome.value; count = count } }
    {
        Genotype { genome, count }
    }

    pub(crate) fn count(&self) -> u64
        ensures { result ≡ self.now.count }
    {
        self.count
    }

    /// One organism more has the genome.
    pub(crate) fn raise(&mut self)
        requires { self.old.count < 2 ^ 32 }
        ensures { self.new ≡ record { genome = self.old.genome; count = self.old.count + 1 } }
    {
        self.count += 1;
    }

    /// One organism fewer has the genome.
    pub(crate) fn lower(&mut self)
        requires { 0 < self.old.count }
        ensures { self.new ≡ record { genome = self.old.genome; count = self.old.count - 1 } }
    {
        self.count -= 1;
    }

    /// More organisms have this genome, or as many and its letters come first.
    pub(crate) fn outranks(&self, other: &Genotype) -> bool
        ensures { result ≡ outranks self.now other.now }
    {
        let by_count = other.count.cmp(&self.count);
        by_count.then(self.genome.cmp(&other.genome)).is_lt()
    }

    /// The genome and its count, to be shown.
    pub(crate) fn dominant(&self) -> Result<Dominant, Memory>
        ensures { IfOk result (λ dominant. dominant_value dominant ≡ self.now) }
    {
        Ok(Dominant {
            count: self.count,
            genome: Arc::try_clone(&self.genome)?,
        })
    }
}
