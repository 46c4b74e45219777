// An organism alone, as a trace runs it.
ghost use Rattle.std.specs.Prelude.{◌≡◌, IfOk};
ghost use Rattle.genome.specs.Genome.{letters};
ghost use Rattle.organism.specs.TracedStep.{trace_greatest};
ghost use Rattle.landscape.specs.Trials.{organism_alone, traced_organism};

use avida_port::Memory;
use genome::{GREATEST_LENGTH, Genome};
use logic_tasks::{Inputs, Tasks};
use organism::{Organism, TRACE_LENGTH};
use std::alloc::Global;
use std::sync::Arc;

/// The memory limit of a trace, which is the greatest length in it, by the length of its genome.
fn trace_limit(genome_length: u32) -> u32
    ensures { result ≡ trace_greatest genome_length }
{
    if genome_length <= TRACE_LENGTH {
        TRACE_LENGTH
    } else {
        GREATEST_LENGTH
    }
}

/// The organism that a trace of this genome with these inputs begins with.
#[tactic(auto, unfolding(organism::specs::OrganismState::new_organism))]
pub fn organism_alone(alloc: Global, genome: Genome, inputs: Inputs) -> Result<Organism, Memory>
    ensures founded { IfOk result (λ organism. organism
        ≡ organism_alone (letters genome) inputs) }
    ensures age { IfOk result (λ organism. organism.age ≡ 0) }
{
    let len = genome.len();
    let genome = Arc::new(alloc, genome)?;
    let merit = u64::from(len);
    let limit = trace_limit(len);
    Organism::found(alloc, genome, inputs, merit, Tasks::none(), limit)
}

/// The organism that a trace of this genome begins with where no inputs are given.
pub(crate) fn traced_organism(alloc: Global, genome: Genome) -> Result<Organism, Memory>
    ensures founded { IfOk result (λ organism. organism ≡ traced_organism (letters genome)) }
    ensures age { IfOk result (λ organism. organism.age ≡ 0) }
{
    let inputs = Inputs::of([0x0F0F_0F0F, 0x3333_3333, 0x5555_5555]);
    organism_alone(alloc, genome, inputs)
}
