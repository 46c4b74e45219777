// A census: what is counted of the living.
ghost use Rattle.std.specs.Prelude.{◌≡◌, ◌↔◌, [], IfOk, None, Ok, OnErr, OnOk, length, replicate};
ghost use Rattle.std.specs.Map.{values_of};
ghost use Rattle.std.specs.Option.{option_map};
ghost use Rattle.genome.specs.Genome.{letters};
ghost use Rattle.census.specs.Counts.{AreGenotypes, living_of, dominant_among, dominant_value};
ghost use Rattle.census.specs.Changes.{CanAdd, CanRemove, CanRenew, HasOneFewer, HasOneMore, with_renewal};

use crate::Dominant;
use crate::genotypes::{Genotypes, dominant, lower, raise};
use crate::task_counts::{lower_tasks, raise_tasks};
use avida_port::Memory;
use genome::Genome;
use logic_tasks::{TASK_COUNT, Tasks};
use std::alloc::Global;
use std::collections::HashMap;
use std::marker::Model;
use std::sync::Arc;

/// What is counted of the living: how many have each genome, the sum of their merits, and how many
/// have each task.
///
/// A genome is counted under a key, a number that the caller gives to it and to no other.
#[derive(Drop)]
pub struct Census {
    living: u64,
    merit: u64,
    tasks: [u64; TASK_COUNT],
    genotypes: Genotypes,
}

impl Model for Census {
    ghost use Rattle.std.specs.Prelude.{◌≡◌};
    ghost use Rattle.census.specs.Counts.{Counts, AreGenotypes, living_of};

    ghost Value = { Counts };

    ghost view = { λ c. record {
      genotypes = c.genotypes.entries;
      merit = c.merit;
      tasks = c.tasks;
    } };

    ghost invariant = { λ c. AreGenotypes c.genotypes.entries
        × (c.living ≡ living_of c.genotypes.entries) };
}

impl Census {
    /// Nothing is counted. It takes no memory.
    pub fn start(alloc: Global) -> Census
        ensures { result ≡ record { genotypes = []; merit = 0; tasks = replicate 9 0 } }
    {
        Census {
            living: 0,
            merit: 0,
            tasks: [0; TASK_COUNT],
            genotypes: HashMap::new(alloc),
        }
    }

    /// Counts one organism more. If memory runs out, nothing changes.
    pub fn add(
        &mut self,
        key: u64,
        genome: &Arc<Genome, Global>,
        merit: u64,
        credited: Tasks,
    ) -> Result<(), Memory>
        requires { CanAdd self.old key (letters genome.now.value) merit }
        ensures ok { OnOk result
            (HasOneMore self.old self.new key (letters genome.now.value) merit credited) }
        ensures err { OnErr result (self.new ≡ self.old) }
    {
        raise(&mut self.genotypes, key, genome)?;
        self.living += 1;
        self.merit += merit;
        raise_tasks(&mut self.tasks, credited);
        Ok(())
    }

    /// Counts one organism fewer. It takes no memory.
    pub fn remove(&mut self, key: u64, merit: u64, credited: Tasks)
        requires { CanRemove self.old key merit credited }
        ensures { HasOneFewer self.old self.new key merit credited }
    {
        lower(&mut self.genotypes, key);
        self.living -= 1;
        self.merit -= merit;
        lower_tasks(&mut self.tasks, credited);
    }

    /// An organism that is counted has another merit and credited set. It takes no memory.
    pub fn renew(&mut self, merit: u64, credited: Tasks, next_merit: u64, next_credited: Tasks)
        requires { CanRenew self.old merit credited next_merit }
        ensures { self.new ≡ with_renewal self.old merit credited next_merit next_credited }
    {
        self.merit = self.merit - merit + next_merit;
        lower_tasks(&mut self.tasks, credited);
        raise_tasks(&mut self.tasks, next_credited);
    }

    /// How many organisms are counted.
    pub fn living(&self) -> u64
        ensures { result ≡ living_of self.now.genotypes }
    {
        self.living
    }

    /// How many different genomes the counted organisms have.
    pub fn genotypes(&self) -> u64
        ensures count { result ≡ length self.now.genotypes }
        ensures genotypes { AreGenotypes self.now.genotypes }
    {
        self.genotypes.len() as u64
    }

    /// The sum of the merits.
    pub fn merit(&self) -> u64
        ensures { result ≡ self.now.merit }
    {
        self.merit
    }

    /// How many organisms have each task, in the order of the table.
    pub fn tasks(&self) -> [u64; TASK_COUNT]
        ensures { result ≡ self.now.tasks }
    {
        self.tasks
    }

    /// The genome that most organisms have, and of equally frequent ones the least in the order of
    /// its letters.
    pub fn dominant(&self) -> Result<Option<Dominant>, Memory>
        ensures dominant { IfOk result (λ found. option_map dominant_value found
            ≡ dominant_among (values_of self.now.genotypes)) }
        ensures none { (result ≡ Ok None) ↔ (self.now.genotypes ≡ []) }
        ensures genotypes { AreGenotypes self.now.genotypes }
    {
        match dominant(&self.genotypes) {
            Some(genotype) => Ok(Some(genotype.dominant()?)),
            None => Ok(None),
        }
    }
}
