// The genotypes by their keys.
ghost use Rattle.std.specs.Prelude.{◌≡◌, ◌+◌, ◌<◌, ◌^◌, ℕ, IsSome, OnErr, OnOk, Some};
ghost use Rattle.std.specs.HashMap.{values};
ghost use Rattle.std.specs.List.{best_of};
ghost use Rattle.std.specs.Option.{option_copied};
ghost use Rattle.genome.specs.Genome.{letters};
ghost use Rattle.census.specs.Counts.{GenotypeCount, AreGenotypes, genotype_at, living_of, outranks, dominant_among};
ghost use Rattle.census.specs.Changes.{genotype_with_one, genotype_without_one};

use crate::genotype::Genotype;
use avida_port::Memory;
use genome::Genome;
use std::alloc::Global;
use std::collections::HashMap;
use std::collections::hash_map::{Entry, Values};
use std::sync::Arc;

pub(crate) type Genotypes = HashMap<u64, Genotype>;

/// Counts one organism more. If memory runs out, nothing changes.
pub(crate) fn raise(
    genotypes: &mut Genotypes,
    key: u64,
    genome: &Arc<Genome, Global>,
) -> Result<(), Memory>
    requires genotypes { AreGenotypes genotypes.old.entries }
    requires one_genome { (genotype : GenotypeCount)
        → genotype_at genotypes.old.entries key ≡ Some genotype
        → genotype.genome ≡ letters genome.now.value }
    requires one_key { (other : ℕ) (genotype : GenotypeCount)
        → genotype_at genotypes.old.entries other ≡ Some genotype
        → genotype.genome ≡ letters genome.now.value → other ≡ key }
    requires room { living_of genotypes.old.entries < 2 ^ 32 }
    ensures under { OnOk result ((other : ℕ) → genotype_at genotypes.new.entries other
        ≡ genotype_with_one genotypes.old.entries key (letters genome.now.value) other) }
    ensures living { OnOk result (living_of genotypes.new.entries
        ≡ living_of genotypes.old.entries + 1) }
    ensures err { OnErr result (genotypes.new.entries ≡ genotypes.old.entries) }
    ensures genotypes { AreGenotypes genotypes.new.entries }
{
    match genotypes.entry(key)? {
        Entry::Occupied(place) => place.into_mut().raise(),
        Entry::Vacant(place) => {
            let genome = Arc::try_clone(genome)?;
            place.insert(Genotype::new(genome, 1));
        }
    }
    Ok(())
}

/// Counts one organism fewer. With its last organism a genotype goes.
pub(crate) fn lower(genotypes: &mut Genotypes, key: u64)
    requires genotypes { AreGenotypes genotypes.old.entries }
    requires counted { IsSome (genotype_at genotypes.old.entries key) }
    ensures under { (other : ℕ) → genotype_at genotypes.new.entries other
        ≡ genotype_without_one genotypes.old.entries key other }
    ensures living { living_of genotypes.new.entries + 1 ≡ living_of genotypes.old.entries }
    ensures genotypes { AreGenotypes genotypes.new.entries }
{
    let Ok(Entry::Occupied(mut place)) = genotypes.entry(key) else {
        return;
    };
    let genotype = place.get_mut();
    if 1 < genotype.count() {
        genotype.lower();
    } else {
        place.remove();
    }
}

/// The genotype before which no other comes.
pub(crate) fn dominant(genotypes: &Genotypes) -> Option<&Genotype>
    ensures { option_copied result ≡ dominant_among (values genotypes.now) }
{
    let mut rest = genotypes.values();
    let first = rest.next()?;
    Some(best_of(first, rest))
}

/// The first of these before which none of the others comes.
fn best_of<'a>(first: &'a Genotype, rest: Values<'a, u64, Genotype>) -> &'a Genotype
    ensures { result.now ≡ best_of outranks first.now rest.entry }
{
    let mut best = first;
    for genotype in rest {
        if genotype.outranks(best) {
            best = genotype;
        }
    }
    best
}
