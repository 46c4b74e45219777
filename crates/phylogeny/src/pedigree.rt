// The parents of a log's organisms, and who lives at its end.
ghost use Rattle.std.specs.Prelude.{◌≡◌, ◌++◌, [], IfOk, OnOk, slice_set};
ghost use Rattle.log_lines.specs.Line.{line_values};
ghost use Rattle.phylogeny.specs.TreeText.{pedigree_of};
ghost use Rattle.phylogeny.specs.Slots.{IsPedigree, newcomer_parent, parents_in, pedigree_with, standing_after, standing_on};

use avida_port::Memory;
use lineage_log::{Log, LogLine};
use std::alloc::Global;

/// The parent of each organism ever, by id, and the organism in each cell.
#[derive(Drop)]
pub struct Pedigree {
    pub parents: Vec<Option<u64>>,
    pub standing: Vec<Option<u64>>,
}

/// The pedigree that a log tells.
pub fn read_pedigree(alloc: Global, log: &Log) -> Result<Pedigree, Memory>
    ensures told { IfOk result
        (λ p. pedigree_with p.parents.items p.standing.items ≡ pedigree_of log.now) }
    ensures sound { IfOk result (λ p. IsPedigree p.parents.items p.standing.items) }
{
    log.is_good();
    tell_all(alloc, log)
}

fn tell_all(alloc: Global, log: &Log) -> Result<Pedigree, Memory>
    ensures parents { IfOk result (λ p. p.parents.items ≡ parents_in log.now) }
    ensures standing { IfOk result (λ p. p.standing.items ≡ standing_after [] log.now) }
{
    let mut pedigree = Pedigree {
        parents: Vec::new(alloc),
        standing: Vec::new(alloc),
    };
    for at in 0..log.len() {
        if let Some(line) = log.get(at) {
            pedigree.tell(alloc, line)?;
        }
    }
    Ok(pedigree)
}

impl Pedigree {
    /// One line more.
    fn tell(&mut self, alloc: Global, line: &LogLine) -> Result<(), Memory>
        ensures parents { OnOk result (self.new.parents.items
            ≡ self.old.parents.items ++ newcomer_parent (line_values line.now)) }
        ensures standing { OnOk result (self.new.standing.items
            ≡ standing_on self.old.standing.items (line_values line.now)) }
    {
        match line {
            LogLine::Start {
                width,
                height,
                cell,
                ..
            } => {
                let cells = u64::from(*width) * u64::from(*height);
                self.standing = vec![in alloc; None; cells as usize]?;
                set(&mut self.standing, *cell, Some(0));
                self.parents.push(None)?;
            }
            LogLine::Birth {
                id,
                parent,
                cell,
                ..
            } => {
                set(&mut self.standing, *cell, Some(*id));
                self.parents.push(Some(*parent))?;
            }
            LogLine::Injected { id, cell, .. } => {
                set(&mut self.standing, *cell, Some(*id));
                self.parents.push(None)?;
            }
            LogLine::Death { cell, .. } | LogLine::Cleared { cell, .. } => {
                set(&mut self.standing, *cell, None);
            }
            LogLine::Rate { .. } | LogLine::Count(_) | LogLine::End { .. } => {}
        }
        Ok(())
    }
}

fn set(standing: &mut [Option<u64>], cell: u32, slot: Option<u64>)
    ensures { standing.new ≡ slice_set standing.old cell slot }
{
    let place = cell as usize;
    if place < standing.len() {
        standing[place] = slot;
    }
}
