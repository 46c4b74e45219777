// What the lines of a saved world have told so far.
ghost use Rattle.std.specs.Prelude.{◌≡◌, ◌∷◌, ◌++◌, ◌*◌, ◌&&◌, ◌≤◌, [], IfOk, IsTrue, length, nat_lt};
ghost use Rattle.checkpoint.specs.Prelude.{IsMachineLine, IsOrganismLine, values_of_organism, head_values, organism_values, is_above, is_new, may_follow, may_stand, placed_of, state_of_lines, IsHead};

use crate::rules::{has_age, has_length, has_merit, may_follow};
use avida_port::Memory;
use organism::Image;
use saved_lines::{OrganismLine, Resident, StateHead};
use std::alloc::Global;
use std::collections::BTreeSet;
use std::marker::Model;
use std::sync::{Arc, Wait};
use virtual_cpu::CpuImage;
use world_core::{Residents, State};

/// The first line and the organisms of a saved world, as far as it was read.
#[derive(Drop)]
pub(crate) struct SoFar {
    head: StateHead,
    residents: Vec<Resident>,
    /// The least cell in which the next organism may stand.
    next_cell: u64,
    /// The ids of the organisms.
    ids: BTreeSet<u64>,
}

impl Model for SoFar {
    ghost use Rattle.checkpoint.specs.SoFarValue.{IsKept, SoFarValue, so_far_of};

    ghost Value = { SoFarValue };

    ghost view = { λ t. so_far_of t.head t.residents.items };

    ghost invariant = { λ t. IsKept (so_far_of t.head t.residents.items) t.next_cell t.ids };
}

impl SoFar {
    /// No organism was told yet.
    pub(crate) fn new(alloc: Global, head: StateHead) -> SoFar
        requires { IsHead (head_values head) }
        ensures { result ≡ record { head = head_values head; placed = [] } }
    {
        SoFar {
            head,
            residents: Vec::new(alloc),
            next_cell: 0,
            ids: BTreeSet::new(alloc),
        }
    }

    fn has_cell(&self, cell: u32) -> bool
        ensures { result ≡ (nat_lt cell (self.now.head.width * self.now.head.height)
            && is_above cell self.now.placed) }
    {
        let cell = u64::from(cell);
        cell < u64::from(self.head.width) * u64::from(self.head.height) && self.next_cell <= cell
    }

    fn has_id(&self, id: u64) -> bool
        ensures { result ≡ (nat_lt id self.now.head.next_id && is_new id self.now.placed) }
    {
        id < self.head.next_id && !self.ids.contains(&id)
    }

    /// The line of an organism may come.
    pub(crate) fn may_stand(&self, line: &OrganismLine) -> bool
        ensures { result ≡ may_stand self.now.head self.now.placed (values_of_organism line.now) }
    {
        let stands = self.has_cell(line.cell) && self.has_id(line.id);
        stands && has_merit(line) && has_length(&self.head, line) && has_age(&self.head, line)
    }

    /// The line of a machine may follow that of its organism.
    pub(crate) fn may_follow(&self, line: &OrganismLine, cpu: &CpuImage) -> bool
        ensures { result ≡ may_follow self.now.head (values_of_organism line.now) cpu.now }
    {
        may_follow(&self.head, line, cpu)
    }

    /// The organism of two lines stands in its cell.
    pub(crate) fn with_organism(
        self,
        alloc: Global,
        line: OrganismLine,
        cpu: CpuImage,
    ) -> Result<SoFar, Memory>
        requires stands { IsTrue (may_stand self.head self.placed (values_of_organism line)) }
        requires follows { IsTrue (may_follow self.head (values_of_organism line) cpu) }
        requires organism { IsOrganismLine (values_of_organism line) }
        requires machine { IsMachineLine cpu }
        ensures { IfOk result (λ so_far. so_far ≡ record {
          head = self.head;
          placed = self.placed ++ placed_of self.head (values_of_organism line) cpu ∷ [];
        }) }
    {
        let SoFar {
            head,
            mut residents,
            next_cell: _,
            mut ids,
        } = self;
        let next_cell = u64::from(line.cell) + 1;
        ids.insert(line.id)?;
        residents.push(resident_of(alloc, line, cpu)?)?;
        Ok(SoFar {
            head,
            residents,
            next_cell,
            ids,
        })
    }

    /// The world of what was told. It may wait, since it interns the genomes of the organisms.
    pub(crate) fn into_state<R: Wait>(
        self,
        rt: &R,
        alloc: Global,
        workers: u32,
    ) -> Result<State, Memory>
        requires { (1 ≤ workers) × (workers ≤ 64) }
        ensures { IfOk result (λ state. state ≡ state_of_lines self.head self.placed) }
    {
        let SoFar {
            head,
            residents,
            ..
        } = self;
        State::build(rt, alloc, head, Residents::from_vec(residents), workers)
    }

    /// How many organisms there are.
    pub(crate) fn len(&self) -> usize
        ensures { result ≡ length self.now.placed }
    {
        self.residents.len()
    }
}

/// The organism of two lines.
fn resident_of(alloc: Global, line: OrganismLine, cpu: CpuImage) -> Result<Resident, Memory>
    ensures organism { IfOk result (λ resident. organism_values resident
        ≡ values_of_organism line) }
    ensures cpu { IfOk result (λ resident. resident.image.cpu ≡ cpu) }
{
    let genome = Arc::new(alloc, line.genome)?;
    Ok(Resident {
        cell: line.cell,
        id: line.id,
        image: Image {
            merit: line.merit,
            credited: line.credited,
            age: line.age,
            read: line.read,
            gestation: line.gestation,
            inputs: line.inputs,
            genome,
            cpu,
        },
    })
}
