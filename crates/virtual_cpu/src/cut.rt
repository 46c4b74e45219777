// What a divide asks, and the two texts that it gives.
ghost use Rattle.std.specs.Prelude.{◌≡◌, ◌-◌, ◌≤◌, IfOk, length};
ghost use Rattle.virtual_cpu.specs.Prelude.{letters};
ghost use Rattle.virtual_cpu.specs.Replication.{divide_question, child_part};

use crate::cpu::Cpu;
use avida_port::Memory;
use divide_rules::DivideAsk;
use genome::Genome;
use instruction_set::Letter;
use std::alloc::Global;

/// The two texts of a child's part.
#[derive(Debug, Drop)]
pub struct Cut {
    pub clean: Genome,
    pub written: Genome,
}

impl Cpu {
    /// Copies the child's part of the clean text and of memory.
    pub fn cut(&self, alloc: Global, ask: &DivideAsk) -> Result<Cut, Memory>
        requires least { 8 ≤ ask.now.end - ask.now.read }
        requires within { ask.now.end ≤ length self.now.memory }
        ensures clean { IfOk result (λ cut. letters cut.clean ≡
            child_part self.now.clean ask.now.read ask.now.end) }
        ensures written { IfOk result (λ cut. letters cut.written ≡
            child_part self.now.memory ask.now.read ask.now.end) }
    {
        let read = ask.read as usize;
        let end = ask.end as usize;
        let clean = genome_of(alloc, self.sites.clean(alloc, read, end)?)?;
        let written = genome_of(alloc, self.sites.letters(alloc, read, end)?)?;
        Ok(Cut { clean, written })
    }

    /// What a divide asks of the rules.
    #[tactic(auto, unfolding(crate::specs::Replication::divide_question))]
    pub(crate) fn question(&self) -> DivideAsk
        ensures { result ≡ divide_question self.now }
    {
        let read = self.heads.read as usize;
        let end = if self.heads.write == 0 {
            self.sites.len()
        } else {
            self.heads.write as usize
        };
        let executed = self.sites.count_executed(read);
        let copied = if read < end {
            self.sites.count_copied(read, end)
        } else {
            0
        };
        DivideAsk {
            allocated: self.pending,
            read: read as u32,
            end: end as u32,
            executed: executed as u32,
            copied: copied as u32,
        }
    }
}

/// The genome of a list of letters, whose length is that of a genome.
fn genome_of(alloc: Global, text: Vec<Letter>) -> Result<Genome, Memory>
    ensures { IfOk result (λ genome. letters genome ≡ text.items) }
{
    Genome::from_letters(alloc, text.as_slice()).map_err(|_| Memory)
}
