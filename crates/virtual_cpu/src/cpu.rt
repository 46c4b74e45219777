// The machine: its parts, and the few ways in which an instruction changes them.
ghost use Rattle.std.specs.Prelude.{◌≡◌, ◌-◌, ◌*◌, ◌<◌, ◌≤◌, IfOk, OnErr, OnOk, [], ◌∷◌, length, true, false};
ghost use Rattle.virtual_cpu.specs.Prelude.{Letter, letters};
ghost use Rattle.virtual_cpu.specs.Parts.{value_of, head_place, pushed, popped, top_of};
ghost use Rattle.virtual_cpu.specs.Machine.{letter_in_memory, IsMachine, fresh_machine, letter_under_ip, place_after, place_of_number, with_ip_marked, with_ip_advanced, with_head_at, with_flow_at, with_value};
ghost use Rattle.virtual_cpu.specs.View.{image_of, machine_of_image};
ghost use Rattle.virtual_cpu.specs.RegisterEffects.{active_stack, with_active_stack};
ghost use Rattle.virtual_cpu.specs.Replication.{after_h_copy, can_allocate, with_allocation, parent_part};

use crate::cpu_image::{CpuImage, Letters, Marks};
use crate::heads::{Head, Heads};
use crate::places::{place_after, place_of_number};
use crate::registers::{Register, Registers};
use crate::sites::Sites;
use crate::stack::Stack;
use avida_port::Memory;
use genome::Genome;
use instruction_set::Letter;
use label_search::Template;
use std::alloc::Global;
use std::marker::Model;

/// A machine that steps through its own memory.
#[derive(Drop)]
pub struct Cpu {
    // What most steps touch comes first, in 56 bytes.
    pub(crate) sites: Sites,
    pub(crate) heads: Heads,
    registers: Registers,
    pub(crate) nops: Template,
    birth_length: u32,
    limit: u32,
    stacks: [Stack; 2],
    active: u8,
    pub(crate) pending: bool,
}

impl Model for Cpu {
    ghost use Rattle.virtual_cpu.specs.Machine.{Machine};

    ghost Value = { Machine };

    ghost use Rattle.virtual_cpu.specs.View.{machine_view, IsMachineWithRoom};

    ghost view = { machine_view };

    ghost invariant = { IsMachineWithRoom };
}

impl Cpu {
    /// A machine at its start. It reserves all the memory that it can grow to, so no step
    /// allocates.
    pub fn new(alloc: Global, genome: &Genome, memory_limit: u32) -> Result<Cpu, Memory>
        requires genome_within { length (letters genome.now) ≤ memory_limit }
        requires greatest { memory_limit ≤ 8192 }
        ensures { IfOk result (λ cpu. let text = letters genome.now in
            cpu ≡ fresh_machine text (length text) memory_limit) }
    {
        let birth_length = genome.len();
        let room = (6 * birth_length as usize).min(memory_limit as usize);
        let sites = Sites::fresh(alloc, genome.letters(), room)?;
        Ok(Cpu {
            sites,
            heads: Heads::default(),
            registers: Registers::default(),
            nops: Template::none(),
            birth_length,
            limit: memory_limit,
            stacks: [Stack::new(), Stack::new()],
            active: 0,
            pending: false,
        })
    }

    /// The machine with an image's values, made for this genome's length and under this limit.
    pub fn from_image(
        alloc: Global,
        image: &CpuImage,
        genome: &Genome,
        memory_limit: u32,
    ) -> Result<Cpu, Memory>
        requires { IsMachine
            (machine_of_image image.now (length (letters genome.now)) memory_limit) }
        ensures { IfOk result (λ cpu. cpu ≡
            machine_of_image image.now (length (letters genome.now)) memory_limit) }
    {
        let birth_length = genome.len();
        let room = (6 * birth_length as usize).min(memory_limit as usize);
        let sites = Sites::of_lists(
            alloc,
            image.memory.as_slice(),
            image.clean.as_slice(),
            image.executed.as_slice(),
            image.copied.as_slice(),
            room,
        )?;
        Ok(Cpu {
            sites,
            heads: Heads::of(image.heads),
            registers: Registers::of(image.registers),
            nops: image.nops.copy(),
            birth_length,
            limit: memory_limit,
            stacks: [Stack::of(image.first), Stack::of(image.second)],
            active: image.active,
            pending: image.pending,
        })
    }

    /// The machine's values.
    pub fn image(&self, alloc: Global) -> Result<CpuImage, Memory>
        ensures image { IfOk result (λ image. image ≡ image_of self.now) }
        ensures machine { IsMachine self.now }
    {
        let memory = Letters::from_vec(self.sites.all_letters(alloc)?);
        let clean = Letters::from_vec(self.sites.all_clean(alloc)?);
        let executed = Marks::from_vec(self.sites.all_executed(alloc)?);
        let copied = Marks::from_vec(self.sites.all_copied(alloc)?);
        Ok(CpuImage {
            registers: self.registers(),
            active: self.active,
            heads: self.heads.places(),
            pending: self.pending,
            nops: self.nops.copy(),
            first: self.stacks[0].numbers(),
            second: self.stacks[1].numbers(),
            memory,
            clean,
            executed,
            copied,
        })
    }

    /// Cuts memory to its first `keep` letters and restarts the machine on them.
    pub fn reset(&mut self, keep: u32)
        requires least { 8 ≤ keep }
        requires within { keep ≤ length self.old.memory }
        requires twice_birth { keep ≤ 2 * self.old.birth_length }
        ensures { let kept = parent_part self.old.memory keep in
            self.new ≡ fresh_machine kept self.old.birth_length self.old.limit }
    {
        self.rewind();
        self.sites.reset(keep as usize);
        self.pending = false;
    }

    /// Registers, stacks, heads and nops are as at the start.
    #[inline(always)]
    fn rewind(&mut self)
        ensures { let start = fresh_machine [] 0 0 in
            self.new ≡ record self.old {
              registers = start.registers;
              stacks = start.stacks;
              active = start.active;
              heads = start.heads;
              nops = start.nops;
            } }
    {
        self.registers = Registers::default();
        let stacks = [Stack::new(), Stack::new()];
        self.stacks = stacks;
        self.active = 0;
        self.heads = Heads::default();
        self.nops = Template::none();
    }

    /// The machine is one at its start for this genome, in the memory that it has where that
    /// suffices. If memory runs out, nothing changes.
    pub fn restart(
        &mut self,
        alloc: Global,
        genome: &Genome,
        memory_limit: u32,
    ) -> Result<(), Memory>
        requires genome_within { length (letters genome.now) ≤ memory_limit }
        requires greatest { memory_limit ≤ 8192 }
        ensures ok { OnOk result (let text = letters genome.now in
            self.new ≡ fresh_machine text (length text) memory_limit) }
        ensures err { OnErr result (self.new ≡ self.old) }
    {
        if genome.len() > self.birth_length || memory_limit != self.limit {
            *self = Cpu::new(alloc, genome, memory_limit)?;
        } else {
            self.begin(genome);
        }
        Ok(())
    }

    /// The machine begins anew on a genome, for which it has memory.
    fn begin(&mut self, genome: &Genome)
        requires { length (letters genome.now) ≤ self.old.birth_length }
        ensures { let text = letters genome.now in
            self.new ≡ fresh_machine text (length text) self.old.limit }
    {
        let birth_length = genome.len();
        self.rewind();
        self.sites.begin(genome.letters());
        self.pending = false;
        self.birth_length = birth_length;
    }

    /// The letter under IP.
    #[inline(always)]
    pub fn next(&self) -> Letter
        ensures { result ≡ letter_under_ip self.now }
    {
        self.sites.letter(self.heads.ip as usize)
    }

    /// The letters under IP, READ and WRITE.
    #[inline(always)]
    pub fn letters_under_heads(&self) -> [Letter; 3]
        ensures { let m = self.now in result ≡ letter_in_memory m m.heads.ip
            ∷ letter_in_memory m m.heads.read ∷ letter_in_memory m m.heads.write ∷ [] }
    {
        let Heads {
            ip,
            read,
            write,
            ..
        } = self.heads;
        [
            self.sites.letter(ip as usize),
            self.sites.letter(read as usize),
            self.sites.letter(write as usize),
        ]
    }

    /// The place of IP.
    pub fn place(&self) -> u32
        ensures { result ≡ self.now.heads.ip }
    {
        self.heads.ip
    }

    /// AX, BX and CX.
    pub fn registers(&self) -> [i32; 3]
        ensures { result
            ≡ self.now.registers.ax ∷ self.now.registers.bx ∷ self.now.registers.cx ∷ [] }
    {
        [self.registers.ax, self.registers.bx, self.registers.cx]
    }

    /// The length of the genome that the machine was made for.
    pub fn birth_length(&self) -> u32
        ensures { result ≡ self.now.birth_length }
    {
        self.birth_length
    }

    /// The length of memory.
    pub fn length(&self) -> u32
        ensures value { result ≡ length self.now.memory }
        ensures machine { IsMachine self.now }
    {
        self.sites.len() as u32
    }

    #[inline(always)]
    pub(crate) fn mark_executed(&mut self)
        ensures { self.new ≡ with_ip_marked self.old }
    {
        self.sites.mark_executed(self.heads.ip as usize);
    }

    #[inline(always)]
    pub(crate) fn advance(&mut self)
        ensures { self.new ≡ with_ip_advanced self.old }
    {
        self.heads.ip = place_after(self.heads.ip, self.sites.len());
    }

    #[inline(always)]
    pub(crate) fn head(&self, head: Head) -> u32
        ensures place { result ≡ head_place self.now.heads head }
        ensures within { result < 8192 }
    {
        self.heads.get(head)
    }

    /// Moves a head to the place of a number, by floor modulo.
    #[inline(always)]
    pub(crate) fn move_head(&mut self, head: Head, number: i64)
        ensures { self.new ≡ with_head_at self.old head (place_of_number self.old number) }
    {
        let place = place_of_number(number, self.sites.len());
        self.heads.set(head, place);
    }

    #[inline(always)]
    pub(crate) fn move_head_to_flow(&mut self, head: Head)
        ensures { self.new ≡ with_head_at self.old head self.old.heads.flow }
    {
        let flow = self.heads.flow;
        self.heads.set(head, flow);
    }

    /// Moves FLOW to the place of a number, by floor modulo.
    #[inline(always)]
    pub(crate) fn move_flow(&mut self, number: i64)
        ensures { self.new ≡ with_flow_at self.old (place_of_number self.old number) }
    {
        self.heads.flow = place_of_number(number, self.sites.len());
    }

    /// Moves FLOW to a place.
    #[inline(always)]
    pub(crate) fn move_flow_to(&mut self, place: u32)
        requires { place < length self.old.memory }
        ensures { self.new ≡ with_flow_at self.old place }
    {
        self.heads.flow = place;
    }

    #[inline(always)]
    pub(crate) fn place_after_ip(&self) -> u32
        ensures place { result ≡ place_after self.now self.now.heads.ip }
        ensures within { result < length self.now.memory }
    {
        place_after(self.heads.ip, self.sites.len())
    }

    #[inline(always)]
    pub(crate) fn memory_length(&self) -> usize
        ensures value { result ≡ length self.now.memory }
        ensures machine { IsMachine self.now }
    {
        self.sites.len()
    }

    #[inline(always)]
    pub(crate) fn register(&self, register: Register) -> i32
        ensures { result ≡ value_of self.now.registers register }
    {
        self.registers.get(register)
    }

    #[inline(always)]
    pub(crate) fn set_register(&mut self, register: Register, value: i32)
        ensures { self.new ≡ with_value self.old register value }
    {
        self.registers.set(register, value);
    }

    #[inline(always)]
    pub(crate) fn push_number(&mut self, number: i32)
        ensures { self.new ≡ with_active_stack self.old (pushed number (active_stack self.old)) }
    {
        let active = &mut self.stacks[self.active as usize];
        active.push(number);
    }

    #[inline(always)]
    pub(crate) fn pop_number(&mut self) -> i32
        ensures top { result ≡ top_of (active_stack self.old) }
        ensures rest { self.new ≡ with_active_stack self.old (popped (active_stack self.old)) }
    {
        let active = &mut self.stacks[self.active as usize];
        active.pop()
    }

    #[inline(always)]
    pub(crate) fn swap_stacks(&mut self)
        ensures { self.new ≡ record self.old { active = 1 - self.old.active } }
    {
        self.active = 1 - self.active;
    }

    /// Copies the letter at READ, or the letter of a copy error, to WRITE.
    #[inline(always)]
    #[tactic(auto, unfolding(crate::specs::Replication::after_h_copy))]
    pub(crate) fn copy_letter(&mut self, copy: Option<Letter>)
        ensures { self.new ≡ after_h_copy self.old copy }
    {
        let from = self.heads.read;
        let to = self.heads.write;
        let read = self.sites.letter(from as usize);
        self.nops.note(read);
        self.sites.copy(to as usize, copy.unwrap_or(read), read);
        self.heads.read = place_after(from, self.sites.len());
        self.heads.write = place_after(to, self.sites.len());
    }

    /// Whether no allocation is pending and memory is below its limit.
    pub(crate) fn can_allocate(&self) -> bool
        ensures { result ≡ can_allocate self.now }
    {
        !self.pending && self.sites.len() < self.limit as usize
    }

    #[inline(never)]
    #[tactic(auto, unfolding(crate::specs::Replication::with_allocation))]
    pub(crate) fn allocate(&mut self)
        requires { can_allocate self.old ≡ true }
        ensures { self.new ≡ with_allocation self.old }
    {
        let length = self.sites.len();
        let extra = (2 * length).min(self.limit as usize - length);
        self.sites.append(extra);
        self.registers.ax = length as i32;
        self.pending = true;
    }
}
