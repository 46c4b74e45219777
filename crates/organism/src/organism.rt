// An organism: its genome, its machine, and what it has done since its birth or its last viable
// divide.
ghost use Rattle.std.specs.Prelude.{◌≡◌, ◌≢◌, ◌+◌, ◌*◌, ◌-◌, ◌<◌, ◌≤◌, ◌^◌, IfOk, OnErr, OnOk, length};
ghost use Rattle.organism.specs.Prelude.{RuleNumbers, rule_numbers, HDivide, Io, letters, image_of, IsMachine, letter_under_ip, with_ip_marked, AsksOf, divide_question};
ghost use Rattle.organism.specs.OrganismState.{new_organism, IsOrganism, organism_of_image};
ghost use Rattle.organism.specs.Life.{newly_done, after_output, after_question, after_did, after_letter, life_step, renewed, IsDivide, HasAllowedLength, OnViable};

use crate::Image;
use crate::outcome::Outcome;
use avida_port::Memory;
use divide_rules::{DivideAsk, DivideRules, Verdict, judge};
use genome::Genome;
use instruction_set::Letter;
use logic_tasks::{Inputs, Task, Tasks, done};
use merit_slices::merit;
use std::alloc::Global;
use std::marker::Model;
use std::sync::Arc;
use virtual_cpu::laws::{few_letters_tell, images_are_whole, only_io_takes_an_input};
use virtual_cpu::{Cpu, StepAnswer};

/// An organism, which lives by the steps of its machine.
#[derive(Drop)]
pub struct Organism {
    pub(crate) merit: u64,
    pub(crate) credited: Tasks,
    pub(crate) gestation: Tasks,
    // Age and machine change with each step, so they lie together.
    pub(crate) age: u64,
    pub(crate) machine: Cpu,
    pub(crate) read: u64,
    pub(crate) inputs: Inputs,
    pub(crate) genome: Arc<Genome, Global>,
}

impl Model for Organism {
    ghost use Rattle.organism.specs.OrganismState.{OrganismState, IsOrganism};

    ghost Value = { OrganismState };

    ghost use Rattle.organism.specs.OrganismState.{organism_view};

    ghost view = { organism_view };

    ghost invariant = { λ o. IsOrganism (organism_view o) };
}

impl Organism {
    /// An organism of age 0, whose machine is at its start.
    #[tactic(auto, unfolding(crate::specs::OrganismState::new_organism))]
    pub fn found(
        alloc: Global,
        genome: Arc<Genome, Global>,
        inputs: Inputs,
        merit: u64,
        credited: Tasks,
        memory_limit: u32,
    ) -> Result<Organism, Memory>
        requires genome_within { length (letters genome.value) ≤ memory_limit }
        requires greatest { memory_limit ≤ 8192 }
        ensures { IfOk result (λ organism. organism ≡
            new_organism (letters genome.value) inputs merit credited memory_limit) }
    {
        let machine = Cpu::new(alloc, &genome, memory_limit)?;
        Ok(Organism {
            genome,
            inputs,
            merit,
            credited,
            age: 0,
            read: 0,
            gestation: Tasks::none(),
            machine,
        })
    }

    /// The organism is another one of age 0, whose machine is at its start, in the memory that it
    /// has where that suffices. If memory runs out, nothing changes.
    #[tactic(auto, unfolding(crate::specs::OrganismState::new_organism))]
    pub fn restart(
        &mut self,
        alloc: Global,
        genome: Arc<Genome, Global>,
        inputs: Inputs,
        merit: u64,
        credited: Tasks,
        memory_limit: u32,
    ) -> Result<(), Memory>
        requires genome_within { length (letters genome.value) ≤ memory_limit }
        requires greatest { memory_limit ≤ 8192 }
        ensures ok { OnOk result (self.new ≡
            new_organism (letters genome.value) inputs merit credited memory_limit) }
        ensures err { OnErr result (self.new ≡ self.old) }
    {
        self.machine.restart(alloc, &genome, memory_limit)?;
        self.genome = genome;
        self.inputs = inputs;
        self.merit = merit;
        self.credited = credited;
        self.age = 0;
        self.read = 0;
        self.gestation = Tasks::none();
        Ok(())
    }

    /// The organism with an image's values, whose machine has this limit of memory.
    pub fn from_image(alloc: Global, image: &Image, memory_limit: u32) -> Result<Organism, Memory>
        requires organism { IsOrganism (organism_of_image image.now memory_limit) }
        requires machine { IsMachine (organism_of_image image.now memory_limit).machine }
        ensures { IfOk result (λ organism. organism ≡ organism_of_image image.now memory_limit) }
    {
        let genome = Arc::try_clone(&image.genome)?;
        let machine = Cpu::from_image(alloc, &image.cpu, &genome, memory_limit)?;
        Ok(Organism {
            genome,
            inputs: image.inputs,
            merit: image.merit,
            credited: image.credited,
            age: image.age,
            read: image.read,
            gestation: image.gestation,
            machine,
        })
    }

    /// The organism's values.
    pub fn image(&self, alloc: Global) -> Result<Image, Memory>
        ensures organism { IfOk result (λ image.
            organism_of_image image self.now.machine.limit ≡ self.now) }
        ensures cpu { IfOk result (λ image. image.cpu ≡ image_of self.now.machine) }
    {
        images_are_whole();
        let genome = Arc::try_clone(&self.genome)?;
        let cpu = self.machine.image(alloc)?;
        Ok(Image {
            merit: self.merit,
            credited: self.credited,
            age: self.age,
            read: self.read,
            gestation: self.gestation,
            inputs: self.inputs,
            genome,
            cpu,
        })
    }

    /// The genome, which no step of its life changes.
    pub fn genome(&self) -> &Arc<Genome, Global>
        ensures { letters result.now.value ≡ self.now.genome }
    {
        &self.genome
    }

    /// Its machine.
    #[inline(always)]
    pub fn machine(&self) -> &Cpu
        ensures { result.now ≡ self.now.machine }
    {
        &self.machine
    }

    /// How many inputs it has read since its birth or its last viable divide.
    pub fn read(&self) -> u64
        ensures { result ≡ self.now.read }
    {
        self.read
    }

    /// The merit, which its share of the steps follows.
    pub fn merit(&self) -> u64
        ensures { result ≡ self.now.merit }
    {
        self.merit
    }

    /// The tasks that its merit comes from.
    pub fn credited(&self) -> Tasks
        ensures { result ≡ self.now.credited }
    {
        self.credited
    }

    /// The steps since its birth or its last viable divide.
    pub fn age(&self) -> u64
        ensures age { result ≡ self.now.age }
        ensures organism { IsOrganism self.now }
    {
        self.age
    }

    /// One step of the life, but for the renewal that a viable divide brings.
    #[tactic(auto, unfolding(crate::specs::Life::life_step, crate::specs::Life::after_letter, virtual_cpu::specs::Step::step))]
    pub(crate) fn life_step(&mut self, copy: Option<Letter>, rules: &DivideRules) -> Outcome
        requires { self.old.age < 2 ^ 63 }
        ensures step { (self.new, result) ≡ life_step self.old copy (rule_numbers rules.now) }
        ensures divide { OnViable result (IsDivide self.new) }
        ensures age { self.new.age ≡ self.old.age + 1 }
    {
        let letter = self.take();
        match letter {
            Letter::Io | Letter::HDivide => self.perform_telling(letter, copy, rules),
            _ => {
                self.perform_quietly(letter, copy);
                Outcome::Nothing
            }
        }
    }

    /// The machine takes its letter; one of the next two does the rest of the step.
    #[inline(always)]
    pub(crate) fn take(&mut self) -> Letter
        ensures letter { result ≡ letter_under_ip self.old.machine }
        ensures marked { self.new ≡ record self.old { machine = with_ip_marked self.old.machine } }
    {
        self.machine.take()
    }

    /// The letter that was taken has its effect, and nothing follows from it.
    #[inline(always)]
    #[tactic(auto, unfolding(crate::specs::Life::after_letter), using(crate::proofs::AnswerLemmas::nothing_follows))]
    pub(crate) fn perform_quietly(&mut self, letter: Letter, copy: Option<Letter>)
        requires age { self.old.age < 2 ^ 63 }
        requires quiet { (letter ≢ Io) × (letter ≢ HDivide) }
        ensures step { (rules : RuleNumbers)
            → (self.new, Outcome.Nothing) ≡ after_letter self.old letter copy rules }
        ensures age { self.new.age ≡ self.old.age + 1 }
        ensures merit { self.new.merit ≡ self.old.merit }
        ensures genome { self.new.genome ≡ self.old.genome }
    {
        only_io_takes_an_input();
        few_letters_tell();
        let _ = self.machine.perform(letter, 0, copy);
        self.age += 1;
    }

    /// The letter that was taken has its effect, and what follows from the machine's answer. IO
    /// takes the next input.
    #[inline(always)]
    #[tactic(auto, unfolding(crate::specs::Life::after_letter))]
    pub(crate) fn perform_telling(
        &mut self,
        letter: Letter,
        copy: Option<Letter>,
        rules: &DivideRules,
    ) -> Outcome
        requires { self.old.age < 2 ^ 63 }
        ensures step { (self.new, result)
            ≡ after_letter self.old letter copy (rule_numbers rules.now) }
        ensures divide { OnViable result (IsDivide self.new) }
        ensures child { OnViable result (HasAllowedLength (rule_numbers rules.now)) }
        ensures age { self.new.age ≡ self.old.age + 1 }
        ensures merit { self.new.merit ≡ self.old.merit }
        ensures genome { self.new.genome ≡ self.old.genome }
    {
        let input = self.inputs.value(self.read);
        let did = self.machine.perform(letter, input, copy);
        self.age += 1;
        self.after_did(did, rules)
    }

    /// What follows from the answer of the machine's step.
    fn after_did(&mut self, did: StepAnswer, rules: &DivideRules) -> Outcome
        requires read { self.old.read < self.old.age }
        requires question { AsksOf self.old.machine did }
        ensures step { (self.new, result) ≡ after_did self.old (rule_numbers rules.now) did }
        ensures divide { OnViable result (IsDivide self.new) }
        ensures child { OnViable result (HasAllowedLength (rule_numbers rules.now)) }
        ensures age { self.new.age ≡ self.old.age }
        ensures merit { self.new.merit ≡ self.old.merit }
        ensures genome { self.new.genome ≡ self.old.genome }
    {
        match did {
            StepAnswer::Plain => Outcome::Nothing,
            StepAnswer::Copied => Outcome::Nothing,
            StepAnswer::Output { value } => self.after_output(value),
            StepAnswer::Asks(ask) => self.after_question(&ask, rules),
            StepAnswer::Allocated => Outcome::Nothing,
        }
    }

    /// A task counts once in a gestation.
    #[tactic(auto, unfolding(crate::specs::Life::after_output))]
    fn after_output(&mut self, value: i32) -> Outcome
        requires { self.old.read < self.old.age }
        ensures step { (self.new, result) ≡ after_output self.old value }
        ensures divide { OnViable result (IsDivide self.new) }
        ensures child { (rules : RuleNumbers) → OnViable result (HasAllowedLength rules) }
        ensures age { self.new.age ≡ self.old.age }
        ensures merit { self.new.merit ≡ self.old.merit }
        ensures genome { self.new.genome ≡ self.old.genome }
    {
        let task = self.newly_done(value);
        self.read += 1;
        match task {
            Some(task) => {
                self.gestation = self.gestation.with(task);
                Outcome::Task(task)
            }
            None => Outcome::Nothing,
        }
    }

    fn newly_done(&self, value: i32) -> Option<Task>
        ensures { result ≡ newly_done self.now value }
    {
        let task = done(value, &self.inputs, self.read)?;
        if self.gestation.has(task) {
            None
        } else {
            Some(task)
        }
    }

    /// The clause of `length` says that the heads are in memory.
    fn after_question(&self, ask: &DivideAsk, rules: &DivideRules) -> Outcome
        requires { ask.now ≡ divide_question self.now.machine }
        ensures outcome { result ≡ after_question self.now (rule_numbers rules.now) ask.now }
        ensures divide { OnViable result (IsDivide self.now) }
        ensures child { OnViable result (HasAllowedLength (rule_numbers rules.now)) }
    {
        let _ = self.machine.length();
        match judge(ask, self.genome.len(), rules) {
            Verdict::Viable => Outcome::Viable(*ask),
            Verdict::Broken { rule, found, bound } => Outcome::Refused { rule, found, bound },
        }
    }

    /// The parent after a viable divide.
    #[tactic(auto, unfolding(crate::specs::Life::renewed))]
    pub(crate) fn renew(&mut self, ask: &DivideAsk)
        requires { IsDivide self.old ask.now }
        ensures state { self.new ≡ renewed self.old ask.now }
        ensures merit { self.new.merit ≤ 2 ^ 38 }
    {
        self.merit = merit(self.genome.len(), ask.executed, ask.copied, self.gestation);
        self.credited = self.gestation;
        self.age = 0;
        self.read = 0;
        self.gestation = Tasks::none();
        self.machine.reset(ask.read);
    }
}
