// One step of a trace, and what it remarks.
ghost use Rattle.std.specs.Prelude.{◌≡◌, ◌+◌, ◌<◌, ◌≤◌, ◌^◌, IfOk, OnOk};
ghost use Rattle.organism.specs.Life.{IsDivide, OnViable};
ghost use Rattle.organism.specs.TracedStep.{remark_value, traced_value, remark_on, trace_step_of};

use crate::Organism;
use crate::outcome::Outcome;
use crate::trace_rules::trace_rules;
use avida_port::Memory;
use divide_rules::{DivideAsk, Rule};
use genome::Genome;
use instruction_set::Letter;
use logic_tasks::Task;
use std::alloc::Global;

/// What a step of a trace did besides the machine's change.
#[derive(Debug, Drop, PartialEq, Eq)]
pub enum Remark {
    Nothing,
    Task(Task),
    Refused {
        rule: Rule,
        found: u32,
        bound: u32,
    },
    Divide {
        executed: u32,
        copied: u32,
        merit: u64,
        child: Genome,
    },
}

/// One step of a trace: the place and the letter before it, and the registers after it.
#[derive(Debug, Drop, PartialEq, Eq)]
pub struct Traced {
    pub place: u32,
    pub letter: Letter,
    pub registers: [i32; 3],
    pub remark: Remark,
}

impl Organism {
    /// One step without copy errors and death, under the rules of a trace.
    #[tactic(auto, unfolding(crate::specs::TracedStep::trace_step_of))]
    pub fn trace_step(&mut self, alloc: Global) -> Result<Traced, Memory>
        requires { self.old.age < 2 ^ 62 }
        ensures steps { IfOk result (λ traced. self.new ≡ (trace_step_of self.old).0) }
        ensures traced { IfOk result (λ traced. traced_value traced ≡ (trace_step_of self.old).1) }
        ensures age { OnOk result (self.new.age ≤ self.old.age + 1) }
    {
        let place = self.machine.place();
        let letter = self.machine.next();
        let rules = trace_rules(self.genome.len());
        let outcome = self.life_step(None, &rules);
        let remark = self.remark_on(alloc, outcome)?;
        Ok(Traced {
            place,
            letter,
            registers: self.machine.registers(),
            remark,
        })
    }

    /// What a trace remarks on an outcome; after a viable divide the parent is renewed.
    fn remark_on(&mut self, alloc: Global, outcome: Outcome) -> Result<Remark, Memory>
        requires { OnViable outcome (IsDivide self.old) }
        ensures now { IfOk result (λ remark.
            (self.new, remark_value remark) ≡ remark_on self.old outcome) }
        ensures age { OnOk result (self.new.age ≤ self.old.age) }
    {
        match outcome {
            Outcome::Nothing => Ok(Remark::Nothing),
            Outcome::Task(task) => Ok(Remark::Task(task)),
            Outcome::Refused { rule, found, bound } => Ok(Remark::Refused { rule, found, bound }),
            Outcome::Viable(ask) => self.divide(alloc, &ask),
        }
    }

    /// The child is what was written.
    #[tactic(auto, unfolding(crate::specs::Life::renewed))]
    fn divide(&mut self, alloc: Global, ask: &DivideAsk) -> Result<Remark, Memory>
        requires { IsDivide self.old ask.now }
        ensures now { IfOk result (λ remark.
            (self.new, remark_value remark) ≡ remark_on self.old (Outcome.Viable ask.now)) }
        ensures age { OnOk result (self.new.age ≡ 0) }
    {
        let child = self.machine.cut(alloc, ask)?.written;
        self.renew(ask);
        Ok(Remark::Divide {
            executed: ask.executed,
            copied: ask.copied,
            merit: self.merit,
            child,
        })
    }
}
