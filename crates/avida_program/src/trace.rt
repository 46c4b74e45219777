// The command `trace`.
ghost use Rattle.std.specs.Prelude.{◌≡◌};
ghost use Rattle.avida_program.specs.Prelude.{letters, change, WritesAll};
ghost use Rattle.command_line.specs.CommandLine.{spelling_of};
ghost use Rattle.avida_program.specs.Endings.{ReadsAndWrites};
ghost use Rattle.avida_program.specs.Input.{genome_of_input};
ghost use Rattle.avida_program.specs.TraceText.{trace_lines, trace_text};

use crate::call_error::{CallError, ended_by};
use crate::input::read_genome;
use crate::puts::put_rest;
use crate::trace_line::write_line;
use avida_port::{Sink, SinkStop, Source};
use command_line::{Trace, genome_spelling};
use genome::Genome;
use landscape::organism_alone;
use logic_tasks::Inputs;
use organism::Organism;
use std::alloc::Global;
use written_texts::Piece;

/// Steps an organism of age 0, and writes a line a step.
fn write_steps<O: Sink>(
    alloc: Global,
    organism: &mut Organism,
    steps: u32,
    out: &mut O,
) -> Result<(), SinkStop>
    requires { organism.old.age ≡ 0 }
    ensures { WritesAll (O.seen out.old) (O.seen out.new) (trace_lines organism.old steps) result }
{
    let mut piece = Piece::new();
    for step in 0..steps {
        let traced = organism.trace_step(alloc)?;
        write_line(&mut piece, step + 1, &traced, out)?;
    }
    put_rest(&piece, out)
}

fn write_trace<O: Sink>(
    alloc: Global,
    genome: Genome,
    low: [u32; 3],
    steps: u32,
    out: &mut O,
) -> Result<(), SinkStop>
    ensures { WritesAll (O.seen out.old) (O.seen out.new)
        (trace_text (letters genome) low steps) result }
{
    let mut organism = organism_alone(alloc, genome, Inputs::of(low))?;
    let written = write_steps(alloc, &mut organism, steps, out);
    drop(organism);
    written
}

/// Reads a genome, and writes a line for each of its organism's first steps.
pub fn trace<S: Source, O: Sink>(
    alloc: Global,
    asked: Trace,
    source: &mut S,
    out: &mut O,
) -> Result<(), CallError>
    ensures { ReadsAndWrites (genome_of_input (spelling_of asked.org))
        (λ genome. trace_text genome asked.inputs asked.steps)
        (change (S.seen source.old) (S.seen source.new)) (change (O.seen out.old) (O.seen out.new))
        result }
{
    let genome = read_genome(alloc, genome_spelling(asked.org), source)?;
    ended_by(write_trace(alloc, genome, asked.inputs, asked.steps, out))
}
