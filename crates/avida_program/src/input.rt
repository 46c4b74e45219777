// What a command reads.
ghost use Rattle.std.specs.Prelude.{◌≡◌, ◌≢◌, ◌≤◌, ◌<◌, ◌*◌, ◌+◌, ℕ, List, [], length, Some, IfOk, IfErr, OnOk, Ok, Err};
ghost use Rattle.avida_program.specs.Prelude.{IsAllOf, letters, replay_of, Line, values_of, change};
ghost use Rattle.avida_program.specs.Input.{assay_input_of, configuration_of, genome_of_input, genome_spelled, lineage_input_of, log_input_of, resume_input_of, saved_input_of};
ghost use Rattle.avida_program.specs.Endings.{GivesInput, GivesNoInput, StopsReading};

use crate::call_error::CallError;
use crate::refusal::Refusal;
use avida_port::{LONGEST_INPUT, ReadStop, Source, read_all};
use checkpoint::{SavedStop, read_saved};
use command_line::Spelling;
use genome::{Genome, GenomeStop, read_letters, read_names};
use lineage_log::{Livings, Log, LogStop, living_at_end, read_log};
use std::alloc::Global;
use std::sync::Wait;
use world_config::{Config, ConfigStop, GREATEST_UPDATES};
use world_core::State;

/// A genome or a configuration with more bytes is rejected as too long.
pub const INPUT_LIMIT: usize = 1_048_576;

/// The greatest number of cells that worlds side by side may have together.
pub const MOST_CELLS: u32 = 131_072;

/// Reads a source to its end. More bytes than the limit are rejected with `TooLong`.
fn read_bytes<S: Source>(alloc: Global, source: &mut S, limit: usize) -> Result<Vec<u8>, CallError>
    requires { limit ≤ 536870912 }
    ensures within { IfOk result (λ bytes. length bytes.items ≤ limit) }
    ensures all { IfOk result (λ bytes. IsAllOf (S.seen source.old) bytes.items) }
    ensures end { OnOk result ((left : List ℕ)
        → (S.seen source.old).left ≡ Some left → (S.seen source.new).left ≡ Some []) }
    ensures stopped { IfErr result
        (StopsReading limit (change (S.seen source.old) (S.seen source.new))) }
{
    match read_all(alloc, source, limit) {
        Ok(bytes) => Ok(bytes),
        Err(ReadStop::Memory) => Err(CallError::Memory),
        Err(ReadStop::Fault) => Err(CallError::ReadFault),
        Err(ReadStop::TooLong) => Err(CallError::BadInput(Refusal::TooLong)),
    }
}

fn read_spelled(alloc: Global, spelling: Spelling, bytes: &[u8]) -> Result<Genome, GenomeStop>
    ensures ok { IfOk result (λ genome. genome_spelled spelling bytes.now ≡ Ok (letters genome)) }
    ensures refused { IfErr result (λ stop. stop ≢ GenomeStop.Memory
        → genome_spelled spelling bytes.now ≡ Err stop) }
{
    match spelling {
        Spelling::Letters => read_letters(alloc, bytes),
        Spelling::Names => read_names(alloc, bytes),
    }
}

/// Reads a genome.
pub fn read_genome<S: Source>(
    alloc: Global,
    spelling: Spelling,
    source: &mut S,
) -> Result<Genome, CallError>
    ensures ok { IfOk result (λ genome. GivesInput (genome_of_input spelling)
        (change (S.seen source.old) (S.seen source.new)) (letters genome)) }
    ensures err { IfErr result (GivesNoInput (genome_of_input spelling)
        (change (S.seen source.old) (S.seen source.new))) }
{
    let bytes = read_bytes(alloc, source, INPUT_LIMIT)?;
    match read_spelled(alloc, spelling, bytes.as_slice()) {
        Ok(genome) => Ok(genome),
        Err(GenomeStop::Memory) => Err(CallError::Memory),
        Err(stop) => Err(CallError::BadInput(Refusal::Genome(stop))),
    }
}

/// Reads a configuration.
pub fn read_config<S: Source>(alloc: Global, source: &mut S) -> Result<Config, CallError>
    ensures ok { IfOk result (λ config. GivesInput configuration_of
        (change (S.seen source.old) (S.seen source.new)) (values_of config)) }
    ensures err { IfErr result (GivesNoInput configuration_of
        (change (S.seen source.old) (S.seen source.new))) }
{
    let bytes = read_bytes(alloc, source, INPUT_LIMIT)?;
    match world_config::read(alloc, bytes.as_slice()) {
        Ok(config) => Ok(config),
        Err(ConfigStop::Memory) => Err(CallError::Memory),
        Err(stop) => Err(CallError::BadInput(Refusal::Config(stop))),
    }
}

/// Reads a configuration. A cell outside its world is rejected.
pub fn read_config_with<S: Source>(
    alloc: Global,
    source: &mut S,
    cell: u32,
) -> Result<Config, CallError>
    ensures ok { IfOk result (λ config. GivesInput (lineage_input_of cell)
        (change (S.seen source.old) (S.seen source.new)) (values_of config)) }
    ensures cell { IfOk result (λ config. cell < config.width * config.height) }
    ensures err { IfErr result (GivesNoInput (lineage_input_of cell)
        (change (S.seen source.old) (S.seen source.new))) }
{
    let config = read_config(alloc, source)?;
    if cell < config.width * config.height {
        Ok(config)
    } else {
        drop(config);
        Err(CallError::BadInput(Refusal::Cell(cell)))
    }
}

/// Reads a configuration. It is rejected if its worlds together have more cells than may run side
/// by side.
pub fn read_config_for<S: Source>(
    alloc: Global,
    source: &mut S,
    count: u32,
) -> Result<Config, CallError>
    requires { count ≤ 64 }
    ensures ok { IfOk result (λ config. GivesInput (assay_input_of count)
        (change (S.seen source.old) (S.seen source.new)) (values_of config)) }
    ensures err { IfErr result (GivesNoInput (assay_input_of count)
        (change (S.seen source.old) (S.seen source.new))) }
{
    let config = read_config(alloc, source)?;
    let cells = count * config.width * config.height;
    if cells <= MOST_CELLS {
        Ok(config)
    } else {
        drop(config);
        Err(CallError::BadInput(Refusal::Cells(cells)))
    }
}

/// Reads a log.
pub fn read_lines<S: Source>(alloc: Global, source: &mut S) -> Result<Log, CallError>
    ensures ok { IfOk result (λ log. GivesInput log_input_of
        (change (S.seen source.old) (S.seen source.new)) log) }
    ensures err { IfErr result (GivesNoInput log_input_of
        (change (S.seen source.old) (S.seen source.new))) }
{
    let bytes = read_bytes(alloc, source, LONGEST_INPUT)?;
    match read_log(alloc, bytes.as_slice()) {
        Ok(log) => Ok(log),
        Err(LogStop::Memory) => Err(CallError::Memory),
        Err(stop) => Err(CallError::BadInput(Refusal::Log(stop))),
    }
}

/// Replays a log. No line of it is kept.
pub fn read_livings<S: Source>(alloc: Global, source: &mut S) -> Result<Livings, CallError>
    ensures ok { IfOk result (λ livings. (lines : List Line)
        × GivesInput log_input_of (change (S.seen source.old) (S.seen source.new)) lines
        × (livings ≡ replay_of lines)) }
    ensures err { IfErr result (GivesNoInput log_input_of
        (change (S.seen source.old) (S.seen source.new))) }
{
    let bytes = read_bytes(alloc, source, LONGEST_INPUT)?;
    match living_at_end(alloc, bytes.as_slice()) {
        Ok(livings) => Ok(livings),
        Err(LogStop::Memory) => Err(CallError::Memory),
        Err(stop) => Err(CallError::BadInput(Refusal::Log(stop))),
    }
}

/// Reads a saved world. It may wait, since it interns the genomes of the organisms.
fn read_state<R: Wait, S: Source>(
    rt: &R,
    alloc: Global,
    source: &mut S,
    workers: u32,
) -> Result<State, CallError>
    requires { (1 ≤ workers) × (workers ≤ 64) }
    ensures ok { IfOk result (λ state. GivesInput saved_input_of
        (change (S.seen source.old) (S.seen source.new)) state) }
    ensures err { IfErr result (GivesNoInput saved_input_of
        (change (S.seen source.old) (S.seen source.new))) }
{
    let bytes = read_bytes(alloc, source, LONGEST_INPUT)?;
    match read_saved(rt, alloc, bytes.as_slice(), workers) {
        Ok(state) => Ok(state),
        Err(SavedStop::Memory) => Err(CallError::Memory),
        Err(stop) => Err(CallError::BadInput(Refusal::Saved(stop))),
    }
}

/// Reads a saved world. It is rejected if it would go past the greatest update. It may wait, since
/// it interns the genomes of the organisms.
pub fn read_state_for<R: Wait, S: Source>(
    rt: &R,
    alloc: Global,
    source: &mut S,
    more: u32,
    workers: u32,
) -> Result<State, CallError>
    requires { (1 ≤ workers) × (workers ≤ 64) }
    ensures ok { IfOk result (λ state. GivesInput (resume_input_of more)
        (change (S.seen source.old) (S.seen source.new)) state) }
    ensures updates { IfOk result (λ state. state.head.update + more ≤ 1000000) }
    ensures err { IfErr result (GivesNoInput (resume_input_of more)
        (change (S.seen source.old) (S.seen source.new))) }
{
    let state = read_state(rt, alloc, source, workers)?;
    let updates = u64::from(state.update()) + u64::from(more);
    if updates <= u64::from(GREATEST_UPDATES) {
        Ok(state)
    } else {
        drop(state);
        Err(CallError::BadInput(Refusal::Updates(updates)))
    }
}
