// The command `assay`.
ghost use Rattle.std.specs.Prelude.{◌≡◌, ◌≤◌, ◌∷◌, ◌++◌, IfOk, OnOk, decimal, map, option_map};
ghost use Rattle.avida_program.specs.Prelude.{letters, words_text, values_of, assay_line, assay_numbers, assay_text, assays_text, dominant_word, tally_line, change, WritesAll};
ghost use Rattle.avida_program.specs.Endings.{ReadsAndWrites};
ghost use Rattle.avida_program.specs.Input.{assay_input_of};

use crate::call_error::{CallError, ended_by};
use crate::input::read_config_for;
use crate::puts::put_text;
use assay::{Assay, seeds_with_each};
use avida_port::{Gate, Memory, Sink, SinkStop, Source};
use genome::{Genome, letters_text};
use log_lines::write_number;
use std::alloc::Global;
use std::sync::Wait;
use std::thread::Threads;
use world_config::Config;

/// Appends a space and a sum.
fn add_sum(text: &mut Vec<u8>, sum: u128) -> Result<(), Memory>
    ensures { OnOk result (text.new.items ≡ text.old.items ++ 32 ∷ decimal sum) }
{
    let mut digits = itoa::Buffer::new();
    text.push(b' ')?;
    text.extend_from_slice(digits.format(sum).as_bytes())?;
    Ok(())
}

/// Appends numbers, each behind a space.
fn add_numbers(text: &mut Vec<u8>, numbers: &[u64]) -> Result<(), Memory>
    ensures { OnOk result (text.new.items
        ≡ text.old.items ++ words_text (map decimal numbers.now)) }
{
    for number in numbers {
        write_number(b' ', *number, text)?;
    }
    Ok(())
}

/// Appends what is counted of a seed's run.
fn add_counts(text: &mut Vec<u8>, assay: &Assay) -> Result<(), Memory>
    ensures { OnOk result (text.new.items
        ≡ text.old.items ++ words_text (map decimal (assay_numbers assay.now))) }
{
    write_number(b' ', assay.seed, text)?;
    write_number(b' ', assay.last.living, text)?;
    add_sum(text, assay.births)?;
    add_sum(text, assay.deaths)?;
    write_number(b' ', assay.last.genotypes, text)?;
    write_number(b' ', assay.last.merit, text)?;
    add_numbers(text, &assay.last.tasks)?;
    Ok(())
}

/// Appends the letters of a dominant genome, or a dash.
fn add_dominant(text: &mut Vec<u8>, dominant: &Option<Genome>) -> Result<(), Memory>
    ensures { OnOk result (text.new.items
        ≡ text.old.items ++ dominant_word (option_map letters dominant.now)) }
{
    match dominant {
        Some(genome) => letters_text(genome, text),
        None => {
            text.push(b'-')?;
            Ok(())
        }
    }
}

/// Appends the line of a seed.
#[tactic(auto, unfolding(assay::specs::Assay::assay_line))]
fn add_assay(text: &mut Vec<u8>, assay: &Assay) -> Result<(), Memory>
    ensures { OnOk result (text.new.items ≡ text.old.items ++ assay_line assay.now) }
{
    text.push(b'A')?;
    add_counts(text, assay)?;
    text.push(b' ')?;
    add_dominant(text, &assay.dominant)?;
    text.push(b'\n')?;
    Ok(())
}

/// Appends the last line.
#[tactic(auto, unfolding(assay::specs::Assay::tally_line))]
fn add_tally(text: &mut Vec<u8>, assays: &[Assay]) -> Result<(), Memory>
    ensures { OnOk result (text.new.items ≡ text.old.items ++ tally_line assays.now) }
{
    text.push(b'M')?;
    write_number(b' ', assays.len() as u64, text)?;
    add_numbers(text, &seeds_with_each(assays))?;
    text.push(b'\n')?;
    Ok(())
}

/// The lines of the seeds, and the last line.
fn text_of(alloc: Global, assays: &[Assay]) -> Result<Vec<u8>, Memory>
    ensures { IfOk result (λ text. text.items ≡ assays_text assays.now) }
{
    let mut text = Vec::new(alloc);
    for assay in assays {
        add_assay(&mut text, assay)?;
    }
    add_tally(&mut text, assays)?;
    Ok(text)
}

/// Runs a configuration with so many seeds, from the first one on, and writes what becomes of them.
fn write_assay<R: Threads + Wait + Sync, O: Sink, G: Gate + Sync>(
    rt: &R,
    alloc: Global,
    config: &Config,
    count: u32,
    first: u64,
    workers: u32,
    out: &mut O,
    gate: &G,
) -> Result<(), SinkStop>
    requires count { (1 ≤ count) × (count ≤ 64) }
    requires first { first ≤ 9223372036854775744 }
    requires workers { (1 ≤ workers) × (workers ≤ 64) }
    ensures { WritesAll (O.seen out.old) (O.seen out.new)
        (assay_text (values_of config.now) first count) result }
{
    let assays = assay::assay(rt, alloc, config, first, count, workers, gate)?;
    let text = text_of(alloc, assays.as_slice())?;
    put_text(&text, out)
}

/// Reads a configuration, runs it with consecutive seeds, and writes the totals of each run.
pub fn assay<R: Threads + Wait + Sync, S: Source, O: Sink, G: Gate + Sync>(
    rt: &R,
    alloc: Global,
    asked: command_line::Assay,
    source: &mut S,
    out: &mut O,
    gate: &G,
) -> Result<(), CallError>
    requires count { (1 ≤ asked.count) × (asked.count ≤ 64) }
    requires first { asked.first ≤ 9223372036854775744 }
    requires workers { (1 ≤ asked.workers) × (asked.workers ≤ 64) }
    ensures { ReadsAndWrites (assay_input_of asked.count)
        (λ config. assay_text config asked.first asked.count)
        (change (S.seen source.old) (S.seen source.new)) (change (O.seen out.old) (O.seen out.new))
        result }
{
    let command_line::Assay {
        count,
        first,
        workers,
    } = asked;
    let config = read_config_for(alloc, source, count)?;
    ended_by(write_assay(rt, alloc, &config, count, first, workers, out, gate))
}
