// The command that a command line gives.
ghost use Rattle.std.specs.Prelude.{◌≡◌, ◌<◌, Some, MatchResult, IfOk, drop, length, map, string_bytes};
ghost use Rattle.command_line.specs.CommandLine.{HasNumbersInRange, bare_command, command_named, command_of, spelling_of};
ghost use Rattle.command_line.specs.Reading.{Refuses};

use crate::assay::{Assay, read_assay};
use crate::landscape::read_landscape;
use crate::nothing::read_nothing;
use crate::positional::{
    Bench, FurtherUpdates, Lineage, read_bench, read_further_updates, read_lineage,
};
use crate::refused::Refused;
use crate::run::{Run, read_run};
use crate::save::read_save;
use crate::trace::{Trace, read_trace};
use std::alloc::Global;

/// How a genome is written: by letters or by names.
#[derive(Clone, Copy, Debug, PartialEq, Eq)]
pub enum Spelling {
    Letters,
    Names,
}

/// What a command line asks for.
#[derive(Clone, Copy, Debug)]
pub enum Command {
    Trace(Trace),
    Run(Run),
    Lineage(Lineage),
    Bench(Bench),
    Assay(Assay),
    Save { workers: u32 },
    Resume(FurtherUpdates),
    Advance(FurtherUpdates),
    Replay,
    Upgrade,
    Tree,
    Landscape { steps: u32 },
}

/// The spelling that `--org` asks for.
pub fn genome_spelling(org: bool) -> Spelling
    ensures { result ≡ spelling_of org }
{
    if org {
        Spelling::Names
    } else {
        Spelling::Letters
    }
}

/// A command that takes no words.
fn read_bare(alloc: Global, words: &[String], command: Command) -> Result<Command, Refused>
    requires { 0 < length words.now }
    ensures command { MatchResult result
        (λ given. bare_command command (drop 1 (map string_bytes words.now)) ≡ Some given)
        (Refuses (bare_command command (drop 1 (map string_bytes words.now)))) }
    ensures same { IfOk result (λ given. given ≡ command) }
{
    read_nothing(alloc, words)?;
    Ok(command)
}

/// The command of this name, which is the first word.
#[tactic(auto, unfolding(numerals::specs::Numeral::number_of))]
fn read_named(alloc: Global, name: &str, words: &[String]) -> Result<Command, Refused>
    requires { 0 < length words.now }
    ensures command { MatchResult result
        (λ command. command_named name.now (drop 1 (map string_bytes words.now)) ≡ Some command)
        (Refuses (command_named name.now (drop 1 (map string_bytes words.now)))) }
    ensures range { IfOk result HasNumbersInRange }
{
    match name {
        "trace" => Ok(Command::Trace(read_trace(alloc, words)?)),
        "run" => Ok(Command::Run(read_run(alloc, words)?)),
        "lineage" => Ok(Command::Lineage(read_lineage(alloc, words)?)),
        "bench" => Ok(Command::Bench(read_bench(alloc, words)?)),
        "assay" => Ok(Command::Assay(read_assay(alloc, words)?)),
        "save" => Ok(Command::Save {
            workers: read_save(alloc, words)?,
        }),
        "resume" => Ok(Command::Resume(read_further_updates(alloc, words)?)),
        "advance" => Ok(Command::Advance(read_further_updates(alloc, words)?)),
        "replay" => read_bare(alloc, words, Command::Replay),
        "upgrade" => read_bare(alloc, words, Command::Upgrade),
        "tree" => read_bare(alloc, words, Command::Tree),
        "landscape" => Ok(Command::Landscape {
            steps: read_landscape(alloc, words)?,
        }),
        _ => Err(Refused::BadWords),
    }
}

/// Reads a command line. `BadWords` means that the words give no command, and `Memory` that an
/// allocation failed.
pub fn read_words(alloc: Global, words: &[String]) -> Result<Command, Refused>
    ensures command { MatchResult result
        (λ command. command_of (map string_bytes words.now) ≡ Some command)
        (Refuses (command_of (map string_bytes words.now))) }
    ensures range { IfOk result HasNumbersInRange }
{
    let Some(name) = words.first() else {
        return Err(Refused::BadWords);
    };
    read_named(alloc, name.as_str(), words)
}
