// The words of `trace`.
ghost use Rattle.std.specs.Prelude.{◌≡◌, ◌<◌, [], IfOk, codes, length};
ghost use Rattle.clap.specs.Words.{app_of};
ghost use Rattle.command_line.specs.Parsers.{app_by};
ghost use Rattle.command_line.specs.Reading.{IsTold};
ghost use Rattle.command_line.specs.Rows.{trace_row, told_by_row};

use crate::numbers::{number_in, text_in, three_numbers};
use crate::reading::{Arguments, read};
use crate::refused::Refused;
use clap::{Arg, ArgAction, ArgMatches, Command};
use std::alloc::{AllocError, Global};

/// The greatest number of steps that `trace` accepts.
pub const MOST_STEPS: u32 = 1_000_000;

/// The greatest input that `trace` accepts, which is a number of 24 bits.
pub const GREATEST_INPUT: u32 = 16_777_215;

/// The values of `trace`: the number of steps, whether the genome is written by names, and the low
/// 24 bits of each of the three inputs.
#[derive(Clone, Copy, Debug)]
pub struct Trace {
    pub steps: u32,
    pub org: bool,
    pub inputs: [u32; 3],
}

/// The command with `--inputs`.
fn inputs_command<'a>(alloc: Global) -> Result<Command<'a>, AllocError>
    ensures { IfOk result (λ c. app_of c ≡ app_by (codes "trace")
        (record trace_row.form { flags = []; positionals = 0 }) []) }
{
    let inputs = Arg::new(alloc, "inputs")
        .long("inputs")
        .default_value("986895,3355443,5592405");
    Command::new(alloc, "trace")
        .disable_help_flag(true)
        .arg(inputs)
}

impl Arguments for Trace {
    type Taken = Trace;

    ghost table_row = { trace_row };

    fn command<'a>(alloc: Global) -> Result<Command<'a>, AllocError> {
        let command = inputs_command(alloc)?;
        let org = Arg::new(alloc, "org")
            .long("org")
            .action(ArgAction::SetTrue);
        let command = command.arg(org)?;
        let steps = Arg::new(alloc, "steps").required(true);
        command.arg(steps)
    }

    fn taken(matches: &ArgMatches<'_>) -> Option<Trace> {
        let steps = number_in(matches, "steps", 0, MOST_STEPS)?;
        let inputs = three_numbers(GREATEST_INPUT, text_in(matches, "inputs")?)?;
        let org = matches!(text_in(matches, "org"), Some("true"));
        Some(Trace { steps, org, inputs })
    }
}

/// Reads the words of `trace`. The first word is the name of the command.
#[tactic(auto, using(crate::proofs::CommandForms::trace_reads))]
pub(crate) fn read_trace(alloc: Global, words: &[String]) -> Result<Trace, Refused>
    requires { 0 < length words.now }
    ensures { IsTold (told_by_row trace_row) words.now result }
{
    read::<Trace>(alloc, words)
}
