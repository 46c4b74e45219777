// What holds of every form.
ghost use Rattle.std.specs.Prelude.{◌≡◌, ◌<◌, ℕ, List, [], ◌∷◌, Some, codes, length, drop, option_and_then};
ghost use Rattle.command_line.specs.Form.{Form, IsSimple};
ghost use Rattle.command_line.specs.Parsers.{parsed_by};
ghost use Rattle.command_line.specs.Words.{told_by, undashed};

use crate::assay::{MOST_FIRST_SEED, MOST_SEEDS};
use crate::landscape::MOST_TRIED_STEPS;
use crate::positional::{MOST_CELL, MOST_FURTHER_UPDATES, MOST_SEED};
use crate::run::MOST_LOOKS;
use crate::trace::{GREATEST_INPUT, MOST_STEPS};
use crate::workers::{LEAST_WORKERS, MOST_WORKERS};

/// For every form, the parser's result is the one that the form gives when the words are read from
/// left to right. The law doesn't cover a positional or a value that begins with `-`.
pub fn words_are_read_by_their_form()
    ensures { (name : List ℕ) (form : Form) (positionals : List (List ℕ)) (words : List (List ℕ))
        → IsSimple form positionals → 0 < length words
        → option_and_then undashed (parsed_by name form positionals words)
        ≡ option_and_then undashed (told_by form (drop 1 words)) }
{}

/// The law covers a form with an option, a flag and two positionals.
pub fn an_option_a_flag_and_two_positionals_are_simple()
    ensures { IsSimple (record {
      options = record { name = codes "workers"; default = Some (codes "1") } ∷ [];
      flags = codes "quiet" ∷ [];
      positionals = 2;
    }) (codes "count" ∷ codes "first" ∷ []) }
{}

/// The limits of the numbers on a command line.
pub fn limits()
    ensures least_workers { LEAST_WORKERS ≡ 1 }
    ensures most_workers { MOST_WORKERS ≡ 64 }
    ensures most_steps { MOST_STEPS ≡ 1000000 }
    ensures greatest_input { GREATEST_INPUT ≡ 16777215 }
    ensures most_tried_steps { MOST_TRIED_STEPS ≡ 100000 }
    ensures most_cell { MOST_CELL ≡ 65535 }
    ensures most_further_updates { MOST_FURTHER_UPDATES ≡ 1000000 }
    ensures most_looks { MOST_LOOKS ≡ 1000000 }
    ensures most_seed { MOST_SEED ≡ 9223372036854775807 }
    ensures most_seeds { MOST_SEEDS ≡ 64 }
    ensures most_first_seed { MOST_FIRST_SEED ≡ 9223372036854775744 }
{}
