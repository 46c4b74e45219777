// The program's limits, and what holds of its commands together (docs/FORMATS.md, "The command
// line" and "Statuses and fault lines"; docs/WORLD.md, "Saved worlds").
ghost use Rattle.std.specs.Prelude.{◌≡◌, ◌↔◌, ℕ, List, Result};
ghost use Rattle.avida_program.specs.Prelude.{Line, SavedState, values_of};
ghost use Rattle.avida_program.specs.SavedRuns.{AddsUp, AdvancesExactly, AdvancesInTwo, CanAdvanceInTwo, ResumesInTwo, CanResume, ResumesExactly};
ghost use Rattle.avida_program.specs.Input.{ReadsLines, ReadsState, log_input_of, resume_input_of};
ghost use Rattle.avida_program.specs.declared.refusal.Refusal.{Refusal};

use crate::input::{INPUT_LIMIT, MOST_CELLS};
use checkpoint::laws::{advanced_worlds_are_read_again, runs_are_read_again};
use saved_worlds::laws::resumed_runs_go_on;
use world_config::Config;
use written_texts::PIECE_SIZE;

/// The limits of the input, of worlds that run side by side, and of a piece of output.
pub fn limits()
    ensures input { INPUT_LIMIT ≡ 1048576 }
    ensures cells { MOST_CELLS ≡ 131072 }
    ensures piece { PIECE_SIZE ≡ 8192 }
{}

/// Bytes are read as one log and one saved world, or rejected for one reason each: what the main
/// theorem says that they are read as is what the functions below `serve` answer.
pub fn inputs_are_read_one_way()
    ensures lines { (bytes : List ℕ) (answer : Result (List Line) Refusal)
        → ReadsLines bytes answer ↔ (log_input_of bytes ≡ answer) }
    ensures state { (more : ℕ) (bytes : List ℕ) (answer : Result SavedState Refusal)
        → ReadsState more bytes answer ↔ (resume_input_of more bytes ≡ answer) }
{
    lineage_log::laws::one_answer();
    saved_worlds::laws::one_answer();
}

/// A run that is saved and resumed goes on: its log without the last line, and then what `resume`
/// writes of what `save` wrote, are the log of a run so much longer.
pub fn saved_runs_go_on(config: &Config, more: u32)
    ensures { CanResume (values_of config.now) more → ResumesExactly (values_of config.now) more }
{
    resumed_runs_go_on(config, more);
    runs_are_read_again(config);
}

/// A run that is saved and advanced goes on: `advance` reads what `save` wrote, and writes what
/// `save` writes of the configuration with so many more updates. No event of a configuration comes
/// after its last update, so the longer run has the same events.
pub fn saved_runs_advance(config: &Config, more: u32)
    ensures { CanResume (values_of config.now) more → AdvancesExactly (values_of config.now) more }
{
    resumed_runs_go_on(config, more);
    runs_are_read_again(config);
}

/// Updates add up, in two calls of `advance` as in one: the worlds, what `resume` writes of them,
/// and what is read and written.
pub fn updates_add_up()
    ensures states { (state : SavedState) (first second : ℕ) → AddsUp state first second }
    ensures resumed { (state : SavedState) (first second : ℕ) → ResumesInTwo state first second }
    ensures advanced { (bytes : List ℕ) (state : SavedState) (first second : ℕ)
        → CanAdvanceInTwo bytes state first second → AdvancesInTwo bytes state first second }
{
    advanced_worlds_are_read_again();
}
