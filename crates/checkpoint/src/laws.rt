// The parts of a saved world's text (docs/FORMATS.md, "Saved worlds").
ghost use Rattle.std.specs.Prelude.{◌≡◌, ℕ, ◌+◌, ◌<◌, ◌≤◌, ◌++◌, List, [], None, Ok, Option, length, slice_index_or};
ghost use Rattle.checkpoint.specs.Prelude.{taken, Occupant, ids_of, count_text, saved_head_text, SavedState, state_of, state_of_world, saved_text, slot_text, saved_of, FitsText, HasRoomFor};
ghost use Rattle.world_config.specs.Values.{values_of};
ghost use Rattle.world_rules.specs.WorldRun.{world_after};
ghost use Rattle.saved_worlds.specs.Resuming.{saved_state_after};
ghost use Rattle.checkpoint.specs.Reading.{first_cells_text, IsWritable};

use saved_lines::laws::one_spelling;
use saved_worlds::laws::{lines_can_go_on, runs_can_go_on, states_stay_valid};
use virtual_cpu::laws::images_are_whole;
use world_config::Config;

/// The text of a saved world is that of its head, then of each cell in rising order, then of the
/// number of organisms.
pub fn texts_are_written_by_cells()
    ensures none { (cells : List (Option Occupant)) → first_cells_text cells 0 ≡ [] }
    ensures more { (cells : List (Option Occupant)) (cell : ℕ)
        → cell < length cells
        → first_cells_text cells (cell + 1)
        ≡ first_cells_text cells cell ++ slot_text cell (slice_index_or cells cell None) }
    ensures whole { (state : SavedState) → saved_text state
        ≡ saved_head_text state.head ++ first_cells_text state.cells (length state.cells)
        ++ count_text (taken (ids_of state.cells)) }
{}

/// A saved world that is written is read again.
pub fn written_is_read_again()
    ensures { (state : SavedState) → IsWritable state → saved_of (saved_text state) ≡ Ok state }
{
    one_spelling();
    images_are_whole();
}

/// The state of each world of a run can be written so that it is read again.
pub fn runs_can_be_written(config: &Config, updates: u32)
    requires { updates ≤ 1000000 }
    ensures { let run = values_of config.now in
        IsWritable (state_of_world run (world_after run updates)) }
{
    runs_can_go_on(config, updates);
}

/// What a run leaves is read again as it is written.
#[tactic(auto, unfolding(saved_worlds::specs::SavedState::state_of))]
pub fn runs_are_read_again(config: &Config)
    ensures { let left = state_of (values_of config.now) in
        saved_of (saved_text left) ≡ Ok left }
{
    runs_can_be_written(config, config.updates);
    written_is_read_again();
}

/// A saved world that is read can be written so that it is read again.
pub fn read_worlds_can_be_written()
    ensures { (bytes : List ℕ) (state : SavedState)
        → saved_of bytes ≡ Ok state
        → IsWritable state }
{
    lines_can_go_on();
}

/// What a saved world that is read leaves after so many updates is read again as it is written,
/// where its next id and its ages are still such as a saved world has. They are where it has room
/// for so many updates.
pub fn advanced_worlds_are_read_again()
    ensures again { (bytes : List ℕ) (state : SavedState) (more : ℕ)
        → saved_of bytes ≡ Ok state
        → state.head.update + more ≤ 1000000
        → FitsText (saved_state_after state more)
        → saved_of (saved_text (saved_state_after state more))
        ≡ Ok (saved_state_after state more) }
    ensures room { (bytes : List ℕ) (state : SavedState) (more : ℕ)
        → saved_of bytes ≡ Ok state
        → state.head.update + more ≤ 1000000
        → HasRoomFor state more
        → FitsText (saved_state_after state more) }
{
    read_worlds_can_be_written();
    states_stay_valid();
    written_is_read_again();
}
