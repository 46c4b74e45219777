// A saved world goes on as its run would have (docs/WORLD.md, "Saved worlds").
ghost use Rattle.std.specs.Prelude.{◌≡◌, ℕ, ◌+◌, ◌++◌, ◌<◌, ◌≤◌, ◌↔◌, List, Result};
ghost use Rattle.lineage_log.specs.LogGrammar.{lines_text};
ghost use Rattle.world_config.specs.Values.{values_of};
ghost use Rattle.world_rules.specs.LogText.{head_text, log_text, update_lines, updates_text};
ghost use Rattle.world_rules.specs.Update.{next_world};
ghost use Rattle.world_rules.specs.World.{World};
ghost use Rattle.world_rules.specs.WorldRun.{world_after};
ghost use Rattle.saved_lines.specs.SavedValues.{HeadValues};
ghost use Rattle.saved_worlds.specs.SavedGrammar.{ReadsSaved, Placed, saved_of, state_of_lines};
ghost use Rattle.saved_worlds.specs.SavedState.{SavedState, state_of, state_of_world};
ghost use Rattle.saved_worlds.specs.Resuming.{continued_text, next_state, next_text, saved_state_after};
ghost use Rattle.saved_worlds.specs.ValidState.{AreSaved, CanGoOn, FitsText, HasRoomFor};
ghost use Rattle.saved_worlds.specs.declared.saved_stop.SavedStop.{SavedStop};

use world_config::Config;
use world_laws::laws::{organisms_are_sound, organisms_stay_in_range, ranges_are_kept};

/// Bytes are read as what `saved_of` gives, a state or a rejection, and as nothing else.
pub fn one_answer()
    ensures { (bytes : List ℕ) (answer : Result SavedState SavedStop)
        → ReadsSaved bytes answer ↔ (saved_of bytes ≡ answer) }
{}

/// The state that a run leaves, after `more` further updates, is that of the run that is longer by
/// as many. The log without its last line, and then what the resumed world writes, are the log of
/// that run.
pub fn resumed_runs_go_on(config: &Config, more: u32)
    ensures state { let run = values_of config.now in
        saved_state_after (state_of run) more
        ≡ state_of_world run (world_after run (run.updates + more)) }
    ensures log { let run = values_of config.now in
        (head_text run ++ updates_text run run.updates) ++ continued_text (state_of run) more
        ≡ log_text run (run.updates + more) }
{}

/// Once the events of a configuration are over, the state of a world goes on as the world does.
pub fn states_go_on(config: &Config)
    ensures state { let run = values_of config.now in (w : World)
        → run.updates ≤ w.update
        → next_state (state_of_world run w) ≡ state_of_world run (next_world run w) }
    ensures text { let run = values_of config.now in (w : World)
        → run.updates ≤ w.update
        → next_text (state_of_world run w) ≡ lines_text (update_lines run w) }
{}

/// A head and organisms of which a saved world can be made are a state that can go on, and that
/// fits its text.
pub fn lines_can_go_on()
    ensures valid { (head : HeadValues) (placed : List Placed)
        → AreSaved head placed
        → CanGoOn (state_of_lines head placed) }
    ensures fits { (head : HeadValues) (placed : List Placed)
        → AreSaved head placed
        → FitsText (state_of_lines head placed) }
{}

/// The state of each world of a run can go on, and its next id and ages are such as a saved
/// world's lines have.
pub fn runs_can_go_on(config: &Config, updates: u32)
    requires { updates ≤ 1000000 }
    ensures valid { let run = values_of config.now in
        CanGoOn (state_of_world run (world_after run updates)) }
    ensures fits { let run = values_of config.now in
        FitsText (state_of_world run (world_after run updates)) }
{
    organisms_are_sound(config, updates);
    organisms_stay_in_range(config, updates);
}

/// A state that can go on still can after an update, and after so many, and keeps fitting its text
/// where it has room for them.
pub fn states_stay_valid()
    ensures next { (state : SavedState)
        → CanGoOn state
        → state.head.update < 1000000
        → CanGoOn (next_state state) }
    ensures valid { (state : SavedState) (more : ℕ)
        → CanGoOn state
        → state.head.update + more ≤ 1000000
        → CanGoOn (saved_state_after state more) }
    ensures update { (state : SavedState) (more : ℕ)
        → (saved_state_after state more).head.update ≡ state.head.update + more }
    ensures fits { (state : SavedState) (more : ℕ)
        → CanGoOn state
        → state.head.update + more ≤ 1000000
        → HasRoomFor state more
        → FitsText (saved_state_after state more) }
{
    ranges_are_kept();
}
