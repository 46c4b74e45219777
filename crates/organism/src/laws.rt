ghost use Rattle.std.specs.Prelude.{◌≡◌, ℕ, ◌<◌, ◌≤◌, ◌^◌, Bool, List, length};
ghost use Rattle.organism.specs.Prelude.{Letter, AreRules, IsGenome};
ghost use Rattle.organism.specs.OrganismState.{OrganismState, new_organism};
ghost use Rattle.organism.specs.SettingNumbers.{SettingNumbers};
ghost use Rattle.organism.specs.UpdateLife.{life};
ghost use Rattle.organism.specs.Lived.{IsSoundOrganism, beginning, HasLived};

use crate::trace_rules::{TRACE_LENGTH, TRACE_PERCENT};

/// The code's limits are the numbers that the definitions state.
pub fn limits()
    ensures trace_length { TRACE_LENGTH ≡ 2048 }
    ensures trace_percent { TRACE_PERCENT ≡ 50 }
{}

/// A life leaves a sound organism sound, whatever the words are, and its newborns are made by their
/// records.
pub fn lives_are_sound()
    ensures { (settings : SettingNumbers) (words : ℕ → ℕ) (start : OrganismState) (steps : ℕ)
        → AreRules settings.rules
        → ((k : ℕ) → words k < 2 ^ 32)
        → IsSoundOrganism start
        → HasLived settings start steps (life settings words (beginning start) steps).0 }
{
    divide_rules::laws::viable_divides_keep_the_rules();
    merit_slices::laws::merits_are_bounded();
    mutations::laws::drawn_records_apply();
    mutations::laws::drawn_records_have_form();
    virtual_cpu::laws::steps_leave_machines();
    virtual_cpu::laws::texts_start_machines();
    virtual_cpu::laws::machines_hold_words();
}

/// A new organism that has a merit is sound.
pub fn new_organisms_are_sound()
    ensures { (letters : List Letter) (inputs : List ℕ) (merit : ℕ) (credited : List Bool)
        (limit : ℕ)
        → IsGenome letters
        → length letters ≤ limit
        → limit ≤ 8192
        → 1 ≤ merit
        → merit ≤ 2 ^ 38
        → IsSoundOrganism (new_organism letters inputs merit credited limit) }
{
    virtual_cpu::laws::texts_start_machines();
    virtual_cpu::laws::machines_hold_words();
}
