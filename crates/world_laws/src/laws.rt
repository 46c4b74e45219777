// Laws of every run (docs/WORLD.md, "Time slices", "The log of a run" and "Lines of descent").
ghost use Rattle.std.specs.Prelude.{◌≡◌, ℕ, ◌+◌, ◌*◌, ◌≤◌, ◌^◌, All, IfSome, List, Some, map, slice_get, sum, ◌<◌};
ghost use Rattle.world_laws.specs.Prelude.{Line, IsSoundOrganism, SettingNumbers, LifeState, life, ConfigValues, line_in, Occupant, World, world_after};
ghost use Rattle.lineage_log.specs.LogGrammar.{Reads};
ghost use Rattle.world_config.specs.Values.{values_of};
ghost use Rattle.world_rules.specs.LogText.{ReplaysToLiving, log_text};
ghost use Rattle.world_rules.specs.Lives.{merit_in};
ghost use Rattle.world_rules.specs.Update.{next_scene, next_world};
ghost use Rattle.world_laws.specs.Ranges.{AreSound, HasKept, LiveOn, GivesSmallId, HasFewIds, IsInRange, StandInRange, StayInRange};
ghost use Rattle.world_laws.specs.LowerLaws.{LifeLaws, LineLaws};
ghost use Rattle.world_laws.specs.Bounds.{IsConfig};
ghost use Rattle.world_laws.specs.Turnover.{AreDescended, IsDescent, IsLastOfLine, IsTurnover};

use world_config::Config;

/// What the crates below say of lives, of words, of new organisms and of slices.
fn lives_are_lawful()
    ensures { LifeLaws }
{
    merit_slices::laws::slices_are_few();
    organism::laws::lives_are_sound();
    organism::laws::new_organisms_are_sound();
    random_streams::laws::words_fit();
}

/// What `world_rules` says of ids and of lines of descent.
fn lines_are_lawful()
    ensures { LineLaws }
{
    world_rules::laws::ids_are_places();
    world_rules::laws::lines_come_from_parents();
}

/// The log of a run is a good log, and replays to the organisms that live at its end.
pub fn replay_gives_living(config: &Config, updates: u32)
    ensures { ReplaysToLiving (values_of config.now) updates }
{
    lineage_log::laws::read_exactly();
    lives_are_lawful();
}

/// Whoever was ever in a world, but for founders, has the genome that its record makes of its
/// parent's; so has each of a line of descent, of the one before it.
pub fn genomes_come_from_parents(config: &Config, updates: u32)
    ensures everyone { AreDescended (world_after (values_of config.now) updates).everyone }
    ensures line { (cell : ℕ)
        → IfSome (line_in (world_after (values_of config.now) updates) cell) IsDescent }
{
    lives_are_lawful();
    lines_are_lawful();
}

/// Whoever stands in a cell has the genome of the record of its id, and the line of descent of that
/// cell ends with this record.
pub fn lines_end_with_who_stands(config: &Config, updates: u32)
    ensures { (cell : ℕ) (occupant : Occupant)
        → slice_get (world_after (values_of config.now) updates).cells cell ≡ Some (Some occupant)
        → IsLastOfLine (world_after (values_of config.now) updates) cell occupant }
{
    lives_are_lawful();
    lines_are_lawful();
}

/// Each organism of a world is sound, with a merit of its own, and all merits together are few.
pub fn organisms_are_sound(config: &Config, updates: u32)
    ensures each { (cell : ℕ) (occupant : Occupant)
        → slice_get (world_after (values_of config.now) updates).cells cell ≡ Some (Some occupant)
        → IsSoundOrganism occupant.organism }
    ensures merits { sum (map merit_in (world_after (values_of config.now) updates).cells)
        ≤ 2 ^ 54 }
{
    lives_are_lawful();
}

/// In each update, who stands or dies stood at its begin or comes in it, and all others stand or
/// die. The parents of those who come stood at its begin.
pub fn organisms_come_and_go(config: &Config, updates: u32)
    ensures { IsTurnover (world_after (values_of config.now) updates).cells
        (world_after (values_of config.now) updates).everyone
        (next_scene (values_of config.now) (world_after (values_of config.now) updates)) }
{
    lives_are_lawful();
}

/// A life keeps the genome, and nothing but a birth changes the merit and the credited set.
pub fn births_alone_change_merits()
    ensures { (settings : SettingNumbers) (words : ℕ → ℕ) (start : LifeState) (steps : ℕ)
        → HasKept start (life settings words start steps).0 }
{}

/// Whoever stands in a world lives through the update after it, however many steps it has: sound,
/// of the same genome, and with few newborns, which the rules allow.
pub fn organisms_live_on(config: &Config, updates: u32)
    ensures { LiveOn (values_of config.now) (world_after (values_of config.now) updates) }
{
    lives_are_lawful();
}

/// Sound organisms live on, and those of the next world are sound, however they came into a world.
pub fn sound_organisms_live_on(config: &Config)
    ensures lives { (w : World) → AreSound w.cells → LiveOn (values_of config.now) w }
    ensures next { (w : World)
        → AreSound w.cells
        → AreSound (next_world (values_of config.now) w).cells }
{
    lives_are_lawful();
}

/// Each organism of a world has a genome of an allowed length, is younger than the age of death,
/// and keeps the memory limit of its world. Each has an id of its own.
pub fn organisms_stay_in_range(config: &Config, updates: u32)
    ensures each { (cell : ℕ) (occupant : Occupant)
        → slice_get (world_after (values_of config.now) updates).cells cell ≡ Some (Some occupant)
        → IsInRange (values_of config.now) (1 + 65536000 * updates) occupant.organism }
    ensures ids { HasFewIds (values_of config.now) updates
        (world_after (values_of config.now) updates) }
{
    lives_are_lawful();
    virtual_cpu::laws::steps_leave_machines();
}

/// Organisms in range stay so in each update, however they came into their world.
pub fn ranges_are_kept()
    ensures { (config : ConfigValues) (ages : ℕ) (w : World)
        → IsConfig config
        → StandInRange config ages w
        → StayInRange config ages w (next_world config w) }
{
    lives_are_lawful();
    virtual_cpu::laws::steps_leave_machines();
}

/// Each organism that is born or injected in a run has an id below 2^58: among all that were ever
/// in its world, and in each birth and injection of its log.
pub fn ids_are_few(config: &Config, updates: u32)
    ensures everyone { All (λ link. link.id < 2 ^ 58)
        (world_after (values_of config.now) updates).everyone }
    ensures log { (lines : List Line)
        → Reads (log_text (values_of config.now) updates) lines
        → All GivesSmallId lines }
{
    lives_are_lawful();
    lineage_log::laws::read_exactly();
    world_rules::laws::ids_are_places();
}
