// What the definitions give for tiny worlds, worked out by hand (docs/WORLD.md, "The log of a
// run").
ghost use Rattle.std.specs.Prelude.{◌≡◌, [], ◌∷◌, Some, None, true, false, codes};
ghost use Rattle.world_rules.specs.Prelude.{NopB, Copy, Death, Birth, Injected, Cleared, Rate, OrganismState, inject, clear, rate, ConfigValues};
ghost use Rattle.world_rules.specs.World.{first_world};
ghost use Rattle.world_rules.specs.Settings.{rates_at};
ghost use Rattle.world_rules.specs.Lives.{slices_at};
ghost use Rattle.world_rules.specs.LogText.{lines_of_lives, update_lines, log_text};
ghost use Rattle.world_rules.specs.WorldRun.{world_after, residents_of_world};
ghost use Rattle.world_rules.specs.Picture.{picture_of, picture_text};
ghost use Rattle.world_rules.specs.TinyWorlds.{tiny, once, eight, scene_after_life, barren, unchanged_birth, fertile, counts};

#[tactic(auto, unfolding(crate::specs::WorldRun::world_after))]
pub fn the_first_world_is_the_founders()
    ensures { (config : ConfigValues) → world_after config 0 ≡ first_world config }
{}

#[tactic(auto, unfolding(crate::specs::Settings::rates_at))]
pub fn a_rate_holds_from_the_next_update_on()
    ensures same { (rates_at (tiny (once (rate Copy 5))) 1).copy ≡ 0 }
    ensures next { (rates_at (tiny (once (rate Copy 5))) 2).copy ≡ 5 }
    ensures others { (rates_at (tiny (once (rate Copy 5))) 2).delete ≡ 0 }
{}

pub fn the_founder_gets_all_steps()
    ensures { slices_at (tiny []) (first_world (tiny [])).cells ≡ 8 ∷ [] }
{}

pub fn an_update_tells_its_events()
    ensures inject { (o : OrganismState)
        → lines_of_lives (tiny (once (inject 0 (eight NopB)))) (scene_after_life 1 (barren o false))
        (barren o false)
        ≡ Injected 1 1 0 (Some 0) (eight NopB) ∷ counts 1 1 0 1 1 8 ∷ [] }
    ensures clear { (o : OrganismState)
        → lines_of_lives (tiny (once (clear 0 0))) (scene_after_life 1 (barren o false))
        (barren o false)
        ≡ Cleared 0 1 0 ∷ counts 1 0 0 1 0 0 ∷ [] }
    ensures death { (o : OrganismState)
        → lines_of_lives (tiny []) (scene_after_life 4 (barren o true)) (barren o true)
        ≡ Death 0 4 0 ∷ counts 4 0 0 1 0 0 ∷ [] }
{}

#[tactic(auto, unfolding(crate::specs::LogText::log_text, crate::specs::LogText::head_text, crate::specs::LogText::end_text))]
pub fn a_run_of_no_updates_has_two_lines()
    ensures { log_text (tiny []) 0 ≡ codes "L 2 1 1 0 aaaaaaaa\nE 0\n" }
{}

#[tactic(auto, unfolding(crate::specs::Picture::picture_of, crate::specs::Picture::picture_text, crate::specs::Statistics::stats_of, crate::specs::Statistics::stats_in, crate::specs::Statistics::dominant_of, census::specs::Counts::dominant_among, crate::specs::WorldRun::world_after, crate::specs::World::first_world, crate::specs::World::founder_of, organism::specs::OrganismState::new_organism))]
pub fn the_first_picture_shows_the_founder()
    ensures { picture_text (picture_of (tiny []) 0) ≡ codes "W 0 1 1 8 1 aaaaaaaa\n" }
{}

pub fn an_organism_dies_with_the_step_of_its_age_limit()
    ensures alone { update_lines (tiny []) (first_world (tiny []))
        ≡ Death 0 1 0 ∷ counts 1 0 0 1 0 0 ∷ [] }
    ensures with_event { update_lines (tiny (once (rate Copy 5)))
        (first_world (tiny (once (rate Copy 5))))
        ≡ Death 0 1 0 ∷ Rate 1 Copy 5 ∷ counts 1 0 0 1 0 0 ∷ [] }
{}

pub fn an_empty_world_goes_on()
    ensures lines { update_lines (tiny []) (world_after (tiny []) 1) ≡ counts 2 0 0 0 0 0 ∷ [] }
    ensures nobody { residents_of_world (world_after (tiny []) 1) ≡ [] }
{}

/// The first takes the cell of the dead parent, and the second that of the first.
pub fn newborns_take_the_only_cell()
    ensures { (o : OrganismState)
        → lines_of_lives (tiny []) (scene_after_life 1 (fertile o)) (fertile o)
        ≡ Death 0 1 0 ∷ Birth 1 0 1 0 None unchanged_birth ∷ Birth 2 0 1 0 (Some 1) unchanged_birth
        ∷ counts 1 1 2 2 1 16 ∷ [] }
{}
