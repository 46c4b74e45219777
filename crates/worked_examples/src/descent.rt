// Who is kept of a line of descent (docs/WORLD.md, "Lines of descent").
ghost use Rattle.std.specs.Prelude.{◌≡◌, [], ◌∷◌, None, Some, map};
ghost use Rattle.lineage_log.specs.Ancestry.{kept_of, Link};

/// The founder 0 bears 1 and 2.
#[tactic(auto, unfolding(lineage_log::specs::Ancestry::kept_of))]
pub fn a_child_without_descendants_is_not_kept()
    ensures { map (λ (link : Link). link.id) (kept_of (
        record { id = 0; parent = None; update = 0; cell = 0; origin = None; genome = [] }
        ∷ record { id = 1; parent = Some 0; update = 1; cell = 1; origin = None; genome = [] }
        ∷ record { id = 2; parent = Some 0; update = 1; cell = 2; origin = None; genome = [] }
        ∷ []) (0 ∷ 2 ∷ [])) ≡ 0 ∷ 2 ∷ [] }
{}

/// The founder 0 bears 1, which bears 2.
#[tactic(auto, unfolding(lineage_log::specs::Ancestry::kept_of))]
pub fn a_line_is_kept_as_long_as_its_last_organism_lives()
    ensures alone { map (λ (link : Link). link.id) (kept_of (
        record { id = 0; parent = None; update = 0; cell = 0; origin = None; genome = [] }
        ∷ record { id = 1; parent = Some 0; update = 1; cell = 1; origin = None; genome = [] }
        ∷ record { id = 2; parent = Some 1; update = 2; cell = 2; origin = None; genome = [] }
        ∷ []) (2 ∷ [])) ≡ 0 ∷ 1 ∷ 2 ∷ [] }
    ensures nobody { map (λ (link : Link). link.id) (kept_of (
        record { id = 0; parent = None; update = 0; cell = 0; origin = None; genome = [] }
        ∷ record { id = 1; parent = Some 0; update = 1; cell = 1; origin = None; genome = [] }
        ∷ record { id = 2; parent = Some 1; update = 2; cell = 2; origin = None; genome = [] }
        ∷ []) []) ≡ [] }
{}
