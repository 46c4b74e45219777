// What holds of the worlds of every run (docs/WORLD.md, "Lines of descent").
ghost use Rattle.std.specs.Prelude.{◌≡◌, ℕ, List, [], ◌∷◌, ◌++◌, Some, slice_get};
ghost use Rattle.world_rules.specs.Prelude.{Link, ConfigValues};
ghost use Rattle.world_rules.specs.WorldRun.{world_after};
ghost use Rattle.world_rules.specs.Descent.{descent_line_of, line_of_parent, descent_lines_of, AreNumbered, IsNumberedWorld};

/// An id is a place in the list of all, and a parent's comes before its child's.
pub fn ids_are_places()
    ensures { (config : ConfigValues) (updates : ℕ) → IsNumberedWorld (world_after config updates) }
{}

/// The line of an organism is that of its parent, and itself.
pub fn lines_come_from_parents()
    ensures { (everyone : List Link) (id : ℕ) (link : Link)
        → AreNumbered everyone
        → slice_get everyone id ≡ Some link
        → descent_line_of everyone id ≡ line_of_parent (descent_lines_of everyone) link.parent
        ++ link ∷ [] }
{}
