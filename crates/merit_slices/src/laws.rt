ghost use Rattle.std.specs.Prelude.{◌≡◌, ℕ, ◌*◌, ◌≤◌, ◌^◌, Bool, List, sum, length};
ghost use Rattle.merit_slices.specs.Merit.{merit_of};
ghost use Rattle.merit_slices.specs.Slices.{living_in, slices_of};

/// The merit of a genome's length is within the greatest, and at least 1 where no number is 0.
pub fn merits_are_bounded()
    ensures bounded { (genome_length executed copied : ℕ) (tasks : List Bool)
        → genome_length ≤ 8192
        → merit_of genome_length executed copied tasks ≤ 2 ^ 38 }
    ensures positive { (genome_length executed copied : ℕ) (tasks : List Bool)
        → 1 ≤ genome_length
        → 1 ≤ executed
        → 1 ≤ copied
        → 1 ≤ merit_of genome_length executed copied tasks }
{}

/// All cells together get all steps, the average for each that lives.
pub fn slices_are_all_steps()
    ensures { (merits : List ℕ) (average : ℕ)
        → sum (slices_of merits average) ≡ average * living_in merits }
{}

/// So they get no more steps than the average for each cell.
pub fn slices_are_few()
    ensures { (merits : List ℕ) (average : ℕ)
        → sum (slices_of merits average) ≤ average * length merits }
{
    slices_are_all_steps();
}
