ghost use Rattle.std.specs.Prelude.{ℕ, ◌≡◌, ◌<◌, ◌↔◌, ◌++◌, ◌∷◌, [], All, Contains, List, Result, Some};
ghost use Rattle.lineage_log.specs.Prelude.{option_map_or, Line};
ghost use Rattle.lineage_log.specs.declared.log_stop.LogStop.{LogStop};
ghost use Rattle.lineage_log.specs.Ancestry.{AreOlder, kept_of, line_of_descent, link_of, Link};
ghost use Rattle.lineage_log.specs.LogGrammar.{IsGoodLog, Reads, lines_text, log_of};
ghost use Rattle.lineage_log.specs.ReadsLog.{ReadsLog};

/// Bytes are read as a list of lines exactly where they are its text and it is a good log.
pub fn read_exactly()
    ensures { (bytes : List ℕ) (lines : List Line)
        → Reads bytes lines ↔ ((lines_text lines ≡ bytes) × IsGoodLog lines) }
{
    log_lines::laws::one_spelling();
}

/// Bytes are read as what `log_of` gives, lines or a rejection, and as nothing else.
pub fn one_answer()
    ensures { (bytes : List ℕ) (answer : Result (List Line) LogStop)
        → ReadsLog bytes answer ↔ (log_of bytes ≡ answer) }
{
    log_lines::laws::one_spelling();
}

/// The line of descent of an organism is that of its parent, and itself.
pub fn lines_come_from_parents()
    ensures { (links : List Link) (id : ℕ) (link : Link)
        → AreOlder links
        → link_of links id ≡ Some link
        → line_of_descent links id ≡ option_map_or (line_of_descent links) link.parent [] ++ link
        ∷ [] }
{}

/// What is kept of all organisms ever: with a newcomer, whose parent lives, it is kept too; once
/// fewer live, it is what is kept of those that were kept; and the links and the lines of the
/// living stay.
pub fn keeping_goes_on()
    ensures more { (everyone : List Link) (living : List ℕ) (link : Link)
        → AreOlder everyone
        → All (λ (other : Link). other.id < link.id) everyone
        → All (λ id. id < link.id) living
        → ((above : ℕ) → link.parent ≡ Some above → Contains living above)
        → kept_of (everyone ++ link ∷ []) (living ++ link.id ∷ [])
        ≡ kept_of everyone living ++ link ∷ [] }
    ensures fewer { (everyone : List Link) (living left : List ℕ)
        → AreOlder everyone
        → ((id : ℕ) → Contains left id → Contains living id)
        → kept_of (kept_of everyone living) left ≡ kept_of everyone left }
    ensures same { (everyone : List Link) (living others : List ℕ)
        → ((id : ℕ) → Contains living id ↔ Contains others id)
        → kept_of everyone living ≡ kept_of everyone others }
    ensures links { (everyone : List Link) (living : List ℕ) (id : ℕ)
        → AreOlder everyone
        → Contains living id
        → link_of (kept_of everyone living) id ≡ link_of everyone id }
    ensures lines { (everyone : List Link) (living : List ℕ) (id : ℕ)
        → AreOlder everyone
        → Contains living id
        → line_of_descent (kept_of everyone living) id ≡ line_of_descent everyone id }
{}
