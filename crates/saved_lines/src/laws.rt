ghost use Rattle.saved_lines.specs.SavedForms.{OneSpelling};

/// Each line of a saved world has one spelling, which has no newline in it.
pub fn one_spelling()
    ensures { OneSpelling }
{
    numerals::laws::one_spelling();
}
