ghost use Rattle.log_lines.specs.LineReading.{OneSpelling};

/// Each line has one spelling. It has no newline in it.
pub fn one_spelling()
    ensures { OneSpelling }
{}
