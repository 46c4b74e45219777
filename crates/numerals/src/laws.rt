ghost use Rattle.numerals.specs.Numeral.{OneNumber};

/// A number in the range has one spelling, of digits alone; no text without digits and none that
/// begins with `-` is a number.
pub fn one_spelling()
    ensures { OneNumber }
{}
