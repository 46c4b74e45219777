// How the look-ups and the columns of the table hang together.
ghost use Rattle.std.specs.Prelude.{◌≡◌, Decides, List, Some, true};
ghost use Rattle.instruction_set.specs.Letter.{index_of, byte_of, class_of, name_of, letter_at, letter_of_byte, letter_named, same_letter, same_letters};
ghost use Rattle.instruction_set.specs.Defaults.{default_of, is_of_class};

use crate::letter::Letter;

/// Each letter is found by its index, by its byte and by its name.
pub fn found_again(letter: Letter)
    ensures by_index { letter_at (index_of letter) ≡ Some letter }
    ensures by_byte { letter_of_byte (byte_of letter) ≡ Some letter }
    ensures by_name { letter_named (name_of letter) ≡ Some letter }
{
    let _letter = letter;
}

/// Letters with one index are one letter, and so are lists of them.
pub fn one_index()
    ensures letter { (letter other : Letter)
        → Decides (same_letter letter other) (letter ≡ other) }
    ensures list { (letters others : List Letter)
        → Decides (same_letters letters others) (letters ≡ others) }
{}

/// A letter of the class Register has a register as its default, one of the class Head a head, and
/// no other letter has a default.
pub fn defaults_by_class()
    ensures { (letter : Letter) → is_of_class (default_of letter) (class_of letter) ≡ true }
{}
