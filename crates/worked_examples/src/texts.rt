// Letters and genomes as texts (docs/FORMATS.md).
ghost use Rattle.std.specs.Prelude.{◌≡◌, Some, None, Ok, Err, codes, replicate};
ghost use Rattle.instruction_set.specs.Letter.{letter_at, letter_of_byte, letter_named};
ghost use Rattle.instruction_set.specs.declared.letter.Letter.TheVariants.{NopA, Inc, HSearch};
ghost use Rattle.genome.specs.GenomeText.{spelled_by_letters};
ghost use Rattle.genome.specs.declared.stop.GenomeStop.TheVariants.{BadLetter, TooShort};

#[tactic(auto, unfolding(instruction_set::specs::Letter::letter_at, instruction_set::specs::Letter::letter_of_byte, instruction_set::specs::Letter::letter_named))]
pub fn a_letter_is_found_by_index_byte_and_name()
    ensures by_index { letter_at 12 ≡ Some Inc }
    ensures past_the_table { letter_at 26 ≡ None }
    ensures by_byte { letter_of_byte 122 ≡ Some HSearch }
    ensures by_name { letter_named (codes "nop-A") ≡ Some NopA }
    ensures in_another_case { letter_named (codes "Inc") ≡ None }
{}

#[tactic(auto, unfolding(instruction_set::specs::Letter::letter_of_byte))]
pub fn a_text_by_letters_is_a_genome_or_has_a_cause()
    ensures final_line_end { spelled_by_letters (codes "mmmmmmmm\n") ≡ Ok (replicate 8 Inc) }
    ensures bad_letter_first { spelled_by_letters (codes "mmM") ≡ Err (BadLetter 2) }
    ensures short { spelled_by_letters (codes "mmm") ≡ Err (TooShort 3) }
{}
