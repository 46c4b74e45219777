// Tests of a rate that may draw a letter.
ghost use Rattle.std.specs.Prelude.{◌≡◌, ◌+◌, ◌-◌, ◌<◌, ◌≤◌, ◌↔◌, IsNone, IsFalse};
ghost use Rattle.random_streams.specs.RandomStream.{word_of, next_word, after, hits, word_count, million};
ghost use Rattle.mutations.specs.DivideErrors.{letter_of_word, error_letter, after_error};

use crate::Rates;
use instruction_set::Letter;
use random_streams::Draws;

/// Tests for a copy error: the letter that h-copy writes in place of the one that it read, or None
/// where there is no error. It takes one word, and one more where it hits.
#[inline(always)]
pub fn copy_error(rates: &Rates, draws: &mut Draws) -> Option<Letter>
    requires { draws.old.taken < word_count - 2 }
    ensures none { IsNone result ↔ IsFalse (hits (next_word draws.old) rates.now.copy) }
    ensures letter { result ≡ error_letter (word_of draws.old) rates.now.copy draws.old.taken }
    ensures taken { draws.new ≡ record draws.old {
      taken = after_error (word_of draws.old) rates.now.copy draws.old.taken;
    } }
{
    error_letter(rates.copy, draws)
}

#[inline(always)]
pub(crate) fn error_letter(rate: u32, draws: &mut Draws) -> Option<Letter>
    requires rate { rate ≤ million }
    requires room { draws.old.taken + 2 ≤ word_count }
    ensures letter { result ≡ error_letter (word_of draws.old) rate draws.old.taken }
    ensures taken { draws.new ≡ record draws.old {
      taken = after_error (word_of draws.old) rate draws.old.taken;
    } }
{
    if draws.hits(rate) {
        Some(drawn_letter(draws))
    } else {
        None
    }
}

/// The letter that the next word draws.
#[cold]
#[inline(never)]
#[tactic(auto, unfolding(crate::specs::DivideErrors::letter_of_word))]
pub(crate) fn drawn_letter(draws: &mut Draws) -> Letter
    requires { draws.old.taken < word_count }
    ensures letter { result ≡ letter_of_word (next_word draws.old) }
    ensures taken { draws.new ≡ after 1 draws.old }
{
    Letter::from_index(draws.below(26) as u8).unwrap_or_default()
}
