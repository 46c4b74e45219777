// The places of memory, in two bytes each.
ghost use Rattle.std.specs.Prelude.{◌≡◌, ◌<◌, true, length, slice_index_or};
ghost use Rattle.instruction_set.specs.declared.letter.Letter.TheVariants.{NopA};
ghost use Rattle.label_search.specs.Site.{rest_of, letters_of};

use instruction_set::Letter;
use std::marker::Model;

/// A place of memory.
#[derive(Clone, Copy)]
pub struct Site {
    letter: Letter,
    /// The index of the clean letter, 32 more where the place was executed, and 64 more where it
    /// was copied to.
    rest: u8,
}

impl Model for Site {
    ghost use Rattle.std.proofs.Common.{ap, sym};
    ghost use Rattle.label_search.specs.Site.{Site as Place};

    ghost Value = { Place };

    ghost use Rattle.label_search.specs.Site.{place_of, rest_of, IsRest};

    ghost view = { place_of };

    ghost invariant = { λ site. IsRest site.rest };

    ghost inverse = { λ place. record {
      letter = place.letter;
      rest = rest_of place.clean place.executed place.copied;
    } };

    ghost inverse_ok = { λ site packed. ap (λ rest. record { letter = site.letter; rest = rest })
        (sym packed) };
}

impl Site {
    /// The place of these letters and marks.
    #[inline(always)]
    pub fn new(letter: Letter, clean: Letter, executed: bool, copied: bool) -> Site
        ensures { result ≡ record {
          letter = letter;
          clean = clean;
          executed = executed;
          copied = copied;
        } }
    {
        Site {
            letter,
            rest: rest_of(clean, executed, copied),
        }
    }

    #[inline(always)]
    pub fn letter(&self) -> Letter
        ensures { result ≡ self.now.letter }
    {
        self.letter
    }

    /// What was copied there, before any copy error.
    pub fn clean(&self) -> Letter
        ensures { result ≡ self.now.clean }
    {
        Letter::from_index(self.rest % 32).unwrap_or(Letter::NopA)
    }

    #[inline(always)]
    pub fn executed(&self) -> bool
        ensures { result ≡ self.now.executed }
    {
        self.rest / 32 % 2 == 1
    }

    #[inline(always)]
    pub fn copied(&self) -> bool
        ensures { result ≡ self.now.copied }
    {
        self.rest / 64 % 2 == 1
    }

    #[inline(always)]
    pub fn mark_executed(&mut self)
        ensures { self.new ≡ record self.old { executed = true } }
    {
        self.rest = self.rest % 32 + 32 + self.rest / 64 * 64;
    }

    /// Writes a letter as the copy of another.
    #[inline(always)]
    pub fn copy(&mut self, letter: Letter, clean: Letter)
        ensures { self.new ≡ record self.old { letter = letter; clean = clean; copied = true } }
    {
        self.letter = letter;
        self.rest = clean.index() + self.rest / 32 % 2 * 32 + 64;
    }
}

/// A clean letter and two marks in one byte.
#[inline(always)]
fn rest_of(clean: Letter, executed: bool, copied: bool) -> u8
    ensures { result ≡ rest_of clean executed copied }
{
    match (executed, copied) {
        (false, false) => clean.index(),
        (true, false) => clean.index() + 32,
        (false, true) => clean.index() + 64,
        (true, true) => clean.index() + 96,
    }
}

/// The letter at a place.
#[inline(always)]
pub fn letter_at(memory: &[Site], place: usize) -> Letter
    requires { place < length memory.now }
    ensures { result ≡ slice_index_or (letters_of memory.now) place NopA }
{
    memory[place].letter()
}
