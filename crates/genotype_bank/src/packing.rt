// Letters in words, and back.
ghost use Rattle.std.specs.Prelude.{◌≡◌, ◌++◌, IfOk, OnOk};
ghost use Rattle.genotype_bank.specs.Packing.{letters_within, packed, unpacked};

use avida_port::Memory;
use instruction_set::Letter;
use std::alloc::Global;

/// How many letters a word has room for.
const WORD_LETTERS: u32 = 13;

/// The least word that has no room for a further letter.
const FULL_WORD: u64 = 150_094_635_296_999_121;

/// The words of some letters, in no more memory than they need.
pub(crate) fn words_of(alloc: Global, letters: &[Letter]) -> Result<Vec<u64>, Memory>
    ensures { IfOk result (λ words. words.items ≡ packed letters.now) }
{
    let mut words = Vec::with_capacity(alloc, letters.len().div_ceil(WORD_LETTERS as usize))?;
    let mut last: u64 = 0;
    for letter in letters {
        let digit = u64::from(letter.index()) + 1;
        if last < FULL_WORD {
            last = last * 27 + digit;
        } else {
            words.push(last)?;
            last = digit;
        }
    }
    words.push(last)?;
    Ok(words)
}

/// The letters of words.
pub(crate) fn letters_in_words(alloc: Global, words: &[u64]) -> Result<Vec<Letter>, Memory>
    ensures { IfOk result (λ letters. letters.items ≡ unpacked words.now) }
{
    let mut letters = Vec::new(alloc);
    for word in words {
        append_letters(*word, WORD_LETTERS, &mut letters)?;
    }
    Ok(letters)
}

/// Appends the letters of a word, of which there are at most `most`.
#[tactic(auto, using(crate::proofs::PackingLemmas::letters_of_a_word))]
fn append_letters(word: u64, most: u32, letters: &mut Vec<Letter>) -> Result<(), Memory>
    ensures { OnOk result (letters.new.items ≡ letters.old.items ++ letters_within most word) }
{
    if most == 0 {
        return Ok(());
    }
    if word == 0 {
        return Ok(());
    }
    append_letters(word / 27, most - 1, letters)?;
    if let Some(letter) = Letter::from_index((word % 27).saturating_sub(1) as u8) {
        letters.push(letter)?;
    }
    Ok(())
}
