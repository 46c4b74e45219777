// The two spellings of a genome.
ghost use Rattle.std.specs.Prelude.{◌≡◌, ◌≢◌, ◌<◌, ◌++◌, IfOk, IfErr, OnOk, OnErr, filter_map};
ghost use Rattle.instruction_set.specs.Letter.{letter_of_byte};
ghost use Rattle.genome.specs.Genome.{letters};
ghost use Rattle.genome.specs.GenomeText.{before_line_end, first_bad_byte, letters_of, spelled_by_letters, letters_text_of};

use crate::genome::Genome;
use crate::stop::GenomeStop;
use avida_port::Memory;
use instruction_set::Letter;
use std::alloc::{AllocError, Global};

/// Reads a genome spelled by letters, a byte each. One line end at the end is allowed. The first
/// byte that is no letter is told by its place, before anything is allocated; then the length.
pub fn read_letters(alloc: Global, bytes: &[u8]) -> Result<Genome, GenomeStop>
    ensures ok { IfOk result (λ genome. spelled_by_letters bytes.now ≡ Ok (letters genome)) }
    ensures refused { IfErr result (λ s. s ≢ GenomeStop.Memory →
        spelled_by_letters bytes.now ≡ Err s) }
    ensures bad_letter { IfErr (letters_of bytes.now) (λ at.
        result ≡ Err (GenomeStop.BadLetter at)) }
{
    let text = before_line_end(bytes);
    if let Some(at) = first_bad_byte(text) {
        return Err(GenomeStop::BadLetter { at: at as u64 });
    }
    match letters_in(alloc, text) {
        Ok(letters) => Genome::from_vec(letters),
        Err(_) => Err(GenomeStop::Memory),
    }
}

fn first_bad_byte(text: &[u8]) -> Option<usize>
    ensures { result ≡ first_bad_byte text.now }
{
    text.iter()
        .position(|byte| Letter::from_byte(*byte).is_none())
}

/// The letters among the bytes.
#[tactic(auto, using(crate::proofs::ListLemmas::filter_map_steps))]
fn letters_in(alloc: Global, text: &[u8]) -> Result<Vec<Letter>, AllocError>
    ensures { IfOk result (λ letters. letters.items ≡ filter_map letter_of_byte text.now) }
{
    let mut letters = Vec::with_capacity(alloc, text.len())?;
    for byte in text {
        if let Some(letter) = Letter::from_byte(*byte) {
            letters.push_reserved(letter);
        }
    }
    Ok(letters)
}

fn before_line_end(bytes: &[u8]) -> &[u8]
    ensures { result.now ≡ before_line_end bytes.now }
{
    if bytes.ends_with(b"\n") {
        &bytes[..bytes.len() - 1]
    } else {
        bytes
    }
}

/// Appends the letters' bytes. When memory runs out, `out` stays as it was.
pub fn letters_text(genome: &Genome, out: &mut Vec<u8>) -> Result<(), Memory>
    ensures ok { OnOk result (out.new.items ≡
        out.old.items ++ letters_text_of (letters genome.now)) }
    ensures err { OnErr result (out.new.items ≡ out.old.items) }
{
    let letters = genome.letters();
    if out.reserve(letters.len()).is_err() {
        return Err(Memory);
    }
    for letter in letters {
        out.push_reserved(letter.byte());
    }
    Ok(())
}
