// Genomes spelled by names.
ghost use Rattle.std.specs.Prelude.{◌≡◌, ◌≤◌, IfSome, length, ◌≢◌, ◌==◌, ◌++◌, ◌∷◌, [], IfOk, IfErr, OnOk, OnErr, filter_map, position, reverse};
ghost use Rattle.std.specs.List.{position_from, before_first};
ghost use Rattle.instruction_set.specs.Letter.{letter_named};
ghost use Rattle.genome.specs.Genome.{letters};
ghost use Rattle.genome.specs.GenomeText.{after_blanks, between_blanks, is_bad_line, is_blank, name_lines, names_of, names_text_of, spelled_by_names, word_of_line};

use crate::genome::Genome;
use crate::stop::GenomeStop;
use avida_port::Memory;
use instruction_set::Letter;
use std::alloc::{AllocError, Global};

/// Reads a genome spelled by names, one a line. Blanks around a name, empty lines and comments from
/// `#` on are skipped. The first line whose word is no name is told, before anything is allocated;
/// then the length.
#[tactic(auto, using(crate::proofs::ListLemmas::counted_from_one))]
pub fn read_names(alloc: Global, bytes: &[u8]) -> Result<Genome, GenomeStop>
    ensures ok { IfOk result (λ genome. spelled_by_names bytes.now ≡ Ok (letters genome)) }
    ensures refused { IfErr result (λ s. s ≢ GenomeStop.Memory →
        spelled_by_names bytes.now ≡ Err s) }
    ensures bad_name { IfErr (names_of bytes.now) (λ line.
        result ≡ Err (GenomeStop.BadName line)) }
{
    if let Some(at) = first_bad_line(bytes) {
        return Err(GenomeStop::BadName {
            line: at as u64 + 1,
        });
    }
    match letters_named(alloc, bytes) {
        Ok(letters) => Genome::from_vec(letters),
        Err(_) => Err(GenomeStop::Memory),
    }
}

/// The place, from 0, of the first line that has a word and no name.
fn first_bad_line(bytes: &[u8]) -> Option<usize>
    ensures place { result ≡ position_from is_bad_line 0 (name_lines bytes.now) }
    ensures within { IfSome result (λ at. at ≤ length bytes.now) }
{
    bytes
        .split(|byte| *byte == b'\n')
        .position(|line| is_bad_line(line))
}

/// The letters that the lines name.
fn letters_named(alloc: Global, bytes: &[u8]) -> Result<Vec<Letter>, AllocError>
    ensures { IfOk result (λ made. made.items ≡
        filter_map (λ line. letter_named (word_of_line line)) (name_lines bytes.now)) }
{
    bytes
        .split(|byte| *byte == b'\n')
        .filter_map(|line| Letter::from_name(word_of(line)))
        .collect(alloc)
}

#[tactic(auto, unfolding(crate::specs::GenomeText::is_bad_line))]
fn is_bad_line(line: &[u8]) -> bool
    ensures { result ≡ is_bad_line line.now }
{
    let word = word_of(line);
    !word.is_empty() && Letter::from_name(word).is_none()
}

#[tactic(auto, unfolding(crate::specs::GenomeText::word_of_line))]
fn word_of(line: &[u8]) -> &[u8]
    ensures { result.now ≡ word_of_line line.now }
{
    between_blanks(before_comment(line))
}

#[tactic(auto, using(crate::proofs::ListLemmas::before_first_steps))]
fn before_comment(line: &[u8]) -> &[u8]
    ensures { result.now ≡ before_first (λ byte. byte == 35) line.now }
{
    match comment_start(line) {
        Some(at) => &line[..at],
        None => line,
    }
}

fn comment_start(line: &[u8]) -> Option<usize>
    ensures { result ≡ position (λ byte. byte == 35) line.now }
{
    line.iter().position(|byte| *byte == b'#')
}

fn between_blanks(bytes: &[u8]) -> &[u8]
    ensures { result.now ≡ between_blanks bytes.now }
{
    before_blanks(after_blanks(bytes))
}

fn after_blanks(bytes: &[u8]) -> &[u8]
    ensures { result.now ≡ after_blanks bytes.now }
{
    let mut rest = bytes;
    while let [first, tail @ ..] = rest {
        if !is_blank(*first) {
            return rest;
        }
        rest = tail;
    }
    rest
}

#[tactic(auto, using(crate::proofs::TextLemmas::blanks_at_the_end))]
fn before_blanks(bytes: &[u8]) -> &[u8]
    ensures { result.now ≡ reverse (after_blanks (reverse bytes.now)) }
{
    let mut rest = bytes;
    while let [front @ .., last] = rest {
        if !is_blank(*last) {
            return rest;
        }
        rest = front;
    }
    rest
}

fn is_blank(byte: u8) -> bool
    ensures { result ≡ is_blank byte }
{
    matches!(byte, b' ' | b'\t' | b'\r')
}

/// Appends each letter's name and a line end. When memory runs out, `out` stays as it was.
pub fn names_text(genome: &Genome, out: &mut Vec<u8>) -> Result<(), Memory>
    ensures ok { OnOk result (out.new.items ≡ out.old.items ++ names_text_of (letters genome.now)) }
    ensures err { OnErr result (out.new.items ≡ out.old.items) }
{
    let before = out.len();
    for letter in genome.letters() {
        if append_line(letter.name(), out).is_err() {
            out.truncate(before);
            return Err(Memory);
        }
    }
    Ok(())
}

fn append_line(name: &str, out: &mut Vec<u8>) -> Result<(), Memory>
    ensures ok { OnOk result (out.new.items ≡ out.old.items ++ (name.now ++ 10 ∷ [])) }
    ensures err { OnErr result (out.new.items ≡ out.old.items) }
{
    if out.reserve(name.len() + 1).is_err() {
        return Err(Memory);
    }
    if out.extend_from_slice(name.as_bytes()).is_err() {
        return Err(Memory);
    }
    out.push_reserved(b'\n');
    Ok(())
}
