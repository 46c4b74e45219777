// The first part of a divide's errors: letters put in at places, and the points that tell them.
ghost use Rattle.std.specs.Prelude.{◌≡◌, ◌+◌, ◌*◌, ◌^◌, ◌<◌, ◌≤◌, List, ◌∷◌, ◌++◌, length, IfOk, OnOk};
ghost use Rattle.instruction_set.specs.declared.letter.Letter.{Letter};
ghost use Rattle.genome.specs.Genome.{IsGenome};
ghost use Rattle.random_streams.specs.RandomStream.{word_of, word_count, million};
ghost use Rattle.mutations.specs.DivideErrors.{site_text, after_sites, pointed_text, after_points, points_from};
ghost use Rattle.mutations.specs.Change.{Makes};

use crate::copying::error_letter;
use crate::{Change, Changes};
use avida_port::Memory;
use instruction_set::Letter;
use instruction_set::laws::one_index;
use random_streams::Draws;
use std::alloc::Global;

/// The text with its site points.
pub(crate) fn pointed_text(
    alloc: Global,
    written: &[Letter],
    rate: u32,
    draws: &mut Draws,
) -> Result<Vec<Letter>, Memory>
    requires rate { rate ≤ million }
    requires room { draws.old.taken + 2 * length written.now ≤ word_count }
    ensures text { IfOk result (λ text. text.items
        ≡ pointed_text (word_of draws.old) rate draws.old.taken written.now) }
    ensures same_length { IfOk result (λ text. length text.items ≡ length written.now) }
    ensures taken { OnOk result (draws.new ≡ record draws.old {
      taken = after_points (word_of draws.old) rate draws.old.taken written.now;
    }) }
    ensures stays { draws.new ≡ record draws.old { taken = draws.new.taken } }
    ensures most { draws.new.taken ≤ draws.old.taken + 2 * length written.now }
{
    let mut text = Vec::from_slice(alloc, written)?;
    point_sites(&mut text, rate, draws);
    Ok(text)
}

/// Tests each place where the rate is above 0.
fn point_sites(text: &mut [Letter], rate: u32, draws: &mut Draws)
    requires rate { rate ≤ million }
    requires room { draws.old.taken + 2 * length text.old ≤ word_count }
    ensures text { text.new ≡ pointed_text (word_of draws.old) rate draws.old.taken text.old }
    ensures taken { draws.new ≡ record draws.old {
      taken = after_points (word_of draws.old) rate draws.old.taken text.old;
    } }
    ensures most { draws.new.taken ≤ draws.old.taken + 2 * length text.old }
{
    if rate > 0 {
        test_sites(text, rate, draws);
    }
}

fn test_sites(text: &mut [Letter], rate: u32, draws: &mut Draws)
    requires rate { rate ≤ million }
    requires room { draws.old.taken + 2 * length text.old ≤ word_count }
    ensures text { text.new ≡ site_text (word_of draws.old) rate draws.old.taken text.old }
    ensures taken { draws.new ≡ record draws.old {
      taken = after_sites (word_of draws.old) rate draws.old.taken text.old;
    } }
    ensures most { draws.new.taken ≤ draws.old.taken + 2 * length text.old }
{
    for letter in text.iter_mut() {
        *letter = error_letter(rate, draws).unwrap_or(*letter);
    }
}

/// The points at which the text differs from the clean text.
pub(crate) fn points(alloc: Global, clean: &[Letter], text: &[Letter]) -> Result<Changes, Memory>
    requires lengths { length clean.now ≡ length text.now }
    requires genome { IsGenome text.now }
    ensures points { IfOk result (λ points. points ≡ points_from 0 clean.now text.now) }
    ensures made { IfOk result (λ points. Makes points clean.now text.now) }
{
    one_index();
    let mut points = Changes::none(alloc);
    for (at, letter) in text.iter().enumerate() {
        note_point(&mut points, at, clean[at], *letter)?;
    }
    Ok(points)
}

/// Notes a point at a place where the letters differ.
fn note_point(points: &mut Changes, at: usize, was: Letter, letter: Letter) -> Result<(), Memory>
    requires { at < 2 ^ 32 }
    ensures { OnOk result ((clean text : List Letter)
        → points.new ++ points_from (at + 1) clean text
        ≡ points.old ++ points_from at (was ∷ clean) (letter ∷ text)) }
{
    if was == letter {
        return Ok(());
    }
    points.push(Change::Point {
        at: at as u32,
        letter,
    })?;
    Ok(())
}
