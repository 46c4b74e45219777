// The search of h-search.
ghost use Rattle.std.specs.Prelude.{◌≡◌, ◌<◌, ◌≤◌, ◌+◌, ℕ, IfSome, MatchOption, length, slice_index_or};
ghost use Rattle.instruction_set.specs.Letter.{same_letter};
ghost use Rattle.instruction_set.specs.declared.letter.Letter.TheVariants.{NopA};
ghost use Rattle.label_search.specs.Search.{OccursAt, occurs_at, first_match, begins_with};
ghost use Rattle.label_search.specs.Site.{letters_of};

use crate::Template;
use crate::site::{Site, letter_at};
use instruction_set::Letter;
use instruction_set::laws::one_index;

/// The least place at which the whole template stands before the end of memory. None where it
/// stands nowhere; a match never goes on across the end.
pub fn find(memory: &[Site], what: &Template) -> Option<usize>
    requires { 0 < length what.now }
    ensures first { result ≡ first_match (letters_of memory.now) what.now }
    ensures least { MatchOption result
        ((place : ℕ) → ¬ OccursAt (letters_of memory.now) what.now place)
        (λ first. OccursAt (letters_of memory.now) what.now first
        × ((place : ℕ) → place < first → ¬ OccursAt (letters_of memory.now) what.now place)) }
    ensures before_end { IfSome result (λ first. first + length what.now
        ≤ length (letters_of memory.now)) }
{
    one_index();
    least_match(memory, what.letters().as_slice())
}

fn least_match(memory: &[Site], what: &[Letter]) -> Option<usize>
    requires { 0 < length what.now }
    ensures { result ≡ first_match (letters_of memory.now) what.now }
{
    let first = what[0];
    for place in 0..memory.len() {
        if stands_at(memory, place, first, what) {
            return Some(place);
        }
    }
    None
}

/// Whether the template, which begins with this letter, stands at a place. Most places are told by
/// the letter alone.
#[inline(always)]
fn stands_at(memory: &[Site], place: usize, first: Letter, what: &[Letter]) -> bool
    requires place { place < length memory.now }
    requires some { 0 < length what.now }
    requires first { first ≡ slice_index_or what.now 0 NopA }
    ensures { result ≡ occurs_at (letters_of memory.now) what.now place }
{
    same_letter(first, letter_at(memory, place)) && begins_with(&memory[place..], what)
}

/// Whether the letters of the sites begin with the template.
#[inline(always)]
fn begins_with(sites: &[Site], what: &[Letter]) -> bool
    ensures { result ≡ begins_with (letters_of sites.now) what.now }
{
    for (at, letter) in what.iter().enumerate() {
        if at == sites.len() {
            return false;
        }
        if !same_letter(*letter, letter_at(sites, at)) {
            return false;
        }
    }
    true
}

#[inline(always)]
fn same_letter(letter: Letter, other: Letter) -> bool
    ensures { result ≡ same_letter letter other }
{
    letter.index() == other.index()
}
