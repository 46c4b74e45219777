// The second and the third part of a divide's errors: insertions, and then deletions.
ghost use Rattle.std.specs.Prelude.{◌≡◌, ◌+◌, ◌-◌, ◌*◌, ◌≤◌, ◌<◌, ◌&&◌, ◌∷◌, [], ◌++◌, List, insert, length, IfOk, OnOk};
ghost use Rattle.instruction_set.specs.declared.letter.Letter.{Letter};
ghost use Rattle.random_streams.specs.RandomStream.{word_of, next_word, after, hits, word_count, million};
ghost use Rattle.mutations.specs.Indels.{has_room, site_indel, indels_from, site_indels, single_indel, site_rate, single_rate, test_at, test_range, indels};
ghost use Rattle.mutations.specs.Rates.{numbers_of, range_of};
ghost use Rattle.mutations.specs.Change.{Passed, Fits};

use crate::copying::drawn_letter;
use crate::{Change, Changes, Limits, Rates};
use avida_port::Memory;
use instruction_set::Letter;
use random_streams::Draws;
use std::alloc::Global;

/// An error that changes a text's length by one letter.
#[derive(Clone, Copy)]
pub(crate) enum Indel {
    Insertion,
    Deletion,
}

/// How an indel is drawn: its rate in parts per million, and the least and the greatest length
/// that it may leave.
#[derive(Clone, Copy)]
pub(crate) struct IndelTest {
    pub kind: Indel,
    pub rate: u32,
    pub least: u32,
    pub greatest: u32,
}

impl Indel {
    /// The rate at each letter.
    fn site_rate(self, rates: &Rates) -> u32
        ensures rate { result ≡ site_rate self (numbers_of rates.now) }
        ensures fits { result ≤ million }
    {
        match self {
            Indel::Insertion => rates.site_insert,
            Indel::Deletion => rates.site_delete,
        }
    }

    /// The rate in a whole text.
    fn single_rate(self, rates: &Rates) -> u32
        ensures rate { result ≡ single_rate self (numbers_of rates.now) }
        ensures fits { result ≤ million }
    {
        match self {
            Indel::Insertion => rates.insert,
            Indel::Deletion => rates.delete,
        }
    }

    /// The test for such an indel.
    fn test_at(self, rate: u32, limits: &Limits) -> IndelTest
        ensures { result ≡ test_at self rate (range_of limits.now) }
    {
        IndelTest {
            kind: self,
            rate,
            least: limits.least,
            greatest: limits.greatest,
        }
    }
}

impl IndelTest {
    /// Whether the next word draws an indel of a text of this length.
    fn hits(&self, len: usize, draws: &mut Draws) -> bool
        requires rate { self.now.rate ≤ million }
        requires room { draws.old.taken < word_count }
        ensures hit { result ≡ (hits (next_word draws.old) self.now.rate
            && has_room self.now.kind (test_range self.now) len) }
        ensures taken { draws.new ≡ after 1 draws.old }
    {
        let has_room = match self.kind {
            Indel::Insertion => len < self.greatest as usize,
            Indel::Deletion => (self.least as usize) < len,
        };
        draws.hits(self.rate) && has_room
    }
}

/// The text with its indels of one kind: those at its letters, and then the single one.
pub(crate) fn draw_indels(
    alloc: Global,
    kind: Indel,
    text: Vec<Letter>,
    rates: &Rates,
    limits: &Limits,
    draws: &mut Draws,
    changes: &mut Changes,
) -> Result<Vec<Letter>, Memory>
    requires fits { Fits (range_of limits.now) (length text.items) }
    requires room { draws.old.taken + 2 * length text.items + 3 ≤ word_count }
    ensures passed { IfOk result (λ made. Passed
        (indels kind (numbers_of rates.now) (range_of limits.now) (word_of draws.old)
        (record { size = length text.items; word = draws.old.taken }))
        (record { text = text.items; changes = changes.old; draws = draws.old })
        (record { text = made.items; changes = changes.new; draws = draws.new })) }
    ensures fits { IfOk result (λ made. Fits (range_of limits.now) (length made.items)) }
    ensures stays { draws.new ≡ record draws.old { taken = draws.new.taken } }
    ensures most { OnOk result (draws.new.taken ≤ draws.old.taken + 2 * length text.items + 3) }
{
    let each = kind.test_at(kind.site_rate(rates), limits);
    let mut made = draw_at_sites(alloc, text, &each, draws, changes)?;
    let single = kind.test_at(kind.single_rate(rates), limits);
    draw_once(&mut made, &single, draws, changes)?;
    Ok(made)
}

/// The single indel.
fn draw_once(
    text: &mut Vec<Letter>,
    test: &IndelTest,
    draws: &mut Draws,
    changes: &mut Changes,
) -> Result<(), Memory>
    requires rate { test.now.rate ≤ million }
    requires fits { Fits (test_range test.now) (length text.old.items) }
    requires room { draws.old.taken + 3 ≤ word_count }
    ensures passed { OnOk result (Passed
        (single_indel test.now (word_of draws.old)
        (record { size = length text.old.items; word = draws.old.taken }))
        (record { text = text.old.items; changes = changes.old; draws = draws.old })
        (record { text = text.new.items; changes = changes.new; draws = draws.new })) }
    ensures fits { OnOk result (Fits (test_range test.now) (length text.new.items)) }
    ensures stays { draws.new ≡ record draws.old { taken = draws.new.taken } }
    ensures most { draws.new.taken ≤ draws.old.taken + 3 }
{
    let len = text.len();
    if !test.hits(len, draws) {
        return Ok(());
    }
    match test.kind {
        Indel::Insertion => {
            let at = draws.below(len as u32 + 1);
            let letter = drawn_letter(draws);
            changes.push(Change::Insert { at, letter })?;
            insert(text, at as usize, letter)?;
            Ok(())
        }
        Indel::Deletion => {
            let at = draws.below(len as u32);
            changes.push(Change::Delete { at })?;
            text.remove(at as usize);
            Ok(())
        }
    }
}

fn insert(text: &mut Vec<Letter>, at: usize, letter: Letter) -> Result<(), Memory>
    requires { at ≤ length text.old.items }
    ensures { OnOk result (text.new.items ≡ insert text.old.items at letter) }
{
    text.insert(at, letter)?;
    Ok(())
}

/// The text with the indels at its letters, where their rate is above 0.
fn draw_at_sites(
    alloc: Global,
    text: Vec<Letter>,
    test: &IndelTest,
    draws: &mut Draws,
    changes: &mut Changes,
) -> Result<Vec<Letter>, Memory>
    requires rate { test.now.rate ≤ million }
    requires fits { Fits (test_range test.now) (length text.items) }
    requires room { draws.old.taken + 2 * length text.items ≤ word_count }
    ensures passed { IfOk result (λ made. Passed
        (site_indels test.now (word_of draws.old)
        (record { size = length text.items; word = draws.old.taken }))
        (record { text = text.items; changes = changes.old; draws = draws.old })
        (record { text = made.items; changes = changes.new; draws = draws.new })) }
    ensures fits { IfOk result (λ made. Fits (test_range test.now) (length made.items)) }
    ensures stays { draws.new ≡ record draws.old { taken = draws.new.taken } }
    ensures most { draws.new.taken ≤ draws.old.taken + 2 * length text.items }
{
    if test.rate == 0 {
        return Ok(text);
    }
    test_sites(alloc, &text, test, draws, changes)
}

/// The text with what the tests of its letters draw.
fn test_sites(
    alloc: Global,
    text: &[Letter],
    test: &IndelTest,
    draws: &mut Draws,
    changes: &mut Changes,
) -> Result<Vec<Letter>, Memory>
    requires rate { test.now.rate ≤ million }
    requires fits { Fits (test_range test.now) (length text.now) }
    requires room { draws.old.taken + 2 * length text.now ≤ word_count }
    ensures passed { IfOk result (λ made. Passed
        (indels_from test.now (word_of draws.old) (length text.now)
        (record { place = 0; word = draws.old.taken }))
        (record { text = text.now; changes = changes.old; draws = draws.old })
        (record { text = made.items; changes = changes.new; draws = draws.new })) }
    ensures fits { IfOk result (λ made. Fits (test_range test.now) (length made.items)) }
    ensures stays { draws.new ≡ record draws.old { taken = draws.new.taken } }
    ensures most { draws.new.taken ≤ draws.old.taken + 2 * length text.now }
{
    let mut made = Vec::with_capacity(alloc, text.len())?;
    for (tested, letter) in text.iter().enumerate() {
        let left = text.len() - tested;
        test_site(&mut made, *letter, left, test, draws, changes)?;
    }
    Ok(made)
}

/// Appends what the test of the letter makes of it. With it `left` letters are left.
fn test_site(
    made: &mut Vec<Letter>,
    letter: Letter,
    left: usize,
    test: &IndelTest,
    draws: &mut Draws,
    changes: &mut Changes,
) -> Result<(), Memory>
    requires rate { test.now.rate ≤ million }
    requires some { 0 < left }
    requires fits { Fits (test_range test.now) (length made.old.items + left) }
    requires room { draws.old.taken + 2 ≤ word_count }
    ensures passed { OnOk result ((rest : List Letter) → length rest + 1 ≡ left → Passed
        (site_indel test.now (word_of draws.old) (length made.old.items + left)
        (record { place = length made.old.items; word = draws.old.taken }))
        (record {
          text = made.old.items ++ letter ∷ rest;
          changes = changes.old;
          draws = draws.old;
        })
        (record {
          text = made.new.items ++ rest;
          changes = changes.new;
          draws = draws.new;
        })) }
    ensures fits { OnOk result (Fits (test_range test.now) (length made.new.items + (left - 1))) }
    ensures stays { draws.new ≡ record draws.old { taken = draws.new.taken } }
    ensures most { draws.new.taken ≤ draws.old.taken + 2 }
{
    if !test.hits(made.len() + left, draws) {
        append(made, letter)?;
        return Ok(());
    }
    let at = made.len() as u32;
    match test.kind {
        Indel::Insertion => {
            let drawn = drawn_letter(draws);
            changes.push(Change::Insert { at, letter: drawn })?;
            append(made, drawn)?;
            append(made, letter)?;
            Ok(())
        }
        Indel::Deletion => {
            changes.push(Change::Delete { at })?;
            Ok(())
        }
    }
}

fn append(made: &mut Vec<Letter>, letter: Letter) -> Result<(), Memory>
    ensures { OnOk result (made.new.items ≡ made.old.items ++ letter ∷ []) }
{
    made.push(letter)?;
    Ok(())
}
