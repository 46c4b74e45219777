// The record and the genome of a child.
ghost use Rattle.std.specs.Prelude.{◌≡◌, ◌+◌, ◌-◌, ◌*◌, ◌≤◌, ◌<◌, Ok, [], ◌↔◌, length, IsNone, IfOk, OnOk};
ghost use Rattle.instruction_set.specs.Letter.{same_letters};
ghost use Rattle.genome.specs.Genome.{letters};
ghost use Rattle.random_streams.specs.RandomStream.{word_of, word_count};
ghost use Rattle.mutations.specs.ChildTexts.{AreTextsOfChild, IsLengthWithin, TakesWordsOfBirth};
ghost use Rattle.mutations.specs.DivideErrors.{birth_words};
ghost use Rattle.mutations.specs.Rates.{numbers_of, range_of};
ghost use Rattle.mutations.specs.BirthRecord.{record_of, child_of, origin_of, written_in, written_of, drawn_by_divide};
ghost use Rattle.mutations.specs.Change.{Fits, Passed};

use crate::indels::{Indel, draw_indels};
use crate::site_points::{pointed_text, points};
use crate::{Base, Born, Changes, Limits, Origin, Rates};
use avida_port::Memory;
use genome::Genome;
use genome::laws::equal_by_letters;
use instruction_set::Letter;
use instruction_set::laws::one_index;
use random_streams::Draws;
use std::alloc::Global;

/// More words than any birth takes. At least this many must be left in the stream.
pub const BIRTH_WORDS: u64 = 65_536;

/// Draws the errors of a divide: the child and the record of its birth. `clean` and `written` are
/// the child's part of the clean text and of memory. Where memory runs out, the draws have gone on
/// in the same stream by a number of words that is not said.
pub fn divide_errors(
    alloc: Global,
    clean: &Genome,
    written: &Genome,
    parent: &Genome,
    rates: &Rates,
    limits: &Limits,
    draws: &mut Draws,
) -> Result<Born, Memory>
    requires texts { AreTextsOfChild (range_of limits.now) (letters clean.now)
        (letters written.now) }
    requires room { draws.old.taken < word_count - birth_words }
    // The record is the one that the words give.
    ensures origin { IfOk result (λ born. record_of born.origin
        ≡ origin_of (word_of draws.old) draws.old.taken (numbers_of rates.now) (range_of limits.now)
        (letters clean.now) (letters written.now) (letters parent.now)) }
    ensures base { IfOk result (λ born. IsNone (record_of born.origin).written
        ↔ (letters clean.now ≡ letters parent.now)) }
    // The genome is the one that the record makes.
    ensures child { IfOk result (λ born.
        child_of (letters parent.now) (record_of born.origin) ≡ Ok (letters born.genome)) }
    ensures length { IfOk result
        (λ born. IsLengthWithin (range_of limits.now) (letters born.genome)) }
    ensures taken { OnOk result (TakesWordsOfBirth draws.old (numbers_of rates.now)
        (range_of limits.now) (letters clean.now) (letters written.now) draws.new) }
    ensures stays { draws.new ≡ record draws.old { taken = draws.new.taken } }
{
    one_index();
    let drawn = drawn_child(
        alloc,
        clean.letters(),
        written.letters(),
        rates,
        limits,
        draws,
    );
    let Ok((text, changes)) = drawn else {
        return Err(Memory);
    };
    let base = base_of(alloc, clean, parent)?;
    let Ok(genome) = Genome::from_letters(alloc, &text) else {
        return Err(Memory);
    };
    Ok(Born {
        genome,
        origin: Origin { base, changes },
    })
}

/// The parent, exactly where the clean text is its genome.
fn base_of(alloc: Global, clean: &Genome, parent: &Genome) -> Result<Base, Memory>
    ensures { IfOk result (λ base. written_in base
        ≡ written_of (letters clean.now) (letters parent.now)) }
{
    if are_equal(clean, parent) {
        Ok(Base::Parent)
    } else {
        Ok(Base::Written(clean.copy(alloc)?))
    }
}

fn are_equal(genome: &Genome, other: &Genome) -> bool
    ensures { result ≡ same_letters (letters genome.now) (letters other.now) }
{
    equal_by_letters();
    *genome == *other
}

/// The child's letters, and the changes that make them of the clean text.
fn drawn_child(
    alloc: Global,
    clean: &[Letter],
    written: &[Letter],
    rates: &Rates,
    limits: &Limits,
    draws: &mut Draws,
) -> Result<(Vec<Letter>, Changes), Memory>
    requires one_length { length clean.now ≡ length written.now }
    requires shortest { limits.now.least ≤ length written.now }
    requires longest { length written.now ≤ limits.now.greatest }
    requires room { draws.old.taken < word_count - birth_words }
    ensures passed { IfOk result (λ drawn. Passed
        (drawn_by_divide (word_of draws.old) draws.old.taken (numbers_of rates.now)
        (range_of limits.now) clean.now written.now)
        (record { text = clean.now; changes = []; draws = draws.old })
        (record { text = drawn.0.items; changes = drawn.1; draws = draws.new })) }
    ensures fits { IfOk result (λ drawn. Fits (range_of limits.now) (length drawn.0.items)) }
    ensures stays { draws.new ≡ record draws.old { taken = draws.new.taken } }
    ensures least { OnOk result (draws.old.taken + 2 ≤ draws.new.taken) }
    ensures most { OnOk result (draws.new.taken ≤ draws.old.taken + 6 * length written.now + 6) }
{
    let text = pointed_text(alloc, written, rates.site_point, draws)?;
    let mut changes = points(alloc, clean, &text)?;
    let longer = draw_indels(
        alloc,
        Indel::Insertion,
        text,
        rates,
        limits,
        draws,
        &mut changes,
    )?;
    let child = draw_indels(
        alloc,
        Indel::Deletion,
        longer,
        rates,
        limits,
        draws,
        &mut changes,
    )?;
    Ok((child, changes))
}
