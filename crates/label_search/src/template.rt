// Lists of nops: the nops read last, and the operand of if-label and h-search.
ghost use Rattle.std.specs.Prelude.{unwrap_or, slice_index_or, ◌≡◌, ◌+◌, ◌%◌, ◌<◌, ◌≤◌, ◌↔◌, IsTrue, [], length, slice_get};
ghost use Rattle.std.specs.Option.{option_copied};
ghost use Rattle.instruction_set.specs.Letter.{same_letters, complement_of};
ghost use Rattle.label_search.specs.Template as spec;
ghost use Rattle.label_search.specs.Template.{is_nop, nops_read, complements_of, IsTemplate, newest_first, nop_of, packed_after};
ghost use Rattle.label_search.specs.Site.{letters_of};
ghost use Rattle.instruction_set.specs.declared.letter.Letter.TheVariants.{NopA};

use crate::site::{Site, letter_at};
use arrayvec::ArrayVec;
use instruction_set::Letter;
use instruction_set::laws::one_index;
use std::marker::Model;

/// The most nops that a template has. Of a longer list the last ones stay.
pub const LONGEST_TEMPLATE: usize = 10;

/// A list of at most ten nops.
#[derive(Drop)]
pub struct Template {
    /// Two bits a nop, the newest lowest: 1 to 3, and 0 above the oldest.
    packed: u32,
}

impl Model for Template {
    ghost use Rattle.std.specs.Prelude.{◌≡◌, List};
    ghost use Rattle.instruction_set.specs.declared.letter.Letter.{Letter};

    ghost Value = { List Letter };

    ghost use Rattle.label_search.specs.Template.{newest_first, nops_of, packed_of};

    ghost view = { nops_of };

    ghost invariant = { λ template. template.packed ≡ packed_of (newest_first 10 template.packed) };
}

impl Template {
    /// An empty list.
    #[inline(always)]
    #[tactic(auto, unfolding(crate::specs::Template::newest_first))]
    pub fn none() -> Template
        ensures { result ≡ [] }
    {
        Template { packed: 0 }
    }

    /// How many nops there are.
    pub fn len(&self) -> usize
        ensures value { result ≡ length self.now }
        ensures few { result ≤ 10 }
        ensures template { IsTemplate self.now }
    {
        count_digits(self.packed)
    }

    #[inline(always)]
    #[tactic(auto, unfolding(crate::specs::Template::newest_first))]
    pub fn is_empty(&self) -> bool
        ensures { IsTrue result ↔ (self.now ≡ []) }
    {
        self.packed == 0
    }

    /// The nop at a place, counted from 0. None exactly where the place is not below `len`.
    pub fn get(&self, at: usize) -> Option<&Letter>
        ensures { option_copied result ≡ slice_get self.now at }
    {
        let count = self.len();
        if at < count {
            Some(nop_at(self.packed, count - 1 - at))
        } else {
            None
        }
    }

    /// The nop at a place below `len`.
    fn nop(&self, at: usize) -> Letter
        requires { at < length self.now }
        ensures { result ≡ slice_index_or self.now at NopA }
    {
        *nop_at(self.packed, self.len() - 1 - at)
    }

    /// The nops, in a list.
    pub(crate) fn letters(&self) -> ArrayVec<Letter, LONGEST_TEMPLATE>
        ensures { result.items ≡ self.now }
    {
        let mut letters = ArrayVec::new();
        for at in 0..self.len() {
            letters.push(self.nop(at));
        }
        letters
    }

    /// An equal list. It takes no memory.
    pub fn copy(&self) -> Template
        ensures { result ≡ self.now }
    {
        Template {
            packed: self.packed,
        }
    }

    /// Reads a letter. A nop is appended, and of eleven nops the first is dropped. Any other letter
    /// empties the list.
    #[inline(always)]
    pub fn note(&mut self, letter: Letter)
        ensures read { self.new ≡ nops_read self.old letter }
        ensures template { IsTemplate self.new }
    {
        self.packed = packed_after(self.packed, letter);
    }

    /// The complement of each nop, in order.
    pub fn complement(&self) -> Template
        ensures nops { result ≡ complements_of self.now }
        ensures len { length result ≡ length self.now }
    {
        let mut complement = Template::none();
        for at in 0..self.len() {
            complement.note(complement_of(self.nop(at)));
        }
        complement
    }

    /// Whether both lists are equal.
    #[inline(always)]
    pub fn equals(&self, other: &Template) -> bool
        ensures value { result ≡ same_letters self.now other.now }
        ensures same { IsTrue result ↔ (self.now ≡ other.now) }
    {
        one_index();
        self.packed == other.packed
    }
}

/// How many digits to base 4 a number has, at most ten.
fn count_digits(packed: u32) -> usize
    ensures { result ≡ length (newest_first 10 packed) }
{
    let mut rest = packed;
    for count in 0..LONGEST_TEMPLATE {
        if rest == 0 {
            return count;
        }
        rest /= 4;
    }
    LONGEST_TEMPLATE
}

/// The nop of a digit, counted from the lowest.
fn nop_at(packed: u32, digit: usize) -> &'static Letter
    requires { digit < length (newest_first 10 packed) }
    ensures { result.now ≡ slice_index_or (newest_first 10 packed) digit NopA }
{
    nop_of((packed >> (2 * digit)) % 4)
}

fn nop_of(digit: u32) -> &'static Letter
    ensures { result.now ≡ nop_of digit }
{
    match digit {
        1 => &Letter::NopA,
        2 => &Letter::NopB,
        _ => &Letter::NopC,
    }
}

/// The packed nops once a further letter was read.
#[inline(always)]
fn packed_after(packed: u32, letter: Letter) -> u32
    ensures { result ≡ packed_after packed letter }
{
    let room = packed % (1 << 18) * 4;
    match letter {
        Letter::NopA | Letter::NopB | Letter::NopC => room + letter as u32 + 1,
        _ => 0,
    }
}

/// The complement of a nop; any other letter is its own.
#[inline(always)]
fn complement_of(letter: Letter) -> Letter
    ensures { result ≡ unwrap_or (complement_of letter) letter }
{
    match letter {
        Letter::NopA => Letter::NopB,
        Letter::NopB => Letter::NopC,
        Letter::NopC => Letter::NopA,
        _ => letter,
    }
}

fn is_nop(letter: Letter) -> bool
    ensures { result ≡ is_nop letter }
{
    matches!(letter, Letter::NopA | Letter::NopB | Letter::NopC)
}

/// The place after a place, across the end.
fn next_place(place: usize, length: usize) -> usize
    requires { place < length }
    ensures { result ≡ (place + 1) % length }
{
    if place + 1 < length { place + 1 } else { 0 }
}

/// The nops after a place, across the end to place 0, at most ten.
pub fn template_after(memory: &[Letter], ip: usize) -> Template
    requires { ip < length memory.now }
    ensures nops { result ≡ spec.template_after memory.now ip }
    ensures few { length result ≤ 10 }
    ensures template { IsTemplate result }
{
    let mut template = Template::none();
    let mut place = ip;
    for _ in 0..LONGEST_TEMPLATE {
        place = next_place(place, memory.len());
        let letter = memory[place];
        if !is_nop(letter) {
            return template;
        }
        template.note(letter);
    }
    template
}

/// The complement of a template, and the place of its last nop, or the place before it where it has
/// none.
#[derive(Drop)]
pub struct Reading {
    pub complement: Template,
    pub last: usize,
}

/// The complement of the nops after a place.
#[inline(always)]
pub fn complement_after(memory: &[Site], ip: usize) -> Reading
    requires { ip < length memory.now }
    ensures complement { result.complement
        ≡ complements_of (spec.template_after (letters_of memory.now) ip) }
    ensures last { result.last ≡ (ip + length result.complement) % length memory.now }
    ensures few { length result.complement ≤ 10 }
{
    let mut complement = Template::none();
    let mut last = ip;
    for _ in 0..LONGEST_TEMPLATE {
        let place = next_place(last, memory.len());
        let letter = letter_at(memory, place);
        if !is_nop(letter) {
            return Reading { complement, last };
        }
        complement.note(complement_of(letter));
        last = place;
    }
    Reading { complement, last }
}
