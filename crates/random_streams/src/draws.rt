ghost use Rattle.std.specs.Prelude.{◌≡◌, ℕ, ◌+◌, ◌*◌, ◌/◌, ◌%◌, ◌<◌, ◌≤◌, slice_index};
ghost use Rattle.random_streams.specs.RandomStream.{first_of, next_word, word_of, after, scaled, hits, cell_count, word_count, million};

use crate::{Purpose, block};
use std::marker::Model;

/// The greatest width and the greatest height of a world.
pub const GREATEST_SIDE: u32 = 256;

/// How many cells the greatest world has. Cells are numbered from 0.
pub const CELLS: u32 = GREATEST_SIDE * GREATEST_SIDE;

/// How many words a stream gives. They are numbered from 0.
pub const WORDS: u64 = 1 << 48;

/// The greatest rate. Rates count in parts per million.
pub const MILLION: u32 = 1_000_000;

/// A numbered stream of words, read from its word 0 on.
#[derive(Drop)]
pub struct Draws {
    // The words of the block in which the next word stands, unless that is the block's first word.
    words: [u32; 16],
    seed: u64,
    update: u32,
    cell: u32,
    purpose: Purpose,
    taken: u64,
}

impl Model for Draws {
    ghost use Rattle.std.specs.Prelude.{◌≡◌};
    ghost use Rattle.random_streams.specs.RandomStream.{Stream, HasBlock};

    ghost Value = { Stream };

    ghost view = { λ a. record {
      seed = a.seed;
      update = a.update;
      cell = a.cell;
      purpose = a.purpose;
      taken = a.taken;
    } };

    ghost invariant = { λ a. HasBlock a.words a.seed a.update a.cell a.purpose a.taken };
}

impl Draws {
    /// The stream before its word 0. No word is computed yet. Each seed, update, cell and purpose
    /// has a stream of its own.
    pub fn start(seed: u64, update: u32, cell: u32, purpose: Purpose) -> Draws
        requires { cell < cell_count }
        ensures { result ≡ first_of seed update cell purpose }
    {
        Draws {
            words: [0; 16],
            seed,
            update,
            cell,
            purpose,
            taken: 0,
        }
    }

    /// How many words were taken.
    #[inline]
    pub fn taken(&self) -> u64
        ensures { result ≡ self.now.taken }
    {
        self.taken
    }

    /// The word whose number is the count of words taken.
    #[inline(always)]
    pub fn word(&mut self) -> u32
        requires { self.old.taken < word_count }
        ensures word { result ≡ next_word self.old }
        ensures takes_one { self.new ≡ after 1 self.old }
    {
        let place = (self.taken % 16) as usize;
        if place == 0 {
            return self.first_word();
        }
        let word = self.words[place];
        self.taken += 1;
        word
    }

    /// The same where the next word is the first of its block, which is computed.
    #[cold]
    #[inline(never)]
    fn first_word(&mut self) -> u32
        requires room { self.old.taken < word_count }
        requires first { self.old.taken % 16 ≡ 0 }
        ensures word { result ≡ next_word self.old }
        ensures takes_one { self.new ≡ after 1 self.old }
    {
        self.words = self.block();
        self.taken += 1;
        self.words[0]
    }

    /// The words of the block in which the next word stands.
    #[tactic(auto, unfolding(crate::specs::RandomStream::draw))]
    fn block(&self) -> [u32; 16]
        ensures { (i : ℕ) → i < 16
            → slice_index result i ≡ word_of self.now (self.now.taken / 16 * 16 + i) }
    {
        let stream = u64::from(self.update) * 131_072
            + u64::from(self.cell) * 2
            + self.purpose.number();
        block::words(self.seed, stream, self.taken / 16)
    }

    /// The next word, scaled to the numbers below `n`.
    #[inline]
    pub fn below(&mut self, n: u32) -> u32
        requires some { 1 ≤ n }
        requires room { self.old.taken < word_count }
        ensures value { result ≡ scaled (next_word self.old) n }
        ensures in_range { result < n }
        ensures takes_one { self.new ≡ after 1 self.old }
    {
        let word = self.word();
        scaled(word, n)
    }

    /// Whether the next word hits at this rate in parts per million.
    #[inline(always)]
    pub fn hits(&mut self, ppm: u32) -> bool
        requires rate { ppm ≤ million }
        requires room { self.old.taken < word_count }
        ensures hit { result ≡ hits (next_word self.old) ppm }
        ensures takes_one { self.new ≡ after 1 self.old }
    {
        let word = self.word();
        scaled(word, MILLION) < ppm
    }
}

/// The word, scaled to the numbers below `n`: `floor(word * n / 2^32)`.
#[inline]
pub fn scaled(word: u32, n: u32) -> u32
    ensures value { result ≡ scaled word n }
    ensures in_range { 1 ≤ n → result < n }
{
    (u64::from(word) * u64::from(n) >> 32) as u32
}
