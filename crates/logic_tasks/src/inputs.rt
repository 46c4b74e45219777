// The inputs of an organism.
ghost use Rattle.std.specs.Prelude.{◌≡◌, ◌%◌, min, slice_index_or};
ghost use Rattle.std.specs.Int.{cast_signed, w32};
ghost use Rattle.logic_tasks.specs.Inputs.{inputs_of, known_inputs, low_of};

use std::marker::Model;

/// How many inputs an organism has.
pub const INPUT_COUNT: usize = 3;

/// The numbers below it have 24 bits.
const LOW: u32 = 0x0100_0000;

/// Three inputs with fixed, different top bytes, whose bits together cover each row of a truth
/// table.
#[derive(Clone, Copy, Debug, PartialEq, Eq)]
pub struct Inputs {
    words: [u32; INPUT_COUNT],
}

impl Model for Inputs {
    ghost use Rattle.std.specs.Prelude.{List, ℕ};
    ghost use Rattle.logic_tasks.specs.Inputs.{HasTopBytes};

    ghost Value = { List ℕ };

    ghost view = { λ inputs. inputs.words };

    ghost invariant = { λ inputs. HasTopBytes inputs.words };

    ghost inverse = { λ words. record { words = words } };
}

impl Inputs {
    /// The low 24 bits of each word, under the top bytes.
    pub fn of(words: [u32; 3]) -> Inputs
        ensures { result ≡ inputs_of words }
    {
        Inputs {
            words: [
                0x0F00_0000 + words[0] % LOW,
                0x3300_0000 + words[1] % LOW,
                0x5500_0000 + words[2] % LOW,
            ],
        }
    }

    /// The low 24 bits of each input.
    pub fn low(&self) -> [u32; 3]
        ensures low { result ≡ low_of self.now }
        ensures whole { inputs_of result ≡ self.now }
    {
        let [first, second, third] = self.words;
        [first % LOW, second % LOW, third % LOW]
    }

    /// The inputs are read in a cycle.
    pub fn value(&self, k: u64) -> i32
        ensures { result ≡ cast_signed w32 (slice_index_or self.now (k % 3) 0) }
    {
        self.words[(k % 3) as usize] as i32
    }

    /// The inputs that were read, each once.
    pub(crate) fn known(&self, read: u64) -> &[u32]
        ensures { result.now ≡ known_inputs self.now read }
    {
        &self.words[..read.min(3) as usize]
    }
}
