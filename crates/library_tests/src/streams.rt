// The words of random streams.
use random_streams::{Draws, Purpose, WORDS};

/// A word of a stream by its number.
fn word_number(seed: u64, update: u32, cell: u16, purpose: Purpose, number: u32) -> u32 {
    let mut draws = Draws::start(seed, update, u32::from(cell), purpose);
    let mut word = 0;
    for _ in 0..u64::from(number) + 1 {
        if draws.taken() < WORDS {
            word = draws.word();
        }
    }
    word
}

// The words were computed by a ChaCha written for this table alone. It gives the known key streams
// of eight, twelve and twenty rounds for the zero key.
#[test]
fn the_words_are_those_of_an_independent_chacha(rt: HostRuntime) {
    for (seed, update, cell, purpose, number, word) in [
        (0, 0, 0, Purpose::Run, 0, 0x2fef003e),
        (0, 0, 0, Purpose::Run, 1, 0xd6405f89),
        (0, 0, 0, Purpose::Run, 2, 0xe8b85b7f),
        (0, 0, 0, Purpose::Run, 3, 0xa1a5091f),
        (0, 0, 0, Purpose::Run, 15, 0x42fe0c0e),
        (0, 0, 0, Purpose::Run, 16, 0x0dfaaed2),
        (0, 0, 0, Purpose::Run, 63, 0x01bf7962),
        (0, 0, 0, Purpose::Run, 64, 0x475ff7e8),
        (0, 0, 0, Purpose::Run, 200, 0xedffc3f6),
        (1, 7, 1805, Purpose::Place, 0, 0x9b682df2),
        (1, 7, 1805, Purpose::Place, 1, 0xd21186f8),
        (1, 7, 1805, Purpose::Place, 2, 0x6d39f1d6),
        (1, 7, 1805, Purpose::Place, 3, 0x3062481c),
        (258, 3, 5, Purpose::Place, 0, 0x2c7ae1d7),
        (258, 3, 5, Purpose::Place, 64, 0x2e38121f),
        (258, 3, 5, Purpose::Run, 0, 0x970ad8ad),
        (258, 3, 5, Purpose::Run, 64, 0xedf10166),
        (0x0123_4567_89ab_cdef, 2, 9, Purpose::Place, 0, 0xd1e547e2),
        (0x0123_4567_89ab_cdef, 2, 9, Purpose::Place, 64, 0xb6ad039c),
        (
            0x7fff_ffff_ffff_ffff,
            1_000_000,
            65_535,
            Purpose::Place,
            0,
            0x8367baff,
        ),
        (
            0x7fff_ffff_ffff_ffff,
            1_000_000,
            65_535,
            Purpose::Place,
            200,
            0xa1cc79b8,
        ),
    ] {
        assert_eq!(rt;
            word_number(seed, update, cell, purpose, number),
            word,
            "word {number} of update {update}, cell {cell}, {purpose:?} for seed {seed}"
        );
    }
}
