// A block of ChaCha with eight rounds. A row of the state is one vector, so one quarter round on
// the four rows is the quarter round of each column.
ghost use Rattle.std.specs.Prelude.{◌≡◌, ℕ, ◌<◌, ◌%◌, ◌/◌, ◌^◌, slice_index};
ghost use Rattle.rand_chacha.specs.Block.{add32, xor_rotate, column_round, diagonal_round, block_word};
ghost use Rattle.rand_chacha.specs.ChaCha.{key_of};
ghost use Rattle.random_streams.specs.RandomStream.{key_bytes};
ghost use Rattle.random_streams.specs.Rows.{state_of, QuarterRounds};

use std::simd::u32x4;

#[inline(always)]
fn add(a: u32x4, b: u32x4) -> u32x4
    ensures { (j : ℕ) → j < 4 → slice_index result j ≡ add32 (slice_index a j) (slice_index b j) }
{
    a + b
}

#[inline(always)]
fn xor_rotate(a: u32x4, b: u32x4, k: u32) -> u32x4
    requires { (0 < k) × (k < 32) }
    ensures { (j : ℕ) → j < 4
        → slice_index result j ≡ xor_rotate (slice_index a j) (slice_index b j) k }
{
    let x = a ^ b;
    (x << u32x4::splat(k)) | (x >> u32x4::splat(32 - k))
}

#[inline(always)]
fn quarter_rounds(a: u32x4, b: u32x4, c: u32x4, d: u32x4) -> (u32x4, u32x4, u32x4, u32x4)
    ensures { QuarterRounds (a, b, c, d) result }
{
    let a1 = add(a, b);
    let d1 = xor_rotate(d, a1, 16);
    let c1 = add(c, d1);
    let b1 = xor_rotate(b, c1, 12);
    let a2 = add(a1, b1);
    let d2 = xor_rotate(d1, a2, 8);
    let c2 = add(c1, d2);
    let b2 = xor_rotate(b1, c2, 7);
    (a2, b2, c2, d2)
}

/// A round on the columns, and one on the diagonals, which stand in columns while the rows are
/// rotated.
#[inline(always)]
fn double_round(a: u32x4, b: u32x4, c: u32x4, d: u32x4) -> (u32x4, u32x4, u32x4, u32x4)
    ensures { state_of result ≡ diagonal_round (column_round (state_of (a, b, c, d))) }
{
    let (a1, b1, c1, d1) = quarter_rounds(a, b, c, d);
    let (a2, b2, c2, d2) = quarter_rounds(
        a1,
        b1.rotate_elements_left::<1>(),
        c1.rotate_elements_left::<2>(),
        d1.rotate_elements_left::<3>(),
    );
    (
        a2,
        b2.rotate_elements_left::<3>(),
        c2.rotate_elements_left::<2>(),
        d2.rotate_elements_left::<1>(),
    )
}

#[inline(always)]
fn low(x: u64) -> u32
    ensures { result ≡ x % 2 ^ 32 }
{
    (x & 0xffff_ffff) as u32
}

#[inline(always)]
fn high(x: u64) -> u32
    ensures { result ≡ x / 2 ^ 32 }
{
    (x >> 32) as u32
}

/// The words of a block of a seed's stream.
#[inline(never)]
pub(crate) fn words(seed: u64, stream: u64, counter: u64) -> [u32; 16]
    ensures { (k : ℕ) → k < 16
        → slice_index result k ≡ block_word 4 (key_of (key_bytes seed)) counter stream k }
{
    let a0 = u32x4::from_array([0x6170_7865, 0x3320_646e, 0x7962_2d32, 0x6b20_6574]);
    let b0 = u32x4::from_array([low(seed), high(seed), 0, 0]);
    let c0 = u32x4::splat(0);
    let d0 = u32x4::from_array([low(counter), high(counter), low(stream), high(stream)]);
    let (mut a, mut b, mut c, mut d) = (a0, b0, c0, d0);
    'rounds: for _round in 0..4_u32 {
        (a, b, c, d) = double_round(a, b, c, d);
    }
    let [w0, w1, w2, w3] = add(a, a0).to_array();
    let [w4, w5, w6, w7] = add(b, b0).to_array();
    let [w8, w9, w10, w11] = add(c, c0).to_array();
    let [w12, w13, w14, w15] = add(d, d0).to_array();
    [
        w0, w1, w2, w3, w4, w5, w6, w7, w8, w9, w10, w11, w12, w13, w14, w15,
    ]
}
