// How the time of an update is shared.
ghost use Rattle.std.specs.Prelude.{◌≡◌, ◌+◌, ◌*◌, ◌/◌, ◌<◌, ◌≤◌, ◌^◌, ℕ, sum, length, slice_index_or};
ghost use Rattle.merit_slices.specs.Slices.{living_in, quota, shares_of, slices_of};

/// Shares the steps of an update among the cells by their merits. Each cell gets the difference of
/// two rounded quotients, so no step is lost.
#[tactic(auto, unfolding(crate::specs::Slices::slices_of))]
pub fn share(merits: &[u64], average: u32, out: &mut [u64])
    requires same_length { length out.old ≡ length merits.now }
    requires cells { length merits.now ≤ 65536 }
    requires sum { sum merits.now < 2 ^ 55 }
    requires average { average ≤ 1000 }
    ensures slices { out.new ≡ slices_of merits.now average }
    ensures few { (cell : ℕ) → slice_index_or out.new cell 0 < 2 ^ 27 }
    ensures total { sum out.new ≤ average * length merits.now }
{
    let all: u64 = merits.iter().sum();
    if all == 0 {
        out.fill(0);
        return;
    }
    let steps = u64::from(average) * living(merits) as u64;
    deal(merits, steps, all, out);
}

/// How many organisms live: those with a merit.
fn living(merits: &[u64]) -> usize
    ensures value { result ≡ living_in merits.now }
    ensures few { result ≤ length merits.now }
{
    merits.iter().filter(|merit| **merit > 0).count()
}

/// Deals the steps out where there are merits.
fn deal(merits: &[u64], steps: u64, all: u64, out: &mut [u64])
    requires same_length { length out.old ≡ length merits.now }
    requires all { all ≡ sum merits.now }
    requires some { 0 < all }
    ensures { out.new ≡ shares_of merits.now steps }
{
    let inverse = u64::MAX / all;
    let mut before = 0;
    let mut given = 0;
    for (cell, merit) in merits.iter().enumerate() {
        before += *merit;
        let due = due_by(steps, *merit, before, all, inverse, given);
        out[cell] = due - given;
        given = due;
    }
}

/// What is due up to a cell: where it has no merit, that is what was given before it.
#[inline(always)]
fn due_by(steps: u64, merit: u64, before: u64, all: u64, inverse: u64, given: u64) -> u64
    requires some { 0 < all }
    requires part { before ≤ all }
    requires inverse { inverse * all < 2 ^ 64 }
    requires given { merit ≡ 0 → given ≡ quota steps before all }
    ensures { result ≡ quota steps before all }
{
    if merit == 0 {
        given
    } else {
        quotient(steps, before, all, inverse)
    }
}

/// The part of the steps that falls to a part of the merits, rounded down.
fn quotient(steps: u64, part: u64, all: u64, inverse: u64) -> u64
    requires some { 0 < all }
    requires part { part ≤ all }
    requires inverse { inverse * all < 2 ^ 64 }
    ensures value { result ≡ quota steps part all }
    ensures bounded { result ≤ steps }
{
    match steps.checked_mul(part) {
        Some(product) => divided(product, all, inverse),
        None => (u128::from(steps) * u128::from(part) / u128::from(all)) as u64,
    }
}

/// A product over all, rounded down. The inverse is some 2^64 over all: with it the quotient is a
/// multiplication, which takes a fraction of a division's time, and is at most one too low.
fn divided(product: u64, all: u64, inverse: u64) -> u64
    requires some { 0 < all }
    requires inverse { inverse * all < 2 ^ 64 }
    ensures value { result ≡ product / all }
{
    let low = (u128::from(product) * u128::from(inverse) >> 64) as u64;
    let rest = product - low * all;
    if rest < all { low } else { low + rest / all }
}
