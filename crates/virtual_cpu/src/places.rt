// Places of memory, which go on across its end.
ghost use Rattle.std.specs.Prelude.{◌≡◌, ◌+◌, ◌<◌, ◌≤◌, ◌%◌, length, pos, unsigned_abs};
ghost use Rattle.virtual_cpu.specs.Prelude.{int_rem_euclid};

/// The place after another, across the end to place 0.
#[inline(always)]
pub(crate) fn place_after(place: u32, length: usize) -> u32
    requires place { place < length }
    requires few { length ≤ 8192 }
    ensures next { result ≡ (place + 1) % length }
    ensures within { result < length }
{
    if place as usize + 1 == length {
        0
    } else {
        place + 1
    }
}

/// The place of a number, by floor modulo.
pub(crate) fn place_of_number(number: i64, length: usize) -> u32
    requires some { 0 < length }
    requires few { length ≤ 8192 }
    ensures place { result ≡ unsigned_abs (int_rem_euclid number (pos length)) }
    ensures within { result < length }
{
    number.rem_euclid(length as i64) as u32
}
