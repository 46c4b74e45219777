// Texts in room of a fixed size. No memory is taken for them.
ghost use Rattle.std.specs.Prelude.{◌≡◌, ◌+◌, ◌≤◌, ◌++◌, length, decimal};
ghost use Rattle.std.specs.Fmt.{signed_decimal};
ghost use Rattle.arrayvec.specs.ArrayVec.{array_vec_len};
ghost use Rattle.written_texts.specs.NumberText.{spaced};

use arrayvec::ArrayVec;

/// Appends a text.
pub fn push_text<const N: usize>(held: &mut ArrayVec<u8, N>, text: &str)
    requires { array_vec_len held.old + length text.now ≤ N }
    ensures items { held.new.items ≡ held.old.items ++ text.now }
    ensures len { array_vec_len held.new ≡ array_vec_len held.old + length text.now }
{
    let _ = held.try_extend_from_slice(text.as_bytes());
}

/// Appends a number in decimal.
pub fn push_natural<const N: usize>(held: &mut ArrayVec<u8, N>, number: u64)
    requires { array_vec_len held.old + 20 ≤ N }
    ensures items { held.new.items ≡ held.old.items ++ decimal number }
    ensures len { array_vec_len held.new ≤ array_vec_len held.old + 20 }
{
    let mut digits = itoa::Buffer::new();
    push_text(held, digits.format(number));
}

/// Appends a space and a number in decimal.
pub fn push_spaced<const N: usize>(held: &mut ArrayVec<u8, N>, number: u64)
    requires { array_vec_len held.old + 21 ≤ N }
    ensures items { held.new.items ≡ held.old.items ++ spaced number }
    ensures len { array_vec_len held.new ≤ array_vec_len held.old + 21 }
{
    held.push(b' ');
    push_natural(held, number);
}

/// Appends a signed number in decimal.
pub fn push_integer<const N: usize>(held: &mut ArrayVec<u8, N>, number: i32)
    requires { array_vec_len held.old + 11 ≤ N }
    ensures items { held.new.items ≡ held.old.items ++ signed_decimal number }
    ensures len { array_vec_len held.new ≤ array_vec_len held.old + 11 }
{
    let mut digits = itoa::Buffer::new();
    push_text(held, digits.format(number));
}
