// Lists that grow within the room that they were made with, so that no growth takes memory.
ghost use Rattle.std.specs.Prelude.{◌≡◌, ◌+◌, ◌≤◌, ◌++◌, length, replicate, vec_capacity};

/// Appends copies of a value, for which there is room.
pub(crate) fn append_copies<T: Copy + Drop>(items: &mut Vec<T>, value: T, count: usize)
    requires { length items.old.items + count ≤ vec_capacity items.old }
    ensures items { items.new.items ≡ items.old.items ++ replicate count value }
    ensures capacity { vec_capacity items.old ≤ vec_capacity items.new }
{
    let _ = items.resize(items.len() + count, value);
}
