ghost use Rattle.std.specs.Prelude.{◌≡◌, ◌≤◌, ◌+◌, length, replicate};
ghost use Rattle.fd_tile.specs.Part.{pasted_at};

use std::alloc::Allocator;

/// Writes one value over all of these. Each is written alike, the last one too, so that many are written at once.
pub fn fill<T: Copy>(row: &mut [T], value: T)
    ensures { row.new ≡ replicate (length row.old) value }
{
    for each in row.iter_mut() {
        *each = value;
    }
}

/// The same of all items of a list.
pub(crate) fn fill_all<T: Copy, A: Allocator>(items: &mut Vec<T, A>, value: T)
    ensures { items.new.items ≡ replicate (length items.old.items) value }
{
    fill(items.as_mut_slice(), value);
}

/// Writes these over as many items of a list, from `start` on.
pub(crate) fn put<T: Copy, A: Allocator>(items: &mut Vec<T, A>, start: usize, new: &[T])
    requires { start + length new.now ≤ length items.old.items }
    ensures long { length items.new.items ≡ length items.old.items }
    ensures value { items.new.items ≡ pasted_at start new.now items.old.items }
{
    put_part(items.as_mut_slice(), start, new);
}

/// The same of a slice.
fn put_part<T: Copy>(items: &mut [T], start: usize, new: &[T])
    requires { start + length new.now ≤ length items.old }
    ensures { items.new ≡ pasted_at start new.now items.old }
{
    items[start..start + new.len()].copy_from_slice(new);
}
