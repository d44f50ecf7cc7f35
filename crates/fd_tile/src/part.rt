ghost use Rattle.std.specs.Prelude.{◌≡◌, ◌≤◌, ◌-◌, length, take, drop};
ghost use Rattle.std.specs.Borrow.{sem};
ghost use Rattle.fd_tile.specs.Part.{LendsPart};

use std::alloc::Allocator;

/// The items from `start` to `end`, to be written. std lends them too, but says nothing of the others where more were left than lent.
pub(crate) fn part_mut<T, A: Allocator>(items: &mut Vec<T, A>, start: usize, end: usize) -> &mut [T]
    requires ordered { start ≤ end }
    requires within { end ≤ length items.old.items }
    ensures* writes_back { sem 𝓛 (LendsPart T.row A.row A.Allocator items.entry start end result) }
    ensures value { result.now ≡ take (end - start) (drop start items.old.items) }
{
    let all = items.as_mut_slice();
    &mut all[start..end]
}
