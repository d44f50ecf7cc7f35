ghost use Rattle.std.specs.Prelude.{◌*◌, ◌<◌, ◌≤◌, List, length, IfOk, OnErr};
ghost use Rattle.fd_events.specs.Bounds.{AreBoxesOf, IsRound, IsRoundGroup, AreRoundGroups, triangles_between};
ghost use Rattle.fd_events.specs.Draw.{Triangle};
ghost use Rattle.fd_events.specs.Limits.{group_size};
ghost use Rattle.fd_memory.specs.Wanting.{Wanted};

use crate::draw::GROUP_LEN;
use fd_cover::Bounds;
use std::alloc::{AllocError, Global};

/// How many triangles a group has, as a length.
const GROUP_SIZE: usize = GROUP_LEN as usize;

/// The box round each group of the triangles whose boxes these are, in their order.
pub(crate) fn groups_of(boxes: &[Bounds], alloc: Global) -> Result<Vec<Bounds>, AllocError>
    ensures groups { IfOk result (λ groups. (ts : List Triangle) → AreBoxesOf boxes.now ts → AreRoundGroups groups.items ts) }
    ensures wanted { OnErr result Wanted }
{
    let count = boxes.len().div_ceil(GROUP_SIZE);
    let mut groups = fd_memory::room(alloc, count)?;
    for group in 0..count {
        fd_memory::push(&mut groups, round_group(boxes, group))?;
    }
    Ok(groups)
}

/// The box round a group of them.
fn round_group(boxes: &[Bounds], group: usize) -> Bounds
    requires { group_size * group < length boxes.now }
    ensures { (ts : List Triangle) → AreBoxesOf boxes.now ts → IsRoundGroup result group ts }
{
    let len = boxes.len();
    let first = GROUP_SIZE * group;
    round(boxes, first, (first + GROUP_SIZE).min(len))
}

/// The box round the triangles from number `first` up to number `last`, of those whose boxes these are.
pub(crate) fn round(boxes: &[Bounds], first: usize, last: usize) -> Bounds
    requires order { first ≤ last }
    requires last { last ≤ length boxes.now }
    ensures { (ts : List Triangle) → AreBoxesOf boxes.now ts → IsRound result (triangles_between first last ts) }
{
    let mut bounds = Bounds::empty();
    for triangle in first..last {
        bounds = bounds.join(boxes[triangle]);
    }
    bounds
}
