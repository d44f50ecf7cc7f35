ghost use Rattle.std.specs.Prelude.{IfOk, OnErr, IfSome};
ghost use Rattle.fd_events.specs.Draw.{triangles_of};
ghost use Rattle.fd_events.specs.Finder.{Finds};
ghost use Rattle.fd_memory.specs.Wanting.{Wanted};

use crate::boxes::{groups_of, round};
use crate::cells::{Cells, target_box};
use crate::list::TriangleList;
use fd_cover::Bounds;
use std::alloc::{AllocError, Global};

/// So few triangles are looked at one by one.
const FEW_TRIANGLES: u32 = 3;

/// Of a draw with more triangles for each vertex no box of a triangle is kept, since its text is short beside what would be.
const MOST_OF_A_VERTEX: usize = 3;

/// What is kept of a draw's triangles, to find those of a window.
#[derive(Debug, Drop)]
pub(crate) struct Finder {
    pub(crate) bounds: Bounds,
    // the box of each group
    pub(crate) groups: Vec<Bounds>,
    // the box of each triangle, or nothing
    pub(crate) boxes: Vec<Bounds>,
    // where the triangles reach few cells of a grid: those that may reach each
    pub(crate) cells: Option<Cells>,
}

impl Finder {
    /// What is kept of these triangles for a target of this size. None where they are few.
    pub(crate) fn of(
        list: &TriangleList,
        width: u32,
        height: u32,
        alloc: Global,
    ) -> Result<Option<Finder>, AllocError>
        ensures finder { IfOk result (λ finder. IfSome finder (λ finder. Finds finder (triangles_of list.now))) }
        ensures wanted { OnErr result Wanted }
    {
        let count = list.len();
        if count <= FEW_TRIANGLES {
            return Ok(None);
        }
        let boxes = list.boxes(alloc)?;
        let bounds = round(&boxes, 0, boxes.len());
        let groups = groups_of(&boxes, alloc)?;
        if count as usize / MOST_OF_A_VERTEX > list.vertex_count() {
            return Ok(Some(Finder {
                bounds,
                groups,
                boxes: Vec::new(alloc),
                cells: None,
            }));
        }
        let reached = bounds.meet(target_box(width, height));
        let cells = Cells::over(reached, list, &boxes, alloc)?;
        Ok(Some(Finder {
            bounds,
            groups,
            boxes,
            cells,
        }))
    }
}
