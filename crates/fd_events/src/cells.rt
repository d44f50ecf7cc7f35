ghost use Rattle.std.specs.Prelude.{◌≡◌, ℕ, ◌+◌, ◌-◌, ◌*◌, ◌^◌, ◌<◌, ◌≤◌, IsTrue, IfOk, IfSome, length, map, Some, slice_get, vec_len, OnErr};
ghost use Rattle.std.specs.List.{Contains};
ghost use Rattle.std.specs.List.Sorted.{IsNonDecreasing};
ghost use Rattle.fd_snap.specs.Limits.{most_pixels};
ghost use Rattle.fd_cover.specs.Bounds.{is_within, HoldsCovered};
ghost use Rattle.fd_events.specs.Limits.{most_triangles};
ghost use Rattle.fd_events.specs.Bounds.{AreTriangleBoxes};
ghost use Rattle.fd_events.specs.Draw.{triangles_of};
ghost use Rattle.fd_events.specs.Numbers.{numbers_of, AreOrdered, Grow};
ghost use Rattle.fd_events.specs.Packed.{listed_in};
ghost use Rattle.fd_events.specs.Under.{AreUnder};
ghost use Rattle.fd_events.specs.Cells.{cell_count, cell_at, cell_place, IsCellGrid, IsPartUnder, HasCell, IsBeyond};
ghost use Rattle.fd_events.specs.Cells.{ListCovered, ListAllCovered, ListTriangles};
ghost use Rattle.fd_memory.specs.Wanting.{Wanted};

use crate::list::TriangleList;
use crate::numbers::{add_row, no_numbers};
use crate::packed::Packed;
use fd_cover::{Bounds, Scanlines, Tri};
use std::alloc::{AllocError, Global};

/// The side of the smallest cells is this power of two, and no tile is larger.
const LEAST_SHIFT: u32 = 5;

/// The side of the largest cells is this power of two, and no target is larger.
const GREATEST_SHIFT: u32 = 14;

/// So many triangles at least are listed in cells.
const FEWEST_LISTED: usize = 8;

/// How many cells there are at most for each triangle of a draw, or for each vertex if these are fewer.
const MOST_CELLS: usize = 12;

/// How many numbers the cells list at most for each of them.
const MOST_MEETINGS: usize = 24;

/// Of a row of so few cells each is taken to be reached, since to find out costs more.
const FEW_COLUMNS: u32 = 2;

/// Of a row of more cells too, as they are looked at one by one.
const MOST_COLUMNS: u32 = 64;

/// Square cells that lie side by side, aligned to the target's corner.
#[derive(Clone, Copy, Debug)]
pub(crate) struct CellGrid {
    // a cell's side is this power of two
    shift: u32,
    // which cells there are, in columns and rows of cells
    area: Bounds,
}

/// The cells of a grid, each with the numbers of the triangles that may reach it.
#[derive(Debug, Drop)]
pub(crate) struct Cells {
    grid: CellGrid,
    lists: Packed,
}

/// The first of these numbers that is at least `number`, or else `end`.
pub(crate) fn first_from(numbers: &[u32], number: u32, end: u32) -> u32
    requires order { number ≤ end }
    requires rise { IsNonDecreasing numbers.now }
    ensures from { number ≤ result }
    ensures last { result ≤ end }
    ensures passed { (i : ℕ) → number ≤ i → i < result → Contains numbers.now i → ⊥ }
{
    let place = numbers.partition_point(|listed| *listed < number);
    match numbers.get(place) {
        Some(listed) => end.min(*listed),
        None => end,
    }
}

/// The box of a target of this size.
pub(crate) fn target_box(width: u32, height: u32) -> Bounds
    ensures { result ≡ record { left = 0; top = 0; right = width; bottom = height } }
{
    Bounds {
        left: 0,
        top: 0,
        right: width,
        bottom: height,
    }
}

impl CellGrid {
    /// The finest grid over a box that has more than one cell and not too many, of which the triangles reach not too many.
    fn over(bounds: Bounds, list: &TriangleList, boxes: &[Bounds]) -> Option<CellGrid>
        requires few { length boxes.now ≤ most_triangles }
        requires all { length boxes.now ≡ length (triangles_of list.now) }
        ensures { IfSome result (λ grid. IsCellGrid grid) }
    {
        let weight = boxes.len().min(list.vertex_count());
        for shift in LEAST_SHIFT..GREATEST_SHIFT + 1 {
            let area = cells_under(bounds, shift);
            let grid = CellGrid { shift, area };
            if grid.len() <= 1 {
                return None;
            }
            if grid.len() <= MOST_CELLS * weight
                && !grid.has_more_meetings(list, boxes, MOST_MEETINGS * weight)
            {
                return Some(grid);
            }
        }
        None
    }

    /// The finest grid over a target of this size that has no more than so many cells, or the coarsest one.
    pub(crate) fn on_target(width: u32, height: u32, most: usize) -> CellGrid
        ensures { IsCellGrid result }
    {
        let bounds = target_box(width, height);
        for shift in LEAST_SHIFT..GREATEST_SHIFT {
            let area = cells_under(bounds, shift);
            if area.count() <= most {
                return CellGrid { shift, area };
            }
        }
        CellGrid {
            shift: GREATEST_SHIFT,
            area: cells_under(bounds, GREATEST_SHIFT),
        }
    }

    /// The number of cells.
    pub(crate) fn len(self) -> usize
        requires { IsCellGrid self }
        ensures { result ≡ cell_count self }
    {
        self.area.count()
    }

    /// The place of a cell among all, row by row.
    fn place(self, column: u32, row: u32) -> usize
        requires grid { IsCellGrid self }
        requires left { self.area.left ≤ column }
        requires right { column ≤ self.area.right }
        requires top { self.area.top ≤ row }
        requires bottom { row < self.area.bottom }
        ensures { result ≡ cell_place self column row }
    {
        (row - self.area.top) as usize * (self.area.right - self.area.left) as usize
            + (column - self.area.left) as usize
    }

    /// The part of the grid that a box of pixels meets.
    pub(crate) fn part_under(self, bounds: Bounds) -> Bounds
        requires { IsCellGrid self }
        ensures { IsPartUnder self result bounds }
    {
        cells_under(bounds, self.shift).meet(self.area)
    }

    /// The side of a cell, in pixels.
    fn side(self) -> u32
        requires { IsCellGrid self }
        ensures { result ≡ 2 ^ self.shift }
    {
        1 << self.shift
    }

    /// Whether a cell lies beyond one edge of a triangle, whose rows stand at the cell's first one.
    fn is_beyond(self, edges: &Scanlines, column: u32) -> bool
        requires grid { IsCellGrid self }
        requires rows { edges.now.1 + 2 ^ self.shift ≤ most_pixels }
        ensures { IsTrue result → (row : ℕ) → edges.now.1 ≡ row * 2 ^ self.shift → IsBeyond self edges.now.0 column row }
    {
        let side = self.side();
        column < (1 << GREATEST_SHIFT) >> self.shift
            && edges.misses(column * side, (column + 1) * side, side - 1)
    }

    /// The columns from one up to another of a part of the grid, of whose cells in this row a triangle may reach all. The others of the row it
    /// doesn't reach.
    fn reached(self, triangle: &Tri, part: Bounds, row: u32) -> (u32, u32)
        requires grid { IsCellGrid self }
        requires columns { part.left ≤ part.right }
        ensures first { part.left ≤ result.0 }
        ensures order { result.0 ≤ result.1 }
        ensures last { result.1 ≤ part.right }
        ensures before { (column : ℕ) → part.left ≤ column → column < result.0 → IsBeyond self triangle.now column row }
        ensures after { (column : ℕ) → result.1 ≤ column → column < part.right → IsBeyond self triangle.now column row }
    {
        let columns = part.right - part.left;
        if columns <= FEW_COLUMNS
            || columns > MOST_COLUMNS
            || row >= (1 << GREATEST_SHIFT) >> self.shift
        {
            return (part.left, part.right);
        }
        let edges = Scanlines::of(triangle, row * self.side());
        let mut left = part.left;
        while left < part.right && self.is_beyond(&edges, left) {
            left += 1;
        }
        let mut right = part.right;
        while left < right && self.is_beyond(&edges, right - 1) {
            right -= 1;
        }
        (left, right)
    }

    /// Whether the triangles may reach more cells than these, each cell counted for each of them.
    fn has_more_meetings(self, list: &TriangleList, boxes: &[Bounds], most: usize) -> bool
        requires grid { IsCellGrid self }
        requires few { length boxes.now ≤ most_triangles }
        requires all { length boxes.now ≡ length (triangles_of list.now) }
    {
        let mut meetings: usize = 0;
        for number in 0..boxes.len() {
            let part = self.part_under(boxes[number]);
            if part.is_empty() {
                continue;
            }
            let triangle = list.tri(number as u32);
            for row in part.top..part.bottom {
                let (left, right) = self.reached(&triangle, part, row);
                meetings = meetings.saturating_add((right - left) as usize);
            }
            if meetings > most {
                return true;
            }
        }
        false
    }

    /// Adds a triangle's number to the lists of the cells that it may reach. The box holds all that it covers.
    pub(crate) fn add(
        self,
        triangle: &Tri,
        bounds: Bounds,
        number: u32,
        lists: &mut Vec<Vec<u32>>,
    ) -> Result<(), AllocError>
        requires grid { IsCellGrid self }
        requires covered { HoldsCovered bounds triangle.now }
        requires lists { cell_count self ≤ vec_len lists.old }
        ensures listed { IfOk result (λ _. Grow number (numbers_of lists.old.items) (numbers_of lists.new.items)
            × ListCovered self (numbers_of lists.new.items) number triangle.now) }
        ensures wanted { OnErr result Wanted }
    {
        let part = self.part_under(bounds);
        if part.is_empty() {
            return Ok(());
        }
        for row in part.top..part.bottom {
            let (left, right) = self.reached(triangle, part, row);
            add_row(lists, self.place(left, row), self.place(right, row), number)?;
        }
        Ok(())
    }

    /// The lists of all cells: in each the numbers of the triangles that may reach it.
    fn lists(
        self,
        list: &TriangleList,
        boxes: &[Bounds],
        alloc: Global,
    ) -> Result<Vec<Vec<u32>>, AllocError>
        requires grid { IsCellGrid self }
        requires few { length boxes.now ≤ most_triangles }
        requires all { length boxes.now ≡ length (triangles_of list.now) }
        requires boxes { AreTriangleBoxes boxes.now (triangles_of list.now) }
        ensures lists { IfOk result (λ lists. AreOrdered (length boxes.now) (numbers_of lists.items)
            × ListAllCovered self (numbers_of lists.items) (triangles_of list.now)) }
        ensures wanted { OnErr result Wanted }
    {
        let mut lists = no_numbers(self.len(), alloc)?;
        for number in 0..boxes.len() {
            let triangle = list.tri(number as u32);
            self.add(&triangle, boxes[number], number as u32, &mut lists)?;
        }
        Ok(lists)
    }

    /// The place of the cell in which a window lies, where it lies in one.
    pub(crate) fn place_under(self, window: Bounds) -> Option<usize>
        requires { IsCellGrid self }
        ensures { IfSome result (λ place. (x y : ℕ) → IsTrue (is_within window x y) → HasCell self x y × (cell_at self x y ≡ place)) }
    {
        let under = cells_under(window, self.shift);
        if under.right - under.left == 1
            && under.bottom - under.top == 1
            && self.area.holds(under.left, under.top)
        {
            Some(self.place(under.left, under.top))
        } else {
            None
        }
    }
}

impl Cells {
    /// The cells of a grid over a box, with the numbers of the triangles that may reach each. None where they are few, or all in a cell,
    /// or reach too many cells.
    pub(crate) fn over(
        bounds: Bounds,
        list: &TriangleList,
        boxes: &[Bounds],
        alloc: Global,
    ) -> Result<Option<Cells>, AllocError>
        requires few { length boxes.now ≤ most_triangles }
        requires all { length boxes.now ≡ length (triangles_of list.now) }
        requires boxes { AreTriangleBoxes boxes.now (triangles_of list.now) }
        ensures cells { IfOk result (λ cells. IfSome cells (λ cells. ListTriangles cells (triangles_of list.now))) }
        ensures wanted { OnErr result Wanted }
    {
        if boxes.len() < FEWEST_LISTED {
            return Ok(None);
        }
        let Some(grid) = CellGrid::over(bounds, list, boxes) else {
            return Ok(None);
        };
        let lists = grid.lists(list, boxes, alloc)?;
        match Packed::of(&lists, alloc)? {
            Some(lists) => Ok(Some(Cells { grid, lists })),
            None => Ok(None),
        }
    }

    /// The numbers that the cell lists in which a window lies, where it lies in one.
    fn listed(&self, window: Bounds) -> Option<&[u32]>
        requires grid { IsCellGrid self.now.grid }
        requires rise { (cell : ℕ) → IsNonDecreasing (listed_in self.now.lists cell) }
        ensures rise { IfSome result (λ numbers. IsNonDecreasing numbers.now) }
        ensures there { IfSome result (λ numbers. (x y : ℕ) → IsTrue (is_within window x y) → HasCell self.now.grid x y
            × (listed_in self.now.lists (cell_at self.now.grid x y) ≡ numbers.now)) }
    {
        self.lists.get(self.grid.place_under(window)?)
    }

    /// The first number from this one on that the cell lists in which a window lies, or else `end`; where it lies in no cell, this
    /// number. No triangle that is passed over covers a pixel of the window.
    pub(crate) fn next(&self, number: u32, end: u32, window: Bounds) -> u32
        requires order { number ≤ end }
        requires grid { IsCellGrid self.now.grid }
        requires rise { (cell : ℕ) → IsNonDecreasing (listed_in self.now.lists cell) }
        ensures from { number ≤ result }
        ensures last { result ≤ end }
        ensures missed { (i x y : ℕ) → number ≤ i → i < result → IsTrue (is_within window x y) → HasCell self.now.grid x y
            × (Contains (listed_in self.now.lists (cell_at self.now.grid x y)) i → ⊥) }
    {
        match self.listed(window) {
            Some(numbers) => first_from(numbers, number, end),
            None => number,
        }
    }
}

/// The cells, of a side that is this power of two, that a box of pixels meets.
fn cells_under(bounds: Bounds, shift: u32) -> Bounds
    requires { shift < 32 }
    ensures under { AreUnder result bounds shift }
    ensures columns { result.left ≤ result.right }
    ensures rows { result.top ≤ result.bottom }
{
    if bounds.is_empty() {
        return Bounds::empty();
    }
    Bounds {
        left: bounds.left >> shift,
        top: bounds.top >> shift,
        right: ((bounds.right - 1) >> shift) + 1,
        bottom: ((bounds.bottom - 1) >> shift) + 1,
    }
}
