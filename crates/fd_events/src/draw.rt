ghost use Rattle.std.specs.Prelude.{◌≡◌, ◌+◌, ◌-◌, ◌*◌, ◌/◌, ◌<◌, ◌≤◌, ◌&&◌, ℕ, length, IsTrue, Some, IfSome, option_map, slice_get, OnErr};
ghost use Rattle.fd_cover.specs.Bounds.{is_within};
ghost use Rattle.fd_memory.specs.Wanting.{Wanted};

use crate::finder::Finder;
use crate::list::TriangleList;
use crate::picture::Picture;
use fd_blend::Colour;
use fd_cover::{Bounds, Interp, Raster, Tri};
use fd_snap::Pos;
use std::alloc::{AllocError, Global};
use std::marker::Model;
use thiserror::Error;

/// The most vertices that a draw has.
pub const MAX_VERTICES: usize = 196_608;

/// The most indices that a draw has.
pub const MAX_INDICES: usize = 196_608;

/// How many triangles that follow one another make a group, which has a box of its own.
pub const GROUP_LEN: u32 = 32;

/// A corner of a triangle: its position as the capture gives it, its colour, and its depth in 1/65535.
#[derive(Clone, Copy, PartialEq, Eq, Debug)]
pub struct Vertex {
    pub pos: Pos,
    pub colour: Colour,
    pub z: u16,
}

/// Why there is no draw. The faults are checked in this order.
#[derive(Clone, Copy, PartialEq, Eq, Debug, Error)]
pub enum DrawFault {
    /// There are more than `MAX_VERTICES` vertices.
    #[error("too many vertices")]
    Vertices,
    /// There are more than `MAX_INDICES` indices.
    #[error("too many indices")]
    Indices,
    /// An index names no vertex, also one that is left over.
    #[error("an index of no vertex")]
    IndexRange,
}

/// A list of triangles, numbered from 0: each three vertices, or the three vertices that each three indices name.
/// One or two that are left over are dropped.
#[derive(Debug, Drop)]
pub struct Draw {
    list: TriangleList,
    // behind a pointer, since an event has room for the largest kind, and most are no draws
    finder: Option<Box<Finder>>,
}

impl Model for Draw {
    ghost use Rattle.std.specs.Prelude.{IfSome};
    ghost use Rattle.fd_events.specs.Draw.{DrawList, triangles_of};
    ghost use Rattle.fd_events.specs.Finder.{Finds};

    ghost Value = { DrawList };

    ghost view = { λ d. d.list };

    ghost invariant = { λ d. IfSome d.finder (λ finder. Finds finder.value (triangles_of d.list)) };
}

impl Draw {
    ghost use Rattle.fd_events.specs.Bounds.{HoldsTriangles, IsTriangleBox, HoldsGroup, IsGroupBox, CoverNone, bounds_of_triangles};
    ghost use Rattle.fd_events.specs.Culled.{AreCulled};
    ghost use Rattle.fd_events.specs.Limits.{group_size, most_triangles};
    ghost use Rattle.fd_events.specs.Draw.{made, made_with, triangles_of};
    ghost use Rattle.fd_events.specs.Picture.{clipped_to, is_on};
    ghost use Rattle.fd_cover.specs.declared.shading.Interp.TheVariants.{Flat};

    /// A draw of these vertices and indices, which are dropped on a refusal.
    pub fn new(
        vertices: Vec<Vertex>,
        indices: Option<Vec<u32>>,
        interp: Interp,
    ) -> Result<Draw, DrawFault>
        ensures { result ≡ made vertices.items (option_map (λ v. v.items) indices) interp }
    {
        let list = TriangleList::new(vertices, indices, interp, None)?;
        Ok(Draw { list, finder: None })
    }

    /// A draw of these vertices and indices whose colours come from a picture, and not from those of the vertices. All are dropped on a refusal.
    pub fn painted(
        vertices: Vec<Vertex>,
        indices: Option<Vec<u32>>,
        picture: Box<Picture>,
    ) -> Result<Draw, DrawFault>
        ensures { result ≡ made_with (Some picture.value) vertices.items (option_map (λ v. v.items) indices) Flat }
    {
        let list = TriangleList::new(vertices, indices, Interp::Flat, Some(picture))?;
        Ok(Draw { list, finder: None })
    }

    /// The number of triangles.
    pub fn triangles(&self) -> u32
        ensures value { result ≡ length (triangles_of self.now) }
        ensures most { result ≤ most_triangles }
    {
        self.list.len()
    }

    /// The corners of a triangle, snapped to 1/256 pixel.
    pub fn tri(&self, triangle: u32) -> Tri
        requires { triangle < length (triangles_of self.now) }
        ensures { option_map (λ t. t.corners) (slice_get (triangles_of self.now) triangle) ≡ Some result }
    {
        self.list.tri(triangle)
    }

    /// The colours of a triangle's corners, in the order of `tri`.
    pub fn colours(&self, triangle: u32) -> [Colour; 3]
        requires { triangle < length (triangles_of self.now) }
        ensures { option_map (λ t. t.colours) (slice_get (triangles_of self.now) triangle) ≡ Some result }
    {
        self.list.colours(triangle)
    }

    /// The depths of a triangle's corners, in the order of `tri`.
    pub fn depths(&self, triangle: u32) -> [u16; 3]
        requires { triangle < length (triangles_of self.now) }
        ensures { option_map (λ t. t.depths) (slice_get (triangles_of self.now) triangle) ≡ Some result }
    {
        self.list.depths(triangle)
    }

    /// How a triangle's colour comes from those of its corners.
    pub fn interp(&self) -> Interp
        ensures { result ≡ self.now.interp }
    {
        self.list.interp()
    }

    /// The picture that its colours come from, if there is one.
    pub fn picture(&self) -> Option<&Picture>
        ensures { option_map (λ p. p.now) result ≡ self.now.picture }
    {
        self.list.picture()
    }

    /// What of a box lies on the draw's picture, or all of it where there is none: elsewhere nothing is drawn.
    pub fn clip(&self, bounds: Bounds) -> Bounds
        ensures value { result ≡ clipped_to self.now.picture bounds }
        ensures holds { (x y : ℕ) → is_within result x y ≡ (is_within bounds x y && is_on self.now.picture x y) }
    {
        match self.picture() {
            Some(picture) => picture.clip(bounds),
            None => bounds,
        }
    }

    /// Whether a table that was started with the draw tells that a raster state culls every triangle.
    pub fn is_culled(&self, raster: &Raster) -> bool
        ensures { IsTrue result → AreCulled raster.now.cull raster.now.front_ccw (triangles_of self.now) }
    {
        self.list.is_culled(raster)
    }

    /// The box round the triangles, which holds every pixel that one of them covers.
    pub fn bounds(&self) -> Bounds
        ensures value { result ≡ bounds_of_triangles (triangles_of self.now) }
        ensures covered { HoldsTriangles result (triangles_of self.now) }
    {
        match &self.finder {
            Some(finder) => finder.bounds,
            None => self.list.all_bounds(),
        }
    }

    /// The box round a group of triangles, those from number `GROUP_LEN` times `group` on, or the one round all. Either holds every pixel
    /// that one of the group covers.
    pub fn group_bounds(&self, group: u32) -> Bounds
        ensures value { IsGroupBox result group (triangles_of self.now) }
        ensures covered { HoldsGroup result group (triangles_of self.now) }
    {
        if let Some(finder) = &self.finder {
            if let Some(bounds) = finder.groups.get(group as usize) {
                return *bounds;
            }
        }
        self.bounds()
    }

    /// The box round a triangle, which holds every pixel that it covers.
    pub fn triangle_bounds(&self, triangle: u32) -> Bounds
        ensures { IsTriangleBox result triangle (triangles_of self.now) }
    {
        if let Some(bounds) = self.kept_bounds(triangle) {
            bounds
        } else if triangle < self.list.len() {
            Bounds::of(&self.list.tri(triangle))
        } else {
            Bounds::empty()
        }
    }

    /// The same where a table that was started with the draw keeps it, as for many triangles.
    fn kept_bounds(&self, triangle: u32) -> Option<Bounds>
        ensures { IfSome result (λ bounds. IsTriangleBox bounds triangle (triangles_of self.now)) }
    {
        if let Some(finder) = &self.finder {
            if let Some(bounds) = finder.boxes.get(triangle as usize) {
                return Some(*bounds);
            }
        }
        None
    }

    /// The first triangle from this one on that may cover a pixel of a window, by what a table that was started with the draw keeps, or the
    /// number of triangles. None of those that are passed over covers one.
    pub fn next_listed(&self, triangle: u32, window: Bounds) -> u32
        requires { triangle ≤ length (triangles_of self.now) }
        ensures from { triangle ≤ result }
        ensures last { result ≤ length (triangles_of self.now) }
        ensures missed { CoverNone window (triangles_of self.now) triangle result }
    {
        let count = self.triangles();
        let mut next = self.next_in_cell(triangle, window);
        while next < count && self.is_far(next, window) {
            next = self.next_in_cell(next + 1, window);
        }
        next
    }

    /// The same by the window's cell alone, or where there are no cells by groups.
    fn next_in_cell(&self, triangle: u32, window: Bounds) -> u32
        requires { triangle ≤ length (triangles_of self.now) }
        ensures from { triangle ≤ result }
        ensures last { result ≤ length (triangles_of self.now) }
        ensures missed { CoverNone window (triangles_of self.now) triangle result }
    {
        let count = self.list.len();
        if let Some(finder) = &self.finder {
            if let Some(cells) = &finder.cells {
                return cells.next(triangle, count, window);
            }
        }
        self.next_grouped(triangle, window)
    }

    /// The same by the boxes of the groups. A draw of one group isn't asked for its box, which its table asked for.
    fn next_grouped(&self, triangle: u32, window: Bounds) -> u32
        requires { triangle ≤ length (triangles_of self.now) }
        ensures from { triangle ≤ result }
        ensures last { result ≤ length (triangles_of self.now) }
        ensures missed { CoverNone window (triangles_of self.now) triangle result }
    {
        let count = self.triangles();
        if count <= GROUP_LEN {
            return triangle;
        }
        let mut next = triangle;
        while next < count && self.begins_far_group(next, window) {
            next = count.min(next + GROUP_LEN);
        }
        next
    }

    /// Whether a triangle's own box is kept and misses a window.
    fn is_far(&self, triangle: u32, window: Bounds) -> bool
        ensures { IsTrue result → CoverNone window (triangles_of self.now) triangle (triangle + 1) }
    {
        match self.kept_bounds(triangle) {
            Some(bounds) => !bounds.meets(window),
            None => false,
        }
    }

    /// Whether a group of triangles begins with this one, and its box misses a window.
    fn begins_far_group(&self, triangle: u32, window: Bounds) -> bool
        ensures { IsTrue result → CoverNone window (triangles_of self.now) triangle (triangle + group_size) }
    {
        triangle % GROUP_LEN == 0 && !self.group_bounds(triangle / GROUP_LEN).meets(window)
    }

    /// Computes the boxes of the groups and of the triangles, and lists these in cells over a target of this size. On want of memory
    /// nothing changes.
    pub(crate) fn list_triangles(
        &mut self,
        width: u32,
        height: u32,
        alloc: Global,
    ) -> Result<(), AllocError>
        ensures same { self.new ≡ self.old }
        ensures wanted { OnErr result Wanted }
    {
        if let Some(finder) = Finder::of(&self.list, width, height, alloc)? {
            self.finder = Some(fd_memory::boxed(alloc, finder)?);
        }
        self.list.find_culled();
        Ok(())
    }
}
