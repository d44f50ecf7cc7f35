ghost use Rattle.std.specs.Prelude.{◌≡◌, ◌≤◌, ◌<◌, length, Some, option_map, slice_get, nat_lt, OnErr};
ghost use Rattle.std.specs.List.{list_all};
ghost use Rattle.fd_events.specs.Indices.{has_too_many, are_in_range, if_indexed};
ghost use Rattle.fd_memory.specs.Wanting.{Wanted};

use crate::culled::Culled;
use crate::draw::{DrawFault, MAX_INDICES, MAX_VERTICES, Vertex};
use crate::picture::Picture;
use fd_blend::Colour;
use fd_cover::{Bounds, Interp, Raster, Tri};
use fd_snap::snap;
use std::alloc::{AllocError, Global};
use std::marker::Model;

/// The triangles of a draw, by their vertices or by indices of vertices.
#[derive(Debug, Drop)]
pub(crate) struct TriangleList {
    vertices: Vec<Vertex>,
    // none where the vertices themselves are the corners
    indices: Vec<u32>,
    // behind a pointer, since an event has room for the largest kind
    picture: Option<Box<Picture>>,
    // what takes a byte or a few stands together, as an event is as large as a draw
    is_indexed: bool,
    interp: Interp,
    // in which raster states every triangle is culled, once a table was started with the draw
    culled: Culled,
}

impl Model for TriangleList {
    ghost use Rattle.std.specs.Prelude.{◌≡◌, Ok, option_map};
    ghost use Rattle.fd_events.specs.Culled.{TellsCulled};
    ghost use Rattle.fd_events.specs.Draw.{DrawList, draw_of, made, triangles_of, with_picture};
    ghost use Rattle.fd_events.specs.Indices.{if_indexed};

    ghost Value = { DrawList };

    ghost view = { λ d. with_picture (option_map (λ p. p.value) d.picture) (draw_of d.vertices.items (if_indexed d.is_indexed d.indices.items) d.interp) };

    ghost invariant = { λ d.
        (made d.vertices.items (if_indexed d.is_indexed d.indices.items) d.interp
        ≡ Ok (draw_of d.vertices.items (if_indexed d.is_indexed d.indices.items) d.interp))
        × TellsCulled d.culled (triangles_of
        (with_picture (option_map (λ p. p.value) d.picture) (draw_of d.vertices.items (if_indexed d.is_indexed d.indices.items) d.interp))) };
}

impl TriangleList {
    ghost use Rattle.std.specs.Prelude.{IfOk, IsTrue};
    ghost use Rattle.fd_events.specs.Culled.{AreCulled};
    ghost use Rattle.fd_events.specs.Bounds.{IsRound, AreTriangleBoxes, triangles_between};
    ghost use Rattle.fd_events.specs.Draw.{made_with, listed, triangle_of_vertices, triangles_of};
    ghost use Rattle.fd_events.specs.Limits.{most_triangles, most_vertices};

    /// The triangles of these vertices and indices, which are dropped on a refusal.
    pub(crate) fn new(
        vertices: Vec<Vertex>,
        indices: Option<Vec<u32>>,
        interp: Interp,
        picture: Option<Box<Picture>>,
    ) -> Result<TriangleList, DrawFault>
        ensures { result ≡ made_with (option_map (λ p. p.value) picture) vertices.items (option_map (λ v. v.items) indices) interp }
    {
        if vertices.len() > MAX_VERTICES {
            return Err(DrawFault::Vertices);
        }
        if has_too_many(&indices) {
            return Err(DrawFault::Indices);
        }
        if !are_in_range(&indices, vertices.len()) {
            return Err(DrawFault::IndexRange);
        }
        let (is_indexed, indices) = parted(indices, *vertices.allocator());
        Ok(TriangleList {
            vertices,
            indices,
            picture,
            is_indexed,
            interp,
            culled: Culled::unknown(),
        })
    }

    /// The number of corners, those included that are left over.
    fn corner_count(&self) -> usize
        ensures value { result ≡ length (listed self.now) }
        ensures max { result ≤ most_vertices }
    {
        if self.is_indexed {
            self.indices.len()
        } else {
            self.vertices.len()
        }
    }

    /// The number of vertices.
    pub(crate) fn vertex_count(&self) -> usize {
        self.vertices.len()
    }

    /// The vertex at a corner.
    fn vertex(&self, corner: usize) -> Vertex
        requires { corner < length (listed self.now) }
        ensures { slice_get (listed self.now) corner ≡ Some result }
    {
        if self.is_indexed {
            self.vertices[self.indices[corner] as usize]
        } else {
            self.vertices[corner]
        }
    }

    /// The vertices of a triangle.
    fn corners(&self, triangle: u32) -> (Vertex, Vertex, Vertex)
        requires { triangle < length (triangles_of self.now) }
        ensures { slice_get (triangles_of self.now) triangle ≡ Some (triangle_of_vertices self.now.picture result.0 result.1 result.2) }
    {
        let first = 3 * triangle as usize;
        (
            self.vertex(first),
            self.vertex(first + 1),
            self.vertex(first + 2),
        )
    }

    /// The number of triangles.
    pub(crate) fn len(&self) -> u32
        ensures value { result ≡ length (triangles_of self.now) }
        ensures most { result ≤ most_triangles }
    {
        (self.corner_count() / 3) as u32
    }

    /// The corners of a triangle, snapped to 1/256 pixel.
    pub(crate) fn tri(&self, triangle: u32) -> Tri
        requires { triangle < length (triangles_of self.now) }
        ensures { option_map (λ t. t.corners) (slice_get (triangles_of self.now) triangle) ≡ Some result }
    {
        let (a, b, c) = self.corners(triangle);
        Tri {
            a: snap(a.pos),
            b: snap(b.pos),
            c: snap(c.pos),
        }
    }

    /// Finds the raster states in which every triangle is culled.
    pub(crate) fn find_culled(&mut self)
        ensures { self.new ≡ self.old }
    {
        self.culled = Culled::of(self);
    }

    /// Whether it was found that a raster state culls every triangle.
    pub(crate) fn is_culled(&self, raster: &Raster) -> bool
        ensures { IsTrue result → AreCulled raster.now.cull raster.now.front_ccw (triangles_of self.now) }
    {
        self.culled.by(raster)
    }

    /// The colours of a triangle's corners, in the order of `tri`.
    pub(crate) fn colours(&self, triangle: u32) -> [Colour; 3]
        requires { triangle < length (triangles_of self.now) }
        ensures { option_map (λ t. t.colours) (slice_get (triangles_of self.now) triangle) ≡ Some result }
    {
        let (a, b, c) = self.corners(triangle);
        [a.colour, b.colour, c.colour]
    }

    /// The depths of a triangle's corners, in the order of `tri`.
    pub(crate) fn depths(&self, triangle: u32) -> [u16; 3]
        requires { triangle < length (triangles_of self.now) }
        ensures { option_map (λ t. t.depths) (slice_get (triangles_of self.now) triangle) ≡ Some result }
    {
        let (a, b, c) = self.corners(triangle);
        [a.z, b.z, c.z]
    }

    pub(crate) fn interp(&self) -> Interp
        ensures { result ≡ self.now.interp }
    {
        self.interp
    }

    /// The picture that the colours come from, if there is one.
    pub(crate) fn picture(&self) -> Option<&Picture>
        ensures { option_map (λ p. p.now) result ≡ self.now.picture }
    {
        match &self.picture {
            Some(picture) => Some(picture),
            None => None,
        }
    }

    /// The box round the triangles from number `first` up to number `last`, which holds every pixel that one of them covers.
    pub(crate) fn bounds(&self, first: u32, last: u32) -> Bounds
        requires order { first ≤ last }
        requires last { last ≤ length (triangles_of self.now) }
        ensures { IsRound result (triangles_between first last (triangles_of self.now)) }
    {
        let mut bounds = Bounds::empty();
        for triangle in first..last {
            bounds = bounds.join(Bounds::of(&self.tri(triangle)));
        }
        bounds
    }

    /// The box round all triangles, which holds every pixel that one of them covers.
    pub(crate) fn all_bounds(&self) -> Bounds
        ensures { IsRound result (triangles_of self.now) }
    {
        self.bounds(0, self.len())
    }

    /// The boxes of all triangles, in their order.
    pub(crate) fn boxes(&self, alloc: Global) -> Result<Vec<Bounds>, AllocError>
        ensures boxes { IfOk result (λ boxes. AreTriangleBoxes boxes.items (triangles_of self.now) × (length boxes.items ≡ length (triangles_of self.now))
            × (length boxes.items ≤ most_triangles)) }
        ensures wanted { OnErr result Wanted }
    {
        let count = self.len();
        let mut boxes = fd_memory::room(alloc, count as usize)?;
        for triangle in 0..count {
            fd_memory::push(&mut boxes, Bounds::of(&self.tri(triangle)))?;
        }
        Ok(boxes)
    }
}

/// Whether a draw has indices, and which.
fn parted(indices: Option<Vec<u32>>, alloc: Global) -> (bool, Vec<u32>)
    ensures { if_indexed result.0 result.1.items ≡ option_map (λ v. v.items) indices }
{
    match indices {
        Some(indices) => (true, indices),
        None => (false, Vec::new(alloc)),
    }
}

fn has_too_many(indices: &Option<Vec<u32>>) -> bool
    ensures { result ≡ has_too_many (option_map (λ v. v.items) indices.now) }
{
    match indices {
        None => false,
        Some(indices) => indices.len() > MAX_INDICES,
    }
}

fn are_below(indices: &[u32], count: usize) -> bool
    ensures { result ≡ list_all (λ index. nat_lt index count) indices.now }
{
    indices.iter().all(|index| (*index as usize) < count)
}

fn are_in_range(indices: &Option<Vec<u32>>, count: usize) -> bool
    ensures { result ≡ are_in_range count (option_map (λ v. v.items) indices.now) }
{
    match indices {
        None => true,
        Some(indices) => are_below(indices, count),
    }
}
