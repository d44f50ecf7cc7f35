//! The vertices of a draw, taken from the tokens of its text.
ghost use Rattle.std.specs.Prelude.{◌≡◌, ◌<◌, [], ◌∷◌, ◌++◌, ◌&&◌, length, map, take, Some, None, Err, IfOk, OnOk, option_map};
ghost use Rattle.std.specs.Prelude.{codes, cond, option_and_then};
ghost use Rattle.std.specs.Str.{bytes_eq};
ghost use Rattle.serde_json.specs.Data.{Data, Items, Members, object};
ghost use Rattle.fd_json.specs.Taken.{taken, members_taken, items_taken};
ghost use Rattle.fd_capture.specs.Field.{all_of, array_of, colour_of_data, list_of, number_between, signed_32, unsigned_32};
ghost use Rattle.fd_capture.specs.Streamed.{together, vertex_from, vertex_read, vertices_read, vertices_seen};

use crate::from_tokens::FromTokens;
use crate::scope::Scope;
use fd_blend::Colour;
use fd_events::Vertex;
use fd_json::{Stop, open_array, open_object, pass};
use fd_snap::Pos;
use json::Reader;

/// The vertices of a draw, and whether each has a colour: 0 0 0 0 stands for one that is missing.
#[derive(Drop)]
pub(crate) struct VertexList {
    pub(crate) list: Vec<Vertex>,
    pub(crate) coloured: bool,
}

impl VertexList {
    /// One vertex more, and whether it has a colour.
    fn push(&mut self, vertex: Vertex, has_colour: bool) -> Result<(), Stop>
        ensures ok { OnOk result (vertices_seen self.new ≡ ((vertices_seen self.old).0 ++ vertex ∷ [], (vertices_seen self.old).1 && has_colour)) }
        ensures memory { result ≡ Err Stop.NotJson → ⊥ }
    {
        self.list.push(vertex)?;
        self.coloured = self.coloured & has_colour;
        Ok(())
    }
}

/// A missing colour.
const NO_COLOUR: Colour = Colour {
    r: 0,
    g: 0,
    b: 0,
    a: 0,
};

/// What the members of a vertex stand for, each if it is there and well formed.
#[derive(Clone, Copy, Default)]
struct VertexParts {
    x: Option<i32>,
    y: Option<i32>,
    z: Option<u16>,
    colour: Option<Colour>,
}

/// The next value as vertices, if it is an array of them.
pub(crate) fn vertices(reader: &mut Reader<'_>, scope: Scope) -> Result<Option<VertexList>, Stop>
    ensures ok { IfOk result (λ v. (d : Data) × (taken scope.depth reader.old ≡ Some (d, reader.new))
        × (option_map vertices_seen v ≡ vertices_read scope.version d)) }
    ensures refused { result ≡ Err Stop.NotJson → taken scope.depth reader.old ≡ None }
    ensures shorter { OnOk result (length reader.new < length reader.old) }
{
    if !open_array(reader, scope.depth)? {
        return Ok(None);
    }
    vertex_items(reader, scope.inner())
}

/// The next value as indices, if it is an array of them.
pub(crate) fn indices(reader: &mut Reader<'_>, scope: Scope) -> Result<Option<Vec<u32>>, Stop>
    ensures ok { IfOk result (λ v. (d : Data) × (taken scope.depth reader.old ≡ Some (d, reader.new))
        × (option_map (λ indices. indices.items) v ≡ option_and_then (all_of unsigned_32) (array_of d))) }
    ensures refused { result ≡ Err Stop.NotJson → taken scope.depth reader.old ≡ None }
    ensures shorter { OnOk result (length reader.new < length reader.old) }
{
    if !open_array(reader, scope.depth)? {
        return Ok(None);
    }
    index_items(reader, scope.inner())
}

/// The vertex of these parts, and whether it has a colour; version 1 has no depths.
fn vertex_from(version: u32, parts: VertexParts) -> Option<(Vertex, bool)>
    ensures { result ≡ vertex_from version parts.x parts.y parts.z parts.colour }
{
    let VertexParts { x, y, z, colour } = parts;
    let pos = Pos::new(x?, y?)?;
    let z = if version == 1 { 0 } else { z? };
    let vertex = Vertex {
        pos,
        colour: colour.unwrap_or(NO_COLOUR),
        z,
    };
    Some((vertex, colour.is_some()))
}

/// The next value is the member of this name, and goes in among the parts if a vertex has one.
#[inline(always)]
fn vertex_member(
    reader: &mut Reader<'_>,
    scope: Scope,
    name: &str,
    parts: &mut VertexParts,
) -> Result<(), Stop>
    ensures ok { OnOk result ((d : Data) × (taken scope.depth reader.old ≡ Some (d, reader.new))
        × (parts.new.x ≡ cond (bytes_eq name.now (codes "x")) (signed_32 d) parts.old.x)
        × (parts.new.y ≡ cond (bytes_eq name.now (codes "y")) (signed_32 d) parts.old.y)
        × (parts.new.z ≡ cond (bytes_eq name.now (codes "z")) (number_between 0 65535 d) parts.old.z)
        × (parts.new.colour ≡ cond (bytes_eq name.now (codes "color")) (colour_of_data d) parts.old.colour)) }
    ensures refused { result ≡ Err Stop.NotJson → taken scope.depth reader.old ≡ None }
    ensures shorter { OnOk result (length reader.new < length reader.old) }
{
    match name {
        "x" => parts.x = i32::next(reader, scope)?,
        "y" => parts.y = i32::next(reader, scope)?,
        "z" => parts.z = u16::next(reader, scope)?,
        "color" => parts.colour = Colour::next(reader, scope)?,
        _ => pass(reader, scope.depth)?,
    }
    Ok(())
}

/// A vertex whose brace was taken, up to the brace that closes it, and whether it has a colour.
fn vertex_members(reader: &mut Reader<'_>, scope: Scope) -> Result<Option<(Vertex, bool)>, Stop>
    ensures ok { IfOk result (λ v. (found : Members) × (members_taken scope.depth reader.old ≡ Some (found, reader.new))
        × (v ≡ vertex_read scope.version (object found))) }
    ensures refused { result ≡ Err Stop.NotJson → members_taken scope.depth reader.old ≡ None }
    ensures shorter { OnOk result (length reader.new < length reader.old) }
{
    let mut parts = VertexParts::default();
    'members: while let Some(name) = reader.next_key()? {
        vertex_member(reader, scope, name, &mut parts)?;
    }
    Ok(vertex_from(scope.version, parts))
}

/// The next value as a vertex, and whether it has a colour.
fn vertex(reader: &mut Reader<'_>, scope: Scope) -> Result<Option<(Vertex, bool)>, Stop>
    ensures ok { IfOk result (λ v. (d : Data) × (taken scope.depth reader.old ≡ Some (d, reader.new)) × (v ≡ vertex_read scope.version d)) }
    ensures refused { result ≡ Err Stop.NotJson → taken scope.depth reader.old ≡ None }
    ensures shorter { OnOk result (length reader.new < length reader.old) }
{
    if !open_object(reader, scope.depth)? {
        return Ok(None);
    }
    vertex_members(reader, scope.inner())
}

/// The vertices of an array whose bracket was taken, up to the bracket that closes it; none if one of them isn't well formed.
fn vertex_items(reader: &mut Reader<'_>, scope: Scope) -> Result<Option<VertexList>, Stop>
    ensures ok { IfOk result (λ v. (ds : Items) × (items_taken scope.depth reader.old ≡ Some (ds, reader.new))
        × (option_map vertices_seen v ≡ option_map together (all_of (vertex_read scope.version) (list_of ds)))) }
    ensures refused { result ≡ Err Stop.NotJson → items_taken scope.depth reader.old ≡ None }
    ensures shorter { OnOk result (length reader.new < length reader.old) }
{
    let mut vertices = VertexList {
        list: Vec::new(scope.alloc),
        coloured: true,
    };
    let mut well_formed = true;
    'items: while !reader.take_end_array() {
        match vertex(reader, scope)? {
            Some((vertex, has_colour)) => vertices.push(vertex, has_colour)?,
            None => well_formed = false,
        }
    }
    if !well_formed {
        return Ok(None);
    }
    Ok(Some(vertices))
}

/// The indices of an array whose bracket was taken, up to the bracket that closes it; none if one of them isn't well formed.
fn index_items(reader: &mut Reader<'_>, scope: Scope) -> Result<Option<Vec<u32>>, Stop>
    ensures ok { IfOk result (λ v. (ds : Items) × (items_taken scope.depth reader.old ≡ Some (ds, reader.new))
        × (option_map (λ indices. indices.items) v ≡ all_of unsigned_32 (list_of ds))) }
    ensures refused { result ≡ Err Stop.NotJson → items_taken scope.depth reader.old ≡ None }
    ensures shorter { OnOk result (length reader.new < length reader.old) }
{
    let mut indices = Vec::new(scope.alloc);
    let mut well_formed = true;
    'items: while !reader.take_end_array() {
        match u32::next(reader, scope)? {
            Some(index) => indices.push(index)?,
            None => well_formed = false,
        }
    }
    if !well_formed {
        return Ok(None);
    }
    // a list of small numbers has little text: many such draws would hold far more room than their capture has bytes
    indices.shrink_to_fit();
    Ok(Some(indices))
}
