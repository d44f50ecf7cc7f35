//! Whole rows of a tile, one right below the other: they are kept as one span.
ghost use Rattle.std.specs.Prelude.{◌≡◌, ℕ, ◌-◌, ◌*◌, ◌<◌, ◌≤◌, true};
ghost use Rattle.fd_cover.specs.Covers.{covers};
ghost use Rattle.fd_tile.specs.Place.{Holds, IsTilePlace};
ghost use Rattle.fd_draw.specs.Plan.{IsFoundOn};
ghost use Rattle.fd_draw.specs.Primitive.{DrawsRows, IsReady, blended_by, kept_of, painted_by, triangle_of};
ghost use Rattle.fd_draw.specs.Written.{as_it_is};
ghost use Rattle.fd_draw.specs.Writing.{ChangesRegion, HasRoom, HasRows, WritesRegion, place_on, rows_between};

use crate::canvas::Canvas;
use crate::found::Found;
use crate::primitive::Primitive;
use crate::run::Run;
use crate::write::blend_span;
use fd_tile::{Place, Tile};

/// Keeps and then blends the rows from `top` up to `bottom`, at all of whose pixels a triangle is drawn.
pub(crate) fn draw_strip(primitive: &Primitive<'_>, top: u32, bottom: u32, canvas: &mut Canvas<'_>)
    requires rows { HasRows top bottom (place_on canvas.old) }
    requires ready { IsReady primitive.now }
    requires drawn { DrawsRows primitive.now (place_on canvas.old) top bottom }
    requires room { HasRoom 1 ((bottom - top) * (place_on canvas.old).width) canvas.old.undo.now }
    ensures { WritesRegion 1 ((bottom - top) * (place_on canvas.old).width) (rows_between top bottom) (painted_by primitive.now)
        (kept_of primitive.now) canvas.old canvas.new }
{
    canvas.keep_rows(top, bottom);
    blend_strip(primitive, top, bottom, canvas.tile);
}

/// Up to which row, from row y on, a triangle is seen to be drawn at all pixels of a place.
pub(crate) fn strip_end(primitive: &Primitive<'_>, found: &Found, y: u32, place: Place) -> u32
    requires placed { IsTilePlace place }
    requires ready { IsReady primitive.now }
    requires found { IsFoundOn (triangle_of primitive.now) primitive.now.state place found.now }
    requires from_top { found.now.area.top ≤ y }
    requires to_bottom { y ≤ found.now.area.bottom }
    ensures from { y ≤ result }
    ensures to { result ≤ found.now.area.bottom }
    ensures drawn { DrawsRows primitive.now place y result }
{
    let (left, right) = (place.left, place.left + place.width);
    // mostly no row can be as wide as the place
    if primitive.tested || found.area.left > left || found.area.right < right {
        return y;
    }
    for row in y..found.area.bottom {
        let Some(run) = found.span(&primitive.corners, row) else {
            return row;
        };
        if run.left > left || run.right < right {
            return row;
        }
    }
    found.area.bottom
}

/// Blends a triangle's sources with the pixels of the rows from `top` up to `bottom`, all of which it covers.
fn blend_strip(primitive: &Primitive<'_>, top: u32, bottom: u32, tile: &mut Tile)
    requires made { tile.old.made ≡ true }
    requires rows { HasRows top bottom tile.old.place }
    requires ready { IsReady primitive.now }
    requires covered { (x y : ℕ) → Holds tile.old.place x y → top ≤ y → y < bottom → covers primitive.now.corners x y ≡ true }
    ensures { ChangesRegion (blended_by primitive.now) (rows_between top bottom) tile.old tile.new }
{
    let place = tile.place();
    for y in top..bottom {
        let run = Run {
            left: place.left,
            right: place.left + place.width,
            y,
        };
        blend_span(primitive, run, tile);
    }
}
