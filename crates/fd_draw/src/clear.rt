//! A clear: all pixels of a tile.
ghost use Rattle.std.specs.Prelude.{◌≡◌, ◌≤◌, ◌<◌, true, false, Ok, OnErr, IsOk, length, [], ◌∷◌, ◌++◌};
ghost use Rattle.fd_events.specs.Image.{pixel_after, kept_by};
ghost use Rattle.fd_tile.specs.Tile.{IsTileImage};
ghost use Rattle.fd_undo.specs.Frame.{IsAlike, FitDepths, top};
ghost use Rattle.fd_undo.specs.Undo.{without_room};
ghost use Rattle.fd_draw.specs.Demand.{pixels_in, spans_in, event_pixels};
ghost use Rattle.fd_draw.specs.Written.{cleared, with_cleared};
ghost use Rattle.fd_draw.specs.Paints.{Paints};
ghost use Rattle.fd_draw.specs.Writing.{FitsClear, HasRoom, PaintsOn, keep_each, place_on};
ghost use Rattle.fd_memory.specs.Wanting.{Wanted};

use crate::canvas::Canvas;
use fd_events::{Clear, Effect, Event, Pipeline};
use fd_tile::Tile;
use fd_undo::{Full, UndoStack};

/// Keeps and then clears the pixels of a tile.
pub(crate) fn clear_tile(clear: Clear, canvas: &mut Canvas<'_>)
    requires deep { FitsClear clear canvas.old.tile.now }
    requires room { HasRoom (spans_in (λ _ _. true) (place_on canvas.old)) (pixels_in (λ _ _. true) (place_on canvas.old))
        canvas.old.undo.now }
    ensures { PaintsOn (λ _ _. cleared clear) keep_each canvas.old canvas.new }
{
    let place = canvas.tile.place();
    canvas.keep_rows(place.top, place.top + place.height);
    fill(clear, canvas.tile);
}

/// Draws a clear on a tile whose pixels are known to be alike, unless it wants memory for its depth there, and puts a frame on top that keeps them as one
/// colour and one depth. It says whether that is what was done: of other events and other tiles nothing changes. It makes the room itself, and none is left.
pub fn clear_alike(event: &Event, tile: &mut Tile, undo: &mut UndoStack) -> Result<bool, Full>
    ensures drawn { result ≡ Ok true → (state : Pipeline) → Paints (pixel_after event.now state) (kept_by event.now state)
        (record tile.old { deep = tile.new.deep }) (without_room undo.old.opens_fresh (undo.old.frames ++ [] ∷ [])) tile.new undo.new }
    ensures deep { result ≡ Ok true → tile.old.deep ≡ true → tile.new.deep ≡ true }
    ensures depths { result ≡ Ok true → FitDepths tile.new.deep (top undo.new.frames) }
    ensures alike { result ≡ Ok true → IsAlike tile.old.place (top undo.new.frames) }
    ensures not { result ≡ Ok false → (tile.new ≡ tile.old) × (undo.new ≡ undo.old) }
    ensures full { OnErr result ((tile.new ≡ tile.old) × (undo.new ≡ without_room undo.old.opens_fresh undo.old.frames)) }
    ensures free { (state : Pipeline) → event_pixels event.now state tile.old.place ≡ 0 → IsOk result }
    ensures wanted { OnErr result (length undo.old.frames < 4294967295 → Wanted) }
{
    let clear = match event.effect() {
        Effect::Clear(clear) => clear,
        Effect::Draw(_) | Effect::State | Effect::Nothing => return Ok(false),
    };
    let (Some(colour), Some(depth)) = (tile.flat_colour(), tile.flat_depth()) else {
        return Ok(false);
    };
    if !takes_place(clear, tile) {
        return Ok(false);
    }
    undo.push_alike(tile.place(), colour, depth)?;
    make_place(clear, tile);
    fill(clear, tile);
    Ok(true)
}

/// Whether a clear of depths has a place for its own on a tile, or takes none of memory for it.
fn takes_place(clear: Clear, tile: &Tile) -> bool
    ensures { result ≡ true → tile.now.made ≡ true → FitsClear clear tile.now }
{
    match clear {
        Clear::Colours(_) => true,
        Clear::Depths(depth) => depth == u16::MAX || tile.is_deep() || !tile.is_made(),
    }
}

/// Makes a place for the depth of such a clear.
fn make_place(clear: Clear, tile: &mut Tile)
    requires { tile.old.made ≡ true → FitsClear clear tile.old }
    ensures fits { FitsClear clear tile.new }
    ensures same { tile.new ≡ record tile.old { deep = tile.new.deep } }
    ensures deep { tile.old.deep ≡ true → tile.new.deep ≡ true }
{
    if let Clear::Depths(depth) = clear {
        if depth < u16::MAX && !tile.is_deep() {
            let _deep = tile.deepen();
        }
    }
}

/// Gives all pixels a clear's colour, or its depth.
fn fill(clear: Clear, tile: &mut Tile)
    requires { FitsClear clear tile.old }
    ensures { tile.new ≡ with_cleared clear tile.old }
{
    match clear {
        Clear::Colours(colour) => tile.fill_colours(colour),
        Clear::Depths(depth) => tile.fill_depths(depth),
    }
}
