ghost use Rattle.std.specs.Prelude.{◌≡◌, ◌<◌, ◌≤◌, IsTrue, IfOk, All, length, true, false};
ghost use Rattle.fd_tile.specs.Place.{HasRow, Holds, IsTilePlace};
ghost use Rattle.fd_tile.specs.declared.place.Place.{Place};
ghost use Rattle.fd_undo.specs.Alike.{kept_alike};
ghost use Rattle.fd_undo.specs.Block.{Rise};

use crate::room::Room;
use crate::{AlikeFrame, AlikeFrames, UndoStack};
use fd_blend::Colour;
use fd_tile::{Place, Tile};
use std::alloc::Global;
use std::process::Abort;
use std::test::Fail;

const FRESH: Colour = Colour {
    r: 0,
    g: 0,
    b: 0,
    a: 0,
};

const RED: Colour = Colour {
    r: 255,
    g: 0,
    b: 0,
    a: 255,
};

const SMALL: Place = Place {
    left: 0,
    top: 0,
    width: 2,
    height: 2,
};

const BESIDE: Place = Place {
    left: 2,
    top: 0,
    width: 2,
    height: 2,
};

/// As deep as a fresh pixel is.
const DEEP: u16 = 65535;

/// Checks how many pixels and frames there are.
fn expect_counts(
    rt: &impl Abort,
    undo: &UndoStack,
    recorded: u64,
    frames: usize,
) -> Result<(), Fail> {
    assert_eq!(rt; (undo.recorded(), undo.frames()), (recorded, frames));
    Ok(())
}

// All that a call promises is carried along to the end of a test. What follows promises next to nothing, so that no proof of a test carries it.

/// Begins a frame with room for so many spans and pixels.
fn begin(undo: &mut UndoStack, spans: usize, pixels: usize) -> Result<(), Fail> {
    undo.reserve(spans, pixels)?;
    undo.begin();
    Ok(())
}

/// Whether a frame has room for these pixels.
fn has_room(undo: &UndoStack, old: &[Colour], depths: &[u16]) -> bool
    ensures begun { IsTrue result → undo.now.frame_left ≡ false }
    ensures span { IsTrue result → 0 < undo.now.spans_left }
    ensures pixels { IsTrue result → length old.now ≤ undo.now.pixels_left }
    ensures equal { IsTrue result → length depths.now ≡ length old.now }
{
    !undo.frame_left()
        && undo.spans_left() > 0
        && old.len() <= undo.pixels_left()
        && depths.len() == old.len()
}

/// Keeps some of the first three pixels of a row.
fn keep(undo: &mut UndoStack, x: u32, y: u32, old: &[Colour], depths: &[u16]) -> Result<(), Fail> {
    if !has_room(undo, old, depths) || x > 3 || old.len() > 3 || y > 3 {
        return Err("room for pixels".into());
    }
    undo.keep(x, y, old, depths);
    Ok(())
}

/// A small tile that is made and deep, and a stack whose frames lie on it.
#[derive(Drop)]
struct Small {
    tile: Tile,
    undo: UndoStack,
    ghost made: { tile.made ≡ true },
    ghost deep: { tile.deep ≡ true },
    ghost placed: { tile.place ≡ record { left = 0; top = 0; width = 2; height = 2 } },
    ghost inside: { All (λ frame. All (λ k. Holds tile.place k.x k.y) frame) undo.frames },
}

impl Small {
    /// A fresh tile, and no frame.
    fn new(alloc: Global) -> Result<Small, Fail> {
        let tile = Tile::fresh(alloc, SMALL)?;
        let undo = UndoStack::new(alloc);
        Ok(Small { tile, undo })
    }

    /// Gives a pixel a depth.
    fn set_depth(&mut self, x: u32, y: u32, depth: u16) -> Result<(), Fail> {
        if x > 1 || y > 1 {
            return Err("a pixel of the tile".into());
        }
        self.tile.set_depth(x, y, depth);
        Ok(())
    }

    /// Draws over a pixel.
    fn draw_over(&mut self, x: u32, y: u32) -> Result<(), Fail> {
        if x > 1 || y > 1 {
            return Err("a pixel of the tile".into());
        }
        self.tile.set(x, y, RED);
        self.set_depth(x, y, 1000)
    }

    /// Begins a frame with room for so many spans and pixels.
    fn begin(&mut self, spans: usize, pixels: usize) -> Result<(), Fail> {
        self.undo.reserve(spans, pixels)?;
        self.undo.begin();
        Ok(())
    }

    /// Keeps some pixels of a row.
    fn keep(&mut self, x: u32, y: u32, old: &[Colour], depths: &[u16]) -> Result<(), Fail> {
        if !has_room(&self.undo, old, depths) || x > 2 || old.len() > (2 - x) as usize || y > 1 {
            return Err("room for pixels of the tile".into());
        }
        self.undo.keep(x, y, old, depths);
        Ok(())
    }

    /// Keeps the whole tile, whose pixels are alike.
    fn push_alike(&mut self, colour: Colour, depth: u16) -> Result<(), Fail> {
        self.undo.push_alike(SMALL, colour, depth)?;
        Ok(())
    }

    /// Puts the top frame back.
    fn undo_top(&mut self) -> Result<(), Fail> {
        if self.undo.frames() == 0 {
            return Err("a frame".into());
        }
        self.undo.undo_top(&mut self.tile);
        Ok(())
    }

    /// Puts frames back down to so many.
    fn undo_to(&mut self, to: usize) -> Result<(), Fail> {
        if to > self.undo.frames() {
            return Err("so many frames".into());
        }
        self.undo.undo_to(to, &mut self.tile);
        Ok(())
    }
}

/// Whether a tile that is made has a row.
fn has_row(tile: &Tile, y: u32) -> bool
    ensures made { IsTrue result → tile.now.made ≡ true }
    ensures row { IsTrue result → HasRow tile.now.place y }
{
    let place = tile.place();
    tile.is_made() && place.top <= y && y - place.top < place.height
}

/// Checks the colours of a row.
fn expect_colours(rt: &impl Abort, tile: &Tile, y: u32, colours: &[Colour]) -> Result<(), Fail> {
    if !has_row(tile, y) {
        return Err("a row of the tile".into());
    }
    assert_eq!(rt; tile.row(y), colours, "row {y}");
    Ok(())
}

/// Checks its depths.
fn expect_depths(rt: &impl Abort, tile: &Tile, y: u32, depths: &[u16]) -> Result<(), Fail> {
    if !has_row(tile, y) {
        return Err("a row of the tile".into());
    }
    assert_eq!(rt; tile.depth_row(y), depths, "row {y}");
    Ok(())
}

/// Checks what a frame keeps of a pixel, for the n-th time.
fn expect_kept(
    rt: &impl Abort,
    undo: &UndoStack,
    frame: usize,
    (x, y, n): (u32, u32, usize),
    pixel: Option<(Colour, u16)>,
) {
    assert_eq!(rt;
        undo.kept(frame, x, y, n),
        pixel,
        "frame {frame}, pixel {x} {y}, {n}"
    );
}

/// Checks that a small tile is fresh, but for its pixel (1, 0), which is 7 deep.
fn expect_as_before(rt: &impl Abort, tile: &Tile) -> Result<(), Fail> {
    expect_colours(rt, tile, 0, &[FRESH, FRESH])?;
    expect_colours(rt, tile, 1, &[FRESH, FRESH])?;
    expect_depths(rt, tile, 0, &[DEEP, 7])?;
    expect_depths(rt, tile, 1, &[DEEP, DEEP])
}

#[test]
fn a_frame_is_put_back(rt: HostRuntime) -> Result<(), Fail> {
    let mut small = Small::new(rt.alloc())?;
    small.set_depth(1, 0, 7)?;
    small.begin(2, 3)?;
    small.keep(0, 0, &[FRESH, FRESH], &[DEEP, 7])?;
    small.keep(1, 1, &[FRESH], &[DEEP])?;
    small.draw_over(0, 0)?;
    small.draw_over(1, 0)?;
    small.draw_over(1, 1)?;
    expect_counts(&rt, &small.undo, 3, 1)?;
    small.undo_top()?;
    expect_counts(&rt, &small.undo, 0, 0)?;
    expect_as_before(&rt, &small.tile)
}

#[test]
fn a_frame_without_pixels_stores_nothing(rt: HostRuntime) -> Result<(), Fail> {
    let mut undo = UndoStack::new(rt.alloc());
    begin(&mut undo, 0, 0)?;
    assert_eq!(rt; undo.frames(), 1);
    let held = undo.store.held();
    assert_eq!(rt; (held.frames, held.spans, held.colours), (0, 0, 0));
    Ok(())
}

#[test]
fn frames_that_are_forgotten_keep_nothing(rt: HostRuntime) -> Result<(), Fail> {
    let mut undo = with_two_frames(rt.alloc())?;
    undo.forget();
    expect_counts(&rt, &undo, 0, 2)?;
    assert_eq!(rt; undo.store.held().frames, 0);
    begin(&mut undo, 1, 1)?;
    keep(&mut undo, 1, 1, &[FRESH], &[DEEP])?;
    expect_kept(&rt, &undo, 1, (0, 0, 0), None);
    expect_kept(&rt, &undo, 2, (1, 1, 0), Some((FRESH, DEEP)));
    Ok(())
}

/// Two frames: one that keeps nothing, and one that keeps pixel (1, 1) twice.
fn with_two_frames(alloc: Global) -> Result<UndoStack, Fail> {
    let mut undo = UndoStack::new(alloc);
    begin(&mut undo, 0, 0)?;
    begin(&mut undo, 3, 4)?;
    keep(&mut undo, 0, 1, &[FRESH, FRESH], &[5, 6])?;
    keep(&mut undo, 1, 1, &[RED], &[6])?;
    keep(&mut undo, 0, 0, &[RED], &[8])?;
    Ok(undo)
}

#[test]
fn what_is_kept_of_a_pixel(rt: HostRuntime) -> Result<(), Fail> {
    let undo = with_two_frames(rt.alloc())?;
    for (frame, x, y, n, pixel) in [
        (1, 1, 1, 0, Some((FRESH, 6))),
        (1, 1, 1, 1, Some((RED, 6))),
        (1, 1, 1, 2, None),
        (1, 0, 1, 0, Some((FRESH, 5))),
        (1, 0, 0, 0, Some((RED, 8))),
        (1, 1, 0, 0, None),
        (0, 1, 1, 0, None),
        (2, 1, 1, 0, None),
    ] {
        expect_kept(&rt, &undo, frame, (x, y, n), pixel);
    }
    Ok(())
}

#[test]
fn what_is_kept_is_added(rt: HostRuntime) -> Result<(), Fail> {
    let undo = with_two_frames(rt.alloc())?;
    let mut kept = Vec::new(rt.alloc());
    for (frame, count) in [(1, 1), (0, 9), (1, 9)] {
        undo.add_kept(frame, (1, 1), count, &mut kept)?;
    }
    assert_eq!(rt;
        kept.as_slice(),
        [(FRESH, 6), (FRESH, 6), (RED, 6)].as_slice()
    );
    Ok(())
}

#[test]
fn equal_colours_are_kept_once(rt: HostRuntime) -> Result<(), Fail> {
    let mut undo = UndoStack::new(rt.alloc());
    begin(&mut undo, 2, 5)?;
    keep(&mut undo, 0, 0, &[RED, RED, RED], &[DEEP, 7, DEEP])?;
    keep(&mut undo, 0, 1, &[RED, FRESH], &[DEEP, DEEP])?;
    assert_eq!(rt; undo.store.held().colours, 3);
    expect_counts(&rt, &undo, 5, 1)?;
    expect_kept(&rt, &undo, 0, (1, 0, 0), Some((RED, 7)));
    expect_kept(&rt, &undo, 0, (1, 1, 0), Some((FRESH, DEEP)));
    Ok(())
}

#[test]
fn equal_depths_are_kept_once(rt: HostRuntime) -> Result<(), Fail> {
    let mut undo = UndoStack::new(rt.alloc());
    begin(&mut undo, 2, 5)?;
    keep(&mut undo, 0, 0, &[RED, RED, RED], &[DEEP, DEEP, DEEP])?;
    assert_eq!(rt; undo.store.held().depths, 0);
    keep(&mut undo, 0, 1, &[RED, RED], &[DEEP, 7])?;
    assert_eq!(rt; undo.store.held().depths, 2);
    expect_kept(&rt, &undo, 0, (2, 0, 0), Some((RED, DEEP)));
    expect_kept(&rt, &undo, 0, (1, 1, 0), Some((RED, 7)));
    Ok(())
}

#[test]
fn whole_rows_are_put_back(rt: HostRuntime) -> Result<(), Fail> {
    let mut small = Small::new(rt.alloc())?;
    small.begin(2, 4)?;
    small.keep(0, 0, &[RED, FRESH], &[DEEP, DEEP])?;
    small.keep(0, 1, &[FRESH, RED], &[DEEP, DEEP])?;
    small.undo_top()?;
    expect_colours(&rt, &small.tile, 0, &[RED, FRESH])?;
    expect_colours(&rt, &small.tile, 1, &[FRESH, RED])?;
    expect_counts(&rt, &small.undo, 0, 0)
}

/// What a clear of depths overwrote on a tile that was flat: after it is put back the tile knows its depth again.
#[test]
fn a_flat_depth_comes_back(rt: HostRuntime) -> Result<(), Fail> {
    let mut small = Small::new(rt.alloc())?;
    small.begin(2, 4)?;
    small.keep(0, 0, &[RED, FRESH], &[DEEP, DEEP])?;
    small.keep(0, 1, &[FRESH, RED], &[DEEP, DEEP])?;
    small.tile.fill_depths(7);
    small.undo_top()?;
    assert_eq!(rt; small.tile.flat_depth(), Some(DEEP));
    expect_colours(&rt, &small.tile, 0, &[RED, FRESH])?;
    expect_depths(&rt, &small.tile, 1, &[DEEP, DEEP])?;
    Ok(())
}

/// Rows that are alike are one span; another colour, another depth, a row that lies elsewhere and another frame are not.
#[test]
fn rows_that_are_alike_are_one_span(rt: HostRuntime) -> Result<(), Fail> {
    let mut small = Small::new(rt.alloc())?;
    small.begin(3, 6)?;
    small.keep(0, 0, &[RED, RED], &[7, 7])?;
    small.keep(0, 1, &[RED, RED], &[7, 7])?;
    assert_eq!(rt;
        (
            small.undo.store.held().spans,
            small.undo.store.held().colours
        ),
        (1, 1)
    );
    small.keep(0, 1, &[RED, RED], &[7, 7])?;
    assert_eq!(rt; small.undo.store.held().spans, 2);
    small.begin(3, 4)?;
    small.keep(0, 0, &[RED], &[7])?;
    small.keep(0, 1, &[FRESH], &[7])?;
    small.keep(1, 0, &[FRESH], &[8])?;
    assert_eq!(rt; small.undo.store.held().spans, 5);
    expect_counts(&rt, &small.undo, 9, 2)?;
    expect_kept(&rt, &small.undo, 0, (1, 1, 1), Some((RED, 7)));
    expect_kept(&rt, &small.undo, 0, (1, 1, 2), None);
    small.undo_top()?;
    expect_colours(&rt, &small.tile, 0, &[RED, FRESH])?;
    expect_depths(&rt, &small.tile, 0, &[7, 8])?;
    small.undo_top()?;
    expect_colours(&rt, &small.tile, 1, &[RED, RED])?;
    expect_depths(&rt, &small.tile, 1, &[7, 7])?;
    expect_counts(&rt, &small.undo, 0, 0)
}

/// Rows whose pixels differ are one span, with their colours and depths row after row; a row that doesn't follow is another one.
#[test]
fn listed_rows_are_one_span(rt: HostRuntime) -> Result<(), Fail> {
    let mut small = Small::new(rt.alloc())?;
    small.begin(3, 6)?;
    small.keep(0, 0, &[RED, FRESH], &[7, 8])?;
    small.keep(0, 1, &[FRESH, RED], &[9, 7])?;
    let held = small.undo.store.held();
    assert_eq!(rt; (held.spans, held.colours, held.depths), (1, 4, 4));
    small.keep(0, 1, &[RED, RED], &[8, 9])?;
    assert_eq!(rt; small.undo.store.held().spans, 2);
    expect_counts(&rt, &small.undo, 6, 1)?;
    expect_kept(&rt, &small.undo, 0, (1, 1, 0), Some((RED, 7)));
    expect_kept(&rt, &small.undo, 0, (0, 1, 1), Some((RED, 8)));
    small.undo_top()?;
    expect_colours(&rt, &small.tile, 0, &[RED, FRESH])?;
    expect_colours(&rt, &small.tile, 1, &[FRESH, RED])?;
    expect_depths(&rt, &small.tile, 0, &[7, 8])?;
    expect_depths(&rt, &small.tile, 1, &[9, 7])?;
    expect_counts(&rt, &small.undo, 0, 0)
}

/// Two frames of a pixel each, the second of which is in a block of its own: room for many pixels was asked for.
fn with_two_blocks(alloc: Global) -> Result<UndoStack, Fail> {
    let mut undo = UndoStack::new(alloc);
    begin(&mut undo, 1, 1)?;
    keep(&mut undo, 0, 0, &[FRESH], &[DEEP])?;
    begin(&mut undo, 1, 1000)?;
    keep(&mut undo, 1, 1, &[RED], &[7])?;
    Ok(undo)
}

#[test]
fn blocks_are_given_back(rt: HostRuntime) -> Result<(), Fail> {
    let mut undo = with_two_blocks(rt.alloc())?;
    assert_eq!(rt; undo.store.held().frames, 1);
    expect_kept(&rt, &undo, 0, (0, 0, 0), Some((FRESH, DEEP)));
    expect_kept(&rt, &undo, 1, (1, 1, 0), Some((RED, 7)));
    expect_kept(&rt, &undo, 1, (0, 0, 0), None);
    undo.forget();
    assert!(rt; !undo.store.takes(Room::needed(1, 1)));
    Ok(())
}

#[test]
fn a_block_without_frames_is_given_back(rt: HostRuntime) -> Result<(), Fail> {
    let mut small = Small::new(rt.alloc())?;
    small.begin(1, 1)?;
    small.keep(0, 0, &[FRESH], &[DEEP])?;
    small.begin(1, 1000)?;
    small.keep(1, 1, &[RED], &[7])?;
    small.undo_top()?;
    assert_eq!(rt;
        (small.undo.frames(), small.undo.store.held().frames),
        (1, 1)
    );
    small.undo_top()?;
    assert!(rt; !small.undo.store.takes(Room::needed(1, 1)));
    expect_counts(&rt, &small.undo, 0, 0)?;
    expect_colours(&rt, &small.tile, 1, &[FRESH, RED])?;
    expect_depths(&rt, &small.tile, 1, &[DEEP, 7])?;
    Ok(())
}

#[test]
fn room_that_is_left_is_used(rt: HostRuntime) -> Result<(), Fail> {
    let mut undo = UndoStack::new(rt.alloc());
    begin(&mut undo, 1, 64)?;
    keep(&mut undo, 0, 0, &[RED, FRESH], &[7, 8])?;
    undo.reserve(1, 126)?;
    assert_eq!(rt; undo.store.held().frames, 1);
    undo.reserve(1, 127)?;
    assert_eq!(rt; undo.store.held().frames, 0);
    Ok(())
}

#[test]
fn a_whole_place_is_put_back(rt: HostRuntime) -> Result<(), Fail> {
    let mut small = Small::new(rt.alloc())?;
    small.push_alike(FRESH, DEEP)?;
    small.tile.fill_colours(RED);
    expect_counts(&rt, &small.undo, 4, 1)?;
    small.push_alike(RED, DEEP)?;
    small.tile.fill_depths(7);
    expect_counts(&rt, &small.undo, 8, 2)?;
    assert_eq!(rt; small.undo.store.held().frames, 1);
    assert_eq!(rt; small.undo.store.held().spans, 1);
    assert_eq!(rt; small.undo.store.held().colours, 1);
    assert_eq!(rt; small.undo.store.held().depths, 0);
    expect_kept(&rt, &small.undo, 1, (1, 1, 0), Some((RED, DEEP)));
    expect_kept(&rt, &small.undo, 1, (1, 1, 1), None);
    small.undo_top()?;
    expect_colours(&rt, &small.tile, 1, &[RED, RED])?;
    expect_depths(&rt, &small.tile, 1, &[DEEP, DEEP])?;
    small.undo_top()?;
    expect_colours(&rt, &small.tile, 0, &[FRESH, FRESH])?;
    expect_colours(&rt, &small.tile, 1, &[FRESH, FRESH])?;
    expect_counts(&rt, &small.undo, 0, 0)
}

/// Frames that keep a small tile: one pixel, all of it row by row, nothing, all of it at once, and one pixel.
#[test]
fn older_whole_frames_are_put_back_alone(rt: HostRuntime) -> Result<(), Fail> {
    let mut small = Small::new(rt.alloc())?;
    small.begin(1, 1)?;
    small.keep(0, 0, &[FRESH], &[DEEP])?;
    small.begin(2, 4)?;
    small.keep(0, 0, &[RED, FRESH], &[DEEP, 7])?;
    small.keep(0, 1, &[FRESH, FRESH], &[DEEP, DEEP])?;
    small.begin(0, 0)?;
    small.push_alike(RED, 7)?;
    small.begin(1, 1)?;
    small.keep(1, 1, &[RED], &[9])?;
    expect_counts(&rt, &small.undo, 10, 5)?;
    small.undo_to(4)?;
    expect_counts(&rt, &small.undo, 9, 4)?;
    expect_depths(&rt, &small.tile, 1, &[DEEP, 9])?;
    small.undo_to(1)?;
    expect_counts(&rt, &small.undo, 1, 1)?;
    expect_colours(&rt, &small.tile, 0, &[RED, FRESH])?;
    expect_depths(&rt, &small.tile, 0, &[DEEP, 7])?;
    expect_depths(&rt, &small.tile, 1, &[DEEP, DEEP])?;
    small.undo_to(0)?;
    expect_counts(&rt, &small.undo, 0, 0)?;
    expect_colours(&rt, &small.tile, 0, &[FRESH, FRESH])?;
    Ok(())
}

/// Drops frames of a small tile down to the oldest whole one from this one on, if there are so many.
fn drop_to_whole(undo: &mut UndoStack, from: usize) {
    if from <= undo.frames() {
        undo.drop_to_whole(from, SMALL);
    }
}

/// What lies above the oldest whole frame is dropped before anything is put back.
#[test]
fn newer_frames_are_dropped_unread(rt: HostRuntime) -> Result<(), Fail> {
    let mut undo = UndoStack::new(rt.alloc());
    for _ in 0..3 {
        undo.push_alike(SMALL, RED, 7)?;
    }
    drop_to_whole(&mut undo, 3);
    expect_counts(&rt, &undo, 12, 3)?;
    drop_to_whole(&mut undo, 1);
    expect_counts(&rt, &undo, 8, 2)?;
    drop_to_whole(&mut undo, 0);
    expect_counts(&rt, &undo, 4, 1)
}

#[test]
fn a_cleared_stack_is_as_a_new_one(rt: HostRuntime) -> Result<(), Fail> {
    let mut undo = UndoStack::new(rt.alloc());
    undo.push_alike(SMALL, FRESH, DEEP)?;
    undo.clear();
    expect_counts(&rt, &undo, 0, 0)?;
    assert!(rt; !undo.store.takes(Room::needed(1, 1)));
    Ok(())
}

/// Room is made for so many frames at once as are expected, but not for more than some.
#[test]
fn expected_frames_find_room(rt: HostRuntime) -> Result<(), Fail> {
    let mut undo = UndoStack::new(rt.alloc());
    undo.push_alike(SMALL, RED, 7)?;
    undo.expect_alike(5);
    expect_counts(&rt, &undo, 4, 1)?;
    assert!(rt; undo.store.takes(Room::alike(5)));
    assert!(rt; !undo.store.takes(Room::alike(6)));
    undo.push_alike(SMALL, FRESH, 7)?;
    expect_counts(&rt, &undo, 8, 2)?;
    let mut many = UndoStack::new(rt.alloc());
    many.expect_alike(1000);
    assert!(rt; many.store.takes(Room::alike(16)));
    assert!(rt; !many.store.takes(Room::alike(17)));
    Ok(())
}

/// What half of the memory has room for stays for the next frames.
#[test]
fn a_cleared_stack_keeps_its_oldest_block(rt: HostRuntime) -> Result<(), Fail> {
    let mut undo = UndoStack::new(rt.alloc());
    begin(&mut undo, 1, 3)?;
    keep(&mut undo, 0, 0, &[RED, FRESH, RED], &[DEEP, 7, DEEP])?;
    begin(&mut undo, 1, 200)?;
    keep(&mut undo, 0, 0, &[RED], &[DEEP])?;
    undo.clear();
    expect_counts(&rt, &undo, 0, 0)?;
    assert!(rt; undo.store.takes(Room::needed(1, 67)));
    assert!(rt; !undo.store.takes(Room::needed(1, 68)));
    Ok(())
}

#[test]
fn few_spans_have_room_in_a_block_itself(rt: HostRuntime) -> Result<(), Fail> {
    let mut undo = UndoStack::new(rt.alloc());
    undo.reserve(8, 0)?;
    assert!(rt; undo.store.takes(Room::needed(8, 0)));
    assert!(rt; !undo.store.takes(Room::needed(9, 0)));
    Ok(())
}

/// Frames 1 and 3: of all pixels, which were fresh, and then red and 7 deep.
fn two_alike(alloc: Global) -> Result<AlikeFrames, Fail>
    ensures { IfOk result (λ frames. (place : Place) → Rise 1 (kept_alike place frames) 5) }
{
    let mut list = Vec::new(alloc);
    list.push(AlikeFrame {
        number: 1,
        colour: FRESH,
        depth: DEEP,
    })?;
    list.push(AlikeFrame {
        number: 3,
        colour: RED,
        depth: 7,
    })?;
    Ok(AlikeFrames::of(alloc, list)?)
}

/// Has a stack of one frame at most share such frames, among five in all.
#[tactic(auto, using(crate::proofs::SharedLemmas::stack_share_steps))]
fn share(undo: &mut UndoStack, frames: &AlikeFrames, place: Place) -> Result<bool, Fail>
    requires placed { IsTilePlace place }
    requires rise { Rise 1 (kept_alike place frames.now) 5 }
{
    if undo.frames() > 1 {
        return Err("at most one frame".into());
    }
    Ok(undo.share(frames, place, 5))
}

/// Stacks of two places that share them.
fn sharing(alloc: Global) -> Result<(UndoStack, UndoStack), Fail> {
    let frames = two_alike(alloc)?;
    let mut here = UndoStack::new(alloc);
    let mut beside = UndoStack::new(alloc);
    if share(&mut here, &frames, SMALL)? && share(&mut beside, &frames, BESIDE)? {
        Ok((here, beside))
    } else {
        Err("stacks that share frames".into())
    }
}

#[test]
fn frames_are_shared(rt: HostRuntime) -> Result<(), Fail> {
    let alloc = rt.alloc();
    let (mut here, beside) = sharing(alloc)?;
    expect_counts(&rt, &here, 8, 5)?;
    expect_kept(&rt, &here, 1, (1, 1, 0), Some((FRESH, DEEP)));
    expect_kept(&rt, &here, 3, (0, 1, 0), Some((RED, 7)));
    expect_kept(&rt, &here, 3, (0, 1, 1), None);
    expect_kept(&rt, &here, 2, (0, 1, 0), None);
    expect_kept(&rt, &here, 1, (2, 0, 0), None);
    expect_kept(&rt, &beside, 1, (2, 0, 0), Some((FRESH, DEEP)));
    here.clear();
    expect_counts(&rt, &here, 0, 0)?;
    expect_counts(&rt, &beside, 8, 5)?;
    let mut kept = Vec::new(alloc);
    beside.add_kept(3, (3, 1), 2, &mut kept)?;
    assert_eq!(rt; &kept[..], [(RED, 7)].as_slice());
    Ok(())
}

#[test]
fn own_frames_lie_above_shared_ones(rt: HostRuntime) -> Result<(), Fail> {
    let (mut here, mut beside) = sharing(rt.alloc())?;
    begin(&mut here, 1, 1)?;
    keep(&mut here, 1, 1, &[RED], &[9])?;
    expect_counts(&rt, &here, 9, 6)?;
    expect_kept(&rt, &here, 5, (1, 1, 0), Some((RED, 9)));
    expect_kept(&rt, &here, 3, (1, 1, 0), Some((RED, 7)));
    drop_to_whole(&mut here, 2);
    expect_counts(&rt, &here, 8, 4)?;
    drop_to_whole(&mut here, 0);
    expect_counts(&rt, &here, 4, 2)?;
    // those of another place keep none of this one
    drop_to_whole(&mut beside, 2);
    expect_counts(&rt, &beside, 8, 5)
}

#[test]
fn a_stack_with_a_frame_shares_none(rt: HostRuntime) -> Result<(), Fail> {
    let alloc = rt.alloc();
    let mut undo = UndoStack::new(alloc);
    let frames = two_alike(alloc)?;
    undo.push_alike(SMALL, RED, 9)?;
    assert!(rt; !share(&mut undo, &frames, SMALL)?);
    expect_counts(&rt, &undo, 4, 1)?;
    undo.clear();
    assert!(rt; !share(&mut undo, &AlikeFrames::of(alloc, Vec::new(alloc))?, SMALL)?);
    assert!(rt; share(&mut undo, &frames, SMALL)?);
    expect_counts(&rt, &undo, 8, 5)
}
