//! Pictures that colours of draws come from, and what a table tells of such draws.

use crate::tests::events::{
    LARGE_CORNERS, draw_of, expect_near, expect_reach, grey, push_triangle, square, start, switch,
};
use fd_blend::Colour;
use fd_cover::{Bounds, Interp};
use fd_events::{Draw, Event, EventTable, Picture, PictureFault};
use std::alloc::Global;
use std::process::Abort;
use std::test::Fail;

/// The bytes of so many texels, whose levels count up from 1.
fn texels(alloc: Global, number: u8) -> Result<Vec<u8>, Fail> {
    let mut bytes = Vec::new(alloc);
    for texel in 0..number {
        for _ in 0..4 {
            bytes.push(texel.wrapping_add(1))?;
        }
    }
    Ok(bytes)
}

/// A picture, or why there is none.
fn picture_of(
    (left, top): (u32, u32),
    (width, height): (u32, u32),
    texels: Vec<u8>,
    holes: Option<Vec<u8>>,
) -> Result<Picture, PictureFault> {
    Picture::new(left, top, width, height, texels, holes)
}

/// Checks what a picture has for a pixel.
fn expect_texel(rt: &impl Abort, picture: &Picture, (x, y): (u32, u32), texel: Option<Colour>) {
    assert_eq!(rt; picture.texel(x, y), texel, "{x} {y}");
    assert_eq!(rt;
        picture.texel_or_none(x, y),
        texel.unwrap_or(grey(0)),
        "{x} {y}"
    );
}

/// A picture of two by two texels, of which the third is a hole.
#[test]
fn texels_of_a_picture(rt: HostRuntime) -> Result<(), Fail> {
    let mut holes = Vec::new(rt.alloc());
    holes.push(0b1111_0100)?;
    let picture = picture_of((5, 7), (2, 2), texels(rt.alloc(), 4)?, Some(holes))?;
    for (x, y, texel) in [
        (5, 7, Some(grey(1))),
        (6, 7, Some(grey(2))),
        (5, 8, None),
        (6, 8, Some(grey(4))),
        (4, 7, None),
        (7, 7, None),
        (5, 6, None),
        (5, 9, None),
    ] {
        expect_texel(&rt, &picture, (x, y), texel);
    }
    Ok(())
}

/// A draw of a triangle over the whole target, whose colours come from a picture of two by two texels in the last cell.
fn painted(alloc: Global) -> Result<Draw, Fail> {
    let picture = picture_of((40, 41), (2, 2), texels(alloc, 4)?, None)?;
    let mut vertices = Vec::new(alloc);
    push_triangle(&mut vertices, LARGE_CORNERS)?;
    Ok(Draw::painted(vertices, None, fd_memory::boxed(alloc, picture)?)?)
}

/// The box of that picture.
const PAINTED: Bounds = Bounds {
    left: 40,
    top: 41,
    right: 42,
    bottom: 43,
};

/// Checks what of a window lies on a draw's picture.
fn expect_clipped(rt: &impl Abort, draw: &Draw, window: Bounds, clipped: Bounds) {
    assert_eq!(rt; draw.clip(window), clipped, "{window:?}");
}

#[test]
fn a_draw_ends_where_its_picture_does(rt: HostRuntime) -> Result<(), Fail> {
    let draw = painted(rt.alloc())?;
    let corner = Bounds {
        left: 40,
        top: 41,
        right: 33,
        bottom: 42,
    };
    expect_clipped(&rt, &draw, square(0, 0, 64), PAINTED);
    expect_clipped(&rt, &draw, square(0, 9, 33), corner);
    let mut vertices = Vec::new(rt.alloc());
    push_triangle(&mut vertices, LARGE_CORNERS)?;
    let plain = draw_of(vertices, None, Interp::Flat)?;
    expect_clipped(&rt, &plain, square(0, 9, 33), square(0, 9, 33));
    Ok(())
}

/// Whether a picture of two texels is whole.
fn is_whole(alloc: Global, holes: Option<Vec<u8>>) -> Result<bool, Fail> {
    let picture = picture_of((0, 0), (2, 1), texels(alloc, 2)?, holes)?;
    Ok(picture.is_whole())
}

#[test]
fn a_picture_without_holes_is_whole(rt: HostRuntime) -> Result<(), Fail> {
    let mut holes = Vec::new(rt.alloc());
    holes.push(0)?;
    assert!(rt; !is_whole(rt.alloc(), Some(holes))?);
    assert!(rt; is_whole(rt.alloc(), None)?);
    Ok(())
}

/// Checks which of the events from one on to another is the next whose triangles reach a window.
fn expect_over(
    rt: &impl Abort,
    table: &EventTable,
    events: (u32, u32),
    window: Bounds,
    next: u32,
) -> Result<(), Fail> {
    let (from, to) = events;
    if from > to || to > table.len() {
        return Err("events of the table".into());
    }
    assert_eq!(rt;
        table.next_over(from, to, window),
        next,
        "{from} to {to}, {window:?}"
    );
    Ok(())
}

/// Tiles are asked for it where its picture lies, and histories wherever its triangles do.
#[test]
fn a_draw_is_near_its_picture_and_over_more(rt: HostRuntime) -> Result<(), Fail> {
    let mut events = Vec::new(rt.alloc());
    events.push(Event::Draw(painted(rt.alloc())?))?;
    events.push(Event::SetFactor(grey(1)))?;
    let mut table = start(rt.alloc(), (64, 64), events)?;
    expect_reach(&rt, &table, 1, PAINTED)?;
    expect_near(&rt, &table, (0, 2), square(0, 0, 32), 2)?;
    expect_near(&rt, &table, (0, 2), square(32, 32, 32), 0)?;
    expect_over(&rt, &table, (0, 2), square(0, 0, 32), 0)?;
    expect_over(&rt, &table, (1, 2), square(0, 0, 32), 2)?;
    switch(&mut table, 1, false)?;
    expect_over(&rt, &table, (0, 2), square(0, 0, 32), 2)?;
    Ok(())
}

#[test]
fn refused_pictures_and_their_faults(rt: HostRuntime) -> Result<(), Fail> {
    for (left, top, width, height, number, fault) in [
        (16_383, 16_383, 1, 2, 2, None),
        (16_384, 0, 1, 2, 2, Some(PictureFault::Place)),
        (0, 16_384, 1, 2, 2, Some(PictureFault::Place)),
        (0, 0, 0, 2, 2, Some(PictureFault::Place)),
        (0, 0, 1, 0, 2, Some(PictureFault::Place)),
        (0, 0, 16_385, 1, 2, Some(PictureFault::Place)),
        (0, 0, 2, 1, 1, Some(PictureFault::Texels)),
        (0, 0, 2, 1, 3, Some(PictureFault::Texels)),
    ] {
        let texels = texels(rt.alloc(), number)?;
        let picture = picture_of((left, top), (width, height), texels, None);
        assert_eq!(rt; picture.err(), fault, "{left} {top} {width} {height}");
    }
    let holes = Some(Vec::new(rt.alloc()));
    let picture = picture_of((0, 0), (2, 1), texels(rt.alloc(), 2)?, holes);
    assert_eq!(rt; picture.err(), Some(PictureFault::Holes));
    Ok(())
}
