//! Switches of events that reach some of nine tiles.
ghost use Rattle.std.specs.Prelude.{◌≤◌};

use crate::Session;
use crate::tests::frames::{
    blend, depth_test, expect_pixel, flat, flat_at, go, grey, raster, scissor, session, switch,
};
use fd_blend::{BlendOp, BlendState, Factor, Mask, Part};
use fd_cover::Cull;
use fd_events::Event;
use std::alloc::Global;
use std::process::Abort;
use std::test::Fail;

/// On a target of 96 by 96 pixels: a clear of grey 100, a draw of grey 5 on the tile in the middle, one of grey 9 on the three tiles of the
/// last column, additive blending, a draw that adds 1 to all pixels, and one that lies beside the target.
fn nine_tiles(alloc: Global, workers: u32) -> Result<Session, Fail>
    requires { (1 ≤ workers) × (workers ≤ 64) }
{
    let mut events = Vec::new(alloc);
    events.push(Event::Clear(grey(100)))?;
    events.push(flat(alloc, [(32, 32), (64, 32), (32, 64)], grey(5))?)?;
    events.push(flat(alloc, [(70, 0), (90, 0), (70, 96)], grey(9))?)?;
    events.push(blend(true, Factor::One, Factor::One, 15)?)?;
    events.push(flat(alloc, [(0, 0), (256, 0), (0, 256)], grey(1))?)?;
    events.push(flat(alloc, [(200, 200), (210, 200), (200, 210)], grey(50))?)?;
    session(alloc, 96, 96, events, workers)
}

/// What is shown in the middle, in the last column's first and last tile, and on the other tiles.
fn expect_tiles(rt: &impl Abort, session: &Session, middle: u8, column: u8, others: u8) {
    expect_pixel(rt, session, (33, 33), grey(middle));
    for y in [1, 80] {
        expect_pixel(rt, session, (71, y), grey(column));
    }
    for (x, y) in [
        (0, 0),
        (40, 1),
        (1, 40),
        (5, 70),
        (40, 70),
        (60, 60),
        (94, 94),
    ] {
        expect_pixel(rt, session, (x, y), grey(others));
    }
}

#[test]
fn a_switch_shows_on_the_tiles_that_it_reaches(rt: HostRuntime) -> Result<(), Fail> {
    for workers in [1, 2, 64] {
        let mut session = nine_tiles(rt.alloc(), workers)?;
        go(&rt, &mut session, 6);
        expect_tiles(&rt, &session, 6, 10, 101);
        for (number, middle, column, others) in [
            (2, 101, 10, 101),
            (3, 6, 101, 101),
            (4, 1, 1, 1),
            (5, 5, 9, 100),
            (6, 6, 10, 101),
            (1, 6, 10, 1),
        ] {
            switch(&rt, &mut session, (number, false), 6);
            expect_tiles(&rt, &session, middle, column, others);
            switch(&rt, &mut session, (number, true), 6);
            expect_tiles(&rt, &session, 6, 10, 101);
        }
        switch(&rt, &mut session, (3, false), 6);
        go(&rt, &mut session, 4);
        expect_tiles(&rt, &session, 5, 100, 100);
        go(&rt, &mut session, 1);
        expect_tiles(&rt, &session, 100, 100, 100);
        go(&rt, &mut session, 0);
        expect_tiles(&rt, &session, 0, 0, 0);
    }
    Ok(())
}

/// Blending in which each channel, alpha among them, is the source's times the blend factor.
fn times_factor() -> Result<Event, Fail> {
    let part = Part {
        src: Factor::BlendFactor,
        dst: Factor::Zero,
        op: BlendOp::Add,
    };
    let mask = Mask::from_bits(15).ok_or("a mask")?;
    Ok(Event::SetBlend(BlendState::new(true, part, part, mask)?))
}

/// On nine tiles each kind of state, set before a draw and set otherwise after it: the depth test on one tile, two blend factors on two others, and on the
/// three of the last row a scissor. The last draw, on the tile above them, is culled.
fn states(alloc: Global, workers: u32) -> Result<Session, Fail>
    requires { (1 ≤ workers) × (workers ≤ 64) }
{
    let mut events = Vec::new(alloc);
    events.push(Event::Clear(grey(100)))?;
    events.push(depth_test(true))?;
    events.push(flat_at(alloc, [(0, 0), (20, 0), (0, 20)], grey(5), 1000)?)?;
    events.push(flat_at(alloc, [(0, 0), (20, 0), (0, 20)], grey(7), 2000)?)?;
    events.push(depth_test(false))?;
    events.push(Event::SetFactor(grey(128)))?;
    events.push(times_factor()?)?;
    events.push(flat(alloc, [(32, 32), (52, 32), (32, 52)], grey(200))?)?;
    events.push(Event::SetFactor(grey(64)))?;
    events.push(flat(alloc, [(64, 32), (84, 32), (64, 52)], grey(201))?)?;
    events.push(blend(false, Factor::One, Factor::Zero, 15)?)?;
    events.push(scissor(0, 32, 10, 96))?;
    events.push(raster(Cull::None, true))?;
    events.push(flat(alloc, [(0, 64), (96, 64), (0, 96)], grey(50))?)?;
    events.push(raster(Cull::Back, false))?;
    events.push(flat(alloc, [(0, 32), (0, 52), (20, 32)], grey(60))?)?;
    session(alloc, 96, 96, events, workers)
}

/// The shown pixels of those draws, in their order.
fn expect_states(rt: &impl Abort, session: &Session, levels: [u8; 6]) {
    let pixels = [(1, 1), (33, 33), (65, 33), (1, 65), (15, 65), (1, 33)];
    for (pixel, level) in pixels.iter().zip(&levels) {
        expect_pixel(rt, session, *pixel, grey(*level));
    }
}

/// The levels are those that build/reference.py gives.
#[test]
fn a_switch_of_a_state_shows_where_it_is_drawn_in(rt: HostRuntime) -> Result<(), Fail> {
    let all = [5, 100, 50, 50, 100, 100];
    for workers in [1, 2, 64] {
        let mut session = states(rt.alloc(), workers)?;
        go(&rt, &mut session, 16);
        expect_states(&rt, &session, all);
        for (number, levels) in [
            (2, [7, 100, 50, 50, 100, 100]),
            (5, all),
            (6, [5, 200, 50, 50, 100, 100]),
            (7, [5, 200, 201, 50, 100, 100]),
            (9, [5, 100, 101, 50, 100, 100]),
            (11, [5, 100, 50, 13, 100, 100]),
            (12, [5, 100, 50, 100, 100, 100]),
            (13, [5, 100, 50, 50, 50, 100]),
            (15, [5, 100, 50, 50, 100, 60]),
        ] {
            switch(&rt, &mut session, (number, false), 16);
            expect_states(&rt, &session, levels);
            switch(&rt, &mut session, (number, true), 16);
            expect_states(&rt, &session, all);
        }
    }
    Ok(())
}
