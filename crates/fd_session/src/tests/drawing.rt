ghost use Rattle.std.specs.Prelude.{◌<◌};

use crate::tests::frames::{
    CLOCKWISE, added_twice, back, blend, colour, culled_and_scissored, draw, expect_pixel,
    expect_pixels, expect_refused, flat, go, go_gated, grey, masked_and_scissored, position,
    raster, scissor, session, step, switch,
};
use crate::{Session, SessionFault};
use fd_blend::Factor;
use fd_cover::{Cull, Interp};
use fd_events::{Draw, Event, Vertex};
use std::alloc::Global;
use std::process::Abort;
use std::test::Fail;
use std::thread::Threads;

#[test]
fn the_shared_edge_is_drawn_once(rt: HostRuntime) -> Result<(), Fail> {
    let red = colour(255, 0, 0, 255);
    let green = colour(0, 255, 0, 255);
    let triangles = [
        (CLOCKWISE, [red; 3]),
        ([(2, 0), (2, 2), (0, 2)], [green; 3]),
    ];
    for workers in [1, 2, 64] {
        let events = vec![in rt.alloc(); draw(rt.alloc(), Interp::Flat, &triangles)?]?;
        let mut session = session(rt.alloc(), 2, 2, events, workers)?;
        go_gated(&rt, &mut session, 1);
        expect_pixels(&rt, &session, red, green);
        assert_eq!(rt; session.pixel(2, 0), Err(SessionFault::NoSuchPixel));
    }
    Ok(())
}

#[test]
fn culled_and_scissored_draws_leave_the_pixel(rt: HostRuntime) -> Result<(), Fail> {
    let last = colour(3, 4, 5, 6);
    for workers in [1, 2, 64] {
        let events = culled_and_scissored(rt.alloc(), last)?;
        let mut session = session(rt.alloc(), 1, 1, events, workers)?;
        for (at, seen) in [(1, grey(0)), (3, grey(0)), (4, grey(0)), (5, last)] {
            go(&rt, &mut session, at);
            expect_pixel(&rt, &session, (0, 0), seen);
        }
    }
    Ok(())
}

#[test]
fn mask_and_scissor_leave_clears_alone(rt: HostRuntime) -> Result<(), Fail> {
    for workers in [1, 2, 64] {
        let mut session = masked_and_scissored(rt.alloc(), workers)?;
        go_gated(&rt, &mut session, 5);
        expect_pixels(&rt, &session, colour(200, 9, 202, 9), grey(9));
        back(&rt, &mut session, 4);
        expect_pixel(&rt, &session, (0, 0), grey(9));
    }
    Ok(())
}

/// Checks that the first event is on, and can't be switched on once more.
fn expect_on<R: Threads + Sync + Abort>(rt: &R, session: &mut Session) {
    expect_refused(rt, session.switch(rt, 1, true), SessionFault::AlreadySo);
    assert_eq!(rt; session.is_on(1), Ok(true));
}

#[test]
fn a_blend_state_switched_off_and_on(rt: HostRuntime) -> Result<(), Fail> {
    let source = colour(200, 100, 50, 128);
    for workers in [1, 2, 64] {
        let mut events = Vec::new(rt.alloc());
        events.push(blend(true, Factor::SrcAlpha, Factor::Zero, 15)?)?;
        events.push(flat(rt.alloc(), CLOCKWISE, source)?)?;
        let mut session = session(rt.alloc(), 1, 1, events, workers)?;
        go(&rt, &mut session, 2);
        expect_pixel(&rt, &session, (0, 0), colour(100, 50, 25, 128));
        switch(&rt, &mut session, (1, false), 2);
        expect_pixel(&rt, &session, (0, 0), source);
        switch(&rt, &mut session, (1, true), 2);
        expect_pixel(&rt, &session, (0, 0), colour(100, 50, 25, 128));
        expect_on(&rt, &mut session);
    }
    Ok(())
}

#[test]
fn back_returns_to_the_image_before_the_draw(rt: HostRuntime) -> Result<(), Fail> {
    for workers in [1, 2, 64] {
        let events = added_twice(rt.alloc())?;
        let mut session = session(rt.alloc(), 1, 1, events, workers)?;
        go(&rt, &mut session, 2);
        expect_pixel(&rt, &session, (0, 0), grey(20));
        back(&rt, &mut session, 1);
        expect_pixel(&rt, &session, (0, 0), grey(0));
    }
    Ok(())
}

#[test]
fn linear_red_rounds_to_nearest(rt: HostRuntime) -> Result<(), Fail> {
    let black = colour(0, 0, 0, 255);
    let red = colour(255, 0, 0, 255);
    let triangles = [(CLOCKWISE, [black, black, red])];
    for workers in [1, 2, 64] {
        let events = vec![in rt.alloc(); draw(rt.alloc(), Interp::Linear, &triangles)?]?;
        let mut session = session(rt.alloc(), 1, 1, events, workers)?;
        step(&rt, &mut session, 1);
        expect_pixel(&rt, &session, (0, 0), colour(64, 0, 0, 255));
    }
    Ok(())
}

/// Numbers that look random, always the same ones.
#[derive(Drop)]
struct Numbers {
    last: u32,
}

impl Numbers {
    fn next(&mut self) -> u32
        ensures { result < 65536 }
    {
        self.last = self
            .last
            .wrapping_mul(1_664_525)
            .wrapping_add(1_013_904_223);
        self.last >> 16
    }

    fn byte(&mut self) -> u8 {
        (self.next() % 256) as u8
    }

    /// A corner with its colour, mostly on a target of 40 by 35 pixels.
    fn vertex(&mut self) -> Result<Vertex, Fail> {
        let x = (self.next() % 60 * 65536 + self.next()) as i32 - 655_360;
        let y = (self.next() % 55 * 65536 + self.next()) as i32 - 655_360;
        let pos = position(x, y)?;
        let colour = colour(self.byte(), self.byte(), self.byte(), self.byte());
        let z = self.next() as u16;
        Ok(Vertex { pos, colour, z })
    }

    /// A draw of three triangles.
    fn draw(&mut self, alloc: Global) -> Result<Event, Fail> {
        let interp = if self.byte() < 128 {
            Interp::Flat
        } else {
            Interp::Linear
        };
        let mut vertices = Vec::new(alloc);
        for _ in 0..9 {
            vertices.push(self.vertex()?)?;
        }
        Ok(Event::Draw(Draw::new(vertices, None, interp)?))
    }
}

/// Draws between state events of each kind.
fn round(alloc: Global, events: &mut Vec<Event>, numbers: &mut Numbers) -> Result<(), Fail> {
    events.push(raster(Cull::None, false))?;
    events.push(numbers.draw(alloc)?)?;
    events.push(blend(true, Factor::SrcAlpha, Factor::InvSrcAlpha, 7)?)?;
    events.push(numbers.draw(alloc)?)?;
    events.push(scissor(5, -3, 33, 29))?;
    events.push(raster(Cull::Back, true))?;
    events.push(numbers.draw(alloc)?)?;
    events.push(raster(Cull::Front, true))?;
    events.push(numbers.draw(alloc)?)?;
    events.push(blend(false, Factor::One, Factor::Zero, 15)?)?;
    Ok(())
}

/// Checks that a pixel is what its history ends with.
fn expect_led_to(
    rt: &impl Abort,
    alloc: Global,
    session: &Session,
    x: u32,
    y: u32,
) -> Result<(), Fail> {
    let entries = session.history(alloc, x, y)?;
    let last = entries.last().map(|entry| entry.after);
    assert_eq!(rt; session.pixel(x, y).ok(), last, "at {x} {y}");
    Ok(())
}

/// The tiles of many draws, against the replay of each pixel alone.
#[test]
fn every_pixel_is_what_its_history_leads_to(rt: HostRuntime) -> Result<(), Fail> {
    for workers in [1, 2, 64] {
        let mut numbers = Numbers { last: 1 };
        let mut events = Vec::new(rt.alloc());
        events.push(Event::Clear(colour(10, 20, 30, 40)))?;
        for _ in 0..3 {
            round(rt.alloc(), &mut events, &mut numbers)?;
        }
        let mut session = session(rt.alloc(), 40, 35, events, workers)?;
        go_gated(&rt, &mut session, 31);
        for y in 0..35 {
            for x in 0..40 {
                expect_led_to(&rt, rt.alloc(), &session, x, y)?;
            }
        }
    }
    Ok(())
}
