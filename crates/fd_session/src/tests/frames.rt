//! Frames of the tests.
ghost use Rattle.std.specs.Prelude.{◌≤◌};

use crate::{Answer, Session, SessionFault};
use fd_blend::{BlendOp, BlendState, Colour, Factor, Mask, Part};
use fd_cover::{Cull, Depth, Func, Interp, Raster, Rect};
use fd_crew::Free;
use fd_device::Progress;
use fd_events::{Draw, Event, EventTable, Vertex};
use fd_snap::Pos;
use std::alloc::Global;
use std::process::Abort;
use std::test::Fail;
use std::thread::Threads;

/// Whom a move tells where it is: how often that was, and what was said last.
#[derive(Default, Drop)]
pub(crate) struct Teller {
    pub times: u32,
    pub at: u32,
    pub to: u32,
}

impl Progress for Teller {
    ghost kept = { λ _. tt };

    fn on_the_way(&mut self, at: u32, to: u32) {
        self.times = self.times.saturating_add(1);
        (self.at, self.to) = (at, to);
    }
}

pub(crate) const fn colour(r: u8, g: u8, b: u8, a: u8) -> Colour {
    Colour { r, g, b, a }
}

pub(crate) fn grey(level: u8) -> Colour {
    colour(level, level, level, level)
}

/// A position in units of 1/65536 pixel.
pub(crate) fn position(x: i32, y: i32) -> Result<Pos, Fail> {
    Ok(Pos::new(x, y).ok_or("a position")?)
}

/// A triangle by its corners in pixels, and their colours.
pub(crate) type Corners = ([(i16, i16); 3], [Colour; 3]);

pub(crate) const CLOCKWISE: [(i16, i16); 3] = [(0, 0), (2, 0), (0, 2)];

pub(crate) fn draw(alloc: Global, interp: Interp, triangles: &[Corners]) -> Result<Event, Fail> {
    draw_at(alloc, interp, triangles, 0)
}

/// A draw whose corners have one depth.
fn draw_at(alloc: Global, interp: Interp, triangles: &[Corners], z: u16) -> Result<Event, Fail> {
    let mut vertices = Vec::new(alloc);
    for (corners, colours) in triangles {
        for ((x, y), colour) in corners.iter().zip(colours) {
            let pos = position(i32::from(*x) * 65536, i32::from(*y) * 65536)?;
            let colour = *colour;
            vertices.push(Vertex { pos, colour, z })?;
        }
    }
    Ok(Event::Draw(Draw::new(vertices, None, interp)?))
}

pub(crate) fn flat(alloc: Global, corners: [(i16, i16); 3], colour: Colour) -> Result<Event, Fail> {
    flat_at(alloc, corners, colour, 0)
}

/// A triangle of one colour and one depth.
pub(crate) fn flat_at(
    alloc: Global,
    corners: [(i16, i16); 3],
    colour: Colour,
    z: u16,
) -> Result<Event, Fail> {
    draw_at(alloc, Interp::Flat, &[(corners, [colour; 3])], z)
}

/// Clears, each of its own grey behind a small draw. On 512 by 512 pixels each takes 1,049,087 ns with its draw by estimate.
pub(crate) fn drawn_clears(alloc: Global, count: u8) -> Result<Vec<Event>, Fail> {
    let mut events = Vec::new(alloc);
    for level in 1..=count {
        events.push(draw(alloc, Interp::Flat, &[(CLOCKWISE, [grey(0); 3])])?)?;
        events.push(Event::Clear(grey(level)))?;
    }
    Ok(events)
}

pub(crate) fn blend(enable: bool, src: Factor, dst: Factor, bits: u8) -> Result<Event, Fail> {
    let op = BlendOp::Add;
    let alpha_src = Factor::One;
    let rgb = Part { src, dst, op };
    let alpha = Part {
        src: alpha_src,
        dst,
        op,
    };
    let mask = Mask::from_bits(bits).ok_or("a mask")?;
    Ok(Event::SetBlend(BlendState::new(enable, rgb, alpha, mask)?))
}

pub(crate) fn raster(cull: Cull, scissor: bool) -> Event {
    Event::SetRaster(Raster {
        cull,
        front_ccw: false,
        scissor,
    })
}

pub(crate) fn scissor(left: i32, top: i32, right: i32, bottom: i32) -> Event {
    Event::SetScissor(Rect {
        left,
        top,
        right,
        bottom,
    })
}

/// The depth test, by which the nearer one wins.
pub(crate) fn depth_test(enable: bool) -> Event {
    Event::SetDepth(Depth {
        enable,
        write: true,
        func: Func::Less,
    })
}

pub(crate) fn session(
    alloc: Global,
    width: u32,
    height: u32,
    events: Vec<Event>,
    workers: u32,
) -> Result<Session, Fail>
    requires { (1 ≤ workers) × (workers ≤ 64) }
{
    let table = EventTable::start(alloc, 3, width, height, events)?;
    match Session::start(alloc, table, workers) {
        Ok(session) => Ok(session),
        Err(_) => Err(Fail::from("memory")),
    }
}

/// One clear on a target that is one pixel high.
pub(crate) fn one_clear(
    alloc: Global,
    width: u32,
    colour: Colour,
    workers: u32,
) -> Result<Session, Fail>
    requires { (1 ≤ workers) × (workers ≤ 64) }
{
    session(
        alloc,
        width,
        1,
        vec![in alloc; Event::Clear(colour)]?,
        workers,
    )
}

/// A scissor and a mask, a clear of grey 9, and a draw on a target of two by two pixels.
pub(crate) fn masked_and_scissored(alloc: Global, workers: u32) -> Result<Session, Fail>
    requires { (1 ≤ workers) × (workers ≤ 64) }
{
    let mut events = Vec::new(alloc);
    events.push(raster(Cull::None, true))?;
    events.push(scissor(0, 0, 1, 1))?;
    events.push(blend(false, Factor::One, Factor::Zero, 5)?)?;
    events.push(Event::Clear(grey(9)))?;
    let drawn = colour(200, 201, 202, 203);
    events.push(flat(alloc, [(0, 0), (4, 0), (0, 4)], drawn)?)?;
    session(alloc, 2, 2, events, workers)
}

/// A culled draw of grey 1, a scissored one of grey 2, and one of this colour that is drawn, on pixel (0, 0).
pub(crate) fn culled_and_scissored(alloc: Global, drawn: Colour) -> Result<Vec<Event>, Fail> {
    let counter_clockwise = [(0, 0), (0, 2), (2, 0)];
    let mut events = Vec::new(alloc);
    events.push(flat(alloc, counter_clockwise, grey(1))?)?;
    events.push(raster(Cull::Back, true))?;
    events.push(flat(alloc, CLOCKWISE, grey(2))?)?;
    events.push(scissor(0, 0, 1, 1))?;
    events.push(flat(alloc, CLOCKWISE, drawn)?)?;
    Ok(events)
}

/// Additive blending, and a draw of two triangles of grey 10 over one another.
pub(crate) fn added_twice(alloc: Global) -> Result<Vec<Event>, Fail> {
    let twice = [(CLOCKWISE, [grey(10); 3]), (CLOCKWISE, [grey(10); 3])];
    let adding = blend(true, Factor::One, Factor::One, 15)?;
    Ok(vec![in alloc; adding, draw(alloc, Interp::Flat, &twice)?]?)
}

// All that a call promises is carried along to the end of a test. These functions promise nothing, so that no proof of a test carries it.

/// Checks that a move was carried out, and where it ended.
pub(crate) fn expect_moved(rt: &impl Abort, answer: Answer, at: u32) {
    assert_eq!(rt; answer, Answer::Moved { at });
}

/// Goes to a position.
pub(crate) fn go<R: Threads + Sync + Abort>(rt: &R, session: &mut Session, to: u32) {
    expect_moved(rt, session.goto(rt, to), to);
}

/// Goes to a position with all workers.
pub(crate) fn go_gated<R: Threads + Sync + Abort>(rt: &R, session: &mut Session, to: u32) {
    expect_moved(rt, session.goto_gated(rt, to, &Free), to);
}

/// Steps over an event to this position.
pub(crate) fn step<R: Threads + Sync + Abort>(rt: &R, session: &mut Session, at: u32) {
    expect_moved(rt, session.step(rt), at);
}

/// Goes back over an event to this position.
pub(crate) fn back(rt: &impl Abort, session: &mut Session, at: u32) {
    assert_eq!(rt; session.back(), Ok(at));
}

/// Switches an event on or off at this position.
pub(crate) fn switch<R: Threads + Sync + Abort>(
    rt: &R,
    session: &mut Session,
    (number, on): (u32, bool),
    at: u32,
) {
    let answer = session.switch(rt, number, on);
    assert_eq!(rt; answer, Answer::Moved { at }, "event {number}");
}

/// Checks why a move was refused.
pub(crate) fn expect_refused(rt: &impl Abort, answer: Answer, fault: SessionFault) {
    assert_eq!(rt; answer, Answer::Refused(fault));
}

/// Checks what the session shows of a target of two by two pixels.
pub(crate) fn expect_pixels(rt: &impl Abort, session: &Session, first: Colour, others: Colour) {
    expect_pixel(rt, session, (0, 0), first);
    for (x, y) in [(1, 0), (0, 1), (1, 1)] {
        expect_pixel(rt, session, (x, y), others);
    }
}

/// Checks the colour that pixel (x, y) shows.
pub(crate) fn expect_pixel(rt: &impl Abort, session: &Session, pixel: (u32, u32), shown: Colour) {
    let (x, y) = pixel;
    assert_eq!(rt; session.pixel(x, y), Ok(shown), "at {x} {y}");
}
