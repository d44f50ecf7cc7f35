//! The texts of lines, and of the words that they are made of.
ghost use Rattle.std.specs.Prelude.{◌≡◌, ◌==◌, ◌≤◌, ◌+◌, ◌++◌, not, codes, length, Ok};
ghost use Rattle.fd_capture.specs.Spelling.{factor_text, op_text, cull_text, func_text, interp_text};
ghost use Rattle.fd_words.specs.Text.{word, number_word, signed_word, truth_word, flag_word, colour_words, rect_words, part_words, equation_words, depth_words};
ghost use Rattle.fd_words.specs.Text.{line_end, source_text, event_words, event_line, events_head, state_line, pixel_line, triangle_word, verdict_text};
ghost use Rattle.fd_words.specs.Text.{entry_line};

use arrayvec::ArrayVec;
use bitflags::Flags;
use fd_blend::{BlendOp, BlendState, Colour, Factor, Part};
use fd_cover::{Cull, Depth, Func, Interp, Raster, Rect, Verdict};
use fd_events::{Draw, Event, Label, Pipeline};
use fd_history::Entry;
use itoa::Buffer;

/// A line, or a part of one. None is longer.
pub type Line = ArrayVec<u8, 256>;

/// The line of a pixel, in the replies on a capture of a version.
pub fn pixel_line(version: u32, colour: Colour, depth: u16) -> Line
    ensures { result.items ≡ pixel_line version colour depth }
{
    let mut line = Line::new();
    append(&mut line, b"pixel");
    add_colour(&mut line, colour);
    if shows_depths(version) {
        add_half(&mut line, depth);
    }
    append(&mut line, b"\n");
    line
}

/// The line of a pipeline's state, in the replies on a capture of a version.
#[tactic(auto, unfolding(crate::specs::Text::state_line))]
pub fn state_line(version: u32, state: &Pipeline) -> Line
    ensures { result.items ≡ state_line version state.now }
{
    let mut line = Line::new();
    append(&mut line, b"state cull");
    append(&mut line, cull_word(state.raster.cull));
    append(&mut line, b" ccw");
    append(&mut line, truth_word(state.raster.front_ccw));
    append(&mut line, b" scissor");
    append(&mut line, truth_word(state.raster.scissor));
    append(&mut line, b" rect");
    append(&mut line, rect_words(state.scissor).as_slice());
    append(&mut line, b" blend");
    add_equation(&mut line, state.blend);
    append(&mut line, b" mask");
    add_byte(&mut line, state.blend.mask().bits());
    append(&mut line, b" factor");
    add_colour(&mut line, state.factor);
    end_state(&mut line, version, state.depth);
    line
}

/// The line of an event.
#[tactic(auto, unfolding(crate::specs::Text::event_line))]
pub(crate) fn event_line(number: u32, event: &Event, on: bool) -> Line
    ensures { result.items ≡ event_line number event.now on }
{
    let mut digits = Buffer::new();
    let mut line = Line::new();
    append(&mut line, digits.format(number).as_bytes());
    append(&mut line, flag_word(on));
    add_event(&mut line, event);
    append(&mut line, b"\n");
    line
}

/// The first line of a list of events.
pub(crate) fn events_head(count: u32, position: u32) -> Line
    ensures { result.items ≡ events_head count position }
{
    let mut line = Line::new();
    append(&mut line, b"events");
    add_number(&mut line, count);
    append(&mut line, b" at");
    add_number(&mut line, position);
    append(&mut line, b"\n");
    line
}

/// The line of an entry of a pixel's history, in the replies on a capture of a version.
#[tactic(auto, unfolding(crate::specs::Text::entry_line))]
pub(crate) fn entry_line(version: u32, entry: &Entry) -> Line
    ensures items { result.items ≡ entry_line version entry.now }
    ensures short { length result.items ≤ 112 }
{
    let mut digits = Buffer::new();
    let mut line = Line::new();
    append(&mut line, digits.format(entry.event).as_bytes());
    add_triangle(&mut line, entry.triangle);
    append(&mut line, verdict_word(entry.verdict));
    add_colour(&mut line, entry.source);
    add_colour(&mut line, entry.before);
    add_colour(&mut line, entry.after);
    end_entry(&mut line, version, entry);
    line
}

/// Appends a text to a line.
fn append(line: &mut Line, text: &[u8])
    requires { length line.old.items + length text.now ≤ 256 }
    ensures items { line.new.items ≡ line.old.items ++ text.now }
    ensures len { length line.new.items ≡ length line.old.items + length text.now }
{
    line.try_extend_from_slice(text).unwrap();
}

/// Appends a number.
fn add_number(line: &mut Line, number: u32)
    requires { length line.old.items + 11 ≤ 256 }
    ensures items { line.new.items ≡ line.old.items ++ number_word number }
    ensures len { length line.new.items ≤ length line.old.items + 11 }
{
    let mut digits = Buffer::new();
    append(line, b" ");
    append(line, digits.format(number).as_bytes());
}

/// Appends a number of one byte.
fn add_byte(line: &mut Line, number: u8)
    requires { length line.old.items + 4 ≤ 256 }
    ensures items { line.new.items ≡ line.old.items ++ number_word number }
    ensures len { length line.new.items ≤ length line.old.items + 4 }
{
    let mut digits = Buffer::new();
    append(line, b" ");
    append(line, digits.format(number).as_bytes());
}

/// Appends a number of two bytes.
fn add_half(line: &mut Line, number: u16)
    requires { length line.old.items + 6 ≤ 256 }
    ensures items { line.new.items ≡ line.old.items ++ number_word number }
    ensures len { length line.new.items ≤ length line.old.items + 6 }
{
    let mut digits = Buffer::new();
    append(line, b" ");
    append(line, digits.format(number).as_bytes());
}

/// A number that may be negative.
fn signed_word(number: i32) -> Line
    ensures items { result.items ≡ signed_word number }
    ensures short { length result.items ≤ 12 }
{
    let mut digits = Buffer::new();
    let mut line = Line::new();
    append(&mut line, b" ");
    append(&mut line, digits.format(number).as_bytes());
    line
}

fn truth_word(truth: bool) -> &'static [u8]
    ensures word { result.now ≡ truth_word truth }
    ensures short { length result.now ≤ 2 }
{
    if truth { b" 1" } else { b" 0" }
}

fn flag_word(on: bool) -> &'static [u8]
    ensures word { result.now ≡ flag_word on }
    ensures short { length result.now ≤ 4 }
{
    if on { b" on" } else { b" off" }
}

fn cull_word(cull: Cull) -> &'static [u8]
    ensures word { result.now ≡ word (cull_text cull) }
    ensures short { length result.now ≤ 6 }
{
    match cull {
        Cull::None => b" none",
        Cull::Front => b" front",
        Cull::Back => b" back",
    }
}

fn factor_word(factor: Factor) -> &'static [u8]
    ensures word { result.now ≡ word (factor_text factor) }
    ensures short { length result.now ≤ 17 }
{
    match factor {
        Factor::Zero => b" ZERO",
        Factor::One => b" ONE",
        Factor::SrcColor => b" SRC_COLOR",
        Factor::InvSrcColor => b" INV_SRC_COLOR",
        Factor::SrcAlpha => b" SRC_ALPHA",
        Factor::InvSrcAlpha => b" INV_SRC_ALPHA",
        Factor::DestAlpha => b" DEST_ALPHA",
        Factor::InvDestAlpha => b" INV_DEST_ALPHA",
        Factor::DestColor => b" DEST_COLOR",
        Factor::InvDestColor => b" INV_DEST_COLOR",
        Factor::BlendFactor => b" BLEND_FACTOR",
        Factor::InvBlendFactor => b" INV_BLEND_FACTOR",
    }
}

fn operation_word(operation: BlendOp) -> &'static [u8]
    ensures word { result.now ≡ word (op_text operation) }
    ensures short { length result.now ≤ 13 }
{
    match operation {
        BlendOp::Add => b" ADD",
        BlendOp::Subtract => b" SUBTRACT",
        BlendOp::RevSubtract => b" REV_SUBTRACT",
        BlendOp::Min => b" MIN",
        BlendOp::Max => b" MAX",
    }
}

fn interp_word(interp: Interp) -> &'static [u8]
    ensures word { result.now ≡ word (interp_text interp) }
    ensures short { length result.now ≤ 7 }
{
    match interp {
        Interp::Flat => b" flat",
        Interp::Linear => b" linear",
    }
}

fn func_word(func: Func) -> &'static [u8]
    ensures word { result.now ≡ word (func_text func) }
    ensures short { length result.now ≤ 14 }
{
    match func {
        Func::Never => b" NEVER",
        Func::Less => b" LESS",
        Func::Equal => b" EQUAL",
        Func::LessEqual => b" LESS_EQUAL",
        Func::Greater => b" GREATER",
        Func::NotEqual => b" NOT_EQUAL",
        Func::GreaterEqual => b" GREATER_EQUAL",
        Func::Always => b" ALWAYS",
    }
}

fn verdict_word(verdict: Verdict) -> &'static [u8]
    ensures word { result.now ≡ word (verdict_text verdict) }
    ensures short { length result.now ≤ 12 }
{
    match verdict {
        Verdict::Missed => b" missed",
        Verdict::Culled => b" culled",
        Verdict::Scissored => b" scissored",
        Verdict::Discarded => b" discarded",
        Verdict::DepthFailed => b" depthfailed",
        Verdict::Drawn => b" drawn",
    }
}

/// Appends a triangle's number, or that there is none.
fn add_triangle(line: &mut Line, triangle: Option<u32>)
    requires { length line.old.items + 11 ≤ 256 }
    ensures items { line.new.items ≡ line.old.items ++ triangle_word triangle }
    ensures len { length line.new.items ≤ length line.old.items + 11 }
{
    match triangle {
        None => append(line, b" -"),
        Some(number) => add_number(line, number),
    }
}

/// Appends the four channels of a colour.
fn add_colour(line: &mut Line, colour: Colour)
    requires { length line.old.items + 16 ≤ 256 }
    ensures items { line.new.items ≡ line.old.items ++ colour_words colour }
    ensures len { length line.new.items ≤ length line.old.items + 16 }
{
    add_byte(line, colour.r);
    add_byte(line, colour.g);
    add_byte(line, colour.b);
    add_byte(line, colour.a);
}

/// The four sides of a rectangle.
fn rect_words(rect: Rect) -> Line
    ensures items { result.items ≡ rect_words rect }
    ensures short { length result.items ≤ 48 }
{
    let mut line = signed_word(rect.left);
    append(&mut line, signed_word(rect.top).as_slice());
    append(&mut line, signed_word(rect.right).as_slice());
    append(&mut line, signed_word(rect.bottom).as_slice());
    line
}

/// Appends a part of a blend equation.
fn add_part(line: &mut Line, part: Part)
    requires { length line.old.items + 47 ≤ 256 }
    ensures items { line.new.items ≡ line.old.items ++ part_words part }
    ensures len { length line.new.items ≤ length line.old.items + 47 }
{
    append(line, factor_word(part.src));
    append(line, factor_word(part.dst));
    append(line, operation_word(part.op));
}

/// Appends whether blending is on, and both parts of its equation.
fn add_equation(line: &mut Line, blend: BlendState)
    requires { length line.old.items + 96 ≤ 256 }
    ensures items { line.new.items ≡ line.old.items ++ equation_words blend }
    ensures len { length line.new.items ≤ length line.old.items + 96 }
{
    append(line, truth_word(blend.enable()));
    add_part(line, blend.rgb());
    add_part(line, blend.alpha());
}

/// Appends a depth state.
fn add_depth(line: &mut Line, depth: Depth)
    requires { length line.old.items + 18 ≤ 256 }
    ensures items { line.new.items ≡ line.old.items ++ depth_words depth }
    ensures len { length line.new.items ≤ length line.old.items + 18 }
{
    append(line, truth_word(depth.enable));
    append(line, truth_word(depth.write));
    append(line, func_word(depth.func));
}

/// Whether the replies on a capture of a version show depths.
fn shows_depths(version: u32) -> bool
    ensures { result ≡ not (version == 1) }
{
    version != 1
}

/// Ends the line of a pipeline's state, in the replies on a capture of a version.
fn end_state(line: &mut Line, version: u32, depth: Depth)
    requires { length line.old.items + 25 ≤ 256 }
    ensures { line.new.items ≡ line.old.items ++ line_end version (codes " depth" ++ depth_words depth) }
{
    if shows_depths(version) {
        append(line, b" depth");
        add_depth(line, depth);
    }
    append(line, b"\n");
}

/// Appends a raster state as an event.
fn add_raster(line: &mut Line, raster: Raster)
    requires { length line.old.items + 160 ≤ 256 }
    ensures items { line.new.items ≡ line.old.items ++ event_words (Event.SetRaster raster) }
    ensures len { length line.new.items ≤ length line.old.items + 160 }
{
    append(line, b" raster");
    append(line, cull_word(raster.cull));
    append(line, truth_word(raster.front_ccw));
    append(line, truth_word(raster.scissor));
}

/// Appends a blend state as an event.
fn add_blend(line: &mut Line, blend: BlendState)
    requires { length line.old.items + 160 ≤ 256 }
    ensures items { line.new.items ≡ line.old.items ++ event_words (Event.SetBlend blend) }
    ensures len { length line.new.items ≤ length line.old.items + 160 }
{
    append(line, b" blend");
    add_equation(line, blend);
    add_byte(line, blend.mask().bits());
}

/// Appends a clear of depths as an event.
fn add_depth_clear(line: &mut Line, depth: u16)
    requires { length line.old.items + 160 ≤ 256 }
    ensures items { line.new.items ≡ line.old.items ++ event_words (Event.DepthClear depth) }
    ensures len { length line.new.items ≤ length line.old.items + 160 }
{
    append(line, b" depth_clear");
    add_half(line, depth);
}

/// What the colours of a draw come from.
fn source_word(draw: &Draw) -> &'static [u8]
    ensures word { result.now ≡ word (source_text draw.now) }
    ensures short { length result.now ≤ 8 }
{
    match draw.picture() {
        Some(_) => b" picture",
        None => interp_word(draw.interp()),
    }
}

/// Appends a draw as an event.
fn add_draw(line: &mut Line, draw: &Draw)
    requires { length line.old.items + 160 ≤ 256 }
    ensures items { line.new.items ≡ line.old.items ++ event_words (Event.Draw draw.now) }
    ensures len { length line.new.items ≤ length line.old.items + 160 }
{
    append(line, b" draw");
    add_number(line, draw.triangles());
    append(line, source_word(draw));
}

/// Appends what stands behind an event's number and flag.
fn add_event(line: &mut Line, event: &Event)
    requires { length line.old.items + 160 ≤ 256 }
    ensures items { line.new.items ≡ line.old.items ++ event_words event.now }
    ensures len { length line.new.items ≤ length line.old.items + 160 }
{
    match event {
        Event::Clear(colour) => {
            append(line, b" clear");
            add_colour(line, *colour);
        }
        Event::SetRaster(raster) => add_raster(line, *raster),
        Event::SetScissor(rect) => {
            append(line, b" scissor");
            append(line, rect_words(*rect).as_slice());
        }
        Event::SetBlend(blend) => add_blend(line, *blend),
        Event::SetFactor(colour) => {
            append(line, b" factor");
            add_colour(line, *colour);
        }
        Event::SetDepth(depth) => {
            append(line, b" depth");
            add_depth(line, *depth);
        }
        Event::DepthClear(depth) => add_depth_clear(line, *depth),
        Event::Draw(draw) => add_draw(line, draw),
        Event::Marker(name) => {
            append(line, b" marker ");
            append(line, name.as_str().as_bytes());
        }
    }
}

/// Ends the line of an entry of a pixel's history, in the replies on a capture of a version.
fn end_entry(line: &mut Line, version: u32, entry: &Entry)
    requires { length line.old.items + 19 ≤ 256 }
    ensures items { line.new.items ≡ line.old.items ++ line_end version
        (number_word entry.now.source_depth ++ number_word entry.now.depth_before ++ number_word entry.now.depth_after) }
    ensures len { length line.new.items ≤ length line.old.items + 19 }
{
    if shows_depths(version) {
        add_half(line, entry.source_depth);
        add_half(line, entry.depth_before);
        add_half(line, entry.depth_after);
    }
    append(line, b"\n");
}
