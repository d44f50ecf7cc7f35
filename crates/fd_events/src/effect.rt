//! What an event does, of whatever kind it is.
use crate::draw::Draw;
use fd_blend::Colour;

/// What a clear gives to each pixel: a colour, or a depth. The other one stays.
#[derive(Clone, Copy)]
pub enum Clear {
    Colours(Colour),
    Depths(u16),
}

/// What an event does to a frame.
#[derive(Clone, Copy)]
pub enum Effect<'a> {
    /// It replaces a part of the pipeline state.
    State,
    /// It gives every pixel of the target a colour or a depth.
    Clear(Clear),
    /// It draws triangles.
    Draw(&'a Draw),
    /// It names a place in the frame, and does nothing.
    Nothing,
}
