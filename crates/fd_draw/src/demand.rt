//! How much an event writes on a tile.
ghost use Rattle.std.specs.Prelude.{◌≡◌};
ghost use Rattle.fd_draw.specs.Demand.{writes_deep};

use fd_events::{Clear, Effect, Event, Pipeline};

/// How many spans and pixels an event writes on a tile. A span is a row's neighbouring pixels that are written at once.
#[derive(Clone, Copy, Debug, PartialEq, Eq)]
pub struct Demand {
    pub spans: usize,
    pub pixels: usize,
}

/// Whether an event may write other depths than the greatest in a state.
pub fn writes_deep(event: &Event, state: &Pipeline) -> bool
    ensures { result ≡ writes_deep event.now state.now }
{
    match event.effect() {
        Effect::Clear(Clear::Depths(depth)) => depth != u16::MAX,
        Effect::Draw(_) => state.depth.enable && state.depth.write,
        Effect::Clear(Clear::Colours(_)) | Effect::State | Effect::Nothing => false,
    }
}

/// Of an event that writes nothing.
pub(crate) const NOTHING: Demand = Demand {
    spans: 0,
    pixels: 0,
};
