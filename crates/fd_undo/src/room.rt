ghost use Rattle.std.specs.Prelude.{◌≡◌, ◌+◌, ◌≤◌, true};
ghost use Rattle.fd_undo.specs.Room.{IsWithin, with_more};

/// A new block has room for so many more colours and depths than its first frame needs, at least: a tile that few events meet takes little memory.
const LEAST_ROOM: usize = 64;

/// It has room for twice what the block before it holds, but for no more than so many beside its first frame.
const GREATEST_ROOM: usize = 2048;

/// So many spans stand in a block itself, and more in memory of their own.
pub(crate) const SPANS_INSIDE: usize = 8;

/// How many frames, spans, colours and depths a block has room for.
#[derive(Clone, Copy, PartialEq)]
pub(crate) struct Room {
    pub(crate) frames: usize,
    pub(crate) spans: usize,
    pub(crate) colours: usize,
    pub(crate) depths: usize,
}

impl Room {
    /// No room.
    pub(crate) const NONE: Room = Room {
        frames: 0,
        spans: 0,
        colours: 0,
        depths: 0,
    };

    /// What one frame of so many spans and pixels needs.
    pub(crate) fn needed(spans: usize, pixels: usize) -> Room
        ensures { result ≡ record { frames = 1; spans = spans; colours = pixels; depths = pixels } }
    {
        Room {
            frames: 1,
            spans,
            colours: pixels,
            depths: pixels,
        }
    }

    /// What so many frames of one span each need, which is of one colour and one depth.
    pub(crate) fn alike(frames: usize) -> Room
        ensures { result ≡ record { frames = frames; spans = frames; colours = frames; depths = 0 } }
    {
        Room {
            frames,
            spans: frames,
            colours: frames,
            depths: 0,
        }
    }

    /// Whether it is for no span and no pixel.
    pub(crate) fn keeps_nothing(self) -> bool
        ensures yes { self.spans ≡ 0 → self.colours ≡ 0 → self.depths ≡ 0 → result ≡ true }
        ensures no { result ≡ true → (self.spans ≡ 0) × (self.colours ≡ 0) × (self.depths ≡ 0) }
    {
        self.spans == 0 && self.colours == 0 && self.depths == 0
    }

    /// What a block has room for that begins with such a frame, behind one that holds so much: the frame, and twice what is held. Most frames need few of
    /// the colours that they ask for, so that a frame like the first one has room behind what others kept.
    pub(crate) fn after(self, held: Room) -> Room
        ensures enough { IsWithin self result }
        ensures little { IsWithin result (with_more self 2048) }
    {
        // a frame that lists no depth is one of a tile that may stay alike
        let least = if self.depths == 0 { 0 } else { LEAST_ROOM };
        let colours = room_after(held.colours, self.colours, least);
        Room {
            frames: room_after(held.frames, self.frames, colours / 64),
            spans: room_after(
                held.spans,
                self.spans,
                (colours / 16).saturating_sub(SPANS_INSIDE),
            ),
            colours,
            depths: room_after(held.depths, self.depths, least),
        }
    }
}

/// What is needed, and twice what is held beside it, or at least so much more, within bounds.
fn room_after(held: usize, needed: usize, least: usize) -> usize
    ensures enough { needed ≤ result }
    ensures little { result ≤ needed + 2048 }
{
    needed.saturating_add(held.saturating_mul(2).max(least).min(GREATEST_ROOM))
}
