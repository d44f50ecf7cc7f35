//! Clears that follow one another, of tiles that are alike.
ghost use Rattle.std.specs.Prelude.{◌≡◌, ℕ, ◌+◌, ◌^◌, ◌<◌, ◌≤◌, ◌∷◌, [], ◌++◌, length, true, false, IfSome};
ghost use Rattle.fd_tile.specs.Tile.{Pixel};
ghost use Rattle.fd_undo.specs.Alike.{kept_alike};
ghost use Rattle.fd_undo.specs.Block.{Rise};
ghost use Rattle.fd_draw.specs.Written.{cleared};
ghost use Rattle.fd_owner.specs.Clears.{with_all, with_alike, IsDeepEnough, Grows, IsRunOf};

use crate::next::number_past;
use fd_blend::Colour;
use fd_events::{Clear, Effect, EventTable};
use fd_tile::Tile;
use fd_undo::{AlikeFrame, AlikeFrames, UndoStack};
use std::alloc::Global;

/// So many events that write nothing are gone through behind a clear, at most: each tile that asks for clears of its own looks at so many in vain.
const MOST_PASSED: u32 = 16;

/// The clears between two positions, with events that write nothing: the colour and the depth that a tile has everywhere before them and after them, whether
/// it needs memory for its depths, and what they overwrite.
#[derive(Drop)]
pub(crate) struct Run {
    from: u32,
    to: u32,
    before: (Colour, u16),
    after: (Colour, u16),
    deep: bool,
    frames: AlikeFrames,
}

/// The same up to where they are known.
#[derive(Drop)]
pub(crate) struct Growing {
    to: u32,
    after: (Colour, u16),
    deep: bool,
    // how many events write nothing behind the last clear
    passed: u32,
    frames: Vec<AlikeFrame>,
}

impl Run {
    /// The clears from one position on, up to another at most, on tiles that have this colour and this depth everywhere.
    pub(crate) fn find(
        alloc: Global,
        table: &EventTable,
        from: u32,
        before: (Colour, u16),
        to: u32,
    ) -> Option<Run>
        requires order { from ≤ to }
        requires last { to ≤ length table.now.events }
        ensures run { IfSome result (IsRunOf table.now) }
        ensures from { IfSome result (λ run. run.from ≡ from) }
        ensures most { IfSome result (λ run. run.to ≤ to) }
    {
        let mut growing = Growing {
            to: from,
            after: before,
            deep: before.1 < u16::MAX,
            passed: 0,
            frames: Vec::new(alloc),
        };
        while growing.to < to {
            if !growing.goes_on(table) {
                break;
            }
        }
        if growing.frames.is_empty() {
            return None;
        }
        Some(Run {
            from,
            to: growing.to,
            before,
            after: growing.after,
            deep: growing.deep,
            frames: AlikeFrames::of(alloc, growing.frames).ok()?,
        })
    }

    /// Up to which position they are.
    pub(crate) fn to(&self) -> u32
        ensures { result ≡ self.now.to }
    {
        self.to
    }

    /// Whether they begin at a position, on tiles of this colour and this depth.
    pub(crate) fn begins(&self, from: u32, before: (Colour, u16)) -> bool
        ensures { result ≡ true → (self.now.from ≡ from) × (self.now.before ≡ before) }
    {
        self.from == from && self.before.1 == before.1 && self.before.0.is_same(before.0)
    }

    /// Takes a tile through them that isn't made, and its stack, which shares what they overwrite. It says whether it did: a stack that stores a frame stays as
    /// it is, and the tile with it.
    pub(crate) fn take(&self, tile: &mut Tile, undo: &mut UndoStack) -> bool
        requires unmade { tile.old.made ≡ false }
        requires rise { Rise (length undo.old.frames) (kept_alike tile.old.place self.now.frames) self.now.to }
        requires depths { self.now.deep ≡ false → self.now.after.1 ≡ 65535 }
        ensures deep { result ≡ true → IsDeepEnough tile.old self.now.deep tile.new.deep }
        ensures tile { result ≡ true → tile.new ≡ with_all tile.old self.now.after tile.new.deep }
        ensures undo { result ≡ true → undo.new ≡ with_alike undo.old tile.old.place self.now.frames self.now.to }
        ensures no { result ≡ false → (tile.new ≡ tile.old) × (undo.new ≡ undo.old) }
    {
        if !undo.share(&self.frames, tile.place(), self.to as usize) {
            return false;
        }
        if self.deep {
            // a tile that isn't made takes no memory for it
            let _deep = tile.deepen();
        }
        tile.fill_colours(self.after.0);
        tile.fill_depths(self.after.1);
        true
    }
}

impl Growing {
    /// Goes through the next event, if it is a clear or is seen to write nothing. It says whether it did.
    fn goes_on(&mut self, table: &EventTable) -> bool
        requires { self.old.to < length table.now.events }
        ensures on { result ≡ true → self.new.to ≡ self.old.to + 1 }
        ensures same { result ≡ false → self.new.to ≡ self.old.to }
        ensures grows { (from : ℕ) (before : Pixel) → Grows table.now from before self.old → Grows table.now from before self.new }
    {
        if self.passes(table) {
            return true;
        }
        self.clears(table)
    }

    /// Goes through the next event, if it is seen to write nothing, and not too many before it did.
    fn passes(&mut self, table: &EventTable) -> bool
        requires { self.old.to < length table.now.events }
        ensures on { result ≡ true → self.new.to ≡ self.old.to + 1 }
        ensures same { result ≡ false → self.new.to ≡ self.old.to }
        ensures grows { (from : ℕ) (before : Pixel) → Grows table.now from before self.old → Grows table.now from before self.new }
    {
        let number = number_past(table, self.to);
        if table.may_write(number) || self.passed >= MOST_PASSED {
            return false;
        }
        self.to = number;
        self.passed += 1;
        true
    }

    /// Goes through the next event, if it is a clear that is switched on, and there is memory for what it overwrites.
    fn clears(&mut self, table: &EventTable) -> bool
        requires { self.old.to < length table.now.events }
        ensures on { result ≡ true → self.new.to ≡ self.old.to + 1 }
        ensures same { result ≡ false → self.new.to ≡ self.old.to }
        ensures grows { (from : ℕ) (before : Pixel) → Grows table.now from before self.old → Grows table.now from before self.new }
    {
        let number = number_past(table, self.to);
        if !table.is_on(number) {
            return false;
        }
        match table.event(number).effect() {
            Effect::Clear(clear) => self.clear(clear),
            Effect::Draw(_) | Effect::State | Effect::Nothing => false,
        }
    }

    /// Goes through such a clear.
    fn clear(&mut self, clear: Clear) -> bool
        requires { self.old.to + 1 < 2 ^ 32 }
        ensures to { result ≡ true → self.new.to ≡ self.old.to + 1 }
        ensures after { result ≡ true → self.new.after ≡ cleared clear self.old.after }
        ensures deep { result ≡ true → self.old.deep ≡ true → self.new.deep ≡ true }
        ensures depths { result ≡ true → self.new.deep ≡ false → self.old.after.1 ≡ 65535 → self.new.after.1 ≡ 65535 }
        ensures frames { result ≡ true → self.new.frames.items
            ≡ self.old.frames.items ++ record { number = self.old.to; colour = self.old.after.0; depth = self.old.after.1 } ∷ [] }
        ensures same { result ≡ false → (self.new.to ≡ self.old.to) × (self.new.after ≡ self.old.after) × (self.new.deep ≡ self.old.deep)
            × (self.new.frames.items ≡ self.old.frames.items) }
    {
        let frame = AlikeFrame {
            number: self.to,
            colour: self.after.0,
            depth: self.after.1,
        };
        if fd_memory::push(&mut self.frames, frame).is_err() {
            return false;
        }
        match clear {
            Clear::Colours(colour) => self.after.0 = colour,
            Clear::Depths(depth) => {
                self.after.1 = depth;
                self.deep = self.deep || depth < u16::MAX;
            }
        }
        self.to += 1;
        self.passed = 0;
        true
    }
}
