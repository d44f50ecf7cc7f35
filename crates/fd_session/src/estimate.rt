//! An estimate of the work of events on the tiles of an area, by rows of tiles. What is drawn does not depend on it.
ghost use Rattle.std.specs.Prelude.{◌≡◌, ℕ, ◌+◌, ◌-◌, ◌/◌, ◌^◌, ◌<◌, ◌≤◌, length, IfSome};
ghost use Rattle.fd_tile.specs.Grid.{TargetSize, columns_of, place_of};
ghost use Rattle.fd_events.specs.Table.{IsTable};
ghost use Rattle.fd_owner.specs.Untouched.{Misses};
ghost use Rattle.fd_session.specs.Held.{size_of};
ghost use Rattle.fd_session.specs.Near.{IsBefore};

use arrayvec::ArrayVec;
use fd_cover::{Bounds, Func};
use fd_crew::MOST_WORKERS;
use fd_events::{Clear, Draw, Effect, EventTable, GROUP_LEN, Pipeline};
use fd_snap::MAX_SIDE;
use fd_tile::TILE_SIDE;

/// The work of writing a pixel and keeping what it was, in nanoseconds. This and what follows is what `make bench` has measured.
const PIXEL_WORK: usize = 4;

/// The work of looking for a draw's triangles on one tile, in nanoseconds.
const LOOK_WORK: usize = 45;

/// The work of a triangle on one tile beside its pixels, in nanoseconds.
const TRIANGLE_WORK: usize = 450;

/// The work of passing over a triangle that lies beside the tile, in nanoseconds.
const PASSED_WORK: usize = 60;

/// The work of a clear on a tile that is known to be alike, in nanoseconds.
const ALIKE_WORK: usize = 100;

/// The same of clears behind the first one of a tile, before anything is drawn: what they overwrite is kept once for all tiles.
const SHARED_WORK: usize = 1;

/// The work of passing over a draw on a tile, where its state lets it draw nothing, in nanoseconds.
const IDLE_WORK: usize = 10;

/// So many events before a slice are asked whether its tiles are alike.
const LOOKED_BACK: u32 = 64;

/// The most rows of tiles that there are.
const MOST_ROWS: usize = (MAX_SIDE / TILE_SIDE) as usize;

/// The most workers that there are.
const MOST_FIRSTS: usize = MOST_WORKERS as usize;

/// The number of the tile at which each worker begins, or of none where that does not matter.
pub(crate) type Firsts = ArrayVec<usize, MOST_FIRSTS>;

/// The tiles of a target on which a move draws, and a box round what it draws.
#[derive(Clone, Copy, Debug)]
pub(crate) struct Area {
    pub tiles: usize,
    /// How many tiles of the target come before the first that is to be shared out.
    pub skipped: usize,
    /// The tiles of a row of the whole target.
    pub columns: usize,
    pub bounds: Bounds,
}

impl Area {
    /// The whole target.
    pub(crate) fn of(table: &EventTable) -> Area {
        let whole = Bounds {
            left: 0,
            top: 0,
            right: table.width(),
            bottom: table.height(),
        };
        Area::round(table, whole)
    }

    /// Where a box lies.
    pub(crate) fn round(table: &EventTable, bounds: Bounds) -> Area
        ensures columns { result.columns ≡ columns_of (size_of table.now) }
        ensures bounds { result.bounds ≡ bounds }
        ensures valid { IsTable table.now }
    {
        let across = tiles_between(bounds.left, bounds.right);
        let down = tiles_between(bounds.top, bounds.bottom);
        Area {
            tiles: across * down,
            skipped: 0,
            columns: tiles_between(0, table.width()),
            bounds,
        }
    }

    /// The first tile of the target that the box may meet, of those from one number up to another.
    pub(crate) fn next_tile(&self, from: usize, past: usize) -> Option<usize>
        requires columns { (1 ≤ self.now.columns) × (self.now.columns ≤ 134217728) }
        requires low { from < 2 ^ 63 }
        ensures within { IfSome result (λ n. (from ≤ n) × (n < past)) }
        ensures missed { (size : TargetSize) (n : ℕ) → self.now.columns ≡ columns_of size → from ≤ n → n < past → IsBefore n result
            → Misses self.now.bounds (place_of size n) }
    {
        let Area {
            columns,
            bounds,
            ..
        } = *self;
        let left = (bounds.left / TILE_SIDE) as usize;
        let right = bounds.right.div_ceil(TILE_SIDE) as usize;
        let top = (bounds.top / TILE_SIDE) as usize;
        let bottom = bounds.bottom.div_ceil(TILE_SIDE) as usize;
        let from = from.max(top * columns);
        let row = from - from % columns;
        let column = (from % columns).max(left);
        let found = if column < right {
            row + column
        } else {
            row + columns + left
        };
        if left < right && found < past.min(bottom * columns) {
            Some(found)
        } else {
            None
        }
    }

    /// One past the last tile of the target that the box may meet.
    pub(crate) fn past_tile(&self) -> usize
        requires columns { (1 ≤ self.now.columns) × (self.now.columns ≤ 134217728) }
        ensures missed { (size : TargetSize) (n : ℕ) → self.now.columns ≡ columns_of size → result ≤ n → Misses self.now.bounds (place_of size n) }
    {
        let right = self.bounds.right.div_ceil(TILE_SIDE) as usize;
        let bottom = self.bounds.bottom.div_ceil(TILE_SIDE) as usize;
        bottom.saturating_sub(1) * self.columns + right
    }
}

/// What some events do first.
#[derive(Clone, Copy)]
enum Opening {
    /// They write nothing.
    Nothing,
    /// They clear, and draw nothing.
    Clears,
    /// They clear or draw, and more follows.
    Past,
}

/// Whether all tiles are known to be of one colour, and of one depth, and what the events before did first.
#[derive(Clone, Copy)]
struct Alike {
    colours: bool,
    depths: bool,
    opening: Opening,
}

impl Opening {
    /// Past a clear.
    fn cleared(self) -> Opening {
        match self {
            Opening::Nothing | Opening::Clears => Opening::Clears,
            Opening::Past => Opening::Past,
        }
    }
}

impl Alike {
    /// Past the first events up to a position, as far as the last of them tell.
    fn at(table: &EventTable, position: u32) -> Alike
        requires { position ≤ length table.now.events }
    {
        let first = position.saturating_sub(LOOKED_BACK);
        let mut alike = Alike {
            colours: first == 0,
            depths: first == 0 || !has_depths(table),
            opening: if first == 0 {
                Opening::Nothing
            } else {
                Opening::Past
            },
        };
        for at in first..position {
            alike = alike.past(table, at + 1);
        }
        alike.opened()
    }

    /// At the beginning of a slice: clears before it are kept, and later ones not with them.
    fn opened(self) -> Alike {
        match self.opening {
            Opening::Nothing => self,
            Opening::Clears | Opening::Past => Alike {
                opening: Opening::Past,
                ..self
            },
        }
    }

    /// Past the event of this number too. A draw is taken to reach them all.
    fn past(self, table: &EventTable, number: u32) -> Alike
        requires first { 1 ≤ number }
        requires last { number ≤ length table.now.events }
    {
        if !table.is_on(number) {
            return self;
        }
        match table.event(number).effect() {
            Effect::Clear(Clear::Colours(_)) => Alike {
                colours: true,
                opening: self.opening.cleared(),
                ..self
            },
            Effect::Clear(Clear::Depths(_)) => Alike {
                depths: true,
                opening: self.opening.cleared(),
                ..self
            },
            Effect::Draw(_) => Alike {
                colours: false,
                depths: self.depths && !has_depths(table),
                opening: Opening::Past,
            },
            Effect::State | Effect::Nothing => self,
        }
    }

    /// The work of one more clear on a tile, in nanoseconds, where they are.
    fn clear_work(self) -> usize {
        match self.opening {
            Opening::Clears => SHARED_WORK,
            Opening::Nothing | Opening::Past => ALIKE_WORK,
        }
    }

    /// Whether they are.
    fn is_both(self) -> bool {
        self.colours && self.depths
    }
}

/// Whether events of a table may write depths.
fn has_depths(table: &EventTable) -> bool {
    table.version() > 1
}

/// What some events take on the tiles of an area, in nanoseconds.
#[derive(Clone, Copy)]
pub(crate) struct Estimate<'a> {
    area: &'a Area,
    alike: Alike,
    work: usize,
    // what of the work lies in each row of tiles
    rows: [usize; MOST_ROWS],
}

impl<'a> Estimate<'a> {
    /// Of no event past a position.
    pub(crate) fn of(area: &'a Area, table: &EventTable, position: u32) -> Estimate<'a>
        requires { position ≤ length table.now.events }
    {
        Estimate {
            area,
            alike: Alike::at(table, position),
            work: 0,
            rows: [0; MOST_ROWS],
        }
    }

    /// All of it together.
    pub(crate) fn work(&self) -> usize {
        self.work
    }

    /// Adds work that lies in a box, as much in each row of tiles.
    fn add(&mut self, reached: &Bounds, work: usize) {
        self.work = self.work.saturating_add(work);
        let first = (reached.top / TILE_SIDE) as usize;
        let past = reached.bottom.div_ceil(TILE_SIDE) as usize;
        let each = work / past.saturating_sub(first).max(1);
        for row in self.rows.get_mut(first..past).unwrap_or_default() {
            *row = row.saturating_add(each);
        }
    }

    /// Adds the work of the pixels of a box, and of so much more for each tile's worth of them.
    fn add_pixels(&mut self, bounds: Bounds, of_a_tile: usize) {
        let reached = self.area.bounds.meet(bounds);
        let pixels = reached.count();
        let written = pixels.saturating_mul(PIXEL_WORK);
        let work = tiles_of(pixels).saturating_mul(of_a_tile);
        self.add(&reached, work.saturating_add(written));
    }

    /// Adds a draw. Its triangles are looked at one by one where they are no more for each tile than a group has, so that to estimate the work takes little
    /// beside it; else each group is, as if none of its triangles lay over another.
    fn add_draw(&mut self, draw: &Draw) {
        let groups = draw.triangles().div_ceil(GROUP_LEN);
        if groups as usize <= self.area.tiles {
            for triangle in 0..draw.triangles() {
                self.add_pixels(draw.clip(draw.triangle_bounds(triangle)), TRIANGLE_WORK);
            }
        } else {
            for group in 0..groups {
                self.add_pixels(
                    draw.clip(draw.group_bounds(group)),
                    GROUP_LEN as usize * PASSED_WORK,
                );
            }
        }
    }

    /// The work of writing every pixel that the event of this number reaches once.
    pub(crate) fn reached_work(&self, table: &EventTable, number: u32) -> usize
        requires first { 1 ≤ number }
        requires last { number ≤ length table.now.events }
    {
        let reached = self.area.bounds.meet(table.reach(number));
        reached.count().saturating_mul(PIXEL_WORK)
    }

    /// Adds the event of this number, the next one. A tile that it doesn't reach doesn't look at it, so it takes nothing there.
    pub(crate) fn add_event(&mut self, table: &EventTable, number: u32)
        requires first { 1 ≤ number }
        requires last { number ≤ length table.now.events }
    {
        let reached = self.area.bounds.meet(table.reach(number));
        let pixels = reached.count();
        if pixels > 0 && table.is_on(number) {
            self.add_reached(table, number, &reached);
        }
        self.alike = self.alike.past(table, number);
    }

    /// Adds the event of this number, which is switched on, where it reaches these pixels of the area.
    fn add_reached(&mut self, table: &EventTable, number: u32, reached: &Bounds)
        requires first { 1 ≤ number }
        requires last { number ≤ length table.now.events }
    {
        let pixels = reached.count();
        let tiles = tiles_of(pixels);
        match table.event(number).effect() {
            Effect::Draw(draw) if is_undrawn(draw, table.state_before(number)) => {
                self.add(reached, tiles.saturating_mul(IDLE_WORK));
            }
            Effect::Draw(draw) => {
                self.add(reached, tiles.saturating_mul(LOOK_WORK));
                self.add_draw(draw);
            }
            Effect::Clear(_) if self.alike.is_both() => {
                self.add(reached, tiles.saturating_mul(self.alike.clear_work()));
            }
            Effect::Clear(_) | Effect::State | Effect::Nothing => {
                self.add(reached, pixels.saturating_mul(PIXEL_WORK));
            }
        }
    }

    /// The tile, of those that are shared out, in whose work there is as much as this before it.
    fn tile_behind(&self, work: usize) -> usize {
        let Area {
            columns,
            bounds,
            skipped,
            ..
        } = *self.area;
        let across = tiles_between(bounds.left, bounds.right);
        let first = (bounds.top / TILE_SIDE) as usize;
        let past = bounds.bottom.div_ceil(TILE_SIDE) as usize;
        let mut left = work;
        for (row, here) in self.rows.iter().enumerate().take(past).skip(first) {
            if left < *here {
                let column = left.saturating_mul(across) / *here;
                return row
                    .saturating_mul(columns)
                    .saturating_add((bounds.left / TILE_SIDE) as usize)
                    .saturating_add(column)
                    .saturating_sub(skipped);
            }
            left -= *here;
        }
        columns.saturating_mul(past).saturating_sub(skipped)
    }

    /// Where so many workers begin, each of whom has then about as much work as any other.
    pub(crate) fn firsts(&self, workers: u32) -> Firsts
        requires some { 1 ≤ workers }
    {
        let each = self.work / workers as usize;
        let mut firsts = ArrayVec::new();
        for worker in 0..workers {
            let tile = self.tile_behind(each.saturating_mul(worker as usize));
            if firsts.try_push(tile).is_err() {
                break;
            }
        }
        firsts
    }
}

/// Whether a state is seen to let a draw draw nothing, on whatever tile.
fn is_undrawn(draw: &Draw, state: &Pipeline) -> bool {
    let Pipeline {
        raster,
        scissor,
        depth,
        ..
    } = state;
    let shut = raster.scissor && (scissor.right <= scissor.left || scissor.bottom <= scissor.top);
    shut || draw.is_culled(raster) || (depth.enable && matches!(depth.func, Func::Never))
}

/// How many tiles lie between two edges, the first and the last of them perhaps in part.
fn tiles_between(first: u32, past: u32) -> usize
    ensures value { result ≡ (past + 31) / 32 - first / 32 }
    ensures most { result ≤ 134217728 }
{
    past.div_ceil(TILE_SIDE).saturating_sub(first / TILE_SIDE) as usize
}

/// How many tiles so many pixels fill.
fn tiles_of(pixels: usize) -> usize {
    pixels.div_ceil((TILE_SIDE * TILE_SIDE) as usize)
}
