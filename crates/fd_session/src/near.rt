//! Moves over events that reach few tiles. The owners of all other tiles stay where they stand, and are neither read nor written.
ghost use Rattle.std.specs.Prelude.{◌≡◌, ℕ, ◌-◌, ◌<◌, ◌≤◌, ◌⊎◌, All, IfSome, MatchResult, false, true, length};
ghost use Rattle.std.specs.Result.{result_unwrap_or};
ghost use Rattle.fd_tile.specs.declared.place.Place.{Place};
ghost use Rattle.fd_tile.specs.Place.{IsTilePlace};
ghost use Rattle.fd_tile.specs.Grid.{tile_count, place_of};
ghost use Rattle.fd_events.specs.Table.{Table};
ghost use Rattle.fd_memory.specs.Wanting.{Wanted};
ghost use Rattle.fd_owner.specs.Shown.{IsInside};
ghost use Rattle.fd_owner.specs.Untouched.{AreUntouched, Misses};
ghost use Rattle.fd_session.specs.Held.{Stands, IsLeft, places_of, first_places, size_of};
ghost use Rattle.fd_session.specs.Near.{StandsNear, IsBrought, IsTakenBack, Between};
ghost use Rattle.fd_session.specs.Moves.{Comes, forgets_by};

use crate::drive::Drive;
use crate::estimate::Area;
use crate::moves::go_forward;
use crate::way::Way;
use fd_cover::Bounds;
use fd_crew::Free;
use fd_device::Progress;
use fd_events::{Effect, EventTable, GROUP_LEN};
use fd_owner::Owner;
use std::alloc::AllocError;
use std::thread::Threads;

/// The most events of such a move back.
const MOST_EVENTS: u32 = 64;

/// The most that it may take: an event counts for each tile that it reaches once, and a draw once more for each group of its triangles.
const MOST_LOOKS: usize = 64;

/// Takes all owners to one position, at which the tile of each is as where it stands.
pub(crate) fn level(owners: &mut [Owner], table: &EventTable, to: u32)
    requires near { All (StandsNear table.now to) owners.old }
    requires within { to ≤ length table.now.events }
    ensures left { IsLeft (Stands false table.now to) owners.old owners.new }
{
    for owner in owners.iter_mut() {
        bring(owner, table, to);
    }
}

/// Takes owners back from one position to another. Over events that reach few tiles no other owner is taken.
pub(crate) fn take_back(owners: &mut [Owner], table: &EventTable, from: u32, to: u32)
    requires order { to ≤ from }
    requires within { from ≤ length table.now.events }
    requires places { places_of owners.old ≡ first_places (size_of table.now) (tile_count (size_of table.now)) }
    requires near { All (StandsNear table.now from) owners.old }
    ensures left { IsLeft (StandsNear table.now to) owners.old owners.new }
{
    if is_short(table, to, from) {
        take_events_back(owners, table, from, to);
    } else {
        take_all_back(owners, to);
    }
}

/// The owners that a move takes, by their numbers from `first` up to `past`, and the area in which they draw.
#[derive(Clone, Copy)]
struct Taken {
    first: usize,
    past: usize,
    area: Area,
}

/// Takes the owners of the tiles that the events of a way reach forward over it, as `go_forward` does. All others stay where they stand.
pub(crate) fn draw_reached<R: Threads + Sync, T: Progress>(
    rt: &R,
    owners: &mut [Owner],
    way: &Way<'_>,
    drive: &Drive<'_, Free>,
    teller: &mut T,
) -> Result<u32, AllocError>
    requires order { way.now.from ≤ way.now.to }
    requires within { way.now.to ≤ length way.now.table.now.events }
    requires together { way.now.together ≡ true }
    requires places { places_of owners.old ≡ first_places (size_of way.now.table.now) (tile_count (size_of way.now.table.now)) }
    requires near { All (StandsNear way.now.table.now way.now.from) owners.old }
    requires whole { forgets_by drive.now.policy ≡ false }
    requires workers { (1 ≤ drive.now.workers) × (drive.now.workers ≤ 64) }
    ensures comes { Comes (StandsNear way.now.table.now) way.now.from way.now.to (result_unwrap_or result way.now.from) owners.old owners.new }
    ensures wanted { MatchResult result (λ at. at < way.now.to → Wanted) (λ _. Wanted) }
    ensures told { T.kept teller.new ≡ T.kept teller.old }
{
    let Taken { first, past, area } = reached(way, owners.len());
    if first == past {
        return Ok(way.to);
    }
    let (_, above) = owners.split_at_mut(first);
    let (lanes, _) = above.split_at_mut(past - first);
    level(lanes, way.table, way.from);
    go_forward(rt, lanes, &Way { area, ..*way }, drive, teller)
}

/// Whether the events from one position up to another are few, and reach few tiles.
pub(crate) fn is_short(table: &EventTable, from: u32, to: u32) -> bool
    requires order { from ≤ to }
    requires within { to ≤ length table.now.events }
{
    if to - from > MOST_EVENTS {
        return false;
    }
    let mut left = MOST_LOOKS;
    for at in from..to {
        let looks = looks(table, at + 1);
        if looks > left {
            return false;
        }
        left -= looks;
    }
    true
}

/// Takes an owner to a position at which its tile is as where it stands.
fn bring(owner: &mut Owner, table: &EventTable, to: u32)
    requires near { StandsNear table.now to owner.old }
    requires within { to ≤ length table.now.events }
    ensures { IsBrought table.now to owner.old owner.new }
{
    let at = owner.position();
    if at < to {
        owner.pass_to(table, to);
    } else if at > to {
        owner.back_to(to);
    }
}

/// Takes an owner back to a position, if it stands above it.
fn retreat(owner: &mut Owner, to: u32)
    ensures { IsTakenBack to owner.old owner.new }
{
    if owner.position() > to {
        owner.back_to(to);
    }
}

/// Takes all owners back to a position, those that stand above it.
fn take_all_back(owners: &mut [Owner], to: u32)
    ensures near { (table : Table) (k : ℕ) → to ≤ k → All (StandsNear table k) owners.old → IsLeft (StandsNear table to) owners.old owners.new }
{
    for owner in owners.iter_mut() {
        retreat(owner, to);
    }
}

/// Takes the owners before number `past` back over the event of this number, of the tiles that it reaches.
fn take_event_back(owners: &mut [Owner], table: &EventTable, number: u32, past: usize)
    requires first { 1 ≤ number }
    requires last { number ≤ length table.now.events }
    requires places { places_of owners.old ≡ first_places (size_of table.now) (tile_count (size_of table.now)) }
    requires past { past ≤ length owners.old }
    requires stand { Between (StandsNear table.now number) (StandsNear table.now (number - 1)) 0 past owners.old }
    ensures left { IsLeft (StandsNear table.now (number - 1)) owners.old owners.new }
{
    let area = Area::round(table, table.reach(number));
    let mut from = 0;
    while let Some(n) = area.next_tile(from, past) {
        retreat(&mut owners[n], number - 1);
        from = n + 1;
    }
}

/// Takes owners back over the events from one position down to another, of the tiles that these reach.
fn take_events_back(owners: &mut [Owner], table: &EventTable, from: u32, to: u32)
    requires order { to ≤ from }
    requires within { from ≤ length table.now.events }
    requires places { places_of owners.old ≡ first_places (size_of table.now) (tile_count (size_of table.now)) }
    requires near { All (StandsNear table.now from) owners.old }
    ensures left { IsLeft (StandsNear table.now to) owners.old owners.new }
{
    let mut at = from;
    while at > to {
        take_event_back(owners, table, at, owners.len());
        at -= 1;
    }
}

/// How often an event makes a tile look at it and at what it draws.
fn looks(table: &EventTable, number: u32) -> usize
    requires first { 1 ≤ number }
    requires last { number ≤ length table.now.events }
{
    let each = match table.event(number).effect() {
        Effect::Draw(draw) => 1 + draw.triangles() / GROUP_LEN,
        Effect::Clear(_) | Effect::State | Effect::Nothing => 1,
    };
    Area::round(table, table.reach(number))
        .tiles
        .saturating_mul(each as usize)
}

/// A box round the pixels that the events from one position up to another reach. None where they reach as many as the target has.
fn reach_between(table: &EventTable, from: u32, to: u32) -> Option<Bounds>
    requires order { from ≤ to }
    requires within { to ≤ length table.now.events }
    ensures { IfSome result (λ bounds. (place : Place) → IsTilePlace place → IsInside place table.now → Misses bounds place
        → AreUntouched table.now from to place) }
{
    let all = Area::of(table).bounds.count();
    let mut bounds = Bounds::empty();
    for at in from..to {
        bounds = bounds.join(table.reach(at + 1));
        if bounds.count() >= all {
            return None;
        }
    }
    Some(bounds)
}

/// The owners, of so many, whose tiles the events of a way may reach.
fn reached(way: &Way<'_>, count: usize) -> Taken
    requires order { way.now.from ≤ way.now.to }
    requires within { way.now.to ≤ length way.now.table.now.events }
    ensures order { (result.first ≤ result.past) × (result.past ≤ count) }
    ensures untouched { (n : ℕ) → n < count → n < tile_count (size_of way.now.table.now) → (n < result.first) ⊎ (result.past ≤ n)
        → IsInside (place_of (size_of way.now.table.now) n) way.now.table.now
        → AreUntouched way.now.table.now way.now.from way.now.to (place_of (size_of way.now.table.now) n) }
{
    let Way {
        table,
        from,
        to,
        ..
    } = *way;
    let Some(bounds) = reach_between(table, from, to) else {
        return Taken {
            first: 0,
            past: count,
            area: way.area,
        };
    };
    let area = Area::round(table, bounds);
    match area.next_tile(0, count) {
        Some(first) => Taken {
            first,
            past: area.past_tile().clamp(first, count),
            area: Area {
                skipped: first,
                ..area
            },
        },
        None => Taken {
            first: 0,
            past: 0,
            area,
        },
    }
}
