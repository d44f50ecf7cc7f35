//! The history of a pixel.
ghost use Rattle.std.specs.Prelude.{◌≡◌, ◌<◌, ◌≤◌, ◌+◌, ◌-◌, ◌*◌, length, IfOk, OnErr, OnOk};
ghost use Rattle.fd_tile.specs.Place.{Holds};
ghost use Rattle.fd_events.specs.Limits.{most_triangles};
ghost use Rattle.fd_events.specs.Image.{stored_at};
ghost use Rattle.fd_events.specs.Table.{active_event, state_at};
ghost use Rattle.fd_owner.specs.History.{position, drawn_history};
ghost use Rattle.fd_owner.specs.Shown.{IsInside};
ghost use Rattle.fd_owner.specs.Untouched.{IsUnchanged, IsUntouched};
ghost use Rattle.fd_history.specs.Gathered.{past_number};
ghost use Rattle.fd_history.specs.History.{history_at};
ghost use Rattle.fd_history.specs.Settled.{overwritten_past};
ghost use Rattle.fd_memory.specs.Wanting.{Wanted};

use crate::entry::Entry;
use crate::gather::{Gather, pixel_at};
use crate::settle::{count_drawn, settle};
use fd_blend::Colour;
use fd_events::EventTable;
use fd_owner::Owner;
use std::alloc::{AllocError, Global};

/// What the switched-on events up to an owner's position did to a pixel of its tile. Nothing is drawn: the colours are those that the
/// owner kept, and the one that it shows; the depths follow from one entry to the next. The owner's history has to be the one that the table's events give a
/// fresh tile. A clear of either kind has one entry, and a draw at most one for each triangle. An event that the table's index tells to be far from the pixel
/// isn't looked at.
pub fn history(
    alloc: Global,
    table: &EventTable,
    owner: &Owner,
    x: u32,
    y: u32,
) -> Result<Vec<Entry>, AllocError>
    requires pixel { Holds owner.now.place x y }
    requires inside { IsInside owner.now.place table.now }
    requires follows { owner.now.history ≡ drawn_history table.now owner.now.place (position owner.now.history) }
    requires within { position owner.now.history ≤ length table.now.events }
    ensures exact { IfOk result (λ entries. entries.items ≡ history_at table.now (position owner.now.history) x y) }
    ensures few { IfOk result (λ entries. length entries.items ≤ most_triangles * position owner.now.history) }
    ensures wanted { OnErr result Wanted }
{
    history_near(alloc, table, owner, owner.position(), (x, y))
}

/// The same up to a position at which the owner's tile is as where the owner stands.
pub fn history_near(
    alloc: Global,
    table: &EventTable,
    owner: &Owner,
    to: u32,
    pixel: (u32, u32),
) -> Result<Vec<Entry>, AllocError>
    requires pixel { Holds owner.now.place pixel.0 pixel.1 }
    requires inside { IsInside owner.now.place table.now }
    requires follows { owner.now.history ≡ drawn_history table.now owner.now.place (position owner.now.history) }
    requires within { to ≤ length table.now.events }
    requires alike { IsUnchanged table.now (position owner.now.history) to owner.now.place }
    ensures exact { IfOk result (λ entries. entries.items ≡ history_at table.now to pixel.0 pixel.1) }
    ensures few { IfOk result (λ entries. length entries.items ≤ most_triangles * to) }
    ensures wanted { OnErr result Wanted }
{
    let _place = owner.place();
    let (x, y) = pixel;
    let mut gather = Gather {
        x,
        y,
        depth: 65535,
        entries: Vec::new(alloc),
    };
    let mut pixels = Vec::new(alloc);
    let window = pixel_at(x, y);
    let mut passed = table.next_over(0, to, window);
    while passed < to {
        pass_number(&mut gather, &mut pixels, table, owner, passed + 1)?;
        passed = table.next_over(passed + 1, to, window);
    }
    let shown = (owner.pixel(x, y), owner.depth(x, y));
    fd_memory::push(&mut pixels, shown)?;
    settle(&mut gather.entries, &pixels);
    Ok(gather.entries)
}

/// Gathers what the event of this number did to the pixel, if it is switched on, and what it overwrote.
fn pass_number(
    gather: &mut Gather,
    kept: &mut Vec<(Colour, u16)>,
    table: &EventTable,
    owner: &Owner,
    number: u32,
) -> Result<(), AllocError>
    requires first { 1 ≤ number }
    requires last { number ≤ length table.now.events }
    requires untouched { position owner.now.history < number → IsUntouched table.now (number - 1) owner.now.place }
    requires pixel { Holds owner.now.place gather.old.x gather.old.y }
    requires depth { gather.old.depth ≡ stored_at table.now (number - 1) gather.old.x gather.old.y }
    requires follows { owner.now.history ≡ drawn_history table.now owner.now.place (position owner.now.history) }
    ensures entries { OnOk result (gather.new ≡ past_number number (active_event table.now number) (state_at table.now (number - 1)) gather.old) }
    ensures kept { OnOk result (kept.new.items ≡ overwritten_past table.now (number - 1) gather.old.x gather.old.y kept.old.items) }
    ensures few { OnOk result (length gather.new.entries ≤ length gather.old.entries + most_triangles) }
    ensures wanted { OnErr result Wanted }
{
    if !table.is_on(number) {
        return Ok(());
    }
    let event = table.event(number);
    let before = gather.entries.len();
    gather.pass(number, event, table.state_before(number))?;
    if number > owner.position() {
        return Ok(());
    }
    let drawn = count_drawn(&gather.entries[before..]);
    owner.add_kept(number, (gather.x, gather.y), drawn, kept)
}
