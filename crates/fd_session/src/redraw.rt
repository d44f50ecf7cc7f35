//! A switch of an event that the owners of a frame have gone through. Tiles that the event can't reach are not drawn anew.
ghost use Rattle.std.specs.Prelude.{◌≡◌, ◌+◌, ◌<◌, ◌≤◌, false, length, All};
ghost use Rattle.fd_session.specs.Held.{Stands, StandsFrom, IsLeft};
ghost use Rattle.fd_session.specs.Moves.{forgets_by};
ghost use Rattle.fd_session.specs.Redraw.{IsTakenBefore};
ghost use Rattle.fd_session.specs.Switch.{HoldsSwitched, unswitched};
ghost use Rattle.fd_memory.specs.Wanting.{Wanted};

use crate::drive::Drive;
use crate::estimate::Area;
use crate::moves::go_forward;
use crate::switch::Switch;
use crate::way::Way;
use fd_crew::Free;
use fd_device::Untold;
use fd_events::EventTable;
use fd_owner::Owner;
use std::thread::Threads;

/// Draws anew what a switch can reach of an event that the owners have gone through, in the end all up to one position. Gives that position.
pub(crate) fn go_again<R: Threads + Sync>(
    rt: &R,
    owners: &mut [Owner],
    table: &EventTable,
    switch: &Switch,
    drive: &Drive<'_, Free>,
) -> u32
    requires stand { All (Stands false (unswitched table.now switch.now) switch.now.position) owners.old }
    requires number { (1 ≤ switch.now.number) × (switch.now.number ≤ switch.now.position) }
    requires within { switch.now.position ≤ length table.now.events }
    requires reach { HoldsSwitched table.now switch.now }
    requires workers { (1 ≤ drive.now.workers) × (drive.now.workers ≤ 64) }
    requires whole { forgets_by drive.now.policy ≡ false }
    ensures low { switch.now.number ≤ result + 1 }
    ensures high { result ≤ switch.now.position }
    ensures left { IsLeft (Stands false table.now result) owners.old owners.new }
    ensures wanted { result < switch.now.position → Wanted }
{
    let way = Way {
        table,
        from: take_all_before(owners, table, switch),
        to: switch.position,
        together: false,
        area: Area::round(table, switch.reach),
    };
    go_forward(rt, owners, &way, drive, &mut Untold).unwrap_or(way.from)
}

/// Takes an owner back before an event that was switched, but where its tile is the same as before.
fn take_before(owner: &mut Owner, table: &EventTable, switch: &Switch)
    requires number { (1 ≤ switch.now.number) × (switch.now.number ≤ switch.now.position) }
    requires reach { HoldsSwitched table.now switch.now }
    requires stood { Stands false (unswitched table.now switch.now) switch.now.position owner.old }
    ensures { IsTakenBefore table.now switch.now owner.old owner.new }
{
    if switch.spares(table, owner) {
        return;
    }
    owner.back_to(switch.number - 1);
}

/// Does so with all owners, and gives the lowest position at which one of them stands then.
fn take_all_before(owners: &mut [Owner], table: &EventTable, switch: &Switch) -> u32
    requires number { (1 ≤ switch.now.number) × (switch.now.number ≤ switch.now.position) }
    requires reach { HoldsSwitched table.now switch.now }
    requires stood { All (Stands false (unswitched table.now switch.now) switch.now.position) owners.old }
    ensures low { switch.now.number ≤ result + 1 }
    ensures high { result ≤ switch.now.position }
    ensures left { IsLeft (StandsFrom false false table.now result) owners.old owners.new }
{
    let mut lowest = switch.position;
    for owner in owners.iter_mut() {
        take_before(owner, table, switch);
        lowest = lowest.min(owner.position());
    }
    lowest
}
