ghost use Rattle.std.specs.Prelude.{◌≡◌, ◌≤◌, length, IfOk};

use crate::switch::Switch;
use crate::tests::frames::{blend, flat, grey};
use fd_blend::Factor;
use fd_events::{Event, EventTable};
use std::alloc::Global;
use std::process::Abort;
use std::test::Fail;

/// On a target of 96 by 96 pixels: additive blending, a draw in one corner and one in the middle, the same blending again, a draw towards another corner,
/// blending off, a clear, and a draw in the upper right. Each draw is of 8 by 8 pixels.
fn table(alloc: Global) -> Result<EventTable, Fail>
    ensures { IfOk result (λ table. length table.events ≡ 8) }
{
    let mut events = Vec::new(alloc);
    events.push(blend(true, Factor::One, Factor::One, 15)?)?;
    events.push(flat(alloc, [(0, 0), (8, 0), (0, 8)], grey(9))?)?;
    events.push(flat(alloc, [(40, 40), (48, 40), (40, 48)], grey(9))?)?;
    events.push(blend(true, Factor::One, Factor::One, 15)?)?;
    events.push(flat(alloc, [(70, 70), (78, 70), (70, 78)], grey(9))?)?;
    events.push(blend(false, Factor::One, Factor::Zero, 15)?)?;
    events.push(Event::Clear(grey(1)))?;
    events.push(flat(alloc, [(80, 0), (88, 0), (80, 8)], grey(9))?)?;
    Ok(EventTable::start(alloc, 3, 96, 96, events)?)
}

/// Switches an event, and checks the box of what that changes up to a position, by its left, top, right and bottom.
fn expect_reach(
    rt: &impl Abort,
    table: &mut EventTable,
    number: u32,
    position: u32,
    sides: (u32, u32, u32, u32),
)
    requires first { 1 ≤ number }
    requires last { number ≤ position }
    requires within { position ≤ length table.old.events }
    ensures { length table.new.events ≡ length table.old.events }
{
    let reach = Switch::make(table, number, !table.is_on(number), position).reach;
    let found = (reach.left, reach.top, reach.right, reach.bottom);
    assert_eq!(rt; found, sides, "event {number} at {position}");
}

#[test]
fn a_state_reaches_as_far_as_it_is_another_one(rt: HostRuntime) -> Result<(), Fail> {
    let mut table = table(rt.alloc())?;
    expect_reach(&rt, &mut table, 1, 1, (0, 0, 0, 0));
    expect_reach(&rt, &mut table, 1, 2, (0, 0, 8, 8));
    expect_reach(&rt, &mut table, 1, 3, (0, 0, 48, 48));
    expect_reach(&rt, &mut table, 1, 8, (0, 0, 48, 48));
    // the blending that is set again sets nothing, until the first is off
    expect_reach(&rt, &mut table, 4, 8, (0, 0, 0, 0));
    expect_reach(&rt, &mut table, 1, 8, (0, 0, 78, 78));
    expect_reach(&rt, &mut table, 4, 8, (70, 70, 78, 78));
    // a draw that is off is no part of it
    expect_reach(&rt, &mut table, 3, 8, (40, 40, 48, 48));
    expect_reach(&rt, &mut table, 1, 8, (0, 0, 8, 8));
    Ok(())
}

#[test]
fn a_clear_is_the_same_in_each_state(rt: HostRuntime) -> Result<(), Fail> {
    let mut table = table(rt.alloc())?;
    expect_reach(&rt, &mut table, 6, 7, (0, 0, 0, 0));
    expect_reach(&rt, &mut table, 6, 8, (80, 0, 88, 8));
    expect_reach(&rt, &mut table, 7, 8, (0, 0, 96, 96));
    expect_reach(&rt, &mut table, 8, 8, (80, 0, 88, 8));
    Ok(())
}
