use crate::{Pos, Snapped, snap};
use std::test::Fail;

#[test]
fn snapping_ties_go_to_even(rt: HostRuntime) -> Result<(), Fail> {
    for (coordinate, expected) in [
        (128, 0),
        (384, 2),
        (-128, 0),
        (-384, -2),
        (127, 0),
        (129, 1),
        (536870912, 2097152),
        (-536870912, -2097152),
    ] {
        let position = Pos::new(coordinate, -coordinate).ok_or("in range")?;
        assert_eq!(rt; snap(position).x(), expected);
        assert_eq!(rt; snap(position).y(), -expected);
    }
    Ok(())
}

#[test]
fn snapping_at_the_larger_limits(rt: HostRuntime) -> Result<(), Fail> {
    for (coordinate, expected) in [
        (1073741824, 4194304),
        (1073741696, 4194304),
        (1073741695, 4194303),
        (-1073741824, -4194304),
        (-1073741696, -4194304),
        (-1073741695, -4194303),
    ] {
        let position = Pos::new(coordinate, -coordinate).ok_or("in range")?;
        assert_eq!(rt; snap(position).x(), expected);
        assert_eq!(rt; snap(position).y(), -expected);
    }
    Ok(())
}

#[test]
fn coordinates_past_the_limits_are_refused(rt: HostRuntime) -> Result<(), Fail> {
    for (limit, past) in [(1073741824, 1073741825), (-1073741824, -1073741825)] {
        let corner = Pos::new(limit, limit).ok_or("in range")?;
        assert_eq!(rt; corner.x(), limit);
        assert_eq!(rt; corner.y(), limit);
        assert_eq!(rt; Pos::new(past, 0), None);
        assert_eq!(rt; Pos::new(0, past), None);
    }
    for (limit, past) in [(4194304, 4194305), (-4194304, -4194305)] {
        let corner = Snapped::new(limit, limit).ok_or("in range")?;
        assert_eq!(rt; corner.x(), limit);
        assert_eq!(rt; corner.y(), limit);
        assert_eq!(rt; Snapped::new(past, 0), None);
        assert_eq!(rt; Snapped::new(0, past), None);
    }
    Ok(())
}
