use crate::tests::frames::{Teller, drawn_clears, grey};
use crate::{Answer, SessionFault, Shows, Still};
use fd_events::EventTable;
use std::test::Fail;

/// How many pixels all owners keep.
fn recorded(still: &Still) -> u64 {
    let mut count: u64 = 0;
    for owner in &still.frame.owners {
        count = count.saturating_add(owner.recorded());
    }
    count
}

/// With one worker a slice of a still takes 10 ms by estimate, which are 10 of these clears.
#[test]
fn a_still_keeps_nothing(rt: HostRuntime) -> Result<(), Fail> {
    let table = EventTable::start(rt.alloc(), 3, 512, 512, drawn_clears(rt.alloc(), 40)?)?;
    let Ok(mut still) = Still::start(rt.alloc(), table, 1) else {
        return Err(Fail::from("memory"));
    };
    let mut teller = Teller::default();
    assert!(rt; still.position() <= 80);
    assert_eq!(rt; still.go(&rt, 80, &mut teller), Answer::Moved { at: 80 });
    assert_eq!(rt; (teller.times, teller.at, teller.to), (3, 60, 80));
    assert_eq!(rt; still.position(), 80);
    assert_eq!(rt; recorded(&still), 0);
    assert!(rt; still.table().width() == 512);
    assert!(rt; still.table().height() == 512);
    assert_eq!(rt; still.row_from(511, 511).as_slice(), [grey(40)].as_slice());
    assert!(rt; still.position() <= 80);
    assert_eq!(rt; still.go(&rt, 80, &mut teller), Answer::Moved { at: 80 });
    assert!(rt; still.position() <= 81);
    let refused = Answer::Refused(SessionFault::NoSuchPosition);
    assert_eq!(rt; still.go(&rt, 81, &mut teller), refused);
    assert_eq!(rt; teller.times, 3);
    Ok(())
}
