use super::Store;
use crate::room::Room;
use std::process::Abort;
use std::test::Fail;

/// Where there is no memory for what is wanted, the first block and a later one have just the room that is needed.
#[test]
fn a_smaller_block_will_do(rt: HostRuntime) -> Result<(), Fail> {
    let mut store = Store::empty();
    for number in 0..2 {
        let needed = Room::needed(1, 3);
        let wanted = Room {
            colours: usize::MAX,
            ..needed
        };
        store.open_another(rt.alloc(), needed, wanted)?;
        assert!(rt; store.takes(Room::needed(1, 3)));
        assert!(rt; !store.takes(Room::needed(1, 4)));
        store.begin(number);
        assert_eq!(rt; store.held().frames, 1);
    }
    Ok(())
}
