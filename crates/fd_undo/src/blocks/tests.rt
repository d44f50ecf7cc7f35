use super::Blocks;
use crate::block::Block;
use crate::room::Room;
use std::alloc::Global;
use std::process::Abort;
use std::test::Fail;

/// A block with room for a frame of so many pixels.
fn block(alloc: Global, pixels: usize) -> Result<Block, Fail> {
    Ok(Block::with_room(alloc, Room::needed(1, pixels))?)
}

/// Blocks with room for 64, 128 and 300 pixels, all of whose frames are dropped with those of a last one, which has room for so many; and that one.
fn dropped(alloc: Global, newest: usize) -> Result<(Blocks, Block), Fail> {
    let mut blocks = Blocks::new(alloc);
    for pixels in [64, 128, 300] {
        blocks.make_room()?;
        blocks.push(block(alloc, pixels)?);
    }
    let mut last = block(alloc, newest)?;
    blocks.drop_all(&mut last);
    Ok((blocks, last))
}

/// Takes the next block from before, which has room for just so many pixels, and puts the last one behind the others.
fn take_up(
    rt: &impl Abort,
    blocks: &mut Blocks,
    last: Block,
    pixels: usize,
) -> Result<Block, Fail> {
    let Some(spare) = blocks.take_spare(Room::needed(1, pixels)) else {
        return Err("a block from before".into());
    };
    assert_eq!(*rt; spare.room(), pixels);
    blocks.make_room()?;
    blocks.push(last);
    Ok(spare)
}

#[test]
fn half_of_the_room_stays(rt: HostRuntime) -> Result<(), Fail> {
    let (mut blocks, last) = dropped(rt.alloc(), 492)?;
    assert_eq!(rt; last.room(), 64);
    let last = take_up(&rt, &mut blocks, last, 128)?;
    let last = take_up(&rt, &mut blocks, last, 300)?;
    assert!(rt; blocks.take_spare(Room::needed(1, 1)).is_none());
    assert_eq!(rt; (blocks.as_slice().len(), last.room()), (2, 300));
    Ok(())
}

#[test]
fn no_more_than_half_of_the_room_stays(rt: HostRuntime) -> Result<(), Fail> {
    let (mut blocks, last) = dropped(rt.alloc(), 490)?;
    let _last = take_up(&rt, &mut blocks, last, 128)?;
    assert!(rt; blocks.take_spare(Room::needed(1, 1)).is_none());
    Ok(())
}

/// What has too little room is given back.
#[test]
fn a_block_from_before_has_room(rt: HostRuntime) -> Result<(), Fail> {
    let (mut blocks, _) = dropped(rt.alloc(), 492)?;
    assert!(rt; blocks.take_spare(Room::needed(1, 129)).is_none());
    assert!(rt; blocks.take_spare(Room::needed(1, 1)).is_none());
    Ok(())
}

/// A list without blocks takes no memory, also where it had some.
#[test]
fn seats_go_with_the_last_block(rt: HostRuntime) -> Result<(), Fail> {
    let mut blocks = Blocks::new(rt.alloc());
    assert_eq!(rt; blocks.seats.capacity(), 0);
    blocks.make_room()?;
    blocks.push(block(rt.alloc(), 64)?);
    assert!(rt; blocks.pop().is_some());
    assert!(rt; blocks.seats.capacity() > 0);
    assert!(rt; blocks.pop().is_none());
    assert_eq!(rt; blocks.seats.capacity(), 0);
    Ok(())
}
