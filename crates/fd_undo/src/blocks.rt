//! The full blocks of a stack.
ghost use Rattle.std.specs.Prelude.{◌≡◌, ℕ, ◌+◌, ◌<◌, ◌≤◌, [], ◌∷◌, ◌++◌, length, take, None, IfSome, OnOk, OnErr};
ghost use Rattle.fd_undo.specs.Room.{IsWithin, left_in};
ghost use Rattle.fd_memory.specs.Wanting.{Wanted};

use crate::block::Block;
use crate::room::Room;
use fd_memory::one_more;
use std::alloc::{AllocError, Global};
use std::marker::Model;
use std::mem;

/// Full blocks, oldest first.
///
/// Each block of a stack has a seat, the full ones the first, and the one that is being filled the next, which is empty meanwhile. Behind it stand
/// blocks from an earlier way forward, which are filled once more before memory is asked for.
#[derive(Drop)]
pub(crate) struct Blocks {
    alloc: Global,
    seats: Vec<Block>,
    count: usize,
}

impl Model for Blocks {
    ghost use Rattle.std.specs.Prelude.{◌≤◌, ◌-◌, length, take, vec_capacity};
    ghost use Rattle.fd_undo.specs.Block.{Full};

    ghost Value = { Full };

    ghost view = { λ b. record { items = take b.count b.seats.items; room = vec_capacity b.seats - b.count } };

    ghost invariant = { λ b. b.count ≤ length b.seats.items };
}

impl Blocks {
    /// No blocks, which takes no memory.
    pub(crate) fn new(alloc: Global) -> Blocks
        ensures { result.items ≡ [] }
    {
        Blocks {
            alloc,
            seats: Vec::new(alloc),
            count: 0,
        }
    }

    /// The blocks, oldest first.
    pub(crate) fn as_slice(&self) -> &[Block]
        ensures { result.now ≡ self.now.items }
    {
        &self.seats[..self.count]
    }

    /// Makes room for a block more.
    pub(crate) fn make_room(&mut self) -> Result<(), AllocError>
        ensures same { self.new.items ≡ self.old.items }
        ensures room { OnOk result (0 < self.new.room) }
        ensures wanted { OnErr result Wanted }
    {
        if self.count < self.seats.len() {
            return Ok(());
        }
        one_more(&mut self.seats)
    }

    /// A block more, the newest.
    pub(crate) fn push(&mut self, block: Block)
        requires { 0 < self.old.room }
        ensures { self.new.items ≡ self.old.items ++ block ∷ [] }
    {
        if self.count < self.seats.len() {
            self.seats[self.count] = block;
        } else {
            self.seats.push_reserved(block);
        }
        self.count += 1;
    }

    /// Takes the newest block off. Where there is none, the memory of all seats goes back.
    pub(crate) fn pop(&mut self) -> Option<Block>
        ensures some { IfSome result (λ block. self.old.items ≡ self.new.items ++ block ∷ []) }
        ensures none { result ≡ None → (self.old.items ≡ []) × (self.new.items ≡ []) }
    {
        if self.count == 0 {
            *self = Blocks::new(self.alloc);
            return None;
        }
        self.count -= 1;
        Some(take_from(self.alloc, &mut self.seats, self.count))
    }

    /// The next block from an earlier way forward, without frames, if it has room for a frame that needs so much.
    pub(crate) fn take_spare(&mut self, needed: Room) -> Option<Block>
        requires one { needed.frames ≡ 1 }
        ensures same { self.new.items ≡ self.old.items }
        ensures frames { IfSome result (λ block. block.frames ≡ []) }
        ensures room { IfSome result (λ block. IsWithin needed (left_in block)) }
    {
        let seat = self.count + 1;
        if seat >= self.seats.len() {
            return None;
        }
        let mut spare = take_from(self.alloc, &mut self.seats, seat);
        spare.drop_all();
        if spare.takes(needed) {
            Some(spare)
        } else {
            None
        }
    }

    /// Drops all frames of a stack whose last block is this one. Its oldest blocks stay, to be filled once more, as many as have room for half of the
    /// colours that all have room for, at most; the memory of the others goes back.
    pub(crate) fn drop_all(&mut self, last: &mut Block)
        ensures items { self.new.items ≡ [] }
        ensures last { last.new.frames ≡ [] }
    {
        if self.count < self.seats.len() {
            mem::swap(&mut self.seats[self.count], last);
        }
        let room = room_in(&self.seats).saturating_add(last.room());
        self.seats.truncate(first_within(&self.seats, room / 2));
        self.count = 0;
        *last = if self.seats.is_empty() {
            Block::empty(self.alloc)
        } else {
            take_from(self.alloc, &mut self.seats, 0)
        };
        last.drop_all();
    }
}

/// The block of a seat, which is empty then.
fn take_from(alloc: Global, seats: &mut Vec<Block>, seat: usize) -> Block
    requires { seat < length seats.old.items }
    ensures long { length seats.new.items ≡ length seats.old.items }
    ensures taken { take (seat + 1) seats.old.items ≡ take seat seats.old.items ++ result ∷ [] }
    ensures below { (n : ℕ) → n ≤ seat → take n seats.new.items ≡ take n seats.old.items }
{
    mem::replace(&mut seats[seat], Block::empty(alloc))
}

/// For how many colours some blocks have room.
fn room_in(blocks: &[Block]) -> usize {
    let mut room: usize = 0;
    for block in blocks {
        room = room.saturating_add(block.room());
    }
    room
}

/// How many of the first blocks have room for so many colours at most.
fn first_within(blocks: &[Block], most: usize) -> usize {
    let mut left = most;
    for (count, block) in blocks.iter().enumerate() {
        match left.checked_sub(block.room()) {
            Some(rest) => left = rest,
            None => return count,
        }
    }
    blocks.len()
}

#[cfg(test)]
mod tests;
