ghost use Rattle.std.specs.Prelude.{◌≡◌, ℕ, IfOk, OnErr, IfSome};
ghost use Rattle.fd_events.specs.Numbers.{numbers_of, listed_at};
ghost use Rattle.fd_events.specs.Packed.{listed_in};
ghost use Rattle.fd_memory.specs.Wanting.{Wanted};

use std::alloc::{AllocError, Global};

/// Lists of numbers, one behind the other in one piece of memory.
#[derive(Debug, Drop)]
pub(crate) struct Packed {
    numbers: Vec<u32>,
    // where each list begins, and where the last one ends
    starts: Vec<u32>,
}

impl Packed {
    /// The same lists. None where they have more numbers together than a `u32` counts.
    pub(crate) fn of(lists: &[Vec<u32>], alloc: Global) -> Result<Option<Packed>, AllocError>
        ensures lists { IfOk result (λ packed. IfSome packed (λ packed. (cell : ℕ) → listed_in packed cell ≡ listed_at (numbers_of lists.now) cell)) }
        ensures wanted { OnErr result Wanted }
    {
        let mut count: usize = 0;
        for list in lists {
            count = count.saturating_add(list.len());
        }
        let mut numbers = fd_memory::room(alloc, count)?;
        let mut starts = fd_memory::room(alloc, lists.len() + 1)?;
        fd_memory::push(&mut starts, 0)?;
        for cell in 0..lists.len() {
            fd_memory::append(&mut numbers, &lists[cell])?;
            let Ok(end) = u32::try_from(numbers.len()) else {
                return Ok(None);
            };
            fd_memory::push(&mut starts, end)?;
        }
        Ok(Some(Packed { numbers, starts }))
    }

    /// The list of a cell, where there is one.
    pub(crate) fn get(&self, cell: usize) -> Option<&[u32]>
        ensures { IfSome result (λ numbers. numbers.now ≡ listed_in self.now cell) }
    {
        let next = cell.checked_add(1)?;
        let start = *self.starts.get(cell)?;
        let end = *self.starts.get(next)?;
        self.numbers.get(start as usize..end as usize)
    }
}
