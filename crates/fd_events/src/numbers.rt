ghost use Rattle.std.specs.Prelude.{◌≡◌, ℕ, ◌<◌, ◌≤◌, true, IfOk, OnErr, [], replicate, vec_len};
ghost use Rattle.std.specs.List.{Contains};
ghost use Rattle.fd_events.specs.Numbers.{numbers_of, listed_at, Grow};
ghost use Rattle.fd_memory.specs.Wanting.{Wanted};

use std::alloc::{AllocError, Global};

/// Adds a number to the lists of the cells from `first` up to `last`.
pub(crate) fn add_row(
    lists: &mut Vec<Vec<u32>>,
    first: usize,
    last: usize,
    number: u32,
) -> Result<(), AllocError>
    requires { last ≤ vec_len lists.old }
    ensures listed { IfOk result (λ _. Grow number (numbers_of lists.old.items) (numbers_of lists.new.items)
        × ((cell : ℕ) → first ≤ cell → cell < last → Contains (listed_at (numbers_of lists.new.items) cell) number)) }
    ensures wanted { OnErr result Wanted }
{
    for cell in first..last {
        add(lists, cell, number)?;
    }
    Ok(())
}

/// So many lists of nothing.
pub(crate) fn no_numbers(count: usize, alloc: Global) -> Result<Vec<Vec<u32>>, AllocError>
    ensures lists { IfOk result (λ lists. numbers_of lists.items ≡ replicate count []) }
    ensures wanted { OnErr result Wanted }
{
    let mut lists = fd_memory::room(alloc, count)?;
    for _cell in 0..count {
        fd_memory::push(&mut lists, Vec::new(alloc))?;
    }
    Ok(lists)
}

/// Whether a number is the last one of a list.
fn is_last(list: &[u32], number: u32) -> bool
    ensures { result ≡ true → Contains list.now number }
{
    match list.last() {
        Some(last) => *last == number,
        None => false,
    }
}

/// Adds a number to the list of a cell, unless it was added last.
fn add(lists: &mut Vec<Vec<u32>>, cell: usize, number: u32) -> Result<(), AllocError>
    requires { cell < vec_len lists.old }
    ensures listed { IfOk result (λ _. Grow number (numbers_of lists.old.items) (numbers_of lists.new.items)
        × Contains (listed_at (numbers_of lists.new.items) cell) number) }
    ensures wanted { OnErr result Wanted }
{
    if is_last(&lists[cell], number) {
        return Ok(());
    }
    let list = &mut lists[cell];
    fd_memory::push(list, number)?;
    Ok(())
}
