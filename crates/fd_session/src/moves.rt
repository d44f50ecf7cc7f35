//! Moves of all owners of a frame from one position to another.
ghost use Rattle.std.specs.Prelude.{◌≡◌, ◌<◌, Bool, map, MatchResult};
ghost use Rattle.std.specs.Result.{result_unwrap_or};
ghost use Rattle.fd_crew.specs.Lanes.{ArePassed};
ghost use Rattle.fd_session.specs.Held.{Stands, StandsFrom, as_kept};
ghost use Rattle.fd_session.specs.Moves.{MayGo, Comes, forgets_by};
ghost use Rattle.fd_memory.specs.Wanting.{Wanted};

use crate::drive::Drive;
use crate::way::Way;
use crate::worth::Slice;
use fd_crew::{Gate, Outcome, run_back, run_shared};
use fd_device::Progress;
use fd_owner::Owner;
use std::alloc::AllocError;
use std::thread::Threads;

/// Takes owners forward to a position, or to the one before the first event that one of them refuses, and all to that one position: those that stand
/// above it go back. An `Err` says that none has gone forward.
pub(crate) fn go_forward<R: Threads + Sync, G: Gate, T: Progress>(
    rt: &R,
    owners: &mut [Owner],
    way: &Way<'_>,
    drive: &Drive<'_, G>,
    teller: &mut T,
) -> Result<u32, AllocError>
    requires { MayGo (forgets_by drive.now.policy) way.now.together way.now.table.now way.now.from way.now.to drive.now.workers owners.old }
    ensures comes { Comes (Stands (forgets_by drive.now.policy) way.now.table.now) way.now.from way.now.to (result_unwrap_or result way.now.from)
        owners.old owners.new }
    ensures wanted { MatchResult result (λ at. at < way.now.to → Wanted) (λ _. Wanted) }
    ensures passed { ArePassed (λ o. o) (G.opened drive.now.gate.now) 0 owners.old owners.new }
    ensures told { T.kept teller.new ≡ T.kept teller.old }
{
    let run = go_on(rt, owners, way, drive, teller);
    if way.together {
        return run;
    }
    run_back(owners, run.unwrap_or(way.from));
    run
}

/// Lets all owners forget what was overwritten, if they are to.
fn settle(owners: &mut [Owner], forgets: bool)
    ensures { owners.new ≡ map (as_kept forgets) owners.old }
{
    if !forgets {
        return;
    }
    for owner in owners.iter_mut() {
        owner.forget();
    }
}

/// Takes owners on over a slice, or to the position before the first event that one of them refuses.
fn run_on<R: Threads + Sync, G: Gate>(
    rt: &R,
    owners: &mut [Owner],
    slice: &Slice,
    way: &Way<'_>,
    drive: &Drive<'_, G>,
) -> Result<u32, AllocError>
    requires { MayGo (forgets_by drive.now.policy) way.now.together way.now.table.now slice.now.from slice.now.end slice.now.workers owners.old }
    ensures comes { Comes (StandsFrom (forgets_by drive.now.policy) way.now.together way.now.table.now) slice.now.from slice.now.end
        (result_unwrap_or result slice.now.from) owners.old owners.new }
    ensures wanted { MatchResult result (λ at. at < slice.now.end → Wanted) (λ _. Wanted) }
    ensures passed { ArePassed (λ o. o) (G.opened drive.now.gate.now) 0 owners.old owners.new }
{
    let advance = slice.advance(way.table);
    let outcome = run_shared(rt, drive.alloc, owners, &advance, drive.gate)?;
    settle(owners, drive.policy.forgets());
    match outcome {
        Outcome::Reached => Ok(slice.end),
        Outcome::Stopped { at } => Ok(at),
    }
}

/// Takes owners on over a slice, in the calling thread alone where memory ran out in it.
fn go_slice<R: Threads + Sync, G: Gate>(
    rt: &R,
    owners: &mut [Owner],
    slice: &Slice,
    way: &Way<'_>,
    drive: &Drive<'_, G>,
) -> Result<u32, AllocError>
    requires { MayGo (forgets_by drive.now.policy) way.now.together way.now.table.now slice.now.from slice.now.end slice.now.workers owners.old }
    ensures comes { Comes (StandsFrom (forgets_by drive.now.policy) way.now.together way.now.table.now) slice.now.from slice.now.end
        (result_unwrap_or result slice.now.from) owners.old owners.new }
    ensures wanted { MatchResult result (λ at. at < slice.now.end → Wanted) (λ _. Wanted) }
    ensures passed { ArePassed (λ o. o) (G.opened drive.now.gate.now) 0 owners.old owners.new }
{
    let run = run_on(rt, owners, slice, way, drive);
    if run.is_err() && !drive.policy.forgets() {
        return run;
    }
    let mut at = run.unwrap_or(slice.from);
    let alone_to = drive.policy.alone_to(slice, at);
    while at < alone_to {
        let run = run_on(rt, owners, &Slice::even(at, at + 1, 1), way, drive);
        if run.unwrap_or(at) == at {
            return Ok(at);
        }
        at += 1;
    }
    Ok(at)
}

/// Takes owners on to a position slice by slice, or to the one before the first event that one of them refuses. It is refused itself only where no owner
/// has moved. The teller is told after each slice but the last.
fn go_on<R: Threads + Sync, G: Gate, T: Progress>(
    rt: &R,
    owners: &mut [Owner],
    way: &Way<'_>,
    drive: &Drive<'_, G>,
    teller: &mut T,
) -> Result<u32, AllocError>
    requires { MayGo (forgets_by drive.now.policy) way.now.together way.now.table.now way.now.from way.now.to drive.now.workers owners.old }
    ensures comes { Comes (StandsFrom (forgets_by drive.now.policy) way.now.together way.now.table.now) way.now.from way.now.to
        (result_unwrap_or result way.now.from) owners.old owners.new }
    ensures wanted { MatchResult result (λ at. at < way.now.to → Wanted) (λ _. Wanted) }
    ensures passed { ArePassed (λ o. o) (G.opened drive.now.gate.now) 0 owners.old owners.new }
    ensures told { T.kept teller.new ≡ T.kept teller.old }
{
    let mut at = way.from;
    while at < way.to {
        let slice = drive.next(way, at);
        let run = go_slice(rt, owners, &slice, way, drive);
        let end = run.unwrap_or(at);
        if end == at || (end < slice.end && !drive.policy.forgets()) {
            return if at == way.from { run } else { Ok(end) };
        }
        at = end;
        if at < way.to {
            teller.on_the_way(at, way.to);
        }
    }
    Ok(at)
}
