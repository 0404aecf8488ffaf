//! Dispatchers come and go.
ghost use Rattle.std.specs.Prelude.{◌≡◌, None, Some};
ghost use Rattle.nt_life.specs.Lasting.{no_spares};
ghost use Rattle.nt_status.specs.declared.limits.TheConstants.{MAX_MANY_THREADS, MAX_THREADS};
ghost use Rattle.std.specs.Mem.{type_size};
ghost use Rattle.nt_sleepers.specs.contracts.sleepers.Sleepers.{the_row as sleepers_row};
ghost use Rattle.nt_c.specs.Asks.{Keeps, OpensHandle, Copies, GivesAgainIn, done_error};

use crate::handle::Nt;
use crate::numbers::{INVALID_HANDLE, INVALID_PARAMETER};
use nt_sleepers::Sleepers;
use nt_status::Refusal;
use std::alloc::Global;

/// How many bytes of room a dispatcher takes, at an alignment of 16.
#[unsafe(no_mangle)]
pub extern "C" fn nt_room() -> usize
    ensures { result ≡ type_size sleepers_row }
{
    size_of::<Sleepers>()
}

/// Opens a dispatcher for this many threads, which run and wait for nothing, where the handle has none.
///
/// Refused with 87 where the handle has one, or the threads are not 1 to 256, and with 8 where memory is refused.
#[unsafe(no_mangle)]
pub extern "C" fn nt_open(alloc: Global, nt: &mut Nt, threads: u32) -> u32
    ensures opens { OpensHandle MAX_THREADS None nt.old.cell.held threads result nt.new.cell.held }
{
    if nt.live {
        return INVALID_PARAMETER;
    }
    match Sleepers::new(alloc, threads) {
        Ok(sleepers) => {
            nt.cell.put(sleepers);
            nt.live = true;
            0
        }
        Err(refusal) => refusal.number(),
    }
}

/// Opens a dispatcher as `nt_open` does, which gives numbers again: of closed handles, of objects that are gone, and of ended threads. It
/// has 1 to 4,096 threads.
#[unsafe(no_mangle)]
pub extern "C" fn nt_open_lasting(alloc: Global, nt: &mut Nt, threads: u32) -> u32
    ensures opens { OpensHandle MAX_MANY_THREADS (Some no_spares) nt.old.cell.held threads result nt.new.cell.held }
{
    if nt.live {
        return INVALID_PARAMETER;
    }
    match Sleepers::lasting(alloc, threads) {
        Ok(sleepers) => {
            nt.cell.put(sleepers);
            nt.live = true;
            0
        }
        Err(refusal) => refusal.number(),
    }
}

/// The number of the refusal; 0 if there is none.
fn error_of(done: Result<(), Refusal>) -> u32
    ensures { result ≡ done_error done }
{
    match done {
        Ok(()) => 0,
        Err(refusal) => refusal.number(),
    }
}

/// A dispatcher that gave each number once gives numbers again from now on, as one of `nt_open_lasting` does: so a program whose numbers ran out
/// goes on. It looks at each handle and each object, once. Where numbers are given again already, nothing is done.
///
/// Refused with 6 where the handle has no dispatcher, and with 8 where memory is refused, which changes nothing.
#[unsafe(no_mangle)]
pub extern "C" fn nt_give_again(alloc: Global, nt: &mut Nt) -> u32
    ensures gives { GivesAgainIn nt.old.cell.held result nt.new.cell.held }
{
    if !nt.live {
        return INVALID_HANDLE;
    }
    error_of(nt.cell.held_mut().give_again(alloc))
}

/// Opens an equal dispatcher where the other handle has none, as a point to come back to. Each goes its own way from then on.
///
/// Refused with 6 where there is none to copy, with 87 where the other handle has one, and with 8 where memory is refused.
#[unsafe(no_mangle)]
pub extern "C" fn nt_copy(nt: &mut Nt, to: &mut Nt) -> u32
    ensures same { Keeps nt.old nt.new }
    ensures copies { Copies nt.old.cell.held to.old.cell.held result to.new.cell.held }
{
    if !nt.live {
        return INVALID_HANDLE;
    }
    if to.live {
        return INVALID_PARAMETER;
    }
    match nt.cell.held_mut().copy() {
        Ok(copied) => {
            to.cell.put(copied);
            to.live = true;
            0
        }
        Err(refusal) => refusal.number(),
    }
}

/// Frees what the handle has. Where it has nothing, nothing is done.
#[unsafe(no_mangle)]
pub extern "C" fn nt_close(nt: &mut Nt)
    ensures closed { nt.new.cell.held ≡ None }
{
    if nt.live {
        nt.live = false;
        drop(nt.cell.take());
    }
}
