//! Threads that begin in the places of those that have ended, and what is set aside for them.
ghost use Rattle.std.specs.Prelude.{◌≡◌};
ghost use Rattle.nt_c.specs.Asks.{BeginsIn, PutsAsideIn, aside_error};

use crate::handle::Nt;
use crate::numbers::{INVALID_HANDLE, NO_MORE};
use nt_status::{ObjectNumber, Refusal};

/// A thread that began: its number, by which it calls, and its own handle.
#[repr(C)]
#[derive(Clone, Copy, PartialEq, Eq, Debug)]
pub struct NtBegun {
    pub thread: u32,
    pub handle: u32,
}

/// A thread begins in the first place whose thread has ended and whose object is gone. Its handle gets the number of the handle that was closed
/// last.
///
/// Refused with 6 if the handle has no dispatcher, and with 259 if there is no such place, no handle is closed, or no number is given
/// again.
#[unsafe(no_mangle)]
pub extern "C" fn nt_begin(nt: &mut Nt, out: &mut NtBegun) -> u32
    ensures begins { BeginsIn nt.old.cell.held result out.old out.new nt.new.cell.held }
{
    if !nt.live {
        return INVALID_HANDLE;
    }
    let Some(begun) = nt.cell.held_mut().begin() else {
        return NO_MORE;
    };
    *out = NtBegun {
        thread: begun.thread,
        handle: begun.handle.get(),
    };
    0
}

/// The number of the refusal; 0 if there is none.
fn error_of(aside: Result<ObjectNumber, Refusal>) -> u32
    ensures { result ≡ aside_error aside }
{
    match aside {
        Ok(_) => 0,
        Err(refusal) => refusal.number(),
    }
}

/// Sets aside the object of a thread that has ended, which its handles name from then on by another object number, so that `nt_begin` can give its
/// place to another thread.
///
/// Refused with 6 if the handle has no dispatcher, if the thread runs, nothing names its object or a pending wait does, or if no number is given
/// again; with 536870919 if no object number is free and there are as many as handle numbers, and with 8 if memory is refused.
#[unsafe(no_mangle)]
pub extern "C" fn nt_set_aside(nt: &mut Nt, thread: u32) -> u32
    ensures aside { PutsAsideIn nt.old.cell.held thread result nt.new.cell.held }
{
    if !nt.live {
        return INVALID_HANDLE;
    }
    error_of(nt.cell.held_mut().set_aside(thread))
}
