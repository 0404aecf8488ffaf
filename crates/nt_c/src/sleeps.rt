//! Those who wait and sleep, as C sees them.
ghost use Rattle.std.specs.Prelude.{◌≡◌};
ghost use Rattle.nt_c.specs.Asks.{Keeps, ReadsWait, ReadsObject, wait_in};
ghost use Rattle.nt_c.specs.Sleeps.{FallsAsleep, ReadsTold, Sleeps, WakesThread, told_in_numbers};

use crate::handle::Nt;
use crate::numbers::{INVALID_HANDLE, NO_MORE, UNKNOWN_THREAD};
use nt_sleepers::{Sleepers, Told};
use nt_waits::Wait;

/// What a thread learns while it sleeps: that its wait ended with this status, or, where it is called, that it is to look at the time.
#[repr(C)]
#[derive(Clone, Copy, PartialEq, Eq, Debug)]
pub struct NtTold {
    pub thread: u32,
    pub status: u32,
    pub called: bool,
}

/// What a thread learns, in numbers.
fn in_numbers(told: Told) -> NtTold
    ensures { result ≡ told_in_numbers told }
{
    match told {
        Told::Granted(grant) => NtTold {
            thread: u32::from(grant.thread.get()),
            status: grant.status.code(),
            called: false,
        },
        Told::Called(thread) => NtTold {
            thread,
            status: 0,
            called: true,
        },
    }
}

/// To which moment the thread sleeps, which watches or does not.
fn sleep(sleepers: &mut Sleepers, who: u32, watches: bool) -> Option<u64>
    ensures { Sleeps watches who result sleepers.old sleepers.new }
{
    if watches {
        sleepers.watch(who)
    } else {
        sleepers.moment(who)
    }
}

/// The wait of this thread pends, and it sleeps. `out` gets the moment to which it sleeps by itself, in units of 100 ns. Where a timer may
/// end its wait, it `watches`, and sleeps no longer than to the next moment at which anything is due, if nobody else does.
///
/// Refused with 6 where the handle has no dispatcher, and with 536870915 where no thread has this number. Answers 259 where the thread
/// sleeps until its wait ends or it is called.
#[unsafe(no_mangle)]
pub extern "C" fn nt_pend(nt: &mut Nt, who: u32, watches: bool, out: &mut u64) -> u32
    ensures falls_asleep { FallsAsleep watches who nt.old result out.old out.new nt.new }
{
    if !nt.live {
        return INVALID_HANDLE;
    }
    let sleepers = nt.cell.held_mut();
    if sleepers.core().threads() <= who {
        return UNKNOWN_THREAD;
    }
    let Some(moment) = sleep(sleepers, who, watches) else {
        return NO_MORE;
    };
    *out = moment;
    0
}

/// This thread no longer sleeps or watches, though its wait may pend. If a watcher has to look at the time in its place, `nt_told` names it.
///
/// Refused as `nt_pend` is.
#[unsafe(no_mangle)]
pub extern "C" fn nt_woke(nt: &mut Nt, who: u32) -> u32
    ensures wakes { WakesThread who nt.old result nt.new }
{
    if !nt.live {
        return INVALID_HANDLE;
    }
    let sleepers = nt.cell.held_mut();
    if sleepers.core().threads() <= who {
        return UNKNOWN_THREAD;
    }
    sleepers.stop(who);
    0
}

/// What threads learn of the last call or tick, by index: each wait that it ended, in their order, and then who is called.
///
/// Refused with 6 where the handle has no dispatcher, and with 259 past the last.
#[unsafe(no_mangle)]
pub extern "C" fn nt_told(nt: &mut Nt, index: usize, out: &mut NtTold) -> u32
    ensures same { Keeps nt.old nt.new }
    ensures reads { ReadsTold index nt.old result out.old out.new }
{
    if !nt.live {
        return INVALID_HANDLE;
    }
    let Some(told) = nt.cell.held_mut().told(index) else {
        return NO_MORE;
    };
    *out = in_numbers(told);
    0
}

/// A pending wait: how many objects it names, 0 of a sleep, and its mode.
#[repr(C)]
#[derive(Clone, Copy, PartialEq, Eq, Debug)]
pub struct NtPendingWait {
    pub count: usize,
    pub all: bool,
    pub alertable: bool,
    /// Whether it times out.
    pub timed: bool,
    /// The moment at which it times out, in units of 100 ns; else 0.
    pub deadline: u64,
}

/// The wait in numbers.
fn wait_in_numbers(wait: &Wait) -> NtPendingWait
    ensures { result ≡ wait_in wait.now }
{
    let (timed, deadline) = match wait.deadline {
        Some(moment) => (true, moment),
        None => (false, 0),
    };
    NtPendingWait {
        count: wait.objects.as_slice().len(),
        all: wait.all,
        alertable: wait.alertable,
        timed,
        deadline,
    }
}

/// The pending wait of this thread. This is no look.
///
/// Refused with 6 where the handle has no dispatcher, with 536870915 where no thread has this number, and with 259 where its wait does
/// not pend.
#[unsafe(no_mangle)]
pub extern "C" fn nt_waits_for(nt: &mut Nt, thread: u32, out: &mut NtPendingWait) -> u32
    ensures same { Keeps nt.old nt.new }
    ensures reads { ReadsWait thread nt.old result out.old out.new }
{
    if !nt.live {
        return INVALID_HANDLE;
    }
    let core = nt.cell.held_mut().core();
    if core.threads() <= thread {
        return UNKNOWN_THREAD;
    }
    let Some(wait) = core.waits_for(thread) else {
        return NO_MORE;
    };
    *out = wait_in_numbers(wait);
    0
}

/// The object at this index among those that the pending wait of this thread names: the number of the object, and not of the handle.
///
/// Refused as `nt_waits_for` is, and with 259 past the last.
#[unsafe(no_mangle)]
pub extern "C" fn nt_waited_object(nt: &mut Nt, thread: u32, index: usize, out: &mut u32) -> u32
    ensures same { Keeps nt.old nt.new }
    ensures reads { ReadsObject thread index nt.old result out.old out.new }
{
    if !nt.live {
        return INVALID_HANDLE;
    }
    let core = nt.cell.held_mut().core();
    if core.threads() <= thread {
        return UNKNOWN_THREAD;
    }
    let Some(wait) = core.waits_for(thread) else {
        return NO_MORE;
    };
    let Some(object) = wait.objects.as_slice().get(index) else {
        return NO_MORE;
    };
    *out = object.get();
    0
}
