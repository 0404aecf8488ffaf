//! What C reads of a dispatcher, and the time that passes for it.
ghost use Rattle.std.specs.FinMap as map;
ghost use Rattle.nt_machine.specs.Dispatcher.{state};
ghost use Rattle.nt_c.specs.Asks.{Keeps, Reads, ReadsDue, ReadsWaiting, Ticks};

use crate::handle::Nt;
use crate::numbers::{INVALID_HANDLE, INVALID_PARAMETER, NO_MORE, UNKNOWN_THREAD};
use nt_status::Moment;

/// Lets the moments up to `m` pass, in units of 100 ns.
///
/// Refused with 87 where `m` is above 2^62, with 6 where the handle has no dispatcher, and with 536870917 where `m` is past.
#[unsafe(no_mangle)]
pub extern "C" fn nt_tick(nt: &mut Nt, m: u64) -> u32
    ensures ticks { Ticks nt.old m result nt.new }
{
    let Some(moment) = Moment::new(m) else {
        return INVALID_PARAMETER;
    };
    match nt.pass(moment) {
        Ok(_) => 0,
        Err(refusal) => refusal.number(),
    }
}

/// The present moment, in units of 100 ns: that of the last tick. Refused with 6 where the handle has no dispatcher.
#[unsafe(no_mangle)]
pub extern "C" fn nt_now(nt: &mut Nt, out: &mut u64) -> u32
    ensures same { Keeps nt.old nt.new }
    ensures reads { Reads (λ core. (state core).now) nt.old result out.old out.new }
{
    if !nt.live {
        return INVALID_HANDLE;
    }
    *out = nt.cell.held_mut().core().now().get();
    0
}

/// The next moment up to `m` at which a timer is due or a wait's deadline comes, in units of 100 ns.
///
/// Refused with 87 where `m` is above 2^62, with 6 where the handle has no dispatcher, and with 259 where nothing is due by then.
#[unsafe(no_mangle)]
pub extern "C" fn nt_due(nt: &mut Nt, m: u64, out: &mut u64) -> u32
    ensures same { Keeps nt.old nt.new }
    ensures reads { ReadsDue m nt.old result out.old out.new }
{
    let Some(up_to) = Moment::new(m) else {
        return INVALID_PARAMETER;
    };
    if !nt.live {
        return INVALID_HANDLE;
    }
    let Some(moment) = nt.cell.held_mut().core().due(up_to) else {
        return NO_MORE;
    };
    *out = moment.get();
    0
}

/// How many threads there are, those that have ended among them. Refused with 6 where the handle has no dispatcher.
#[unsafe(no_mangle)]
pub extern "C" fn nt_threads(nt: &mut Nt, out: &mut u32) -> u32
    ensures same { Keeps nt.old nt.new }
    ensures reads { Reads (λ core. (state core).threads) nt.old result out.old out.new }
{
    if !nt.live {
        return INVALID_HANDLE;
    }
    *out = nt.cell.held_mut().core().threads();
    0
}

/// How many waits pend. Refused with 6 where the handle has no dispatcher.
#[unsafe(no_mangle)]
pub extern "C" fn nt_pending(nt: &mut Nt, out: &mut usize) -> u32
    ensures same { Keeps nt.old nt.new }
    ensures reads { Reads (λ core. map.len (state core).waits) nt.old result out.old out.new }
{
    if !nt.live {
        return INVALID_HANDLE;
    }
    *out = nt.cell.held_mut().core().pending();
    0
}

/// How many pending waits the last call or tick looked at. Refused with 6 where the handle has no dispatcher.
#[unsafe(no_mangle)]
pub extern "C" fn nt_tested(nt: &mut Nt, out: &mut u64) -> u32
    ensures same { Keeps nt.old nt.new }
    ensures reads { Reads (λ core. core.table.looked) nt.old result out.old out.new }
{
    if !nt.live {
        return INVALID_HANDLE;
    }
    *out = nt.cell.held_mut().core().tested();
    0
}

/// Whether the wait of this thread pends.
///
/// Refused with 6 where the handle has no dispatcher, and with 536870915 where no thread has this number.
#[unsafe(no_mangle)]
pub extern "C" fn nt_is_waiting(nt: &mut Nt, thread: u32, out: &mut bool) -> u32
    ensures same { Keeps nt.old nt.new }
    ensures reads { ReadsWaiting thread nt.old result out.old out.new }
{
    if !nt.live {
        return INVALID_HANDLE;
    }
    let core = nt.cell.held_mut().core();
    if core.threads() <= thread {
        return UNKNOWN_THREAD;
    }
    *out = core.is_waiting(thread);
    0
}
