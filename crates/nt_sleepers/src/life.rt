//! How the time is kept by a dispatcher that may give numbers again: as `keeping` has it.
ghost use Rattle.std.specs.Prelude.{◌≡◌, ◌≤◌, true, false, [], None, length, slice_set};
ghost use Rattle.std.specs.FinMap as map;
ghost use Rattle.nt_status.specs.declared.limits.TheConstants.{MAX_MANY_THREADS};
ghost use Rattle.nt_marks.specs.Marks.{NoneMarked};
ghost use Rattle.nt_calls.specs.State.{pends};
ghost use Rattle.nt_machine.specs.Dispatcher.{state};
ghost use Rattle.nt_sleepers.specs.Sleepers.{IsCalledToLook, IsWatched, SleepsTo, TimeIsKept, time_out_of, set_if, settled, with_called, without_woken};

use crate::keeping;
use nt_alarms::Alarms;
use nt_life::Lasting;
use nt_marks::Marks;

/// Whether no wait pends, and none has ended.
pub(crate) fn is_still(life: &Lasting) -> bool
    ensures { result ≡ true → (life.now.core.grants ≡ []) × (map.len (state life.now.core).waits ≡ 0) }
{
    let core = life.core();
    core.pending() == 0 && core.grants().is_empty()
}

/// Whether no wait pends.
pub(crate) fn is_idle(life: &Lasting) -> bool
    ensures { result ≡ true → map.len (state life.now.core).waits ≡ 0 }
{
    life.core().pending() == 0
}

/// What becomes of alarms and watchers after a call of this thread, whose wait began or did not, or after a tick. Returns who is called.
pub(crate) fn settle_all(
    life: &Lasting,
    alarms: &mut Alarms,
    watchers: &mut Marks,
    who: u32,
    began: bool,
) -> Option<u32>
    requires count { length watchers.old ≡ length alarms.old }
    requires few { length alarms.old ≤ MAX_MANY_THREADS }
    ensures in_time { IsWatched (state life.now.core) alarms.new watchers.new }
    ensures alarms { alarms.new ≡ with_called result (settled alarms.old who began life.now.core) }
    ensures watchers { watchers.new ≡ without_woken false life.now.core.grants watchers.old }
    ensures called { IsCalledToLook (state life.now.core) (settled alarms.old who began life.now.core) watchers.new result }
{
    keeping::settle_all(life.core(), alarms, watchers, who, began)
}

/// The same for who is called. If no wait pended before and none began, one look tells that nothing becomes of them.
pub(crate) fn settle(
    life: &Lasting,
    alarms: &mut Alarms,
    watchers: &mut Marks,
    called: &mut Option<u32>,
    who: u32,
    began: bool,
    was_idle: bool,
)
    requires count { length watchers.old ≡ length alarms.old }
    requires few { length alarms.old ≤ MAX_MANY_THREADS }
    requires idle { was_idle ≡ true → (life.now.core.grants ≡ []) × NoneMarked watchers.old × (called.old ≡ None) }
    ensures in_time { IsWatched (state life.now.core) alarms.new watchers.new }
    ensures alarms { alarms.new ≡ with_called called.new (settled alarms.old who began life.now.core) }
    ensures watchers { watchers.new ≡ without_woken false life.now.core.grants watchers.old }
    ensures called { IsCalledToLook (state life.now.core) (settled alarms.old who began life.now.core) watchers.new called.new }
{
    keeping::settle(life.core(), alarms, watchers, called, who, began, was_idle);
}

/// The thread watches from now on, if its wait pends. Returns to which moment it sleeps.
pub(crate) fn watch(
    life: &Lasting,
    alarms: &mut Alarms,
    watchers: &mut Marks,
    who: u32,
) -> Option<u64>
    requires kept { TimeIsKept (state life.now.core) alarms.old watchers.old }
    ensures kept { TimeIsKept (state life.now.core) alarms.new watchers.new }
    ensures sleeps { SleepsTo (state life.now.core) (time_out_of (map.get (state life.now.core).waits who)) result }
    ensures alarms { alarms.new ≡ set_if (pends (state life.now.core) who) who result alarms.old }
    ensures watchers { watchers.new ≡ set_if (pends (state life.now.core) who) who true watchers.old }
{
    keeping::watch(life.core(), alarms, watchers, who)
}

/// The thread no longer sleeps or watches. Returns who is called in its place.
pub(crate) fn stop(
    life: &Lasting,
    alarms: &mut Alarms,
    watchers: &mut Marks,
    who: u32,
) -> Option<u32>
    requires kept { TimeIsKept (state life.now.core) alarms.old watchers.old }
    ensures kept { TimeIsKept (state life.now.core) alarms.new watchers.new }
    ensures alarms { alarms.new ≡ with_called result (slice_set alarms.old who None) }
    ensures watchers { watchers.new ≡ slice_set watchers.old who false }
    ensures called { IsCalledToLook (state life.now.core) (slice_set alarms.old who None) watchers.new result }
{
    keeping::stop(life.core(), alarms, watchers, who)
}
