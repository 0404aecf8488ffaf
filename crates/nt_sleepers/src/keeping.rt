//! How the time is kept: whose alarms are cleared, who is called, and to which moment a thread sleeps.
ghost use Rattle.std.specs.Prelude.{◌≡◌, ◌≤◌, Bool, true, false, [], None, MatchBool, length, slice_set};
ghost use Rattle.std.specs.FinMap as map;
ghost use Rattle.nt_status.specs.declared.limits.TheConstants.{MAX_MANY_THREADS};
ghost use Rattle.nt_marks.specs.Marks.{NoneMarked};
ghost use Rattle.nt_calls.specs.State.{pends};
ghost use Rattle.nt_machine.specs.Dispatcher.{state};
ghost use Rattle.nt_sleepers.specs.Sleepers.{IsCalledToLook, IsShortEnough, IsWatched, NoneUpTo, SleepsTo, SleepsUpTo, TimeIsKept, time_out_of, set_if, settled, with_called, without_woken};

use nt_alarms::Alarms;
use nt_core::{Core, Grant};
use nt_marks::Marks;
use nt_status::{MAX_MOMENT, Moment};

/// Empties this place. Where it is empty already, one look tells.
#[tactic(auto, using(std::proofs::lemmas::List::set_past))]
fn clear(places: &mut Alarms, place: usize)
    ensures { places.new ≡ slice_set places.old place None }
{
    if places.get(place).is_some() {
        places.clear(place);
    }
}

/// At this place stands this moment, or nothing. Past the last place nothing is done.
#[tactic(auto, using(std::proofs::lemmas::List::set_past))]
fn put(places: &mut Alarms, place: usize, moment: Option<u64>)
    ensures { places.new ≡ slice_set places.old place moment }
{
    match moment {
        Some(moment) if place < places.len() => places.set(place, moment),
        Some(_) => {}
        None => clear(places, place),
    }
}

/// This thread no longer watches. Past the last place nothing is done.
#[tactic(auto, using(std::proofs::lemmas::List::set_past))]
fn unmark(watchers: &mut Marks, place: usize)
    ensures { watchers.new ≡ slice_set watchers.old place false }
{
    if place < watchers.places() {
        watchers.clear(place);
    }
}

/// None of these threads sleeps any longer.
#[tactic(auto, using(crate::proofs::Waking::woken_first, crate::proofs::Waking::woken_next, crate::proofs::Waking::woken_all))]
fn clear_all(alarms: &mut Alarms, grants: &[Grant])
    ensures { alarms.new ≡ without_woken None grants.now alarms.old }
{
    for grant in grants {
        clear(alarms, usize::from(grant.thread.get()));
    }
}

/// None of these threads watches any longer. Most calls find that nobody does.
#[tactic(auto, using(crate::proofs::Waking::woken_first, crate::proofs::Waking::woken_next, crate::proofs::Waking::woken_all, crate::proofs::Waking::none_woken))]
fn unmark_all(watchers: &mut Marks, grants: &[Grant])
    ensures { watchers.new ≡ without_woken false grants.now watchers.old }
{
    if watchers.is_empty() {
        return;
    }
    for grant in grants {
        unmark(watchers, usize::from(grant.thread.get()));
    }
}

/// When the pending wait of this thread times out.
fn deadline(core: &Core, who: u32) -> Option<u64>
    ensures { result ≡ time_out_of (map.get (state core.now).waits who) }
{
    core.waits_for(who)?.deadline
}

/// Whose wait began sleeps to its deadline.
fn begin(core: &Core, alarms: &mut Alarms, who: u32, began: bool)
    ensures { alarms.new ≡ set_if began who (time_out_of (map.get (state core.now).waits who)) alarms.old }
{
    if began {
        put(alarms, who as usize, deadline(core, who));
    }
}

/// Whether some thread sleeps no longer than to this moment.
#[tactic(auto, using(crate::proofs::Kept::none_up_to_quiet, crate::proofs::Kept::none_up_to_later))]
fn sleeps_up_to(alarms: &Alarms, u: u64) -> bool
    ensures { MatchBool result (SleepsUpTo alarms.now u) (NoneUpTo alarms.now u) }
{
    match alarms.earliest() {
        Some(first) => first <= u,
        None => false,
    }
}

/// Calls a watcher if nobody sleeps short enough, and returns which.
#[tactic(auto, using(crate::proofs::Kept::in_time_quiet, crate::proofs::Kept::marked_inside))]
fn call_one(core: &Core, alarms: &mut Alarms, watchers: &Marks) -> Option<u32>
    requires count { length watchers.now ≡ length alarms.old }
    requires few { length alarms.old ≤ MAX_MANY_THREADS }
    ensures in_time { IsWatched (state core.now) alarms.new watchers.now }
    ensures alarms { alarms.new ≡ with_called result alarms.old }
    ensures called { IsCalledToLook (state core.now) alarms.old watchers.now result }
{
    let watcher = watchers.first()?;
    let due = core.due(Moment::new(MAX_MOMENT)?)?;
    if sleeps_up_to(alarms, due.get()) {
        return None;
    }
    alarms.set(watcher, 0);
    Some(watcher as u32)
}

/// Whether nothing becomes of alarms and watchers: no wait began, none has ended, and nobody watches.
fn is_quiet(core: &Core, watchers: &Marks, began: bool) -> bool
    ensures began { result ≡ true → began ≡ false }
    ensures ended { result ≡ true → core.now.grants ≡ [] }
    ensures watched { result ≡ true → NoneMarked watchers.now }
{
    !began && core.grants().is_empty() && watchers.is_empty()
}

/// As `settle_all`, step by step.
fn settle_each(
    core: &Core,
    alarms: &mut Alarms,
    watchers: &mut Marks,
    who: u32,
    began: bool,
) -> Option<u32>
    requires count { length watchers.old ≡ length alarms.old }
    requires few { length alarms.old ≤ MAX_MANY_THREADS }
    ensures in_time { IsWatched (state core.now) alarms.new watchers.new }
    ensures alarms { alarms.new ≡ with_called result (settled alarms.old who began core.now) }
    ensures watchers { watchers.new ≡ without_woken false core.now.grants watchers.old }
    ensures called { IsCalledToLook (state core.now) (settled alarms.old who began core.now) watchers.new result }
{
    clear_all(alarms, core.grants());
    unmark_all(watchers, core.grants());
    begin(core, alarms, who, began);
    call_one(core, alarms, watchers)
}

/// What becomes of alarms and watchers after a call of this thread, whose wait began or did not, or after a tick. Returns who is called.
#[inline(always)]
pub(crate) fn settle_all(
    core: &Core,
    alarms: &mut Alarms,
    watchers: &mut Marks,
    who: u32,
    began: bool,
) -> Option<u32>
    requires count { length watchers.old ≡ length alarms.old }
    requires few { length alarms.old ≤ MAX_MANY_THREADS }
    ensures in_time { IsWatched (state core.now) alarms.new watchers.new }
    ensures alarms { alarms.new ≡ with_called result (settled alarms.old who began core.now) }
    ensures watchers { watchers.new ≡ without_woken false core.now.grants watchers.old }
    ensures called { IsCalledToLook (state core.now) (settled alarms.old who began core.now) watchers.new result }
{
    if is_quiet(core, watchers, began) {
        return None;
    }
    settle_each(core, alarms, watchers, who, began)
}

/// The same for who is called. If no wait pended before and none began, one look tells that nothing becomes of them.
pub(crate) fn settle(
    core: &Core,
    alarms: &mut Alarms,
    watchers: &mut Marks,
    called: &mut Option<u32>,
    who: u32,
    began: bool,
    was_idle: bool,
)
    requires count { length watchers.old ≡ length alarms.old }
    requires few { length alarms.old ≤ MAX_MANY_THREADS }
    requires idle { was_idle ≡ true → (core.now.grants ≡ []) × NoneMarked watchers.old × (called.old ≡ None) }
    ensures in_time { IsWatched (state core.now) alarms.new watchers.new }
    ensures alarms { alarms.new ≡ with_called called.new (settled alarms.old who began core.now) }
    ensures watchers { watchers.new ≡ without_woken false core.now.grants watchers.old }
    ensures called { IsCalledToLook (state core.now) (settled alarms.old who began core.now) watchers.new called.new }
{
    if was_idle {
        if !began {
            return;
        }
    }
    *called = settle_all(core, alarms, watchers, who, began);
}

/// To which moment a watcher sleeps beside these others: to its own deadline, if that or one of them is short enough.
fn moment_beside(core: &Core, others: &Alarms, own: Option<u64>) -> Option<u64>
    ensures sleeps { SleepsTo (state core.now) own result }
    ensures short { IsShortEnough (state core.now) others.now result }
{
    let Some(last) = Moment::new(MAX_MOMENT) else {
        return own;
    };
    let Some(due) = core.due(last) else {
        return own;
    };
    if sleeps_up_to(others, due.get()) {
        own
    } else {
        Some(due.get())
    }
}

/// The thread watches from now on, if its wait pends. Returns to which moment it sleeps.
pub(crate) fn watch(core: &Core, alarms: &mut Alarms, watchers: &mut Marks, who: u32) -> Option<u64>
    requires kept { TimeIsKept (state core.now) alarms.old watchers.old }
    ensures kept { TimeIsKept (state core.now) alarms.new watchers.new }
    ensures sleeps { SleepsTo (state core.now) (time_out_of (map.get (state core.now).waits who)) result }
    ensures alarms { alarms.new ≡ set_if (pends (state core.now) who) who result alarms.old }
    ensures watchers { watchers.new ≡ set_if (pends (state core.now) who) who true watchers.old }
{
    let own = core.waits_for(who)?.deadline;
    let place = who as usize;
    if place >= alarms.len() {
        return own;
    }
    clear(alarms, place);
    let moment = moment_beside(core, alarms, own);
    put(alarms, place, moment);
    watchers.set(place);
    moment
}

/// The thread no longer sleeps or watches. Returns who is called in its place.
#[tactic(auto, using(crate::proofs::Kept::kept_stop))]
pub(crate) fn stop(core: &Core, alarms: &mut Alarms, watchers: &mut Marks, who: u32) -> Option<u32>
    requires kept { TimeIsKept (state core.now) alarms.old watchers.old }
    ensures kept { TimeIsKept (state core.now) alarms.new watchers.new }
    ensures alarms { alarms.new ≡ with_called result (slice_set alarms.old who None) }
    ensures watchers { watchers.new ≡ slice_set watchers.old who false }
    ensures called { IsCalledToLook (state core.now) (slice_set alarms.old who None) watchers.new result }
{
    clear(alarms, who as usize);
    unmark(watchers, who as usize);
    call_one(core, alarms, watchers)
}
