//! Ticks: moments pass, and the waits end whose deadlines come.
ghost use Rattle.std.specs.Prelude.{◌≡◌, ◌≤◌, ◌<◌, ◌+◌, ◌^◌, ℕ, true, false, Some, length, MatchOption, OnOk, OnErr};
ghost use Rattle.nt_alarms.specs.Alarms.{NoneBefore};
ghost use Rattle.nt_marks.specs.Marks.{is_marked, marked_places, NoneMarked};
ghost use Rattle.nt_machine.specs.Due.{earlier_moment, due_weight};
ghost use Rattle.nt_waits.specs.Deadlines.{NoneEarlier};
ghost use Rattle.nt_machine.specs.Dispatcher.{state, due_marked};
ghost use Rattle.nt_calls.specs.Serving.{IsServed, IsAlerted};
ghost use Rattle.nt_calls.specs.Steps.{IsNextMoment, NothingDue, Ticked};
ghost use Rattle.nt_machine.specs.Lawful.{IsMachineSound, IsSteady, IsUnmarked};
ghost use Rattle.nt_calls.specs.Living.{LivesWhileKept};
ghost use Rattle.nt_machine.specs.Accepts.{IsTimedOutAfter, IsAlertedAfter, IsExpiredAfter, IsPassedAfter, IsTickLocal};

use nt_calls::Reply;
use nt_machine::{Answer, Machine};
use nt_status::{Moment, ObjectNumber, Refusal, ThreadId};

/// The earlier of two moments.
fn earlier(first: Option<u64>, second: Option<u64>) -> Option<u64>
    ensures { result ≡ earlier_moment first second }
{
    match (first, second) {
        (Some(a), Some(b)) => { if a <= b { Some(a) } else { Some(b) } }
        (Some(a), None) => Some(a),
        (None, second) => second,
    }
}

/// The next moment up to `m` at which a timer is due or a deadline comes.
pub(crate) fn next_moment(machine: &Machine, m: Moment) -> Option<u64>
    requires { IsMachineSound machine.now }
    ensures { MatchOption result (NothingDue (state machine.now) m) (λ u. IsNextMoment (state machine.now) m u) }
{
    let next = earlier(machine.alarms.earliest(), machine.waits.earliest_deadline())?;
    if next <= m.get() { Some(next) } else { None }
}

/// The waits on the timer, which expires, are to be served, and the thread that armed it with a routine, if one did, may have
/// to be alerted.
pub(crate) fn mark_due(machine: &mut Machine, timer: ObjectNumber)
    requires sound { IsMachineSound machine.old }
    requires known { timer < length machine.old.objects }
    ensures { machine.new ≡ due_marked machine.old timer }
{
    if let Some(thread) = machine.object(timer).setter() {
        machine.alerted.set(thread.get() as usize);
    }
    machine.changed.set(timer.get() as usize);
}

/// Expires the timers that are due at moment `u` of a tick to `m`, and marks them, and the threads whose APCs they queue.
fn expire_all(machine: &mut Machine, u: u64, m: Moment)
    requires sound { IsMachineSound machine.old }
    requires calm { (t : ℕ) → IsAlerted (state machine.old) t → ⊥ }
    requires unmarked { IsUnmarked machine.old.marked }
    requires within { u ≤ m }
    requires earliest { NoneBefore machine.old.alarms u }
    ensures expired { IsExpiredAfter machine.old m u machine.new
        (marked_places machine.new.marked.changed) machine.new.marked.alerted }
    ensures sound { IsMachineSound machine.new }
{
    while let Some(place) = machine.alarms.first_at(u) {
        let timer = ObjectNumber::new(place as u32);
        mark_due(machine, timer);
        machine.expire(timer, m);
    }
}

/// Ends the waits of the threads with a mark that are to be alerted, by rising thread number. All that are have one.
fn alert_all(machine: &mut Machine)
    requires sound { IsMachineSound machine.old }
    requires marked { (t : ℕ) → IsAlerted (state machine.old) t → is_marked machine.old.marked.alerted t ≡ true }
    requires served { NoneMarked machine.old.marked.changed }
    ensures alerted { IsAlertedAfter machine.old machine.new }
    ensures sound { IsMachineSound machine.new }
{
    while let Some(place) = machine.alerted.take_first() {
        machine.rouse(ThreadId::new(place as u16));
    }
}

/// What happens at moment `u` of a tick to `m`: timers expire, waits are served, alerted and timed out.
fn pass(machine: &mut Machine, u: u64, m: Moment)
    requires sound { IsMachineSound machine.old }
    requires served { IsServed (state machine.old) }
    requires calm { (t : ℕ) → IsAlerted (state machine.old) t → ⊥ }
    requires unmarked { IsUnmarked machine.old.marked }
    requires next { IsNextMoment (state machine.old) m u }
    requires countable { machine.old.table.looked + due_weight
        (λ h. length ((state machine.old).queues h)) m 0 machine.old.objects < 2 ^ 64 }
    ensures { IsPassedAfter machine.old m u machine.new }
{
    expire_all(machine, u, m);
    machine.serve_marked();
    alert_all(machine);
    time_out_all(machine, u);
}

/// Ends the waits with this deadline, the earliest of all, by rising thread number.
fn time_out_all(machine: &mut Machine, deadline: u64)
    requires sound { IsMachineSound machine.old }
    requires earliest { NoneEarlier machine.old.table.pending deadline }
    ensures timed { IsTimedOutAfter machine.old deadline machine.new }
    ensures sound { IsMachineSound machine.new }
{
    while let Some(thread) = machine.waits.first_with_deadline(deadline) {
        machine.end_wait(thread, false);
    }
}

/// Lets all moments up to `m` pass.
pub(crate) fn tick(machine: &mut Machine, m: Moment) -> Answer
    requires steady { IsSteady machine.old }
    requires living { LivesWhileKept (state machine.old) }
    ensures ticked { Ticked (state machine.old) m result machine.new.grants (state machine.new) }
    ensures steady { IsSteady machine.new }
    ensures living { LivesWhileKept (state machine.new) }
    ensures local { OnOk result (IsTickLocal (state machine.old) m machine.new.table.looked machine.new.grants) }
    ensures untested { OnErr result (machine.new.table.looked ≡ 0) }
{
    machine.tell_anew();
    let (asked, present) = (m.get(), machine.moment.get());
    if asked < present {
        return Err(Refusal::MomentBack);
    }
    while let Some(u) = next_moment(machine, m) {
        pass(machine, u, m);
    }
    machine.moment = m;
    machine.end_forgotten();
    Ok(Reply::Done)
}
