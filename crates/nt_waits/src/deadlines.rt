//! The alarm of each thread whose pending wait has a deadline.
ghost use Rattle.std.specs.Prelude.{◌≡◌, ◌≢◌, ℕ, ◌<◌, ◌≤◌, length, IsSome, None, OnOk};
ghost use Rattle.nt_alarms.specs.Alarms.{alarm_at};

use nt_alarms::Alarms;
use nt_status::ThreadId;
use std::alloc::AllocError;

/// Makes room for the thread's alarm, where its wait has a deadline. No alarm changes.
pub fn reserve_alarm(
    alarms: &mut Alarms,
    t: ThreadId,
    deadline: Option<u64>,
) -> Result<(), AllocError>
    ensures kept { (u : ℕ) → alarm_at alarms.new u ≡ alarm_at alarms.old u }
    ensures grows { length alarms.old ≤ length alarms.new }
    ensures room { OnOk result (IsSome deadline → t < length alarms.new) }
{
    if deadline.is_some() {
        while alarms.len() <= t.get() as usize {
            alarms.add()?;
        }
    }
    Ok(())
}

/// Sets the thread's alarm to the deadline of the wait that it begins.
pub fn set_alarm(alarms: &mut Alarms, t: ThreadId, deadline: Option<u64>)
    requires room { IsSome deadline → t < length alarms.old }
    requires quiet { alarm_at alarms.old t ≡ None }
    ensures here { alarm_at alarms.new t ≡ deadline }
    ensures others { (u : ℕ) → u ≢ t → alarm_at alarms.new u ≡ alarm_at alarms.old u }
    ensures places { length alarms.new ≡ length alarms.old }
{
    if let Some(moment) = deadline {
        alarms.set(t.get() as usize, moment);
    }
}

/// Clears the thread's alarm, if it has one.
pub fn clear_alarm(alarms: &mut Alarms, t: ThreadId)
    ensures here { alarm_at alarms.new t ≡ None }
    ensures others { (u : ℕ) → u ≢ t → alarm_at alarms.new u ≡ alarm_at alarms.old u }
    ensures places { length alarms.new ≡ length alarms.old }
{
    if alarms.earliest().is_some() {
        clear_alarm_slow(alarms, t);
    }
}

/// Clears the thread's alarm, if it has one, where some thread has an alarm.
#[inline(never)]
fn clear_alarm_slow(alarms: &mut Alarms, t: ThreadId)
    ensures here { alarm_at alarms.new t ≡ None }
    ensures others { (u : ℕ) → u ≢ t → alarm_at alarms.new u ≡ alarm_at alarms.old u }
    ensures places { length alarms.new ≡ length alarms.old }
{
    let place = t.get() as usize;
    if alarms.get(place).is_some() {
        alarms.clear(place);
    }
}
