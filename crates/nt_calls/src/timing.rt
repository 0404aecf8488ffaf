//! The moments at which waits and timers come due.
ghost use Rattle.std.specs.Prelude.{◌≡◌};
ghost use Rattle.nt_calls.specs.State.{deadline_after};
ghost use Rattle.nt_calls.specs.Change.{due_moment, routine_for};
ghost use Rattle.nt_calls.specs.Serving.{late_status};

use nt_objects::Routine;
use nt_status::{INFINITE, Moment, Status, ThreadId, UNITS_PER_MS};

/// The deadline of a wait that begins at this moment with a timeout in milliseconds.
pub fn deadline_after(now: Moment, ms: u32) -> Option<u64>
    ensures { result ≡ deadline_after now ms }
{
    if ms == INFINITE {
        None
    } else {
        Some(now.get() + UNITS_PER_MS * ms as u64)
    }
}

/// The status of a wait whose interval has passed: a sleep's is 0.
pub fn late_status(sleeps: bool) -> Status
    ensures { result ≡ late_status sleeps }
{
    if sleeps {
        Status::object(0)
    } else {
        Status::TIMEOUT
    }
}

/// The due moment of a due time in units of 100 ns: from now on where it is negative.
pub fn due_moment(now: Moment, due: i64) -> u64
    ensures { result ≡ due_moment now due }
{
    if due < 0 {
        now.get() + due.unsigned_abs()
    } else {
        due as u64
    }
}

/// The routine and its argument, to run on this thread.
pub fn routine_for(thread: ThreadId, routine: Option<(u64, u64)>) -> Option<Routine>
    ensures { result ≡ routine_for thread routine }
{
    let (routine, arg) = routine?;
    Some(Routine {
        routine,
        arg,
        thread,
    })
}
