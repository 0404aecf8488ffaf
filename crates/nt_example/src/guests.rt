//! What the guests do: guest 0 hands out work, and the others do it.
use crate::driver::{Driver, GUESTS};
use crate::fault::Fault;
use nt_core::Core;
use nt_core_calls::Calls;
use nt_status::{Access, EventFlags, Handle, Refusal, Status, TimerFlags};
use std::alloc::Global;
use std::io::Write;

/// How many pieces of work there are.
const PIECES: u32 = 3;

/// The handles that the guests share.
#[derive(Clone, Copy)]
struct Shared {
    /// Expires every 10 ms.
    timer: Handle,
    /// Counts the pieces of work that nobody has taken.
    work: Handle,
    /// Is set once no work is left.
    stop: Handle,
    /// The same event, by a handle that may only be waited for.
    stopped: Handle,
}

impl Shared {
    /// Makes the objects, as guest 0 would.
    fn create(core: &mut Core) -> Result<Shared, Refusal> {
        let timer = core.create_timer(0, TimerFlags::NONE)?;
        core.set_timer(0, timer, -100_000, 10, None)?;
        let work = core.create_semaphore(0, 0, PIECES as i32)?;
        let stop = core.create_event(0, EventFlags::MANUAL_RESET)?;
        let stopped = core.duplicate(0, stop, Access::SYNCHRONIZE)?;
        Ok(Shared {
            timer,
            work,
            stop,
            stopped,
        })
    }
}

/// Guest 0 goes on: the timer has expired. It hands out a piece of work if any is left, and else tells all to stop and ends.
fn lead(driver: &mut Driver, shared: &Shared, left: u32) -> Result<(), Refusal> {
    if left > 0 {
        driver.core.release_semaphore(0, shared.work, 1)?;
        driver.wake_granted();
        return driver.wait(0, &[shared.timer]);
    }
    driver.core.set_event(0, shared.stop)?;
    driver.wake_granted();
    driver.core.cancel_timer(0, shared.timer)?;
    driver.exit(0)
}

/// Another guest goes on: it has taken a piece of work, or is to stop.
fn follow(
    driver: &mut Driver,
    shared: &Shared,
    guest: u32,
    status: Status,
    out: &mut impl Write,
) -> Result<(), Fault> {
    let ms = driver.ms();
    writeln!(out, "{ms} ms: guest {guest}, {status}")?;
    if status.index() == Some(0) {
        driver.exit(guest)?;
    } else {
        driver.wait(guest, &[shared.stopped, shared.work])?;
    }
    Ok(())
}

/// Each guest begins its first wait.
fn begin(driver: &mut Driver, shared: &Shared, out: &mut impl Write) -> Result<(), Fault> {
    if let Err(refusal) = driver.core.set_event(1, shared.stopped) {
        writeln!(out, "guest 1 may not stop the others: {refusal}")?;
    }
    driver.wait(0, &[shared.timer])?;
    driver.wait(1, &[shared.stopped, shared.work])?;
    driver.wait(2, &[shared.stopped, shared.work])?;
    Ok(())
}

/// The guests go on, one after another, until nothing is due.
fn take_turns(driver: &mut Driver, shared: &Shared, out: &mut impl Write) -> Result<(), Fault> {
    let mut left = PIECES;
    for _ in 0..u64::MAX {
        let Some((guest, status)) = driver.next()? else {
            break;
        };
        if guest == 0 {
            lead(driver, shared, left)?;
            left = left.saturating_sub(1);
        } else {
            follow(driver, shared, guest, status, out)?;
        }
    }
    let pending = driver.core.pending();
    writeln!(out, "{pending} waits pend")?;
    Ok(())
}

/// Runs the guests.
pub fn run(alloc: Global, out: &mut impl Write) -> Result<(), Fault> {
    let mut core = Core::new(alloc, GUESTS as u32)?;
    let shared = Shared::create(&mut core)?;
    let mut driver = Driver::new(core);
    begin(&mut driver, &shared, out)?;
    take_turns(&mut driver, &shared, out)
}
