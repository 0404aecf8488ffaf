//! What the threads share.
use crate::host::Host;
use nt_front::{Named, Pass};
use nt_front_calls::{Calls, Refused};
use nt_status::{EventFlags, Handle, TimerFlags};

/// How many pieces of work there are.
pub const PIECES: u32 = 3;

/// The handles of the objects that the threads share.
#[derive(Clone, Copy)]
pub struct Shared {
    /// Expires every 10 ms.
    pub timer: Handle,
    /// Counts the pieces of work that nobody has taken.
    pub work: Handle,
    /// Is set once no work is left.
    pub stop: Handle,
}

impl Shared {
    /// Makes the objects.
    pub fn create<N: Named, R: Host>(
        calls: &Calls<'_, '_, N, R>,
        pass: &mut Pass<N>,
    ) -> Result<Shared, Refused> {
        let timer = calls.create_timer(pass, TimerFlags::NONE)?.answer;
        calls.set_timer(pass, timer, -100_000, 10, None)?;
        let work = calls.create_semaphore(pass, 0, PIECES as i32)?.answer;
        let stop = calls.create_event(pass, EventFlags::MANUAL_RESET)?.answer;
        Ok(Shared { timer, work, stop })
    }
}
