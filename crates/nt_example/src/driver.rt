//! Which guest goes on next.
use nt_core::Core;
use nt_core_calls::{Began, Calls, Timeout};
use nt_status::{Handle, Moment, Refusal, Status, UNITS_PER_MS};

/// How many guests there are.
pub const GUESTS: usize = 3;

/// The dispatcher, and by guest with which status its wait ended, until it goes on.
#[derive(Drop)]
pub struct Driver {
    pub core: Core,
    ended: [Option<Status>; GUESTS],
}

impl Driver {
    pub fn new(core: Core) -> Driver {
        Driver {
            core,
            ended: [None; GUESTS],
        }
    }

    /// Begins a guest's wait for any of these. If it ends at once, the guest may go on.
    pub fn wait(&mut self, guest: u32, handles: &[Handle]) -> Result<(), Refusal> {
        match self
            .core
            .wait_any(guest, handles, Timeout::INFINITE, false)?
        {
            Began::Ended(status) => wake(&mut self.ended, guest, status),
            Began::Pended => {}
        }
        Ok(())
    }

    /// A guest ends. That may end waits for it, and for mutexes that it owned.
    pub fn exit(&mut self, guest: u32) -> Result<(), Refusal> {
        self.core.exit(guest)?;
        self.wake_granted();
        Ok(())
    }

    /// Lets those guests go on whose waits the last call or tick ended. The next call or tick begins a new list.
    pub fn wake_granted(&mut self) {
        for grant in self.core.grants() {
            wake(&mut self.ended, u32::from(grant.thread.get()), grant.status);
        }
    }

    /// The next guest that may go on, with the status of its wait. While there is none, time passes to what is due next; none if nothing is.
    pub fn next(&mut self) -> Result<Option<(u32, Status)>, Refusal> {
        for _ in 0..u64::MAX {
            if let Some(next) = self.take_ended() {
                return Ok(Some(next));
            }
            let Some(due) = self.core.due(Moment::MAX) else {
                return Ok(None);
            };
            self.core.tick_to(due)?;
            self.wake_granted();
        }
        Ok(None)
    }

    /// The present moment, in milliseconds.
    pub fn ms(&self) -> u64 {
        self.core.now().get() / UNITS_PER_MS
    }

    fn take_ended(&mut self) -> Option<(u32, Status)> {
        for guest in 0..GUESTS {
            if let Some(status) = self.ended[guest].take() {
                return Some((guest as u32, status));
            }
        }
        None
    }
}

/// Notes that this guest may go on, and the status with which its wait ended.
fn wake(ended: &mut [Option<Status>; GUESTS], guest: u32, status: Status) {
    if let Some(place) = ended.get_mut(guest as usize) {
        *place = Some(status);
    }
}
