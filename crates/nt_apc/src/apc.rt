ghost use Rattle.std.specs.Prelude.{◌≡◌};

use nt_status::{ObjectNumber, OptionalMoment};

/// An APC as its thread takes it, as QueueUserAPC or SetWaitableTimer queued it.
#[derive(Clone, Copy, PartialEq, Eq, Debug)]
pub struct Apc {
    pub routine: u64,
    pub arg: u64,
    /// The due moment of the timer that queued it.
    pub at: OptionalMoment,
}

/// An APC in its queue, and the timer that it came from.
#[derive(Clone, Copy, PartialEq, Eq, Debug)]
pub struct Queued {
    pub apc: Apc,
    pub timer: Option<ObjectNumber>,
}

impl Queued {
    ghost use Rattle.std.specs.Prelude.{◌≡◌};
    ghost use Rattle.nt_apc.specs.Queues.{is_from};

    /// Whether it is this timer's.
    pub fn is_from(&self, timer: ObjectNumber) -> bool
        ensures { result ≡ is_from timer self.now.timer }
    {
        match self.timer {
            Some(other) => other.get() == timer.get(),
            None => false,
        }
    }
}
