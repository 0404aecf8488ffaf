//! A thread's bell, on which that thread alone sleeps.
//!
//! Only `look` reads how often it has rung, and only the `Seen` that it returns can sleep. So whoever sleeps has read the number
//! before, and misses no ring since then.
ghost use Rattle.std.specs.Prelude.{◌≡◌};

use nt_status::ThreadId;
use std::sync::{Condvar, Wait};
use std::time::Duration;

/// A condition variable on which the thread with this number alone waits.
#[derive(Drop)]
pub(crate) struct Bell {
    thread: ThreadId,
    rung: Condvar,
}

/// How often a bell had rung at a look.
#[derive(Drop)]
pub(crate) struct Seen<'b> {
    bell: &'b Bell,
    rings: u64,
}

impl Bell {
    /// The bell of this thread, which has not rung.
    pub(crate) fn new(thread: ThreadId) -> Bell
        ensures { result.thread ≡ thread }
    {
        Bell {
            thread,
            rung: Condvar::new(),
        }
    }

    /// Wakes the thread, if it sleeps on this bell or is about to.
    pub(crate) fn ring(&self) {
        self.rung.notify_one();
    }

    /// Looks how often the bell has rung.
    pub(crate) fn look(&self) -> Seen<'_>
        ensures { result.bell.now.thread ≡ self.now.thread }
    {
        let rings = self.rung.notifications();
        Seen { bell: self, rings }
    }
}

impl Seen<'_> {
    /// Sleeps until the bell rings, unless it has rung since the look. It may return before, and takes no lock.
    pub(crate) fn sleep(&self, rt: &impl Wait) {
        self.bell.rung.sleep(rt, self.rings, Duration::MAX);
    }
}
