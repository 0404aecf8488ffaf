//! A wait, and the part of it that says nothing of its objects.
ghost use Rattle.std.specs.Prelude.{◌≡◌};
ghost use Rattle.nt_waits.specs.Waits.{about_of};

use nt_status::ObjectNumbers;
use std::alloc::AllocError;

/// A thread's wait for one of its objects, or for all of them. A sleep has no object.
#[derive(Drop)]
pub struct Wait {
    pub objects: ObjectNumbers,
    /// Whether every object must be signaled at once, as bWaitAll of WaitForMultipleObjects.
    pub all: bool,
    /// Whether an APC ends the wait, as bAlertable of WaitForMultipleObjectsEx.
    pub alertable: bool,
    /// The moment at which the wait times out, in units of 100 ns. Without one it never does.
    pub deadline: Option<u64>,
}

impl Clone for Wait {
    ghost is_clone = { λ wait copy. copy ≡ wait };

    fn clone(&self) -> Result<Self, AllocError> {
        Ok(Wait {
            objects: self.objects.copy()?,
            all: self.all,
            alertable: self.alertable,
            deadline: self.deadline,
        })
    }
}

/// The part of a wait that says nothing of its objects.
#[derive(Clone, Copy, PartialEq, Eq, Debug)]
pub struct About {
    pub alertable: bool,
    /// The moment at which the wait times out, in units of 100 ns.
    pub deadline: Option<u64>,
}

/// Whether this wait is alertable, and its deadline.
pub fn tell(wait: &Wait) -> About
    ensures { result ≡ about_of wait.now }
{
    About {
        alertable: wait.alertable,
        deadline: wait.deadline,
    }
}
