//! What whoever drives threads asks of a dispatcher: what is there, and when something is due.
ghost use Rattle.std.specs.Prelude.{◌≡◌, ◌<◌, ℕ, true, MatchOption, slice_get};
ghost use Rattle.std.specs.Option.{option_copied};
ghost use Rattle.std.specs.FinMap as map;
ghost use Rattle.nt_machine.specs.Dispatcher.{state};
ghost use Rattle.nt_machine.specs.Lawful.{IsLawful};
ghost use Rattle.nt_calls.specs.Naming.{object_named};
ghost use Rattle.nt_calls.specs.State.{object_at};
ghost use Rattle.nt_objects.specs.Object.{owned_by};
ghost use Rattle.nt_tables.specs.Handles.{opened_at, count_named};
ghost use Rattle.nt_calls.specs.Steps.{IsNextMoment, NothingDue};

use crate::dispatcher::Core;
use crate::ticks::next_moment;
use nt_calls::{named, object_named};
use nt_objects::Object;
use nt_status::{Handle, Moment, ObjectNumber, ThreadId};
use nt_tables::Opened;
use nt_waits::Wait;

impl Core {
    /// How many threads there are, those that have ended among them.
    pub fn threads(&self) -> u32
        ensures { result ≡ (state self.now).threads }
    {
        self.machine.threads
    }

    /// The object that the handle names, as it is; none where it names none.
    pub fn object(&self, handle: Handle) -> Option<Object>
        ensures { result ≡ slice_get (state self.now).objects (object_named (state self.now).handles handle) }
    {
        let number = object_named(&self.machine.handles, handle);
        named(self.machine.objects.as_slice(), number).copied()
    }

    /// Tells that the dispatcher is lawful, as it is between any two calls, and does nothing.
    pub fn stands(&self)
        ensures { IsLawful self.now }
    {
        let _ = &self.machine;
    }

    /// Tells that who owns a mutex is one of the threads, and does nothing.
    pub fn owners_stand(&self)
        ensures { (t m : ℕ) → owned_by (object_at (state self.now).objects m) t ≡ true → t < (state self.now).threads }
    {
        let _threads = self.machine.threads;
    }

    /// The objects by their own numbers, by which `waits_for` names them. What no handle and no wait keeps any longer is gone.
    pub fn objects(&self) -> &[Object]
        ensures { result.now ≡ (state self.now).objects }
    {
        self.machine.objects.as_slice()
    }

    /// The object that the handle names, by its number, and with which rights; none where it names nothing.
    pub fn opened(&self, handle: Handle) -> Option<Opened>
        ensures { result ≡ opened_at (state self.now).handles handle }
    {
        self.machine.handles.get(handle)
    }

    /// How many handles name the object with this number.
    pub fn handles_of(&self, object: ObjectNumber) -> u32
        ensures { result ≡ count_named (state self.now).handles object }
    {
        self.machine.handles.count(object)
    }

    /// What the thread's pending wait names, in its order, and its mode; none where no wait of this thread pends. The numbers are those
    /// of the objects, and not of the handles by which the caller named them. This is no look.
    pub fn waits_for(&self, thread: u32) -> Option<&Wait>
        ensures { option_copied result ≡ map.get (state self.now).waits thread }
    {
        if self.machine.threads <= thread {
            return None;
        }
        self.machine
            .waits
            .peek(self.reader, ThreadId::new(thread as u16))
    }

    /// The next moment up to `up_to` at which a timer is due or a wait's deadline comes, counted in 100 ns; none where nothing is due
    /// by then. A driver that ticks no later than this misses nothing.
    pub fn due(&self, up_to: Moment) -> Option<Moment>
        ensures { MatchOption result (NothingDue (state self.now) up_to)
            (λ moment. IsNextMoment (state self.now) up_to moment) }
    {
        let moment = next_moment(&self.machine, up_to)?;
        Moment::new(moment)
    }
}
