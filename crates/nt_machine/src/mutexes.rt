//! Calls on mutexes.
ghost use Rattle.std.specs.Prelude.{◌≡◌, IsTrue};
ghost use Rattle.nt_objects.specs.Object.{owned_by, unlocked};
ghost use Rattle.nt_calls.specs.State.{object_at};
ghost use Rattle.nt_calls.specs.Change.{at};
ghost use Rattle.nt_machine.specs.Dispatcher.{state};
ghost use Rattle.nt_machine.specs.Accepts.{IsFresh, IsFreeToCall, IsServedAfter, IsActMade};
ghost use Rattle.nt_calls.specs.declared.call.Act.{Act};

use crate::machine::{Answer, Machine};
use nt_calls::{Reply, mutex_named};
use nt_objects::Object;
use nt_status::{Handle, MutexFlags, ObjectNumber, Refusal, ThreadId};

impl Machine {
    /// CreateMutex.
    pub(crate) fn create_mutex(&mut self, thread: ThreadId, flags: u32) -> Answer
        requires fresh { IsFresh self.old }
        requires free { IsFreeToCall (state self.old) thread }
        ensures { IsActMade self.old self.new thread (Act.CreateMutex flags) result }
    {
        let Some(flags) = MutexFlags::from_bits(flags) else {
            return Err(Refusal::InvalidParameter);
        };
        self.create(Object::new_mutex(flags, thread))
    }

    /// The mutex is held one level less deep, and where that was the last the waits that name it are served.
    #[inline(always)]
    pub(crate) fn give_back(&mut self, thread: ThreadId, mutex: ObjectNumber)
        requires fresh { IsFresh self.old }
        requires owner { IsTrue (owned_by (object_at self.old.objects mutex) thread) }
        ensures { IsServedAfter self.old (at (state self.old) mutex unlocked) self.new }
    {
        let Ok(_released) = self.objects.unlock(mutex, thread) else {
            unreachable!()
        };
        self.serve_one(mutex);
    }

    /// ReleaseMutex.
    #[inline(always)]
    pub(crate) fn release_mutex(&mut self, thread: ThreadId, handle: Handle) -> Answer
        requires fresh { IsFresh self.old }
        requires free { IsFreeToCall (state self.old) thread }
        ensures { IsActMade self.old self.new thread (Act.ReleaseMutex handle) result }
    {
        let mutex = mutex_named(&self.handles, &self.objects, handle, thread)?;
        self.give_back(thread, mutex);
        Ok(Reply::Done)
    }
}
