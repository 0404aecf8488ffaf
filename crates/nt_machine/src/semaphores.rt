//! Calls on semaphores.
ghost use Rattle.std.specs.Prelude.{◌≡◌, ◌<◌, pos, ◌<ℤ◌, false, IsTrue};
ghost use Rattle.nt_objects.specs.Object.{is_semaphore, count_of, overflows, released};
ghost use Rattle.nt_calls.specs.State.{object_at};
ghost use Rattle.nt_calls.specs.Change.{at};
ghost use Rattle.nt_machine.specs.Dispatcher.{state};
ghost use Rattle.nt_machine.specs.Accepts.{IsFresh, IsServedAfter, IsActOfAny};
ghost use Rattle.nt_calls.specs.declared.call.Act.{Act};

use crate::machine::{Answer, Machine};
use nt_calls::{Reply, semaphore_named};
use nt_objects::Object;
use nt_status::{Handle, ObjectNumber, Refusal};

impl Machine {
    /// CreateSemaphore.
    pub(crate) fn create_semaphore(&mut self, initial: i32, maximum: i32) -> Answer
        requires fresh { IsFresh self.old }
        ensures { IsActOfAny self.old self.new (Act.CreateSemaphore initial maximum) result }
    {
        let Ok(semaphore) = Object::new_semaphore(initial, maximum) else {
            return Err(Refusal::InvalidParameter);
        };
        self.create(semaphore)
    }

    /// Adds `count` to the semaphore's count, and serves the waits that name it. Answers the count before.
    pub(crate) fn raise_count(&mut self, semaphore: ObjectNumber, count: i32) -> i32
        requires fresh { IsFresh self.old }
        requires kind { IsTrue (is_semaphore (object_at self.old.objects semaphore)) }
        requires positive { pos 0 <ℤ count }
        requires within { overflows count (object_at self.old.objects semaphore) ≡ false }
        ensures served { IsServedAfter self.old (at (state self.old) semaphore (released count)) self.new }
        ensures previous { result ≡ count_of (object_at self.old.objects semaphore) }
    {
        let Ok(previous) = self.objects.release(semaphore, count) else {
            unreachable!()
        };
        self.serve_one(semaphore);
        previous
    }

    /// ReleaseSemaphore. Answers the count before.
    pub(crate) fn release_semaphore(&mut self, handle: Handle, count: i32) -> Answer
        requires fresh { IsFresh self.old }
        ensures { IsActOfAny self.old self.new (Act.ReleaseSemaphore handle count) result }
    {
        let semaphore = semaphore_named(&self.handles, &self.objects, handle, count)?;
        Ok(Reply::Previous(self.raise_count(semaphore, count)))
    }
}
