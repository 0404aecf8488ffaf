//! Calls on events.
ghost use Rattle.std.specs.Prelude.{◌≡◌, true, not, IsTrue};
ghost use Rattle.nt_objects.specs.Object.{is_event, with_set};
ghost use Rattle.nt_calls.specs.State.{object_at};
ghost use Rattle.nt_calls.specs.Change.{at};
ghost use Rattle.nt_machine.specs.Dispatcher.{state};
ghost use Rattle.nt_machine.specs.Accepts.{IsFresh, IsServedAfter, IsActOfAny};
ghost use Rattle.nt_calls.specs.declared.call.Act.{Act};

use crate::machine::{Answer, Machine};
use nt_calls::{Reply, event_named};
use nt_objects::Object;
use nt_status::{EventFlags, Handle, ObjectNumber, Refusal};

impl Machine {
    /// CreateEvent.
    pub(crate) fn create_event(&mut self, flags: u32) -> Answer
        requires fresh { IsFresh self.old }
        ensures { IsActOfAny self.old self.new (Act.CreateEvent flags) result }
    {
        let Some(flags) = EventFlags::from_bits(flags) else {
            return Err(Refusal::InvalidParameter);
        };
        self.create(Object::new_event(flags))
    }

    /// The event is set from now on. Where it was not, the waits that name it are served.
    pub(crate) fn raise_event(&mut self, event: ObjectNumber)
        requires fresh { IsFresh self.old }
        requires kind { IsTrue (is_event (object_at self.old.objects event)) }
        ensures { IsServedAfter self.old (at (state self.old) event (with_set true)) self.new }
    {
        if self.objects.set(event) {
            self.serve_one(event);
        }
    }

    /// SetEvent.
    pub(crate) fn set_event(&mut self, handle: Handle) -> Answer
        requires fresh { IsFresh self.old }
        ensures { IsActOfAny self.old self.new (Act.SetEvent handle) result }
    {
        let event = event_named(&self.handles, &self.objects, handle)?;
        self.raise_event(event);
        Ok(Reply::Done)
    }

    /// ResetEvent: no wait is granted.
    pub(crate) fn reset_event(&mut self, handle: Handle) -> Answer
        requires fresh { IsFresh self.old }
        ensures { IsActOfAny self.old self.new (Act.ResetEvent handle) result }
    {
        let event = event_named(&self.handles, &self.objects, handle)?;
        self.objects.reset(event);
        Ok(Reply::Done)
    }

    /// PulseEvent: sets the event, grants what fits then, and leaves it not set.
    pub(crate) fn pulse_event(&mut self, handle: Handle) -> Answer
        requires fresh { IsFresh self.old }
        ensures { IsActOfAny self.old self.new (Act.PulseEvent handle) result }
    {
        let event = event_named(&self.handles, &self.objects, handle)?;
        self.raise_event(event);
        self.objects.reset(event);
        Ok(Reply::Done)
    }
}
