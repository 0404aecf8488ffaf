//! How a wait comes to pend: for one object, as most do, or for any number.
ghost use Rattle.std.specs.Prelude.{◌∷◌, ◌==◌, [], length, not, IsTrue, Ok, OnErr};
ghost use Rattle.nt_status.specs.declared.limits.TheConstants.{INFINITE};
ghost use Rattle.nt_calls.specs.Serving.{wait_on};
ghost use Rattle.nt_calls.specs.declared.call.WaitCall.{WaitCall};
ghost use Rattle.nt_machine.specs.Lawful.{IsMachineSound};
ghost use Rattle.nt_machine.specs.Accepts.{HasPended, CanBegin};

use crate::machine::Machine;
use crate::standing::Standing;
use nt_calls::{WaitMode, deadline_after};
use nt_status::{INFINITE, ObjectNumber, Refusal, ThreadId};
use nt_waits::About;

impl Machine {
    /// The thread's wait for this object, which has no deadline, pends from now on. There is room for it, so it takes no memory. It stands
    /// apart, so that the compiler knows that there is one.
    #[inline(never)]
    fn pend_for_good(&mut self, thread: ThreadId, object: ObjectNumber, all: bool, alertable: bool)
        requires can { CanBegin self.old thread (wait_on (object ∷ []) all) }
        requires sound { IsMachineSound self.old }
        ensures { HasPended self.old self.new thread
            (WaitCall.Objects all (record { ms = INFINITE; alertable = alertable }) (object ∷ [])) (Ok tt) }
    {
        let for_good = About {
            alertable,
            deadline: None,
        };
        self.waits.begin_one(thread, object, all, for_good);
        self.standings[thread.get() as usize] = Standing::Waiting;
    }

    /// The thread's wait for this object, which may have a deadline, pends from now on. The parts of the mode come one by one: a value that
    /// is passed whole is packed into one word, and each use takes its part out again.
    #[inline(never)]
    fn pend_until(
        &mut self,
        thread: ThreadId,
        object: ObjectNumber,
        all: bool,
        ms: u32,
        alertable: bool,
    )
        requires can { CanBegin self.old thread (wait_on (object ∷ []) all) }
        requires sound { IsMachineSound self.old }
        ensures { HasPended self.old self.new thread
            (WaitCall.Objects all (record { ms = ms; alertable = alertable }) (object ∷ [])) (Ok tt) }
    {
        let about = About {
            alertable,
            deadline: deadline_after(self.moment, ms),
        };
        self.waits.begin_one(thread, object, all, about);
        self.standings[thread.get() as usize] = Standing::Waiting;
    }

    /// The thread's wait for this object pends from now on. Most waits have no deadline.
    #[inline(always)]
    pub(crate) fn pend_one(
        &mut self,
        thread: ThreadId,
        object: ObjectNumber,
        all: bool,
        ms: u32,
        alertable: bool,
    )
        requires can { CanBegin self.old thread (wait_on (object ∷ []) all) }
        requires sound { IsMachineSound self.old }
        ensures { HasPended self.old self.new thread
            (WaitCall.Objects all (record { ms = ms; alertable = alertable }) (object ∷ [])) (Ok tt) }
    {
        if ms == INFINITE {
            self.pend_for_good(thread, object, all, alertable);
        } else {
            self.pend_until(thread, object, all, ms, alertable);
        }
    }

    /// The thread's wait for any number of objects pends from now on. Where memory is refused nothing changes.
    #[inline(never)]
    fn pend_any(
        &mut self,
        thread: ThreadId,
        objects: &[ObjectNumber],
        all: bool,
        ms: u32,
        alertable: bool,
    ) -> Result<(), Refusal>
        requires can { CanBegin self.old thread (wait_on objects.now all) }
        requires sound { IsMachineSound self.old }
        ensures { HasPended self.old self.new thread
            (WaitCall.Objects all (record { ms = ms; alertable = alertable }) objects.now) result }
    {
        let about = About {
            alertable,
            deadline: deadline_after(self.moment, ms),
        };
        self.waits.begin(thread, objects, all, about)?;
        self.standings[thread.get() as usize] = Standing::Waiting;
        Ok(())
    }

    /// The thread's wait for these objects pends from now on. Where memory is refused, as it can be unless there is one, nothing changes.
    pub(crate) fn pend(
        &mut self,
        thread: ThreadId,
        objects: &[ObjectNumber],
        all: bool,
        mode: WaitMode,
    ) -> Result<(), Refusal>
        requires can { CanBegin self.old thread (wait_on objects.now all) }
        requires sound { IsMachineSound self.old }
        ensures pended { HasPended self.old self.new thread (WaitCall.Objects all mode objects.now) result }
        ensures several { OnErr result (IsTrue (not (length objects.now == 1))) }
    {
        match objects {
            [object] => {
                self.pend_one(thread, *object, all, mode.ms, mode.alertable);
                Ok(())
            }
            _ => self.pend_any(thread, objects, all, mode.ms, mode.alertable),
        }
    }
}
