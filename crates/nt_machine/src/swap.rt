//! SignalObjectAndWait: one object is signaled, the others are served, and then the caller waits.
ghost use Rattle.std.specs.Prelude.{◌≡◌, ◌≢◌, ◌∷◌, ◌<◌, [], false, None, Some, IfOk, IfErr, OnOk, OnErr, IsSome, IsTrue, length, pos, not, ◌==◌};
ghost use Rattle.std.specs.Option.{ForSome};
ghost use Rattle.nt_status.specs.declared.refusal.Refusal.TheVariants.{Memory};
ghost use Rattle.nt_objects.specs.Object.{overflows, is_gone};
ghost use Rattle.nt_calls.specs.State.{object_at, deadline_after, pending_too};
ghost use Rattle.nt_machine.specs.Dispatcher.{state};
ghost use Rattle.nt_calls.specs.Calls.{asked_wait};
ghost use Rattle.nt_calls.specs.Change.{at, signal};
ghost use Rattle.nt_calls.specs.Refusals.{may_signal, is_foreign, refusal};
ghost use Rattle.nt_machine.specs.Lawful.{IsMachineSound};
ghost use Rattle.nt_machine.specs.Accepts.{IsFresh, IsServedAfter, Accepts, IsFreeToCall, IsWaitMade, reply_of};
ghost use Rattle.nt_calls.specs.declared.call.Call.{Call};
ghost use Rattle.nt_calls.specs.declared.call.WaitCall.{WaitCall};

use crate::machine::{Answer, Machine};
use crate::waiting::replied;
use nt_calls::{MODIFY_STATE, SYNCHRONIZE, WaitMode, is_swap_denied, opened, swap_refusal};
use nt_status::{Handle, ObjectNumber, Status, ThreadId};

impl Machine {
    /// Signals the object, and serves the waits that name it: an event is set, a semaphore counts one more, a mutex is held one
    /// level less deep.
    fn signal(&mut self, thread: ThreadId, number: ObjectNumber)
        requires fresh { IsFresh self.old }
        requires may { IsTrue (may_signal (object_at self.old.objects number)) }
        requires owner { is_foreign self.old.objects thread number ≡ false }
        requires within { overflows (pos 1) (object_at self.old.objects number) ≡ false }
        ensures { IsServedAfter self.old (at (state self.old) number signal) self.new }
    {
        let object = self.object(number);
        if object.is_event() {
            self.raise_event(number);
        } else if object.is_semaphore() {
            let _previous = self.raise_count(number, 1);
        } else {
            self.give_back(thread, number);
        }
    }

    /// SignalObjectAndWait: signals one object, serves the others, and begins the caller's wait for the other object. Its status, where it
    /// ended at once; none where it pends. There is room for it, so no memory is taken.
    fn swap(
        &mut self,
        thread: ThreadId,
        signal: ObjectNumber,
        object: ObjectNumber,
        mode: WaitMode,
    ) -> Option<Status>
        requires fresh { IsFresh self.old }
        requires free { refusal (state self.old) thread false (Call.Wait (WaitCall.Swap signal object mode)) ≡ None }
        requires living { object < length self.old.objects → is_gone (object_at self.old.objects object) ≡ false }
        ensures { Accepts self.old self.new thread (Call.Wait (WaitCall.Swap signal object mode)) (reply_of result) }
    {
        self.signal(thread, signal);
        if let Some(status) = self.end_at_once(thread, &[object], false, mode) {
            return Some(status);
        }
        self.pend_one(thread, object, false, mode.ms, mode.alertable);
        None
    }

    /// A swap of the objects that these handles name, made or refused by its own causes.
    pub(crate) fn signal_and_wait(
        &mut self,
        thread: ThreadId,
        signal: Handle,
        object: Handle,
        mode: WaitMode,
    ) -> Answer
        requires fresh { IsFresh self.old }
        requires caller { IsFreeToCall (state self.old) thread }
        ensures { IsWaitMade self.old self.new thread (WaitCall.Swap signal object mode) result }
    {
        let (signaled, no_signal) = opened(&self.handles, signal, MODIFY_STATE);
        let (awaited, no_wait) = opened(&self.handles, object, SYNCHRONIZE);
        let objects = self.objects.as_slice();
        let denied = is_swap_denied(objects, signaled, no_signal, no_wait);
        match swap_refusal(objects, thread, denied, signaled, awaited) {
            Some(refusal) => Err(refusal),
            None => replied(Ok(self.swap(thread, signaled, awaited, mode))),
        }
    }
}
