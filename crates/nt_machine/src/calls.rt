//! The table of calls: each is made, or refused, by the function for it.
ghost use Rattle.std.specs.Prelude.{◌≡◌, ◌<◌, Bool, None, Some, OnOk, OnErr, IfSome, IfNone};
ghost use Rattle.nt_machine.specs.Dispatcher.{state};
ghost use Rattle.nt_calls.specs.Naming.{call_named};
ghost use Rattle.nt_calls.specs.Rights.{is_denied};
ghost use Rattle.nt_calls.specs.Refusals.{refusal};
ghost use Rattle.nt_calls.specs.declared.call.Call.{Call};
ghost use Rattle.nt_calls.specs.Steps.{Made, Called};
ghost use Rattle.nt_machine.specs.Lawful.{IsMachineSound, IsSteady};
ghost use Rattle.nt_calls.specs.Living.{LivesWhileKept};
ghost use Rattle.nt_machine.specs.Accepts.{IsFresh, IsFreeToCall, IsLocal, IsActMade};

use crate::machine::{Answer, Machine};
use crate::standing::Standing;
use nt_calls::{Act, Call, Reply};
use nt_status::{Refusal, ThreadId};

impl Machine {
    /// The refusal that every call of this thread must meet, if any.
    pub fn caller_refusal(&self, who: u32) -> Option<Refusal>
        requires sound { IsMachineSound self.now }
        ensures refused { IfSome result
            (λ cause. (denied : Bool) (call : Call) → refusal (state self.now) who denied call ≡ Some cause) }
        ensures free { IfNone result (IsFreeToCall (state self.now) who) }
        ensures known { IfNone result (who < self.now.threads) }
    {
        match self.standings.get(who as usize) {
            Some(Standing::Free) => None,
            Some(Standing::Waiting) => Some(Refusal::ThreadWaiting),
            Some(Standing::Ended) => Some(Refusal::ThreadEnded),
            None => Some(Refusal::UnknownThread),
        }
    }

    /// An act, made or refused by its own causes.
    #[inline(always)]
    fn act(&mut self, thread: ThreadId, act: &Act) -> Answer
        requires fresh { IsFresh self.old }
        requires free { IsFreeToCall (state self.old) thread }
        ensures { IsActMade self.old self.new thread act.now result }
    {
        match *act {
            Act::CreateEvent(flags) => self.create_event(flags),
            Act::CreateSemaphore { initial, maximum } => { self.create_semaphore(initial, maximum) }
            Act::CreateMutex(flags) => self.create_mutex(thread, flags),
            Act::CreateTimer(flags) => self.create_timer(flags),
            Act::SetEvent(event) => self.set_event(event),
            Act::ResetEvent(event) => self.reset_event(event),
            Act::PulseEvent(event) => self.pulse_event(event),
            Act::ReleaseSemaphore { semaphore, count } => {
                self.release_semaphore(semaphore, count)
            }
            Act::ReleaseMutex(mutex) => self.release_mutex(thread, mutex),
            Act::SetTimer {
                timer,
                due,
                period,
                routine,
            } => self.set_timer(thread, timer, due, period, routine),
            Act::CancelTimer(timer) => self.cancel_timer(timer),
            Act::QueueApc {
                thread: target,
                routine,
                arg,
            } => self.queue_apc(target, routine, arg),
            Act::Duplicate { handle, access } => self.duplicate(handle, access),
            Act::Close(handle) => self.close(handle),
            Act::NextApc => Ok(self.next_apc(thread)),
        }
    }

    /// Makes the call of this thread, or refuses it, and ends no object.
    #[inline(always)]
    fn make(&mut self, who: u32, call: &Call) -> Answer
        requires steady { IsSteady self.old }
        ensures made { Made (state self.old) who (is_denied (state self.old) call.now)
            (call_named self.old.handles call.now) result self.new.grants (state self.new) }
        ensures steady { IsSteady self.new }
        ensures local { OnOk result (IsLocal (state self.old) who
            (call_named self.old.handles call.now) self.new.table.looked self.new.grants) }
        ensures untested { OnErr result (self.new.table.looked ≡ 0) }
    {
        self.tell_anew();
        if let Some(refusal) = self.caller_refusal(who) {
            return Err(refusal);
        }
        let thread = ThreadId::new(who as u16);
        match call {
            Call::Act(act) => self.act(thread, act),
            Call::Wait(wait) => self.wait(thread, wait),
            Call::Exit => {
                self.exit(thread);
                Ok(Reply::Done)
            }
        }
    }

    /// Makes the call of this thread, or refuses it, and ends the objects that nothing keeps any longer.
    #[inline(always)]
    pub fn call(&mut self, who: u32, call: &Call) -> Answer
        requires steady { IsSteady self.old }
        requires living { LivesWhileKept (state self.old) }
        ensures called { Called (state self.old) who call.now result self.new.grants (state self.new) }
        ensures steady { IsSteady self.new }
        ensures living { LivesWhileKept (state self.new) }
        ensures local { OnOk result (IsLocal (state self.old) who
            (call_named self.old.handles call.now) self.new.table.looked self.new.grants) }
        ensures untested { OnErr result (self.new.table.looked ≡ 0) }
    {
        let reply = self.make(who, call)?;
        self.end_forgotten();
        Ok(reply)
    }
}
