//! Calls on APCs, and the waits that end for them.
ghost use Rattle.std.specs.Prelude.{◌≡◌, ◌<◌, ◌∷◌, ◌++◌, [], None, IsTrue};
ghost use Rattle.nt_calls.specs.declared.call.Act.{Act};
ghost use Rattle.nt_calls.specs.declared.call.Call.{Call};
ghost use Rattle.nt_apc.specs.Queues.{oldest};
ghost use Rattle.nt_calls.specs.Change.{may_take};
ghost use Rattle.std.specs.FinMap as map;
ghost use Rattle.nt_calls.specs.State.{pends, wait_over};
ghost use Rattle.nt_machine.specs.Dispatcher.{state};
ghost use Rattle.nt_calls.specs.Serving.{ending, sleeps};
ghost use Rattle.nt_machine.specs.Lawful.{IsMachineSound};
ghost use Rattle.nt_machine.specs.Accepts.{unmet_status, IsFresh, IsRoused, Accepts, IsActOfAny, IsRunning};

use crate::machine::{Answer, Machine};
use crate::standing::Standing;
use nt_apc::Apc;
use nt_calls::{Grant, Reply, late_status, running_thread};
use nt_status::{Handle, OptionalMoment, Status, ThreadId};

/// The status of a wait, a sleep or not, that ends for queued APCs, or else since its interval has passed.
fn unmet_status(alerted: bool, sleeps: bool) -> Status
    ensures { result ≡ unmet_status alerted sleeps }
{
    if alerted {
        Status::IO_COMPLETION
    } else {
        late_status(sleeps)
    }
}

impl Machine {
    /// Where this thread's wait pends, is alertable and an APC is queued for it, ends the wait.
    pub fn rouse(&mut self, thread: ThreadId)
        requires sound { IsMachineSound self.old }
        ensures roused { IsRoused self.old self.new thread }
        ensures sound { IsMachineSound self.new }
    {
        let Some(about) = self.waits.about(thread) else {
            return;
        };
        if !self.is_alerted(thread, about.alertable) {
            return;
        }
        self.end_wait(thread, true);
    }

    /// Ends this thread's pending wait, which its objects do not end: for queued APCs, which the thread may take then, or since its
    /// interval has passed.
    pub fn end_wait(&mut self, thread: ThreadId, alerted: bool)
        requires sound { IsMachineSound self.old }
        requires pends { IsTrue (pends (state self.old) thread) }
        ensures over { state self.new ≡ wait_over (state self.old) thread alerted }
        ensures grants { self.new.grants ≡ self.old.grants
            ++ ending (unmet_status alerted (sleeps (map.get self.old.table.pending thread))) thread ∷ [] }
        ensures looked { self.new.table.looked ≡ self.old.table.looked }
        ensures marked { self.new.marked ≡ self.old.marked }
        ensures sound { IsMachineSound self.new }
    {
        let ended = self.waits.end(thread);
        let status = unmet_status(alerted, ended.objects.as_slice().is_empty());
        let place = thread.get() as usize;
        self.handing[place] = alerted;
        self.standings[place] = Standing::Free;
        self.grants.push_reserved(Grant { thread, status });
        self.let_go(ended.objects.as_slice());
    }

    /// QueueUserAPC: the APC stands last in the thread's queue, and an alertable wait of it ends.
    pub(crate) fn queue_apc(&mut self, handle: Handle, routine: u64, arg: u64) -> Answer
        requires fresh { IsFresh self.old }
        ensures { IsActOfAny self.old self.new (Act.QueueApc handle routine arg) result }
    {
        let target = running_thread(&self.handles, &self.objects, handle)?;
        let target = ThreadId::new(target.get() as u16);
        let apc = Apc {
            routine,
            arg,
            at: OptionalMoment::new(None),
        };
        self.apcs.push(target, apc)?;
        self.rouse(target);
        Ok(Reply::Done)
    }

    /// Whether the thread may take an APC, and has one.
    fn may_take(&self, thread: ThreadId) -> bool
        requires sound { IsMachineSound self.now }
        requires known { thread < self.now.threads }
        ensures { result ≡ may_take (state self.now) thread }
    {
        self.handing[thread.get() as usize] && !self.apcs.is_empty(thread)
    }

    /// NextApc: the caller's oldest APC, where its last ended wait ended for its APCs and it has not found none since.
    pub(crate) fn next_apc(&mut self, thread: ThreadId) -> Reply
        requires fresh { IsFresh self.old }
        requires running { IsRunning self.old thread }
        ensures { Accepts self.old self.new thread (Call.Act Act.NextApc) result }
    {
        if self.may_take(thread) {
            Reply::Apc(self.apcs.next(thread))
        } else {
            self.hand(thread, false);
            Reply::Apc(None)
        }
    }
}
