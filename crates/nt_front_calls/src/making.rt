//! A call of each kind made, and its own part of the reply taken out.
ghost use Rattle.std.specs.Prelude.{◌≡◌, IfOk, IfErr, IsTrue};
ghost use Rattle.nt_calls.specs.declared.call.Act.{Act};
ghost use Rattle.nt_calls.specs.declared.call.Call.{Call};
ghost use Rattle.nt_calls.specs.declared.call.Reply.{Reply};
ghost use Rattle.nt_answers.specs.Kinds.{Kind, act_kind};
ghost use Rattle.nt_front_calls.specs.Answers.{CallIsTold, CallIsDone, ThreadIsEnded, FrontIsTicked};

use crate::calls::Calls;
use crate::told::{Refused, Told, told_at};
use nt_answers::{Apc, apc_told, done_told, handle_told, previous_told};
use nt_core::Act;
use nt_front::{Exited, Held, Named, Pass};
use nt_status::{Handle, Moment};
use std::sync::Wait;

impl<'f, 'r, N: Named, R: Wait> Calls<'f, 'r, N, R> {
    /// Makes a call that has nothing to tell.
    pub(crate) fn make_done(&self, pass: &mut Pass<N>, act: Act) -> Result<Told<()>, Refused>
        requires { act_kind act ≡ Kind.Done }
        ensures { CallIsDone N.front pass.old (Call.Act act) result pass.new }
    {
        match self.front.call(self.rt, pass, act) {
            Ok(receipt) => told_at(receipt.entry, done_told(receipt.result)),
            Err(_) => Err(Refused::JournalFull),
        }
    }

    /// Makes a call that answers a handle.
    pub(crate) fn make_handle(&self, pass: &mut Pass<N>, act: Act) -> Result<Told<Handle>, Refused>
        requires { act_kind act ≡ Kind.Handle }
        ensures { CallIsTold Reply.Handle N.front pass.old (Call.Act act) result pass.new }
    {
        match self.front.call(self.rt, pass, act) {
            Ok(receipt) => told_at(receipt.entry, handle_told(receipt.result)),
            Err(_) => Err(Refused::JournalFull),
        }
    }

    /// Releases a semaphore, and answers the count before.
    pub(crate) fn make_previous(
        &self,
        pass: &mut Pass<N>,
        semaphore: Handle,
        count: i32,
    ) -> Result<Told<i32>, Refused>
        ensures { CallIsTold Reply.Previous N.front pass.old (Call.Act (Act.ReleaseSemaphore semaphore count)) result pass.new }
    {
        match self
            .front
            .call(self.rt, pass, Act::ReleaseSemaphore { semaphore, count })
        {
            Ok(receipt) => told_at(receipt.entry, previous_told(receipt.result)),
            Err(_) => Err(Refused::JournalFull),
        }
    }

    /// Takes the thread's next APC.
    pub(crate) fn make_apc(&self, pass: &mut Pass<N>) -> Result<Told<Option<Apc>>, Refused>
        ensures { CallIsTold Reply.Apc N.front pass.old (Call.Act Act.NextApc) result pass.new }
    {
        match self.front.call(self.rt, pass, Act::NextApc) {
            Ok(receipt) => told_at(receipt.entry, apc_told(receipt.result)),
            Err(_) => Err(Refused::JournalFull),
        }
    }

    /// Ends the thread.
    pub(crate) fn make_exit(&self, pass: Pass<N>) -> (Held<N>, Result<Told<()>, Refused>)
        ensures { ThreadIsEnded N.front pass result.0 result.1 }
    {
        match self.front.exit(self.rt, pass) {
            Exited::Ended(ended, receipt) => {
                let told = told_at(receipt.entry, done_told(receipt.result));
                (Held::Ended(ended), told)
            }
            Exited::NoRoom(pass) => (Held::Pass(pass), Err(Refused::JournalFull)),
        }
    }

    /// Makes a tick.
    pub(crate) fn make_tick(&self, pass: &mut Pass<N>, moment: Moment) -> Result<Told<()>, Refused>
        ensures { FrontIsTicked N.front pass.old moment result pass.new }
    {
        match self.front.tick(self.rt, pass, moment) {
            Ok(receipt) => told_at(receipt.entry, done_told(receipt.result)),
            Err(_) => Err(Refused::JournalFull),
        }
    }
}
