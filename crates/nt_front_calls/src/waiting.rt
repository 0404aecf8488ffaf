//! Waits that begin, and waits to their end.
ghost use Rattle.std.specs.Prelude.{◌≡◌, ◌≢◌, ℕ, Ok, false, IsTrue, IfErr};
ghost use Rattle.nt_calls.specs.declared.call.WaitCall.{WaitCall};
ghost use Rattle.nt_calls.specs.declared.call.Reply.{Reply};
ghost use Rattle.nt_calls.specs.Moves.{pended};
ghost use Rattle.nt_answers.specs.Answers.{as_reply, is_began};
ghost use Rattle.nt_front_calls.specs.declared.told.Refused.{Refused};
ghost use Rattle.nt_front_calls.specs.Told.{TellsEnd};
ghost use Rattle.nt_front_calls.specs.Answers.{FindsMemory, WaitHasBegun, IsWoken, IsWaitedFor, IsLookedFor};

use crate::calls::Calls;
use crate::told::{Began, Polled, Refused, Told, WaitEnd, told_at};
use nt_answers::{Began as Begins, began_told};
use nt_core::{Reply, WaitCall, WaitMode};
use nt_front::{Begun, Named, Pass, Polled as Found, Receipt, Sleeper, Waited};
use nt_status::{Handle, Handles, Refusal, Status};
use std::alloc::{Alloc, Global};
use std::sync::Wait;

impl<'f, 'r, N: Named, R: Wait> Calls<'f, 'r, N, R> {
    /// Begins a wait.
    pub(crate) fn begin(&self, pass: Pass<N>, wait: WaitCall) -> Began<N>
        ensures begun { WaitHasBegun N.front pass wait result }
        ensures memory { FindsMemory result }
    {
        match self.front.begin(self.rt, pass, wait) {
            Begun::Done(pass, receipt) => match end_in(receipt) {
                Ok(told) => Began::Ended(pass, told),
                Err(refused) => Began::Refused(pass, refused),
            },
            Begun::Pended(sleeper, receipt) => Began::Pended(sleeper, receipt.entry),
            Begun::NoRoom(pass) => Began::Refused(pass, Refused::JournalFull),
        }
    }

    /// Waits until the wait has ended.
    pub(crate) fn wait(&self, pass: Pass<N>, wait: WaitCall) -> (Pass<N>, Result<WaitEnd, Refused>)
        ensures ended { IsWaitedFor N.front pass wait result.1 result.0 }
        ensures memory { IfErr result.1 (λ refused. refused ≢ Refused.NoMemory) }
    {
        match self.front.wait(self.rt, pass, wait) {
            Waited::Done(pass, receipt) => match end_in(receipt) {
                Ok(told) => {
                    let end = WaitEnd {
                        status: told.answer,
                        entry: told.entry,
                        granted: None,
                    };
                    (pass, Ok(end))
                }
                Err(refused) => (pass, Err(refused)),
            },
            Waited::Granted(pass, begun, granted) => {
                let granted = grant_in(granted);
                let end = WaitEnd {
                    status: granted.answer,
                    entry: begun.entry,
                    granted: Some(granted.entry),
                };
                (pass, Ok(end))
            }
            Waited::NoRoom(pass) => (pass, Err(Refused::JournalFull)),
        }
    }

    /// Looks for a grant once.
    pub(crate) fn look(&self, sleeper: Sleeper<N>) -> Polled<N>
        ensures { IsLookedFor sleeper result }
    {
        match self.front.poll(sleeper) {
            Found::Ready(pass, granted) => Polled::Ready(pass, grant_in(granted)),
            Found::Still(sleeper) => Polled::Still(sleeper),
        }
    }

    /// Waits for the grant.
    pub(crate) fn granted(&self, sleeper: Sleeper<N>) -> (Pass<N>, Told<Status>)
        ensures { IsWoken sleeper result.1 result.0 }
    {
        let (pass, granted) = self.front.sleep(self.rt, sleeper);
        (pass, grant_in(granted))
    }
}

impl<'f, 'r, N: Named, R: Wait + Alloc<A = Global>> Calls<'f, 'r, N, R> {
    /// Begins a wait for the objects of these handles.
    pub(crate) fn begin_for(
        &self,
        pass: Pass<N>,
        handles: &[Handle],
        all: bool,
        mode: WaitMode,
    ) -> Began<N>
        ensures { WaitHasBegun N.front pass (WaitCall.Objects all mode handles.now) result }
    {
        let handles = match Handles::from_slice(self.rt.alloc(), handles) {
            Ok(handles) => handles,
            Err(_) => return Began::Refused(pass, Refused::NoMemory),
        };
        let wait = WaitCall::Objects { handles, all, mode };
        self.begin(pass, wait)
    }

    /// Waits for the objects of these handles until the wait has ended.
    pub(crate) fn wait_for(
        &self,
        pass: Pass<N>,
        handles: &[Handle],
        all: bool,
        mode: WaitMode,
    ) -> (Pass<N>, Result<WaitEnd, Refused>)
        ensures { IsWaitedFor N.front pass (WaitCall.Objects all mode handles.now) result.1 result.0 }
    {
        let handles = match Handles::from_slice(self.rt.alloc(), handles) {
            Ok(handles) => handles,
            Err(_) => return (pass, Err(Refused::NoMemory)),
        };
        let wait = WaitCall::Objects { handles, all, mode };
        self.wait(pass, wait)
    }
}

/// How a wait ended at once, with its entry.
fn end_in(receipt: Receipt) -> Result<Told<Status>, Refused>
    requires began { IsTrue (is_began receipt.result) }
    requires once { pended receipt.result ≡ false }
    ensures { TellsEnd receipt.entry receipt.result result }
{
    told_at(receipt.entry, status_told(receipt.result))
}

/// The status with which a wait ended.
fn status_told(reply: Result<Reply, Refusal>) -> Result<Status, Refusal>
    requires began { IsTrue (is_began reply) }
    requires once { pended reply ≡ false }
    ensures { as_reply Reply.Status result ≡ reply }
{
    match began_told(reply)? {
        Begins::Ended(status) => Ok(status),
        Begins::Pended => unreachable!(),
    }
}

/// The status of a grant, with its entry.
fn grant_in(granted: Receipt) -> Told<Status>
    requires { (status : ℕ) × (granted.result ≡ Ok (Reply.Status status)) }
    ensures entry { result.entry ≡ granted.entry }
    ensures answer { granted.result ≡ Ok (Reply.Status result.answer) }
{
    let Ok(began) = began_told(granted.result) else {
        unreachable!()
    };
    match began {
        Begins::Ended(answer) => Told {
            entry: granted.entry,
            answer,
        },
        Begins::Pended => unreachable!(),
    }
}
