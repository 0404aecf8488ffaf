//! The calls that may pend, and the end of a thread.
ghost use Rattle.std.specs.Prelude.{◌≡◌, false, true, [], ◌∷◌};
ghost use Rattle.nt_calls.specs.declared.call.WaitCall.{WaitCall};
ghost use Rattle.nt_front_calls.specs.Answers.{WaitHasBegun, IsWoken, IsWaitedFor, IsLookedFor, ThreadIsEnded};

use crate::calls::Calls;
use crate::told::{Began, Polled, Refused, Told, WaitEnd};
use nt_answers::Timeout;
use nt_core::WaitCall;
use nt_front::{Held, Named, Pass, Sleeper};
use nt_status::{Handle, Status};
use std::alloc::{Alloc, Global};
use std::sync::Wait;

impl<'f, 'r, N: Named, R: Wait + Alloc<A = Global>> Calls<'f, 'r, N, R> {
    /// WaitForSingleObjectEx: waits until it has ended.
    pub fn wait_one(
        &self,
        pass: Pass<N>,
        handle: Handle,
        timeout: Timeout,
        alertable: bool,
    ) -> (Pass<N>, Result<WaitEnd, Refused>)
        ensures { IsWaitedFor N.front pass
            (WaitCall.Objects false (record { ms = timeout; alertable = alertable }) (handle ∷ [])) result.1 result.0 }
    {
        self.wait_for(pass, &[handle], false, timeout.mode(alertable))
    }

    /// WaitForMultipleObjectsEx, for any of the objects: waits until it has ended.
    pub fn wait_any(
        &self,
        pass: Pass<N>,
        handles: &[Handle],
        timeout: Timeout,
        alertable: bool,
    ) -> (Pass<N>, Result<WaitEnd, Refused>)
        ensures { IsWaitedFor N.front pass
            (WaitCall.Objects false (record { ms = timeout; alertable = alertable }) handles.now) result.1 result.0 }
    {
        self.wait_for(pass, handles, false, timeout.mode(alertable))
    }

    /// WaitForMultipleObjectsEx, for all of the objects: waits until it has ended.
    pub fn wait_all(
        &self,
        pass: Pass<N>,
        handles: &[Handle],
        timeout: Timeout,
        alertable: bool,
    ) -> (Pass<N>, Result<WaitEnd, Refused>)
        ensures { IsWaitedFor N.front pass
            (WaitCall.Objects true (record { ms = timeout; alertable = alertable }) handles.now) result.1 result.0 }
    {
        self.wait_for(pass, handles, true, timeout.mode(alertable))
    }

    /// WaitForSingleObjectEx: begins the wait.
    pub fn begin_one(
        &self,
        pass: Pass<N>,
        handle: Handle,
        timeout: Timeout,
        alertable: bool,
    ) -> Began<N>
        ensures { WaitHasBegun N.front pass
            (WaitCall.Objects false (record { ms = timeout; alertable = alertable }) (handle ∷ [])) result }
    {
        self.begin_for(pass, &[handle], false, timeout.mode(alertable))
    }

    /// WaitForMultipleObjectsEx, for any of the objects: begins the wait.
    pub fn begin_any(
        &self,
        pass: Pass<N>,
        handles: &[Handle],
        timeout: Timeout,
        alertable: bool,
    ) -> Began<N>
        ensures { WaitHasBegun N.front pass
            (WaitCall.Objects false (record { ms = timeout; alertable = alertable }) handles.now) result }
    {
        self.begin_for(pass, handles, false, timeout.mode(alertable))
    }

    /// WaitForMultipleObjectsEx, for all of the objects: begins the wait.
    pub fn begin_all(
        &self,
        pass: Pass<N>,
        handles: &[Handle],
        timeout: Timeout,
        alertable: bool,
    ) -> Began<N>
        ensures { WaitHasBegun N.front pass
            (WaitCall.Objects true (record { ms = timeout; alertable = alertable }) handles.now) result }
    {
        self.begin_for(pass, handles, true, timeout.mode(alertable))
    }
}

impl<'f, 'r, N: Named, R: Wait> Calls<'f, 'r, N, R> {
    /// SleepEx: waits until it has ended.
    pub fn sleep(
        &self,
        pass: Pass<N>,
        timeout: Timeout,
        alertable: bool,
    ) -> (Pass<N>, Result<WaitEnd, Refused>)
        ensures { IsWaitedFor N.front pass
            (WaitCall.Sleep (record { ms = timeout; alertable = alertable })) result.1 result.0 }
    {
        self.wait(pass, WaitCall::Sleep(timeout.mode(alertable)))
    }

    /// SignalObjectAndWait: signals one object, and waits for the other, or for the same, until the wait has ended.
    pub fn signal_and_wait(
        &self,
        pass: Pass<N>,
        signal: Handle,
        object: Handle,
        timeout: Timeout,
        alertable: bool,
    ) -> (Pass<N>, Result<WaitEnd, Refused>)
        ensures { IsWaitedFor N.front pass
            (WaitCall.Swap signal object (record { ms = timeout; alertable = alertable })) result.1 result.0 }
    {
        let swap = WaitCall::Swap {
            signal,
            object,
            mode: timeout.mode(alertable),
        };
        self.wait(pass, swap)
    }

    /// SleepEx: begins the wait.
    pub fn begin_sleep(&self, pass: Pass<N>, timeout: Timeout, alertable: bool) -> Began<N>
        ensures { WaitHasBegun N.front pass
            (WaitCall.Sleep (record { ms = timeout; alertable = alertable })) result }
    {
        self.begin(pass, WaitCall::Sleep(timeout.mode(alertable)))
    }

    /// SignalObjectAndWait: signals one object, and begins the wait for the other, or for the same.
    pub fn signal_and_begin(
        &self,
        pass: Pass<N>,
        signal: Handle,
        object: Handle,
        timeout: Timeout,
        alertable: bool,
    ) -> Began<N>
        ensures { WaitHasBegun N.front pass
            (WaitCall.Swap signal object (record { ms = timeout; alertable = alertable })) result }
    {
        let swap = WaitCall::Swap {
            signal,
            object,
            mode: timeout.mode(alertable),
        };
        self.begin(pass, swap)
    }

    /// Looks once whether the wait was granted, and takes the grant then. It never waits for the lock.
    pub fn poll(&self, sleeper: Sleeper<N>) -> Polled<N>
        ensures { IsLookedFor sleeper result }
    {
        self.look(sleeper)
    }

    /// Waits until the wait is granted, and takes the grant. It never waits for the lock.
    pub fn await_grant(&self, sleeper: Sleeper<N>) -> (Pass<N>, Told<Status>)
        ensures { IsWoken sleeper result.1 result.0 }
    {
        self.granted(sleeper)
    }

    /// The thread ends. It holds an ended mark then, which `finish` takes; and its pass as before if nothing was written.
    pub fn exit(&self, pass: Pass<N>) -> (Held<N>, Result<Told<()>, Refused>)
        ensures { ThreadIsEnded N.front pass result.0 result.1 }
    {
        self.make_exit(pass)
    }
}
