//! How a thread waits until it is granted.
ghost use Rattle.std.specs.Prelude.{◌≡◌};
ghost use Rattle.nt_front.specs.Holds.{IsGiven};
ghost use Rattle.nt_front.specs.Polls.{IsWaited};

use crate::book::has_pended;
use crate::front::Front;
use crate::hold::{Pass, Sleeper};
use crate::named::Named;
use crate::polls::Polled;
use crate::receipt::Receipt;
use nt_core::{Call, WaitCall};
use std::hint::spin_loop;
use std::sync::Wait;

/// What a wait answers once it has ended.
pub enum Waited<N: Named> {
    /// The wait ended at once, or was refused.
    Done(Pass<N>, Receipt),
    /// The wait pended, and was granted. The first receipt is that of the call, the second that of the grant.
    Granted(Pass<N>, Receipt, Receipt),
    /// The journal is full, and nothing was done.
    NoRoom(Pass<N>),
}

impl<N: Named> Front<N> {
    /// Begins a wait and, where it pends, waits until it is granted and takes the grant. Where the journal is full the wait is dropped.
    #[inline(always)]
    pub fn wait(&self, rt: &impl Wait, pass: Pass<N>, wait: WaitCall) -> Waited<N>
        ensures { IsWaited N.front pass wait result }
    {
        let Pass { mut hold } = pass;
        let mut book = self.book.lock(rt);
        let Ok((begun, unwoken)) = book.enter_call(&self.mail, &mut hold, Call::Wait(wait)) else {
            return Waited::NoRoom(Pass { hold });
        };
        // Whom the signal of a swap granted is woken before this thread sleeps.
        self.give_back(book, unwoken);
        if has_pended(&begun.result) {
            let (pass, granted) = self.sleep(rt, Sleeper { hold });
            return Waited::Granted(pass, begun, granted);
        }
        Waited::Done(Pass { hold }, begun)
    }

    /// Waits until the thread's wait is granted, and takes the grant. It never waits for the lock.
    #[inline(never)]
    #[tactic(auto, using(crate::proofs::Polling::same_still))]
    pub fn sleep(&self, rt: &impl Wait, sleeper: Sleeper<N>) -> (Pass<N>, Receipt)
        ensures { IsGiven sleeper result.1.entry result.1.result result.0 }
    {
        let mut looks = sleeper.hold.looks();
        let mut sleeper = sleeper;
        for _ in rt.forever() {
            let ticket = self.bells.ticket(&sleeper);
            match self.poll(sleeper) {
                Polled::Ready(mut pass, receipt) => {
                    pass.hold.note_looks(looks > 0);
                    return (pass, receipt);
                }
                Polled::Still(still) => sleeper = still,
            }
            if looks > 0 {
                looks -= 1;
                spin_loop();
            } else {
                ticket.sleep(rt, &sleeper);
            }
        }
        unreachable!()
    }
}
