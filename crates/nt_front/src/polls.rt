//! How a thread learns of its grants and of the moment.
ghost use Rattle.std.specs.Prelude.{◌≡◌, ◌≤◌, ℕ, max};
ghost use Rattle.nt_mail.specs.Knowledge.{with_moment};
ghost use Rattle.nt_front.specs.Holds.{floor_of};
ghost use Rattle.nt_front.specs.Polls.{IsPolled};

use crate::front::Front;
use crate::hold::{Pass, Sleeper};
use crate::moments::later_of;
use crate::named::Named;
use crate::receipt::Receipt;
use nt_mail::told_by;
use nt_status::Moment;

/// What a poll answers.
pub enum Polled<N: Named> {
    /// The wait was granted. The receipt has the entry of the grant, and its status.
    Ready(Pass<N>, Receipt),
    /// No grant was found.
    Still(Sleeper<N>),
}

impl<N: Named> Front<N> {
    /// Reads the thread's word once, and takes the grant where there is one. It never waits for the lock.
    pub fn poll(&self, sleeper: Sleeper<N>) -> Polled<N>
        ensures { IsPolled sleeper result }
    {
        let Sleeper { mut hold } = sleeper;
        let word = self.mail.poll(&mut hold.seat);
        let Some((entry, reply)) = told_by(word) else {
            return Polled::Still(Sleeper { hold });
        };
        if self.mail.take(&mut hold.seat, word).is_err() {
            return Polled::Still(Sleeper { hold });
        }
        let result = Ok(reply);
        Polled::Ready(Pass { hold }, Receipt { entry, result })
    }

    /// The present moment, as the pass reads it. It never goes back, and is never before a moment that the pass ticked to.
    #[tactic(auto, using(crate::proofs::Floors::floor_reads))]
    pub fn now(&self, pass: &mut Pass<N>) -> Moment
        ensures read { (word : ℕ) × (pass.new ≡ with_moment word pass.old) × (result ≡ max word (floor_of pass.old)) }
        ensures floor { result ≡ floor_of pass.new }
        ensures rises { floor_of pass.old ≤ result }
    {
        let word = self.mail.read_moment(&mut pass.hold.seat);
        let floor = later_of(word, pass.hold.floor);
        pass.hold.floor = floor;
        floor
    }
}
