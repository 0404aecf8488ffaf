//! Who is woken, and when a thread may sleep.
//!
//! Nothing can be proved of a wake-up, so types keep that none is forgotten. Whoever makes a call or tick is given an `Unwoken`, which can't
//! be let go. With the grants that were left it becomes a `ToWake`, which `Bells::ring` alone takes; if there are none it is spent.
//! A thread sleeps by a `Ticket` alone, which was made before the poll that found no grant.
ghost use Rattle.std.specs.Prelude.{◌≡◌, length, IfOk, IfErr, IfSome, is_some, nat_lt};
ghost use Rattle.nt_status.specs.declared.refusal.Refusal.TheVariants.{Memory};
ghost use Rattle.nt_front.specs.Marks.{IsMarkedToo, AreMarks};
ghost use Rattle.nt_front.specs.Polls.{IsStill};
ghost use Rattle.nt_front.specs.Wakes.{Wakes, granted_of, marked_below, rings_for};

use crate::bell::{Bell, Seen};
use crate::hold::Sleeper;
use crate::named::Named;
use nt_core::{Core, Grant};
use nt_marks::FewMarks;
use nt_status::{MAX_THREADS, Refusal, ThreadId};
use std::alloc::{AllocError, Global};
use std::marker::Model;
use std::snapshot::Snapshot;
use std::sync::Wait;

/// A mark for this thread too.
#[tactic(auto, using(crate::proofs::Marking::marked_thread, crate::proofs::Marking::marked_far))]
fn mark(marks: &mut FewMarks, thread: ThreadId)
    requires { length marks.old ≡ MAX_THREADS }
    ensures { IsMarkedToo marks.old thread marks.new }
{
    let number = usize::from(thread.get());
    if number < MAX_THREADS as usize {
        marks.set(number);
    }
}

/// A mark for each thread that has one of these grants.
#[tactic(auto, using(crate::proofs::Marking::marks_at_first, crate::proofs::Marking::marks_next, crate::proofs::Marking::marks_all))]
#[inline(never)]
fn mark_all(grants: &[Grant]) -> FewMarks
    ensures { AreMarks result grants.now }
{
    let mut marks = FewMarks::none();
    for grant in grants {
        mark(&mut marks, grant.thread);
    }
    marks
}

/// The threads that a call or tick granted, all of which are to be woken. It must be spent: `Bells::ring` wakes them.
pub struct ToWake {
    marks: Option<FewMarks>,
}

impl ToWake {
    /// The threads of these grants. Usually there are none.
    #[inline(always)]
    pub(crate) fn of(grants: &[Grant]) -> ToWake
        ensures { Wakes result grants.now }
    {
        let marks = if grants.is_empty() {
            None
        } else {
            Some(mark_all(grants))
        };
        ToWake { marks }
    }
}

/// That nobody was woken yet of whom a call or tick granted. It has no bytes, and must be spent, with the grants that were left: contracts
/// see which those are.
pub(crate) struct Unwoken {
    left: Snapshot<Core>,
}

impl Unwoken {
    /// That of the call or tick that left the dispatcher so.
    pub(crate) fn of(core: &Core) -> Unwoken
        ensures { granted_of result ≡ core.now.grants }
    {
        Unwoken {
            left: Snapshot::of(core),
        }
    }

    /// The threads of these grants, which are those that were left.
    pub(crate) fn to_wake(self, grants: &[Grant]) -> ToWake
        requires { grants.now ≡ granted_of self }
        ensures { Wakes result (granted_of self) }
    {
        let Unwoken { left: _ } = self;
        ToWake::of(grants)
    }

    /// The same, or None where these grants are none, and so there is nobody to wake.
    pub(crate) fn unless_none(self, grants: &[Grant]) -> Option<Unwoken>
        requires { grants.now ≡ granted_of self }
        ensures exactly { is_some result ≡ nat_lt 0 (length (granted_of self)) }
        ensures same { IfSome result (λ unwoken. granted_of unwoken ≡ granted_of self) }
    {
        if grants.is_empty() {
            let Unwoken { left: _ } = self;
            return None;
        }
        Some(self)
    }
}

/// A bell for each thread. Contracts see how many there are.
#[derive(Drop)]
pub(crate) struct Bells {
    all: Vec<Bell>,
}

impl Model for Bells {
    ghost use Rattle.std.specs.Prelude.{ℕ, vec_len};
    ghost use Rattle.nt_front.specs.Wakes.{AreNumbered};

    ghost Value = { ℕ };

    ghost view = { λ b. vec_len b.all };

    ghost invariant = { λ b. AreNumbered b.all.items };
}

impl Bells {
    /// A bell for each of `threads` threads.
    ///
    /// Refused with 8 where memory is refused.
    #[tactic(auto, using(crate::proofs::Belling::one_bell_more))]
    pub(crate) fn new(alloc: Global, threads: u16) -> Result<Bells, Refusal>
        ensures count { IfOk result (λ bells. bells ≡ threads) }
        ensures memory { IfErr result (λ r. r ≡ Memory) }
    {
        let mut all = Vec::with_capacity(alloc, usize::from(threads))?;
        for thread in 0..threads {
            all.push_reserved(Bell::new(ThreadId::new(thread)));
        }
        Ok(Bells { all })
    }

    /// The bell of this thread, where it is one of those that there are bells for.
    fn of(&self, thread: ThreadId) -> Option<&Bell>
        ensures there { is_some result ≡ nat_lt thread self.now }
        ensures own { IfSome result (λ bell. bell.now.thread ≡ thread) }
    {
        self.all.get(usize::from(thread.get()))
    }

    /// Rings the bells of these threads, and no others. It returns how many.
    pub(crate) fn ring(&self, threads: ToWake) -> usize
        ensures { result ≡ rings_for threads self.now }
    {
        let ToWake { marks } = threads;
        match marks {
            Some(marks) => self.ring_slow(marks),
            None => 0,
        }
    }

    /// Rings the bells of the threads that have a mark. It returns how many.
    #[tactic(auto, using(crate::proofs::Belling::rings_most, crate::proofs::Belling::rings_none, crate::proofs::Belling::rings_once, crate::proofs::Belling::rings_far))]
    #[inline(never)]
    fn ring_slow(&self, mut marks: FewMarks) -> usize
        ensures { result ≡ marked_below self.now marks }
    {
        let mut rung = 0;
        while let Some(thread) = marks.take_first() {
            if let Some(bell) = self.all.get(thread) {
                bell.ring();
                rung += 1;
            }
        }
        rung
    }

    /// A ticket for this thread, of how often its bell has rung by now.
    pub(crate) fn ticket<N: Named>(&self, sleeper: &Sleeper<N>) -> Ticket<'_, N>
        ensures before { result.before.value ≡ sleeper.now }
        ensures there { is_some result.seen ≡ nat_lt sleeper.now.thread self.now }
        ensures own { IfSome result.seen (λ seen. seen.bell.now.thread ≡ sleeper.now.thread) }
    {
        let seen = match self.of(sleeper.thread()) {
            Some(bell) => Some(bell.look()),
            None => None,
        };
        Ticket {
            seen,
            before: Snapshot::of(sleeper),
        }
    }
}

/// How often a thread's bell had rung before the thread looked for its grant, and what the thread knew then.
///
/// A grant is sent before its bell rings: one that the look does not find rings after this.
#[derive(Drop)]
pub(crate) struct Ticket<'b, N: Named> {
    seen: Option<Seen<'b>>,
    before: Snapshot<Sleeper<N>>,
}

impl<N: Named> Ticket<'_, N> {
    /// Sleeps until the thread's bell rings, unless it has rung since the ticket was made. It may return before, and takes no lock.
    pub(crate) fn sleep(&self, rt: &impl Wait, sleeper: &Sleeper<N>)
        requires looked { IsStill self.now.before.value sleeper.now }
        requires own { IfSome self.now.seen (λ seen. seen.bell.now.thread ≡ sleeper.now.thread) }
    {
        let _ = sleeper;
        if let Some(seen) = &self.seen {
            seen.sleep(rt);
        }
    }
}
