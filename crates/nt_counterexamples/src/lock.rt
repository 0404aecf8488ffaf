//! The lock that favours a thread, with one wrong step.
ghost use Rattle.nt_counterexamples.specs.Lock.{WithoutBarriers, WithOneLook, WithoutWakeUpOfWhoRevoked, WithAWakeUpOwedInSleep, WithASleeperForgotten, AllAtOnce};

/// If the favoured thread passes no barrier, two threads have the lock.
#[tactic(auto, using(crate::proofs::LockRuns::without_barriers))]
pub fn without_barriers()
    ensures { WithoutBarriers }
{}

/// If who was woken from a thread's `inside` does not look again, two threads have the lock.
#[tactic(auto, using(crate::proofs::LockRuns::with_one_look))]
pub fn with_one_look()
    ensures { WithOneLook }
{}

/// If who steps out wakes nobody, who has revoked its favour sleeps on.
#[tactic(auto, using(crate::proofs::LockRuns::without_wake_up_of_who_revoked))]
pub fn without_wake_up_of_who_revoked()
    ensures { WithoutWakeUpOfWhoRevoked }
{}

/// If a handler's call sleeps on the lock before it has woken who sleeps on its thread's `inside`, both sleep for good.
#[tactic(auto, using(crate::proofs::LockRuns::with_a_wake_up_owed_in_sleep))]
pub fn with_a_wake_up_owed_in_sleep()
    ensures { WithAWakeUpOwedInSleep }
{}

/// If who was woken makes a free lock taken and not wanted, the second sleeper is forgotten.
#[tactic(auto, using(crate::proofs::LockRuns::with_a_sleeper_forgotten))]
pub fn with_a_sleeper_forgotten()
    ensures { WithASleeperForgotten }
{}

/// A run of the right protocol in which all that the laws speak of happens.
#[tactic(auto, using(crate::proofs::LockRuns::all_at_once))]
pub fn all_at_once()
    ensures { AllAtOnce }
{}
