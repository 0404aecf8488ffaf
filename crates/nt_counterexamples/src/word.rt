//! The word by which a thread learns of its grant, with one wrong step.
ghost use Rattle.nt_counterexamples.specs.Word.{WithAGrantOverwritten, WithoutWakeUpOfWhoWasTold};

/// If who looks at the time sets its word back though it was granted, the grant is lost.
#[tactic(auto, using(crate::proofs::SleepingRuns::with_a_grant_overwritten))]
pub fn with_a_grant_overwritten()
    ensures { WithAGrantOverwritten }
{}

/// If who tells a thread whose word is asleep does not wake it, it sleeps on.
#[tactic(auto, using(crate::proofs::SleepingRuns::without_wake_up_of_who_was_told))]
pub fn without_wake_up_of_who_was_told()
    ensures { WithoutWakeUpOfWhoWasTold }
{}
