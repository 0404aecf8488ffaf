//! Parking, with one wrong step.
ghost use Rattle.nt_counterexamples.specs.Parking.{WithoutSecondLookUnderTheLatch};

/// If who waits does not look at the value again under the latch, a change is lost.
#[tactic(auto, using(crate::proofs::SleepingRuns::without_second_look_under_the_latch))]
pub fn without_second_look_under_the_latch()
    ensures { WithoutSecondLookUnderTheLatch }
{}
