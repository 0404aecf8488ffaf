//! Laws of the definitions, as contracts of functions that do nothing.
ghost use Rattle.nt_laws.specs.Laws.{ServesOneWay, RunsOneWay, SemaphoresGiveWhatTheyHave, OneOwner, OneSetOneWait, HandlesStay, RightsNeverGrow, LivesExactlyWhileKept};

/// The order of grants leaves no choice: which waits a change ends, with which statuses, and the state after it are a
/// function of the state and of the sequence of the waits on changed objects.
#[tactic(auto, using(crate::proofs::Combining::serves_one_way))]
pub fn serves_one_way()
    ensures { ServesOneWay }
{}

/// Runs leave no choice: every result, every grant and the state are a function of the calls and ticks in their order, and of
/// which calls found no memory.
#[tactic(auto, using(crate::proofs::RunsAsLives::runs_same))]
pub fn runs_one_way()
    ensures { RunsOneWay }
{}

/// A semaphore hands out exactly what it was given. Over every run its count and the number of times that it was taken make
/// up what it was given, and the count stays between zero and the maximum.
pub fn semaphores_give_what_they_have()
    ensures { SemaphoresGiveWhatTheyHave }
{}

/// A mutex has one owner at most: after every run a thread holds it as deep as it owes releases of it, and no two threads owe one.
#[tactic(auto, using(crate::proofs::Combining::one_owner))]
pub fn one_owner()
    ensures { OneOwner }
{}

/// One set of an auto-reset event ends at most one wait: in any part of a run it is taken at most as often as it is set. A set
/// that stands at the beginning counts.
#[tactic(auto, using(crate::proofs::RunsAsLives::event_account))]
pub fn one_set_one_wait()
    ensures { OneSetOneWait }
{}

/// A number is handed out once: over every part of a run it names the same object with the same rights, and nothing from its
/// closing on.
#[tactic(auto, using(crate::proofs::RunsAsLives::run_stays))]
pub fn handles_stay()
    ensures { HandlesStay }
{}

/// Rights never grow: over every part of a run, the rights that a handle of an object has at the end, a handle of it had at the
/// beginning, if the object was there. So a right that no handle of an object has any longer never comes back.
pub fn rights_never_grow()
    ensures { RightsNeverGrow }
{}

/// Over every run an object lives exactly while something keeps it: a handle names it, a pending wait names it, or it is a thread
/// that runs.
#[tactic(auto, using(crate::proofs::RunsAsLives::run_living))]
pub fn objects_live_while_kept()
    ensures { LivesExactlyWhileKept }
{}
