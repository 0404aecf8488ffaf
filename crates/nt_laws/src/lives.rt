//! Laws of lives, in which numbers are given again.
ghost use Rattle.nt_laws.specs.Lives.{RunsAreLives, HandlesStayUntilGivenAgain, RightsNeverGrowUntilGivenAgain, RightsNeverGrowThoughMoved, ObjectsLiveWhileKeptInLives, LivesOneWay};
ghost use Rattle.nt_laws.specs.Since.{SemaphoresGiveWhatTheyHaveSinceGiven, OneOwnerSinceGiven, OneSetOneWaitSinceGiven};

/// A run is a life of turns alone, and such a life is a run.
#[tactic(auto, using(crate::proofs::Combining::runs_are_lives))]
pub fn runs_are_lives()
    ensures { RunsAreLives }
{}

/// Over every part of a life in which its number is not given again, a handle names the same object, by the number that the object has
/// then, with the same rights, and nothing from its closing on.
#[tactic(auto, using(crate::proofs::Combining::handles_stay_until_given_again))]
pub fn handles_stay_until_given_again()
    ensures { HandlesStayUntilGivenAgain }
{}

/// Rights never grow: over every part of a life in which its number is not given again, the rights that a handle of an object has at
/// the end, a handle of it had at the beginning, if the object was there.
pub fn rights_never_grow_until_given_again()
    ensures { RightsNeverGrowUntilGivenAgain }
{}

/// Rights never grow where an object moves either: over every part of a life in which the number that it has then is not given to
/// another object, the rights that a handle of it has at the end, a handle of it had at the beginning, if the object was there.
pub fn rights_never_grow_though_moved()
    ensures { RightsNeverGrowThoughMoved }
{}

/// Over every life an object lives exactly while something keeps it: a handle names it, a pending wait names it, or it is a thread
/// that runs.
#[tactic(auto, using(crate::proofs::Lifelong::life_living))]
pub fn objects_live_while_kept_in_lives()
    ensures { ObjectsLiveWhileKeptInLives }
{}

/// A semaphore hands out exactly what it was given, since its number was given last. Its count and the number of times that it was
/// taken make up what it was given, and the count stays between zero and the maximum.
pub fn semaphores_give_what_they_have_since_given()
    ensures { SemaphoresGiveWhatTheyHaveSinceGiven }
{}

/// A mutex has one owner at most: after every life a thread holds it as deep as it owes releases of it since the mutex's number was given
/// last, and no two threads owe one.
#[tactic(auto, using(crate::proofs::Combining::one_owner_since_given))]
pub fn one_owner_since_given()
    ensures { OneOwnerSinceGiven }
{}

/// One set of an auto-reset event ends at most one wait. In any part of a life, from where the event's number was given last in it, it
/// is taken at most as often as it is set.
#[tactic(auto, using(crate::proofs::SettingSince::event_since))]
pub fn one_set_one_wait_since_given()
    ensures { OneSetOneWaitSinceGiven }
{}

/// Lives leave no choice: every result, every grant and the state are a function of what was asked for, in its order, and of which calls
/// found no memory.
#[tactic(auto, using(crate::proofs::Combining::lives_one_way))]
pub fn lives_one_way()
    ensures { LivesOneWay }
{}
