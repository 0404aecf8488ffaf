//! Steps of two threads that commute.
ghost use Rattle.nt_apart.specs.Apart.{ChangesOfTwoObjectsCommute, CallsOnTwoObjectsCommute, WakingCommutes, WaitsBeginInEitherOrder, WaitsBeginBesideChanges, WaitsCommuteWithChanges, SignalsCommute, ApcsToTwoThreadsCommute, SignalsCommuteWithApcs, ApcsCommuteWithSignals, TwoTimersCommute, SignalsCommuteWithTimers, TimersCommuteWithSignals};
ghost use Rattle.nt_apart.specs.Footprint.{StepsApartCommute, TwoClosesCommute};

/// Two acts that change one object each, not the same, that no pending wait names, may be made in either order: the replies are the same, no
/// wait ends, and the state after both is the same.
pub fn changes_of_two_objects_commute()
    ensures { ChangesOfTwoObjectsCommute }
{}

/// The same of whole calls: judged by their handles and rights, accepted, with the end of objects that nothing keeps.
pub fn calls_on_two_objects_commute()
    ensures { CallsOnTwoObjectsCommute }
{}

/// One of the two acts may end waits, as many as there are, if no pending wait names the object of the other: then too they may be made in
/// either order, and each ends the same waits.
pub fn waking_commutes()
    ensures { WakingCommutes }
{}

/// Two acts (a set, a reset, a pulse, a release, an unlock) may each end waits, as many as there are, if no object is within reach of both: the
/// one that is signaled, and what else the waits for it name. They may be made in either order, and each ends the same waits in the same order.
pub fn signals_commute()
    ensures { SignalsCommute }
{}

/// Waits of two threads that name no object in common begin in either order: each is over at once or pends as it would alone, with the same
/// status, and the state after both is the same.
#[tactic(auto, using(crate::proofs::Waits::two_waits))]
pub fn waits_begin_in_either_order()
    ensures { WaitsBeginInEitherOrder }
{}

/// A wait begins before or after the change of an object that it does not name, with the same answer and the same state after both.
#[tactic(auto, using(crate::proofs::Unawaited::beside_both))]
pub fn waits_begin_beside_changes()
    ensures { WaitsBeginBesideChanges }
{}

/// The same as steps: a wait, and an act on an object that neither it nor any pending wait names, may be made in either order.
pub fn waits_commute_with_changes()
    ensures { WaitsCommuteWithChanges }
{}

/// APCs are queued to two threads in either order, whether or not each ends a wait of its thread.
pub fn apcs_to_two_threads_commute()
    ensures { ApcsToTwoThreadsCommute }
{}

/// An act that may end waits of other threads, and then an APC to a thread that does not wait for its object, may be made in either order.
pub fn signals_commute_with_apcs()
    ensures { SignalsCommuteWithApcs }
{}

/// The same where the APC is queued first.
pub fn apcs_commute_with_signals()
    ensures { ApcsCommuteWithSignals }
{}

/// Two timers may be set for later moments or cancelled in either order, whether or not waits for them pend or their APCs are queued.
pub fn two_timers_commute()
    ensures { TwoTimersCommute }
{}

/// An act that may end waits, and then a timer that is set for later or cancelled and is not within reach of the act's object, may be made in
/// either order.
pub fn signals_commute_with_timers()
    ensures { SignalsCommuteWithTimers }
{}

/// The same where the timer is set or cancelled first.
pub fn timers_commute_with_signals()
    ensures { TimersCommuteWithSignals }
{}

/// Two calls that touch nothing in common may be made in either order, but for creations and duplicates of handles: with the same replies, grants and
/// state, whether or not they end waits.
pub fn steps_apart_commute()
    ensures { StepsApartCommute }
{}

/// Two handles may be closed in either order, as whole calls, whether or not an object ends with either.
pub fn two_closes_commute()
    ensures { TwoClosesCommute }
{}
