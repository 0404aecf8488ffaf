//! Searches that leave lanes out, and threads that stand alike.
ghost use Rattle.nt_apart.specs.Fewer.{FewerLanesAreEnough, CallsOfRenamedThreads, TicksOfRenamedThreads, OrdersOfRenamedThreads, OneOfAlikeIsEnough, ExchangeOfAlike, LawfulIsInOrder, LossesComeBackwardsByChosen, LossesAreMetAsSoon, LowestComeAsSoon};

/// A search that leaves lanes out finds a hang wherever one is, and a shortest one first, if in each of its states the chosen lanes are
/// enough: each order to a hang may as well begin with one of them.
#[tactic(auto, using(crate::proofs::Fewer::fewer_are_enough))]
pub fn fewer_lanes_are_enough()
    ensures { FewerLanesAreEnough }
{}

/// Threads may be renamed, as where two are exchanged, with their own objects and the handles that have their numbers. A call in the renamed
/// state, by the renamed thread and of the renamed handles, has the same result, ends the same waits, renamed, and leaves the renamed state: any
/// call, also one that is refused, creates, duplicates or closes, with the objects that end.
#[tactic(auto, using(crate::proofs::RenamedSteps::called_renamed))]
pub fn calls_of_renamed_threads()
    ensures { CallsOfRenamedThreads }
{}

/// And so does any tick. Waits that end at one moment may end in another order.
#[tactic(auto, using(crate::proofs::RenamedSteps::ticked_renamed))]
pub fn ticks_of_renamed_threads()
    ensures { TicksOfRenamedThreads }
{}

/// Two threads stand alike where they have the same left to do, wait for nothing, own nothing and are named by no call that is left: to exchange
/// them changes nothing of the point, and the states of dispatchers are such as this asks for. From renamed points each order has its image, of as
/// many steps, and comes to a hang where that does. So of threads that stand alike the lowest is enough: each order to a hang may as well begin with it.
pub fn one_of_alike_is_enough()
    ensures exchange { ExchangeOfAlike }
    ensures orderly { LawfulIsInOrder }
    ensures images { OrdersOfRenamedThreads }
    ensures enough { OneOfAlikeIsEnough }
{}

/// Where each lane is chosen or its thread stands alike with one of a lower lane, a wait is lost exactly where it pends and is lost wherever a chosen
/// lane leads. So a search by chosen lanes tells losses, too, and meets one as soon as any order comes to it; and if it ends at a bound, it met
/// whatever an order within that bound comes to, hang or loss.
pub fn fewer_lanes_tell_losses()
    ensures backwards { LossesComeBackwardsByChosen }
    ensures met { LossesAreMetAsSoon }
    ensures within { LowestComeAsSoon }
{}
