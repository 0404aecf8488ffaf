//! What follows for who goes on, and for the time.
ghost use Rattle.nt_schedule.specs.Laws.{WhoIsChosenCanGoOn, TimeComesToDeadlines, HangsExactly};

/// A thread that is chosen can go on.
#[tactic(auto, using(crate::proofs::WhoGoesOn::who_can))]
pub fn who_is_chosen_can_go_on()
    ensures { WhoIsChosenCanGoOn }
{}

/// The time never goes back. It changes only where the clock goes on, and then comes to the next deadline; and where the time is not free, no
/// thread could go on.
#[tactic(auto, using(crate::proofs::Deadlines::time_tells))]
pub fn time_comes_to_deadlines()
    ensures { TimeComesToDeadlines }
{}

/// Nobody goes on exactly where no thread can and none has a deadline.
#[tactic(auto, using(crate::proofs::WhoGoesOn::nobody_means, crate::proofs::WhoGoesOn::nobody_where))]
pub fn hangs_exactly()
    ensures { HangsExactly }
{}
