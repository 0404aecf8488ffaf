//! What follows of every run from a state in which threads hang.
ghost use Rattle.nt_look.specs.Hanging.{StuckStays, KnotsHold};
ghost use Rattle.nt_look.specs.Orders.{HangsAreForGood, LossesComeBackwards, SearchesMissNothing, StepsAreCounted};

/// A stuck state stays so: whatever its threads call and however much time passes, each call is refused and no wait ends.
pub fn stuck_stays()
    ensures { StuckStays }
{}

/// A knot holds: whatever the other threads do, none of its threads goes on, and each waits as it did.
pub fn knots_hold()
    ensures { KnotsHold }
{}

/// A hang is for good: some thread's wait is lost, and ends in no order of what the threads have left to call.
pub fn hangs_are_for_good()
    ensures { HangsAreForGood }
{}

/// A search that is closed misses nothing: where none of its points hangs, no order does.
pub fn searches_miss_nothing()
    ensures { SearchesMissNothing }
{}

/// Whoever comes to a point came there by as many steps as its places tell: a search level by level finds a shortest hang first.
pub fn steps_are_counted()
    ensures { StepsAreCounted }
{}

/// A wait is lost exactly where it pends and is lost wherever one thread's next call leads: so one pass backwards over all points that
/// were met tells of each which waits are lost there.
pub fn losses_come_backwards()
    ensures { LossesComeBackwards }
{}
