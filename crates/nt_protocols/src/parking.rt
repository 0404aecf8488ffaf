//! Parking: threads that wait at an address.
ghost use Rattle.nt_protocols.specs.Parking.{NobodyIsParkedInVain, NoChangeIsLost, WhoLeavesIsListed, EachUnparkOnce};

/// A thread that sleeps stands in the list, or a thread that has taken it off or unparked it is to wake it.
pub fn nobody_is_parked_in_vain()
    ensures { NobodyIsParkedInVain }
{}

/// While a thread stands in the list though the value is no longer the one that it waits at, some thread is to unpark all.
pub fn no_change_is_lost()
    ensures { NoChangeIsLost }
{}

/// Who finds under the latch that nobody has unparked it stands in the list, and may leave it.
pub fn who_leaves_is_listed()
    ensures { WhoLeavesIsListed }
{}

/// Each unpark is answered once, by the wait that was unparked.
pub fn each_unpark_once()
    ensures { EachUnparkOnce }
{}
