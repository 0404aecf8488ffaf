//! The word by which a thread learns of its grant.
ghost use Rattle.nt_protocols.specs.Word.{NobodySleepsInVain, GrantsAreTold, EachGrantOnce};

/// While a thread sleeps, its wait pends and nobody has called it to look at the time, or a thread is to wake it.
pub fn nobody_sleeps_in_vain()
    ensures { NobodySleepsInVain }
{}

/// The word of a thread that waits says that it was granted exactly while its wait pends no longer.
pub fn grants_are_told()
    ensures { GrantsAreTold }
{}

/// Each grant is answered once, by the wait that was granted.
pub fn each_grant_once()
    ensures { EachGrantOnce }
{}
