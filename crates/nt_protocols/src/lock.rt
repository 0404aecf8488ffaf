//! The lock that favours a thread.
ghost use Rattle.nt_protocols.specs.Lock.{OneOwner, OneClaimer, FavoursAreMadeByClaimers, InsideTells, NobodyWaitsForTheFavouredInVain, NobodySleepsInVain};

/// No two threads have the lock, favoured or not.
pub fn one_owner()
    ensures { OneOwner }
{}

/// One thread at most has made the lock taken or wanted and not given it back, whether it has it or still revokes.
pub fn one_claimer()
    ensures { OneClaimer }
{}

/// The lock comes to favour a thread only by that thread while it has the lock, or by one that has revoked the favour and puts it back.
pub fn favours_are_made_by_claimers()
    ensures { FavoursAreMadeByClaimers }
{}

/// What a thread sees of its `inside` tells how it has the lock, and so how it is to give it back.
pub fn inside_tells()
    ensures { InsideTells }
{}

/// While a thread sleeps until the favoured one is outside, the favoured one is awake and is to wake it.
pub fn nobody_waits_for_the_favoured_in_vain()
    ensures { NobodyWaitsForTheFavouredInVain }
{}

/// While a thread sleeps on the lock, some thread comes to a step that wakes one, and is awake itself or about to be woken.
pub fn nobody_sleeps_on_the_lock_in_vain()
    ensures { NobodySleepsInVain }
{}
