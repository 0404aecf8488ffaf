//! Why threads wait, in one answer.
ghost use Rattle.std.specs.Prelude.{◌≡◌, ◌↔◌, true, IfOk, MatchOption};
ghost use Rattle.nt_machine.specs.Dispatcher.{state};
ghost use Rattle.nt_calls.specs.Steps.{IsNextMoment, NothingDue};
ghost use Rattle.nt_look.specs.Hangs.{IsStuck, IsGreatestKnot};

use crate::knot::greatest_knot;
use crate::stuck::is_stuck;
use nt_core::Core;
use nt_status::Moment;
use std::alloc::{AllocError, Global};

/// Why threads wait, and whether anything can end it.
#[derive(Drop)]
pub struct Verdict {
    /// Every thread that runs waits, and time alone ends no wait: none ever goes on.
    pub stuck: bool,
    /// By thread, whether it is of the greatest knot: whatever the others do, none of these ever goes on.
    pub knot: Vec<bool>,
    /// The next moment at which something is due, if there is one up to the moment that was asked.
    pub next: Option<Moment>,
}

/// Tells whether nothing can end the waits there are, which threads hold each other, and when something is due next, up to a moment.
pub fn why(alloc: Global, core: &Core, up_to: Moment) -> Result<Verdict, AllocError>
    ensures stuck { IfOk result (λ verdict. (verdict.stuck ≡ true) ↔ IsStuck (λ _. true) (state core.now)) }
    ensures knot { IfOk result (λ verdict. IsGreatestKnot (λ _. true) (state core.now) verdict.knot.items) }
    ensures next { IfOk result (λ verdict. MatchOption verdict.next (NothingDue (state core.now) up_to)
        (IsNextMoment (state core.now) up_to)) }
{
    Ok(Verdict {
        stuck: is_stuck(core, &[]),
        knot: greatest_knot(alloc, core, &[])?,
        next: core.due(up_to),
    })
}
