//! The greatest moment that a thread knows.
ghost use Rattle.std.specs.Prelude.{◌≡◌, max};
ghost use Rattle.nt_mail.specs.declared.knowledge.Asked.{Asked};
ghost use Rattle.nt_front.specs.Holds.{moment_if};

use nt_core::Reply;
use nt_status::{Moment, Refusal};

/// The later of two moments.
pub(crate) fn later_of(a: Moment, b: Moment) -> Moment
    ensures { result ≡ max a b }
{
    if a.get() < b.get() { b } else { a }
}

/// The greatest moment that a thread knows after a tick.
pub(crate) fn floor_after(floor: Moment, moment: Moment, answer: &Result<Reply, Refusal>) -> Moment
    ensures { result ≡ max floor (moment_if (Asked.Tick moment) answer.now) }
{
    match answer {
        Ok(_) => later_of(floor, moment),
        Err(_) => floor,
    }
}
