//! Which numbers of a dispatcher are spare, found by a look at each handle and at each object.
ghost use Rattle.std.specs.Prelude.{◌≡◌, ℕ, IfOk, if◌then◌else◌};
ghost use Rattle.nt_machine.specs.Dispatcher.{state};
ghost use Rattle.nt_machine.specs.Lawful.{IsLawful};
ghost use Rattle.nt_core.specs.Renewals.{is_closed};
ghost use Rattle.nt_life.specs.Lasting.{times, is_unnamed};

use crate::giving::is_unnamed;
use crate::stack::Stack;
use nt_core::Core;
use nt_status::{Handle, MAX_HANDLES, ObjectNumber};
use std::alloc::{AllocError, Global};

/// The numbers of all closed handles.
pub(crate) fn closed_in(alloc: Global, core: &Core) -> Result<Stack, AllocError>
    requires lawful { IsLawful core.now }
    ensures { IfOk result (λ closed. (h : ℕ) → times h closed ≡ (if is_closed (state core.now) h then 1 else 0)) }
{
    let mut closed = Stack::new(alloc)?;
    for number in 0..MAX_HANDLES as u32 {
        if core.is_closed(Handle::new(number)) {
            closed.push(number);
        }
    }
    Ok(closed)
}

/// The numbers of all objects that are no thread's and that no handle names.
pub(crate) fn unnamed_in(alloc: Global, core: &Core) -> Result<Stack, AllocError>
    requires lawful { IsLawful core.now }
    ensures { IfOk result (λ unnamed. (o : ℕ) → times o unnamed ≡ (if is_unnamed (state core.now) o then 1 else 0)) }
{
    let mut unnamed = Stack::new(alloc)?;
    let count = core.objects().len() as u32;
    for number in 0..count {
        if is_unnamed(core, ObjectNumber::new(number)) {
            unnamed.push(number);
        }
    }
    Ok(unnamed)
}
