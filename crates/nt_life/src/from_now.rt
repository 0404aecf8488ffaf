//! A dispatcher that gave each number once, and gives numbers again from now on.
ghost use Rattle.nt_machine.specs.Dispatcher.{state};
ghost use Rattle.nt_machine.specs.Lawful.{IsLawful};
ghost use Rattle.nt_life.specs.Lasting.{GivesFromNow, MaySpare};

use crate::spare::Spare;
use nt_core::Core;
use nt_status::Refusal;
use std::alloc::Global;

/// Each number that may be given again is spare from now on. If some may be already, nothing is done.
pub(crate) fn give_from_now(
    alloc: Global,
    core: &Core,
    spare: &mut Option<Spare>,
) -> Result<(), Refusal>
    requires lawful { IsLawful core.now }
    requires spare { MaySpare (state core.now) spare.old }
    ensures gives { GivesFromNow (state core.now) spare.old result spare.new }
    ensures spare { MaySpare (state core.now) spare.new }
{
    if spare.is_some() {
        return Ok(());
    }
    *spare = Some(Spare::of(alloc, core)?);
    Ok(())
}
