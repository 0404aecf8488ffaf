//! Threads that begin in the places of those that have ended.
ghost use Rattle.std.specs.Prelude.{◌≡◌, true};
ghost use Rattle.nt_machine.specs.Dispatcher.{state};
ghost use Rattle.nt_machine.specs.Lawful.{IsLawful};
ghost use Rattle.nt_core.specs.Renewals.{is_closed};
ghost use Rattle.nt_life.specs.Lasting.{MaySpare, BeginsSpare, BeginsThis, MayBegin, MayBeginThis, MayPop, HasSpare, BeginsSomewhere, LeavesSpare};

use crate::begun::Begun;
use crate::spare::Spare;
use nt_core::Core;
use nt_status::Handle;

/// A thread begins in the first place that is free, with this handle. It answers its number; none if no place is free.
fn begin_first(core: &mut Core, handle: Handle) -> Option<u32>
    requires lawful { IsLawful core.old }
    requires closed { is_closed (state core.old) handle ≡ true }
    ensures begun { BeginsSomewhere (state core.old) handle result core.new.grants (state core.new) }
    ensures lawful { IsLawful core.new }
{
    let threads = core.threads();
    for thread in 0..threads {
        if core.begin_again(thread, handle).is_ok() {
            return Some(thread);
        }
    }
    None
}

/// A thread begins in the place of one that has ended, and its handle gets the number of the handle that was closed last.
fn begin(core: &mut Core, spare: &mut Spare) -> Option<Begun>
    requires { HasSpare core.old spare.old }
    ensures begun { BeginsSpare (state core.old) spare.old result core.new.grants (state core.new) }
    ensures leaves { LeavesSpare spare.old core.new spare.new }
{
    let handle = spare.handle()?;
    let thread = begin_first(core, handle)?;
    spare.take_handle();
    Some(Begun { thread, handle })
}

/// A thread begins as by `begin`; none begins if each number is given once.
pub(crate) fn begin_with(core: &mut Core, spare: &mut Option<Spare>) -> Option<Begun>
    requires lawful { IsLawful core.old }
    requires spare { MaySpare (state core.old) spare.old }
    ensures begun { MayBegin (state core.old) spare.old result core.new.grants (state core.new) }
    ensures lawful { IsLawful core.new }
    ensures spare { MaySpare (state core.new) spare.new }
    ensures stacked { MayPop spare.old spare.new }
{
    match spare {
        Some(spare) => begin(core, spare),
        None => None,
    }
}

/// A thread begins in this place, of one that has ended, and its handle gets the number of the handle that was closed last.
fn begin_this(core: &mut Core, spare: &mut Spare, thread: u32) -> Option<Handle>
    requires { HasSpare core.old spare.old }
    ensures begun { BeginsThis (state core.old) spare.old thread result core.new.grants (state core.new) }
    ensures leaves { LeavesSpare spare.old core.new spare.new }
{
    let handle = spare.handle()?;
    if core.begin_again(thread, handle).is_err() {
        return None;
    }
    spare.take_handle();
    Some(handle)
}

/// A thread begins as by `begin_this`; none begins if each number is given once.
pub(crate) fn begin_this_with(
    core: &mut Core,
    spare: &mut Option<Spare>,
    thread: u32,
) -> Option<Handle>
    requires lawful { IsLawful core.old }
    requires spare { MaySpare (state core.old) spare.old }
    ensures begun { MayBeginThis (state core.old) spare.old thread result core.new.grants (state core.new) }
    ensures lawful { IsLawful core.new }
    ensures spare { MaySpare (state core.new) spare.new }
    ensures stacked { MayPop spare.old spare.new }
{
    match spare {
        Some(spare) => begin_this(core, spare, thread),
        None => None,
    }
}
