//! Ended threads that handles still name, and whose objects are set aside.
ghost use Rattle.std.specs.Prelude.{◌≡◌, ◌<◌, true, Ok, OnErr, length, slice_index_or};
ghost use Rattle.nt_machine.specs.Dispatcher.{state};
ghost use Rattle.nt_machine.specs.Lawful.{IsLawful};
ghost use Rattle.nt_core.specs.Renewals.{is_vacant};
ghost use Rattle.nt_core.specs.SetAside.{is_movable};
ghost use Rattle.nt_life.specs.Lasting.{MaySpare, KeepsClosed, MovesAside, SetsAsideSpare, MaySetAside, HasSpare};

use crate::spare::Spare;
use nt_core::Core;
use nt_status::{ObjectNumber, Refusal};

/// The thread's object gets the number at this place, which is returned.
fn set_aside_at(core: &mut Core, spare: &mut Spare, thread: u32, place: usize) -> ObjectNumber
    requires has { HasSpare core.old spare.old }
    requires place { place < length spare.old.unnamed }
    requires movable { is_movable (state core.old) thread ≡ true }
    requires vacant { is_vacant (state core.old) (slice_index_or spare.old.unnamed place 0) ≡ true }
    ensures moves { MovesAside (state core.old) thread (slice_index_or spare.old.unnamed place 0) (Ok result)
        core.new.grants (state core.new) }
    ensures has { HasSpare core.new spare.new }
    ensures closed { spare.new.closed ≡ spare.old.closed }
{
    let object = spare.object(place);
    let _done = core.set_aside(thread, object);
    spare.take_object(place);
    object
}

/// The thread's object gets a spare number. An object number is added, if none can be given.
fn set_aside(core: &mut Core, spare: &mut Spare, thread: u32) -> Result<ObjectNumber, Refusal>
    requires { HasSpare core.old spare.old }
    ensures aside { SetsAsideSpare (state core.old) thread result core.new.grants (state core.new) }
    ensures unchanged { OnErr result ((state core.new ≡ state core.old) × (spare.new ≡ spare.old)) }
    ensures has { HasSpare core.new spare.new }
    ensures closed { spare.new.closed ≡ spare.old.closed }
{
    if !core.is_movable(thread) {
        return Err(Refusal::InvalidHandle);
    }
    if let Some(place) = spare.any_vacant(core) {
        return Ok(set_aside_at(core, spare, thread, place));
    }
    let object = match core.add_vacant() {
        Ok(object) => object,
        Err(refusal) => return Err(refusal),
    };
    let place = spare.add_object(object);
    Ok(set_aside_at(core, spare, thread, place))
}

/// Sets the thread's object aside as `set_aside` does; none is set aside if each number is given once.
pub(crate) fn set_aside_with(
    core: &mut Core,
    spare: &mut Option<Spare>,
    thread: u32,
) -> Result<ObjectNumber, Refusal>
    requires lawful { IsLawful core.old }
    requires spare { MaySpare (state core.old) spare.old }
    ensures aside { MaySetAside (state core.old) spare.old thread result core.new.grants (state core.new) }
    ensures unchanged { OnErr result ((state core.new ≡ state core.old) × (spare.new ≡ spare.old)) }
    ensures lawful { IsLawful core.new }
    ensures spare { MaySpare (state core.new) spare.new }
    ensures closed { KeepsClosed spare.old spare.new }
{
    match spare {
        Some(spare) => set_aside(core, spare, thread),
        None => Err(Refusal::InvalidHandle),
    }
}
