//! What objects are and why threads wait, as C sees it. All of these are looks, and change nothing.
ghost use Rattle.std.specs.Prelude.{◌≡◌, ◌↔◌, true, length, MatchBool, OnOk, OnErr};
ghost use Rattle.nt_calls.specs.Steps.{IsNextMoment, NothingDue};
ghost use Rattle.nt_machine.specs.Dispatcher.{state};
ghost use Rattle.nt_look.specs.Hangs.{unmarked, IsStuck};
ghost use Rattle.nt_c.specs.Asks.{Keeps};
ghost use Rattle.nt_c.specs.Looks.{plain_object, owned_in, armed_in, object_for_c, IsWhy, ReadsNumbered, ReadsOpened, ReadsWhy};

use crate::handle::Nt;
use crate::numbers::{INVALID_HANDLE, INVALID_PARAMETER, NO_MORE, OUT_OF_MEMORY};
use nt_core::Core;
use nt_look::{greatest_knot, is_stuck};
use nt_objects::{Armed, Object};
use nt_status::{Handle, Moment, ObjectNumber, ThreadId};
use std::alloc::{AllocError, Global};

/// An object in numbers. The kind is 0 for what is gone, 1 for an event, 2 for a semaphore, 3 for a mutex, 4 for a timer, 5 for a thread;
/// fields that a kind does not name are 0.
#[repr(C)]
#[derive(Clone, Copy, PartialEq, Eq, Debug)]
pub struct NtObject {
    pub kind: u32,
    /// Whether an event or a timer is manual-reset.
    pub manual: bool,
    /// Whether an event or a timer is set, or a thread has ended.
    pub set: bool,
    /// Whether a mutex is owned, and whether its last owner ended while it held it.
    pub owned: bool,
    pub abandoned: bool,
    /// Whether a timer is armed.
    pub armed: bool,
    /// A semaphore's count, and its maximum.
    pub count: i32,
    pub maximum: i32,
    /// A mutex's owner, and how many releases it owes.
    pub owner: u32,
    pub depth: u32,
    /// The moment at which an armed timer expires, in units of 100 ns, and its period in milliseconds.
    pub due: u64,
    pub period: u32,
}

/// What a handle names: the number of the object, and the rights.
#[repr(C)]
#[derive(Clone, Copy, PartialEq, Eq, Debug)]
pub struct NtOpened {
    pub object: u32,
    pub access: u32,
}

/// Whether nothing can end the waits there are, and when something is due next.
#[repr(C)]
#[derive(Clone, Copy, PartialEq, Eq, Debug)]
pub struct NtWhy {
    pub stuck: bool,
    /// Whether something is due by the moment that was asked.
    pub due: bool,
    /// When, in units of 100 ns; else 0.
    pub next: u64,
}

/// An object of this kind, of which nothing else is said.
fn plain(kind: u32) -> NtObject
    ensures { result ≡ plain_object kind }
{
    NtObject {
        kind,
        manual: false,
        set: false,
        owned: false,
        abandoned: false,
        armed: false,
        count: 0,
        maximum: 0,
        owner: 0,
        depth: 0,
        due: 0,
        period: 0,
    }
}

/// A mutex with its owner, or with none.
fn with_owner(object: NtObject, owner: Option<ThreadId>) -> NtObject
    ensures { result ≡ owned_in object owner }
{
    match owner {
        None => object,
        Some(owner) => NtObject {
            owned: true,
            owner: u32::from(owner.get()),
            ..object
        },
    }
}

/// A timer with its setting, or with none.
fn with_setting(object: NtObject, armed: Option<Armed>) -> NtObject
    ensures { result ≡ armed_in object armed }
{
    match armed {
        None => object,
        Some(armed) => NtObject {
            armed: true,
            due: armed.due,
            period: armed.period,
            ..object
        },
    }
}

/// The object in numbers.
fn in_numbers(object: &Object) -> NtObject
    ensures { result ≡ object_for_c object.now }
{
    match *object {
        Object::Gone => plain(0),
        Object::Event { manual, set } => NtObject {
            manual,
            set,
            ..plain(1)
        },
        Object::Semaphore { count, maximum } => NtObject {
            count,
            maximum,
            ..plain(2)
        },
        Object::Mutex {
            owner,
            depth,
            abandoned,
        } => with_owner(
            NtObject {
                depth,
                abandoned,
                ..plain(3)
            },
            owner,
        ),
        Object::Timer { manual, set, armed } => with_setting(
            NtObject {
                manual,
                set,
                ..plain(4)
            },
            armed,
        ),
        Object::Thread { ended } => NtObject {
            set: ended,
            ..plain(5)
        },
    }
}

/// The object with this number: `nt_opened` and `nt_waited_object` answer such numbers.
///
/// Refused with 6 where the handle has no dispatcher, and with 259 where no object has this number.
#[unsafe(no_mangle)]
pub extern "C" fn nt_object(nt: &mut Nt, object: u32, out: &mut NtObject) -> u32
    ensures same { Keeps nt.old nt.new }
    ensures reads { ReadsNumbered object nt.old result out.old out.new }
{
    if !nt.live {
        return INVALID_HANDLE;
    }
    let core = nt.cell.held_mut().core();
    let Some(found) = core.objects().get(object as usize) else {
        return NO_MORE;
    };
    *out = in_numbers(found);
    0
}

/// The object that the handle names, and with which rights. Refused with 6 where the handle names nothing, or there is no dispatcher.
#[unsafe(no_mangle)]
pub extern "C" fn nt_opened(nt: &mut Nt, handle: u32, out: &mut NtOpened) -> u32
    ensures same { Keeps nt.old nt.new }
    ensures reads { ReadsOpened handle nt.old result out.old out.new }
{
    if !nt.live {
        return INVALID_HANDLE;
    }
    let Some(opened) = nt.cell.held_mut().core().opened(Handle::new(handle)) else {
        return INVALID_HANDLE;
    };
    *out = NtOpened {
        object: opened.object.get(),
        access: opened.access.bits(),
    };
    0
}

/// Whether all is stuck, and what is due next.
fn verdict(core: &Core, over: &[bool], up_to: Moment) -> NtWhy
    ensures stuck { (result.stuck ≡ true) ↔ IsStuck (unmarked over.now) (state core.now) }
    ensures next { MatchBool result.due (IsNextMoment (state core.now) up_to result.next)
        (NothingDue (state core.now) up_to × (result.next ≡ 0)) }
{
    let stuck = is_stuck(core, over);
    match core.due(up_to) {
        Some(moment) => NtWhy {
            stuck,
            due: true,
            next: moment.get(),
        },
        None => NtWhy {
            stuck,
            due: false,
            next: 0,
        },
    }
}

/// Writes down why threads wait. The list has a place for each thread.
fn write_why(
    alloc: Global,
    core: &Core,
    over: &[bool],
    up_to: Moment,
    out: &mut NtWhy,
    knot: &mut [bool],
) -> Result<(), AllocError>
    requires { length knot.old ≡ (state core.now).threads }
    ensures ok { OnOk result (IsWhy core.now over.now up_to out.new knot.new) }
    ensures err { OnErr result ((out.new ≡ out.old) × (knot.new ≡ knot.old)) }
{
    let found = greatest_knot(alloc, core, over)?;
    knot.copy_from_slice(&found);
    *out = verdict(core, over, up_to);
    Ok(())
}

/// Why threads wait: whether nothing can end the waits there are, which threads hold each other, and when something is due next, up to
/// the moment `up_to`, in units of 100 ns. The threads marked in `over` make no further call. `knot` has a place for each thread.
///
/// Refused with 87 where `up_to` is above 2^62 or `knot` has another length, with 6 where the handle has no dispatcher, and with 8
/// where memory is refused.
#[unsafe(no_mangle)]
pub extern "C" fn nt_why(
    alloc: Global,
    nt: &mut Nt,
    over: &[bool],
    up_to: u64,
    out: &mut NtWhy,
    knot: &mut [bool],
) -> u32
    ensures same { Keeps nt.old nt.new }
    ensures reads { ReadsWhy over.now up_to nt.old result out.old out.new knot.old knot.new }
{
    let Some(moment) = Moment::new(up_to) else {
        return INVALID_PARAMETER;
    };
    if !nt.live {
        return INVALID_HANDLE;
    }
    let core = nt.cell.held_mut().core();
    if knot.len() != core.threads() as usize {
        return INVALID_PARAMETER;
    }
    match write_why(alloc, core, over, moment, out, knot) {
        Ok(()) => 0,
        Err(_) => OUT_OF_MEMORY,
    }
}
