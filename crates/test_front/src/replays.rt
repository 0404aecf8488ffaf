//! Entries made again on the dispatcher that they began at, and such as are not those that it writes.
ghost use Rattle.std.specs.Prelude.{◌≡◌, false};
ghost use Rattle.nt_mail.specs.Packed.{hands_apc};

use crate::expect::expect;
use crate::refused::{is_refusing, tell_refused};
use nt_core::{Act, Call, Core, Reply, WaitCall, WaitMode};
use nt_life::Renewal;
use nt_mail::PackedEntry;
use nt_replay::{Unreplayed, replay};
use nt_status::{Handle, Moment, ObjectNumber, Refusal, Status, ThreadId};
use std::alloc::{AllocError, Global};

/// An entry as data.
#[derive(Clone, Copy)]
enum Told {
    /// The second thread begins to sleep for 1 ms.
    Sleeps,
    /// The first thread lets 1 ms pass, which is refused where there is a refusal.
    Passes(Result<(), Refusal>),
    /// The sleep ends with 0, as sleeps do.
    Wakes,
    /// The sleep ends as a wait would that timed out.
    TimesOut,
    /// The first thread creates an event, with this handle.
    Creates(Result<u32, Refusal>),
    /// The first thread duplicates the event's handle 2, with this handle.
    Shares(u32),
    /// The first thread closes this handle.
    Closes(u32),
    /// The second thread ends.
    Ends,
    /// The first thread creates an event, at these numbers of an object and a handle.
    CreatesAt(u32, u32, Result<u32, Refusal>),
    /// As `CreatesAt`, once the object's number was added.
    CreatesAdded(u32, u32),
    /// No object number could be added for a creation of the first thread.
    AddsNone(Refusal),
    /// The first thread duplicates the event's handle 2, at this number.
    SharesAt(u32, Result<u32, Refusal>),
    /// The second thread begins again, with a handle of this number.
    Begins(u32),
}

use Told::{
    AddsNone, Begins, Closes, Creates, CreatesAdded, CreatesAt, Ends, Passes, Shares, SharesAt,
    Sleeps, TimesOut, Wakes,
};

const DONE: Told = Passes(Ok(()));

/// The objects of two threads have handles 0 and 1.
const CREATED: Told = Creates(Ok(2));

/// What the entries are, and where they stop to be those that a dispatcher of two threads writes.
const ROWS: &[(&str, &[Told], Option<Unreplayed>)] = &[
    ("nothing", &[], None),
    ("all", &[Sleeps, DONE, Wakes, CREATED], None),
    (
        "the grant is lacking at the end",
        &[Sleeps, DONE],
        Some(Unreplayed::Differs(2)),
    ),
    (
        "the grant is lacking before another call",
        &[Sleeps, DONE, CREATED],
        Some(Unreplayed::Differs(2)),
    ),
    (
        "a grant of nothing",
        &[DONE, Wakes],
        Some(Unreplayed::Differs(1)),
    ),
    (
        "a grant too early",
        &[Sleeps, Wakes, DONE],
        Some(Unreplayed::Differs(1)),
    ),
    (
        "another status",
        &[Sleeps, DONE, TimesOut],
        Some(Unreplayed::Differs(2)),
    ),
    (
        "another handle",
        &[Creates(Ok(3))],
        Some(Unreplayed::Differs(0)),
    ),
    (
        "a tick that was refused",
        &[Sleeps, Passes(Err(Refusal::MomentBack))],
        Some(Unreplayed::Differs(1)),
    ),
    (
        "a creation that was refused",
        &[Creates(Err(Refusal::InvalidParameter))],
        Some(Unreplayed::Differs(0)),
    ),
    (
        "a creation for which there was no memory",
        &[Sleeps, DONE, Wakes, Creates(Err(Refusal::Memory))],
        Some(Unreplayed::Memory(3)),
    ),
    (
        "both numbers of an event that was closed, twice",
        &[
            CREATED,
            Closes(2),
            CreatesAt(2, 2, Ok(2)),
            Closes(2),
            CreatesAt(2, 2, Ok(2)),
            Creates(Ok(3)),
        ],
        None,
    ),
    (
        "numbers given again that are told as new ones",
        &[CREATED, Closes(2), CREATED],
        Some(Unreplayed::Differs(2)),
    ),
    (
        "new numbers that are told as given again",
        &[CreatesAt(2, 2, Ok(2))],
        Some(Unreplayed::Differs(0)),
    ),
    (
        "the number of an open handle",
        &[CREATED, Creates(Ok(3)), Closes(2), CreatesAt(2, 3, Ok(3))],
        Some(Unreplayed::Differs(3)),
    ),
    (
        "the same, which was refused",
        &[
            CREATED,
            Creates(Ok(3)),
            Closes(2),
            CreatesAt(2, 3, Err(Refusal::InvalidHandle)),
            CreatesAt(2, 2, Ok(2)),
        ],
        None,
    ),
    (
        "the number of an object that lives",
        &[CREATED, Creates(Ok(3)), Closes(2), CreatesAt(3, 2, Ok(2))],
        Some(Unreplayed::Differs(3)),
    ),
    (
        "the number of a thread's object",
        &[Closes(1), Ends, CreatesAt(1, 1, Ok(1))],
        Some(Unreplayed::Differs(2)),
    ),
    (
        "another handle than was given",
        &[CREATED, Closes(2), CreatesAt(2, 2, Ok(3))],
        Some(Unreplayed::Differs(2)),
    ),
    (
        "a handle's number for a duplicate",
        &[
            CREATED,
            Creates(Ok(3)),
            Closes(3),
            SharesAt(3, Ok(3)),
            Closes(2),
            Closes(3),
            CreatesAt(2, 3, Ok(3)),
        ],
        None,
    ),
    (
        "an open handle's number for a duplicate",
        &[CREATED, SharesAt(2, Ok(2))],
        Some(Unreplayed::Differs(1)),
    ),
    (
        "a duplicate at a number, told as refused",
        &[
            CREATED,
            Creates(Ok(3)),
            Closes(3),
            SharesAt(3, Err(Refusal::AccessDenied)),
        ],
        Some(Unreplayed::Differs(3)),
    ),
    (
        "an object number that is added",
        &[
            CREATED,
            Shares(3),
            Closes(3),
            CreatesAdded(3, 3),
            Creates(Ok(4)),
        ],
        None,
    ),
    (
        "another object number than is added",
        &[CREATED, Shares(3), Closes(3), CreatesAdded(2, 3)],
        Some(Unreplayed::Differs(3)),
    ),
    (
        "an object number that can't be added",
        &[CREATED, Closes(2), CreatesAdded(3, 2)],
        Some(Unreplayed::Differs(2)),
    ),
    (
        "no object number is added where there are as many as handles",
        &[AddsNone(Refusal::HandleLimit), CREATED],
        None,
    ),
    (
        "no object number is added where one can be",
        &[CREATED, Shares(3), AddsNone(Refusal::HandleLimit)],
        Some(Unreplayed::Differs(2)),
    ),
    (
        "no memory for an object number",
        &[CREATED, Shares(3), AddsNone(Refusal::Memory)],
        Some(Unreplayed::Memory(2)),
    ),
    (
        "a thread in its own place",
        &[Closes(1), Ends, Begins(1), Sleeps, DONE, Wakes],
        None,
    ),
    (
        "a thread that still runs",
        &[Closes(1), Begins(1)],
        Some(Unreplayed::Differs(1)),
    ),
    (
        "a thread that a handle still names",
        &[CREATED, Closes(2), Ends, Begins(2)],
        Some(Unreplayed::Differs(3)),
    ),
    (
        "a thread with an open handle's number",
        &[Closes(1), Ends, Begins(0)],
        Some(Unreplayed::Differs(2)),
    ),
];

/// The first thread's act.
fn act_of(act: Act, answer: Result<Reply, Refusal>) -> PackedEntry
    requires { hands_apc answer ≡ false }
{
    PackedEntry::called(ThreadId::new(0), Call::Act(act), answer)
}

/// Numbers given again to this thread.
fn renewed(thread: u16, renewal: Renewal, answer: Result<u32, Refusal>) -> PackedEntry {
    let result = answer.map(|handle| Handle::new(handle));
    PackedEntry::renewed(ThreadId::new(thread), renewal, result)
}

/// The entry of numbers that are given again.
fn renewal_of(told: Told) -> PackedEntry {
    let act = Act::CreateEvent(0);
    match told {
        CreatesAt(object, handle, result) => {
            let (object, handle) = (ObjectNumber::new(object), Handle::new(handle));
            renewed(
                0,
                Renewal::Create {
                    act,
                    object,
                    handle,
                },
                result,
            )
        }
        CreatesAdded(number, new) => {
            let (object, handle) = (ObjectNumber::new(number), Handle::new(new));
            renewed(
                0,
                Renewal::CreateAdded {
                    act,
                    object,
                    handle,
                },
                Ok(new),
            )
        }
        SharesAt(handle, result) => renewed(
            0,
            Renewal::Duplicate {
                source: Handle::new(2),
                access: 0,
                handle: Handle::new(handle),
            },
            result,
        ),
        Begins(handle) => renewed(1, Renewal::Begin(Handle::new(handle)), Ok(handle)),
        AddsNone(cause) => renewed(0, Renewal::Unadded(act), Err(cause)),
        _ => renewed(0, Renewal::Unadded(act), Ok(0)),
    }
}

/// The entry that says this, of threads 0 and 1.
fn entry_of(told: Told) -> PackedEntry {
    let (first, second) = (ThreadId::new(0), ThreadId::new(1));
    match told {
        Sleeps => {
            let sleep = WaitCall::Sleep(WaitMode {
                ms: 1,
                alertable: false,
            });
            PackedEntry::called(second, Call::Wait(sleep), Ok(Reply::Pended))
        }
        Passes(result) => {
            let moment = Moment::new(10_000).unwrap_or(Moment::ZERO);
            PackedEntry::ticked(first, moment, result.map(|()| Reply::Done))
        }
        Wakes => PackedEntry::granted(second, Status::object(0)),
        TimesOut => PackedEntry::granted(second, Status::TIMEOUT),
        Creates(result) => act_of(
            Act::CreateEvent(0),
            result.map(|handle| Reply::Handle(Handle::new(handle))),
        ),
        Shares(handle) => act_of(
            Act::Duplicate {
                handle: Handle::new(2),
                access: 0,
            },
            Ok(Reply::Handle(Handle::new(handle))),
        ),
        Closes(handle) => act_of(Act::Close(Handle::new(handle)), Ok(Reply::Done)),
        Ends => PackedEntry::called(second, Call::Exit, Ok(Reply::Done)),
        _ => renewal_of(told),
    }
}

/// Why the entries are not replayed from the opening of two threads.
fn stop_of(alloc: Global, told: &[Told]) -> Result<Option<Unreplayed>, Refusal> {
    let mut entries = Vec::with_capacity(alloc, told.len())?;
    for one in told {
        if let Err(refused) = entries.push(entry_of(*one)) {
            return Err(AllocError::from(refused).into());
        }
    }
    match Core::new(alloc, 2) {
        Ok(base) => Ok(stop(base, entries.as_slice())),
        Err(refused) => Err(refused),
    }
}

/// Why the entries are not replayed from this base.
fn stop(base: Core, entries: &[PackedEntry]) -> Option<Unreplayed> {
    match replay(base, entries) {
        Ok(core) => {
            drop(core);
            None
        }
        Err(cause) => Some(cause),
    }
}

#[test]
fn entries_are_made_again(rt: HostRuntime) {
    for (whose, told, stops) in ROWS {
        let mut seen = stop_of(rt.alloc(), told);
        if seen != Ok(*stops) && is_refusing(&rt) {
            tell_refused(&rt, whose);
            seen = stop_of(rt.alloc(), told);
        }
        expect(&rt, seen == Ok(*stops), whose);
    }
}
