//! A dispatcher that gives numbers again by itself: calls, each with the number that it is answered.
use crate::expect::{expect, expect_equal};
use crate::tests::calls::{answer_of, call_of};
use crate::tests::memory::{CoreHost, NOT_ENOUGH_MEMORY, tell_refusal};
use crate::tests::script::Answer::{Done, Handle, Pended, Status};
use crate::tests::script::Request::{Any, Close, Duplicate, Event, Exit, Mutex, Set};
use crate::tests::script::{ACCESS_DENIED, Answer, HANDLE_LIMIT, INFINITE, Request, TIMEOUT};
use nt_apc::Apc;
use nt_core::{Call, Reply, WaitCall};
use nt_life::Lasting;
use nt_status::{Moment, Refusal};
use std::alloc::Global;

/// SYNCHRONIZE: to wait for it.
const MAY_WAIT: u32 = 0x0010_0000;

#[derive(Clone, Copy)]
enum Does {
    /// The thread asks for this of these handles, and is answered so.
    Asks(u32, Request, &'static [u32], Answer),
    /// It asks for this of these handles, and is answered each handle from the first number to the last.
    Fills(u32, Request, &'static [u32], u32, u32),
    /// It creates and closes this number of events, each with the handle of the last number.
    Rounds(u32, u32, u32),
    /// A thread begins in this place with this handle, or none does.
    Begins(Option<(u32, u32)>),
    /// All moments up to this one pass.
    Ticks(u64),
    /// An equal dispatcher is made.
    Copies,
}

use Does::{Asks, Begins, Copies, Fills, Rounds, Ticks};

const ROWS: &[(&str, u32, &[Does])] = &[
    (
        "the number that was freed last comes first",
        1,
        &[
            Fills(0, Event(0), &[], 1, 3),
            Asks(0, Close, &[1], Done),
            Asks(0, Close, &[3], Done),
            Copies,
            Fills(0, Mutex(0), &[], 3, 3),
            Fills(0, Mutex(0), &[], 1, 1),
            Fills(0, Mutex(0), &[], 4, 4),
        ],
    ),
    (
        "an event for each of 70,000 requests",
        1,
        &[Rounds(0, 70_000, 1), Asks(0, Event(0), &[], Handle(1))],
    ),
    (
        "a duplicate has the rights that it was given",
        1,
        &[
            Fills(0, Event(0), &[], 1, 2),
            Asks(0, Close, &[1], Done),
            Asks(0, Duplicate(MAY_WAIT), &[2], Handle(1)),
            Asks(0, Set, &[1], ACCESS_DENIED),
        ],
    ),
    (
        "a number stays taken while a wait names its object",
        2,
        &[
            Asks(0, Event(0), &[], Handle(2)),
            Asks(1, Any(INFINITE), &[2], Pended),
            Asks(0, Close, &[2], Done),
            Asks(0, Event(0), &[], Handle(3)),
            Asks(0, Close, &[3], Done),
            Asks(0, Event(0), &[], Handle(3)),
            Ticks(70),
            Asks(0, Any(0), &[3], Status(TIMEOUT)),
        ],
    ),
    (
        "a thread begins once another has ended and its handle is closed",
        2,
        &[
            Asks(1, Exit, &[], Done),
            Begins(None),
            Asks(0, Close, &[1], Done),
            Begins(Some((1, 1))),
            Begins(None),
            Asks(1, Event(0), &[], Handle(2)),
            Asks(0, Any(0), &[1], Status(TIMEOUT)),
        ],
    ),
    (
        "65,536 handles are open",
        1,
        &[
            Fills(0, Event(0), &[], 1, 65_535),
            Asks(0, Event(0), &[], HANDLE_LIMIT),
            Asks(0, Duplicate(MAY_WAIT), &[7], HANDLE_LIMIT),
            Asks(0, Close, &[7], Done),
            Asks(0, Close, &[9], Done),
            Asks(0, Duplicate(MAY_WAIT), &[8], Handle(9)),
            Asks(0, Mutex(0), &[], Handle(7)),
            Asks(0, Event(0), &[], HANDLE_LIMIT),
        ],
    ),
    (
        "65,536 handles are open, of few objects",
        1,
        &[
            Asks(0, Event(0), &[], Handle(1)),
            Fills(0, Duplicate(MAY_WAIT), &[1], 2, 65_535),
            Asks(0, Event(0), &[], HANDLE_LIMIT),
            Asks(0, Close, &[5], Done),
            Asks(0, Event(0), &[], Handle(5)),
            Asks(0, Set, &[5], Done),
        ],
    ),
];

/// Makes the call, and hands the handles of a wait for objects over as a slice.
fn made(life: &mut Lasting, who: u32, call: &Call) -> Result<Reply, Refusal> {
    match call {
        Call::Wait(WaitCall::Objects { handles, all, mode }) => {
            life.wait_objects(who, handles.as_slice(), *all, *mode)
        }
        _ => life.call(who, call),
    }
}

/// What the thread is answered, unless memory is refused.
fn answered(
    alloc: Global,
    life: &mut Lasting,
    who: u32,
    ask: Request,
    handles: &[u32],
) -> Result<Answer, Refusal> {
    let _inside: Option<Apc> = None;
    let call = call_of(alloc, ask, handles)?;
    let answer = answer_of(made(life, who, &call));
    if answer == Answer::Error(NOT_ENOUGH_MEMORY) {
        return Err(Refusal::Memory);
    }
    Ok(answer)
}

/// Whether the thread is answered each handle from the first number to the last.
fn is_filled(
    alloc: Global,
    life: &mut Lasting,
    who: u32,
    ask: Request,
    handles: &[u32],
    first: u32,
    last: u32,
) -> Result<bool, Refusal> {
    for handle in first..=last {
        if answered(alloc, life, who, ask, handles)? != Handle(handle) {
            return Ok(false);
        }
    }
    Ok(true)
}

/// Creates and closes `count` events, and answers whether each had this handle and was closed.
fn goes_round(
    alloc: Global,
    life: &mut Lasting,
    who: u32,
    count: u32,
    handle: u32,
) -> Result<bool, Refusal> {
    for _ in 0..count {
        let created = answered(alloc, life, who, Event(0), &[])?;
        let closed = answered(alloc, life, who, Close, &[handle])?;
        if created != Handle(handle) || closed != Done {
            return Ok(false);
        }
    }
    Ok(true)
}

/// Whether a thread begins in this place with this handle, or none does.
fn is_begun(life: &mut Lasting, expected: Option<(u32, u32)>) -> bool {
    match (life.begin(), expected) {
        (Some(begun), Some((thread, handle))) => {
            begun.thread == thread && begun.handle.get() == handle
        }
        (None, None) => true,
        _ => false,
    }
}

/// Whether all moments up to this one pass.
fn passes(life: &mut Lasting, moment: u64) -> bool {
    match Moment::new(moment) {
        Some(moment) => answer_of(life.tick(moment)) == Done && life.core().now() == moment,
        None => false,
    }
}

/// Lets the dispatcher go. Each row ends here, so that its drop is proved once.
fn let_go(_life: Lasting) {}

/// An equal dispatcher is made, unless memory is refused.
fn is_copied(life: &Lasting) -> Result<bool, Refusal> {
    let_go(life.copy()?);
    Ok(true)
}

/// Whether it goes so.
fn goes(alloc: Global, life: &mut Lasting, step: Does) -> Result<bool, Refusal> {
    match step {
        Asks(who, ask, handles, expected) => {
            Ok(answered(alloc, life, who, ask, handles)? == expected)
        }
        Fills(who, ask, handles, first, last) => {
            is_filled(alloc, life, who, ask, handles, first, last)
        }
        Rounds(who, count, handle) => goes_round(alloc, life, who, count, handle),
        Begins(expected) => Ok(is_begun(life, expected)),
        Ticks(moment) => Ok(passes(life, moment)),
        Copies => is_copied(life),
    }
}

/// The first step that goes otherwise, by its number from 1.
fn first_wrong(
    alloc: Global,
    life: &mut Lasting,
    steps: &[Does],
) -> Result<Option<usize>, Refusal> {
    for (i, step) in steps.iter().enumerate() {
        if !goes(alloc, life, *step)? {
            return Ok(Some(i + 1));
        }
    }
    Ok(None)
}

/// The first step that goes otherwise in a new dispatcher, by its number from 1.
fn play(alloc: Global, threads: u32, steps: &[Does]) -> Result<Option<usize>, Refusal> {
    let mut life = Lasting::new(alloc, threads)?;
    first_wrong(alloc, &mut life, steps)
}

/// `play`, with a second try where memory is refused.
fn play_at_last(
    rt: &impl CoreHost,
    threads: u32,
    steps: &[Does],
) -> Result<Option<usize>, Refusal> {
    play(rt.alloc(), threads, steps).or_else(|refusal| {
        tell_refusal(rt, refusal, "a dispatcher that lasts");
        play(rt.alloc(), threads, steps)
    })
}

#[test]
fn numbers_come_back_by_themselves(rt: HostRuntime) {
    for (name, threads, steps) in ROWS {
        let wrong = play_at_last(&rt, *threads, steps);
        expect(&rt, wrong.is_ok(), name);
        expect_equal(&rt, wrong.unwrap_or(None), None, name);
    }
}
