//! Why threads wait: scenarios of three threads, with what a reader of the definitions would say of each.
use crate::expect::expect;
use crate::tests::memory::{CoreHost, tell_refusal};
use nt_apc::Apc;
use nt_core::{Act, Call, Core, WaitCall, WaitMode};
use nt_look::why;
use nt_status::{Handle, Handles, MAX_MOMENT, Moment, Refusal};
use std::alloc::Global;

/// A call of a thread. Objects that are created have the handles 3, 4 and so on.
#[derive(Clone, Copy)]
enum Does {
    Mutex,
    Event,
    Semaphore,
    Timer,
    Any(&'static [u32]),
    All(&'static [u32]),
    Within(u32),
    Closes(u32),
    Arms(u32),
    Exits,
}

use Does::{All, Any, Arms, Closes, Event, Exits, Mutex, Semaphore, Timer, Within};

/// Of three threads: what they do, whether all is stuck then, who is in a knot, and whether something is due.
const ROWS: &[(&str, &[(u32, Does)], bool, &[bool], bool)] = &[
    (
        "nobody waits",
        &[(0, Mutex)],
        false,
        &[false, false, false],
        false,
    ),
    (
        "two locks crossed, and a thread that runs",
        &[
            (0, Mutex),
            (0, Mutex),
            (0, Any(&[3])),
            (1, Any(&[4])),
            (0, Any(&[4])),
            (1, Any(&[3])),
        ],
        false,
        &[true, true, false],
        false,
    ),
    (
        "and one that waits for both to end",
        &[
            (0, Mutex),
            (0, Mutex),
            (0, Any(&[3])),
            (1, Any(&[4])),
            (0, Any(&[4])),
            (1, Any(&[3])),
            (2, All(&[0, 1])),
        ],
        true,
        &[true, true, true],
        false,
    ),
    (
        "an event may still be set",
        &[(0, Event), (0, Any(&[3]))],
        false,
        &[false, false, false],
        false,
    ),
    (
        "an event whose last handle is closed may not",
        &[(0, Event), (0, Any(&[3])), (1, Closes(3))],
        false,
        &[true, false, false],
        false,
    ),
    (
        "a semaphore neither",
        &[(0, Semaphore), (0, Any(&[3])), (1, Closes(3))],
        false,
        &[true, false, false],
        false,
    ),
    (
        "nobody is left who could set the event",
        &[(0, Event), (0, Any(&[3])), (1, Any(&[0])), (2, Exits)],
        true,
        &[false, false, false],
        false,
    ),
    (
        "a way out by an event",
        &[
            (0, Mutex),
            (0, Mutex),
            (0, Event),
            (0, Any(&[3])),
            (1, Any(&[4])),
            (0, Any(&[4])),
            (1, Any(&[3, 5])),
        ],
        false,
        &[false, false, false],
        false,
    ),
    (
        "no way out where both are wanted",
        &[
            (0, Mutex),
            (0, Mutex),
            (0, Event),
            (0, Any(&[3])),
            (1, Any(&[4])),
            (0, Any(&[4])),
            (1, All(&[3, 5])),
        ],
        false,
        &[true, true, false],
        false,
    ),
    (
        "a way out by a deadline",
        &[
            (0, Mutex),
            (0, Any(&[3])),
            (1, Within(3)),
            (2, Any(&[1])),
            (0, Any(&[1])),
        ],
        false,
        &[false, false, false],
        true,
    ),
    (
        "a timer that is armed ends a wait for it",
        &[
            (0, Timer),
            (0, Arms(3)),
            (0, Any(&[3])),
            (1, Any(&[0])),
            (2, Any(&[0])),
        ],
        false,
        &[false, false, false],
        true,
    ),
    (
        "and not one for an event beside it",
        &[
            (0, Timer),
            (0, Event),
            (0, Arms(3)),
            (0, All(&[3, 4])),
            (1, Any(&[0])),
            (2, Any(&[0])),
        ],
        true,
        &[false, false, false],
        true,
    ),
];

fn wait_for(alloc: Global, numbers: &[u32], all: bool, ms: u32) -> Result<Call, Refusal> {
    let mut handles = Handles::new(alloc);
    for number in numbers {
        handles.push(Handle::new(*number))?;
    }
    let mode = WaitMode {
        ms,
        alertable: false,
    };
    Ok(Call::Wait(WaitCall::Objects { handles, all, mode }))
}

fn call_of(alloc: Global, does: Does) -> Result<Call, Refusal> {
    match does {
        Mutex => Ok(Call::Act(Act::CreateMutex(0))),
        Event => Ok(Call::Act(Act::CreateEvent(0))),
        Semaphore => Ok(Call::Act(Act::CreateSemaphore {
            initial: 0,
            maximum: 1,
        })),
        Timer => Ok(Call::Act(Act::CreateTimer(0))),
        Any(numbers) => wait_for(alloc, numbers, false, 0xFFFF_FFFF),
        All(numbers) => wait_for(alloc, numbers, true, 0xFFFF_FFFF),
        Within(number) => wait_for(alloc, &[number], false, 5),
        Closes(number) => Ok(Call::Act(Act::Close(Handle::new(number)))),
        Arms(number) => Ok(Call::Act(Act::SetTimer {
            timer: Handle::new(number),
            due: -100,
            period: 0,
            routine: None,
        })),
        Exits => Ok(Call::Exit),
    }
}

/// Makes the calls of a row.
fn play(alloc: Global, core: &mut Core, steps: &[(u32, Does)]) -> Result<(), Refusal> {
    let _inside: Option<Apc> = None;
    for (who, does) in steps {
        let call = call_of(alloc, *does)?;
        core.call(*who, &call)?;
    }
    Ok(())
}

/// Whether the verdict on this dispatcher is exactly this.
fn is_verdict(
    alloc: Global,
    core: &Core,
    stuck: bool,
    knot: &[bool],
    due: bool,
) -> Result<bool, Refusal> {
    let Some(last) = Moment::new(MAX_MOMENT) else {
        return Ok(false);
    };
    let Ok(verdict) = why(alloc, core, last) else {
        return Err(Refusal::Memory);
    };
    Ok(verdict.stuck == stuck && verdict.knot.as_slice() == knot && verdict.next.is_some() == due)
}

/// Whether the verdict is exactly this once the calls were made.
fn is_told_after(
    alloc: Global,
    core: &mut Core,
    steps: &[(u32, Does)],
    stuck: bool,
    knot: &[bool],
    due: bool,
) -> Result<bool, Refusal> {
    play(alloc, core, steps)?;
    is_verdict(alloc, core, stuck, knot, due)
}

/// Whether the verdict is exactly this after the calls of a row, in a dispatcher for three threads.
fn is_told(
    alloc: Global,
    steps: &[(u32, Does)],
    stuck: bool,
    knot: &[bool],
    due: bool,
) -> Result<bool, Refusal> {
    let mut core = Core::new(alloc, 3)?;
    is_told_after(alloc, &mut core, steps, stuck, knot, due)
}

/// `is_told`, with a second try where memory is refused.
fn is_told_at_last(
    rt: &impl CoreHost,
    steps: &[(u32, Does)],
    stuck: bool,
    knot: &[bool],
    due: bool,
) -> Result<bool, Refusal> {
    is_told(rt.alloc(), steps, stuck, knot, due).or_else(|refusal| {
        tell_refusal(rt, refusal, "why threads wait");
        is_told(rt.alloc(), steps, stuck, knot, due)
    })
}

#[test]
fn each_hang_is_told(rt: HostRuntime) {
    for (name, steps, stuck, knot, due) in ROWS {
        let told = is_told_at_last(&rt, steps, *stuck, knot, *due);
        expect(&rt, matches!(told, Ok(true)), name);
    }
}
