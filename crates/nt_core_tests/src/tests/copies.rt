//! Copies of a dispatcher: a call on a copy changes nothing in what it was made of.
use crate::expect::expect;
use crate::tests::memory::{CoreHost, copy_at_last, let_go, open};
use crate::tests::play::take_steps;
use crate::tests::script::Answer::{Done, Handle, NoApc, Pended};
use crate::tests::script::Request::{
    AlertableSleep, Any, ArmRoutine, Close, Event, Next, Set, Timer,
};
use crate::tests::script::ScenarioStep::{Call, Living, Tick, Waiting};
use crate::tests::script::{INFINITE, IO_COMPLETION, ScenarioStep};
use nt_core::Core;
use nt_status::Refusal;
use std::test::Fail;

/// What is done before a copy is made, then in the copy, and then, once that is gone, in what it was made of.
struct Copied {
    shows: &'static str,
    threads: u32,
    before: &'static [ScenarioStep],
    in_the_copy: &'static [ScenarioStep],
    after: &'static [ScenarioStep],
}

const COPIES: &[Copied] = &[
    Copied {
        shows: "a copy goes its own way",
        threads: 3,
        before: &[
            Call(2, Event(0), &[], Handle(3), &[]),
            Call(0, Any(INFINITE), &[3], Pended, &[]),
            Call(1, Any(INFINITE), &[3], Pended, &[]),
        ],
        in_the_copy: &[Call(2, Set, &[3], Done, &[(0, 0)]), Waiting(&[1])],
        after: &[Waiting(&[0, 1]), Call(2, Set, &[3], Done, &[(0, 0)])],
    },
    Copied {
        shows: "what a wait alone keeps is kept in a copy too",
        threads: 2,
        before: &[
            Call(0, Timer(0), &[], Handle(2), &[]),
            Call(0, ArmRoutine(10000, 0, 7, 9), &[2], Done, &[]),
            Call(1, Any(INFINITE), &[2], Pended, &[]),
            Call(0, Close, &[2], Done, &[]),
            Call(0, AlertableSleep(INFINITE), &[], Pended, &[]),
        ],
        in_the_copy: LAST_OF_A_TIMER,
        after: LAST_OF_A_TIMER,
    },
];

/// The timer that thread 1 alone keeps expires, and is gone with its APC.
const LAST_OF_A_TIMER: &[ScenarioStep] = &[
    Living(3),
    Tick(10000, Done, &[(1, 0), (0, IO_COMPLETION)]),
    Living(2),
    Call(0, Next, &[], NoApc, &[]),
    Call(0, Event(0), &[], Handle(3), &[]),
    Living(3),
];

fn play_in_a_copy(rt: &impl CoreHost, core: &Core, copied: &Copied) -> Result<(), Refusal> {
    let mut copy = copy_at_last(rt, core)?;
    take_steps(rt, &mut copy, copied.shows, copied.in_the_copy);
    let_go(copy);
    Ok(())
}

fn play_in_both(rt: &impl CoreHost, core: &mut Core, copied: &Copied) {
    take_steps(rt, core, copied.shows, copied.before);
    let played = play_in_a_copy(rt, core, copied);
    expect(rt, played.is_ok(), "a copy that is refused once at most");
    take_steps(rt, core, copied.shows, copied.after);
}

fn play_copied(rt: &impl CoreHost, copied: &Copied) -> Result<(), Refusal> {
    let mut core = open(rt, copied.threads)?;
    play_in_both(rt, &mut core, copied);
    let_go(core);
    Ok(())
}

#[test]
fn a_copy_goes_its_own_way(rt: HostRuntime) -> Result<(), Fail> {
    for copied in COPIES {
        play_copied(&rt, copied)?;
    }
    Ok(())
}
