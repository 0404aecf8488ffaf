//! Openings: a dispatcher has 1 to 256 threads, or 4,096 at the most if it is opened for many.
use crate::expect::expect_equal;
use crate::tests::memory::{CoreHost, let_go};
use crate::tests::play::play_all;
use crate::tests::script::Answer::{Done, Handle, Pended};
use crate::tests::script::Request::{Any, Event, Pulse};
use crate::tests::script::ScenarioStep::{Call, Waiting};
use crate::tests::script::{Answer, INFINITE, INVALID_PARAMETER, Scenario};
use nt_core::Core;
use nt_status::Refusal;
use std::test::Fail;

const SCENARIOS: &[Scenario] = &[Scenario {
    shows: "one for many may have 4096 threads, and the last waits and is granted as the first",
    threads: 4096,
    steps: &[
        Call(4095, Event(1), &[], Handle(4096), &[]),
        Call(4095, Any(INFINITE), &[4096], Pended, &[]),
        Call(0, Any(INFINITE), &[4096], Pended, &[]),
        Waiting(&[0, 4095]),
        Call(1, Pulse, &[4096], Done, &[(4095, 0), (0, 0)]),
        Waiting(&[]),
    ],
}];

/// Numbers of threads that no dispatcher has, and those that none for many has.
const TOO_FEW_OR_MANY: &[u32] = &[0, 257, u32::MAX];

const TOO_FEW_OR_TOO_MANY: &[u32] = &[0, 4097, u32::MAX];

/// What an opening answered.
fn answer(opened: Result<Core, Refusal>) -> Answer {
    match opened {
        Ok(core) => {
            let_go(core);
            Answer::Done
        }
        Err(refusal) => Answer::Error(refusal.number()),
    }
}

fn refuse_openings(rt: &impl CoreHost) {
    for threads in TOO_FEW_OR_MANY {
        let found = (*threads, answer(Core::new(rt.alloc(), *threads)));
        expect_equal(rt, found, (*threads, INVALID_PARAMETER), "too few or many");
    }
}

fn refuse_openings_for_many(rt: &impl CoreHost) {
    for threads in TOO_FEW_OR_TOO_MANY {
        let found = (
            *threads,
            answer(Core::with_many_threads(rt.alloc(), *threads)),
        );
        expect_equal(
            rt,
            found,
            (*threads, INVALID_PARAMETER),
            "too few or too many",
        );
    }
}

#[test]
fn a_dispatcher_has_1_to_256_threads_or_4096_if_many(rt: HostRuntime) -> Result<(), Fail> {
    refuse_openings(&rt);
    refuse_openings_for_many(&rt);
    play_all(&rt, SCENARIOS)
}
