//! What is closed leaves nothing in use but the slots of its numbers, one in each table. `tests/memory` counts their bytes, as the
//! difference of two tests that use up more and fewer numbers in the same way.
use crate::tests::play::play_all;
use crate::tests::script::Answer::{Done, NoApc, Status};
use crate::tests::script::Request::{
    AlertableSleep, ArmRoutine, Duplicate, Exit, Mutex, Next, Timer,
};
use crate::tests::script::ScenarioStep::{Call, CloseEach, Due, Living, NoGrowth, Tested, Tick};
use crate::tests::script::{HANDLE_LIMIT, Request, Scenario};
use std::test::Fail;

/// The greatest moment that there is: 2^62.
const LAST_MOMENT: u64 = 0x4000_0000_0000_0000;

/// A due time that lies ahead and comes again, and a routine with its argument.
const LATER: &[Request] = &[ArmRoutine(10_000, 1, 7, 9)];

/// A due time that has come, so that the APC is queued at once.
const NOW: &[Request] = &[ArmRoutine(0, 0, 7, 9)];

const ALL_ARMED_TIMERS: &[Scenario] = &[Scenario {
    shows: "all numbers are used up by timers that are closed while they are armed",
    threads: 1,
    steps: &[
        CloseEach(0, Timer(0), LATER, 1, 65535),
        Living(1),
        Call(0, Timer(0), &[], HANDLE_LIMIT, &[]),
        Call(0, Duplicate(0), &[0], HANDLE_LIMIT, &[]),
        Due(LAST_MOMENT, None),
        Tick(LAST_MOMENT, Done, &[]),
        Tested(0),
        Call(0, AlertableSleep(0), &[], Status(0), &[]),
        Call(0, Next, &[], NoApc, &[]),
        NoGrowth(0, Exit, &[], Done, &[]),
        Living(1),
    ],
}];

#[test]
fn all_armed_timers(rt: HostRuntime) -> Result<(), Fail> {
    play_all(&rt, ALL_ARMED_TIMERS)
}

const HALF_AS_MANY_ARMED_TIMERS: &[Scenario] = &[Scenario {
    shows: "half of all numbers are used up so",
    threads: 1,
    steps: &[
        CloseEach(0, Timer(0), LATER, 1, 32767),
        Living(1),
        Due(LAST_MOMENT, None),
    ],
}];

#[test]
fn half_as_many_armed_timers(rt: HostRuntime) -> Result<(), Fail> {
    play_all(&rt, HALF_AS_MANY_ARMED_TIMERS)
}

const MANY_TIMERS_WITH_AN_APC: &[Scenario] = &[Scenario {
    shows: "timers are closed while their APCs are queued",
    threads: 1,
    steps: &[
        CloseEach(0, Timer(0), NOW, 1, 8191),
        Living(1),
        Due(LAST_MOMENT, None),
        Call(0, AlertableSleep(0), &[], Status(0), &[]),
        Call(0, Next, &[], NoApc, &[]),
    ],
}];

#[test]
fn many_timers_with_an_apc(rt: HostRuntime) -> Result<(), Fail> {
    play_all(&rt, MANY_TIMERS_WITH_AN_APC)
}

const HALF_AS_MANY_TIMERS_WITH_AN_APC: &[Scenario] = &[Scenario {
    shows: "half as many timers are closed while their APCs are queued",
    threads: 1,
    steps: &[CloseEach(0, Timer(0), NOW, 1, 4095), Living(1)],
}];

#[test]
fn half_as_many_timers_with_an_apc(rt: HostRuntime) -> Result<(), Fail> {
    play_all(&rt, HALF_AS_MANY_TIMERS_WITH_AN_APC)
}

const MANY_OWNED_MUTEXES: &[Scenario] = &[Scenario {
    shows: "mutexes are closed while they are owned",
    threads: 1,
    steps: &[
        CloseEach(0, Mutex(1), &[], 1, 8191),
        Living(1),
        NoGrowth(0, Exit, &[], Done, &[]),
        Tested(0),
    ],
}];

#[test]
fn many_owned_mutexes(rt: HostRuntime) -> Result<(), Fail> {
    play_all(&rt, MANY_OWNED_MUTEXES)
}

const HALF_AS_MANY_OWNED_MUTEXES: &[Scenario] = &[Scenario {
    shows: "half as many mutexes are closed while they are owned",
    threads: 1,
    steps: &[CloseEach(0, Mutex(1), &[], 1, 4095), Living(1)],
}];

#[test]
fn half_as_many_owned_mutexes(rt: HostRuntime) -> Result<(), Fail> {
    play_all(&rt, HALF_AS_MANY_OWNED_MUTEXES)
}
