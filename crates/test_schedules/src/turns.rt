//! Two threads that sleep on one word, the first to moment 50.

use crate::expect::expect_equal;
use crate::refused::{ScheduleHost, tell_refused};
use nt_schedule::{Choice, Point, TurnRequest, Turns};

/// The thread comes to the point, and what is usual goes on.
fn check(rt: &impl ScheduleHost, turns: &mut Turns, point: Point, caller: usize, goes_on: Choice) {
    let asked = TurnRequest {
        point,
        caller,
        wanted: None,
        is_free: false,
    };
    expect_equal(rt, turns.turn(asked), goes_on, "who goes on");
}

fn play(rt: &impl ScheduleHost, turns: &mut Turns) {
    check(rt, turns, Point::Call, 0, Choice::Thread(0));
    check(rt, turns, Point::Yield, 0, Choice::Thread(1));
    turns.fall_asleep(0, 7, Some(50));
    check(rt, turns, Point::Sleep, 0, Choice::Thread(1));
    turns.pass(10);
    turns.fall_asleep(1, 7, None);
    expect_equal(rt, turns.time(), 10, "the time");
    check(rt, turns, Point::Sleep, 1, Choice::Clock);
    expect_equal(rt, turns.time(), 50, "the time");
    check(rt, turns, Point::Sleep, 1, Choice::Thread(0));
    expect_equal(rt, turns.wake(7), Some(1), "who is woken");
    expect_equal(rt, turns.wake(7), None, "who is woken");
    turns.end(0);
    check(rt, turns, Point::End, 0, Choice::Thread(1));
    turns.end(1);
    check(rt, turns, Point::End, 1, Choice::Nobody);
}

#[test]
fn time_comes_where_all_sleep(rt: HostRuntime) {
    let mut turns = Turns::new(rt.alloc());
    match (turns.come(), turns.come()) {
        (Ok(_), Ok(_)) => play(&rt, &mut turns),
        _ => tell_refused(&rt, "a thread"),
    }
}
