//! The file of decisions that docs/SCHEDULES.md shows, with each first line.

use crate::expect::{expect, expect_equal};
use crate::refused::{ScheduleHost, tell_refused};
use nt_decisions::{Chosen, Decision, FileFault, Time, read_schedule, write_schedule};

/// A file, whether its time is free, and whether it is still.
const FILES: &[(&[u8], bool, bool)] = &[
    (b"; ntwin-schedule 1\nt1 12 t2\nt2 3 clock\n", false, false),
    (
        b"; ntwin-schedule 1 time=free\nt1 12 t2\nt2 3 clock\n",
        true,
        false,
    ),
    (
        b"; ntwin-schedule 1 time=still\nt1 12 t2\nt2 3 clock\n",
        false,
        true,
    ),
    (
        b"; ntwin-schedule 1 time=free time=still\nt1 12 t2\nt2 3 clock\n",
        true,
        true,
    ),
];

const DECISIONS: &[Decision] = &[
    Decision {
        thread: 1,
        ordinal: 12,
        chosen: Chosen::Thread(2),
    },
    Decision {
        thread: 2,
        ordinal: 3,
        chosen: Chosen::Clock,
    },
];

fn time(is_free: bool, is_still: bool) -> Time {
    Time { is_free, is_still }
}

fn check_read(rt: &impl ScheduleHost, text: &[u8], time: Time) {
    match read_schedule(rt.alloc(), text) {
        Ok(schedule) => {
            expect_equal(rt, schedule.time, time, "how its time goes");
            expect(
                rt,
                schedule.decisions.as_slice() == DECISIONS,
                "its decisions",
            );
        }
        Err(why) => {
            expect_equal(rt, why, FileFault::Memory, "why it is not read");
            tell_refused(rt, "a file");
        }
    }
}

#[test]
fn the_file_of_the_page_is_read(rt: HostRuntime) {
    for file in FILES {
        check_read(&rt, file.0, time(file.1, file.2));
    }
}

fn check_written(rt: &impl ScheduleHost, text: &[u8], time: Time) {
    match write_schedule(rt.alloc(), time, DECISIONS) {
        Ok(written) => expect(rt, written.as_slice() == text, "its text"),
        Err(_) => tell_refused(rt, "a text"),
    }
}

#[test]
fn the_file_of_the_page_is_written(rt: HostRuntime) {
    for file in FILES {
        check_written(&rt, file.0, time(file.1, file.2));
    }
}

/// A text, and why it is no file of decisions.
const FAULTS: &[(&[u8], FileFault)] = &[
    (b"", FileFault::FirstLine),
    (b"t1 12 t2\n", FileFault::FirstLine),
    (b"; ntwin-schedule 2\n", FileFault::FirstLine),
    (b"; ntwin-schedule 1 time=late\n", FileFault::FirstLine),
    (b"; ntwin-schedule 1\nt1 12\n", FileFault::Line),
    (b"; ntwin-schedule 1\nt1 t2 t3\n", FileFault::Line),
    (b"; ntwin-schedule 1\nt1 12 t2 t3\n", FileFault::Line),
    (b"; ntwin-schedule 1\n1 12 t2\n", FileFault::Line),
];

fn check_fault(rt: &impl ScheduleHost, text: &[u8], fault: FileFault) {
    match read_schedule(rt.alloc(), text) {
        Ok(_) => expect(rt, false, "the text is refused"),
        Err(why) => {
            if why == FileFault::Memory {
                tell_refused(rt, "a file");
            } else {
                expect_equal(rt, why, fault, "why it is refused");
            }
        }
    }
}

#[test]
fn other_texts_are_refused(rt: HostRuntime) {
    for fault in FAULTS {
        check_fault(&rt, fault.0, fault.1);
    }
}
