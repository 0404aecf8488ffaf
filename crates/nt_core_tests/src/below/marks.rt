//! Marks and alarms by place.

use crate::expect::{expect, expect_equal};
use crate::tests::memory::{CoreHost, walk_at_last};
use nt_alarms::Alarms;
use nt_marks::Marks;
use nt_status::Refusal;
use std::test::Fail;

/// Adds a hundred places to both, and marks the last.
fn mark(marks: &mut Marks, others: &mut Marks) -> Result<(), Refusal> {
    for _ in 0..100 {
        marks.add_both(others)?;
    }
    others.add()?;
    if marks.places() == 100 {
        marks.set(99);
    }
    Ok(())
}

/// A mark that is taken from a copy stays where it was.
fn take_from_copy(rt: &impl CoreHost, marks: &Marks) -> Result<(), Refusal> {
    let mut copied = marks.copy()?;
    let is_taken = copied.take_first() == Some(99) && copied.is_empty();
    expect(rt, is_taken && marks.first() == Some(99), "a mark");
    Ok(())
}

#[test]
fn marks_by_place(rt: HostRuntime) -> Result<(), Fail> {
    walk_at_last(&rt, "marks", || {
        let mut marks = Marks::new(rt.alloc());
        mark(&mut marks, &mut Marks::with_places(rt.alloc(), 5000)?)?;
        take_from_copy(&rt, &marks)
    })
}

/// Adds a hundred places to all three, and one to the alarms, for which an alarm is set.
fn set_alarm(alarms: &mut Alarms, marks: &mut Marks, more: &mut Marks) -> Result<(), Refusal> {
    for _ in 0..100 {
        alarms.add_with(marks, more)?;
    }
    alarms.add()?;
    if alarms.len() == 101 {
        alarms.set(100, 7);
    }
    Ok(())
}

fn copy_alarms(rt: &impl CoreHost, alarms: &Alarms, marks: &Marks) -> Result<(), Refusal> {
    let (copied, _, _) = alarms.copy_with(marks, marks)?;
    expect_equal(rt, copied.earliest(), Some(7), "an alarm of a copy");
    expect_equal(rt, alarms.copy()?.earliest(), Some(7), "that of another");
    Ok(())
}

#[test]
fn alarms_by_place(rt: HostRuntime) -> Result<(), Fail> {
    walk_at_last(&rt, "alarms", || {
        let (mut alarms, mut marks, mut more) = Alarms::with_marks(rt.alloc(), 0)?;
        set_alarm(&mut alarms, &mut marks, &mut more)?;
        copy_alarms(&rt, &alarms, &marks)
    })
}
