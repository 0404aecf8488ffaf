//! Handles, objects, and the mutexes of each owner; and of objects what no run of calls comes to: the greatest depth of a mutex, and the greatest
//! moments and periods.

ghost use Rattle.std.specs.Prelude.{◌<◌};

use crate::expect::{expect, expect_equal};
use crate::tests::memory::{CoreHost, walk_at_last};
use nt_objects::{Armed, Object, Taken};
use nt_status::{Access, Handle, Moment, MutexFlags, ObjectNumber, Refusal, ThreadId};
use nt_tables::{HandleTable, ObjectTable, Opened, Owners};
use std::test::Fail;

/// One handle more for the second of two objects: in a copy too.
fn add_handle(rt: &impl CoreHost) -> Result<(), Refusal> {
    let object = ObjectNumber::new(1);
    let access = Access::MODIFY_STATE;
    let mut table = HandleTable::new(rt.alloc(), 2, access)?;
    table.make_room()?;
    let handle = table.add(Opened { object, access });
    let copied = table.copy()?;
    expect_equal(rt, handle, Handle::new(2), "the number of a handle");
    expect_equal(rt, copied.count(object), 2, "the handles of an object");
    Ok(())
}

#[test]
fn handles_are_added(rt: HostRuntime) -> Result<(), Fail> {
    walk_at_last(&rt, "handles", || add_handle(&rt))
}

/// Thread 1 makes a mutex that it owns: in a copy too.
fn add_mutex(rt: &impl CoreHost, owner: ThreadId) -> Result<(), Refusal>
    requires { owner < 2 }
{
    let mut table = ObjectTable::new(rt.alloc(), 2)?;
    table.make_room()?;
    table.add(Object::new_mutex(MutexFlags::INITIAL_OWNER, owner));
    expect_owned(rt, &table.copy()?, owner);
    Ok(())
}

fn expect_owned(rt: &impl CoreHost, table: &ObjectTable, owner: ThreadId) {
    let is_owned = matches!(table.as_slice(), [_, _, mutex] if mutex.is_owned_by(owner));
    expect(rt, is_owned, "a mutex that is owned");
}

#[test]
fn objects_are_added(rt: HostRuntime) -> Result<(), Fail> {
    walk_at_last(&rt, "objects", || add_mutex(&rt, ThreadId::new(1)))
}

/// Room for eight mutexes: the second of two threads owns none.
fn make_room(rt: &impl CoreHost) -> Result<(), Refusal> {
    let mut owners = Owners::new(rt.alloc(), 2)?;
    owners.make_room(8)?;
    let copied = owners.copy()?;
    expect(rt, copied.first(ThreadId::new(1)).is_none(), "nobody owns");
    Ok(())
}

#[test]
fn owners_have_room(rt: HostRuntime) -> Result<(), Fail> {
    walk_at_last(&rt, "owners", || make_room(&rt))
}

#[test]
fn a_mutex_is_taken_up_to_its_greatest_depth(rt: HostRuntime) {
    let owner = ThreadId::new(1);
    let mut mutex = Object::Mutex {
        owner: Some(owner),
        depth: 2147483646,
        abandoned: false,
    };
    expect(&rt, mutex.has_room(), "room for one more");
    expect_equal(&rt, mutex.try_take(owner), Some(Taken::Plain), "once");
    expect_equal(&rt, mutex.depth(), 2147483647, "the greatest depth");
    expect(&rt, !mutex.has_room(), "no more");
}

#[test]
fn the_greatest_moments_and_periods_fit(rt: HostRuntime) -> Result<(), Fail> {
    let armed = Armed {
        due: 0,
        period: 4294967295,
        routine: None,
    };
    let now = Moment::new(4611686018427387904).ok_or("2^62 is a moment")?;
    // 107374 periods of 42949672950000 reach just below 2^62, and one more just above.
    let due = 4611721133006250000;
    expect_equal(&rt, armed.next_due(now), due, "the next due moment");
    Ok(())
}
