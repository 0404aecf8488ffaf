//! The table of waits: room, waits, and copies.

use crate::expect::{expect, expect_equal};
use crate::tests::memory::{CoreHost, walk_at_last};
use nt_status::{ObjectNumber, Refusal, ThreadId};
use nt_waits::{About, Room, WaitTable};
use std::test::Fail;

/// The thread, which has no wait, waits for any of objects 3, 5 and 300, up to the moment 7.
fn begin(rt: &impl CoreHost, table: &mut WaitTable, t: ThreadId) -> Result<(), Refusal> {
    let objects = [
        ObjectNumber::new(3),
        ObjectNumber::new(5),
        ObjectNumber::new(300),
    ];
    let about = About {
        alertable: true,
        deadline: Some(7),
    };
    expect(rt, table.about(t).is_none(), "no wait");
    table.begin(t, &objects, false, about)
}

/// Two threads, one of them far from the other, wait: in a copy too.
fn begin_two(rt: &impl CoreHost, table: &mut WaitTable) -> Result<(), Refusal> {
    begin(rt, table, ThreadId::new(300))?;
    begin(rt, table, ThreadId::new(0))?;
    let copied = table.copy()?;
    expect_equal(rt, copied.pending(), 2, "the waits of a copy");
    expect_equal(rt, copied.earliest_deadline(), Some(7), "its deadline");
    Ok(())
}

/// The same in a table with room for two threads and two objects.
fn begin_with_room(rt: &impl CoreHost) -> Result<(), Refusal> {
    let room = Room {
        threads: 2,
        objects: 1,
    };
    let (mut table, _reader) = WaitTable::with_room(rt.alloc(), room)?;
    table.add_object()?;
    expect_equal(rt, table.room().objects, 2, "room for objects");
    begin_two(rt, &mut table)
}

#[test]
fn waits_begin_without_room_and_with(rt: HostRuntime) -> Result<(), Fail> {
    walk_at_last(&rt, "waits", || {
        begin_two(&rt, &mut WaitTable::new(rt.alloc()))
    })?;
    walk_at_last(&rt, "waits with room", || begin_with_room(&rt))
}
