//! Short histories, entry by entry.
use crate::expect::expect_equal;
use crate::front::told::let_go;
use crate::refused::is_refusing;
use nt_front::prepare;
use std::alloc::Global;

/// The number with which a front is refused, or none.
fn refusal_of(alloc: Global, threads: u32, room: usize) -> Option<u32> {
    match prepare(alloc, threads, room) {
        Err(refusal) => Some(refusal.number()),
        Ok(blank) => {
            let_go(blank);
            None
        }
    }
}

#[test]
fn a_front_has_threads_and_room(rt: HostRuntime) {
    for (threads, room) in [(0, 4), (257, 4), (2, 0), (2, 1_048_577)] {
        let refusal = refusal_of(rt.alloc(), threads, room);
        expect_equal(&rt, refusal, Some(87), "threads or room that no front has");
    }
}

#[test]
fn a_front_has_up_to_256_threads_and_1048576_entries(rt: HostRuntime) {
    if is_refusing(&rt) {
        return;
    }
    for (threads, room) in [(1, 1), (256, 4), (1, 1_048_576)] {
        let refusal = refusal_of(rt.alloc(), threads, room);
        expect_equal(&rt, refusal, None, "threads and room that a front has");
    }
}
