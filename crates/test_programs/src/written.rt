//! Calls, written as the lines of a script.

use crate::expect::{expect, expect_equal};
use crate::refused::{ProgramHost, tell_refused};
use nt_core::{Act, Call, Reply, WaitCall, WaitMode};
use nt_status::{Handle, Handles, Refusal, ThreadId};
use nt_written::{Unwritten, write_line};
use std::alloc::{AllocError, Global};

/// INFINITE, a timeout that never passes.
const INFINITE: u32 = 0xFFFF_FFFF;

/// A call in plain numbers.
#[derive(Clone, Copy)]
enum Said {
    Event(u32),
    Semaphore(i32, i32),
    Mutex(u32),
    Timer(u32),
    Duplicate(u32, u32),
    Set(u32),
    Reset(u32),
    Pulse(u32),
    Release(u32, i32),
    Unlock(u32),
    Arm(u32, i64, i32, Option<(u64, u64)>),
    Cancel(u32),
    Apc(u32, u64, u64),
    Close(u32),
    Next,
    Any(u32, bool, &'static [u32]),
    All(u32, bool, &'static [u32]),
    /// A wait with timeout 0 for any of this number of handles, all of them 65535.
    Many(u32),
    Sleep(u32, bool),
    Swap(u32, u32, u32, bool),
    Exit,
}

/// A thread, its call, the handle that it answered, and its line.
#[derive(Clone, Copy)]
struct Row(u16, Said, Option<u32>, Result<&'static [u8], Unwritten>);

const ROWS: &[Row] = &[
    Row(0, Said::Event(0), Some(3), Ok(b"t0 event h3\n")),
    Row(1, Said::Event(2), Some(65535), Ok(b"t1 event h65535 set\n")),
    Row(
        0,
        Said::Event(3),
        None,
        Ok(b"t0 event refused manual set\n"),
    ),
    Row(
        0,
        Said::Semaphore(0, 6),
        Some(4),
        Ok(b"t0 semaphore h4 0 6\n"),
    ),
    Row(
        255,
        Said::Semaphore(-1, i32::MIN),
        None,
        Ok(b"t255 semaphore refused -1 -2147483648\n"),
    ),
    Row(0, Said::Mutex(1), Some(5), Ok(b"t0 mutex h5 owned\n")),
    Row(0, Said::Mutex(0), Some(6), Ok(b"t0 mutex h6\n")),
    Row(0, Said::Timer(1), Some(7), Ok(b"t0 timer h7 manual\n")),
    Row(
        1,
        Said::Duplicate(5, 0x0010_0000),
        Some(8),
        Ok(b"t1 dup h8 5 1048576\n"),
    ),
    Row(0, Said::Set(3), None, Ok(b"t0 set 3\n")),
    Row(0, Said::Reset(3), None, Ok(b"t0 reset 3\n")),
    Row(0, Said::Pulse(3), None, Ok(b"t0 pulse 3\n")),
    Row(1, Said::Release(4, 1), None, Ok(b"t1 release 4 1\n")),
    Row(1, Said::Unlock(5), None, Ok(b"t1 unlock 5\n")),
    Row(
        0,
        Said::Arm(7, -10_000, 5, None),
        None,
        Ok(b"t0 arm 7 -10000 5\n"),
    ),
    Row(
        0,
        Said::Arm(7, 20_000, 0, Some((9, u64::MAX))),
        None,
        Ok(b"t0 arm 7 20000 0 9 18446744073709551615\n"),
    ),
    Row(0, Said::Cancel(7), None, Ok(b"t0 cancel 7\n")),
    Row(0, Said::Apc(1, 9, 0), None, Ok(b"t0 apc 1 9 0\n")),
    Row(0, Said::Close(u32::MAX), None, Ok(b"t0 close 4294967295\n")),
    Row(1, Said::Next, None, Ok(b"t1 next\n")),
    Row(
        1,
        Said::Any(INFINITE, false, &[3]),
        None,
        Ok(b"t1 any inf plain 3\n"),
    ),
    Row(
        0,
        Said::All(0, true, &[1, 2]),
        None,
        Ok(b"t0 all 0 alertable 1 2\n"),
    ),
    Row(0, Said::Any(0, false, &[]), None, Ok(b"t0 any 0 plain\n")),
    Row(2, Said::Sleep(10, false), None, Ok(b"t2 sleep 10 plain\n")),
    Row(
        2,
        Said::Swap(3, 4, INFINITE, true),
        None,
        Ok(b"t2 swap 3 4 inf alertable\n"),
    ),
    Row(2, Said::Exit, None, Ok(b"t2 exit\n")),
    Row(0, Said::Event(4), None, Err(Unwritten::Unsayable)),
    Row(0, Said::Mutex(2), None, Err(Unwritten::Unsayable)),
    Row(0, Said::Timer(2), None, Err(Unwritten::Unsayable)),
    // 14 bytes, and 6 for each handle: 680 of them make 4094 bytes, and one more 4100
    Row(0, Said::Many(681), None, Err(Unwritten::TooLong)),
    Row(0, Said::Many(5000), None, Err(Unwritten::TooLong)),
];

/// The call that never pends.
fn act_of(said: Said) -> Option<Act> {
    Some(match said {
        Said::Event(flags) => Act::CreateEvent(flags),
        Said::Semaphore(initial, maximum) => Act::CreateSemaphore { initial, maximum },
        Said::Mutex(flags) => Act::CreateMutex(flags),
        Said::Timer(flags) => Act::CreateTimer(flags),
        Said::Duplicate(handle, access) => Act::Duplicate {
            handle: Handle::new(handle),
            access,
        },
        Said::Set(event) => Act::SetEvent(Handle::new(event)),
        Said::Reset(event) => Act::ResetEvent(Handle::new(event)),
        Said::Pulse(event) => Act::PulseEvent(Handle::new(event)),
        Said::Release(semaphore, count) => Act::ReleaseSemaphore {
            semaphore: Handle::new(semaphore),
            count,
        },
        Said::Unlock(mutex) => Act::ReleaseMutex(Handle::new(mutex)),
        Said::Arm(timer, due, period, routine) => Act::SetTimer {
            timer: Handle::new(timer),
            due,
            period,
            routine,
        },
        Said::Cancel(timer) => Act::CancelTimer(Handle::new(timer)),
        Said::Apc(thread, routine, arg) => Act::QueueApc {
            thread: Handle::new(thread),
            routine,
            arg,
        },
        Said::Close(handle) => Act::Close(Handle::new(handle)),
        Said::Next => Act::NextApc,
        _ => return None,
    })
}

/// A wait for these handles.
fn objects(alloc: Global, numbers: &[u32], all: bool, mode: WaitMode) -> Result<Call, AllocError> {
    let mut handles = Handles::new(alloc);
    for number in numbers {
        handles.push(Handle::new(*number))?;
    }
    Ok(Call::Wait(WaitCall::Objects { handles, all, mode }))
}

/// A wait for any of `count` handles.
fn many(alloc: Global, count: u32) -> Result<Call, AllocError> {
    let mut handles = Handles::new(alloc);
    for _ in 0..count {
        handles.push(Handle::new(65535))?;
    }
    Ok(Call::Wait(WaitCall::Objects {
        handles,
        all: false,
        mode: WaitMode {
            ms: 0,
            alertable: false,
        },
    }))
}

fn call_of(alloc: Global, said: Said) -> Result<Call, AllocError> {
    match said {
        Said::Any(ms, alertable, numbers) => {
            objects(alloc, numbers, false, WaitMode { ms, alertable })
        }
        Said::All(ms, alertable, numbers) => {
            objects(alloc, numbers, true, WaitMode { ms, alertable })
        }
        Said::Many(count) => many(alloc, count),
        Said::Sleep(ms, alertable) => {
            Ok(Call::Wait(WaitCall::Sleep(WaitMode { ms, alertable })))
        }
        Said::Swap(signal, object, ms, alertable) => Ok(Call::Wait(WaitCall::Swap {
            signal: Handle::new(signal),
            object: Handle::new(object),
            mode: WaitMode { ms, alertable },
        })),
        said => Ok(act_of(said).map_or(Call::Exit, Call::Act)),
    }
}

/// The line of a call, after bytes that stand already.
fn written(
    alloc: Global,
    who: u16,
    said: Said,
    created: Option<u32>,
) -> Result<Vec<u8>, Unwritten> {
    let call = call_of(alloc, said)?;
    let answer = match created {
        Some(handle) => Ok(Reply::Handle(Handle::new(handle))),
        None => Err(Refusal::HandleLimit),
    };
    let mut out = Vec::new(alloc);
    write_line(&mut out, ThreadId::new(who), &call, &answer)?;
    Ok(out)
}

/// The line is the one expected, or there is none for the reason expected.
fn check(rt: &impl ProgramHost, row: &Row) {
    let Row(who, said, created, line) = *row;
    let found = written(rt.alloc(), who, said, created);
    if matches!(found, Err(Unwritten::Memory)) {
        return tell_refused(rt, "a line");
    }
    let is_right = match (&found, line) {
        (Ok(found), Ok(expected)) => found.as_slice() == expected,
        (Err(why), Err(expected)) => *why == expected,
        _ => false,
    };
    expect(rt, is_right, "the line of a call");
}

#[test]
fn calls_are_written_as_lines(rt: HostRuntime) {
    for row in ROWS {
        check(&rt, row);
    }
}

/// 14 bytes, 680 handles of six bytes with their spaces, and a line feed.
#[test]
fn a_line_of_4094_bytes_is_written(rt: HostRuntime) {
    match written(rt.alloc(), 0, Said::Many(680), None) {
        Ok(line) => expect_equal(&rt, line.len(), 4095, "the bytes of the line"),
        Err(why) => {
            expect(&rt, why == Unwritten::Memory, "why no line is written");
            tell_refused(&rt, "a line");
        }
    }
}
