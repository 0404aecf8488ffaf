//! What a script's run says, and how it ends, over devices that fail.

mod threads;

use crate::devices::{Given, MemoryWriter, WriteLimit};
use crate::expect::expect;
use crate::refused::{ProgramHost, before_refusal, tell_refused};
use nt_commands::script_over;
use nt_devices::Counted;
use std::alloc::Global;

/// What was written, what was said on standard error, and the exit status.
#[derive(Drop)]
pub struct Ran {
    pub written: Vec<u8>,
    pub said: Vec<u8>,
    pub status: u8,
    /// Whether the memory to keep either was refused.
    is_lost: bool,
}

impl Ran {
    fn new(taken: MemoryWriter, errors: MemoryWriter, status: u8) -> Ran {
        Ran {
            is_lost: taken.is_refused || errors.is_refused,
            written: taken.bytes,
            said: errors.bytes,
            status,
        }
    }

    /// Whether memory was refused.
    fn is_refused(&self) -> bool {
        let written = self.written.as_slice();
        self.is_lost
            || self.said.as_slice().ends_with(b": out of memory\n")
            || before_refusal(written).len() < written.len()
    }

    fn is(&self, written: &str, said: &str, status: u8) -> bool {
        self.written.as_slice() == written.as_bytes()
            && self.said.as_slice() == said.as_bytes()
            && self.status == status
    }
}

fn run_once(alloc: Global, given: Given<'_>, room: WriteLimit) -> Ran {
    let mut taken = MemoryWriter::new(alloc, room);
    let mut errors = MemoryWriter::new(alloc, WriteLimit::ENDLESS);
    let status = script_over(
        alloc,
        &mut Counted::new(given),
        &mut Counted::new(&mut taken),
        &mut Counted::new(&mut errors),
    );
    Ran::new(taken, errors, status)
}

/// Runs the script, a second time where memory is refused: what stands before the refusal was right.
pub fn run_over(rt: &impl ProgramHost, given: Given<'_>, room: WriteLimit) -> Ran {
    let ran = run_once(rt.alloc(), given, room);
    if !ran.is_refused() {
        return ran;
    }
    tell_refused(rt, "a run");
    let again = run_once(rt.alloc(), given, room);
    let sure = before_refusal(ran.written.as_slice());
    let is_same = again.written.as_slice().starts_with(sure);
    expect(rt, is_same, "what stands before a refusal");
    again
}

/// One event with two threads that wait for it in turn.
pub const HAND_OVER: &str = "\
threads 3
t0 event e
t0 any inf plain e
t1 any inf plain e
t2 set e
t2 set e
";

const TRANSCRIPT: &str = "\
2: handle 3
3: pending
4: pending
5: ok
5: t0 status 0x00000000
6: ok
6: t1 status 0x00000000
end: pending none
";

fn check(rt: &impl ProgramHost, given: Given<'_>, room: WriteLimit, ending: (&str, &str, u8)) {
    let (written, said, status) = ending;
    let is_ending = run_over(rt, given, room).is(written, said, status);
    expect(rt, is_ending, said);
}

#[test]
fn a_run_ends_with_its_status_and_message(rt: HostRuntime) {
    let whole = Given::all(HAND_OVER.as_bytes());
    check(&rt, whole, WriteLimit::ENDLESS, (TRANSCRIPT, "", 0));
    let cut = Given::failing_after(HAND_OVER.as_bytes(), 10);
    let ending = ("", "ntrun: line 2: read failed\n", 1);
    check(&rt, cut, WriteLimit::ENDLESS, ending);
    let all_but_one = TRANSCRIPT.len() - 1;
    let written = TRANSCRIPT.get(..all_but_one).unwrap_or("");
    let ending = (written, "ntrun: line 7: write failed\n", 1);
    check(&rt, whole, WriteLimit::of(all_but_one), ending);
}

#[test]
fn a_failed_flush_is_told_after_the_last_line_and_hides_no_fault(rt: HostRuntime) {
    let whole = Given::all(HAND_OVER.as_bytes());
    let ending = (TRANSCRIPT, "ntrun: line 7: write failed\n", 1);
    check(&rt, whole, WriteLimit::NEVER_FLUSHED, ending);
    let faulty = Given::all(b"threads 1\nt0 event e\nt0 sett e\n");
    let ending = ("2: handle 1\n", "ntrun: line 3: unknown word\n", 2);
    check(&rt, faulty, WriteLimit::NEVER_FLUSHED, ending);
}

#[test]
fn a_write_of_no_bytes_is_a_failure(rt: HostRuntime) {
    let given = Given::all(b"threads 1\nt0 next\nt0 event e\n");
    let ending = ("", "ntrun: line 2: write failed\n", 1);
    check(&rt, given, WriteLimit::NONE, ending);
}
