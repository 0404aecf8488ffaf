//! Scripts over devices that fail at each place in turn. Those whose transcripts are known from the Win32 reference are files, in
//! `tests/scripts`.

use crate::commands::{HAND_OVER, Ran, run_over};
use crate::devices::{Given, MemoryWriter, WriteLimit};
use crate::expect::{expect, expect_at};
use crate::refused::{ProgramHost, is_refusing};
use nt_script::{Counted, RunFault, Summary, run};

/// A thread whose sleep an APC ends, and which takes its APCs.
const APCS: &str = "\
threads 2
t0 event e
t0 any inf plain e
t1 apc t0 7 1
t1 apc t0 8 2
t1 set e
t0 any inf alertable e
t0 next
t0 next
t0 next
t0 sleep inf alertable
t1 apc t0 9 3
t0 next
";

/// The line of the byte at this place.
fn line_at(script: &[u8], place: usize) -> u64 {
    let mut line = 1u64;
    for byte in script.iter().take(place) {
        if *byte == b'\n' {
            line = line.saturating_add(1);
        }
    }
    line
}

/// Whether a place is looked at: each is. Where growths are refused only each 50th is, since each growth is then one more run. They
/// begin at 49, in lines that ask for no memory, since a refusal shows nowhere where the writer takes nothing further.
fn is_looked_at(rt: &impl ProgramHost, place: usize) -> bool {
    !is_refusing(rt) || place % 50 == 49
}

/// What is said after the number of this line.
fn said_of_line(said: &[u8], line: u64) -> Option<&[u8]> {
    let mut buffer = itoa::Buffer::new();
    let said = said.strip_prefix(b"ntrun: line ")?;
    said.strip_prefix(buffer.format(line).as_bytes())
}

fn check_failed_read(rt: &impl ProgramHost, script: &[u8], place: usize, whole: &[u8]) {
    let ran = run_over(rt, Given::failing_after(script, place), WriteLimit::ENDLESS);
    let said = said_of_line(ran.said.as_slice(), line_at(script, place));
    let is_told = said == Some(b": read failed\n".as_slice()) && ran.status == 1;
    let is_beginning = whole.starts_with(ran.written.as_slice());
    expect_at(rt, is_told && is_beginning, "a read after", place as u64);
}

fn check_failed_write(rt: &impl ProgramHost, script: &[u8], room: usize, whole: &[u8]) {
    let ran = run_over(rt, Given::all(script), WriteLimit::of(room));
    let is_told = ran.said.as_slice().ends_with(b": write failed\n") && ran.status == 1;
    let is_beginning = Some(ran.written.as_slice()) == whole.get(..room);
    expect_at(rt, is_told && is_beginning, "room for", room as u64);
}

fn check_one_by_one(rt: &impl ProgramHost, script: &[u8], whole: &Ran) {
    let ran = run_over(rt, Given::one_by_one(script), WriteLimit::ONE_BY_ONE);
    let is_same = ran.written.as_slice() == whole.written.as_slice();
    expect(rt, is_same && ran.status == 0, "bytes one by one");
}

/// A reader that fails ends the run at its line, and a writer that fails holds a beginning of the transcript, which is the same for bytes
/// one by one.
fn check_devices(rt: &impl ProgramHost, script: &[u8]) {
    let whole = run_over(rt, Given::all(script), WriteLimit::ENDLESS);
    check_one_by_one(rt, script, &whole);
    for place in 0..=script.len() {
        if is_looked_at(rt, place) {
            check_failed_read(rt, script, place, whole.written.as_slice());
        }
    }
    for room in 0..whole.written.len() {
        if is_looked_at(rt, room) {
            check_failed_write(rt, script, room, whole.written.as_slice());
        }
    }
}

#[test]
fn a_device_that_fails_ends_a_run_of_waits(rt: HostRuntime) {
    check_devices(&rt, HAND_OVER.as_bytes());
}

#[test]
fn a_device_that_fails_ends_a_run_of_apcs(rt: HostRuntime) {
    check_devices(&rt, APCS.as_bytes());
}

/// What a run of the script answers.
fn answer_of(rt: &impl ProgramHost, script: &[u8]) -> Result<Summary, RunFault> {
    let mut taken = MemoryWriter::new(rt.alloc(), WriteLimit::ENDLESS);
    let mut writer = Counted::new(&mut taken);
    run(rt.alloc(), &mut Counted::new(script), &mut writer)
}

/// Where growths are refused nothing is looked at: a refused call is counted too.
#[test]
fn a_summary_counts_the_run(rt: HostRuntime) {
    let script =
        b"threads 2\nt0 event e\nt1 any inf plain e\nt1 set e\nt9 set e\nt0 set e\n\nt0 any inf plain e";
    let summary = Summary {
        lines: 8,
        calls: 6,
        refused: 2,
        granted: 1,
        pending: 1,
    };
    if !is_refusing(&rt) {
        expect(&rt, answer_of(&rt, script) == Ok(summary), "a summary");
    }
}
