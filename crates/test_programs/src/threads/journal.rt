//! The journal of a run by real threads, written as a script: the script's run has the same answers and grants.
use crate::expect::{expect, expect_equal};
use crate::refused::is_refusing;
use nt_core::Reply;
use nt_mail::{PackedEntry, ReadEntry};
use nt_script::{Counted, Summary, run};
use nt_status::Refusal;
use nt_threads::history_of;
use nt_written::{Unwritten, write_line};
use std::alloc::{AllocError, Global};
use std::process::Abort;
use std::test::Fail;

/// The calls of the entries, each a line, after the line of the three threads.
fn script_of(alloc: Global, entries: &[PackedEntry]) -> Result<Vec<u8>, Unwritten> {
    let mut script = b"threads 3\n".to_vec(alloc)?;
    for entry in entries {
        if let ReadEntry::Called { who, call, result } = entry.read() {
            write_line(&mut script, who, call, &result)?;
        }
    }
    Ok(script)
}

/// What a transcript says of an answer. No thread of the plan takes an APC.
fn answer_text(alloc: Global, answer: &Result<Reply, Refusal>) -> Result<String, AllocError> {
    match answer {
        Ok(Reply::Done) => format!(in alloc; "ok"),
        Ok(Reply::Handle(handle)) => format!(in alloc; "handle {}", handle.get()),
        Ok(Reply::Previous(count)) => format!(in alloc; "previous {count}"),
        Ok(Reply::Status(status)) => format!(in alloc; "status 0x{:08x}", status.code()),
        Ok(Reply::Pended) => format!(in alloc; "pending"),
        Ok(Reply::Apc(_)) => format!(in alloc; "an APC"),
        Err(refusal) => format!(in alloc; "error {}", refusal.number()),
    }
}

/// What a transcript says of this entry. `line` lines of the script have come, this one's included.
fn entry_text(alloc: Global, line: u32, entry: &PackedEntry) -> Result<String, AllocError> {
    match entry.read() {
        ReadEntry::Called { result, .. } => {
            let answer = answer_text(alloc, &result)?;
            format!(in alloc; "{line}: {answer}\n")
        }
        ReadEntry::Handed { .. } => format!(in alloc; "{line}: an APC\n"),
        ReadEntry::Granted { who, status } => {
            format!(in alloc; "{line}: t{} status 0x{:08x}\n", who.get(), status.code())
        }
        ReadEntry::Ticked { .. } => format!(in alloc; "{line}: a tick\n"),
        ReadEntry::Renewed { .. } => format!(in alloc; "{line}: numbers given again\n"),
    }
}

/// The transcript that has the answers and grants of the entries, and at whose end no thread waits.
fn transcript_of(alloc: Global, entries: &[PackedEntry]) -> Result<String, AllocError> {
    let mut transcript = String::new(alloc);
    let mut line = 1u32;
    for entry in entries {
        if let ReadEntry::Called { .. } = entry.read() {
            line = line.saturating_add(1);
        }
        transcript.push_str(entry_text(alloc, line, entry)?.as_str())?;
    }
    transcript.push_str("end: pending none\n")?;
    Ok(transcript)
}

/// The transcript of the script, where it has no fault, and what it counts.
fn run_script(alloc: Global, script: &[u8]) -> Result<(Vec<u8>, Summary), Fail> {
    let mut written = Vec::new(alloc);
    let summary = run(
        alloc,
        &mut Counted::new(script),
        &mut Counted::new(&mut written),
    )?;
    Ok((written, summary))
}

/// The entries, as a script, are carried out with their answers and grants.
fn check(rt: &(impl Abort + AllocGlobal), entries: &[PackedEntry]) -> Result<(), Fail> {
    let script = script_of(rt.alloc(), entries)?;
    let wanted = transcript_of(rt.alloc(), entries)?;
    let (written, summary) = run_script(rt.alloc(), script.as_slice())?;
    expect(rt, written.as_slice() == wanted.as_bytes(), wanted.as_str());
    let counts = (summary.calls, summary.refused, summary.pending);
    expect_equal(rt, counts, (28, 0, 0), "calls, refusals, pending waits");
    Ok(())
}

/// Two workers make three rounds. The first thread makes 6 calls: three creations, a set, a wait for both, and its end; each of
/// the others 11: a wait for the event, three calls a round, and its end.
#[test]
fn a_real_run_is_made_again_as_a_script(rt: HostRuntime) -> Result<(), Fail> {
    // how many waits pend depends on the threads' schedule, and with it how many allocations there are
    if is_refusing(&rt) {
        return Ok(());
    }
    let history = history_of(&rt, rt.alloc(), 2, 3)?;
    check(&rt, history.entries.as_slice())
}
