//! Whether anything can end the waits, in words.
ghost use Rattle.std.specs.Prelude.{◌≡◌, ◌++◌, take, decimal, codes, OnOk};
ghost use Rattle.nt_machine.specs.Dispatcher.{state};
ghost use Rattle.nt_look.specs.Hangs.{marked};
ghost use Rattle.nt_wording.specs.Verdicts.{code_of, knot_text, marks_in, members_text, next_text};
ghost use Rattle.nt_wording.specs.Verdicts.{others_text, separator, verdict_text};

use crate::names::put_thread_title;
use crate::text::put_number;
use nt_core::Core;
use nt_look::Verdict;
use nt_status::Moment;
use std::alloc::AllocError;

/// How many threads have a mark.
pub fn marks_in(marks: &[bool]) -> usize
    ensures { result ≡ marks_in marks.now }
{
    marks.iter().filter(|mark| **mark).count()
}

/// Whether the thread has a mark.
pub fn is_marked(marks: &[bool], thread: u32) -> bool
    ensures { result ≡ marked marks.now thread }
{
    match marks.get(thread as usize) {
        Some(mark) => *mark,
        None => false,
    }
}

/// How many of the threads below this one have a mark.
fn marks_below(marks: &[bool], thread: u32) -> usize
    ensures { result ≡ marks_in (take thread marks.now) }
{
    marks_in(&marks[..marks.len().min(thread as usize)])
}

/// What stands before the next of `count` names: nothing before the first, `and` before the last, else a comma.
fn separator(told: usize, count: usize) -> &'static [u8]
    ensures { result.now ≡ separator told count }
{
    if told == 0 {
        b""
    } else if count.saturating_sub(told) == 1 {
        b" and "
    } else {
        b", "
    }
}

/// Puts the names of the marked threads.
fn put_members(
    out: &mut Vec<u8>,
    told: &[u8],
    marks: &[bool],
    threads: u32,
) -> Result<(), AllocError>
    ensures { OnOk result (out.new.items ≡ out.old.items ++ members_text told.now marks.now threads) }
{
    let count = marks_in(marks);
    for thread in 0..threads {
        if is_marked(marks, thread) {
            let before = marks_below(marks, thread);
            out.extend_from_slice(separator(before, count))?;
            put_thread_title(out, told, thread)?;
        }
    }
    Ok(())
}

/// Puts that the one marked thread is held.
fn put_single(
    out: &mut Vec<u8>,
    told: &[u8],
    marks: &[bool],
    threads: u32,
) -> Result<(), AllocError>
    ensures { OnOk result (out.new.items
        ≡ out.old.items ++ (codes "nothing can end the wait of " ++ members_text told.now marks.now threads)) }
{
    out.extend_from_slice(b"nothing can end the wait of ")?;
    put_members(out, told, marks, threads)
}

/// Puts that the marked threads hold each other.
fn put_several(
    out: &mut Vec<u8>,
    told: &[u8],
    marks: &[bool],
    threads: u32,
) -> Result<(), AllocError>
    ensures { OnOk result (out.new.items
        ≡ out.old.items ++ (members_text told.now marks.now threads ++ codes " hold each other: nothing can end their waits")) }
{
    put_members(out, told, marks, threads)?;
    out.extend_from_slice(b" hold each other: nothing can end their waits")
}

/// Puts which threads are held.
fn put_knot(out: &mut Vec<u8>, told: &[u8], marks: &[bool], threads: u32) -> Result<(), AllocError>
    ensures { OnOk result (out.new.items ≡ out.old.items ++ knot_text told.now marks.now threads) }
{
    if marks_in(marks) == 1 {
        put_single(out, told, marks, threads)
    } else {
        put_several(out, told, marks, threads)
    }
}

/// Puts that something is due at this moment.
fn put_moment(out: &mut Vec<u8>, moment: u64) -> Result<(), AllocError>
    ensures { OnOk result (out.new.items ≡ out.old.items ++ (codes "; something is due at " ++ decimal moment)) }
{
    out.extend_from_slice(b"; something is due at ")?;
    put_number(out, moment)
}

/// Puts when something is due, if that is known.
fn put_next(out: &mut Vec<u8>, next: Option<Moment>) -> Result<(), AllocError>
    ensures { OnOk result (out.new.items ≡ out.old.items ++ next_text next) }
{
    match next {
        Some(moment) => put_moment(out, moment.get()),
        None => Ok(()),
    }
}

/// Puts that nothing rules out that the waits end, and when something is due.
fn put_open(out: &mut Vec<u8>, next: Option<Moment>) -> Result<(), AllocError>
    ensures { OnOk result (out.new.items ≡ out.old.items ++ (codes "nothing rules out that the waits end" ++ next_text next)) }
{
    out.extend_from_slice(b"nothing rules out that the waits end")?;
    put_next(out, next)
}

/// Puts which threads are held, and that the other waits never end either, if that is so.
pub fn put_held(
    out: &mut Vec<u8>,
    told: &[u8],
    marks: &[bool],
    threads: u32,
    all: bool,
) -> Result<(), AllocError>
    ensures { OnOk result (out.new.items ≡ out.old.items ++ (knot_text told.now marks.now threads ++ others_text all)) }
{
    put_knot(out, told, marks, threads)?;
    out.extend_from_slice(others_text(all))
}

fn stuck_text() -> &'static [u8]
    ensures { result.now ≡ codes "stuck: whoever runs waits, and nothing can end that" }
{
    b"stuck: whoever runs waits, and nothing can end that"
}

/// Puts whether anything can end the waits.
pub fn put_verdict(
    out: &mut Vec<u8>,
    core: &Core,
    told: &[u8],
    verdict: &Verdict,
) -> Result<(), AllocError>
    ensures { OnOk result (out.new.items ≡ out.old.items
        ++ verdict_text (state core.now) told.now verdict.now.stuck verdict.now.knot.items verdict.now.next) }
{
    let knot = verdict.knot.as_slice();
    let held = marks_in(knot);
    if core.pending() == 0 {
        out.extend_from_slice(b"nobody waits")
    } else if held > 0 {
        let all = verdict.stuck && held < core.pending();
        put_held(out, told, knot, core.threads(), all)
    } else if verdict.stuck {
        out.extend_from_slice(stuck_text())
    } else {
        put_open(out, verdict.next)
    }
}

/// That the waits outside the knot never end either, if that is so.
fn others_text(stuck: bool) -> &'static [u8]
    ensures { result.now ≡ others_text stuck }
{
    if stuck { b"; nor the other waits" } else { b"" }
}

/// The exit status.
pub fn code_of(core: &Core, verdict: &Verdict) -> u8
    ensures { result ≡ code_of (state core.now) verdict.now.stuck verdict.now.knot.items }
{
    if core.pending() == 0 {
        0
    } else if verdict.stuck || marks_in(&verdict.knot) > 0 {
        3
    } else {
        4
    }
}
