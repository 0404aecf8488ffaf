//! Which threads are none of a script's, and what follows for the waits of the others.
ghost use Rattle.std.specs.Prelude.{◌≡◌, ◌<◌, ◌↔◌, ◌&&◌, ℕ, true, not, length, IfOk, MatchOption};
ghost use Rattle.nt_status.specs.declared.limits.TheConstants.{MAX_MOMENT, MAX_THREADS};
ghost use Rattle.nt_lines.specs.Lines.{lines_of};
ghost use Rattle.nt_calls.specs.State.{pends};
ghost use Rattle.nt_calls.specs.Steps.{IsNextMoment, NothingDue};
ghost use Rattle.nt_machine.specs.Dispatcher.{state};
ghost use Rattle.nt_look.specs.Hangs.{marked, unmarked, IsStuck};
ghost use Rattle.nt_hangs.specs.Absent.{caller_in, is_call_of, AreAbsent, AreHeld};

use crate::reports::last_moment;
use nt_core::Core;
use nt_lines::{caller_of, first_word, text_of};
use nt_look::{Verdict, greatest_knot, is_stuck};
use nt_status::MAX_THREADS;
use nt_wording::{first_line, is_marked};
use std::alloc::{AllocError, Global};

/// The thread that calls on a line, if one does.
fn caller_in(line: &[u8]) -> Option<u32>
    ensures { result ≡ caller_in line.now }
{
    match text_of(line) {
        Some(text) => match first_word(text) {
            Some((word, _)) => caller_of(word),
            None => None,
        },
        None => None,
    }
}

/// Takes the mark of the thread that calls on a line.
fn take_mark(marks: &mut [bool], line: &[u8])
    requires { length marks.old ≡ MAX_THREADS }
    ensures length { length marks.new ≡ MAX_THREADS }
    ensures marks { (t : ℕ) → t < MAX_THREADS → marked marks.new t ≡ (marked marks.old t && not (is_call_of t line.now)) }
{
    if let Some(caller) = caller_in(line) {
        if (caller as usize) < marks.len() {
            marks[caller as usize] = false;
        }
    }
}

/// The marks of the threads that are none of the script's: no line of it is a call of theirs.
pub fn absent_in(alloc: Global, script: &[u8]) -> Result<Vec<bool>, AllocError>
    ensures { IfOk result (λ marks. AreAbsent (lines_of script.now) marks.items) }
{
    let mut marks = Vec::from_elem(alloc, true, MAX_THREADS as usize)?;
    let mut rest = script;
    while !rest.is_empty() {
        let (line, others) = first_line(rest);
        take_mark(&mut marks, line);
        rest = others;
    }
    Ok(marks)
}

/// The marked threads that wait.
fn waiting_in(alloc: Global, core: &Core, knot: &[bool]) -> Result<Vec<bool>, AllocError>
    ensures count { IfOk result (λ held. length held.items ≡ (state core.now).threads) }
    ensures held { IfOk result (λ held. (t : ℕ) → t < (state core.now).threads
        → marked held.items t ≡ (marked knot.now t && pends (state core.now) t)) }
{
    let mut held = Vec::new(alloc);
    for thread in 0..core.threads() {
        held.push(is_marked(knot, thread) && core.is_waiting(thread))?;
    }
    Ok(held)
}

/// The threads that wait, and are of the greatest knot, where the marked threads make no call.
fn held_at(alloc: Global, core: &Core, absent: &[bool]) -> Result<Vec<bool>, AllocError>
    ensures { IfOk result (λ held. AreHeld (unmarked absent.now) (state core.now) held.items) }
{
    let knot = greatest_knot(alloc, core, absent)?;
    waiting_in(alloc, core, &knot)
}

/// Whether nothing can end the waits there are, which threads that wait hold each other, and when something is due next, where the marked threads make no
/// call.
pub fn verdict_of(alloc: Global, core: &Core, absent: &[bool]) -> Result<Verdict, AllocError>
    ensures stuck { IfOk result (λ verdict. (verdict.stuck ≡ true) ↔ IsStuck (unmarked absent.now) (state core.now)) }
    ensures knot { IfOk result (λ verdict. AreHeld (unmarked absent.now) (state core.now) verdict.knot.items) }
    ensures next { IfOk result (λ verdict. MatchOption verdict.next (NothingDue (state core.now) MAX_MOMENT)
        (IsNextMoment (state core.now) MAX_MOMENT)) }
{
    Ok(Verdict {
        stuck: is_stuck(core, absent),
        knot: held_at(alloc, core, absent)?,
        next: core.due(last_moment()),
    })
}
