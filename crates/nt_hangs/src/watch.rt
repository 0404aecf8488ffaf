//! A script that is run, and what is seen of it.
ghost use Rattle.std.specs.Prelude.{◌≡◌, ◌+◌, ◌<◌, ◌≤◌, ◌^◌, ◌++◌, ℕ, List, codes, nat_eq, length, slice_index_or, vec_len};
ghost use Rattle.std.specs.Prelude.{IfOk, IfErr, OnOk, MatchOption, None, Some};
ghost use Rattle.std.specs.List.{ends_with};
ghost use Rattle.std.specs.Option.{option_copied};
ghost use Rattle.nt_lines.specs.declared.input.TheConstants.{MAX_LINE};
ghost use Rattle.nt_status.specs.declared.limits.TheConstants.{MAX_THREADS};
ghost use Rattle.nt_grammar.specs.Scope.{handle_in};
ghost use Rattle.nt_script.specs.Progress.{AreCounted, LineAnswers, progress, progress_of};
ghost use Rattle.nt_lines.specs.Lines.{lines_of};
ghost use Rattle.nt_hangs.specs.Steps.{LineHasFault, IsFaultOf, IsReadyFor, WatchesLines};
ghost use Rattle.nt_hangs.specs.Watching.{is_waiting, names_of, newly_named, object_of, seen_of, since_of, since_then, telling, unseen, lines_up_to, Sees};

use crate::refusals::note_refusal;
use crate::taker::{TakeLine, take_lines};
use nt_grammar::{LineFault, ScriptFault};
use nt_lines::MAX_LINE;
use nt_script::{RunFault, Session, carry_out};
use nt_status::{Handle, MAX_THREADS};
use std::alloc::{AllocError, Global};

/// The greatest number of threads, each of which has a place.
const MOST_THREADS: usize = MAX_THREADS as usize;

/// A script that is run, and what is seen of it.
#[derive(Drop)]
pub struct Watch {
    pub(crate) session: Option<Session>,
    /// By thread, the line on which its pending wait began; 0 while it does not wait.
    pub(crate) since: Vec<u64>,
    /// By the places of names, the numbers of the objects that they were given to.
    pub(crate) objects: Vec<u32>,
    /// The lines that are a comment, each with an LF: they may tell names, as `; h256 is accounts`.
    pub(crate) told: Vec<u8>,
    /// What the last line said.
    out: Vec<u8>,
    /// How many calls were refused, and which, in words.
    refused: u64,
    refusals: Vec<u8>,
}

/// Since when a thread waits, after the line with this number.
fn since_then(number: u64, waits: bool, since: u64) -> u64
    ensures { result ≡ since_then number waits since }
{
    if !waits {
        0
    } else if since == 0 {
        number
    } else {
        since
    }
}

/// Whether the thread waits.
fn is_waiting(session: &Option<Session>, thread: u32) -> bool
    ensures { result ≡ is_waiting (progress_of session.now) thread }
{
    match session {
        Some(session) => session.core().is_waiting(thread),
        None => false,
    }
}

/// Notes who waits after the line with this number.
fn note_waits(since: &mut [u64], session: &Option<Session>, number: u64)
    requires { length since.old ≡ MAX_THREADS }
    ensures { (t : ℕ) → t < MAX_THREADS → slice_index_or since.new t 0
        ≡ since_then number (is_waiting (progress_of session.now) t) (slice_index_or since.old t 0) }
{
    for thread in 0..MOST_THREADS {
        since[thread] = since_then(number, is_waiting(session, thread as u32), since[thread]);
    }
}

/// How many names are bound.
fn names_bound(session: &Option<Session>) -> usize
    ensures { result ≡ length (names_of (progress_of session.now)) }
{
    match session {
        Some(session) => session.names(),
        None => 0,
    }
}

/// The handle of the name at this place, if it is bound.
fn handle_at(session: &Option<Session>, place: usize) -> Option<Handle>
    ensures { result ≡ handle_in (names_of (progress_of session.now)) place }
{
    match session {
        Some(session) => session.handle_at(place),
        None => None,
    }
}

/// The number of the object that the handle names.
fn object_of(session: &Option<Session>, handle: Handle) -> u32
    ensures { result ≡ object_of (progress_of session.now) handle }
{
    match session {
        Some(session) => match session.core().opened(handle) {
            Some(opened) => opened.object.get(),
            None => 0,
        },
        None => 0,
    }
}

/// Notes the object of the name at this place, if it is bound.
fn note_object(
    objects: &mut Vec<u32>,
    session: &Option<Session>,
    place: usize,
) -> Result<(), AllocError>
    ensures { OnOk result (objects.new.items ≡ objects.old.items
        ++ newly_named (progress_of session.now) (handle_in (names_of (progress_of session.now)) place)) }
{
    if let Some(handle) = handle_at(session, place) {
        objects.push(object_of(session, handle))?;
    }
    Ok(())
}

/// Notes the line, if it is a comment.
fn note_comment(told: &mut Vec<u8>, line: &[u8]) -> Result<(), AllocError>
    ensures { OnOk result (told.new.items ≡ told.old.items ++ telling line.now) }
{
    if line.starts_with(b"; ") {
        told.extend_from_slice(line)?;
        told.push(b'\n')?;
    }
    Ok(())
}

/// Whether a line says that its call was refused for want of memory. A report of what came after would be one of another run.
fn wants_memory(said: &[u8]) -> bool
    ensures { result ≡ ends_with nat_eq said.now (codes ": error 8\n") }
{
    said.ends_with(b": error 8\n")
}

impl Watch {
    /// Nothing is seen yet.
    pub fn new(alloc: Global) -> Result<Watch, AllocError>
        ensures { IfOk result (λ watch. seen_of watch ≡ unseen) }
    {
        Ok(Watch {
            session: None,
            since: Vec::from_elem(alloc, 0, MOST_THREADS)?,
            objects: Vec::new(alloc),
            told: Vec::new(alloc),
            out: Vec::new(alloc),
            refused: 0,
            refusals: Vec::new(alloc),
        })
    }

    /// The session, and by the places of names the numbers of the objects that they were given to.
    pub fn into_parts(self) -> (Option<Session>, Vec<u32>)
        ensures session { progress_of result.0 ≡ (seen_of self).now }
        ensures objects { result.1.items ≡ (seen_of self).objects }
    {
        (self.session, self.objects)
    }

    /// Carries out the line with this number, and notes what is seen.
    fn see(&mut self, alloc: Global, number: u64, line: &[u8]) -> Result<(), LineFault>
        requires short { length line.now ≤ MAX_LINE }
        requires counted { AreCounted number (progress_of self.old.session) }
        requires places { vec_len self.old.since ≡ MAX_THREADS }
        ensures sees { OnOk result (Sees number line.now (seen_of self.old) (seen_of self.new)) }
        ensures counted { OnOk result (AreCounted (number + 1) (progress_of self.new.session)) }
        ensures places { vec_len self.new.since ≡ MAX_THREADS }
        ensures fault { IfErr result (λ fault. LineHasFault (progress_of self.old.session) line.now fault) }
    {
        let place = names_bound(&self.session);
        carry_out(&mut self.session, alloc, number, line, &mut self.out)?;
        if wants_memory(&self.out) {
            return Err(LineFault::Memory);
        }
        note_waits(&mut self.since, &self.session, number);
        note_object(&mut self.objects, &self.session, place)?;
        note_comment(&mut self.told, line)?;
        let refused = note_refusal(&mut self.refusals, self.refused, number, &self.out)?;
        self.refused = refused;
        Ok(())
    }

    /// Carries out the line with this number, which may be too long, and notes what is seen.
    pub fn see_line(&mut self, alloc: Global, number: u64, line: &[u8]) -> Result<(), RunFault>
        requires counted { AreCounted number (progress_of self.old.session) }
        requires places { vec_len self.old.since ≡ MAX_THREADS }
        ensures sees { OnOk result (Sees number line.now (seen_of self.old) (seen_of self.new)) }
        ensures counted { OnOk result (AreCounted (number + 1) (progress_of self.new.session)) }
        ensures places { vec_len self.new.since ≡ MAX_THREADS }
        ensures fault { IfErr result (λ fault. IsFaultOf number (progress_of self.old.session) line.now fault) }
    {
        if line.len() > MAX_LINE {
            let fault = ScriptFault::LineTooLong;
            return Err(RunFault::Script {
                line: number,
                fault,
            });
        }
        match self.see(alloc, number, line) {
            Ok(()) => Ok(()),
            Err(LineFault::Memory) => Err(RunFault::Memory { line: number }),
            Err(LineFault::Script(fault)) => Err(RunFault::Script {
                line: number,
                fault,
            }),
        }
    }

    /// The script's session, once its `threads` line was carried out.
    pub fn session(&self) -> Option<&Session>
        ensures { option_copied result ≡ self.now.session }
    {
        self.session.as_ref()
    }

    /// The lines so far that are a comment, each with an LF: they may tell names.
    pub fn told(&self) -> &[u8]
        ensures { result.now ≡ (seen_of self.now).told }
    {
        &self.told
    }

    /// How many calls and ticks were refused.
    pub fn refused(&self) -> u64 {
        self.refused
    }

    /// Which of them were, in words; of many the first.
    pub fn refusals(&self) -> &[u8] {
        &self.refusals
    }

    /// By the places of names, the numbers of the objects that they were given to.
    pub fn objects(&self) -> &[u32]
        ensures { result.now ≡ (seen_of self.now).objects }
    {
        &self.objects
    }

    /// What the last line said.
    pub fn said(&self) -> &[u8]
        ensures { result.now ≡ self.now.out.items }
    {
        &self.out
    }

    /// What taking so many lines came to: a fault after them, where none of them is a `threads` line.
    pub fn opened(&self, taken: Result<u64, RunFault>) -> Result<u64, RunFault>
        requires { IfOk taken (λ count. count + 1 < 2 ^ 64) }
        ensures { (lines : List (List ℕ)) → WatchesLines lines taken (seen_of self.now)
            → WatchesLines lines result (seen_of self.now) }
    {
        match (taken, &self.session) {
            (Ok(count), None) => Err(RunFault::Script {
                line: count + 1,
                fault: ScriptFault::ThreadsExpected,
            }),
            (taken, _) => taken,
        }
    }

    /// Carries out the lines up to this one, a `threads` line among them, and answers how many there were.
    pub(crate) fn watch(
        &mut self,
        alloc: Global,
        input: &[u8],
        last: Option<u64>,
    ) -> Result<u64, RunFault>
        requires fresh { seen_of self.old ≡ unseen }
        ensures { WatchesLines (lines_up_to last (lines_of input.now)) result (seen_of self.new) }
    {
        let taken = take_lines(self, alloc, input, last);
        self.opened(taken)
    }
}

impl TakeLine for Watch {
    type Fault = RunFault;

    ghost IsReady = { λ number watch. IsReadyFor number (seen_of watch) };

    ghost Takes = { λ number bytes old new. Sees number bytes (seen_of old) (seen_of new) };

    ghost Refuses = { λ number bytes watch fault. IsFaultOf number (seen_of watch).now bytes fault };

    fn take_line(&mut self, alloc: Global, number: u64, line: &[u8]) -> Result<(), RunFault> {
        self.see_line(alloc, number, line)
    }
}
