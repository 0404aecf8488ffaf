//! The timeline of a script, between a reader and two writers.
ghost use Rattle.std.specs.Prelude.{◌≡◌, IfOk};
ghost use Rattle.nt_lines.specs.Lines.{lines_of};
ghost use Rattle.nt_hangs.specs.Watching.{before_zero, seen_of, unseen};
ghost use Rattle.nt_timeline.specs.Ending.{IsOutcome, IsTold, TellsTimeline, TimelineEnds, TimelineTold};

use crate::film::Film;
use crate::part::Selection;
use crate::rows::put_rows;
use nt_devices::{Counted, Sink, Source};
use nt_hangs::{
    Found, InputFault, Report, before_zero, lacks_memory, put_head, read_whole, refusals_line, say,
    show_found, tell, verdict_of,
};
use nt_script::{RunFault, Session};
use std::alloc::{AllocError, Global};
use std::fs;
use std::rt::Files;

/// What a run of a script comes to, where a part of it is asked for.
#[derive(Drop)]
pub enum Outcome {
    /// The part, in words.
    Shown(Found),
    /// Lines that tell what there is in place of what the part asks for.
    Lacking(Vec<u8>),
}

/// The timeline of what is kept of a session, after `count` lines.
fn text_of(
    alloc: Global,
    file: &[u8],
    count: u64,
    film: &Film,
    session: &Session,
    part: &Selection<'_>,
) -> Result<Report, AllocError>
    ensures { IfOk result (λ report. report.code ≡ 0) }
{
    let core = session.core();
    let told = film.watch.told();
    let verdict = verdict_of(alloc, core, &film.absent)?;
    let mut text = Vec::new(alloc);
    put_head(&mut text, file, count, core, told, &verdict)?;
    text.push(b'\n')?;
    put_rows(alloc, &mut text, &film.kept, part, told)?;
    Ok(Report { text, code: 0 })
}

impl Film {
    /// The timeline of what was run, after `count` lines.
    fn report(
        &self,
        alloc: Global,
        file: &[u8],
        count: u64,
        part: &Selection<'_>,
    ) -> Result<Report, AllocError>
        ensures { IfOk result (λ report. report.code ≡ 0) }
    {
        match self.watch.session() {
            Some(session) => text_of(alloc, file, count, self, session, part),
            None => Err(AllocError),
        }
    }

    /// This report of the run, with what is reported of its calls that were refused.
    pub fn found(&self, alloc: Global, report: Report) -> Result<Found, AllocError>
        ensures { IfOk result (λ found. found.report ≡ report) }
    {
        let refused = self.watch.refused();
        let line = refusals_line(alloc, refused, self.watch.refusals())?;
        Ok(Found {
            report,
            refused,
            line,
        })
    }

    /// What the run comes to, after `count` lines.
    fn outcome(
        &self,
        alloc: Global,
        file: &[u8],
        count: u64,
        part: &Selection<'_>,
    ) -> Result<Outcome, AllocError>
        ensures { IfOk result IsTold }
    {
        let lacking = self.lacking(alloc, count, part)?;
        if !lacking.is_empty() {
            return Ok(Outcome::Lacking(lacking));
        }
        let report = self.report(alloc, file, count, part)?;
        Ok(Outcome::Shown(self.found(alloc, report)?))
    }

    /// Runs the script, and answers its timeline.
    fn play(
        &mut self,
        alloc: Global,
        file: &[u8],
        input: &[u8],
        part: &Selection<'_>,
    ) -> Result<Outcome, RunFault>
        requires { seen_of self.old.watch ≡ unseen }
        ensures { IsOutcome (lines_of input.now) result }
    {
        let count = match self.run(alloc, input, part.object) {
            Ok(count) => count,
            Err(fault) => return Err(fault),
        };
        match self.outcome(alloc, file, count, part) {
            Ok(outcome) => Ok(outcome),
            Err(_) => Err(RunFault::Memory { line: count }),
        }
    }
}

/// Runs a script, and answers the timeline of a part of it, or that there is no such part. The script ends at its first zero byte. `file` is what the
/// timeline calls it.
///
/// A line with a fault, or no `threads` line, is reported as `ntrun script` reports it; so is want of memory.
pub fn timeline_on(
    alloc: Global,
    file: &[u8],
    input: &[u8],
    part: &Selection<'_>,
) -> Result<Outcome, RunFault>
    ensures { IsOutcome (lines_of (before_zero input.now)) result }
{
    match Film::new(alloc, false) {
        Ok(mut film) => {
            let answer = film.play(alloc, file, before_zero(input), part);
            drop(film);
            answer
        }
        Err(_) => Err(RunFault::Memory { line: 1 }),
    }
}

/// Writes the timeline of these bytes.
fn timeline_input<W: Sink, E: Sink>(
    alloc: Global,
    file: &[u8],
    input: &[u8],
    part: &Selection<'_>,
    strict: bool,
    writer: &mut W,
    errors: &mut E,
) -> u8
    ensures { TellsTimeline input.now strict (W.seen writer.old) (W.seen writer.new) (E.seen errors.old) (E.seen errors.new) result }
{
    match timeline_on(alloc, file, input, part) {
        Ok(Outcome::Shown(found)) => show_found(&found, strict, writer, errors),
        Ok(Outcome::Lacking(lines)) => say(errors, lines.as_slice(), 2),
        Err(fault) => tell(alloc, fault, errors),
    }
}

/// Runs the script that the reader gives, and writes the timeline of a part of it. `file` is what the timeline calls the script.
///
/// Answers the exit status: 0 if it was written; 2 if a line has a fault, the run has nothing that the part asks for, or, where that is `strict`, a call
/// was refused; 1 if reading, writing or memory failed. Of 1, 2 and refused calls a line on `errors` tells; a failure to write that is ignored.
pub fn timeline_over<R: Source, W: Sink, E: Sink>(
    alloc: Global,
    file: &[u8],
    part: &Selection<'_>,
    strict: bool,
    reader: &mut R,
    writer: &mut W,
    errors: &mut E,
) -> u8
    ensures { TimelineEnds strict (R.seen reader.old) (R.seen reader.new)
        (W.seen writer.old) (W.seen writer.new) (E.seen errors.old) (E.seen errors.new) result }
{
    match read_whole(alloc, reader) {
        Ok(input) => timeline_input(alloc, file, input.as_slice(), part, strict, writer, errors),
        Err(InputFault::Failed) => say(errors, b"ntlook: read failed\n", 1),
        Err(InputFault::Memory) => lacks_memory(errors),
    }
}

/// The same of the script in this file; 1 where it can't be opened, which is said on `errors`.
pub fn timeline_file<F: Files + AllocGlobal, W: Sink, E: Sink>(
    files: &F,
    path: &str,
    part: &Selection<'_>,
    strict: bool,
    writer: &mut W,
    errors: &mut E,
) -> u8
    ensures { TimelineTold strict (W.seen writer.old) (W.seen writer.new) (E.seen errors.old) (E.seen errors.new) result }
{
    match fs::open(files, path) {
        Ok(file) => timeline_over(
            files.alloc(),
            path.as_bytes(),
            part,
            strict,
            &mut Counted::new(file),
            writer,
            errors,
        ),
        Err(_) => say(errors, b"ntlook: cannot open\n", 1),
    }
}
