//! A timeline that is drawn into a file.
ghost use Rattle.std.specs.Prelude.{◌≡◌, IfOk};
ghost use Rattle.nt_lines.specs.Lines.{lines_of};
ghost use Rattle.nt_hangs.specs.Watching.{before_zero, seen_of, unseen};
ghost use Rattle.nt_timeline.specs.Ending.{IsOutcome, IsTold};
ghost use Rattle.nt_drawing.specs.Ending.{Creates, DrawingEnds, DrawsInput};

use crate::drawing::drawn;
use nt_devices::{Counted, Sink};
use nt_hangs::{
    Found, InputFault, Report, before_zero, lacks_memory, read_whole, say, show_found, tell,
};
use nt_script::RunFault;
use nt_timeline::{Film, Outcome, Selection};
use std::alloc::{AllocError, Global};
use std::fs;
use std::rt::Files;

/// How a timeline is drawn.
#[derive(Clone, Copy, Debug, PartialEq, Eq)]
pub enum Form {
    /// As an SVG.
    Picture,
    /// As an HTML page with the picture, which loads nothing.
    Page,
    /// As events in JSON, which Perfetto and Chrome's tracing open.
    Trace,
}

/// A timeline that is drawn: its form, and the file that it is written into.
#[derive(Clone, Copy, Debug)]
pub struct Drawing<'a> {
    pub form: Form,
    pub out: &'a str,
}

/// A part of what was run, in this form.
fn report_of(
    alloc: Global,
    file: &[u8],
    film: &Film,
    form: Form,
    part: &Selection<'_>,
) -> Result<Report, AllocError>
    ensures { IfOk result (λ report. report.code ≡ 0) }
{
    match film.watch.session() {
        Some(session) => Ok(Report {
            text: drawn(alloc, file, film, session, form, part)?,
            code: 0,
        }),
        None => Err(AllocError),
    }
}

/// What the run comes to, after `count` lines.
fn outcome_of(
    alloc: Global,
    file: &[u8],
    film: &Film,
    count: u64,
    form: Form,
    part: &Selection<'_>,
) -> Result<Outcome, AllocError>
    ensures { IfOk result IsTold }
{
    let lacking = film.lacking(alloc, count, part)?;
    if !lacking.is_empty() {
        return Ok(Outcome::Lacking(lacking));
    }
    let report = report_of(alloc, file, film, form, part)?;
    Ok(Outcome::Shown(film.found(alloc, report)?))
}

/// Runs the script, and answers the drawing of a part of it.
fn play(
    alloc: Global,
    file: &[u8],
    film: &mut Film,
    input: &[u8],
    form: Form,
    part: &Selection<'_>,
) -> Result<Outcome, RunFault>
    requires { seen_of film.old.watch ≡ unseen }
    ensures { IsOutcome (lines_of input.now) result }
{
    let count = match film.run(alloc, input, part.object) {
        Ok(count) => count,
        Err(fault) => return Err(fault),
    };
    match outcome_of(alloc, file, film, count, form, part) {
        Ok(outcome) => Ok(outcome),
        Err(_) => Err(RunFault::Memory { line: count }),
    }
}

/// Runs a script, and answers a part of it as a drawing, or that there is no such part. The script ends at its first zero byte. `file` is
/// what the drawing calls it.
///
/// A line with a fault, or no `threads` line, is reported as `ntrun script` reports it; so is want of memory.
pub fn drawing_on(
    alloc: Global,
    file: &[u8],
    input: &[u8],
    form: Form,
    part: &Selection<'_>,
) -> Result<Outcome, RunFault>
    ensures { IsOutcome (lines_of (before_zero input.now)) result }
{
    match Film::new(alloc, true) {
        Ok(mut film) => {
            let answer = play(alloc, file, &mut film, before_zero(input), form, part);
            drop(film);
            answer
        }
        Err(_) => Err(RunFault::Memory { line: 1 }),
    }
}

/// Creates the file, and writes the drawing into it; 1 where either fails, which is said on `errors`.
fn write_drawing<F: Files, E: Sink>(
    files: &F,
    out: &str,
    found: &Found,
    strict: bool,
    errors: &mut E,
) -> u8
    ensures { Creates found.now strict (E.seen errors.old) (E.seen errors.new) result }
{
    match fs::create(files, out) {
        Ok(file) => show_found(found, strict, &mut Counted::new(file), errors),
        Err(_) => say(errors, b"ntlook: cannot create\n", 1),
    }
}

/// Draws the script in these bytes.
fn draw_input<F: Files + AllocGlobal, E: Sink>(
    files: &F,
    file: &[u8],
    input: &[u8],
    part: &Selection<'_>,
    drawing: Drawing<'_>,
    strict: bool,
    errors: &mut E,
) -> u8
    ensures { DrawsInput input.now strict (E.seen errors.old) (E.seen errors.new) result }
{
    match drawing_on(files.alloc(), file, input, drawing.form, part) {
        Ok(Outcome::Shown(found)) => write_drawing(files, drawing.out, &found, strict, errors),
        Ok(Outcome::Lacking(lines)) => say(errors, lines.as_slice(), 2),
        Err(fault) => tell(files.alloc(), fault, errors),
    }
}

/// Runs the script in the file at `path`, and draws the timeline of a part of it. The file of the drawing is created once all is read and run.
/// Answers the exit status as `timeline_over` of nt_timeline does; 1 too where a file can't be opened or created, which is said on `errors`.
pub fn draw_file<F: Files + AllocGlobal, E: Sink>(
    files: &F,
    path: &str,
    part: &Selection<'_>,
    drawing: Drawing<'_>,
    strict: bool,
    errors: &mut E,
) -> u8
    ensures { DrawingEnds strict (E.seen errors.old) (E.seen errors.new) result }
{
    match fs::open(files, path) {
        Ok(file) => match read_whole(files.alloc(), &mut Counted::new(file)) {
            Ok(input) => draw_input(
                files,
                path.as_bytes(),
                input.as_slice(),
                part,
                drawing,
                strict,
                errors,
            ),
            Err(InputFault::Failed) => say(errors, b"ntlook: read failed\n", 1),
            Err(InputFault::Memory) => lacks_memory(errors),
        },
        Err(_) => say(errors, b"ntlook: cannot open\n", 1),
    }
}
