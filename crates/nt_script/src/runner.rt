//! Scripts to transcripts.

ghost use Rattle.std.specs.Prelude.{◌≡◌, ◌+◌, ◌-◌, ◌<◌, ◌≤◌, ◌^◌, [], length, IfOk, IfErr, IfSome, OnOk, Err, None, false, vec_capacity};
ghost use Rattle.std.specs.Option.{option_copied};
ghost use Rattle.nt_lines.specs.Lines.{to_come, CountsReadFault, ReadsLine, StopsInLine};
ghost use Rattle.nt_lines.specs.declared.input.TheConstants.{MAX_LINE};
ghost use Rattle.nt_script.specs.Progress.{AreCounted, progress_of};
ghost use Rattle.nt_script.specs.Running.{Answers, CountsFailures, CountsFaults, NothingAhead, Passes, RunnerTakesNext, WritesLine, WritesOutput, RunEnds};

use crate::fault::RunFault;
use crate::session::{Session, carry_out};
use crate::summary::Summary;
use nt_devices::{Sink, Source, WriteFailed, write_whole};
use nt_grammar::{LineFault, ScriptFault};
use nt_lines::{Ending, Input, MAX_LINE, ReadFault};
use std::alloc::{AllocError, Global};

/// A script that is carried out line by line, between a reader and a writer.
#[derive(Drop)]
pub struct Runner {
    input: Input,
    /// The line that was read last.
    line: Vec<u8>,
    out: Vec<u8>,
    session: Option<Session>,
}

/// What was taken from the input.
#[derive(Clone, Copy, Debug, PartialEq, Eq)]
enum Taken {
    Line,
    LastLine,
    Nothing,
}

impl Runner {
    /// Nothing is read yet.
    pub fn new(alloc: Global) -> Result<Runner, AllocError>
        ensures input { IfOk result (λ runner. runner.input ≡ []) }
        ensures session { IfOk result (λ runner. runner.session ≡ None) }
        ensures line { IfOk result (λ runner. MAX_LINE + 1 ≤ vec_capacity runner.line) }
    {
        Ok(Runner {
            input: Input::new(alloc)?,
            line: Vec::with_capacity(alloc, MAX_LINE + 1)?,
            out: Vec::new(alloc),
            session: None,
        })
    }

    /// Reads the next line, and carries out nothing.
    pub fn read_line<R: Source>(&mut self, reader: &mut R) -> Result<Ending, ReadFault>
        requires { MAX_LINE + 1 ≤ vec_capacity self.old.line }
        ensures ok { IfOk result (ReadsLine (to_come self.old.input (R.seen reader.old).left)
            (to_come self.new.input (R.seen reader.new).left) self.new.line.items) }
        ensures err { IfErr result (StopsInLine (to_come self.old.input (R.seen reader.old).left)
            (to_come self.new.input (R.seen reader.new).left) self.new.line.items) }
        ensures nothing_ahead { result ≡ Err ReadFault.Failed → self.new.input ≡ [] }
        ensures counted { CountsReadFault (R.seen reader.old).failed (R.seen reader.new).failed result }
        ensures line { MAX_LINE + 1 ≤ vec_capacity self.new.line }
        ensures session { self.new.session ≡ self.old.session }
    {
        self.input.read_line(reader, &mut self.line)
    }

    /// The line that was read last, without the LF that ends it; of one that is too long, its first bytes.
    pub fn line(&self) -> &[u8]
        ensures { result.now ≡ self.now.line.items }
    {
        &self.line
    }

    /// The script's session, once its `threads` line was carried out.
    pub fn session(&self) -> Option<&Session>
        ensures { option_copied result ≡ self.now.session }
    {
        self.session.as_ref()
    }

    /// Reads one line, carries it out, and writes what it says.
    fn take_line<R: Source, W: Sink>(
        &mut self,
        alloc: Global,
        number: u64,
        reader: &mut R,
        writer: &mut W,
    ) -> Result<Taken, RunFault>
        requires counted { AreCounted number (progress_of self.old.session) }
        requires line { MAX_LINE + 1 ≤ vec_capacity self.old.line }
        ensures line { MAX_LINE + 1 ≤ vec_capacity self.new.line }
        ensures ahead { IfErr result (NothingAhead self.new.input) }
        ensures unflushed { (W.seen writer.new).flushes ≡ (W.seen writer.old).flushes }
        ensures next { RunnerTakesNext number self.old self.new (R.seen reader.old) (R.seen reader.new)
            (W.seen writer.old) (W.seen writer.new) result }
        ensures counts { CountsFaults (R.seen reader.old).failed (R.seen reader.new).failed (W.seen writer.old).failed
            (W.seen writer.new).failed result }
    {
        match self.input.read_line(reader, &mut self.line) {
            Ok(Ending::Feed) => {
                write_line(
                    &mut self.session,
                    alloc,
                    number,
                    self.line.as_slice(),
                    &mut self.out,
                    writer,
                )?;
                Ok(Taken::Line)
            }
            Ok(Ending::EndOfInput) => {
                if self.line.is_empty() {
                    return Ok(Taken::Nothing);
                }
                match write_line(
                    &mut self.session,
                    alloc,
                    number,
                    self.line.as_slice(),
                    &mut self.out,
                    writer,
                ) {
                    Ok(()) => Ok(Taken::LastLine),
                    Err(fault) => Err(fault),
                }
            }
            Err(ReadFault::Failed) => Err(RunFault::Read { line: number }),
            Err(ReadFault::TooLong) => {
                let fault = ScriptFault::LineTooLong;
                Err(RunFault::Script {
                    line: number,
                    fault,
                })
            }
        }
    }

    /// Writes which threads still wait, after `lines` lines.
    fn end<W: Sink>(&mut self, lines: u64, writer: &mut W) -> Result<Summary, RunFault>
        requires { lines + 1 < 2 ^ 64 }
        ensures lines { IfOk result (λ summary. summary.lines ≡ lines) }
        ensures unflushed { (W.seen writer.new).flushes ≡ (W.seen writer.old).flushes }
        ensures held { OnOk result ((W.seen writer.new).handed_on ≡ false) }
        ensures ends { RunEnds lines (progress_of self.old.session) (W.seen writer.old).held
            (W.seen writer.new).held result }
        ensures counts { CountsFaults 0 0 (W.seen writer.old).failed (W.seen writer.new).failed result }
    {
        let line = lines + 1;
        let Some(session) = &self.session else {
            let fault = ScriptFault::ThreadsExpected;
            return Err(RunFault::Script { line, fault });
        };
        self.out.clear();
        match session.put_end(&mut self.out) {
            Ok(()) => match write_output(line, self.out.as_slice(), writer) {
                Ok(()) => Ok(session.summary(lines)),
                Err(fault) => Err(fault),
            },
            Err(_) => Err(RunFault::Memory { line }),
        }
    }

    /// Carries out the lines before this one. Where the input ends before it, the answer is how many lines there were.
    pub fn pass_to<R: Source, W: Sink>(
        &mut self,
        alloc: Global,
        number: u64,
        reader: &mut R,
        writer: &mut W,
    ) -> Result<Option<u64>, RunFault>
        requires some { 0 < number }
        requires input { self.old.input ≡ [] }
        requires session { self.old.session ≡ None }
        requires line { MAX_LINE + 1 ≤ vec_capacity self.old.line }
        ensures passes { Passes number self.new (R.seen reader.old) (R.seen reader.new) (W.seen writer.old)
            (W.seen writer.new) result }
        ensures counts { CountsFaults (R.seen reader.old).failed (R.seen reader.new).failed (W.seen writer.old).failed
            (W.seen writer.new).failed result }
        ensures unflushed { (W.seen writer.new).flushes ≡ (W.seen writer.old).flushes }
        ensures line { MAX_LINE + 1 ≤ vec_capacity self.new.line }
        ensures few { IfOk result (λ count. IfSome count (λ count. count < number)) }
    {
        for before in 1..number {
            match self.take_line(alloc, before, reader, writer) {
                Ok(Taken::Line) => {}
                Ok(Taken::LastLine) => return Ok(Some(before)),
                Ok(Taken::Nothing) => return Ok(Some(before - 1)),
                Err(fault) => return Err(fault),
            }
        }
        Ok(None)
    }

    /// Carries out the script line by line.
    fn take_lines<R: Source, W: Sink>(
        &mut self,
        alloc: Global,
        reader: &mut R,
        writer: &mut W,
    ) -> Result<Summary, RunFault>
        requires input { self.old.input ≡ [] }
        requires session { self.old.session ≡ None }
        requires line { MAX_LINE + 1 ≤ vec_capacity self.old.line }
        ensures answers { Answers (R.seen reader.old).left (R.seen reader.new).left (W.seen writer.old).held
            (W.seen writer.new).held result }
        ensures counts { CountsFaults (R.seen reader.old).failed (R.seen reader.new).failed (W.seen writer.old).failed
            (W.seen writer.new).failed result }
        ensures unflushed { (W.seen writer.new).flushes ≡ (W.seen writer.old).flushes }
        ensures held { OnOk result ((W.seen writer.new).handed_on ≡ false) }
        ensures lines { IfOk result (λ summary. summary.lines < 2 ^ 64 - 1) }
    {
        match self.pass_to(alloc, u64::MAX, reader, writer) {
            Ok(Some(count)) => self.end(count, writer),
            Ok(None) => Err(RunFault::Memory { line: u64::MAX }),
            Err(fault) => Err(fault),
        }
    }
}

/// Carries out a line, and writes what it says.
fn write_line<W: Sink>(
    session: &mut Option<Session>,
    alloc: Global,
    number: u64,
    line: &[u8],
    out: &mut Vec<u8>,
    writer: &mut W,
) -> Result<(), RunFault>
    requires short { length line.now ≤ MAX_LINE }
    requires counted { AreCounted number (progress_of session.old) }
    ensures unflushed { (W.seen writer.new).flushes ≡ (W.seen writer.old).flushes }
    ensures line { WritesLine number line.now (progress_of session.old) (progress_of session.new)
        (W.seen writer.old).held (W.seen writer.new).held result }
    ensures counts { CountsFaults 0 0 (W.seen writer.old).failed (W.seen writer.new).failed result }
{
    match carry_out(session, alloc, number, line, out) {
        Ok(()) => write_output(number, out.as_slice(), writer),
        Err(LineFault::Memory) => Err(RunFault::Memory { line: number }),
        Err(LineFault::Script(fault)) => Err(RunFault::Script {
            line: number,
            fault,
        }),
    }
}

/// Writes the output of the line with this number.
fn write_output<W: Sink>(number: u64, output: &[u8], writer: &mut W) -> Result<(), RunFault>
    ensures unflushed { (W.seen writer.new).flushes ≡ (W.seen writer.old).flushes }
    ensures held { 0 < length output.now → (W.seen writer.new).handed_on ≡ false }
    ensures output { WritesOutput number output.now (W.seen writer.old).held (W.seen writer.new).held
        (W.seen writer.old).failed (W.seen writer.new).failed result }
{
    match write_whole(writer, output) {
        Ok(()) => Ok(()),
        Err(WriteFailed) => Err(RunFault::Write { line: number }),
    }
}

/// Carries out the script line by line.
fn run_lines<R: Source, W: Sink>(
    alloc: Global,
    reader: &mut R,
    writer: &mut W,
) -> Result<Summary, RunFault>
    ensures answers { Answers (R.seen reader.old).left (R.seen reader.new).left (W.seen writer.old).held
        (W.seen writer.new).held result }
    ensures counts { CountsFaults (R.seen reader.old).failed (R.seen reader.new).failed (W.seen writer.old).failed
        (W.seen writer.new).failed result }
    ensures unflushed { (W.seen writer.new).flushes ≡ (W.seen writer.old).flushes }
    ensures held { OnOk result ((W.seen writer.new).handed_on ≡ false) }
    ensures lines { IfOk result (λ summary. summary.lines < 2 ^ 64 - 1) }
{
    match Runner::new(alloc) {
        Ok(mut runner) => {
            let answer = runner.take_lines(alloc, reader, writer);
            drop(runner);
            answer
        }
        Err(_) => Err(RunFault::Memory { line: 1 }),
    }
}

/// Carries out the script that the reader gives, and writes its transcript.
///
/// Where a read fails, each line that was read whole before it was carried out, and their output is all that was
/// written. Where a write fails, the output of the lines before was written whole, and of this line's a part that is not
/// the whole of it. The writer is never flushed: on `Ok` what was written is not handed on yet. No failed read or write is
/// tried again. A script of 2^64 - 1 lines is answered by `Memory` at its last.
pub fn run<R: Source, W: Sink>(
    alloc: Global,
    reader: &mut R,
    writer: &mut W,
) -> Result<Summary, RunFault>
    requires read_failures { (R.seen reader.old).failed < 2 ^ 64 - 1 }
    requires write_failures { (W.seen writer.old).failed < 2 ^ 64 - 1 }
    ensures answers { Answers (R.seen reader.old).left (R.seen reader.new).left (W.seen writer.old).held
        (W.seen writer.new).held result }
    ensures failures { CountsFailures (R.seen reader.old).failed (R.seen reader.new).failed (W.seen writer.old).failed
        (W.seen writer.new).failed result }
    ensures unflushed { (W.seen writer.new).flushes ≡ (W.seen writer.old).flushes }
    ensures held { OnOk result ((W.seen writer.new).handed_on ≡ false) }
    ensures lines { IfOk result (λ summary. summary.lines < 2 ^ 64 - 1) }
{
    run_lines(alloc, reader, writer)
}
