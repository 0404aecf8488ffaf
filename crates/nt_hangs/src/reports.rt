//! The report of a script that was run up to a line.
ghost use Rattle.std.specs.Prelude.{◌≡◌, ◌++◌, OnOk, IfOk, codes, decimal};
ghost use Rattle.nt_lines.specs.Lines.{lines_of};
ghost use Rattle.nt_machine.specs.Dispatcher.{state};
ghost use Rattle.nt_script.specs.Progress.{progress};
ghost use Rattle.nt_status.specs.declared.limits.TheConstants.{MAX_MOMENT};
ghost use Rattle.nt_hangs.specs.Reports.{head_text, place_text, report_text, IsReport, Reports, ReportsOf, ReportsSeen, FindsSeen};
ghost use Rattle.nt_wording.specs.Verdicts.{verdict_text};
ghost use Rattle.nt_hangs.specs.Watching.{before_zero, seen_of, unseen, lines_up_to};

use crate::absent::{absent_in, verdict_of};
use crate::input::before_zero;
use crate::refusals::refusals_line;
use crate::watch::Watch;
use nt_core::Core;
use nt_look::Verdict;
use nt_script::{RunFault, Session};
use nt_status::{MAX_MOMENT, Moment};
use nt_wording::{code_of, put_number, put_verdict, put_waiters};
use std::alloc::{AllocError, Global};

/// Puts the file's name and a colon.
fn put_file(out: &mut Vec<u8>, file: &[u8]) -> Result<(), AllocError>
    ensures { OnOk result (out.new.items ≡ out.old.items ++ (file.now ++ codes ":")) }
{
    out.extend_from_slice(file)?;
    out.extend_from_slice(b":")
}

/// Puts the number of the last line and a colon.
fn put_count(out: &mut Vec<u8>, count: u64) -> Result<(), AllocError>
    ensures { OnOk result (out.new.items ≡ out.old.items ++ (decimal count ++ codes ": ")) }
{
    put_number(out, count)?;
    out.extend_from_slice(b": ")
}

/// Puts the file's name, and the number of its last line.
fn put_place(out: &mut Vec<u8>, file: &[u8], count: u64) -> Result<(), AllocError>
    ensures { OnOk result (out.new.items ≡ out.old.items ++ place_text file.now count) }
{
    put_file(out, file)?;
    put_count(out, count)
}

/// Puts the verdict, and ends its line.
fn put_verdict_line(
    out: &mut Vec<u8>,
    core: &Core,
    told: &[u8],
    verdict: &Verdict,
) -> Result<(), AllocError>
    ensures { OnOk result (out.new.items ≡ out.old.items
        ++ (verdict_text (state core.now) told.now verdict.now.stuck verdict.now.knot.items verdict.now.next ++ codes "\n")) }
{
    put_verdict(out, core, told, verdict)?;
    out.extend_from_slice(b"\n")
}

/// Puts the file's name, the number of its last line, and the verdict.
pub fn put_head(
    out: &mut Vec<u8>,
    file: &[u8],
    count: u64,
    core: &Core,
    told: &[u8],
    verdict: &Verdict,
) -> Result<(), AllocError>
    ensures { OnOk result (out.new.items ≡ out.old.items ++ head_text file.now count (state core.now) told.now
        verdict.now.stuck verdict.now.knot.items verdict.now.next) }
{
    put_place(out, file, count)?;
    put_verdict_line(out, core, told, verdict)
}

/// Puts the report.
fn put_report(
    out: &mut Vec<u8>,
    file: &[u8],
    count: u64,
    session: &Session,
    since: &[u64],
    objects: &[u32],
    told: &[u8],
    verdict: &Verdict,
) -> Result<(), AllocError>
    ensures { OnOk result (out.new.items ≡ out.old.items ++ report_text file.now count (progress session.now) since.now
        objects.now told.now verdict.now.stuck verdict.now.knot.items verdict.now.next) }
{
    put_head(out, file, count, session.core(), told, verdict)?;
    put_waiters(out, session, objects, told, since)
}

/// What is reported of a script, and the exit status that goes with it.
#[derive(Drop)]
pub struct Report {
    pub text: Vec<u8>,
    /// 0 if nobody waits; 3 if some waits never end; 4 if some waits can end, and none is known never to.
    pub code: u8,
}

/// What is reported of a script, and of its calls that were refused.
#[derive(Drop)]
pub struct Found {
    pub report: Report,
    /// How many calls and ticks were refused.
    pub refused: u64,
    /// The line that tells which were; empty where none was.
    pub line: Vec<u8>,
}

/// The greatest moment.
pub fn last_moment() -> Moment
    ensures { result ≡ MAX_MOMENT }
{
    match Moment::new(MAX_MOMENT) {
        Some(moment) => moment,
        None => unreachable!(),
    }
}

/// The report of a session after `count` lines, where the marked threads make no call.
fn report_of(
    alloc: Global,
    file: &[u8],
    count: u64,
    session: &Session,
    since: &[u64],
    objects: &[u32],
    told: &[u8],
    absent: &[bool],
) -> Result<Report, AllocError>
    ensures { IfOk result (λ report. IsReport file.now count (progress session.now) since.now objects.now told.now
        absent.now report.text.items report.code) }
{
    let core = session.core();
    let verdict = verdict_of(alloc, core, absent)?;
    let mut text = Vec::new(alloc);
    put_report(
        &mut text, file, count, session, since, objects, told, &verdict,
    )?;
    Ok(Report {
        text,
        code: code_of(core, &verdict),
    })
}

impl Watch {
    /// The report of what is seen after `count` lines, where the marked threads make no call.
    fn tell(
        &self,
        alloc: Global,
        file: &[u8],
        count: u64,
        absent: &[bool],
    ) -> Result<Report, AllocError>
        ensures { IfOk result (ReportsOf file.now count (seen_of self.now) absent.now) }
    {
        match &self.session {
            Some(session) => report_of(
                alloc,
                file,
                count,
                session,
                &self.since,
                &self.objects,
                &self.told,
                absent,
            ),
            None => Err(AllocError),
        }
    }

    /// Carries out the lines up to this one, and reports.
    fn report(
        &mut self,
        alloc: Global,
        file: &[u8],
        input: &[u8],
        last: Option<u64>,
        absent: &[bool],
    ) -> Result<Report, RunFault>
        requires { seen_of self.old ≡ unseen }
        ensures { ReportsSeen file.now (lines_up_to last (lines_of input.now)) (seen_of self.new) absent.now result }
    {
        let count = self.watch(alloc, input, last)?;
        match self.tell(alloc, file, count, absent) {
            Ok(report) => Ok(report),
            Err(_) => Err(RunFault::Memory { line: count }),
        }
    }

    /// Carries out the lines up to this one, and reports, with the calls that were refused.
    fn found(
        &mut self,
        alloc: Global,
        file: &[u8],
        input: &[u8],
        last: Option<u64>,
        absent: &[bool],
    ) -> Result<Found, RunFault>
        requires { seen_of self.old ≡ unseen }
        ensures { FindsSeen file.now (lines_up_to last (lines_of input.now)) (seen_of self.new) absent.now result }
    {
        match self.report(alloc, file, input, last, absent) {
            Ok(report) => match refusals_line(alloc, self.refused(), self.refusals()) {
                Ok(line) => Ok(Found {
                    report,
                    refused: self.refused(),
                    line,
                }),
                Err(_) => Err(RunFault::Memory { line: 1 }),
            },
            Err(fault) => Err(fault),
        }
    }

    /// Finds which threads are none of the script's, carries out the lines up to this one, and reports.
    fn run_to(
        &mut self,
        alloc: Global,
        file: &[u8],
        script: &[u8],
        last: Option<u64>,
    ) -> Result<Found, RunFault>
        requires { seen_of self.old ≡ unseen }
        ensures { Reports file.now (lines_up_to last (lines_of script.now)) (lines_of script.now) result }
    {
        match absent_in(alloc, script) {
            Ok(absent) => self.found(alloc, file, script, last, &absent),
            Err(_) => Err(RunFault::Memory { line: 1 }),
        }
    }
}

/// Runs a script up to a line, or to its end, and reports why its threads wait there. The script ends at its first zero byte. `file` is
/// what the report calls it. A thread without a line in the whole script is none of the run's, and ends no wait.
///
/// A line with a fault, or no `threads` line, is reported as `ntrun script` reports it; so is want of memory.
pub fn report_on(
    alloc: Global,
    file: &[u8],
    input: &[u8],
    last: Option<u64>,
) -> Result<Found, RunFault>
    ensures { Reports file.now (lines_up_to last (lines_of (before_zero input.now))) (lines_of (before_zero input.now)) result }
{
    match Watch::new(alloc) {
        Ok(mut watch) => {
            let answer = watch.run_to(alloc, file, before_zero(input), last);
            drop(watch);
            answer
        }
        Err(_) => Err(RunFault::Memory { line: 1 }),
    }
}
