//! The report of a script's orders.
ghost use Rattle.std.specs.Prelude.{◌≡◌, IfErr, IfOk, OnErr, option_map};
ghost use Rattle.nt_machine.specs.Dispatcher.{state};
ghost use Rattle.nt_hangs.specs.Watching.{before_zero};
ghost use Rattle.nt_explore.specs.Search.{TellsVerdict};
ghost use Rattle.nt_lanes.specs.Lanes.{beginning};
ghost use Rattle.nt_orders.specs.Ending.{verdict_code, order_of, IsCutOff, IsSearched, IsOrdersOutcome};
ghost use Rattle.nt_orders.specs.Reading.{lanes_of};
ghost use Rattle.nt_orders.specs.declared.fault.OrdersFault.TheVariants.{Memory};

use crate::fault::OrdersFault;
use crate::lanes::Script;
use crate::progress::Progress;
use crate::reading::read_script;
use crate::rows::{put_hang, put_rows};
use nt_core::Core;
use nt_devices::Sink;
use nt_explore::{Explored, Loss, OrderVerdict, explore};
use nt_hangs::{Report, before_zero, verdict_of};
use nt_plans::Made;
use nt_wording::{put_number, put_thread_title, put_waiters};
use std::alloc::{AllocError, Global};

/// What the orders of a script come to.
#[derive(Drop)]
pub struct Findings {
    pub report: Report,
    /// The order that hangs, as a script, if one does: what is made before all calls, then the lines in that order.
    pub order: Option<Vec<u8>>,
}

/// Puts a count and what is counted, with an `s` unless it is one.
fn put_many(out: &mut Vec<u8>, count: usize, what: &[u8]) -> Result<(), AllocError> {
    put_number(out, count as u64)?;
    out.extend_from_slice(what)?;
    out.extend_from_slice(if count == 1 { b"" } else { b"s" })
}

/// Puts the file's name, and how many states and steps there are.
fn put_counts(out: &mut Vec<u8>, file: &[u8], explored: &Explored) -> Result<(), AllocError> {
    out.extend_from_slice(file)?;
    out.extend_from_slice(b": ")?;
    put_many(out, explored.states, b" state")?;
    out.extend_from_slice(b", ")?;
    put_many(out, explored.steps, b" step")?;
    out.extend_from_slice(b", ")
}

/// Puts how many states hang, and that others were not looked at.
fn put_hangs(out: &mut Vec<u8>, hangs: usize, all: bool) -> Result<(), AllocError> {
    put_many(out, hangs, b" state")?;
    out.extend_from_slice(if hangs == 1 { b" hangs" } else { b" hang" })?;
    out.extend_from_slice(if all { b"" } else { b", and the bound was met" })
}

/// Puts how long the shortest order is.
fn put_shortest(out: &mut Vec<u8>, count: usize) -> Result<(), AllocError> {
    out.extend_from_slice(b"; the shortest order, ")?;
    put_many(out, count, b" line")?;
    out.extend_from_slice(b":\n")
}

/// Puts that no order hangs that was tried.
fn put_bound(out: &mut Vec<u8>, level: usize) -> Result<(), AllocError> {
    out.extend_from_slice(b"the bound was met: no order of fewer than ")?;
    put_many(out, level.saturating_add(1), b" line")?;
    out.extend_from_slice(b" hangs\n")
}

/// Puts since when a wait was lost, and whose.
fn put_lost(out: &mut Vec<u8>, told: &[u8], loss: &Loss) -> Result<(), AllocError> {
    out.extend_from_slice(b"  lost after ")?;
    put_many(out, loss.lanes.len(), b" line")?;
    out.extend_from_slice(b": the wait of ")?;
    put_thread_title(out, told, loss.thread)?;
    out.extend_from_slice(b" ends in no order from here on\n")
}

/// Puts a comment that names a gate: it is of its line, and that of a thread.
fn put_gate_title(out: &mut Vec<u8>, core: &Core, made: &Made) -> Result<(), AllocError> {
    let Some(opened) = core.opened(made.gate) else {
        return Ok(());
    };
    out.extend_from_slice(b"\n; object ")?;
    put_number(out, u64::from(opened.object.get()))?;
    out.extend_from_slice(b" is (line ")?;
    put_number(out, made.number)?;
    out.extend_from_slice(b" of t")?;
    put_number(out, u64::from(made.who))?;
    out.extend_from_slice(b")\n")
}

/// Where an order ends: the dispatcher, and by thread the line on which it waits.
#[derive(Drop)]
struct End {
    core: Core,
    since: Vec<u64>,
}

/// Puts who hangs, in a line.
fn put_hang_line(
    out: &mut Vec<u8>,
    alloc: Global,
    core: &Core,
    told: &[u8],
    over: &[bool],
) -> Result<(), AllocError> {
    let verdict = verdict_of(alloc, core, over)?;
    out.extend_from_slice(b"  ")?;
    put_hang(out, core, told, verdict.stuck, &verdict.knot)?;
    out.extend_from_slice(b"\n")
}

impl Script {
    /// What tells names: the script's comments, and that a gate is of its line.
    fn titles(&self, alloc: Global, told: &[u8]) -> Result<Vec<u8>, AllocError> {
        let mut out = Vec::from_slice(alloc, told)?;
        for made in &self.late {
            put_gate_title(&mut out, self.session.core(), made)?;
        }
        Ok(out)
    }

    /// Puts the order, and who hangs at its end.
    fn put_order(
        &self,
        out: &mut Vec<u8>,
        alloc: Global,
        told: &[u8],
        lanes: &[u32],
    ) -> Result<End, AllocError> {
        let mut core = self.session.core().copy().map_err(|_| AllocError)?;
        let mut places = Vec::from_elem(alloc, 0, self.plan.lanes())?;
        let rows = self.walk(alloc, &mut core, &mut places, lanes)?;
        put_rows(out, 2, rows.as_slice())?;
        let over = self.over(alloc, &core, &places)?;
        put_hang_line(out, alloc, &core, told, &over)?;
        let since = self.since(alloc, &places)?;
        Ok(End { core, since })
    }

    /// Puts who waits where an order ends. Answers the dispatcher of the start.
    fn put_end(&mut self, out: &mut Vec<u8>, told: &[u8], end: End) -> Result<Core, AllocError> {
        let start = self.session.replace_core(end.core);
        put_waiters(out, &self.session, &self.objects, told, &end.since)?;
        Ok(start)
    }

    /// Puts the order that loses a wait.
    fn put_loss(
        &self,
        out: &mut Vec<u8>,
        alloc: Global,
        told: &[u8],
        start: &mut Core,
        loss: &Loss,
    ) -> Result<(), AllocError> {
        let mut places = Vec::from_elem(alloc, 0, self.plan.lanes())?;
        let rows = self.walk(alloc, start, &mut places, loss.lanes.as_slice())?;
        put_lost(out, told, loss)?;
        put_rows(out, 4, rows.as_slice())
    }

    /// Puts the order that hangs, and since when a wait was lost, where that was earlier.
    fn put_hanging(
        &mut self,
        out: &mut Vec<u8>,
        alloc: Global,
        told: &[u8],
        lanes: &[u32],
        loss: &Option<Loss>,
    ) -> Result<(), AllocError> {
        put_shortest(out, lanes.len())?;
        let end = self.put_order(out, alloc, told, lanes)?;
        let mut start = self.put_end(out, told, end)?;
        match loss {
            Some(loss) if loss.lanes.len() < lanes.len() => {
                self.put_loss(out, alloc, told, &mut start, loss)
            }
            _ => Ok(()),
        }
    }

    /// The report of what was explored, with the names that the script's comments give.
    fn report(
        &mut self,
        alloc: Global,
        file: &[u8],
        told: &[u8],
        explored: &Explored,
    ) -> Result<Report, AllocError>
        ensures { IfOk result (λ report. report.code ≡ verdict_code explored.now.verdict) }
    {
        let mut text = Vec::new(alloc);
        put_counts(&mut text, file, explored)?;
        let code = match &explored.verdict {
            OrderVerdict::None => {
                text.extend_from_slice(b"none hangs\n")?;
                0
            }
            OrderVerdict::Met { level } => {
                put_bound(&mut text, *level)?;
                4
            }
            OrderVerdict::Hangs { lanes, loss } => {
                put_hangs(&mut text, explored.hangs, loss.is_some())?;
                self.put_hanging(&mut text, alloc, told, lanes.as_slice(), loss)?;
                3
            }
        };
        Ok(Report { text, code })
    }

    /// Explores the orders, and tells how far that is.
    fn search<P: Sink>(
        &self,
        alloc: Global,
        most: usize,
        progress: &mut Progress<P>,
    ) -> Result<Explored, AllocError>
        ensures verdict { IfOk result (λ explored. TellsVerdict (lanes_of self.now).plan
            (beginning (lanes_of self.now).plan (state self.now.session.core)) explored.verdict) }
        ensures searched { IfOk result (IsSearched most (lanes_of self.now) (state self.now.session.core)
            (P.seen progress.old.sink) (P.seen progress.new.sink)) }
        ensures cut_off { OnErr result (IsCutOff most (lanes_of self.now) (state self.now.session.core)
            (P.seen progress.old.sink) (P.seen progress.new.sink)) }
    {
        progress.begin();
        explore(alloc, self.session.core(), &self.plan, most, progress)
    }

    /// Reports on what was explored, with the names that the script's comments and the gates give.
    fn report_with_titles(
        &mut self,
        alloc: Global,
        file: &[u8],
        told: &[u8],
        explored: &Explored,
    ) -> Result<Report, OrdersFault>
        ensures code { IfOk result (λ report. report.code ≡ verdict_code explored.now.verdict) }
        ensures fault { IfErr result (λ fault. fault ≡ Memory) }
    {
        let Ok(titles) = self.titles(alloc, told) else {
            return Err(OrdersFault::Memory);
        };
        match self.report(alloc, file, &titles, explored) {
            Ok(report) => Ok(report),
            Err(_) => Err(OrdersFault::Memory),
        }
    }

    /// Reports on what was explored.
    fn findings(
        &mut self,
        alloc: Global,
        file: &[u8],
        told: &[u8],
        explored: &Explored,
    ) -> Result<Findings, OrdersFault>
        ensures code { IfOk result (λ found. found.report.code ≡ verdict_code explored.now.verdict) }
        ensures order { IfOk result (λ found. option_map (λ text. text.items) found.order
            ≡ order_of (lanes_of self.old) explored.now.verdict) }
        ensures fault { IfErr result (λ fault. fault ≡ Memory) }
    {
        let order = self.order_of(alloc, &explored.verdict)?;
        let report = self.report_with_titles(alloc, file, told, explored)?;
        Ok(Findings { report, order })
    }
}

/// Explores the orders of a script's lines until `most` states are met, and reports. The script ends at its first zero byte. `file` is what
/// the report calls it; threads and objects go by the names that its comments tell, as `; h256 is accounts`.
pub fn report_on<P: Sink>(
    alloc: Global,
    file: &[u8],
    input: &[u8],
    most: usize,
    progress: &mut Progress<P>,
) -> Result<Findings, OrdersFault>
    ensures { IsOrdersOutcome most (before_zero input.now) (P.seen progress.old.sink) (P.seen progress.new.sink) result }
{
    let lines = before_zero(input);
    let mut script = read_script(alloc, lines)?;
    match script.search(alloc, most, progress) {
        Ok(explored) => script.findings(alloc, file, lines, &explored),
        Err(_) => Err(OrdersFault::Memory),
    }
}
