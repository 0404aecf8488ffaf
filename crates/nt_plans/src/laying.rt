//! The lanes as they are laid out, with waits for what stands above.
ghost use Rattle.std.specs.Prelude.{◌≡◌, ◌++◌, ◌∷◌, IfOk, OnOk, codes, decimal, map};
ghost use Rattle.nt_calls.specs.declared.call.Act as Act;
ghost use Rattle.nt_lanes.specs.Lanes.{asked};
ghost use Rattle.nt_plans.specs.Gates.{after, after_all, after_beginning, after_if_named, beginning_of, claims_of, has_passed, is_new, lost_with, made_line, may_close_first, none_laid, opened_by, opening, taking, wait_for, wait_line, with_claim, with_claims, with_line, with_passed};
ghost use Rattle.nt_plans.specs.Kept.{does_of, item_of, laid_of};
ghost use Rattle.std.specs.List.{fold};
ghost use Rattle.std.specs.Option.{option_copied};

use crate::items::{Does, Item, is_among, is_handle};
use crate::line::{Line, no_lines, push_line};
use nt_calls::{Act, Call, WaitCall, WaitMode};
use nt_lanes::{Ask, Plan};
use nt_status::{Handle, Handles, INFINITE};
use nt_wording::put_number;
use std::alloc::{AllocError, Global};

/// A late creation: its line, its caller, the handle that it gave, that of which it is another one, its gate, and its claim.
#[derive(Clone, Copy)]
pub struct Made {
    pub number: u64,
    pub who: u32,
    pub handle: Handle,
    pub source: Option<Handle>,
    pub gate: Handle,
    pub claim: Handle,
}

/// A lane has passed a gate: it waited for it, or set it.
#[derive(Clone, Copy)]
pub struct Pass {
    pub lane: u32,
    pub gate: Handle,
}

/// The lanes so far.
#[derive(Drop)]
pub struct Laid {
    pub plan: Plan,
    /// By lane, the lines that the plan's asks stand on.
    pub lines: Vec<Vec<Line>>,
    pub passed: Vec<Pass>,
}

/// A wait for the gate, without end.
fn wait_for(alloc: Global, gate: Handle) -> Ask
    ensures { asked result ≡ wait_for gate }
{
    Ask::Call(Call::Wait(WaitCall::Objects {
        all: false,
        mode: WaitMode {
            ms: INFINITE,
            alertable: false,
        },
        handles: Handles::from_one(alloc, gate),
    }))
}

/// What is lost of all late creations where this handle is not made.
fn lost_with(alloc: Global, all: &[Made], handle: Handle) -> Result<Vec<Handle>, AllocError>
    ensures { IfOk result (λ lost. lost.items ≡ lost_with all.now handle) }
{
    let mut lost = Vec::from_slice(alloc, &[handle])?;
    for made in all {
        if is_among(&lost, made.source) {
            lost.extend_from_slice(&[made.handle, made.claim])?;
        }
    }
    Ok(lost)
}

/// Puts that the claim is closed, and if it stood, so are these; and a gap.
fn put_taking(acts: &mut Vec<Option<Act>>, claim: Handle, lost: &[Handle]) -> Result<(), AllocError>
    ensures { OnOk result (acts.new.items ≡ acts.old.items ++ taking claim lost.now) }
{
    acts.push(Some(Act::Close(claim)))?;
    for handle in lost {
        acts.push(Some(Act::Close(*handle)))?;
    }
    acts.push(None)?;
    Ok(())
}

/// What is asked, and in the same step these claims are closed, if there are any.
pub(crate) fn with_claims(
    alloc: Global,
    ask: Ask,
    claims: &[Option<Act>],
) -> Result<Ask, AllocError>
    ensures { IfOk result (λ both. asked both ≡ with_claims (asked ask) claims.now) }
{
    match &ask {
        Ask::Call(Call::Act(act)) if !claims.is_empty() => {
            let mut acts = Vec::from_slice(alloc, &[Some(*act), None])?;
            acts.extend_from_slice(claims)?;
            Ok(Ask::Tries(acts))
        }
        _ => Ok(ask),
    }
}

/// The gate is set, and the claim is closed, in one step.
fn opening(alloc: Global, gate: Handle, claim: Handle) -> Result<Ask, AllocError>
    ensures { IfOk result (λ ask. asked ask ≡ opening gate claim) }
{
    let acts = Vec::from_slice(alloc, &[Some(Act::SetEvent(gate)), Some(Act::Close(claim))])?;
    Ok(Ask::Tries(acts))
}

/// Puts the comment that stands for a wait of this lane in a script.
fn put_wait(out: &mut Vec<u8>, lane: u32, number: u64) -> Result<(), AllocError>
    ensures { OnOk result (out.new.items ≡ out.old.items ++ wait_line lane number) }
{
    out.extend_from_slice(b"; t")?;
    put_number(out, u64::from(lane))?;
    out.extend_from_slice(b" waits for line ")?;
    put_number(out, number)
}

/// Puts the comment that stands for a late creation.
fn put_made(out: &mut Vec<u8>, number: u64) -> Result<(), AllocError>
    ensures { OnOk result (out.new.items ≡ out.old.items ++ made_line number) }
{
    out.extend_from_slice(b"; line ")?;
    put_number(out, number)?;
    out.extend_from_slice(b" goes here")
}

/// The line of a wait: that of this number waits, in this lane, for the line of that number.
fn line_of_wait(alloc: Global, number: u64, lane: u32, other: u64) -> Result<Line, AllocError>
    ensures { IfOk result (λ line. line.bytes.items ≡ wait_line lane other) }
{
    let mut bytes = Vec::new(alloc);
    put_wait(&mut bytes, lane, other)?;
    let text = Vec::from_slice(alloc, &bytes[2..])?;
    Ok(Line {
        number,
        text,
        bytes,
    })
}

/// The line of a late creation.
fn line_of_made(alloc: Global, line: &Line) -> Result<Line, AllocError>
    ensures { IfOk result (λ made. made.bytes.items ≡ made_line line.now.number) }
{
    let mut bytes = Vec::new(alloc);
    put_made(&mut bytes, line.number)?;
    Ok(Line {
        number: line.number,
        text: line.text.clone()?,
        bytes,
    })
}

/// The first of these late creations that makes another handle of the thread.
fn beginning_of(thread: u32, above: &[Made]) -> Option<&Made>
    ensures { option_copied result ≡ beginning_of thread above.now }
{
    above
        .iter()
        .find(|made| is_handle(Handle::new(thread), made.source))
}

impl Laid {
    /// So many threads do nothing yet.
    pub(crate) fn new(alloc: Global, threads: u32) -> Result<Laid, AllocError>
        ensures { IfOk result (λ laid. laid_of laid ≡ none_laid threads) }
    {
        Ok(Laid {
            plan: Plan::new(alloc, threads)?,
            lines: no_lines(alloc, threads as usize + 1)?,
            passed: Vec::new(alloc),
        })
    }

    /// The lane does this too, last, as the line tells.
    pub(crate) fn push(&mut self, lane: u32, ask: Ask, line: Line) -> Result<(), AllocError>
        ensures { OnOk result (laid_of self.new ≡ with_line (laid_of self.old) lane (asked ask) line.bytes.items) }
    {
        push_line(&mut self.lines, lane, line)?;
        self.plan.add(lane, ask)
    }

    /// The lane has passed the gate.
    fn pass(&mut self, lane: u32, gate: Handle) -> Result<(), AllocError>
        ensures { OnOk result (laid_of self.new ≡ with_passed (laid_of self.old) lane gate) }
    {
        self.passed.push(Pass { lane, gate })?;
        Ok(())
    }

    /// Whether the lane has passed the gate.
    fn has_passed(&self, lane: u32, gate: Handle) -> bool
        ensures { result ≡ has_passed (laid_of self.now).passed lane gate }
    {
        self.passed
            .iter()
            .any(|pass| pass.lane == lane && pass.gate == gate)
    }

    /// The line of this number in the lane waits for the late creation, unless the lane has passed its gate.
    fn wait(&mut self, alloc: Global, number: u64, lane: u32, made: &Made) -> Result<(), AllocError>
        ensures { OnOk result (laid_of self.new ≡ after lane (laid_of self.old) made.now) }
    {
        if self.has_passed(lane, made.gate) {
            return Ok(());
        }
        let line = line_of_wait(alloc, number, lane, made.number)?;
        self.push(lane, wait_for(alloc, made.gate), line)?;
        self.pass(lane, made.gate)
    }

    /// Whether it is the lane of a thread, and has nothing to do yet.
    fn is_new(&self, threads: u32, lane: u32) -> bool
        ensures { result ≡ is_new threads lane (laid_of self.now) }
    {
        lane < threads && self.plan.ask(lane, 0).is_none()
    }

    /// A thread's first line waits for that one of these late creations which begins the thread.
    fn begin(
        &mut self,
        alloc: Global,
        threads: u32,
        above: &[Made],
        item: &Item,
    ) -> Result<(), AllocError>
        ensures { OnOk result (laid_of self.new
            ≡ after_beginning threads above.now item.now.lane (laid_of self.old)) }
    {
        if !self.is_new(threads, item.lane) {
            return Ok(());
        }
        match beginning_of(item.lane, above) {
            Some(made) => self.wait(alloc, item.line.number, item.lane, made),
            None => Ok(()),
        }
    }

    /// Where the line names what the late creation gave, it waits for it.
    fn wait_if_named(&mut self, alloc: Global, item: &Item, made: &Made) -> Result<(), AllocError>
        ensures { OnOk result (laid_of self.new
            ≡ after_if_named item.now.lane (does_of item.now.does) (laid_of self.old) made.now) }
    {
        if item.does.names(made.handle) {
            self.wait(alloc, item.line.number, item.lane, made)?;
        }
        Ok(())
    }

    /// Whether the line closes what the late creation makes another handle of, and may go first.
    fn may_close_first(&self, item: &Item, made: &Made) -> bool
        ensures { result ≡ may_close_first (laid_of self.now) (item_of item.now) made.now }
    {
        item.does.closes(made.source) && !self.has_passed(item.lane, made.gate)
    }

    /// Puts that the line closes the claim of this late creation, one of all these, if it may close first what that makes another handle of.
    fn put_claim(
        &self,
        alloc: Global,
        claims: &mut Vec<Option<Act>>,
        all: &[Made],
        item: &Item,
        made: &Made,
    ) -> Result<(), AllocError>
        ensures { OnOk result (claims.new.items
            ≡ with_claim all.now (laid_of self.now) (item_of item.now) claims.old.items made.now) }
    {
        if self.may_close_first(item, made) {
            let lost = lost_with(alloc, all, made.handle)?;
            put_taking(claims, made.claim, &lost)?;
        }
        Ok(())
    }

    /// The claims that the line closes, of the late creations above it, and what is lost then of all these.
    pub(crate) fn claims(
        &self,
        alloc: Global,
        all: &[Made],
        above: &[Made],
        item: &Item,
    ) -> Result<Vec<Option<Act>>, AllocError>
        ensures { IfOk result (λ claims. claims.items ≡ claims_of all.now above.now (laid_of self.now) (item_of item.now)) }
    {
        let mut claims = Vec::new(alloc);
        for made in above {
            self.put_claim(alloc, &mut claims, all, item, made)?;
        }
        Ok(claims)
    }

    /// Where the line names what one of these late creations gave, it waits for that.
    fn begin_for_each(
        &mut self,
        alloc: Global,
        above: &[Made],
        item: &Item,
    ) -> Result<(), AllocError>
        ensures { OnOk result (laid_of self.new
            ≡ fold (after_if_named item.now.lane (does_of item.now.does)) (laid_of self.old) above.now) }
    {
        for made in above {
            self.wait_if_named(alloc, item, made)?;
        }
        Ok(())
    }

    /// What the line does before it goes, for what stands above it.
    pub(crate) fn begin_for_all(
        &mut self,
        alloc: Global,
        threads: u32,
        above: &[Made],
        item: &Item,
    ) -> Result<(), AllocError>
        ensures { OnOk result (laid_of self.new
            ≡ after_all threads above.now (laid_of self.old) (item_of item.now)) }
    {
        self.begin(alloc, threads, above, item)?;
        self.begin_for_each(alloc, above, item)
    }

    /// The late creation on this line goes.
    pub(crate) fn open(&mut self, alloc: Global, line: &Line, made: &Made) -> Result<(), AllocError>
        requires { made.now.number ≡ line.now.number }
        ensures { OnOk result (laid_of self.new ≡ opened_by (laid_of self.old) made.now) }
    {
        let line = line_of_made(alloc, line)?;
        self.push(made.who, opening(alloc, made.gate, made.claim)?, line)?;
        self.pass(made.who, made.gate)
    }
}
