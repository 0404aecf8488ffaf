//! A script's lines are planned, with gates for late creations.
ghost use Rattle.std.specs.Prelude.{◌≡◌, ◌≤◌, ◌++◌, ◌∷◌, [], count_by, if◌then◌else◌, length, map, true, IfOk, OnOk};
ghost use Rattle.std.specs.List.{list_any};
ghost use Rattle.nt_lanes.specs.Lanes.{asked};
ghost use Rattle.nt_machine.specs.Dispatcher.{state};
ghost use Rattle.nt_plans.specs.Gates.{ClosesIf, Gives, MakesOne, MakesUnnamed, all_made, asks_last, goes_last, is_late, is_named, is_race, made_by, makes, names, none_planned, planned_all, planned_on, race_of, unnamed_of, with_made, with_opened};
ghost use Rattle.nt_plans.specs.Kept.{does_of, gates_of, item_of, planned_of};
ghost use Rattle.nt_plans.specs.Lines.{AreGates};

use crate::items::{Does, Item, copy_of};
use crate::laying::{Laid, Made, with_claims};
use crate::line::Line;
use nt_calls::{Act, Call};
use nt_core::Core;
use nt_grammar::handle_of;
use nt_lanes::Ask;
use nt_status::{EventFlags, Handle, MAX_HANDLES};
use std::alloc::{AllocError, Global};

/// What is planned so far, and the late creations above.
#[derive(Drop)]
pub struct Planned {
    pub laid: Laid,
    pub above: Vec<Made>,
}

/// The gates and claims, by late creation.
#[derive(Drop)]
pub struct Gates {
    pub gates: Vec<Handle>,
    pub claims: Vec<Handle>,
}

/// Makes what the act gives.
fn give(core: &mut Core, act: Act) -> Result<Handle, AllocError>
    ensures { IfOk result (λ handle. Gives (state core.old) act handle (state core.new)) }
{
    let answer = core.call(0, &Call::Act(act));
    match handle_of(&answer) {
        Some(handle) => Ok(handle),
        None => Err(AllocError),
    }
}

/// Makes a gate or a claim.
fn make_one(core: &mut Core) -> Result<Handle, AllocError>
    ensures { IfOk result (λ event. MakesOne (state core.old) event (state core.new)) }
{
    give(core, Act::create_event(EventFlags::MANUAL_RESET))
}

/// Whether one of these lines names the handle.
fn one_names(items: &[Item], handle: Handle) -> bool
    ensures { result ≡ list_any (λ item. names (does_of item.does) handle) items.now }
{
    items.iter().any(|item| item.does.names(handle))
}

/// The same, as the script's lines are defined.
#[tactic(auto, using(crate::proofs::Lines::named_if_any))]
fn is_named(items: &[Item], handle: Handle) -> bool
    ensures { result ≡ is_named (map item_of items.now) handle }
{
    one_names(items, handle)
}

/// Closes the event.
fn close(core: &mut Core, event: Handle) -> Result<(), AllocError>
    ensures { OnOk result (ClosesIf true (state core.old) event (state core.new)) }
{
    match core.call(0, &Call::Act(Act::Close(event))) {
        Ok(_) => Ok(()),
        Err(_) => Err(AllocError),
    }
}

/// Keeps the event, unless a line names it: then it is closed.
fn keep_unnamed(
    core: &mut Core,
    unnamed: &mut Vec<Handle>,
    items: &[Item],
    event: Handle,
) -> Result<(), AllocError>
    ensures closes { OnOk result (ClosesIf (is_named (map item_of items.now) event) (state core.old) event (state core.new)) }
    ensures unnamed { OnOk result (unnamed.new.items ≡ unnamed.old.items ++ unnamed_of (map item_of items.now) (event ∷ [])) }
{
    if is_named(items, event) {
        return close(core, event);
    }
    unnamed.push(event)?;
    Ok(())
}

/// Makes `count` of these that none of the lines names.
#[tactic(auto, using(crate::proofs::Lines::unnamed_none, crate::proofs::Lines::unnamed_more))]
fn make_unnamed(
    core: &mut Core,
    alloc: Global,
    items: &[Item],
    count: usize,
) -> Result<Vec<Handle>, AllocError>
    ensures made { IfOk result (λ unnamed. MakesUnnamed (map item_of items.now)
        (state core.old) unnamed.items (state core.new)) }
    ensures count { IfOk result (λ unnamed. length unnamed.items ≡ count) }
{
    let mut unnamed = Vec::new(alloc);
    for _ in 0..MAX_HANDLES {
        if unnamed.len() == count {
            return Ok(unnamed);
        }
        let event = make_one(core)?;
        keep_unnamed(core, &mut unnamed, items, event)?;
    }
    Err(AllocError)
}

/// Makes a gate and a claim for each late creation among these lines.
#[tactic(auto, using(crate::proofs::Lines::are_gates))]
pub fn make_gates(core: &mut Core, alloc: Global, items: &[Item]) -> Result<Gates, AllocError>
    ensures { IfOk result (λ made. AreGates (state core.old) (map item_of items.now) (gates_of made) (state core.new)) }
{
    let count = count_late(items);
    let gates = make_unnamed(core, alloc, items, count)?;
    let claims = make_unnamed(core, alloc, items, count)?;
    Ok(Gates { gates, claims })
}

/// 1 where the line makes something, else 0.
fn makings(does: &Does) -> usize
    ensures makes { result ≡ (if makes (does_of does.now) then 1 else 0) }
    ensures one { result ≤ 1 }
{
    match does {
        Does::Asks(_) => 0,
        Does::Makes { .. } => 1,
    }
}

/// How many late creations there are.
fn count_late(items: &[Item]) -> usize
    ensures { result ≡ count_by is_late (map item_of items.now) }
{
    let mut count = 0;
    for item in items {
        count += makings(&item.does);
    }
    count
}

/// The line of a call or tick, in memory of its own.
fn line_of(line: &Line) -> Result<Line, AllocError>
    ensures { IfOk result (λ copied. copied.bytes.items ≡ line.now.bytes.items) }
{
    Ok(Line {
        number: line.number,
        text: line.text.clone()?,
        bytes: line.bytes.clone()?,
    })
}

/// The late creation on this line, with the gate and the claim after those of the ones above it.
fn made_by(
    gates: &Gates,
    above: &[Made],
    item: &Item,
    handle: Handle,
    source: Option<Handle>,
) -> Result<Made, AllocError>
    ensures { IfOk result (λ made. made ≡ made_by (gates_of gates.now) above.now (item_of item.now) handle source) }
{
    let place = above.len();
    let (Some(gate), Some(claim)) = (gates.gates.get(place), gates.claims.get(place)) else {
        return Err(AllocError);
    };
    Ok(Made {
        number: item.line.number,
        who: item.lane,
        handle,
        source,
        gate: *gate,
        claim: *claim,
    })
}

/// Adds the late creation on this line, if it is one.
fn add_made(above: &mut Vec<Made>, gates: &Gates, item: &Item) -> Result<(), AllocError>
    ensures { OnOk result (above.new.items ≡ with_made (gates_of gates.now) above.old.items (item_of item.now) (does_of item.now.does)) }
{
    if let Does::Makes { handle, source } = item.does {
        let made = made_by(gates, above, item, handle, source)?;
        above.push(made)?;
    }
    Ok(())
}

/// The late creations on these lines.
fn all_made(alloc: Global, gates: &Gates, items: &[Item]) -> Result<Vec<Made>, AllocError>
    ensures { IfOk result (λ all. all.items ≡ all_made (gates_of gates.now) (map item_of items.now)) }
{
    let mut all = Vec::new(alloc);
    for item in items {
        add_made(&mut all, gates, item)?;
    }
    Ok(all)
}

impl Planned {
    /// The late creation on this line goes.
    fn make(
        &mut self,
        alloc: Global,
        gates: &Gates,
        item: &Item,
        handle: Handle,
        source: Option<Handle>,
    ) -> Result<(), AllocError>
        ensures { OnOk result (planned_of self.new
            ≡ with_opened (planned_of self.old) (made_by (gates_of gates.now) (planned_of self.old).above (item_of item.now) handle source)) }
    {
        let made = made_by(gates, &self.above, item, handle, source)?;
        self.laid.open(alloc, &item.line, &made)?;
        self.above.push(made)?;
        Ok(())
    }

    /// The call or tick on this line goes, and in the same step the claims are closed that it closes. All late creations are these.
    fn ask(&mut self, alloc: Global, all: &[Made], item: &Item, ask: &Ask) -> Result<(), AllocError>
        ensures { OnOk result (planned_of self.new
            ≡ asks_last all.now (planned_of self.old) (item_of item.now) (asked ask.now)) }
    {
        let claims = self.laid.claims(alloc, all, &self.above, item)?;
        let ask = with_claims(alloc, copy_of(ask)?, &claims)?;
        self.laid.push(item.lane, ask, line_of(&item.line)?)
    }

    /// The line goes.
    fn go(
        &mut self,
        alloc: Global,
        gates: &Gates,
        all: &[Made],
        item: &Item,
    ) -> Result<(), AllocError>
        ensures { OnOk result (planned_of self.new
            ≡ goes_last (gates_of gates.now) all.now (planned_of self.old) (item_of item.now) (does_of item.now.does)) }
    {
        match &item.does {
            Does::Asks(ask) => self.ask(alloc, all, item, ask),
            Does::Makes { handle, source } => self.make(alloc, gates, item, *handle, *source),
        }
    }

    /// The line goes once it waited for what it has to. All late creations are these.
    fn add(
        &mut self,
        alloc: Global,
        threads: u32,
        gates: &Gates,
        all: &[Made],
        item: &Item,
    ) -> Result<(), AllocError>
        ensures { OnOk result (planned_of self.new
            ≡ planned_on threads (gates_of gates.now) all.now (planned_of self.old) (item_of item.now)) }
    {
        self.laid.begin_for_all(alloc, threads, &self.above, item)?;
        self.go(alloc, gates, all, item)
    }
}

/// Nothing is planned yet.
fn none_planned(alloc: Global, threads: u32) -> Result<Planned, AllocError>
    ensures { IfOk result (λ planned. planned_of planned ≡ none_planned threads) }
{
    Ok(Planned {
        laid: Laid::new(alloc, threads)?,
        above: Vec::new(alloc),
    })
}

/// Plans these lines of so many threads.
pub fn plan_all(
    alloc: Global,
    threads: u32,
    gates: &Gates,
    items: &[Item],
) -> Result<Planned, AllocError>
    ensures { IfOk result (λ planned. planned_of planned ≡ planned_all threads (gates_of gates.now) (map item_of items.now)) }
{
    let all = all_made(alloc, gates, items)?;
    let mut planned = none_planned(alloc, threads)?;
    for item in items {
        planned.add(alloc, threads, gates, &all, item)?;
    }
    Ok(planned)
}

/// Whether the line gives a number that one of these lines above it names.
fn is_race(above: &[Item], does: &Does) -> bool
    ensures { result ≡ is_race (map item_of above.now) (does_of does.now) }
{
    match does {
        Does::Asks(_) => false,
        Does::Makes { handle, .. } => is_named(above, *handle),
    }
}

/// The number of the first line that gives a number which a line above it names.
pub fn race_of(items: &[Item]) -> Option<u64>
    ensures { result ≡ race_of (map item_of items.now) }
{
    for place in 0..items.len() {
        let item = &items[place];
        if is_race(&items[..place], &item.does) {
            return Some(item.line.number);
        }
    }
    None
}
