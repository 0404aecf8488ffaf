//! The search, level by level.
ghost use Rattle.std.specs.Prelude.{◌≡◌, ◌<◌, ◌≤◌, ◌+◌, ◌^◌, ℕ, length, Option, None, Some, IsSome, IfOk, OnErr, OnOk};
ghost use Rattle.std.specs.Option.{ForSome, option_map};
ghost use Rattle.nt_machine.specs.Dispatcher.{state};
ghost use Rattle.nt_explore.specs.declared.loss.Edges.{Edges};
ghost use Rattle.nt_explore.specs.Search.{TellsVerdict, TellsLoss, HasLoss, TellsSearch, IsUnderWay, Learns};
ghost use Rattle.nt_lanes.specs.Lanes.{start_of, point_of, AreKinds};
ghost use Rattle.nt_explore.specs.Walk.{AreBehind, LeadsTo, TriesAt, TriesLaneAt, TriesLaneTo, IsTable};
ghost use Rattle.nt_explore.specs.Levels.{LiesAt, LooksOn, OfSearch, first_then, one_more_if};

use crate::going::{can_go, go};
use crate::hanging::hangs;
use crate::loss::{Edge, Edges, first_loss, lead, no_edges, note_waits};
use crate::met::{Met, Visit, again, way_to};
use nt_core::Core;
use nt_lanes::{Plan, Position, copy_of, is_tried, kinds_of};
use std::alloc::{AllocError, Global};

/// What a search of all orders came to.
#[derive(Drop)]
pub struct Explored {
    /// How many states were met, equal ones counted once.
    pub states: usize,
    /// How many steps lead from one of them to another, of those that were looked at.
    pub steps: usize,
    /// How many of those that were looked at hang.
    pub hangs: usize,
    pub verdict: OrderVerdict,
}

/// Whether an order hangs.
#[derive(Drop)]
pub enum OrderVerdict {
    /// An order that hangs, by the lanes that go: no shorter one hangs. And since when a wait was lost, where all states were met.
    Hangs { lanes: Vec<u32>, loss: Option<Loss> },
    /// No order hangs.
    None,
    /// The bound was met, and no order of at most `level` steps hangs.
    Met { level: usize },
}

/// An order after which a thread's wait ends in no order of what is left: no shorter one loses a wait.
#[derive(Drop)]
pub struct Loss {
    pub lanes: Vec<u32>,
    pub thread: u32,
}

/// Who learns how far the search is.
pub trait Watcher {
    /// What becomes of the watcher as it learns these two counts.
    ghost learns: { Self → ℕ → ℕ → Self → Type 0 };

    /// How many states were looked at, and how many were met.
    fn tell(&mut self, looked: usize, states: usize)
        ensures { learns self.old looked states self.new };
}

/// What was counted, and the first state that hangs.
#[derive(Drop)]
struct Counts {
    hangs: usize,
    first: Option<usize>,
}

/// The position to which the lane leads; none where it does not go, or need not since a lower lane stands alike.
fn next_of(
    alloc: Global,
    plan: &Plan,
    kinds: &Vec<u32>,
    position: &Position,
    lane: u32,
) -> Result<Option<Position>, AllocError>
    requires wide { length position.now.places.items ≡ length plan.now }
    requires known { lane < length plan.now }
    ensures { IfOk result (λ next. LeadsTo plan.now kinds.now.items (point_of position.now) lane (option_map point_of next)) }
{
    if !can_go(plan, position, lane) {
        return Ok(None);
    }
    if !is_tried(kinds, position, lane) {
        return Ok(None);
    }
    let mut next = copy_of(alloc, position)?;
    if go(plan, &mut next, lane)? {
        Ok(Some(next))
    } else {
        Ok(None)
    }
}

/// Meets the position to which the lane leads from the state with this number.
fn meet_next(
    alloc: Global,
    start: &Core,
    plan: &Plan,
    met: &mut Met,
    pairs: &mut Vec<Edge>,
    next: &Position,
    index: usize,
    lane: u32,
) -> Result<(), AllocError>
    requires table { IsTable met.old.visits.items met.old.slots.items }
    requires there { index < length met.old.visits.items }
    ensures point { OnOk result (TriesLaneTo plan.now (start_of plan.now start.now) met.old.visits.items met.new.visits.items
        pairs.old.items pairs.new.items index lane (point_of next.now)) }
    ensures table { OnOk result (IsTable met.new.visits.items met.new.slots.items) }
    ensures longer { OnOk result (length met.old.visits.items ≤ length met.new.visits.items) }
{
    let to = met.meet(alloc, start, plan, next, index, lane)?;
    lead(pairs, index, to)
}

/// Tries one lane from the position, which is the state with this number.
fn try_lane(
    alloc: Global,
    start: &Core,
    plan: &Plan,
    kinds: &Vec<u32>,
    met: &mut Met,
    pairs: &mut Vec<Edge>,
    position: &Position,
    index: usize,
    lane: u32,
) -> Result<(), AllocError>
    requires table { IsTable met.old.visits.items met.old.slots.items }
    requires there { index < length met.old.visits.items }
    requires wide { length position.now.places.items ≡ length plan.now }
    requires known { lane < length plan.now }
    ensures point { OnOk result (TriesLaneAt plan.now kinds.now.items (start_of plan.now start.now) met.old.visits.items met.new.visits.items
        pairs.old.items pairs.new.items (point_of position.now) index lane) }
    ensures table { OnOk result (IsTable met.new.visits.items met.new.slots.items) }
    ensures longer { OnOk result (length met.old.visits.items ≤ length met.new.visits.items) }
{
    let next = next_of(alloc, plan, kinds, position, lane)?;
    match next {
        None => Ok(()),
        Some(next) => meet_next(alloc, start, plan, met, pairs, &next, index, lane),
    }
}

/// Tries each lane from the position, which is the state with this number, but for those that stand alike with a lower one.
fn try_lanes(
    alloc: Global,
    start: &Core,
    plan: &Plan,
    kinds: &Vec<u32>,
    met: &mut Met,
    pairs: &mut Vec<Edge>,
    position: &Position,
    index: usize,
) -> Result<(), AllocError>
    requires table { IsTable met.old.visits.items met.old.slots.items }
    requires there { index < length met.old.visits.items }
    requires wide { length position.now.places.items ≡ length plan.now }
    ensures point { OnOk result (TriesAt plan.now kinds.now.items (start_of plan.now start.now) met.old.visits.items met.new.visits.items
        pairs.old.items pairs.new.items (point_of position.now) index (length plan.now)) }
    ensures table { OnOk result (IsTable met.new.visits.items met.new.slots.items) }
    ensures longer { OnOk result (length met.old.visits.items ≤ length met.new.visits.items) }
{
    for lane in 0..plan.lanes() {
        try_lane(
            alloc,
            start,
            plan,
            kinds,
            met,
            pairs,
            position,
            index,
            lane as u32,
        )?;
    }
    Ok(())
}

/// The first state that hangs, where the next one hangs or does not.
fn first_then(hung: bool, index: usize, first: Option<usize>) -> Option<usize>
    ensures { result ≡ first_then hung index first }
{
    if first.is_none() && hung {
        Some(index)
    } else {
        first
    }
}

/// One more where it is so.
fn one_more_if(so: bool, count: usize) -> usize
    requires { count + 1 < 2 ^ 64 }
    ensures { result ≡ one_more_if so count }
{
    if so { count + 1 } else { count }
}

/// Looks at the next state.
fn look_at(
    alloc: Global,
    start: &Core,
    plan: &Plan,
    kinds: &Vec<u32>,
    met: &mut Met,
    edges: &mut Edges,
    counts: &mut Counts,
    index: usize,
) -> Result<(), AllocError>
    requires table { IsTable met.old.visits.items met.old.slots.items }
    requires there { index < length met.old.visits.items }
    requires few { counts.old.hangs ≤ index }
    requires alike { AreKinds plan.now (state start.now).threads kinds.now.items }
    ensures point { OnOk result (LooksOn plan.now kinds.now.items start.now met.old.visits.items met.new.visits.items
        edges.old edges.new index counts.old counts.new) }
    ensures few { OnOk result (counts.new.hangs ≤ index + 1) }
    ensures table { OnOk result (IsTable met.new.visits.items met.new.slots.items) }
    ensures longer { OnOk result (length met.old.visits.items ≤ length met.new.visits.items) }
{
    let position = again(alloc, start, plan, &met.visits, index)?;
    position.core.stands();
    let hung = hangs(alloc, plan, &position)?;
    try_lanes(
        alloc,
        start,
        plan,
        kinds,
        met,
        &mut edges.pairs,
        &position,
        index,
    )?;
    note_waits(&mut edges.waits, edges.threads, &position)?;
    counts.first = first_then(hung, index, counts.first);
    counts.hangs = one_more_if(hung, counts.hangs);
    Ok(())
}

/// Since when a wait was lost, where all states were looked at.
fn loss_at(
    alloc: Global,
    visits: &[Visit],
    edges: &Edges,
    looked: usize,
) -> Result<Option<Loss>, AllocError>
    requires behind { AreBehind visits.now }
    ensures told { IfOk result (λ loss. (first : Option ℕ)
        → OfSearch visits.now edges.now looked first (λ plan start. TellsLoss plan start loss)) }
    ensures whole { IfOk result (λ loss. (h : ℕ)
        → OfSearch visits.now edges.now looked (Some h) (λ plan start. length visits.now ≤ looked → IsSome loss)) }
{
    if looked < visits.len() {
        return Ok(None);
    }
    first_loss(alloc, visits, edges)
}

/// The verdict where this is the first state that hangs.
fn judge_hang(
    alloc: Global,
    visits: &[Visit],
    edges: &Edges,
    looked: usize,
    first: usize,
) -> Result<OrderVerdict, AllocError>
    requires behind { AreBehind visits.now }
    requires first { first < length visits.now }
    ensures told { IfOk result (λ verdict.
        OfSearch visits.now edges.now looked (Some first) (λ plan start. TellsVerdict plan start verdict)) }
    ensures whole { IfOk result (λ verdict.
        OfSearch visits.now edges.now looked (Some first) (λ plan start. length visits.now ≤ looked → HasLoss verdict)) }
    ensures level { IfOk result (LiesAt visits.now looked (Some first)) }
{
    let mut lanes = way_to(alloc, visits, first)?;
    lanes.reverse();
    let loss = loss_at(alloc, visits, edges, looked)?;
    Ok(OrderVerdict::Hangs { lanes, loss })
}

/// The verdict where none of those that were looked at hangs.
fn judge_rest(alloc: Global, visits: &[Visit], looked: usize) -> Result<OrderVerdict, AllocError>
    requires behind { AreBehind visits.now }
    requires some { 0 < looked }
    requires within { looked ≤ length visits.now }
    ensures told { IfOk result (λ verdict. (edges : Edges)
        → OfSearch visits.now edges looked None (λ plan start. TellsVerdict plan start verdict)) }
    ensures whole { IfOk result HasLoss }
    ensures level { IfOk result (LiesAt visits.now looked None) }
{
    if looked == visits.len() {
        return Ok(OrderVerdict::None);
    }
    let way = way_to(alloc, visits, looked)?;
    let level = way.len().saturating_sub(1);
    Ok(OrderVerdict::Met { level })
}

/// What the search has come to, after it looked at `looked` states.
fn judge(
    alloc: Global,
    visits: &[Visit],
    edges: &Edges,
    looked: usize,
    first: Option<usize>,
) -> Result<OrderVerdict, AllocError>
    requires behind { AreBehind visits.now }
    requires some { 0 < looked }
    requires within { looked ≤ length visits.now }
    requires first { ForSome first (λ h. h < looked) }
    ensures told { IfOk result (λ verdict.
        OfSearch visits.now edges.now looked first (λ plan start. TellsVerdict plan start verdict)) }
    ensures whole { IfOk result (λ verdict.
        OfSearch visits.now edges.now looked first (λ plan start. length visits.now ≤ looked → HasLoss verdict)) }
    ensures level { IfOk result (LiesAt visits.now looked first) }
{
    match first {
        Some(first) => judge_hang(alloc, visits, edges, looked, first),
        None => judge_rest(alloc, visits, looked),
    }
}

/// Tries all orders, until more states than `most` are met. The start is looked at in any case. Of threads that stand alike only the lowest
/// goes: the others' orders hang and lose waits as its do. The watcher learns of each look, also of a search to which memory is refused.
pub fn explore<W: Watcher>(
    alloc: Global,
    start: &Core,
    plan: &Plan,
    most: usize,
    watcher: &mut W,
) -> Result<Explored, AllocError>
    ensures told { IfOk result (λ explored. TellsVerdict plan.now (start_of plan.now start.now) explored.verdict) }
    ensures whole { IfOk result (λ explored. explored.states ≤ most → HasLoss explored.verdict) }
    ensures searched { IfOk result (λ explored. (met : ℕ → ℕ) × (looked : ℕ)
        × TellsSearch plan.now (start_of plan.now start.now) most met looked explored
        × Learns W.learns met looked watcher.old watcher.new) }
    ensures refused { OnErr result ((met : ℕ → ℕ) × (looked : ℕ)
        × IsUnderWay plan.now (start_of plan.now start.now) most met looked
        × Learns W.learns met looked watcher.old watcher.new) }
{
    let kinds = kinds_of(alloc, plan, start)?;
    let mut met = Met::new(alloc)?;
    let mut counts = Counts {
        hangs: 0,
        first: None,
    };
    let mut edges = no_edges(alloc, start.threads());
    let mut looked = 0;
    while looked < met.visits.len() && (looked == 0 || met.visits.len() <= most) {
        look_at(
            alloc,
            start,
            plan,
            &kinds,
            &mut met,
            &mut edges,
            &mut counts,
            looked,
        )?;
        looked += 1;
        watcher.tell(looked, met.visits.len());
    }
    let verdict = judge(alloc, &met.visits, &edges, looked, counts.first)?;
    Ok(Explored {
        states: met.visits.len(),
        steps: edges.pairs.len(),
        hangs: counts.hangs,
        verdict,
    })
}
