//! The states that were met.
ghost use Rattle.std.specs.Prelude.{◌≡◌, ◌<◌, ◌≤◌, ◌+◌, ◌^◌, ◌++◌, ◌∷◌, [], ℕ, true, false, Some, length, replicate, IfOk, OnOk, OnErr};
ghost use Rattle.nt_machine.specs.Dispatcher.{state};
ghost use Rattle.nt_look.specs.Orders.{Point};
ghost use Rattle.nt_explore.specs.Hash.{hash_of};
ghost use Rattle.nt_lanes.specs.Lanes.{start_of, point_of};
ghost use Rattle.nt_explore.specs.Walk.{no_visit, Arrives, AreBehind, IsWalk, IsOther, IsFound, MeetsFrom, slot_after, used, PutsIn, AreInSlots, IsTable};

use crate::going::go_on;
use crate::hash::hash_of;
use nt_core::Core;
use nt_lanes::{Plan, Position, at_start, is_like};
use std::alloc::{AllocError, Global};

/// How a state was met. The first is the start.
#[derive(Clone, Copy)]
pub struct Visit {
    pub hash: u32,
    /// The lane that went.
    pub lane: u32,
    /// The number of the state that it came from.
    pub parent: usize,
}

/// The states that were met, and a table that finds them by their hashes.
#[derive(Drop)]
pub struct Met {
    pub visits: Vec<Visit>,
    /// At a hash's slot, or the next free one: the number of a state and 1, or 0.
    pub slots: Vec<usize>,
}

/// The lanes that led to the state, the last first.
pub fn way_to(alloc: Global, visits: &[Visit], index: usize) -> Result<Vec<u32>, AllocError>
    requires behind { AreBehind visits.now }
    requires there { index < length visits.now }
    ensures way { IfOk result (λ way. (plan : Plan) (start : Point) (point : ℕ → Point) → IsWalk plan start visits.now point
        → Arrives plan start way.items (point index)) }
    ensures some { IfOk result (λ way. 0 < index → 0 < length way.items) }
{
    let mut way = Vec::new(alloc);
    let mut at = index;
    while at > 0 {
        let visit = visits[at];
        way.push(visit.lane)?;
        at = visit.parent;
    }
    Ok(way)
}

/// The state to which these lanes lead from the start, the last first.
fn at_end(alloc: Global, start: &Core, plan: &Plan, way: &[u32]) -> Result<Position, AllocError>
    ensures point { IfOk result (λ position. (q : Point) → Arrives plan.now (start_of plan.now start.now) way.now q
        → point_of position ≡ q) }
    ensures wide { IfOk result (λ position. length position.places.items ≡ length plan.now) }
    ensures threads { IfOk result (λ position. (state position.core).threads ≡ (state start.now).threads) }
{
    let mut position = at_start(alloc, start, plan)?;
    let mut left = way.len();
    while left > 0 {
        left -= 1;
        go_on(plan, &mut position, way[left])?;
    }
    Ok(position)
}

/// The state with this number, made again.
pub fn again(
    alloc: Global,
    start: &Core,
    plan: &Plan,
    visits: &[Visit],
    index: usize,
) -> Result<Position, AllocError>
    requires behind { AreBehind visits.now }
    requires there { index < length visits.now }
    ensures point { IfOk result (λ position. (point : ℕ → Point) → IsWalk plan.now (start_of plan.now start.now) visits.now point
        → point_of position ≡ point index) }
    ensures wide { IfOk result (λ position. length position.places.items ≡ length plan.now) }
    ensures threads { IfOk result (λ position. (state position.core).threads ≡ (state start.now).threads) }
{
    let way = way_to(alloc, visits, index)?;
    at_end(alloc, start, plan, &way)
}

/// Whether the state with this number is like the position, which has this hash.
fn is_at(
    alloc: Global,
    start: &Core,
    plan: &Plan,
    visits: &[Visit],
    index: usize,
    position: &Position,
    hash: u32,
) -> Result<bool, AllocError>
    requires behind { AreBehind visits.now }
    ensures found { IfOk result (λ found. found ≡ true → IsFound plan.now (start_of plan.now start.now) visits.now hash
        (point_of position.now) (Some index)) }
    ensures other { IfOk result (λ found. found ≡ false → IsOther plan.now (start_of plan.now start.now) visits.now hash
        (point_of position.now) index) }
{
    if index >= visits.len() {
        return Ok(false);
    }
    if visits[index].hash != hash {
        return Ok(false);
    }
    let other = again(alloc, start, plan, visits, index)?;
    Ok(is_like(&other, position))
}

/// The number of the state that is like the position, if one was met, by this hash: the slots from its own on are looked at.
fn find(
    alloc: Global,
    start: &Core,
    plan: &Plan,
    visits: &[Visit],
    slots: &[usize],
    position: &Position,
    hash: u32,
) -> Result<Option<usize>, AllocError>
    requires behind { AreBehind visits.now }
    requires stand { AreInSlots visits.now (length visits.now) slots.now }
    ensures { IfOk result (IsFound plan.now (start_of plan.now start.now) visits.now hash
        (point_of position.now)) }
{
    let count = slots.len();
    for step in 0..count {
        let number = slots[slot_after(hash, step, count)];
        if number == 0 {
            return Ok(None);
        }
        let index = number - 1;
        if is_at(alloc, start, plan, visits, index, position, hash)? {
            return Ok(Some(index));
        }
    }
    Ok(None)
}

/// The slot `step` steps after the hash's own.
fn slot_after(hash: u32, step: usize, count: usize) -> usize
    requires { step < count }
    ensures within { result < count }
    ensures slot { result ≡ slot_after hash step count }
{
    let first = hash as usize % count;
    let left = count - first;
    if step < left {
        first + step
    } else {
        step - left
    }
}

/// Puts a number into the first free slot from its hash on.
fn put(slots: &mut [usize], hash: u32, number: usize)
    requires { used slots.old < length slots.old }
    ensures { PutsIn slots.old slots.new (length slots.old) hash number }
{
    let count = slots.len();
    for step in 0..count {
        let slot = slot_after(hash, step, count);
        if slots[slot] == 0 {
            slots[slot] = number;
            return;
        }
    }
}

/// Slots for these states, and for as many more.
fn slots_of(alloc: Global, visits: &[Visit]) -> Result<Vec<usize>, AllocError>
    requires { length visits.now < 2 ^ 63 }
    ensures stand { IfOk result (λ slots. AreInSlots visits.now (length visits.now) slots.items) }
    ensures few { IfOk result (λ slots. used slots.items ≤ length visits.now) }
    ensures room { IfOk result (λ slots. length visits.now < length slots.items) }
{
    let count = visits.len().saturating_mul(4).saturating_add(64);
    let mut slots = Vec::from_elem(alloc, 0, count)?;
    for index in 0..visits.len() {
        put(&mut slots, visits[index].hash, index + 1);
    }
    Ok(slots)
}

/// Makes room for one state more in the table, of which at most half is used.
fn grow(met: &mut Met, alloc: Global) -> Result<(), AllocError>
    requires { IsTable met.old.visits.items met.old.slots.items }
    ensures visits { met.new.visits ≡ met.old.visits }
    ensures table { IsTable met.new.visits.items met.new.slots.items }
    ensures room { OnOk result (length met.new.visits.items < length met.new.slots.items) }
{
    if met.slots.len() / 2 > met.visits.len() {
        return Ok(());
    }
    met.slots = slots_of(alloc, &met.visits)?;
    Ok(())
}

/// Adds a state.
fn add(met: &mut Met, alloc: Global, visit: Visit) -> Result<usize, AllocError>
    requires table { IsTable met.old.visits.items met.old.slots.items }
    requires there { visit.parent < length met.old.visits.items }
    ensures table { OnOk result (IsTable met.new.visits.items met.new.slots.items) }
    ensures kept { OnErr result (met.new.visits.items ≡ met.old.visits.items) }
    ensures added { OnOk result (met.new.visits.items ≡ met.old.visits.items ++ visit ∷ []) }
    ensures index { IfOk result (λ index. index ≡ length met.old.visits.items) }
{
    grow(met, alloc)?;
    let index = met.visits.len();
    met.visits.push(visit)?;
    put(&mut met.slots, visit.hash, index + 1);
    Ok(index)
}

impl Met {
    /// The start alone.
    pub fn new(alloc: Global) -> Result<Met, AllocError>
        ensures start { IfOk result (λ met. met.visits.items ≡ no_visit ∷ []) }
        ensures table { IfOk result (λ met. IsTable met.visits.items met.slots.items) }
    {
        let mut visits = Vec::with_capacity(alloc, 1)?;
        visits.push_reserved(Visit {
            hash: 0,
            lane: 0,
            parent: 0,
        });
        let slots = Vec::new(alloc);
        Ok(Met { visits, slots })
    }

    /// The number of the state that is like the position: one that was met, or a new one, which came from its parent by this lane.
    pub fn meet(
        &mut self,
        alloc: Global,
        start: &Core,
        plan: &Plan,
        position: &Position,
        parent: usize,
        lane: u32,
    ) -> Result<usize, AllocError>
        requires table { IsTable self.old.visits.items self.old.slots.items }
        requires there { parent < length self.old.visits.items }
        ensures point { IfOk result (MeetsFrom plan.now (start_of plan.now start.now) self.old.visits.items self.new.visits.items
            parent lane (point_of position.now)) }
        ensures table { OnOk result (IsTable self.new.visits.items self.new.slots.items) }
        ensures longer { OnOk result (length self.old.visits.items ≤ length self.new.visits.items) }
    {
        let hash = hash_of(&position.core, &position.places);
        let found = find(
            alloc,
            start,
            plan,
            &self.visits,
            &self.slots,
            position,
            hash,
        )?;
        match found {
            Some(index) => Ok(index),
            None => add(self, alloc, Visit { hash, lane, parent }),
        }
    }
}
