//! Whether a wait pends that nothing can end.
ghost use Rattle.std.specs.Prelude.{◌≡◌, ◌↔◌, ◌<◌, ℕ, true, not, MatchBool, length, slice_index_or, nat_lt, IfOk};
ghost use Rattle.nt_calls.specs.State.{pends};
ghost use Rattle.nt_machine.specs.Dispatcher.{state};
ghost use Rattle.nt_look.specs.Hangs.{marked};
ghost use Rattle.nt_look.specs.Orders.{Hangs, asks, goes_on};
ghost use Rattle.nt_explore.specs.Walk.{WaitsAmong, NoneWaitsAmong};
ghost use Rattle.nt_lanes.specs.Lanes.{point_of};

use nt_core::Core;
use nt_lanes::{Plan, Position};
use nt_look::{greatest_knot, is_stuck};
use std::alloc::{AllocError, Global};

/// Whether something is left in the lane.
fn has_more(plan: &Plan, places: &[usize], lane: u32) -> bool
    requires { length places.now ≡ length plan.now }
    ensures { result ≡ nat_lt (slice_index_or places.now lane 0) (length (asks plan.now lane)) }
{
    match places.get(lane as usize) {
        Some(position) => plan.ask(lane, *position).is_some(),
        None => false,
    }
}

/// Whether the thread makes a call still, or waits.
fn goes_on(plan: &Plan, position: &Position, thread: u32) -> bool
    requires { length position.now.places.items ≡ length plan.now }
    ensures { result ≡ goes_on plan.now (point_of position.now) thread }
{
    has_more(plan, &position.places, thread) || position.core.is_waiting(thread)
}

/// By thread, whether it makes no further call.
fn over_at(alloc: Global, plan: &Plan, position: &Position) -> Result<Vec<bool>, AllocError>
    requires { length position.now.places.items ≡ length plan.now }
    ensures point { IfOk result (λ over. (t : ℕ) → t < (state position.now.core).threads
        → marked over.items t ≡ not (goes_on plan.now (point_of position.now) t)) }
    ensures count { IfOk result (λ over. length over.items ≡ (state position.now.core).threads) }
{
    let mut over = Vec::new(alloc);
    for thread in 0..position.core.threads() {
        over.push(!goes_on(plan, position, thread))?;
    }
    Ok(over)
}

/// Whether one of these threads waits.
fn has_waiting(core: &Core, among: &[bool]) -> bool
    ensures { MatchBool result (WaitsAmong (state core.now) among.now) (NoneWaitsAmong (state core.now) among.now) }
{
    for thread in 0..core.threads() {
        if is_among(among, thread) && core.is_waiting(thread) {
            return true;
        }
    }
    false
}

/// Whether a thread waits.
fn one_waits(core: &Core) -> bool
    ensures { MatchBool result
        ((t : ℕ) × (pends (state core.now) t ≡ true))
        ((t : ℕ) → t < (state core.now).threads → pends (state core.now) t ≡ true → ⊥) }
{
    for thread in 0..core.threads() {
        if core.is_waiting(thread) {
            return true;
        }
    }
    false
}

/// Whether the thread has a mark.
fn is_among(among: &[bool], thread: u32) -> bool
    ensures { result ≡ marked among.now thread }
{
    match among.get(thread as usize) {
        Some(mark) => *mark,
        None => false,
    }
}

/// Whether a wait pends here that nothing can end.
pub fn hangs(alloc: Global, plan: &Plan, position: &Position) -> Result<bool, AllocError>
    requires { length position.now.places.items ≡ length plan.now }
    ensures { IfOk result (λ hangs. (hangs ≡ true) ↔ Hangs plan.now (point_of position.now)) }
{
    position.core.stands();
    position.core.owners_stand();
    if !one_waits(&position.core) {
        return Ok(false);
    }
    let over = over_at(alloc, plan, position)?;
    if is_stuck(&position.core, &over) {
        return Ok(true);
    }
    let knot = greatest_knot(alloc, &position.core, &over)?;
    Ok(has_waiting(&position.core, &knot))
}
