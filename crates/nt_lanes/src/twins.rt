//! Which lanes have the same to do.
ghost use Rattle.std.specs.Prelude.{◌≡◌, ◌↔◌, ◌<◌, false, true, length, map, IfOk};
ghost use Rattle.std.specs.List.{list_any};
ghost use Rattle.nt_machine.specs.Dispatcher.{state};
ghost use Rattle.nt_lanes.specs.Lanes.{asked, names_handle, AreTwins, IsKind, AreKinds, IsUnnamed};

use crate::plan::{Ask, Plan};
use nt_calls::{Act, Call, WaitCall};
use nt_core::Core;
use nt_status::{Handle, Handles};
use std::alloc::{AllocError, Global};

/// Whether both name the same handles.
fn are_same_handles(handles: &Handles, others: &Handles) -> bool
    ensures { (result ≡ true) ↔ (handles.now ≡ others.now) }
{
    handles.as_slice() == others.as_slice()
}

/// Whether both ask for the same wait.
fn is_same_wait(a: &WaitCall, b: &WaitCall) -> bool
    ensures { (result ≡ true) ↔ (a.now ≡ b.now) }
{
    match a {
        WaitCall::Objects { all, mode, handles } => match b {
            WaitCall::Objects {
                all: other_all,
                mode: other_mode,
                handles: others,
            } => *all == *other_all && *mode == *other_mode && are_same_handles(handles, others),
            _ => false,
        },
        WaitCall::Sleep(mode) => match b {
            WaitCall::Sleep(other) => *mode == *other,
            _ => false,
        },
        WaitCall::Swap {
            signal,
            object,
            mode,
        } => match b {
            WaitCall::Swap {
                signal: other_signal,
                object: other_object,
                mode: other_mode,
            } => *signal == *other_signal && *object == *other_object && *mode == *other_mode,
            _ => false,
        },
    }
}

/// Whether both are the same call.
fn is_same_call(a: &Call, b: &Call) -> bool
    ensures { (result ≡ true) ↔ (a.now ≡ b.now) }
{
    match a {
        Call::Act(act) => match b {
            Call::Act(other) => *act == *other,
            _ => false,
        },
        Call::Wait(wait) => match b {
            Call::Wait(other) => is_same_wait(wait, other),
            _ => false,
        },
        Call::Exit => match b {
            Call::Exit => true,
            _ => false,
        },
    }
}

/// Whether both are the same acts.
fn are_same_acts(acts: &[Option<Act>], others: &[Option<Act>]) -> bool
    ensures { (result ≡ true) ↔ (acts.now ≡ others.now) }
{
    match acts {
        [act, rest @ ..] => match others {
            [other, others @ ..] => *act == *other && are_same_acts(rest, others),
            _ => false,
        },
        _ => others.is_empty(),
    }
}

/// Whether both ask for the same.
fn is_same_ask(a: &Ask, b: &Ask) -> bool
    ensures { (result ≡ true) ↔ (asked a.now ≡ asked b.now) }
{
    match a {
        Ask::Call(call) => match b {
            Ask::Call(other) => is_same_call(call, other),
            _ => false,
        },
        Ask::Tick(moment) => match b {
            Ask::Tick(other) => *moment == *other,
            _ => false,
        },
        Ask::Tries(acts) => match b {
            Ask::Tries(others) => are_same_acts(acts, others),
            _ => false,
        },
    }
}

/// Whether both lines ask for the same.
pub fn are_same(a: &[Ask], b: &[Ask]) -> bool
    ensures { (result ≡ true) ↔ (map asked a.now ≡ map asked b.now) }
{
    if a.len() != b.len() {
        return false;
    }
    for i in 0..a.len() {
        if !is_same_ask(&a[i], &b[i]) {
            return false;
        }
    }
    true
}

/// Whether one of these names this handle.
fn one_names(asks: &[Ask], handle: Handle) -> bool
    ensures { result ≡ list_any (λ ask. names_handle handle (asked ask)) asks.now }
{
    asks.iter().any(|ask| ask.names(handle))
}

/// Whether something in the plan names the thread's own handle.
fn is_named(plan: &Plan, thread: u32) -> bool
    ensures { (result ≡ false) ↔ IsUnnamed plan.now thread }
{
    plan.names(Handle::new(thread))
}

/// Whether both have the same to do, and nothing in the plan names the handle of one of the two.
fn is_twin(plan: &Plan, lower: u32, lane: u32) -> bool
    requires first { lower < length plan.now }
    requires second { lane < length plan.now }
    ensures { (result ≡ true) ↔ AreTwins plan.now lower lane }
{
    if !plan.are_same(lower, lane) || is_named(plan, lower) {
        return false;
    }
    !is_named(plan, lane)
}

/// The lowest twin of the lane; the lane itself if it has none.
fn twin_of(plan: &Plan, lane: u32) -> u32
    requires { lane < length plan.now }
    ensures { IsKind plan.now lane result }
{
    for lower in 0..lane {
        if is_twin(plan, lower, lane) {
            return lower;
        }
    }
    lane
}

/// Whether one of the lanes names this handle.
pub fn lanes_name(lanes: &[Vec<Ask>], handle: Handle) -> bool
    ensures { result ≡ list_any (λ lane. list_any (λ ask. names_handle handle (asked ask)) lane.items) lanes.now }
{
    lanes.iter().any(|lane| one_names(lane, handle))
}

/// The kind of each thread's lane.
#[tactic(auto, using(crate::proofs::Adding::kinds_told, crate::proofs::Adding::kinds_none))]
pub fn kinds_of(alloc: Global, plan: &Plan, start: &Core) -> Result<Vec<u32>, AllocError>
    ensures { IfOk result (λ kinds. AreKinds plan.now (state start.now).threads kinds.items) }
{
    let mut kinds = Vec::new(alloc);
    if plan.lanes() < start.threads() as usize {
        return Ok(kinds);
    }
    for lane in 0..start.threads() {
        kinds.push(twin_of(plan, lane))?;
    }
    Ok(kinds)
}
