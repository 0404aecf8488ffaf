//! What each thread is to call, one after another.
ghost use Rattle.std.specs.Prelude.{true, false, ◌≡◌, ◌==◌, ◌↔◌, ◌≤◌, ◌<◌, ◌^◌, ◌+◌, ◌++◌, ◌∷◌, [], length, replicate, slice_get, slice_set, IsSome, IfOk, OnOk, OnErr};
ghost use Rattle.std.specs.Option.{option_copied, option_map};
ghost use Rattle.nt_look.specs.Orders.{asks};
ghost use Rattle.std.specs.List.{list_any};
ghost use Rattle.nt_apart.specs.Fewer.{handles_in, handles_of, handles_tried};
ghost use Rattle.nt_calls.specs.declared.call.Call.{Call};
ghost use Rattle.nt_lanes.specs.Lanes.{asked, IsUnnamed, names_handle, plan_names, plan_of};

use crate::twins::{are_same, lanes_name};
use nt_calls::{Act, Call, WaitCall};
use nt_status::{Handle, Moment};
use std::alloc::{AllocError, Global};
use std::marker::Model;

/// What a lane does next.
#[derive(Debug, Drop)]
pub enum Ask {
    /// Its thread makes this call.
    Call(Call),
    /// All moments up to this one pass, counted in 100 ns.
    Tick(Moment),
    /// Its thread tries these acts, one after another, in one step. Where one is refused, those after it are left out, up to the next gap.
    Tries(Vec<Option<Act>>),
}

/// Whether the act names this handle.
fn act_names(act: Act, handle: Handle) -> bool
    ensures { result ≡ list_any (λ named. named == handle) (handles_of (Call.Act act)) }
{
    match act {
        Act::SetEvent(named)
        | Act::ResetEvent(named)
        | Act::PulseEvent(named)
        | Act::ReleaseMutex(named)
        | Act::CancelTimer(named)
        | Act::Close(named) => named == handle,
        Act::ReleaseSemaphore {
            semaphore: named,
            ..
        } => named == handle,
        Act::SetTimer { timer: named, .. } => named == handle,
        Act::QueueApc { thread: named, .. } => named == handle,
        Act::Duplicate { handle: named, .. } => named == handle,
        _ => false,
    }
}

/// Whether the wait names this handle.
fn wait_names(wait: &WaitCall, handle: Handle) -> bool
    ensures { result ≡ list_any (λ named. named == handle) (handles_of (Call.Wait wait.now)) }
{
    match wait {
        WaitCall::Objects { handles, .. } => handles
            .as_slice()
            .iter()
            .any(|named| *named == handle),
        WaitCall::Sleep(_) => false,
        WaitCall::Swap { signal, object, .. } => *signal == handle || *object == handle,
    }
}

/// Whether the act, if it is no gap, names this handle.
fn is_named_in(act: Option<Act>, handle: Handle) -> bool
    ensures { result ≡ list_any (λ named. named == handle) (handles_in act) }
{
    match act {
        Some(act) => act_names(act, handle),
        None => false,
    }
}

/// Whether one of the acts names this handle.
fn one_names(acts: &[Option<Act>], handle: Handle) -> bool
    ensures { result ≡ list_any (λ act. list_any (λ named. named == handle) (handles_in act)) acts.now }
{
    acts.iter().any(|act| is_named_in(*act, handle))
}

/// Whether they name this handle.
fn acts_name(acts: &[Option<Act>], handle: Handle) -> bool
    ensures { result ≡ list_any (λ named. named == handle) (handles_tried acts.now) }
{
    one_names(acts, handle)
}

impl Ask {
    /// Whether it names this handle.
    pub fn names(&self, handle: Handle) -> bool
        ensures { result ≡ names_handle handle (asked self.now) }
    {
        match self {
            Ask::Call(Call::Act(act)) => act_names(*act, handle),
            Ask::Call(Call::Wait(wait)) => wait_names(wait, handle),
            Ask::Call(Call::Exit) => false,
            Ask::Tick(_) => false,
            Ask::Tries(acts) => acts_name(acts, handle),
        }
    }
}

/// For each thread what it is to do, in order; and after the threads' lanes one for the ticks.
#[derive(Drop)]
pub struct Plan {
    lanes: Vec<Vec<Ask>>,
}

impl Model for Plan {
    ghost use Rattle.nt_look.specs.Orders as orders;
    ghost use Rattle.nt_lanes.specs.Lanes.{plan_of};

    ghost Value = { orders.Plan };

    ghost view = { λ p. plan_of p.lanes.items };

    ghost use Rattle.std.specs.Prelude.{◌≤◌, ◌^◌, length};

    ghost invariant = { λ p. length p.lanes.items ≤ 2 ^ 32 };
}

/// `count` lanes in which nothing is done.
fn empty_lanes(alloc: Global, count: usize) -> Result<Vec<Vec<Ask>>, AllocError>
    ensures { IfOk result (λ lanes. plan_of lanes.items ≡ replicate count []) }
{
    let mut lanes = Vec::with_capacity(alloc, count)?;
    for _ in 0..count {
        lanes.push_reserved(Vec::new(alloc));
    }
    Ok(lanes)
}

/// What is done at this position; none at the end.
fn ask_in(asks: &[Ask], position: usize) -> Option<&Ask>
    ensures ask { option_copied result ≡ slice_get asks.now position }
    ensures few { IsSome result → position + 1 < 2 ^ 64 }
{
    let count = asks.len();
    if position >= count {
        return None;
    }
    asks.get(position)
}

impl Plan {
    /// A plan for `threads` threads, which do nothing yet.
    pub fn new(alloc: Global, threads: u32) -> Result<Plan, AllocError>
        ensures { IfOk result (λ plan. plan ≡ replicate (threads + 1) []) }
    {
        let lanes = empty_lanes(alloc, threads as usize + 1)?;
        Ok(Plan { lanes })
    }

    /// The lane does this too, last. Thread t's lane has number t, and the lane of the ticks the number of threads. What no lane has the
    /// number of is let go.
    pub fn add(&mut self, lane: u32, ask: Ask) -> Result<(), AllocError>
        ensures ok { OnOk result (self.new ≡ slice_set self.old lane (asks self.old lane ++ asked ask ∷ [])) }
        ensures err { OnErr result (self.new ≡ self.old) }
        ensures beyond { length self.old ≤ lane → result ≡ Ok tt }
    {
        if lane as usize >= self.lanes.len() {
            return Ok(());
        }
        self.lanes[lane as usize].push(ask)?;
        Ok(())
    }

    /// How many lanes there are: one more than threads.
    pub fn lanes(&self) -> usize
        ensures count { result ≡ length self.now }
        ensures few { result ≤ 2 ^ 32 }
    {
        self.lanes.len()
    }

    /// What the lane does at this position; none where it is at its end.
    pub fn ask(&self, lane: u32, position: usize) -> Option<&Ask>
        ensures ask { option_map asked (option_copied result) ≡ slice_get (asks self.now lane) position }
        ensures few { IsSome result → position + 1 < 2 ^ 64 }
    {
        let asks = self.lanes.get(lane as usize)?;
        ask_in(asks, position)
    }

    /// Whether both lanes have the same to do.
    pub(crate) fn are_same(&self, a: u32, b: u32) -> bool
        requires first { a < length self.now }
        requires second { b < length self.now }
        ensures { (result ≡ true) ↔ (asks self.now b ≡ asks self.now a) }
    {
        are_same(&self.lanes[b as usize], &self.lanes[a as usize])
    }

    /// Whether something in it names this handle.
    pub fn names(&self, handle: Handle) -> bool
        ensures names { result ≡ plan_names self.now handle }
        ensures unnamed { (result ≡ false) ↔ IsUnnamed self.now handle }
    {
        lanes_name(&self.lanes, handle)
    }
}
