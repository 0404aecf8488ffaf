//! Since when a wait was lost: it pends, and in every order of what is left it pends on.
ghost use Rattle.std.specs.Prelude.{◌≡◌, ◌<◌, ◌≤◌, ◌*◌, List, ◌++◌, ◌∷◌, [], ℕ, true, false, Option, Some, IsSome, length, slice_set, IfOk, OnOk};
ghost use Rattle.nt_calls.specs.State.{pends};
ghost use Rattle.nt_machine.specs.Dispatcher.{state};
ghost use Rattle.nt_look.specs.Hangs.{marked};
ghost use Rattle.nt_explore.specs.Search.{TellsLoss};
ghost use Rattle.nt_explore.specs.Walk.{edge, AreBehind};
ghost use Rattle.nt_explore.specs.Levels as levels;
ghost use Rattle.nt_explore.specs.Levels.{OfLooked, OfSearch, IsRow, IsColumn, IsFirstMark, IsFirstLost, IsFirstLoss};

use crate::met::{Visit, way_to};
use crate::search::Loss;
use nt_lanes::Position;
use std::alloc::{AllocError, Global};

/// A lane leads from a state to another.
#[derive(Clone, Copy)]
pub struct Edge {
    pub from: u32,
    pub to: u32,
}

/// Where each state that was looked at leads, and who waits there.
#[derive(Drop)]
pub struct Edges {
    /// How many threads there are.
    pub threads: u32,
    /// In the order of the states that they lead from.
    pub pairs: Vec<Edge>,
    /// For each state, one after another, by thread whether it waits there.
    pub waits: Vec<bool>,
}

/// No edges yet, of a graph for `threads` threads.
pub fn no_edges(alloc: Global, threads: u32) -> Edges
    ensures threads { result.threads ≡ threads }
    ensures pairs { result.pairs.items ≡ [] }
    ensures waits { result.waits.items ≡ [] }
{
    Edges {
        threads,
        pairs: Vec::new(alloc),
        waits: Vec::new(alloc),
    }
}

/// One edge more. More than 2^32 states are refused as memory is.
pub fn lead(pairs: &mut Vec<Edge>, from: usize, to: usize) -> Result<(), AllocError>
    ensures { OnOk result (pairs.new.items ≡ pairs.old.items ++ edge from to ∷ []) }
{
    if from > 0xFFFF_FFFF || to > 0xFFFF_FFFF {
        return Err(AllocError);
    }
    pairs.push(Edge {
        from: from as u32,
        to: to as u32,
    })?;
    Ok(())
}

/// Notes who of the threads waits in a state, the next one.
pub fn note_waits(
    waits: &mut Vec<bool>,
    threads: u32,
    position: &Position,
) -> Result<(), AllocError>
    ensures row { OnOk result (IsRow waits.old.items waits.new.items threads (state position.now.core)) }
    ensures known { (t : ℕ) → pends (state position.now.core) t ≡ true → t < (state position.now.core).threads }
{
    position.core.stands();
    for thread in 0..threads {
        waits.push(position.core.is_waiting(thread))?;
    }
    Ok(())
}

/// The mark at this position.
fn is_marked(marks: &[bool], at: usize) -> bool
    ensures { result ≡ marked marks.now at }
{
    match marks.get(at) {
        Some(mark) => *mark,
        None => false,
    }
}

/// Takes the mark at this position away.
fn unmark(marks: &mut [bool], at: usize)
    ensures { marks.new ≡ slice_set marks.old at false }
{
    if at < marks.len() {
        marks[at] = false;
    }
}

/// A state that leads to one with no mark has none.
fn keep(lost: &mut [bool], edge: Edge)
    ensures { lost.new ≡ levels.kept edge lost.old }
{
    if !is_marked(lost, edge.to as usize) {
        unmark(lost, edge.from as usize);
    }
}

/// Does as `keep` does for each edge, the last first.
fn pass_back(lost: &mut [bool], pairs: &[Edge])
    ensures { lost.new ≡ levels.passed pairs.now lost.old }
{
    let mut left = pairs.len();
    while left > 0 {
        left -= 1;
        keep(lost, pairs[left]);
    }
}

/// The first mark that the edges leave, where each is of a wait and they are passed back.
fn first_left(lost: &mut [bool], pairs: &[Edge]) -> Option<usize>
    ensures { IsFirstMark (levels.passed pairs.now lost.old) result }
{
    pass_back(lost, pairs);
    first_mark(lost)
}

/// By state, whether the thread waits there.
fn waits_of(
    alloc: Global,
    waits: &[bool],
    threads: u32,
    states: usize,
    thread: u32,
) -> Result<Vec<bool>, AllocError>
    requires known { thread < threads }
    ensures { IfOk result (λ column. length waits.now ≡ threads * states → IsColumn waits.now column.items threads states thread) }
{
    let mut column = Vec::new(alloc);
    for state in 0..states {
        let at = state
            .saturating_mul(threads as usize)
            .saturating_add(thread as usize);
        column.push(is_marked(waits, at))?;
    }
    Ok(column)
}

/// The first mark.
fn first_mark(marks: &[bool]) -> Option<usize>
    ensures { IsFirstMark marks.now result }
{
    for at in 0..marks.len() {
        if marks[at] {
            return Some(at);
        }
    }
    None
}

/// The first state in which the thread's wait is lost.
fn first_of(
    alloc: Global,
    edges: &Edges,
    states: usize,
    thread: u32,
) -> Result<Option<usize>, AllocError>
    requires known { thread < edges.now.threads }
    ensures { IfOk result (λ found. OfLooked states edges.now (λ plan point. IsFirstLost plan point states thread found)) }
{
    let mut lost = waits_of(alloc, &edges.waits, edges.threads, states, thread)?;
    Ok(first_left(&mut lost, &edges.pairs))
}

/// The earlier of the two: a state, and the thread whose wait is lost there.
fn earlier(best: Option<(usize, u32)>, found: Option<usize>, thread: u32) -> Option<(usize, u32)>
    ensures { result ≡ levels.earlier best found thread }
{
    let Some(state) = found else {
        return best;
    };
    let Some((first, other)) = best else {
        return Some((state, thread));
    };
    if state < first {
        Some((state, thread))
    } else {
        Some((first, other))
    }
}

/// The first state in which a wait is lost, and whose.
fn first_lost(
    alloc: Global,
    edges: &Edges,
    states: usize,
) -> Result<Option<(usize, u32)>, AllocError>
    ensures { IfOk result (λ found.
        OfLooked states edges.now (λ plan point. IsFirstLoss plan point states edges.now.threads found)) }
{
    let mut best = None;
    for thread in 0..edges.threads {
        let found = first_of(alloc, edges, states, thread)?;
        best = earlier(best, found, thread);
    }
    Ok(best)
}

/// Since when a wait was lost, where all states were looked at; none where no wait is ever lost.
pub fn first_loss(
    alloc: Global,
    visits: &[Visit],
    edges: &Edges,
) -> Result<Option<Loss>, AllocError>
    requires behind { AreBehind visits.now }
    ensures told { IfOk result (λ loss. (first : Option ℕ)
        → OfSearch visits.now edges.now (length visits.now) first (λ plan start. TellsLoss plan start loss)) }
    ensures whole { IfOk result (λ loss. (h : ℕ)
        → OfSearch visits.now edges.now (length visits.now) (Some h) (λ plan start. IsSome loss)) }
{
    let found = first_lost(alloc, edges, visits.len())?;
    let Some((state, thread)) = found else {
        return Ok(None);
    };
    if state >= visits.len() {
        return Ok(None);
    }
    let mut lanes = way_to(alloc, visits, state)?;
    lanes.reverse();
    Ok(Some(Loss { lanes, thread }))
}
