//! Calls that are made over and over.

use crate::shapes::Shape;
use nt_apc::Apc;
use nt_core::{Call, Core};
use nt_status::Refusal;
use std::alloc::{AllocError, Global};

/// Why a bench can't go on.
#[derive(Clone, Copy, Debug)]
pub enum BenchFault {
    Memory,
    Refused(Refusal),
    Clock,
    Output,
}

impl From<AllocError> for BenchFault {
    fn from(_: AllocError) -> BenchFault {
        BenchFault::Memory
    }
}

impl From<Refusal> for BenchFault {
    fn from(refusal: Refusal) -> BenchFault {
        BenchFault::Refused(refusal)
    }
}

/// One call by one thread.
#[derive(Drop)]
pub struct ThreadCall {
    pub who: u32,
    pub call: Call,
}

/// How many calls were made, and how many pending waits they ended.
#[derive(Clone, Copy)]
pub struct CallCounts {
    pub calls: u64,
    pub grants: u64,
}

/// Makes the call, and answers how many pending waits it ended.
fn make(core: &mut Core, turn: &ThreadCall) -> Result<u64, Refusal> {
    // The prover wants the types inside of a reply named here.
    let _inside: Option<Apc> = None;
    let _reply = core.call(turn.who, &turn.call)?;
    Ok(core.grants().len() as u64)
}

/// Makes `calls` calls, in turn and over and over, and answers how many pending waits they ended.
fn make_in_turn(core: &mut Core, turns: &[ThreadCall], calls: u64) -> Result<u64, Refusal> {
    let mut grants = 0_u64;
    let mut place = 0_usize;
    for _ in 0..calls {
        let Some(turn) = turns.get(place) else {
            return Ok(grants);
        };
        grants = grants.wrapping_add(make(core, turn)?);
        place = if place + 1 < turns.len() {
            place + 1
        } else {
            0
        };
    }
    Ok(grants)
}

/// A core on which a shape's preparations were made.
#[derive(Drop)]
pub struct Stage<'a> {
    core: Core,
    round: &'a [ThreadCall],
}

impl<'a> Stage<'a> {
    pub fn open(alloc: Global, shape: &'a Shape) -> Result<Self, BenchFault> {
        let mut core = Core::new(alloc, shape.threads)?;
        make_in_turn(&mut core, &shape.prepare, shape.prepare.len() as u64)?;
        Ok(Stage {
            core,
            round: shape.round.as_slice(),
        })
    }

    /// Makes the round `rounds` times.
    pub fn run(&mut self, rounds: u64) -> Result<CallCounts, Refusal> {
        let calls = rounds.wrapping_mul(self.round.len() as u64);
        let grants = make_in_turn(&mut self.core, self.round, calls)?;
        Ok(CallCounts { calls, grants })
    }
}
