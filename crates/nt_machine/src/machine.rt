//! The parts of a dispatcher.
ghost use Rattle.std.specs.Prelude.{◌≡◌, ◌≤◌, ◌<◌, [], length, replicate, false, IfOk, IfErr};
ghost use Rattle.nt_status.specs.declared.refusal.Refusal.TheVariants.{Memory};
ghost use Rattle.nt_calls.specs.State.{opening};
ghost use Rattle.nt_machine.specs.Dispatcher.{state};
ghost use Rattle.nt_machine.specs.Lawful.{IsSteady};
ghost use Rattle.nt_calls.specs.Living.{LivesWhileKept};
ghost use Rattle.nt_machine.specs.Accepts.{IsFresh};
ghost use Rattle.nt_machine.specs.declared.standing.Standing.{Standing};

use crate::standing::Standing;
use nt_alarms::Alarms;
use nt_apc::ApcQueues;
use nt_calls::{Grant, Reply};
use nt_marks::Marks;
use nt_objects::Object;
use nt_status::{MAX_MANY_THREADS, Moment, Refusal};
use nt_tables::{HandleTable, ObjectTable};
use nt_waits::{Reader, Room, WaitTable};
use std::alloc::{AllocError, Global};
use std::marker::Model;

/// What a call answers: its reply, or why it is refused.
pub type Answer = Result<Reply, Refusal>;

/// For each of `count` threads: it may not take APCs.
fn none_handing(alloc: Global, count: usize) -> Result<Vec<bool>, AllocError>
    ensures { IfOk result (λ handing. handing.items ≡ replicate count false) }
{
    vec![in alloc; false; count]
}

/// For each of `count` threads: it is free to call.
fn all_free(alloc: Global, count: usize) -> Result<Vec<Standing>, AllocError>
    ensures { IfOk result (λ standings. standings.items ≡ replicate count Standing.Free) }
{
    vec![in alloc; Standing::Free; count]
}

/// The parts of a dispatcher, also between a change and the serving after it.
#[derive(Drop)]
pub struct Machine {
    pub threads: u32,
    pub handles: HandleTable,
    pub objects: ObjectTable,
    pub waits: WaitTable,
    pub apcs: ApcQueues,
    pub handing: Vec<bool>,
    /// For each thread whether it may call.
    pub standings: Vec<Standing>,
    /// For each thread where its wait for all failed last, which is looked at first. No answer depends on it.
    pub failed: Vec<u8>,
    pub moment: Moment,
    pub grants: Vec<Grant>,
    pub alarms: Alarms,
    /// A mark for each object that perhaps nothing keeps any longer.
    pub leaving: Marks,
    /// A mark for each object whose waits are to be served still.
    pub changed: Marks,
    /// A mark for each thread that may have to be alerted still.
    pub alerted: Marks,
}

impl Model for Machine {
    ghost use Rattle.std.specs.Prelude.{◌≡◌, ◌≤◌, length, vec_capacity};
    ghost use Rattle.nt_status.specs.declared.limits.TheConstants.{MAX_MANY_THREADS};
    ghost use Rattle.nt_machine.specs.Dispatcher.{Dispatcher, dispatcher_of};
    ghost use Rattle.nt_waits.specs.Waits.{waits_code};
    ghost use Rattle.std.specs.Coded.{codes};

    ghost Value = { Dispatcher };

    ghost coded = { Prim.hlevel (codes, waits_code) };

    ghost view = { λ m. dispatcher_of m.threads m.handles.opened m.objects.items m.objects.owned m.waits m.apcs
        m.handing.items m.standings.items m.moment m.grants.items m.alarms m.leaving m.changed m.alerted };

    ghost invariant = { λ m. (m.threads ≤ MAX_MANY_THREADS) × (m.threads ≤ vec_capacity m.grants)
        × (length m.objects.owned ≡ m.threads)
        × (m.waits.room ≡ record { threads = m.threads; objects = length m.alarms }) };
}

impl Machine {
    /// Running threads that wait for nothing, and the reader of their waits.
    pub fn new(alloc: Global, threads: u32) -> Result<(Self, Reader), Refusal>
        requires { threads ≤ MAX_MANY_THREADS }
        ensures opening { IfOk result (λ r. state r.0 ≡ opening threads) }
        ensures grants { IfOk result (λ r. r.0.grants ≡ []) }
        ensures untested { IfOk result (λ r. r.0.table.looked ≡ 0) }
        ensures steady { IfOk result (λ r. IsSteady r.0) }
        ensures living { IfOk result (λ r. LivesWhileKept (state r.0)) }
        ensures memory { IfErr result (λ refusal. refusal ≡ Memory) }
    {
        let count = threads as usize;
        let handing = none_handing(alloc, count)?;
        let standings = all_free(alloc, count)?;
        let failed = vec![in alloc; 0_u8; count]?;
        let grants = Vec::with_capacity(alloc, count)?;
        let apcs = ApcQueues::new(alloc, count)?;
        let handles = HandleTable::new(alloc, count, Object::new_thread().full_access())?;
        let objects = ObjectTable::new(alloc, count)?;
        let alerted = Marks::with_places(alloc, count)?;
        let (alarms, leaving, changed) = Alarms::with_marks(alloc, count)?;
        let room = Room {
            threads: count,
            objects: count,
        };
        let (waits, reader) = WaitTable::with_room(alloc, room)?;
        let machine = Machine {
            threads,
            handles,
            objects,
            waits,
            apcs,
            handing,
            standings,
            failed,
            moment: Moment::ZERO,
            grants,
            alarms,
            leaving,
            changed,
            alerted,
        };
        Ok((machine, reader))
    }

    /// Clears what was reported of the call or tick before: the list of ended waits, and which waits were looked at.
    pub fn tell_anew(&mut self)
        requires { IsSteady self.old }
        ensures state { state self.new ≡ state self.old }
        ensures fresh { IsFresh self.new }
    {
        self.grants.clear();
        self.waits.look_anew();
    }
}
