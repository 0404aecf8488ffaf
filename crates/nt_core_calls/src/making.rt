//! A call of each kind made, and its own part of the reply taken out.
ghost use Rattle.std.specs.Prelude.{◌≡◌, IsTrue};
ghost use Rattle.nt_calls.specs.declared.call.Act.{Act};
ghost use Rattle.nt_calls.specs.declared.call.Call.{Call};
ghost use Rattle.nt_calls.specs.declared.call.WaitCall.{WaitCall};
ghost use Rattle.nt_answers.specs.Answers.{done_reply, created_reply, previous_reply, apc_reply, began_reply};
ghost use Rattle.nt_answers.specs.Kinds.{Kind, act_kind, is_answer};
ghost use Rattle.nt_core_calls.specs.Called.{IsCalled, IsTicked};

use nt_answers::{Apc, Began, apc_told, began_told, done_told, handle_told, previous_told};
use nt_core::{Act, Call, Core, Reply, WaitCall, WaitMode};
use nt_status::{Handle, Moment, Refusal};

/// Makes a call. All that `Core::call` says of it stands in one clause here, and what it can be answered in another.
#[tactic(auto, using(nt_answers::proofs::Telling::call_told))]
fn make(core: &mut Core, who: u32, call: &Call) -> Result<Reply, Refusal>
    ensures called { IsCalled core.old who call.now result core.new }
    ensures answer { IsTrue (is_answer call.now result) }
{
    core.call(who, call)
}

/// Makes a call that has nothing to tell.
pub(crate) fn make_done(core: &mut Core, who: u32, act: Act) -> Result<(), Refusal>
    requires { act_kind act ≡ Kind.Done }
    ensures { IsCalled core.old who (Call.Act act) (done_reply result) core.new }
{
    done_told(make(core, who, &Call::Act(act)))
}

/// Makes a call that answers a handle.
pub(crate) fn make_handle(core: &mut Core, who: u32, act: Act) -> Result<Handle, Refusal>
    requires { act_kind act ≡ Kind.Handle }
    ensures { IsCalled core.old who (Call.Act act) (created_reply result) core.new }
{
    handle_told(make(core, who, &Call::Act(act)))
}

/// Releases a semaphore, and answers the count before.
pub(crate) fn make_previous(
    core: &mut Core,
    who: u32,
    semaphore: Handle,
    count: i32,
) -> Result<i32, Refusal>
    ensures { IsCalled core.old who (Call.Act (Act.ReleaseSemaphore semaphore count)) (previous_reply result) core.new }
{
    let act = Act::ReleaseSemaphore { semaphore, count };
    previous_told(make(core, who, &Call::Act(act)))
}

/// Takes the thread's next APC.
pub(crate) fn make_apc(core: &mut Core, who: u32) -> Result<Option<Apc>, Refusal>
    ensures { IsCalled core.old who (Call.Act Act.NextApc) (apc_reply result) core.new }
{
    apc_told(make(core, who, &Call::Act(Act::NextApc)))
}

/// Makes a call that may pend.
pub(crate) fn make_wait(core: &mut Core, who: u32, wait: WaitCall) -> Result<Began, Refusal>
    ensures { IsCalled core.old who (Call.Wait wait) (began_reply result) core.new }
{
    began_told(make(core, who, &Call::Wait(wait)))
}

/// Begins a wait for the objects of these handles, with no list of them.
pub(crate) fn wait_for(
    core: &mut Core,
    who: u32,
    handles: &[Handle],
    all: bool,
    mode: WaitMode,
) -> Result<Began, Refusal>
    ensures { IsCalled core.old who (Call.Wait (WaitCall.Objects all mode handles.now))
        (began_reply result) core.new }
{
    began_told(core.wait_objects(who, handles, all, mode))
}

/// Ends the thread.
pub(crate) fn make_exit(core: &mut Core, who: u32) -> Result<(), Refusal>
    ensures { IsCalled core.old who Call.Exit (done_reply result) core.new }
{
    done_told(make(core, who, &Call::Exit))
}

/// Makes a tick.
pub(crate) fn make_tick(core: &mut Core, moment: Moment) -> Result<(), Refusal>
    ensures { IsTicked core.old moment (done_reply result) core.new }
{
    done_told(core.tick(moment))
}
