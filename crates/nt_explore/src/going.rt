//! One lane goes.
ghost use Rattle.std.specs.Prelude.{◌≡◌, ◌≢◌, ◌<◌, length, Err, MatchBool, IfOk, OnOk, not, ◌&&◌, is_some, slice_get, slice_index_or};
ghost use Rattle.nt_status.specs.declared.refusal.Refusal.TheVariants.{Memory};
ghost use Rattle.nt_machine.specs.Dispatcher.{state};
ghost use Rattle.nt_calls.specs.State.{pends};
ghost use Rattle.nt_look.specs.Orders.{Calls, Passes, AreTried, IsAskMade, asks};
ghost use Rattle.nt_lanes.specs.Lanes.{asked, point_of};
ghost use Rattle.nt_explore.specs.Walk.{GoesOn, Went};

use nt_calls::{Act, Call, Reply};
use nt_core::Core;
use nt_lanes::{Ask, Plan, Position};
use nt_status::{Moment, Refusal};
use std::alloc::AllocError;

/// Makes the thread's call. Memory that is refused is no order of the plan.
fn call(core: &mut Core, thread: u32, call: &Call) -> Result<(), AllocError>
    ensures made { OnOk result (IsAskMade (state core.old) thread (Calls call.now) (state core.new)) }
    ensures threads { (state core.new).threads ≡ (state core.old).threads }
{
    let result = core.call(thread, call);
    if is_without_memory(&result) {
        return Err(AllocError);
    }
    Ok(())
}

/// Whether memory was refused.
fn is_without_memory(answer: &Result<Reply, Refusal>) -> bool
    ensures { MatchBool result (answer.now ≡ Err Memory) (answer.now ≢ Err Memory) }
{
    matches!(answer, Err(Refusal::Memory))
}

/// Lets the moments pass.
fn tick(core: &mut Core, thread: u32, moment: Moment)
    ensures made { IsAskMade (state core.old) thread (Passes moment) (state core.new) }
    ensures threads { (state core.new).threads ≡ (state core.old).threads }
{
    // A moment is at most the greatest, as reading it tells.
    let _units = moment.get();
    let _answer = core.tick(moment);
}

/// Makes these acts, one after another: none after one that was refused, up to the next gap.
fn try_all(core: &mut Core, thread: u32, acts: &[Option<Act>], goes: bool) -> Result<(), AllocError>
    ensures made { OnOk result (AreTried (state core.old) thread acts.now goes (state core.new)) }
    ensures threads { (state core.new).threads ≡ (state core.old).threads }
{
    match acts {
        [it, rest @ ..] => {
            let Some(act) = it else {
                return try_all(core, thread, rest, true);
            };
            if !goes {
                return try_all(core, thread, rest, false);
            }
            let answer = core.call(thread, &Call::Act(*act));
            if is_without_memory(&answer) {
                return Err(AllocError);
            }
            try_all(core, thread, rest, answer.is_ok())
        }
        _ => Ok(()),
    }
}

/// Makes what is asked of the thread.
fn make(core: &mut Core, thread: u32, ask: &Ask) -> Result<(), AllocError>
    ensures made { OnOk result (IsAskMade (state core.old) thread (asked ask.now) (state core.new)) }
    ensures threads { (state core.new).threads ≡ (state core.old).threads }
{
    match ask {
        Ask::Call(asked) => call(core, thread, asked),
        Ask::Tick(moment) => {
            tick(core, thread, *moment);
            Ok(())
        }
        Ask::Tries(acts) => try_all(core, thread, acts, true),
    }
}

/// Whether the lane can go: its thread does not wait, and something is left for it.
pub fn can_go(plan: &Plan, position: &Position, lane: u32) -> bool
    requires wide { length position.now.places.items ≡ length plan.now }
    requires there { lane < length plan.now }
    ensures { result ≡ not (pends (state position.now.core) lane)
        && is_some (slice_get (asks plan.now lane) (slice_index_or position.now.places.items lane 0)) }
{
    let at = position.places[lane as usize];
    !position.core.is_waiting(lane) && plan.ask(lane, at).is_some()
}

/// Lets the lane go, and tells whether it went: not where its thread waits, or nothing is left for it.
pub fn go(plan: &Plan, position: &mut Position, lane: u32) -> Result<bool, AllocError>
    requires wide { length position.old.places.items ≡ length plan.now }
    requires there { lane < length plan.now }
    ensures point { IfOk result (λ went. Went plan.now (point_of position.old) lane went (point_of position.new)) }
    ensures wide { OnOk result (length position.new.places.items ≡ length plan.now) }
    ensures threads { (state position.new.core).threads ≡ (state position.old.core).threads }
{
    if position.core.is_waiting(lane) {
        return Ok(false);
    }
    let at = position.places[lane as usize];
    let Some(ask) = plan.ask(lane, at) else {
        return Ok(false);
    };
    make(&mut position.core, lane, ask)?;
    position.places[lane as usize] = at + 1;
    Ok(true)
}

/// Lets the lane go, which can.
pub fn go_on(plan: &Plan, position: &mut Position, lane: u32) -> Result<(), AllocError>
    requires wide { length position.old.places.items ≡ length plan.now }
    ensures point { OnOk result (GoesOn plan.now (point_of position.old) lane (point_of position.new)) }
    ensures wide { OnOk result (length position.new.places.items ≡ length plan.now) }
    ensures threads { (state position.new.core).threads ≡ (state position.old.core).threads }
{
    if lane as usize >= plan.lanes() {
        return Ok(());
    }
    go(plan, position, lane)?;
    Ok(())
}
