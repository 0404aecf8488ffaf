//! Second tries where a growth is refused. Each is reported.
use crate::expect::{expect, expect_equal};
use crate::tests::calls::{answer_of, call_of};
use crate::tests::script::{Answer, Request};
use nt_core::{Call, Core, Reply, WaitCall};
use nt_status::Refusal;
use std::alloc::{AllocError, Global};
use std::env::Env;
use std::io::Print;
use std::process::Abort;
use std::test::Fail;

/// What the tests want of the system.
pub trait CoreHost: Abort + AllocGlobal + Env + Print {}

impl<R: Abort + AllocGlobal + Env + Print> CoreHost for R {}

/// Where memory was refused, as the dispatcher answers it: ERROR_NOT_ENOUGH_MEMORY.
pub const NOT_ENOUGH_MEMORY: u32 = 8;

/// Whether growths are refused on purpose, as `tests/growths/tests` does: it sets REFUSE.
pub fn is_refusing(rt: &impl CoreHost) -> bool {
    let mut number = [0; 20];
    rt.var("REFUSE", &mut number).is_ok()
}

/// Tells that a growth was refused, and whose it was. That is right only in a run that refuses one on purpose:
/// `tests/growths/tests` wants exactly one such line of it.
pub fn tell_refused(rt: &impl CoreHost, whose: &str) {
    assert!(rt; is_refusing(rt), "out of memory with ample memory: {whose}");
    assert!(rt; println!(rt; "refused: {whose}").is_ok());
}

/// The same of a call that was refused: for memory alone.
pub fn tell_refusal(rt: &impl CoreHost, refusal: Refusal, whose: &str) {
    expect_equal(rt, refusal.number(), NOT_ENOUGH_MEMORY, whose);
    tell_refused(rt, whose);
}

/// Takes the walk, from its beginning once more where memory is refused.
pub fn walk_at_last<F: Fn() -> Result<(), Refusal>>(
    rt: &impl CoreHost,
    whose: &str,
    walk: F,
) -> Result<(), Fail>
    requires { F.IsAlwaysCallable walk }
{
    if let Err(refusal) = walk() {
        tell_refusal(rt, refusal, whose);
        walk()?;
    }
    Ok(())
}

/// A dispatcher with this many threads, opened for many if there are more than a usual one has.
fn opened(alloc: Global, threads: u32) -> Result<Core, Refusal> {
    if threads <= 256 {
        Core::new(alloc, threads)
    } else {
        Core::with_many_threads(alloc, threads)
    }
}

/// A dispatcher, with a second try where memory is refused.
pub fn open(rt: &impl CoreHost, threads: u32) -> Result<Core, Refusal> {
    match opened(rt.alloc(), threads) {
        Ok(core) => Ok(core),
        Err(refusal) => {
            tell_refusal(rt, refusal, "an opening");
            opened(rt.alloc(), threads)
        }
    }
}

/// Lets the dispatcher go. Each test ends here, so that its drop is proved once.
pub fn let_go(_core: Core) {}

/// An equal dispatcher, with a second try where memory is refused.
pub fn copy_at_last(rt: &impl CoreHost, core: &Core) -> Result<Core, Refusal> {
    core.copy().or_else(|refusal| {
        tell_refusal(rt, refusal, "a copy");
        core.copy()
    })
}

/// Whether the last call ended no wait, began none where `pending` waits pended, and tested none.
fn is_unmoved(core: &Core, pending: usize) -> bool {
    core.grants().is_empty() && core.pending() == pending && core.tested() == 0
}

/// Makes the call, a second time where memory is refused, which must have changed nothing.
fn call_at_last(rt: &impl CoreHost, core: &mut Core, who: u32, call: &Call) -> Answer {
    let pending = core.pending();
    let answer = answer_of(core.call(who, call));
    if answer != Answer::Error(NOT_ENOUGH_MEMORY) {
        return answer;
    }
    tell_refused(rt, "a call");
    expect(rt, is_unmoved(core, pending), "what a refused call leaves");
    answer_of(core.call(who, call))
}

/// Makes the call, and hands the handles of a wait for objects over as a slice.
fn call_by_slice(core: &mut Core, who: u32, call: &Call) -> Result<Reply, Refusal> {
    match call {
        Call::Wait(WaitCall::Objects { handles, all, mode }) => {
            core.wait_objects(who, handles.as_slice(), *all, *mode)
        }
        _ => core.call(who, call),
    }
}

/// The call that asks for this of these objects, with a second try where memory is refused.
pub fn call_of_at_last(
    rt: &impl CoreHost,
    ask: Request,
    objects: &[u32],
) -> Result<Call, AllocError> {
    match call_of(rt.alloc(), ask, objects) {
        Ok(call) => Ok(call),
        Err(_) => {
            tell_refused(rt, "the test itself");
            call_of(rt.alloc(), ask, objects)
        }
    }
}

/// Asks for this of these objects.
pub fn answer_to(
    rt: &impl CoreHost,
    core: &mut Core,
    who: u32,
    ask: Request,
    objects: &[u32],
) -> Answer {
    match call_of_at_last(rt, ask, objects) {
        Ok(call) => call_at_last(rt, core, who, &call),
        Err(_) => Answer::NotAsked,
    }
}

/// Asks for this of these objects, with the handles of a wait for objects as a slice.
pub fn answer_by_slice(
    rt: &impl CoreHost,
    core: &mut Core,
    who: u32,
    ask: Request,
    objects: &[u32],
) -> Answer {
    let Ok(call) = call_of_at_last(rt, ask, objects) else {
        return Answer::NotAsked;
    };
    let answer = answer_of(call_by_slice(core, who, &call));
    if answer != Answer::Error(NOT_ENOUGH_MEMORY) {
        return answer;
    }
    tell_refused(rt, "a call");
    answer_of(call_by_slice(core, who, &call))
}

/// Asks for this of these objects once: whichever growth is refused, the call is answered, since it takes no memory.
pub fn answer_at_once(
    rt: &impl CoreHost,
    core: &mut Core,
    who: u32,
    ask: Request,
    objects: &[u32],
) -> Answer {
    match call_of(rt.alloc(), ask, objects) {
        Ok(call) => answer_of(core.call(who, &call)),
        Err(_) => Answer::NotAsked,
    }
}
