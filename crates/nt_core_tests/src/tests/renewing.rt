//! The steps of a scenario that give numbers again.
use crate::expect::expect_equal;
use crate::tests::calls::{answer_of, call_of};
use crate::tests::memory::{CoreHost, NOT_ENOUGH_MEMORY, tell_refused};
use crate::tests::script::{Answer, EndedWait, Request, ScenarioStep};
use nt_core::{Call, Core};
use nt_status::{Handle, ObjectNumber, Refusal};

/// Creates an object so, with these numbers.
fn create_again(
    rt: &impl CoreHost,
    core: &mut Core,
    who: u32,
    ask: Request,
    object: u32,
    handle: u32,
) -> Answer {
    let call = call_of(rt.alloc(), ask, &[]);
    let Ok(Call::Act(act)) = &call else {
        return Answer::NotAsked;
    };
    let (object, handle) = (ObjectNumber::new(object), Handle::new(handle));
    answer_of(core.create_again(who, act, object, handle))
}

fn object_of(added: Result<ObjectNumber, Refusal>) -> Answer {
    match added {
        Ok(number) => Answer::Object(number.get()),
        Err(refusal) => Answer::Error(refusal.number()),
    }
}

/// Adds an object number, with a second try where memory is refused.
fn add_vacant(rt: &impl CoreHost, core: &mut Core) -> Answer {
    let answer = object_of(core.add_vacant());
    if answer != Answer::Error(NOT_ENOUGH_MEMORY) {
        return answer;
    }
    tell_refused(rt, "an object number");
    object_of(core.add_vacant())
}

/// Sets the thread's object aside, if the one number can be moved and the other given.
fn set_aside(core: &mut Core, thread: u32, object: ObjectNumber) -> Answer {
    let may = core.is_movable(thread) && core.is_vacant(object);
    match (core.set_aside(thread, object), may) {
        (true, true) => Answer::Done,
        (false, false) => Answer::Error(Refusal::InvalidHandle.number()),
        _ => Answer::NotAsked,
    }
}

/// Takes a step that gives numbers again: what it answers, what it is to answer, and that no wait is to end. None for any other.
pub fn renewed(
    rt: &impl CoreHost,
    core: &mut Core,
    step: ScenarioStep,
) -> Option<(Answer, Answer, &'static [EndedWait])> {
    match step {
        ScenarioStep::CreateAgain(who, ask, object, handle, answer) => {
            Some((
                create_again(rt, core, who, ask, object, handle),
                answer,
                &[],
            ))
        }
        ScenarioStep::DuplicateAgain(who, source, access, handle, answer) => {
            let (source, handle) = (Handle::new(source), Handle::new(handle));
            let found = answer_of(core.duplicate_again(who, source, access, handle));
            Some((found, answer, &[]))
        }
        ScenarioStep::BeginAgain(thread, handle, answer) => {
            let found = answer_of(core.begin_again(thread, Handle::new(handle)));
            Some((found, answer, &[]))
        }
        ScenarioStep::SetAside(thread, object, answer) => {
            let found = set_aside(core, thread, ObjectNumber::new(object));
            Some((found, answer, &[]))
        }
        ScenarioStep::AddVacant(answer) => Some((add_vacant(rt, core), answer, &[])),
        _ => None,
    }
}

/// Looks whether the number of each of these objects may be given again, or of none.
pub fn expect_vacant(rt: &impl CoreHost, core: &Core, objects: &[u32], may: bool) {
    for object in objects {
        let found = (*object, core.is_vacant(ObjectNumber::new(*object)));
        expect_equal(rt, found, (*object, may), "an object that is vacant");
    }
}

/// Looks whether the number of each of these handles may be given again, or of none.
pub fn expect_closed(rt: &impl CoreHost, core: &Core, handles: &[u32], may: bool) {
    for handle in handles {
        let found = (*handle, core.is_closed(Handle::new(*handle)));
        expect_equal(rt, found, (*handle, may), "a handle that is closed");
    }
}
