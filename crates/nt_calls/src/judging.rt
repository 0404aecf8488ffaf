//! What the handle of an act names, or why the act is refused.
ghost use Rattle.nt_objects.specs.Object.{is_event, is_timer};
ghost use Rattle.nt_status.specs.Access.{modify_state, set_context};
ghost use Rattle.nt_calls.specs.Refusals.{IsJudged, apc_causes, arm_causes, duplicate_causes, kind_causes, release_causes, unlock_causes};

use crate::handles::{MODIFY_STATE, SET_CONTEXT, object_named, opened};
use crate::refusals::{
    apc_refusal, arm_refusal, duplicate_refusal, is_no_event, is_no_timer, judged, kind_refusal,
    release_refusal, unlock_refusal,
};
use nt_status::{Handle, ObjectNumber, Refusal, ThreadId};
use nt_tables::{HandleTable, ObjectTable};

/// The number of the object that a handle names, or why the call is refused.
pub type Judged = Result<ObjectNumber, Refusal>;

/// The event that the handle names, for a call that changes it.
#[inline(always)]
pub fn event_named(handles: &HandleTable, objects: &ObjectTable, handle: Handle) -> Judged
    ensures { IsJudged handles.now.opened handle modify_state (kind_causes is_event objects.now.items) result }
{
    let (event, denied) = opened(handles, handle, MODIFY_STATE);
    judged(
        event,
        kind_refusal(is_no_event(objects.as_slice(), event), denied),
    )
}

/// The timer that the handle names, to be cancelled.
pub fn timer_named(handles: &HandleTable, objects: &ObjectTable, handle: Handle) -> Judged
    ensures { IsJudged handles.now.opened handle modify_state (kind_causes is_timer objects.now.items) result }
{
    let (timer, denied) = opened(handles, handle, MODIFY_STATE);
    judged(
        timer,
        kind_refusal(is_no_timer(objects.as_slice(), timer), denied),
    )
}

/// The timer that the handle names, to be armed with this period.
pub fn timer_to_arm(
    handles: &HandleTable,
    objects: &ObjectTable,
    handle: Handle,
    period: i32,
) -> Judged
    ensures { IsJudged handles.now.opened handle modify_state
        (λ denied h. arm_causes objects.now.items denied h period) result }
{
    let (timer, denied) = opened(handles, handle, MODIFY_STATE);
    judged(
        timer,
        arm_refusal(objects.as_slice(), denied, timer, period),
    )
}

/// The semaphore that the handle names, for a release by this count.
pub fn semaphore_named(
    handles: &HandleTable,
    objects: &ObjectTable,
    handle: Handle,
    count: i32,
) -> Judged
    ensures { IsJudged handles.now.opened handle modify_state
        (λ denied h. release_causes objects.now.items denied h count) result }
{
    let (semaphore, denied) = opened(handles, handle, MODIFY_STATE);
    judged(
        semaphore,
        release_refusal(objects.as_slice(), denied, semaphore, count),
    )
}

/// The mutex that the handle names, for its release by this thread, which needs no right.
pub fn mutex_named(
    handles: &HandleTable,
    objects: &ObjectTable,
    handle: Handle,
    thread: ThreadId,
) -> Judged
    ensures { IsJudged handles.now.opened handle 0 (λ _ h. unlock_causes objects.now.items thread h) result }
{
    let mutex = object_named(handles, handle);
    judged(mutex, unlock_refusal(objects.as_slice(), thread, mutex))
}

/// The object of the running thread that the handle names, for an APC.
pub fn running_thread(handles: &HandleTable, objects: &ObjectTable, handle: Handle) -> Judged
    ensures { IsJudged handles.now.opened handle set_context (apc_causes objects.now.items) result }
{
    let (thread, denied) = opened(handles, handle, SET_CONTEXT);
    judged(thread, apc_refusal(objects.as_slice(), denied, thread))
}

/// The object that the handle names, for one handle more with these rights.
pub fn object_to_share(
    handles: &HandleTable,
    objects: &ObjectTable,
    handle: Handle,
    access: u32,
) -> Judged
    ensures { IsJudged handles.now.opened handle access
        (λ denied h. duplicate_causes handles.now.opened objects.now.items denied h access) result }
{
    let (object, denied) = opened(handles, handle, access);
    judged(
        object,
        duplicate_refusal(handles, objects.as_slice(), denied, object, access),
    )
}
