//! Numbers that are given again: those of objects that are gone, of handles that were closed, and of threads that have ended.
ghost use Rattle.std.specs.Prelude.{◌≡◌, ◌<◌, ◌≤◌, ◌-◌, ◌^◌, ◌&&◌, ℕ, true, false, Some, IsTrue, IfSome, IfOk, IfErr, OnOk, OnErr, length, slice_set};
ghost use Rattle.nt_apc.specs.Queues.{is_queued};
ghost use Rattle.nt_objects.specs.Object.{owned_by, IsLawfulObject};
ghost use Rattle.nt_tables.specs.Handles.{opened_at};
ghost use Rattle.nt_calls.specs.Living.{is_opened, LivesWhileKept};
ghost use Rattle.nt_status.specs.declared.refusal.Refusal.TheVariants.{Memory};
ghost use Rattle.nt_objects.specs.declared.object.Object.TheVariants.{Gone};
ghost use Rattle.nt_machine.specs.Dispatcher.{state, with_object_added};
ghost use Rattle.nt_machine.specs.Lawful.{IsMachineSound, IsSteady, IsLawful};
ghost use Rattle.std.specs.Option.{option_map};
ghost use Rattle.nt_core.specs.Renewals.{is_closed, is_vacant, is_left, creation, with_again, AddsVacant, CreatesAgain, DuplicatesAgain, BeginsAgain};

use crate::dispatcher::Core;
use nt_calls::{Act, Reply};
use nt_machine::{Answer, Machine, Standing, add_places};
use nt_objects::Object;
use nt_status::{
    Access, EventFlags, Handle, MutexFlags, ObjectNumber, Refusal, ThreadId, TimerFlags,
};
use nt_tables::Opened;

/// What the act creates for its thread; none where it is no creation, or its arguments are not lawful.
fn creation(thread: ThreadId, act: &Act) -> Option<Object>
    ensures value { result ≡ creation thread act.now }
    ensures lawful { IfSome result IsLawfulObject }
{
    match *act {
        Act::CreateEvent(flags) => {
            let flags = EventFlags::from_bits(flags)?;
            Some(Object::new_event(flags))
        }
        Act::CreateSemaphore { initial, maximum } => {
            match Object::new_semaphore(initial, maximum) {
                Ok(semaphore) => Some(semaphore),
                Err(_) => None,
            }
        }
        Act::CreateMutex(flags) => {
            let flags = MutexFlags::from_bits(flags)?;
            Some(Object::new_mutex(flags, thread))
        }
        Act::CreateTimer(flags) => {
            let flags = TimerFlags::from_bits(flags)?;
            Some(Object::new_timer(flags))
        }
        _ => None,
    }
}

/// Whether the handle with this number was closed.
pub(crate) fn is_closed(machine: &Machine, handle: Handle) -> bool
    ensures { result ≡ is_closed (state machine.now) handle }
{
    (handle.get() as usize) < machine.handles.len() && machine.handles.get(handle).is_none()
}

/// Whether an APC of this timer is queued.
fn is_queued(machine: &Machine, timer: ObjectNumber) -> bool
    ensures { result ≡ is_queued (state machine.now).apcs timer }
{
    match machine.apcs.place_of(timer) {
        Some(thread) => machine.apcs.queued(thread, timer),
        None => false,
    }
}

/// Whether the object with this number is gone, and so the number may be given again. A thread's may not.
pub(crate) fn is_vacant(machine: &Machine, object: ObjectNumber) -> bool
    ensures { result ≡ is_vacant (state machine.now) object }
{
    let Some(there) = machine.objects.as_slice().get(object.get() as usize) else {
        return false;
    };
    machine.threads <= object.get() && (there.is_gone() && !is_queued(machine, object))
}

/// Whether the thread has ended, and its object is gone.
fn is_left(machine: &Machine, thread: u32) -> bool
    requires sound { IsMachineSound machine.now }
    ensures { result ≡ is_left (state machine.now) thread }
{
    if thread >= machine.threads {
        return false;
    }
    let Some(own) = machine.objects.as_slice().get(thread as usize) else {
        return false;
    };
    own.is_gone() && machine.apcs.is_empty(ThreadId::new(thread as u16))
}

/// Whether a new object may have the one number, and its handle the other.
fn may_create(machine: &Machine, object: ObjectNumber, handle: Handle) -> bool
    ensures { result ≡ (is_vacant (state machine.now) object && is_closed (state machine.now) handle) }
{
    is_vacant(machine, object) && is_closed(machine, handle)
}

/// Whether a thread may begin with the one number, and its handle may have the other.
fn may_begin(machine: &Machine, thread: u32, handle: Handle) -> bool
    requires sound { IsMachineSound machine.now }
    ensures { result ≡ (is_left (state machine.now) thread && is_closed (state machine.now) handle) }
{
    is_left(machine, thread) && is_closed(machine, handle)
}

/// What the handle names, and with which rights; none where it is closed, or was never handed out.
fn opened(machine: &Machine, handle: Handle) -> Option<Opened>
    ensures { result ≡ opened_at machine.now.handles handle }
{
    machine.handles.get(handle)
}

/// Opens a closed handle for an object.
fn open_again(machine: &mut Machine, handle: Handle, opened: Opened)
    requires closed { IsTrue (is_closed (state machine.old) handle) }
    requires known { opened.object < length machine.old.handles }
    requires few { length machine.old.handles < 2 ^ 32 - 1 }
    ensures { machine.new ≡ record machine.old { handles = slice_set machine.old.handles handle (Some opened) } }
{
    machine.handles.add_again(handle, opened);
}

/// The thread is free to call, and may take no APCs until a wait of it ends for them.
fn set_free(machine: &mut Machine, thread: u32)
    requires hand { thread < length machine.old.handing }
    requires standing { thread < length machine.old.standings }
    ensures { machine.new ≡ record machine.old {
      handing = slice_set machine.old.handing thread false;
      standings = slice_set machine.old.standings thread Standing.Free;
    } }
{
    machine.handing[thread as usize] = false;
    machine.standings[thread as usize] = Standing::Free;
}

/// Gives the number of an object that is gone to a new one, and that of a closed handle to its handle.
fn give_again(machine: &mut Machine, object: ObjectNumber, handle: Handle, new: Object)
    requires there { object < length machine.old.objects }
    requires closed { IsTrue (is_closed (state machine.old) handle) }
    requires enough { length machine.old.objects ≤ length machine.old.handles }
    requires few { length machine.old.handles < 2 ^ 32 - 1 }
    requires owner { (t : ℕ) → owned_by new t ≡ true → t < machine.old.threads }
    ensures { machine.new ≡ with_again machine.old object handle new machine.old.handing machine.old.standings
        machine.new.owned }
{
    let access = new.full_access();
    machine.objects.put(object, new);
    open_again(machine, handle, Opened { object, access });
}

/// Adds an object number, of an object that is gone. Where memory is refused nothing changes.
fn lengthen(machine: &mut Machine) -> Result<ObjectNumber, Refusal>
    requires few { length machine.old.objects < 2 ^ 32 - 1 }
    ensures number { IfOk result (λ number. number ≡ length machine.old.objects) }
    ensures ok { OnOk result (machine.new ≡ with_object_added machine.old Gone machine.new.owned) }
    ensures refused { IfErr result (λ cause. cause ≡ Memory) }
    ensures err { OnErr result (machine.new ≡ machine.old) }
{
    let count = machine.objects.as_slice().len();
    machine.objects.make_room()?;
    add_places(
        &mut machine.waits,
        &mut machine.alarms,
        &mut machine.leaving,
        &mut machine.changed,
    )?;
    machine.objects.add(Object::Gone);
    Ok(ObjectNumber::new(count as u32))
}

/// One object number more, of an object that is gone, unless there are as many as handle numbers.
pub(crate) fn add_vacant(machine: &mut Machine) -> Result<ObjectNumber, Refusal>
    requires steady { IsSteady machine.old }
    requires living { LivesWhileKept (state machine.old) }
    ensures added { AddsVacant (state machine.old) result machine.new.grants (state machine.new) }
    ensures vacant { IfOk result (λ number. is_vacant (state machine.new) number ≡ true) }
    ensures untested { machine.new.table.looked ≡ 0 }
    ensures steady { IsSteady machine.new }
    ensures living { LivesWhileKept (state machine.new) }
{
    machine.tell_anew();
    if machine.objects.as_slice().len() >= machine.handles.len() {
        return Err(Refusal::HandleLimit);
    }
    // (No timer has this number yet, and so no APC of one is queued.)
    let number = ObjectNumber::new(machine.objects.as_slice().len() as u32);
    prove!(machine.apcs.place_of(number).is_none());
    lengthen(machine)
}

/// A creation whose object has the number of one that is gone, and whose handle has that of one that was closed.
pub(crate) fn create_again(
    machine: &mut Machine,
    who: u32,
    act: &Act,
    object: ObjectNumber,
    handle: Handle,
) -> Answer
    requires steady { IsSteady machine.old }
    requires living { LivesWhileKept (state machine.old) }
    ensures created { CreatesAgain (state machine.old) who act.now object handle
        result machine.new.grants (state machine.new) }
    ensures untested { machine.new.table.looked ≡ 0 }
    ensures steady { IsSteady machine.new }
    ensures living { LivesWhileKept (state machine.new) }
{
    machine.tell_anew();
    if let Some(refusal) = machine.caller_refusal(who) {
        return Err(refusal);
    }
    let Some(new) = creation(ThreadId::new(who as u16), act) else {
        return Err(Refusal::InvalidParameter);
    };
    if !may_create(machine, object, handle) {
        return Err(Refusal::InvalidHandle);
    }
    give_again(machine, object, handle, new);
    Ok(Reply::Handle(handle))
}

/// DuplicateHandle, whose handle has the number of one that was closed.
pub(crate) fn duplicate_again(
    machine: &mut Machine,
    who: u32,
    source: Handle,
    access: u32,
    handle: Handle,
) -> Answer
    requires steady { IsSteady machine.old }
    requires living { LivesWhileKept (state machine.old) }
    ensures duplicated { DuplicatesAgain (state machine.old) who source access handle
        result machine.new.grants (state machine.new) }
    ensures untested { machine.new.table.looked ≡ 0 }
    ensures steady { IsSteady machine.new }
    ensures living { LivesWhileKept (state machine.new) }
{
    machine.tell_anew();
    if let Some(refusal) = machine.caller_refusal(who) {
        return Err(refusal);
    }
    let Some(opened) = opened(machine, source) else {
        return Err(Refusal::InvalidHandle);
    };
    let Some(access) = Access::from_bits(access) else {
        return Err(Refusal::AccessDenied);
    };
    if !opened.access.contains(access) {
        return Err(Refusal::AccessDenied);
    }
    if !is_closed(machine, handle) {
        return Err(Refusal::InvalidHandle);
    }
    let object = opened.object;
    open_again(machine, handle, Opened { object, access });
    Ok(Reply::Handle(handle))
}

/// A thread begins with the number of one that has ended, and a handle with that of one that was closed.
pub(crate) fn begin_again(machine: &mut Machine, thread: u32, handle: Handle) -> Answer
    requires steady { IsSteady machine.old }
    requires living { LivesWhileKept (state machine.old) }
    ensures begun { BeginsAgain (state machine.old) thread handle result machine.new.grants (state machine.new) }
    ensures untested { machine.new.table.looked ≡ 0 }
    ensures steady { IsSteady machine.new }
    ensures living { LivesWhileKept (state machine.new) }
{
    machine.tell_anew();
    if !may_begin(machine, thread, handle) {
        return Err(Refusal::InvalidHandle);
    }
    set_free(machine, thread);
    give_again(
        machine,
        ObjectNumber::new(thread),
        handle,
        Object::new_thread(),
    );
    Ok(Reply::Handle(handle))
}

impl Core {
    /// Adds an object number, of an object that is gone, so that it can be given to a new one. It answers the number.
    ///
    /// Refused with `HandleLimit` where there are as many object numbers as handle numbers, and with 8 where memory is refused.
    pub fn add_vacant(&mut self) -> Result<ObjectNumber, Refusal>
        ensures added { AddsVacant (state self.old) result self.new.grants (state self.new) }
        ensures vacant { IfOk result (λ number. is_vacant (state self.new) number ≡ true) }
        ensures untested { self.new.table.looked ≡ 0 }
        ensures lawful { IsLawful self.new }
    {
        let result = add_vacant(&mut self.machine);
        let machine = &self.machine;
        machine.objects.agree();
        result
    }

    /// A creation whose object has the number of one that is gone, and whose handle has that of one that was closed. It takes no memory.
    ///
    /// Refused as every call of the thread is, with 87 where the act is no creation or its arguments are not lawful, and with 6 where one
    /// of the numbers can't be given again.
    pub fn create_again(
        &mut self,
        who: u32,
        act: &Act,
        object: ObjectNumber,
        handle: Handle,
    ) -> Result<Reply, Refusal>
        ensures created { CreatesAgain (state self.old) who act.now object handle
            result self.new.grants (state self.new) }
        ensures untested { self.new.table.looked ≡ 0 }
        ensures lawful { IsLawful self.new }
    {
        let result = create_again(&mut self.machine, who, act, object, handle);
        let machine = &self.machine;
        machine.objects.agree();
        result
    }

    /// DuplicateHandle, whose handle has the number of one that was closed. It takes no memory.
    ///
    /// Refused as every call of the thread is, with 6 where `source` names nothing, with 5 where it lacks one of the rights, and with 6
    /// where the number can't be given again.
    pub fn duplicate_again(
        &mut self,
        who: u32,
        source: Handle,
        access: u32,
        handle: Handle,
    ) -> Result<Reply, Refusal>
        ensures duplicated { DuplicatesAgain (state self.old) who source access handle
            result self.new.grants (state self.new) }
        ensures untested { self.new.table.looked ≡ 0 }
        ensures lawful { IsLawful self.new }
    {
        let result = duplicate_again(&mut self.machine, who, source, access, handle);
        let machine = &self.machine;
        machine.objects.agree();
        result
    }

    /// A thread begins with the number of one that has ended and whose object is gone, and its handle has the number of one that was
    /// closed. It takes no memory.
    ///
    /// Refused with 6 where one of the numbers can't be given again.
    pub fn begin_again(&mut self, thread: u32, handle: Handle) -> Result<Reply, Refusal>
        ensures begun { BeginsAgain (state self.old) thread handle result self.new.grants (state self.new) }
        ensures untested { self.new.table.looked ≡ 0 }
        ensures lawful { IsLawful self.new }
    {
        let result = begin_again(&mut self.machine, thread, handle);
        let machine = &self.machine;
        machine.objects.agree();
        result
    }

    /// The number of the object that the handle names; none where it names none.
    pub fn object_number(&self, handle: Handle) -> Option<ObjectNumber>
        ensures { result ≡ option_map (λ opened. opened.object) (opened_at (state self.now).handles handle) }
    {
        let opened = opened(&self.machine, handle)?;
        Some(opened.object)
    }

    /// Whether an open handle names the object.
    pub fn is_opened(&self, object: ObjectNumber) -> bool
        ensures { result ≡ is_opened (state self.now) object }
    {
        0 < self.machine.handles.count(object)
    }

    /// Whether the number of this handle can be given again.
    pub fn is_closed(&self, handle: Handle) -> bool
        ensures { result ≡ is_closed (state self.now) handle }
    {
        is_closed(&self.machine, handle)
    }

    /// Whether the number of this object can be given again.
    pub fn is_vacant(&self, object: ObjectNumber) -> bool
        ensures { result ≡ is_vacant (state self.now) object }
    {
        is_vacant(&self.machine, object)
    }
}
