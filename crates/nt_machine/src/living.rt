//! When an object lives, and the end of those that nothing keeps any longer.
ghost use Rattle.std.specs.Prelude.{◌≡◌, ◌≢◌, ◌<◌, [], ℕ, None, Some, true, false, length, slice_set, if◌then◌else◌};
ghost use Rattle.std.specs.List.{Contains};
ghost use Rattle.nt_apc.specs.Queues.{withdrawn, place_of};
ghost use Rattle.nt_machine.specs.Dispatcher.{state};
ghost use Rattle.nt_machine.specs.Lawful.{IsMachineSound, IsSteady, MarksAgreeBut, LetsGoBut};
ghost use Rattle.nt_calls.specs.Living.{is_forgotten, gone, living, Ends, LivesWhileKept};
ghost use Rattle.nt_machine.specs.Accepts.{IsFresh, IsActOfAny, KeepsWaits};
ghost use Rattle.nt_calls.specs.declared.call.Act.{Act};

use crate::machine::{Answer, Machine};
use nt_calls::{Reply, close_refusal};
use nt_marks::Marks;
use nt_objects::Object;
use nt_status::{Handle, ObjectNumber};
use nt_tables::HandleTable;

/// Marks an object that no handle names. A function of its own, since mostly a handle still names what a wait named.
#[inline(never)]
fn mark_left(leaving: &mut Marks, object: ObjectNumber)
    requires { object < length leaving.old }
    ensures { leaving.new ≡ slice_set leaving.old object true }
{
    leaving.set(object.get() as usize);
}

/// Marks those of the objects of a wait, which ends, that no handle names.
pub(crate) fn let_go(handles: &HandleTable, leaving: &mut Marks, ended: &[ObjectNumber])
    requires { (o : ℕ) → Contains ended.now o → o < length leaving.old }
    ensures { LetsGoBut [] handles.now.opened ended.now leaving.old leaving.new }
{
    for object in ended {
        if handles.count(*object) == 0 {
            mark_left(leaving, *object);
        }
    }
}

impl Machine {
    /// Whether the object lives though nothing keeps it any longer. No list is walked.
    fn is_forgotten(&self, object: ObjectNumber) -> bool
        ensures { result ≡ is_forgotten (state self.now) object }
    {
        let Some(there) = self.objects.as_slice().get(object.get() as usize) else {
            return false;
        };
        let opened = 0 < self.handles.count(object);
        let awaited = self.waits.is_awaited(object);
        let runs = object.get() < self.threads && !there.has_ended();
        !there.is_gone() && !(opened || (awaited || runs))
    }

    /// Marks the object: perhaps nothing keeps it from now on.
    pub(crate) fn mark(&mut self, object: ObjectNumber)
        requires { object < length self.old.leaving }
        ensures { self.new ≡ record self.old { leaving = slice_set self.old.leaving object true } }
    {
        self.leaving.set(object.get() as usize);
    }

    /// Marks those of the objects that a wait named which has ended that no handle names.
    pub(crate) fn let_go(&mut self, ended: &[ObjectNumber])
        requires { MarksAgreeBut ended.now self.old }
        ensures rest { self.new ≡ record self.old { leaving = self.new.leaving } }
        ensures marks { MarksAgreeBut [] self.new }
    {
        let_go(&self.handles, &mut self.leaving, ended);
    }

    /// CloseHandle: the handle no longer names anything, and perhaps nothing keeps the object that it named.
    pub(crate) fn close(&mut self, handle: Handle) -> Answer
        requires fresh { IsFresh self.old }
        ensures { IsActOfAny self.old self.new (Act.Close handle) result }
    {
        if let Some(refusal) = close_refusal(&self.handles, handle) {
            return Err(refusal);
        }
        let object = self.handles.close(handle);
        self.mark(object);
        Ok(Reply::Done)
    }

    /// Withdraws the object's queued APC, if it is a timer that has one, and gives up its place.
    fn forget(&mut self, object: ObjectNumber)
        ensures rest { self.new ≡ record self.old { apcs = self.new.apcs } }
        ensures queues { self.new.apcs.queues ≡ withdrawn self.old.apcs.queues object }
        ensures place { place_of self.new.apcs.places object ≡ None }
        ensures others { (m : ℕ) → m ≢ object → place_of self.new.apcs.places m ≡ place_of self.old.apcs.places m }
    {
        if let Some(thread) = self.apcs.place_of(object) {
            self.apcs.forget(thread, object);
        }
    }

    /// The object is gone: a timer is no longer armed and its queued APC is withdrawn, and nobody owns a mutex.
    fn end_object(&mut self, object: ObjectNumber)
        requires sound { IsMachineSound self.old }
        requires forgotten { is_forgotten (state self.old) object ≡ true }
        ensures gone { state self.new ≡ gone (state self.old) object }
        ensures sound { IsMachineSound self.new }
        ensures place { place_of self.new.apcs.places object ≡ None }
        ensures leaving { self.new.leaving ≡ self.old.leaving }
        ensures kept { KeepsWaits self.old self.new }
    {
        self.forget(object);
        self.alarms.clear(object.get() as usize);
        self.objects.put(object, Object::Gone);
    }

    /// Ends the object where nothing keeps it any longer, and clears its mark.
    #[inline(never)]
    fn end_marked(&mut self, object: ObjectNumber)
        requires sound { IsMachineSound self.old }
        requires known { object < length self.old.leaving }
        ensures becomes { state self.new ≡
            (if is_forgotten (state self.old) object then gone (state self.old) object else state self.old) }
        ensures sound { IsMachineSound self.new }
        ensures leaving { self.new.leaving ≡ slice_set self.old.leaving object false }
        ensures kept { KeepsWaits self.old self.new }
    {
        if self.is_forgotten(object) {
            self.end_object(object);
        }
        self.leaving.clear(object.get() as usize);
    }

    /// Ends each object that nothing keeps any longer, and looks at none that has no mark.
    pub fn end_forgotten(&mut self)
        requires steady { IsSteady self.old }
        ensures ends { Ends (state self.old) (state self.new) }
        ensures steady { IsSteady self.new }
        ensures living { LivesWhileKept (state self.new) }
        ensures grants { self.new.grants ≡ self.old.grants }
        ensures table { self.new.table ≡ self.old.table }
    {
        while let Some(place) = self.leaving.first() {
            self.end_marked(ObjectNumber::new(place as u32));
        }
    }
}
