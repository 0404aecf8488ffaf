//! The list of objects, and the creation of more.
ghost use Rattle.std.specs.Prelude.{slice_set, ◌≡◌, ◌<◌, ◌++◌, ◌∷◌, [], ℕ, true, false, Some, None, IfOk, IfErr, OnOk, OnErr, MatchBool, length};
ghost use Rattle.nt_status.specs.declared.refusal.Refusal.TheVariants.{HandleLimit, Memory};
ghost use Rattle.nt_objects.specs.Object.{mutex_owner, owned_by};
ghost use Rattle.nt_calls.specs.State.{object_at};
ghost use Rattle.nt_calls.specs.Refusals.{is_full};
ghost use Rattle.nt_machine.specs.Dispatcher.{with_created, with_queue};
ghost use Rattle.nt_machine.specs.Lawful.{HandlesAgree};
ghost use Rattle.nt_machine.specs.Accepts.{IsFresh, IsActOfAny};
ghost use Rattle.nt_calls.specs.declared.call.Act.{Act};
ghost use Rattle.nt_calls.specs.declared.call.Reply.{Reply};

use crate::machine::{Answer, Machine};
use nt_alarms::Alarms;
use nt_calls::{Reply, object_to_share};
use nt_marks::Marks;
use nt_objects::Object;
use nt_status::{Access, Handle, MAX_HANDLES, ObjectNumber, Refusal};
use nt_tables::Opened;
use nt_waits::WaitTable;
use std::alloc::AllocError;

/// Makes the places of one object more: of its alarm, with none, and of both its marks; and the room for waits on it. Where memory is refused
/// nothing changes.
pub fn add_places(
    waits: &mut WaitTable,
    alarms: &mut Alarms,
    leaving: &mut Marks,
    changed: &mut Marks,
) -> Result<(), AllocError>
    ensures waits { OnOk result (waits.new ≡ with_queue waits.old) }
    ensures alarms { OnOk result (alarms.new ≡ alarms.old ++ None ∷ []) }
    ensures leaving { OnOk result (leaving.new ≡ leaving.old ++ false ∷ []) }
    ensures changed { OnOk result (changed.new ≡ changed.old ++ false ∷ []) }
    ensures no_waits { OnErr result (waits.new ≡ waits.old) }
    ensures no_alarms { OnErr result (alarms.new ≡ alarms.old) }
    ensures no_marks { OnErr result ((leaving.new ≡ leaving.old) × (changed.new ≡ changed.old)) }
{
    waits.add_object()?;
    if let Err(refused) = alarms.add_with(leaving, changed) {
        waits.remove_object();
        return Err(refused);
    }
    Ok(())
}

impl Machine {
    /// Adds an object with a handle that has all rights of its kind, and answers the handle, unless no handle number is left or
    /// memory is refused: then nothing changes.
    pub(crate) fn create(&mut self, object: Object) -> Answer
        requires agree { HandlesAgree (length self.old.objects) self.old.handles }
        requires owner { (t : ℕ) → owned_by object t ≡ true → t < self.old.threads }
        ensures few { OnOk result (is_full self.old.handles ≡ false) }
        ensures handle { IfOk result (λ reply. reply ≡ Reply.Handle (length self.old.handles)) }
        ensures ok { OnOk result (self.new ≡ with_created self.old object self.new.owned) }
        ensures refused { IfErr result (λ cause.
            MatchBool (is_full self.old.handles) (cause ≡ HandleLimit) (cause ≡ Memory)) }
        ensures err { OnErr result (self.new ≡ self.old) }
    {
        if self.handles.len() >= MAX_HANDLES {
            return Err(Refusal::HandleLimit);
        }
        let count = self.objects.as_slice().len();
        let access = object.full_access();
        self.objects.make_room()?;
        self.handles.make_room()?;
        add_places(
            &mut self.waits,
            &mut self.alarms,
            &mut self.leaving,
            &mut self.changed,
        )?;
        self.objects.add(object);
        let object = ObjectNumber::new(count as u32);
        Ok(Reply::Handle(self.handles.add(Opened { object, access })))
    }

    /// DuplicateHandle: one handle more for this object, with these rights. Where memory is refused nothing changes.
    pub(crate) fn duplicate(&mut self, handle: Handle, access: u32) -> Answer
        requires fresh { IsFresh self.old }
        ensures { IsActOfAny self.old self.new (Act.Duplicate handle access) result }
    {
        let object = object_to_share(&self.handles, &self.objects, handle, access)?;
        let Some(access) = Access::from_bits(access) else {
            unreachable!()
        };
        self.handles.make_room()?;
        Ok(Reply::Handle(self.handles.add(Opened { object, access })))
    }

    /// The object of this number.
    pub fn object(&self, number: ObjectNumber) -> Object
        requires { number < length self.now.objects }
        ensures { result ≡ object_at self.now.objects number }
    {
        self.objects.as_slice()[number.get() as usize]
    }

    /// Puts an object in the place of the one of this number, which had the same owner, or none like this one.
    pub(crate) fn exchange(&mut self, number: ObjectNumber, object: Object)
        requires known { number < length self.old.objects }
        requires owner { mutex_owner object ≡ mutex_owner (object_at self.old.objects number) }
        ensures { self.new ≡ record self.old { objects = slice_set self.old.objects number object } }
    {
        self.objects.put(number, object);
    }
}
