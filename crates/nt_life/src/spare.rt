//! The numbers that may be given again.
ghost use Rattle.std.specs.Prelude.{◌≡◌, ◌<◌, ◌≤◌, ◌-◌, ◌++◌, ◌∷◌, ℕ, [], true, false, length, slice_index_or, IfOk, IfSome, IfNone, if◌then◌else◌};
ghost use Rattle.std.specs.List.{swap_remove};
ghost use Rattle.nt_status.specs.declared.limits.TheConstants.{MAX_HANDLES};
ghost use Rattle.nt_machine.specs.Dispatcher.{state};
ghost use Rattle.nt_machine.specs.Lawful.{IsLawful};
ghost use Rattle.nt_core.specs.Renewals.{is_vacant};
ghost use Rattle.nt_life.specs.Lasting.{IsSpare, IsFound, last_closed, next_turn};

use crate::listing::{closed_in, unnamed_in};
use crate::stack::Stack;
use nt_core::Core;
use nt_status::{Handle, ObjectNumber};
use std::alloc::{AllocError, Global};
use std::marker::Model;

/// The numbers of closed handles, and of objects that no handle names.
#[derive(Drop)]
pub(crate) struct Spare {
    closed: Stack,
    unnamed: Stack,
    /// Which of the unnamed ones is looked at if the last one is not free: each in turn.
    turn: usize,
}

impl Model for Spare {
    ghost use Rattle.nt_life.specs.Lasting.{Spares};

    ghost Value = { Spares };

    ghost view = { λ s. record { closed = s.closed; unnamed = s.unnamed; turn = s.turn } };
}

/// The place of the first of these objects whose number may be given again.
fn first_vacant(core: &Core, objects: &[u32]) -> Option<usize>
    ensures found { IfSome result (λ place. (place < length objects.now)
        × (is_vacant (state core.now) (slice_index_or objects.now place 0) ≡ true)) }
    ensures none { IfNone result ((place : ℕ) → place < length objects.now
        → is_vacant (state core.now) (slice_index_or objects.now place 0) ≡ false) }
{
    for place in 0..objects.len() {
        if core.is_vacant(ObjectNumber::new(objects[place])) {
            return Some(place);
        }
    }
    None
}

impl Spare {
    /// No number.
    pub fn new(alloc: Global) -> Result<Self, AllocError>
        ensures closed { IfOk result (λ spare. spare.closed ≡ []) }
        ensures unnamed { IfOk result (λ spare. spare.unnamed ≡ []) }
        ensures turn { IfOk result (λ spare. spare.turn ≡ 0) }
    {
        Ok(Spare {
            closed: Stack::new(alloc)?,
            unnamed: Stack::new(alloc)?,
            turn: 0,
        })
    }

    /// The numbers that may be given again in this dispatcher. Which were freed last is not known.
    pub fn of(alloc: Global, core: &Core) -> Result<Self, AllocError>
        requires lawful { IsLawful core.now }
        ensures { IfOk result (λ spare. IsSpare (state core.now) spare) }
    {
        Ok(Spare {
            closed: closed_in(alloc, core)?,
            unnamed: unnamed_in(alloc, core)?,
            turn: 0,
        })
    }

    /// The same numbers in memory of their own.
    pub fn copy(&self) -> Result<Self, AllocError>
        ensures { IfOk result (λ copied. copied ≡ self.now) }
    {
        Ok(Spare {
            closed: self.closed.copy()?,
            unnamed: self.unnamed.copy()?,
            turn: self.turn,
        })
    }

    /// The number of the handle that was closed last.
    pub fn handle(&self) -> Option<Handle>
        ensures some { IfSome result (λ handle. (0 < length self.now.closed) × (handle ≡ last_closed self.now)) }
        ensures none { IfNone result (length self.now.closed ≡ 0) }
    {
        let closed = self.closed.as_slice();
        if closed.is_empty() {
            return None;
        }
        Some(Handle::new(closed[closed.len() - 1]))
    }

    /// The place of an object whose number may be given again: the last one, or, if that is not free, the one whose turn it is.
    pub fn vacant(&mut self, core: &Core) -> Option<usize>
        ensures found { IfSome result (λ place. (place < length self.old.unnamed)
            × (is_vacant (state core.now) (slice_index_or self.old.unnamed place 0) ≡ true)) }
        ensures which { IsFound (state core.now) self.old result }
        ensures closed { self.new.closed ≡ self.old.closed }
        ensures unnamed { self.new.unnamed ≡ self.old.unnamed }
        ensures turn { self.new.turn ≡ next_turn (state core.now) self.old }
    {
        let unnamed = self.unnamed.as_slice();
        if unnamed.is_empty() {
            return None;
        }
        let last = unnamed.len() - 1;
        if core.is_vacant(ObjectNumber::new(unnamed[last])) {
            return Some(last);
        }
        let place = self.turn % unnamed.len();
        let other = unnamed[place];
        self.turn = place + 1;
        if core.is_vacant(ObjectNumber::new(other)) {
            Some(place)
        } else {
            None
        }
    }

    /// The place of an object whose number may be given again. Each is looked at.
    pub fn any_vacant(&self, core: &Core) -> Option<usize>
        ensures found { IfSome result (λ place. (place < length self.now.unnamed)
            × (is_vacant (state core.now) (slice_index_or self.now.unnamed place 0) ≡ true)) }
        ensures none { IfNone result ((place : ℕ) → place < length self.now.unnamed
            → is_vacant (state core.now) (slice_index_or self.now.unnamed place 0) ≡ false) }
    {
        first_vacant(core, self.unnamed.as_slice())
    }

    /// The number of the object at this place.
    pub fn object(&self, place: usize) -> ObjectNumber
        requires { place < length self.now.unnamed }
        ensures { result ≡ slice_index_or self.now.unnamed place 0 }
    {
        ObjectNumber::new(self.unnamed.as_slice()[place])
    }

    /// Takes the number of the handle that was closed last.
    pub fn take_handle(&mut self)
        requires { 0 < length self.old.closed }
        ensures closed { self.old.closed ≡ self.new.closed ++ last_closed self.old ∷ [] }
        ensures unnamed { self.new.unnamed ≡ self.old.unnamed }
        ensures turn { self.new.turn ≡ self.old.turn }
    {
        self.closed.pop();
    }

    /// Takes the number of the object at this place.
    pub fn take_object(&mut self, place: usize)
        requires { place < length self.old.unnamed }
        ensures closed { self.new.closed ≡ self.old.closed }
        ensures unnamed { self.new.unnamed ≡ swap_remove self.old.unnamed place 0 }
        ensures turn { self.new.turn ≡ self.old.turn }
    {
        self.unnamed.take(place);
    }

    /// A handle was closed that named this object. If no other names it, the object's number is added too.
    pub fn add_closed(&mut self, handle: Handle, object: ObjectNumber, unnamed: bool)
        requires handles { length self.old.closed < MAX_HANDLES }
        requires objects { length self.old.unnamed < MAX_HANDLES }
        ensures closed { self.new.closed ≡ self.old.closed ++ handle ∷ [] }
        ensures unnamed { self.new.unnamed ≡ (if unnamed then self.old.unnamed ++ object ∷ [] else self.old.unnamed) }
        ensures turn { self.new.turn ≡ self.old.turn }
    {
        self.closed.push(handle.get());
        if unnamed {
            self.unnamed.push(object.get());
        }
    }

    /// No handle names the object any longer. It answers the place of its number.
    pub fn add_object(&mut self, object: ObjectNumber) -> usize
        requires { length self.old.unnamed < MAX_HANDLES }
        ensures place { result ≡ length self.old.unnamed }
        ensures closed { self.new.closed ≡ self.old.closed }
        ensures unnamed { self.new.unnamed ≡ self.old.unnamed ++ object ∷ [] }
        ensures turn { self.new.turn ≡ self.old.turn }
    {
        let place = self.unnamed.as_slice().len();
        self.unnamed.push(object.get());
        place
    }
}

/// The same numbers in memory of their own; none of none.
pub(crate) fn copy_of(spare: &Option<Spare>) -> Result<Option<Spare>, AllocError>
    ensures { IfOk result (λ copied. copied ≡ spare.now) }
{
    match spare {
        Some(spare) => Ok(Some(spare.copy()?)),
        None => Ok(None),
    }
}
