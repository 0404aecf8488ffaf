//! A list of numbers, of which the last is taken first.
ghost use Rattle.std.specs.Prelude.{◌≡◌, ◌<◌, ◌≤◌, ◌-◌, ◌++◌, ◌∷◌, [], length, slice_index_or, IfOk};
ghost use Rattle.std.specs.List.{swap_remove};
ghost use Rattle.nt_status.specs.declared.limits.TheConstants.{MAX_HANDLES};

use nt_status::MAX_HANDLES;
use std::alloc::{AllocError, Global};
use std::marker::Model;

/// Numbers, with room for all that there are.
#[derive(Drop)]
pub(crate) struct Stack {
    items: Vec<u32>,
}

impl Model for Stack {
    ghost use Rattle.std.specs.Prelude.{◌≤◌, List, ℕ, vec_capacity};
    ghost use Rattle.nt_status.specs.declared.limits.TheConstants.{MAX_HANDLES};

    ghost Value = { List ℕ };

    ghost view = { λ s. s.items.items };

    ghost invariant = { λ s. MAX_HANDLES ≤ vec_capacity s.items };
}

impl Stack {
    /// No number.
    pub fn new(alloc: Global) -> Result<Self, AllocError>
        ensures { IfOk result (λ stack. stack ≡ []) }
    {
        Ok(Stack {
            items: Vec::with_capacity(alloc, MAX_HANDLES)?,
        })
    }

    /// The same numbers in memory of their own, with room for all that there are.
    pub fn copy(&self) -> Result<Self, AllocError>
        ensures { IfOk result (λ copied. copied ≡ self.now) }
    {
        let alloc = *self.items.allocator();
        let mut items = Vec::from_slice(alloc, &self.items)?;
        items.reserve(MAX_HANDLES.saturating_sub(self.items.len()))?;
        Ok(Stack { items })
    }

    /// The numbers, that which was added last at the end.
    pub fn as_slice(&self) -> &[u32]
        ensures { result.now ≡ self.now }
    {
        self.items.as_slice()
    }

    /// Adds a number, last. It takes no memory.
    pub fn push(&mut self, number: u32)
        requires room { length self.old < MAX_HANDLES }
        ensures { self.new ≡ self.old ++ number ∷ [] }
    {
        self.items.push_reserved(number);
    }

    /// Takes the last number.
    pub fn pop(&mut self)
        requires { 0 < length self.old }
        ensures { self.old ≡ self.new ++ slice_index_or self.old (length self.old - 1) 0 ∷ [] }
    {
        let _ = self.items.pop();
    }

    /// Takes the number at this place. The last one comes there.
    pub fn take(&mut self, place: usize)
        requires { place < length self.old }
        ensures { self.new ≡ swap_remove self.old place 0 }
    {
        let _ = self.items.swap_remove(place);
    }
}
