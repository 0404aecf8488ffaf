ghost use Rattle.std.specs.Prelude.{◌≡◌, ◌≢◌, ◌<◌, ◌++◌, ◌∷◌, [], length, IfOk, OnOk, OnErr, MatchOption};

use crate::limits::MAX_INLINE_HANDLES;
use smallvec::SmallVec;
use std::alloc::{AllocError, Global};
use std::fmt::{Debug, Error, Formatter, Write};
use std::marker::Model;

/// A handle, by its number.
#[derive(Clone, Copy, Default, PartialEq, Eq, PartialOrd, Ord, Debug)]
pub struct Handle(u32);

impl Model for Handle {
    ghost use Rattle.std.specs.Prelude.{ℕ};

    ghost Value = { ℕ };

    ghost view = { λ h. h.0 };

    ghost inverse = { λ n. record { 0 = n } };
}

impl Handle {
    pub fn new(number: u32) -> Self
        ensures { result ≡ number }
    {
        Handle(number)
    }

    pub fn get(self) -> u32
        ensures { result ≡ self }
    {
        self.0
    }
}

/// The handles that a wait names, in order. Up to `MAX_INLINE_HANDLES` take no memory.
///
/// One handle alone stands in a field of its own: most waits name one, and find it there without a look at the list.
pub struct Handles {
    /// The one handle, if it was put here. The others are left over then.
    one: Option<[Handle; 1]>,
    items: SmallVec<Handle, MAX_INLINE_HANDLES>,
}

/// Written by hand, so that whoever lets a list go has one function to call, and nothing to prove of its parts.
impl Drop for Handles {
    fn drop(self) {
        let Handles { one: _, items: _ } = self;
    }
}

impl Model for Handles {
    ghost use Rattle.std.specs.Prelude.{List, ℕ, unwrap_or};

    ghost Value = { List ℕ };

    ghost view = { λ h. unwrap_or h.one h.items.items };
}

impl Handles {
    /// No handle.
    pub fn new(alloc: Global) -> Self
        ensures { result ≡ [] }
    {
        Handles {
            one: None,
            items: SmallVec::new(alloc),
        }
    }

    /// No handle; memory for this many is asked for at once. Only more than `MAX_INLINE_HANDLES` may find none.
    pub fn with_capacity(alloc: Global, count: usize) -> Result<Self, AllocError>
        ensures ok { IfOk result (λ these. these ≡ []) }
        ensures err { OnErr result (MAX_INLINE_HANDLES < count) }
    {
        Ok(Handles {
            one: None,
            items: SmallVec::with_capacity(alloc, count)?,
        })
    }

    /// These handles, in this order. Only those past `MAX_INLINE_HANDLES` may find no memory.
    pub fn from_slice(alloc: Global, handles: &[Handle]) -> Result<Self, AllocError>
        ensures ok { IfOk result (λ these. these ≡ handles.now) }
        ensures err { OnErr result (MAX_INLINE_HANDLES < length handles.now) }
    {
        // Most lists have one, which is written here, without a call.
        match handles {
            [handle] => Ok(Handles::from_one(alloc, *handle)),
            _ => Handles::from_many(alloc, handles),
        }
    }

    /// This handle alone. It takes no memory.
    pub fn from_one(alloc: Global, handle: Handle) -> Self
        ensures { result ≡ handle ∷ [] }
    {
        Handles {
            one: Some([handle]),
            items: SmallVec::new(alloc),
        }
    }

    /// The same as `from_slice`, for any number of handles.
    #[inline(never)]
    fn from_many(alloc: Global, handles: &[Handle]) -> Result<Self, AllocError>
        ensures ok { IfOk result (λ these. these ≡ handles.now) }
        ensures err { OnErr result (MAX_INLINE_HANDLES < length handles.now) }
    {
        Ok(Handles {
            one: None,
            items: SmallVec::from_slice(alloc, handles)?,
        })
    }

    /// Names one more handle, last.
    pub fn push(&mut self, handle: Handle) -> Result<(), AllocError>
        ensures ok { OnOk result (self.new ≡ self.old ++ handle ∷ []) }
        ensures err { OnErr result (self.new ≡ self.old) }
    {
        if let Some(first) = self.one {
            self.items.clear();
            self.items.push(first[0])?;
            self.items.push(handle)?;
            self.one = None;
            return Ok(());
        }
        if self.items.is_empty() {
            self.one = Some([handle]);
            return Ok(());
        }
        self.items.push(handle)?;
        Ok(())
    }

    /// Empties the list. The room stays.
    pub fn clear(&mut self)
        ensures { self.new ≡ [] }
    {
        let Handles { one, items } = self;
        *one = None;
        items.clear();
    }

    /// The handles, in order.
    pub fn as_slice(&self) -> &[Handle]
        ensures { result.now ≡ self.now }
    {
        match &self.one {
            Some(one) => one,
            None => self.items.as_slice(),
        }
    }

    /// The handle, if there is one alone.
    pub fn alone(&self) -> Option<Handle>
        ensures { MatchOption result (length self.now ≢ 1) (λ handle. self.now ≡ handle ∷ []) }
    {
        if let Some(one) = self.one {
            return Some(one[0]);
        }
        match self.items.as_slice() {
            [handle] => Some(*handle),
            _ => None,
        }
    }
}

/// The same handles, in memory of their own.
impl Clone for Handles {
    ghost use Rattle.std.specs.Prelude.{◌≡◌};

    ghost is_clone = { λ handles copied. copied ≡ handles };

    fn clone(&self) -> Result<Self, AllocError> {
        Handles::from_slice(*self.items.allocator(), self.as_slice())
    }
}

impl Debug for Handles {
    fn fmt<W: Write>(&self, formatter: &mut Formatter<W>) -> Result<(), Error> {
        self.as_slice().fmt(formatter)
    }
}
