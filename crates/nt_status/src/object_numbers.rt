//! The numbers of objects, by which waits, queues, owners' lists and timers speak of them. A handle's number tells nothing of its object's.
ghost use Rattle.std.specs.Prelude.{◌≡◌, ◌∷◌, [], IfOk, OnOk, OnErr};

use smallvec::SmallVec;
use std::alloc::{AllocError, Global};
use std::marker::Model;

/// The number of an object, in the order of creation.
#[derive(Clone, Copy, Default, PartialEq, Eq, PartialOrd, Ord, Debug)]
pub struct ObjectNumber(u32);

impl Model for ObjectNumber {
    ghost use Rattle.std.specs.Prelude.{ℕ};

    ghost Value = { ℕ };

    ghost view = { λ o. o.0 };

    ghost inverse = { λ n. record { 0 = n } };
}

impl ObjectNumber {
    pub fn new(number: u32) -> Self
        ensures { result ≡ number }
    {
        ObjectNumber(number)
    }

    pub fn get(self) -> u32
        ensures { result ≡ self }
    {
        self.0
    }
}

/// The objects that a pending wait names, in order. Up to four take no memory.
///
/// One object alone stands in a field of its own, as one handle does in `Handles`.
#[derive(Drop)]
pub struct ObjectNumbers {
    /// The one object, if it was put here. The others are left over then.
    one: Option<[ObjectNumber; 1]>,
    items: SmallVec<ObjectNumber, 4>,
}

impl Model for ObjectNumbers {
    ghost use Rattle.std.specs.Prelude.{List, ℕ, unwrap_or};

    ghost Value = { List ℕ };

    ghost view = { λ o. unwrap_or o.one o.items.items };
}

impl ObjectNumbers {
    /// No object.
    pub fn new(alloc: Global) -> Self
        ensures { result ≡ [] }
    {
        ObjectNumbers {
            one: None,
            items: SmallVec::new(alloc),
        }
    }

    /// These objects in the place of those that it has. Where they are as many, it takes no memory; where memory is refused, nothing
    /// changes.
    pub fn copy_from(&mut self, objects: &[ObjectNumber]) -> Result<(), AllocError>
        ensures ok { OnOk result (self.new ≡ objects.now) }
        ensures err { OnErr result (self.new ≡ self.old) }
    {
        if let [object] = objects {
            self.put_one(*object);
            return Ok(());
        }
        if self.items.len() != objects.len() {
            return self.copy_from_slow(objects);
        }
        self.items.as_mut_slice().copy_from_slice(objects);
        self.one = None;
        Ok(())
    }

    /// This object alone in the place of those that it has. It takes no memory.
    pub fn put_one(&mut self, object: ObjectNumber)
        ensures { self.new ≡ object ∷ [] }
    {
        self.one = Some([object]);
    }

    /// A new list of these objects in the place of its own. A function of its own, since mostly there are as many as before.
    #[inline(never)]
    fn copy_from_slow(&mut self, objects: &[ObjectNumber]) -> Result<(), AllocError>
        ensures ok { OnOk result (self.new ≡ objects.now) }
        ensures err { OnErr result (self.new ≡ self.old) }
    {
        let ObjectNumbers { one, items } = self;
        *items = SmallVec::from_slice(*items.allocator(), objects)?;
        *one = None;
        Ok(())
    }

    /// The same objects in memory of their own.
    pub fn copy(&self) -> Result<Self, AllocError>
        ensures { IfOk result (λ copied. copied ≡ self.now) }
    {
        let mut copied = ObjectNumbers::new(*self.items.allocator());
        copied.copy_from(self.as_slice())?;
        Ok(copied)
    }

    /// The numbers, in order.
    pub fn as_slice(&self) -> &[ObjectNumber]
        ensures { result.now ≡ self.now }
    {
        match &self.one {
            Some(one) => one,
            None => self.items.as_slice(),
        }
    }
}
