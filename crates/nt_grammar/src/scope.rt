//! What a script has bound.

ghost use Rattle.std.specs.Prelude.{◌≡◌, ◌++◌, ◌∷◌, ◌<◌, [], length, None, Some, IfSome, OnOk};
ghost use Rattle.std.specs.Option.{option_copied};
ghost use Rattle.nt_grammar.specs.Naming.{handle_of};
ghost use Rattle.nt_grammar.specs.Scope.{bound_in, handle_in, name_in};

use indexmap::IndexMap;
use nt_calls::Reply;
use nt_status::{Handle, Refusal};
use std::alloc::{AllocError, Global};
use std::marker::Model;

/// The number of threads, and the handle that each name stands for, in the order of first use.
#[derive(Drop)]
pub struct Bindings {
    threads: u32,
    names: IndexMap<Vec<u8>, Handle>,
}

impl Model for Bindings {
    ghost use Rattle.std.specs.Prelude.{map};
    ghost use Rattle.indexmap.specs.IndexMap.{spare};
    ghost use Rattle.nt_grammar.specs.Scope.{Bound};

    ghost Value = { Bound };

    ghost view = { λ b. record {
      scope = record { threads = b.threads; names = map (λ entry. (entry.0.items, entry.1)) b.names.entries };
      room = spare b.names;
    } };
}

impl Bindings {
    ghost use Rattle.nt_grammar.specs.Lines.{opened_scope};

    /// For `threads` threads, with no name.
    pub fn new(alloc: Global, threads: u32) -> Bindings
        ensures { result.scope ≡ opened_scope threads }
    {
        Bindings {
            threads,
            names: IndexMap::new(alloc),
        }
    }

    /// How many threads there are.
    pub fn threads(&self) -> u32
        ensures { result ≡ self.now.scope.threads }
    {
        self.threads
    }

    /// The handle that a name stands for.
    pub fn get(&self, name: &[u8]) -> Option<Handle>
        ensures { result ≡ bound_in self.now.scope.names name.now }
    {
        self.names.get(name).copied()
    }

    /// The handle of the name at this place in the order of first use, where it is this name.
    fn at(&self, place: usize, name: &[u8]) -> Option<Handle>
        ensures { IfSome result (λ handle. bound_in self.now.scope.names name.now ≡ Some handle) }
    {
        match self.names.get_index(place) {
            Some((bound, handle)) if bound.as_slice() == name => Some(*handle),
            _ => None,
        }
    }

    /// The handle of a name, and in `next` the place after its own.
    fn find(&self, next: &mut usize, name: &[u8]) -> Option<Handle>
        ensures { result ≡ bound_in self.now.scope.names name.now }
    {
        match self.names.get_full(name) {
            Some((place, _, handle)) => {
                *next = place.saturating_add(1);
                Some(*handle)
            }
            None => None,
        }
    }

    /// The handle of a name, as `get` answers it. Most lists name objects in the order of their creation: so the place after the
    /// last one is looked at before the table.
    pub(crate) fn get_next(&self, next: &mut usize, name: &[u8]) -> Option<Handle>
        ensures { result ≡ bound_in self.now.scope.names name.now }
    {
        match self.at(*next, name) {
            Some(handle) => {
                *next = next.saturating_add(1);
                Some(handle)
            }
            None => self.find(next, name),
        }
    }

    /// How many names are bound.
    pub fn len(&self) -> usize
        ensures { result ≡ length self.now.scope.names }
    {
        self.names.len()
    }

    /// The name at this place in the order of first use.
    pub fn name_at(&self, place: usize) -> Option<&[u8]>
        ensures { option_copied result ≡ name_in self.now.scope.names place }
    {
        match self.names.get_index(place) {
            Some((name, _)) => Some(name.as_slice()),
            None => None,
        }
    }

    /// The handle that the name at this place stands for.
    pub fn handle_at(&self, place: usize) -> Option<Handle>
        ensures { result ≡ handle_in self.now.scope.names place }
    {
        match self.names.get_index(place) {
            Some((_, handle)) => Some(*handle),
            None => None,
        }
    }

    /// Makes room for one name more.
    pub fn reserve(&mut self) -> Result<(), AllocError>
        ensures scope { self.new.scope ≡ self.old.scope }
        ensures room { OnOk result (0 < self.new.room) }
    {
        self.names.reserve(1)
    }

    /// Binds a name that is free, where there is room for it.
    pub fn bind(&mut self, name: Vec<u8>, handle: Handle)
        requires room { 0 < self.old.room }
        requires free { bound_in self.old.scope.names name.items ≡ None }
        ensures { self.new.scope ≡ record self.old.scope { names = self.old.scope.names ++ (name.items, handle) ∷ [] } }
    {
        let _ = self.names.insert(name, handle);
    }
}

/// The handle that a creation answered, for which its name is to stand.
pub fn handle_of(answer: &Result<Reply, Refusal>) -> Option<Handle>
    ensures { result ≡ handle_of answer.now }
{
    match answer {
        Ok(Reply::Handle(handle)) => Some(*handle),
        _ => None,
    }
}
