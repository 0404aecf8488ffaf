//! What each handle names.
ghost use Rattle.std.specs.Prelude.{◌≡◌, ◌↔◌, true, ◌<◌, ◌≤◌, ◌+◌, ◌-◌, ◌++◌, ◌∷◌, ◌^◌, [], None, Some, length, slice_set, slice_index_or, vec_len, vec_capacity, IsSome, IfOk, OnOk};
ghost use Rattle.std.specs.Option.{ForSome};
ghost use Rattle.nt_status.specs.declared.limits.TheConstants.{MAX_HANDLES};
ghost use Rattle.nt_tables.specs.Handles.{opened_at, number_of, rights_of, count_named, own_handles, AreHandlesCounted};

use nt_status::{Access, Handle, MAX_HANDLES, ObjectNumber};
use std::alloc::{AllocError, Global};
use std::marker::Model;

/// What an open handle names, and what it may be used for.
#[derive(Clone, Copy, PartialEq, Eq, Debug)]
pub struct Opened {
    /// The number of the object.
    pub object: ObjectNumber,
    pub access: Access,
}

/// A number that no object has: there are at most this many handles, and at most as many objects as handles.
const NO_OBJECT: u32 = MAX_HANDLES as u32;

/// What a handle names, or nothing once it is closed, in eight bytes. (An `Option<Opened>` takes twelve.) Whoever reads one of its two
/// numbers tests nothing.
#[derive(Clone, Copy)]
struct Row {
    /// The number of the object, and `NO_OBJECT` where it names nothing.
    object: u32,
    access: Access,
}

impl Model for Row {
    ghost use Rattle.std.specs.Prelude.{◌≡◌, Option};
    ghost use Rattle.nt_tables.specs.declared.handles.Opened.{Opened};
    ghost use Rattle.nt_status.specs.declared.limits.TheConstants.{MAX_HANDLES};
    ghost use Rattle.nt_tables.specs.Handles.{opened_in_row, number_of, rights_of};

    ghost Value = { Option Opened };

    ghost view = { λ r. opened_in_row r.object r.access };

    ghost invariant = { λ r. r.object ≡ MAX_HANDLES → r.access ≡ 0 };

    ghost inverse = { λ opened. record { object = number_of opened; access = rights_of opened } };
}

impl Row {
    /// It names nothing, and has no right.
    const CLOSED: Row = Row {
        object: NO_OBJECT,
        access: Access::NONE,
    };

    fn new(opened: Opened) -> Self
        requires { opened.object < MAX_HANDLES }
        ensures { result ≡ Some opened }
    {
        Row {
            object: opened.object.get(),
            access: opened.access,
        }
    }

    /// What it names, and with which rights.
    fn get(self) -> Option<Opened>
        ensures { result ≡ self }
    {
        if self.object == NO_OBJECT {
            return None;
        }
        Some(Opened {
            object: ObjectNumber::new(self.object),
            access: self.access,
        })
    }

    /// The number of the object that it names, and `NO_OBJECT` where it names nothing.
    fn number(self) -> ObjectNumber
        ensures { result ≡ number_of self }
    {
        ObjectNumber::new(self.object)
    }

    /// The rights to what it names, and none where it names nothing.
    fn rights(self) -> u32
        ensures { result ≡ rights_of self }
    {
        self.access.bits()
    }
}

/// The row of a handle, and a closed one where it was never handed out.
fn row_in(handles: &[Row], handle: Handle) -> Row
    ensures { result ≡ opened_at handles.now handle }
{
    let at = handle.get() as usize;
    if at < handles.len() {
        handles[at]
    } else {
        Row::CLOSED
    }
}

/// What a handle names; none where it is closed, or was never handed out.
fn opened_in(handles: &[Row], handle: Handle) -> Option<Opened>
    ensures { result ≡ opened_at handles.now handle }
{
    row_in(handles, handle).get()
}

/// One handle more names the object.
fn count_more(counts: &mut Vec<u32>, object: ObjectNumber)
    requires known { object < length counts.old.items }
    requires few { slice_index_or counts.old.items object 0 + 1 < 2 ^ 32 }
    ensures { counts.new.items ≡ slice_set counts.old.items object (slice_index_or counts.old.items object 0 + 1) }
{
    counts[object.get() as usize] += 1;
}

/// One handle less names the object.
fn count_less(counts: &mut [u32], object: ObjectNumber)
    requires known { object < length counts.old }
    requires some { 0 < slice_index_or counts.old object 0 }
    ensures { counts.new ≡ slice_set counts.old object (slice_index_or counts.old object 0 - 1) }
{
    counts[object.get() as usize] -= 1;
}

/// Adds a handle, last, and counts it.
fn open(handles: &mut Vec<Row>, counts: &mut Vec<u32>, opened: Opened)
    requires counted { AreHandlesCounted handles.old.items counts.old.items }
    requires handle_room { vec_len handles.old < vec_capacity handles.old }
    requires count_room { vec_len counts.old < vec_capacity counts.old }
    requires known { opened.object ≤ length handles.old.items }
    requires few { length handles.old.items < MAX_HANDLES }
    ensures handles { handles.new.items ≡ handles.old.items ++ Some opened ∷ [] }
    ensures counted { AreHandlesCounted handles.new.items counts.new.items }
{
    counts.push_reserved(0);
    count_more(counts, opened.object);
    handles.push_reserved(Row::new(opened));
}

/// Opens a handle that was closed, and counts it.
fn open_again(handles: &mut [Row], counts: &mut Vec<u32>, handle: Handle, opened: Opened)
    requires counted { AreHandlesCounted handles.old counts.old.items }
    requires there { handle < length handles.old }
    requires closed { opened_at handles.old handle ≡ None }
    requires known { opened.object < length handles.old }
    requires few { length handles.old ≤ MAX_HANDLES }
    ensures handles { handles.new ≡ slice_set handles.old handle (Some opened) }
    ensures counted { AreHandlesCounted handles.new counts.new.items }
{
    count_more(counts, opened.object);
    handles[handle.get() as usize] = Row::new(opened);
}

/// Closes an open handle, and no longer counts it. Returns the object that it named.
fn close(handles: &mut [Row], counts: &mut [u32], handle: Handle) -> ObjectNumber
    requires counted { AreHandlesCounted handles.old counts.old }
    requires open { IsSome (opened_at handles.old handle) }
    ensures object { ForSome (opened_at handles.old handle) (λ opened. result ≡ opened.object) }
    ensures handles { handles.new ≡ slice_set handles.old handle None }
    ensures counted { AreHandlesCounted handles.new counts.new }
{
    let Some(opened) = opened_in(handles, handle) else {
        unreachable!()
    };
    handles[handle.get() as usize] = Row::CLOSED;
    count_less(counts, opened.object);
    opened.object
}

/// Whether both name the same object with the same rights, or nothing.
fn is_like(opened: Option<Opened>, other: Option<Opened>) -> bool
    ensures { (result ≡ true) ↔ (opened ≡ other) }
{
    opened == other
}

/// Whether the same numbers name the same objects, with the same rights.
fn are_like(handles: &[Row], others: &[Row]) -> bool
    ensures { (result ≡ true) ↔ (handles.now ≡ others.now) }
{
    if handles.len() != others.len() {
        return false;
    }
    for i in 0..handles.len() {
        if !is_like(handles[i].get(), others[i].get()) {
            return false;
        }
    }
    true
}

/// The handles, each with the object that it names and its rights, and how many handles name each object.
///
/// A number that was handed out names the same object until it is closed, and nothing from then on, unless it is given again.
#[derive(Drop)]
pub struct HandleTable {
    handles: Vec<Row>,
    counts: Vec<u32>,
}

impl Model for HandleTable {
    ghost use Rattle.std.specs.Prelude.{◌≤◌, length, min, vec_capacity};
    ghost use Rattle.nt_status.specs.declared.limits.TheConstants.{MAX_HANDLES};
    ghost use Rattle.nt_tables.specs.Handles.{Handles, AreHandlesCounted};

    ghost Value = { Handles };

    ghost view = { λ t. record {
      opened = t.handles.items;
      room = min MAX_HANDLES (min (vec_capacity t.handles) (vec_capacity t.counts));
    } };

    ghost invariant = { λ t. AreHandlesCounted t.handles.items t.counts.items
        × (length t.handles.items ≤ MAX_HANDLES) };
}

impl HandleTable {
    /// No handle.
    fn empty(alloc: Global) -> Self
        ensures { result.opened ≡ [] }
    {
        HandleTable {
            handles: Vec::new(alloc),
            counts: Vec::new(alloc),
        }
    }

    /// One handle for each of `objects` objects, with the number of its object and these rights.
    pub fn new(alloc: Global, objects: usize, access: Access) -> Result<Self, AllocError>
        requires few { objects < 2 ^ 32 - 1 }
        ensures { IfOk result (λ table. table.opened ≡ own_handles objects access) }
    {
        let mut table = HandleTable::empty(alloc);
        for object in 0..objects {
            table.make_room()?;
            let _handle = table.add(Opened {
                object: ObjectNumber::new(object as u32),
                access,
            });
        }
        Ok(table)
    }

    /// How many numbers were handed out. The next handle has this number.
    pub fn len(&self) -> usize
        ensures { result ≡ length self.now.opened }
    {
        self.handles.len()
    }

    /// What a handle names, and with which rights; none where it is closed, or was never handed out.
    pub fn get(&self, handle: Handle) -> Option<Opened>
        ensures { result ≡ opened_at self.now.opened handle }
    {
        opened_in(&self.handles, handle)
    }

    /// The number of the object that a handle names, and 65,536, which no object has, where it names nothing. This and `rights` take fewer
    /// steps than `get`, whose answer is packed into one word.
    pub fn object_number(&self, handle: Handle) -> ObjectNumber
        ensures { result ≡ number_of (opened_at self.now.opened handle) }
    {
        row_in(&self.handles, handle).number()
    }

    /// The rights of a handle, and none where it names nothing.
    pub fn rights(&self, handle: Handle) -> u32
        ensures { result ≡ rights_of (opened_at self.now.opened handle) }
    {
        row_in(&self.handles, handle).rights()
    }

    /// How many handles name this object.
    pub fn count(&self, object: ObjectNumber) -> u32
        ensures { result ≡ count_named self.now.opened object }
    {
        match self.counts.get(object.get() as usize) {
            Some(count) => *count,
            None => 0,
        }
    }

    /// Whether the same numbers name the same objects, with the same rights.
    pub fn is_like(&self, other: &HandleTable) -> bool
        ensures { (result ≡ true) ↔ (self.now.opened ≡ other.now.opened) }
    {
        are_like(&self.handles, &other.handles)
    }

    /// Makes room for one handle more. Where memory is refused no handle changes. More than 65,536 are refused as memory is.
    pub fn make_room(&mut self) -> Result<(), AllocError>
        ensures room { OnOk result (length self.new.opened < self.new.room) }
        ensures opened { self.new.opened ≡ self.old.opened }
    {
        if self.handles.len() >= MAX_HANDLES {
            return Err(AllocError);
        }
        self.handles.reserve(1)?;
        self.counts.reserve(1)?;
        Ok(())
    }

    /// Hands out a number for an object: one that has a handle, or the next new one.
    pub fn add(&mut self, opened: Opened) -> Handle
        requires room { length self.old.opened < self.old.room }
        requires few { length self.old.opened < 2 ^ 32 - 1 }
        requires known { opened.object ≤ length self.old.opened }
        ensures handle { result ≡ length self.old.opened }
        ensures opened { self.new.opened ≡ self.old.opened ++ Some opened ∷ [] }
    {
        let handle = Handle::new(self.len() as u32);
        open(&mut self.handles, &mut self.counts, opened);
        handle
    }

    /// Gives the number of a handle that was closed to a new one, for an object that has or had a handle. It takes no memory.
    pub fn add_again(&mut self, handle: Handle, opened: Opened)
        requires there { handle < length self.old.opened }
        requires closed { opened_at self.old.opened handle ≡ None }
        requires known { opened.object < length self.old.opened }
        requires few { length self.old.opened < 2 ^ 32 - 1 }
        ensures opened { self.new.opened ≡ slice_set self.old.opened handle (Some opened) }
    {
        open_again(&mut self.handles, &mut self.counts, handle, opened);
    }

    /// Closes an open handle, and answers the object that it named.
    pub fn close(&mut self, handle: Handle) -> ObjectNumber
        requires open { IsSome (opened_at self.old.opened handle) }
        ensures object { ForSome (opened_at self.old.opened handle) (λ opened. result ≡ opened.object) }
        ensures opened { self.new.opened ≡ slice_set self.old.opened handle None }
        ensures room { self.new.room ≡ self.old.room }
    {
        close(&mut self.handles, &mut self.counts, handle)
    }

    /// The same handles in memory of their own.
    pub fn copy(&self) -> Result<Self, AllocError>
        ensures { IfOk result (λ copied. copied.opened ≡ self.now.opened) }
    {
        Ok(HandleTable {
            handles: Vec::from_slice(*self.handles.allocator(), &self.handles)?,
            counts: Vec::from_slice(*self.counts.allocator(), &self.counts)?,
        })
    }
}
