//! The room that is made before waits for one object begin.
ghost use Rattle.std.specs.Prelude.{◌≡◌, ℕ, ◌≤◌, length, None, IfOk};
ghost use Rattle.nt_waits.specs.Queues.{HasRoomFor};
ghost use Rattle.nt_waits.specs.Table.{slot_at};

use crate::place::add_places;
use crate::queues::Queues;
use crate::slot::Slot;
use std::alloc::{AllocError, Global};

/// How many threads can each begin a wait for one object, and for how many objects, with no allocation: those of the lowest numbers.
#[derive(Clone, Copy)]
pub struct Room {
    pub threads: usize,
    pub objects: usize,
}

/// The same queues, with room for a block of each thread and for the queue of each object.
pub fn with_room(queues: Queues, room: Room) -> Result<Queues, AllocError>
    ensures lists { IfOk result (λ roomy. roomy.lists ≡ queues.lists) }
    ensures touched { IfOk result (λ roomy. roomy.touched ≡ queues.touched) }
    ensures left { IfOk result (λ roomy. HasRoomFor roomy room.threads) }
    ensures objects { IfOk result (λ roomy. room.objects ≤ roomy.object_room) }
{
    let mut roomy = queues;
    roomy.reserve(room.threads)?;
    roomy.reserve_objects(room.objects)?;
    Ok(roomy)
}

/// `count` places, each empty.
pub fn empty_places(alloc: Global, count: usize) -> Result<Vec<Slot>, AllocError>
    ensures empty { IfOk result (λ waits. (u : ℕ) → slot_at waits.items u ≡ None) }
    ensures there { IfOk result (λ waits. count ≤ length waits.items) }
    ensures most { IfOk result (λ waits. length waits.items ≤ count) }
{
    let mut waits = Vec::with_capacity(alloc, count)?;
    add_places(&mut waits, count)?;
    Ok(waits)
}
