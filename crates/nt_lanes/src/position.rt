//! How far each lane is, and the dispatcher.
ghost use Rattle.std.specs.Prelude.{◌≡◌, ◌↔◌, true, length, IfOk};
ghost use Rattle.nt_machine.specs.Dispatcher.{state};
ghost use Rattle.nt_lanes.specs.Lanes.{start_of, point_at, point_of};

use crate::plan::Plan;
use nt_core::Core;
use std::alloc::{AllocError, Global};

/// How far each lane is, and the dispatcher.
#[derive(Drop)]
pub struct Position {
    pub core: Core,
    pub places: Vec<usize>,
}

/// A copy of the dispatcher, with these places.
fn position_of(core: &Core, places: Vec<usize>) -> Result<Position, AllocError>
    ensures point { IfOk result (λ position. point_of position ≡ point_at places.items core.now) }
    ensures wide { IfOk result (λ position. length position.places.items ≡ length places.items) }
{
    let Ok(core) = core.copy() else {
        return Err(AllocError);
    };
    Ok(Position { core, places })
}

/// A copy of the start.
pub fn at_start(alloc: Global, start: &Core, plan: &Plan) -> Result<Position, AllocError>
    ensures { IfOk result (λ position. point_of position ≡ start_of plan.now start.now) }
{
    let places = Vec::from_elem(alloc, 0, plan.lanes())?;
    position_of(start, places)
}

/// The same position, in memory of its own.
pub fn copy_of(alloc: Global, position: &Position) -> Result<Position, AllocError>
    ensures point { IfOk result (λ copied. point_of copied ≡ point_of position.now) }
    ensures wide { IfOk result (λ copied. length copied.places.items ≡ length position.now.places.items) }
{
    let places = Vec::from_slice(alloc, &position.places)?;
    position_of(&position.core, places)
}

/// Whether both are the same position in equal states.
pub fn is_like(a: &Position, b: &Position) -> bool
    ensures { (result ≡ true) ↔ (point_of a.now ≡ point_of b.now) }
{
    if a.places != b.places {
        return false;
    }
    a.core.is_like(&b.core)
}
