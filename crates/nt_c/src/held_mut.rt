//! What a cell has, to be changed where it lies.
ghost use Rattle.std.specs.Prelude.{◌≡◌, Some, IsTrue, is_some};
ghost use Rattle.std.specs.Borrow.{sem, follows};
ghost use Rattle.nt_sleepers.specs.contracts.sleepers.Sleepers.{the_row as sleepers_row};
ghost use Rattle.nt_c.specs.contracts.cell.Cell.{the_row};

use crate::cell::Cell;
use nt_sleepers::Sleepers;

impl Cell {
    /// The dispatcher. When the borrow ends, the cell has what became of it.
    pub fn held_mut(&mut self) -> &mut Sleepers
        requires { IsTrue (is_some self.old.held) }
        ensures* writes_back { sem 𝓛 (follows the_row sleepers_row self.entry.ghost_name result.ghost_name
            (λ s. record self.old { held = Some s })) }
        ensures value { self.old.held ≡ Some result.now }
    {
        let at = self.at as *mut Sleepers;
        unsafe { &mut *at }
    }
}
