//! The place in C's memory where a dispatcher lies.
ghost use Rattle.std.specs.Prelude.{◌≡◌, Option, None, Some, IsTrue, is_some};
ghost use Rattle.std.specs.Coded.{coded_option};
ghost use Rattle.nt_sleepers.specs.Sleepers.{Sleeping};
ghost use Rattle.nt_sleepers.specs.contracts.sleepers.Sleepers.{the_row as sleepers_row};

use nt_sleepers::Sleepers;
use std::marker::Model;

/// A pointer to room for one dispatcher, which is there or not. (C sees no type of ours but numbers, so it points to bytes.)
#[repr(C)]
#[derive(Drop)]
pub struct Cell {
    pub(crate) at: *mut u8,
    pub ghost held: { Option Sleeping } by { coded_option sleepers_row.coded },
}

impl Model for Cell {
    ghost use Rattle.nt_c.specs.Cell.{cell_owns};

    ghost also_owns = { λ c. cell_owns c.at c.held };
}

impl Cell {
    /// Puts a dispatcher where there is none.
    pub fn put(&mut self, sleepers: Sleepers)
        requires { self.old.held ≡ None }
        ensures { self.new.held ≡ Some sleepers }
    {
        let at = self.at as *mut Sleepers;
        unsafe {
            at.write(sleepers);
        }
    }

    /// Takes the dispatcher out.
    pub fn take(&mut self) -> Sleepers
        requires { IsTrue (is_some self.old.held) }
        ensures taken { self.old.held ≡ Some result }
        ensures empty { self.new.held ≡ None }
    {
        let at = self.at as *mut Sleepers;
        unsafe { at.read() }
    }
}

unsafe impl Send for Cell {}
