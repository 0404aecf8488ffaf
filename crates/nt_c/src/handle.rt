//! What C keeps of a dispatcher.
ghost use Rattle.std.specs.Prelude.{◌≡◌, is_some};

use crate::cell::Cell;
use nt_core::{Call, Reply, WaitMode};
use nt_status::{Handle, Moment, Refusal};

/// A handle in C's hands: a pointer to room for a dispatcher, and whether there is one. C writes neither, so it says that rightly.
#[repr(C)]
#[derive(Drop)]
pub struct Nt {
    pub(crate) cell: Cell,
    pub(crate) live: bool,
    ghost fit: { live ≡ is_some cell.held },
}

impl Nt {
    ghost use Rattle.nt_calls.specs.declared.call.Call.{Call};
    ghost use Rattle.nt_calls.specs.declared.call.WaitCall.{WaitCall};
    ghost use Rattle.nt_c.specs.Asks.{Asked, TickAsked};

    /// Makes the call of this thread.
    #[inline(always)]
    pub(crate) fn ask(&mut self, who: u32, call: &Call) -> Result<Reply, Refusal>
        ensures asked { Asked self.old.cell.held who call.now result self.new.cell.held }
    {
        if !self.live {
            return Err(Refusal::InvalidHandle);
        }
        self.cell.held_mut().call(who, call)
    }

    /// Makes the wait of this thread for any of the objects that these handles name, or for all.
    pub(crate) fn wait(
        &mut self,
        who: u32,
        these: &[Handle],
        all: bool,
        mode: WaitMode,
    ) -> Result<Reply, Refusal>
        ensures asked { Asked self.old.cell.held who (Call.Wait (WaitCall.Objects all mode these.now))
            result self.new.cell.held }
    {
        if !self.live {
            return Err(Refusal::InvalidHandle);
        }
        self.cell.held_mut().wait_objects(who, these, all, mode)
    }

    /// Lets the moments up to `m` pass.
    pub(crate) fn pass(&mut self, m: Moment) -> Result<Reply, Refusal>
        ensures asked { TickAsked self.old.cell.held m result self.new.cell.held }
    {
        if !self.live {
            return Err(Refusal::InvalidHandle);
        }
        self.cell.held_mut().tick(m)
    }
}
