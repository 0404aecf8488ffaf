//! What a call tells C: its reply, and the waits that it ended.
ghost use Rattle.std.specs.Prelude.{◌≡◌, pos, false};
ghost use Rattle.nt_c.specs.Asks.{Keeps, ReadsGrant, error_of, reply_after, reply_in};

use crate::handle::Nt;
use crate::numbers::{INVALID_HANDLE, NO_MORE};
use nt_core::Reply;
use nt_status::Refusal;

/// A reply in numbers. The kind is 0 for done, 1 for a handle, 2 for a semaphore's count before, 3 for the status of a wait
/// that ended, 4 for a wait that pends, 5 for an APC, 6 for no APC; fields that a kind does not name are 0.
#[repr(C)]
#[derive(Clone, Copy, PartialEq, Eq, Debug)]
pub struct NtReply {
    pub kind: u32,
    /// The handle, or the status.
    pub number: u32,
    /// The semaphore's count before it was released.
    pub previous: i32,
    /// Whether a timer queued the APC.
    pub timed: bool,
    pub routine: u64,
    pub arg: u64,
    /// The moment at which that timer was due, in units of 100 ns.
    pub at: u64,
}

/// A reply that tells a number, or none.
fn plain(kind: u32, number: u32) -> NtReply
    ensures { result
        ≡ record { kind = kind; number = number; previous = pos 0; timed = false; routine = 0; arg = 0; at = 0 } }
{
    NtReply {
        kind,
        number,
        previous: 0,
        timed: false,
        routine: 0,
        arg: 0,
        at: 0,
    }
}

/// The reply in numbers.
fn in_numbers(reply: &Reply) -> NtReply
    ensures { result ≡ reply_in reply.now }
{
    match *reply {
        Reply::Done => plain(0, 0),
        Reply::Handle(handle) => plain(1, handle.get()),
        Reply::Previous(count) => {
            let mut out = plain(2, 0);
            out.previous = count;
            out
        }
        Reply::Status(status) => plain(3, status.code()),
        Reply::Pended => plain(4, 0),
        Reply::Apc(None) => plain(6, 0),
        Reply::Apc(Some(apc)) => {
            let mut out = plain(5, 0);
            out.routine = apc.routine;
            out.arg = apc.arg;
            if let Some(moment) = apc.at.get() {
                out.timed = true;
                out.at = moment.get();
            }
            out
        }
    }
}

/// Tells C a result: 0 and the reply, or the number of the refusal.
pub(crate) fn tell(asked: Result<Reply, Refusal>, out: &mut NtReply) -> u32
    ensures number { result ≡ error_of asked }
    ensures reply { out.new ≡ reply_after out.old asked }
{
    match asked {
        Ok(reply) => {
            *out = in_numbers(&reply);
            0
        }
        Err(refusal) => refusal.number(),
    }
}

/// A wait that ended: its thread and its status.
#[repr(C)]
#[derive(Clone, Copy, PartialEq, Eq, Debug)]
pub struct NtGrant {
    pub thread: u32,
    pub status: u32,
}

/// The wait at this index among those that the last call or tick ended, in the order in which they ended.
///
/// Refused with 6 where the handle has no dispatcher, and with 259 past the last.
#[unsafe(no_mangle)]
pub extern "C" fn nt_grant(nt: &mut Nt, index: usize, out: &mut NtGrant) -> u32
    ensures same { Keeps nt.old nt.new }
    ensures reads { ReadsGrant index nt.old result out.old out.new }
{
    if !nt.live {
        return INVALID_HANDLE;
    }
    let Some(grant) = nt.cell.held_mut().core().grants().get(index) else {
        return NO_MORE;
    };
    out.thread = u32::from(grant.thread.get());
    out.status = grant.status.code();
    0
}
