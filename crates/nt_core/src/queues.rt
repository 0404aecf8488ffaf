//! What stands in order: the threads that wait on an object, the APCs of a thread, and the handles.
ghost use Rattle.std.specs.Prelude.{◌≡◌, length, slice_get, slice_index_or, false};
ghost use Rattle.std.specs.List.{Contains};
ghost use Rattle.nt_waits.specs.Waits.{next_after};
ghost use Rattle.nt_apc.specs.Queues.{apc_queue_of};
ghost use Rattle.nt_machine.specs.Dispatcher.{state};

use crate::dispatcher::Core;
use nt_apc::Queued;
use nt_status::{ObjectNumber, ThreadId};

impl Core {
    /// The thread whose wait on the object with this number began first; none where nobody waits on it.
    pub fn first_on(&self, object: ObjectNumber) -> Option<ThreadId>
        ensures { result ≡ slice_get ((state self.now).queues object) 0 }
    {
        self.machine.waits.first_on(object)
    }

    /// The thread whose wait on the object began next after this thread's; none where this one's is the last.
    pub fn next_on(&self, object: ObjectNumber, thread: ThreadId) -> Option<ThreadId>
        requires { Contains ((state self.now).queues object) thread }
        ensures { result ≡ next_after thread ((state self.now).queues object) }
    {
        self.machine.waits.next_on(object, thread)
    }

    /// The APC at this place of the thread's queue, the oldest at 0; none past the last.
    pub fn apc_at(&self, thread: u32, place: usize) -> Option<Queued>
        ensures { result ≡ slice_get (apc_queue_of (state self.now).apcs thread) place }
    {
        if self.machine.threads <= thread {
            return None;
        }
        self.machine.apcs.at(ThreadId::new(thread as u16), place)
    }

    /// Whether the thread may take its APCs one by one, as after a wait that an APC ended.
    pub fn is_handing(&self, thread: u32) -> bool
        ensures { result ≡ slice_index_or (state self.now).handing thread false }
    {
        self.machine
            .handing
            .get(thread as usize)
            .copied()
            .unwrap_or(false)
    }

    /// How many handles there are, closed ones among them: their numbers lie below.
    pub fn handles(&self) -> usize
        ensures { result ≡ length (state self.now).handles }
    {
        self.machine.handles.len()
    }
}
