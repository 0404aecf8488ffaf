//! A door in memory, to whatever answers.
ghost use Rattle.std.specs.Prelude.{◌≡◌, ◌++◌, ◌∷◌, [], OnOk};

use nt_core::{Act, Call, Reply, WaitCall};
use nt_status::{Refusal, ThreadId};
use nt_threads::Door;
use std::alloc::{AllocError, Global};
use std::sync::Wait;

/// What answers the calls of a door.
pub trait Answering: Drop {
    fn answer<R: Wait>(&mut self, rt: &R, who: ThreadId, call: &Call) -> Result<Reply, Refusal>;
}

/// A door, which keeps the calls that it made.
#[derive(Drop)]
pub struct MemoryDoor<A: Answering> {
    pub thread: ThreadId,
    pub made: Vec<Call>,
    pub answering: A,
}

impl<A: Answering> MemoryDoor<A> {
    /// A door of this thread, with room for `calls` calls.
    pub fn new(
        alloc: Global,
        thread: u16,
        calls: usize,
        answering: A,
    ) -> Result<MemoryDoor<A>, AllocError> {
        Ok(MemoryDoor {
            thread: ThreadId::new(thread),
            made: Vec::with_capacity(alloc, calls)?,
            answering,
        })
    }

    /// Makes the call, and keeps it where it was not refused.
    fn make<R: Wait>(&mut self, rt: &R, call: Call) -> Result<Reply, Refusal>
        ensures thread { self.new.thread ≡ self.old.thread }
        ensures made { OnOk result (self.new.made.items ≡ self.old.made.items ++ call ∷ []) }
    {
        self.made.reserve(1)?;
        let reply = self.answering.answer(rt, self.thread, &call)?;
        self.made.push_reserved(call);
        Ok(reply)
    }
}

impl<A: Answering> Door for MemoryDoor<A> {
    ghost thread_of = { λ d. d.thread };

    ghost made_of = { λ d. d.made.items };

    fn thread(&self) -> ThreadId {
        self.thread
    }

    fn act<R: Wait>(&mut self, rt: &R, act: Act) -> Result<Reply, Refusal> {
        self.make(rt, Call::Act(act))
    }

    fn wait<R: Wait>(&mut self, rt: &R, wait: WaitCall) -> Result<Reply, Refusal> {
        self.make(rt, Call::Wait(wait))
    }

    fn exit<R: Wait>(&mut self, rt: &R) -> Result<Reply, Refusal> {
        self.make(rt, Call::Exit)
    }
}
