//! A dispatcher in memory, and doors to it for threads that run.
use crate::threads::door::Answering;
use nt_core::{Act, Call, Core, Reply};
use nt_status::{Refusal, Status, ThreadId};
use std::alloc::Global;
use std::sync::{Mutex, Wait};
use std::thread;

/// A dispatcher, and for each thread the status of its wait that ended.
#[derive(Drop)]
struct Desk {
    core: Core,
    ended: Vec<Option<Status>>,
}

impl Desk {
    /// Makes the call, and notes the waits that it ended.
    fn call(&mut self, who: u32, call: &Call) -> Result<Reply, Refusal> {
        let result = self.core.call(who, call);
        for grant in self.core.grants() {
            if let Some(place) = self.ended.get_mut(usize::from(grant.thread.get())) {
                *place = Some(grant.status);
            }
        }
        result
    }

    /// Takes the status of the thread's wait, where it has ended.
    fn take(&mut self, who: usize) -> Option<Status> {
        match self.ended.get_mut(who) {
            Some(place) => place.take(),
            None => None,
        }
    }
}

/// A dispatcher behind a lock.
#[derive(Drop)]
pub struct Hall {
    desk: Mutex<Desk>,
}

impl Hall {
    pub fn new(alloc: Global, threads: u32) -> Result<Hall, Refusal> {
        let core = Core::new(alloc, threads)?;
        let ended = Vec::from_elem(alloc, None, threads as usize)?;
        Ok(Hall {
            desk: Mutex::new(Desk { core, ended }),
        })
    }

    fn call<R: Wait>(&self, rt: &R, who: u32, call: &Call) -> Result<Reply, Refusal> {
        self.desk.lock(rt).call(who, call)
    }

    /// The status of the thread's wait, once it has ended.
    fn wait_for_end<R: Wait>(&self, rt: &R, who: u32) -> Status {
        for _ in rt.forever() {
            if let Some(status) = self.desk.lock(rt).take(who as usize) {
                return status;
            }
            thread::yield_now();
        }
        unreachable!()
    }

    /// Whether the thread has ended.
    pub fn has_ended<R: Wait>(&self, rt: &R, who: u32) -> bool {
        let answer = self.call(rt, who, &Call::Act(Act::NextApc));
        answer == Err(Refusal::ThreadEnded)
    }
}

/// A way to the hall.
#[derive(Drop)]
pub struct ToHall<'h>(pub &'h Hall);

impl<'h> Answering for ToHall<'h> {
    fn answer<R: Wait>(&mut self, rt: &R, who: ThreadId, call: &Call) -> Result<Reply, Refusal> {
        let who = u32::from(who.get());
        let reply = self.0.call(rt, who, call)?;
        if reply == Reply::Pended {
            return Ok(Reply::Status(self.0.wait_for_end(rt, who)));
        }
        Ok(reply)
    }
}
