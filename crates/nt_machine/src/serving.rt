//! The serving of pending waits: after objects changed, the waits that they satisfy end, in the order in which they began.
ghost use Rattle.std.specs.Prelude.{◌≡◌, ◌+◌, ◌≤◌, ◌<◌, ◌^◌, [], ◌∷◌, length, slice_get, IsTrue, Some};
ghost use Rattle.std.specs.Option.{option_map};
ghost use Rattle.std.specs.FinMap as fin;
ghost use Rattle.std.specs.List.{Contains};
ghost use Rattle.nt_waits.specs.Waits.{next_after, only_of};
ghost use Rattle.nt_calls.specs.State.{pends};
ghost use Rattle.nt_marks.specs.Marks.{marked_places, NoneMarked};
ghost use Rattle.nt_machine.specs.Dispatcher.{state, with_marked};
ghost use Rattle.nt_calls.specs.Serving.{sequence, Serve};
ghost use Rattle.nt_machine.specs.Visits.{Visits, FitOnlyBy, FitOnlyIn, HasVisited, HasServed, uncounted};
ghost use Rattle.nt_machine.specs.Lawful.{IsMachineSound};

use crate::living::let_go;
use crate::machine::Machine;
use crate::standing::Standing;
use nt_calls::{Grant, is_ready, try_again, try_wait};
use nt_status::{ObjectNumber, ThreadId};

impl Machine {
    /// Tests the pending wait of this thread, whatever it names, and ends it where it fits.
    #[inline(never)]
    fn visit_any(&mut self, thread: ThreadId)
        requires pends { IsTrue (pends (state self.old) thread) }
        requires sound { IsMachineSound self.old }
        requires countable { self.old.table.looked + 1 < 2 ^ 64 }
        ensures { HasVisited self.old self.new thread }
    {
        let Some(wait) = self.waits.get(thread) else {
            unreachable!()
        };
        let objects = wait.objects.as_slice();
        let Some(status) = try_again(
            &mut self.objects,
            &mut self.failed,
            thread,
            objects,
            wait.all,
        ) else {
            return;
        };
        let_go(&self.handles, &mut self.leaving, objects);
        self.waits.end_in_place(thread);
        let number = thread.get() as usize;
        self.handing[number] = false;
        self.standings[number] = Standing::Free;
        self.grants.push_reserved(Grant { thread, status });
    }

    /// Tests the pending wait of this thread, which is for this object alone, as most are, and was looked at already. Ends it where it
    /// fits. Answers whose wait on the object began next.
    #[inline(always)]
    fn visit_one(&mut self, thread: ThreadId, object: ObjectNumber, all: bool) -> Option<ThreadId>
        requires only { option_map only_of (fin.get self.old.table.pending thread) ≡ Some (Some (object, all)) }
        requires sound { IsMachineSound self.old }
        requires counted { (0 < self.old.table.looked) × (self.old.table.looked < 2 ^ 64) }
        ensures visited { HasVisited (uncounted self.old) self.new thread }
        ensures next { result ≡ next_after thread ((state self.old).queues object) }
    {
        let Some(status) = try_wait(&mut self.objects, thread, &[object], all) else {
            return self.waits.next_on(object, thread);
        };
        let_go(&self.handles, &mut self.leaving, &[object]);
        let next = self.waits.end_one(thread, object);
        let place = thread.get() as usize;
        self.handing[place] = false;
        self.standings[place] = Standing::Free;
        self.grants.push_reserved(Grant { thread, status });
        next
    }

    /// Tests the pending wait of this thread, which stands in the queue of this object, and ends it where it fits. Answers whose wait
    /// on the object began next.
    #[inline(always)]
    fn visit(&mut self, thread: ThreadId, object: ObjectNumber) -> Option<ThreadId>
        requires waits { Contains ((state self.old).queues object) thread }
        requires sound { IsMachineSound self.old }
        requires countable { self.old.table.looked + 1 < 2 ^ 64 }
        ensures visited { HasVisited self.old self.new thread }
        ensures next { result ≡ next_after thread ((state self.old).queues object) }
    {
        if let Some((_, all)) = self.waits.look(thread) {
            return self.visit_one(thread, object, all);
        }
        let next = self.waits.next_on(object, thread);
        self.visit_any(thread);
        next
    }

    /// Visits the waits on this object, in the order in which they began.
    fn serve_on(&mut self, object: ObjectNumber)
        requires sound { IsMachineSound self.old }
        requires countable { self.old.table.looked + length ((state self.old).queues object) < 2 ^ 64 }
        ensures { HasServed ((state self.old).queues object) self.old self.new }
    {
        let mut at = self.waits.first_on(object);
        while let Some(thread) = at {
            at = self.visit(thread, object);
        }
    }

    /// Visits the waits on the objects that are marked as changed, object by object from the lowest number on, and takes the marks
    /// away.
    pub fn serve_marked(&mut self)
        requires sound { IsMachineSound self.old }
        requires countable { self.old.table.looked
            + length (sequence (state self.old) (marked_places self.old.marked.changed)) < 2 ^ 64 }
        ensures visits { Visits (sequence (state self.old) (marked_places self.old.marked.changed))
            (with_marked self.old self.new.marked) self.new }
        ensures served { NoneMarked self.new.marked.changed }
        ensures alerted { self.new.marked.alerted ≡ self.old.marked.alerted }
        ensures sound { IsMachineSound self.new }
    {
        while let Some(place) = self.changed.take_first() {
            self.serve_on(ObjectNumber::new(place as u32));
        }
    }

    /// Visits the waits on this object, the first of which is this thread's, in the order in which they began, until its object is
    /// signaled for none that is left. The caller knows that a wait that fits needs this object.
    #[inline(never)]
    fn serve_one_slow(&mut self, object: ObjectNumber, first: ThreadId)
        requires sound { IsMachineSound self.old }
        requires first { slice_get ((state self.old).queues object) 0 ≡ Some first }
        requires needed { FitOnlyBy object (state self.old) }
        requires countable { self.old.table.looked + length ((state self.old).queues object) < 2 ^ 64 }
        ensures { HasServed ((state self.old).queues object) self.old self.new }
    {
        let mut next = Some(first);
        while let Some(thread) = next {
            next = self.visit(thread, object);
            if let Some(after) = next {
                if !is_ready(self.objects.as_slice(), after, object) {
                    return;
                }
            }
        }
    }

    /// Grants what fits after the object at this object alone changed: mostly no wait is on it. The caller knows that a wait that
    /// fits names it, and needs it.
    pub(crate) fn serve_one(&mut self, object: ObjectNumber)
        requires sound { IsMachineSound self.old }
        requires local { FitOnlyIn (sequence (state self.old) (object ∷ [])) (state self.old) }
        requires needed { FitOnlyBy object (state self.old) }
        requires untold { (self.old.grants ≡ []) × (self.old.table.looked ≡ 0) }
        ensures served { Serve (sequence (state self.old) (object ∷ [])) (state self.old) self.new.grants
            (state self.new) }
        ensures marked { self.new.marked ≡ self.old.marked }
        ensures sound { IsMachineSound self.new }
        ensures tested { (length self.new.grants ≤ self.new.table.looked)
            × (self.new.table.looked ≤ length (sequence (state self.old) (object ∷ []))) }
    {
        if let Some(first) = self.waits.first_on(object) {
            self.serve_one_slow(object, first);
        }
    }
}
