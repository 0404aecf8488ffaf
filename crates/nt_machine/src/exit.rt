//! A thread ends.
ghost use Rattle.std.specs.Prelude.{◌≡◌, ◌≢◌, ◌<◌, ℕ, None, Some, true, length, slice_set};
ghost use Rattle.nt_objects.specs.declared.object.Object.TheVariants.{Thread};
ghost use Rattle.nt_objects.specs.Object.{is_timer, setter_of, armed_with};
ghost use Rattle.nt_marks.specs.Marks.{AddsMarks};
ghost use Rattle.nt_apc.specs.Queues.{cleared};
ghost use Rattle.nt_calls.specs.State.{object_at};
ghost use Rattle.nt_machine.specs.Dispatcher.{Dispatcher, state};
ghost use Rattle.nt_machine.specs.Lawful.{IsMachineSound, IsUnmarked};
ghost use Rattle.nt_machine.specs.Accepts.{IsFresh, IsSetAmong, AreStopped, IsStoppedAfter, IsExitedAfter, Accepts, IsRunning};
ghost use Rattle.nt_calls.specs.declared.call.Call.{Call};
ghost use Rattle.nt_calls.specs.declared.call.Reply.{Reply};

use crate::machine::Machine;
use crate::standing::Standing;
use nt_alarms::Alarms;
use nt_calls::is_set_by;
use nt_marks::Marks;
use nt_status::{ObjectNumber, ThreadId};
use nt_tables::ObjectTable;

/// Stops the timer, and marks it.
fn stop(objects: &mut ObjectTable, alarms: &mut Alarms, changed: &mut Marks, timer: ObjectNumber)
    requires kind { is_timer (object_at objects.old.items timer) ≡ true }
    requires known { timer < length objects.old.items }
    requires clock { timer < length alarms.old }
    requires place { timer < length changed.old }
    ensures objects { objects.new.items
        ≡ slice_set objects.old.items timer (armed_with None (object_at objects.old.items timer)) }
    ensures owned { objects.new.owned ≡ objects.old.owned }
    ensures alarms { alarms.new ≡ slice_set alarms.old timer None }
    ensures changed { changed.new ≡ slice_set changed.old timer true }
{
    let place = timer.get() as usize;
    let mut object = objects.as_slice()[place];
    object.cancel();
    objects.put(timer, object);
    alarms.clear(place);
    changed.set(place);
}

/// Stops those of these timers that the thread armed with a routine, and marks them. All else stays sound.
fn stop_each(
    objects: &mut ObjectTable,
    alarms: &mut Alarms,
    changed: &mut Marks,
    thread: ThreadId,
    timers: &[ObjectNumber],
)
    requires clocks { length alarms.old ≡ length objects.old.items }
    requires places { length changed.old ≡ length objects.old.items }
    ensures stopped { AreStopped (IsSetAmong timers.now objects.old.items thread) objects.old.items objects.new.items }
    ensures marked { AddsMarks (IsSetAmong timers.now objects.old.items thread) changed.old changed.new }
    ensures owned { objects.new.owned ≡ objects.old.owned }
    ensures sound { (d : Dispatcher) → IsMachineSound (record d { objects = objects.old.items; alarms = alarms.old })
        → IsMachineSound (record d { objects = objects.new.items; alarms = alarms.new }) }
{
    for timer in timers {
        if is_set_by(objects.as_slice(), thread, *timer) {
            stop(objects, alarms, changed, *timer);
        }
    }
}

impl Machine {
    /// Stops each timer that the thread armed with a routine, and marks it: the waits on it are to be served.
    fn stop_all(&mut self, thread: ThreadId)
        requires sound { IsMachineSound self.old }
        requires known { thread < self.old.threads }
        ensures stopped { IsStoppedAfter self.old thread self.new }
        ensures sound { IsMachineSound self.new }
    {
        let timers = self.apcs.timers_of(thread);
        stop_each(
            &mut self.objects,
            &mut self.alarms,
            &mut self.changed,
            thread,
            timers,
        );
    }

    /// The thread's own object says from now on that it has ended, and is marked; its APCs are gone, with all places in its queue.
    fn end_own(&mut self, thread: ThreadId)
        requires sound { IsMachineSound self.old }
        requires running { IsRunning self.old thread }
        requires unset { (h : ℕ) → setter_of (object_at self.old.objects h) ≢ Some thread }
        ensures ended { state self.new ≡ record (state self.old)
            { objects = slice_set self.old.objects thread (Thread true); apcs = cleared self.old.apcs.queues thread } }
        ensures sound { IsMachineSound self.new }
        ensures grants { self.new.grants ≡ self.old.grants }
        ensures table { self.new.table ≡ self.old.table }
        ensures marked { self.new.marked
            ≡ record self.old.marked { changed = slice_set self.old.marked.changed thread true } }
    {
        let own = ObjectNumber::new(thread.get() as u32);
        let mut object = self.object(own);
        object.end();
        self.exchange(own, object);
        self.apcs.clear(thread);
        self.mark(own);
        let place = thread.get() as usize;
        self.changed.set(place);
        self.standings[place] = Standing::Ended;
    }

    /// The thread ends, and the objects that this changes are marked.
    fn leave(&mut self, thread: ThreadId)
        requires sound { IsMachineSound self.old }
        requires unmarked { IsUnmarked self.old.marked }
        requires running { IsRunning self.old thread }
        ensures left { IsExitedAfter self.old thread self.new }
        ensures sound { IsMachineSound self.new }
    {
        self.objects.abandon_all(thread, &mut self.changed);
        self.stop_all(thread);
        self.end_own(thread);
    }

    /// The thread ends: the mutexes that it owns are free and abandoned, the timers that it armed with a routine stop, its APCs are
    /// gone, its object is signaled, and the waits that name what changed are served.
    #[inline(never)]
    pub(crate) fn exit(&mut self, thread: ThreadId)
        requires fresh { IsFresh self.old }
        requires running { IsRunning self.old thread }
        ensures { Accepts self.old self.new thread Call.Exit Reply.Done }
    {
        self.leave(thread);
        self.serve_marked();
    }
}
