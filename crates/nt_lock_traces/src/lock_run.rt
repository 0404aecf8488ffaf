//! A run of the lock that favours a thread, one event at a time.

ghost use Rattle.std.specs.Prelude.{◌≡◌, ◌∷◌, [], ◌≢◌, ◌<◌, ◌≤◌, ◌↔◌, ℕ, IsTrue, IsFalse, IfOk, OnOk, length, get_or, true, false};
ghost use Rattle.nt_protocols.specs.Lock as Lock;
ghost use Rattle.nt_protocols.specs.Threads.{put};
ghost use Rattle.nt_lock_traces.specs.LockMoves as Moves;
ghost use Rattle.nt_lock_traces.specs.LockTrace.{arrives, frame_of, outside, state_of, seat_of, place_of, lock_of, under_of, Becomes, Reads, Holds};

use crate::lock::{Buffer, Frame, LockPlace, LockWord, OUTSIDE, Seat, frame_place};
use crate::lock_test::LockTest;

/// The lock and its threads, as the events that were read have led to them.
#[derive(Debug, Drop)]
pub struct LockRun {
    pub(crate) lock: LockWord,
    pub(crate) seats: Vec<Seat>,
}

impl LockRun {
    /// What there is of thread t.
    fn seat(&self, t: usize) -> Seat
        ensures { result ≡ get_or self.now.seats.items t outside }
    {
        match self.seats.get(t) {
            Some(seat) => *seat,
            None => OUTSIDE,
        }
    }

    fn is_at(&self, t: usize, place: LockPlace) -> bool
        ensures { IsTrue result ↔ Lock.IsAt (state_of self.now) t (place_of place) }
    {
        self.seat(t).place == place
    }

    fn holds(&self, test: LockTest) -> bool
        ensures { IsTrue result ↔ Holds (state_of self.now) test }
    {
        match test {
            LockTest::Is(lock) => self.lock == lock,
            LockTest::IsNot(lock) => self.lock != lock,
            LockTest::IsHeld => matches!(self.lock, LockWord::Taken | LockWord::Wanted),
        }
    }

    /// The plain stores of thread t have arrived.
    fn is_drained(&self, t: usize) -> bool
        ensures { IsTrue result ↔ Lock.IsDrained (state_of self.now) t }
    {
        self.seat(t).buffer == Buffer::Empty
    }

    /// No thread is at this place.
    fn nobody_is_at(&self, place: LockPlace) -> bool
        requires { place_of place ≢ Lock.Place.Out }
        ensures none { IsTrue result → (u : ℕ) → Lock.place_of (state_of self.now) u ≢ place_of place }
        ensures some { IsFalse result → (u : ℕ) × (Lock.place_of (state_of self.now) u ≡ place_of place) }
    {
        for seat in &self.seats {
            if seat.place == place {
                return false;
            }
        }
        true
    }

    /// Thread t is so from now on.
    fn set(&mut self, t: usize, seat: Seat)
        requires { t < length self.old.seats.items }
        ensures seats { (state_of self.new).seats ≡ put (state_of self.old).seats t (seat_of seat) }
        ensures lock { self.new.lock ≡ self.old.lock }
        ensures len { length self.new.seats.items ≡ length self.old.seats.items }
    {
        self.seats[t] = seat;
    }

    fn goes(&mut self, t: usize, place: LockPlace)
        requires { t < length self.old.seats.items }
        ensures { Becomes self.old (Lock.goes (state_of self.old) t (place_of place)) self.new }
    {
        let seat = self.seats[t];
        self.set(t, Seat { place, ..seat });
    }

    fn makes(&mut self, t: usize, lock: LockWord, place: LockPlace)
        requires { t < length self.old.seats.items }
        ensures { Becomes self.old (Lock.makes (state_of self.old) t (lock_of lock) (place_of place)) self.new }
    {
        self.lock = lock;
        self.goes(t, place);
    }

    fn stores(&mut self, t: usize, inside: bool, place: LockPlace)
        requires { t < length self.old.seats.items }
        ensures { Becomes self.old (Lock.stores (state_of self.old) t inside (place_of place)) self.new }
    {
        let seat = self.seats[t];
        self.set(
            t,
            Seat {
                place,
                buffer: Buffer::Holds(inside),
                ..seat
            },
        );
    }

    fn clears(&mut self, t: usize)
        requires { t < length self.old.seats.items }
        ensures { Becomes self.old (Lock.clears (state_of self.old) t) self.new }
    {
        let seat = self.seats[t];
        self.set(
            t,
            Seat {
                place: LockPlace::ToReload,
                inside: false,
                ..seat
            },
        );
    }

    fn arrives(&mut self, t: usize, inside: bool)
        requires { t < length self.old.seats.items }
        ensures { Becomes self.old (arrives (state_of self.old) t inside) self.new }
    {
        let seat = self.seats[t];
        self.set(
            t,
            Seat {
                inside,
                buffer: Buffer::Empty,
                ..seat
            },
        );
    }

    fn wakes(&mut self, t: usize, u: usize, then: LockPlace, to: LockPlace)
        requires t { t < length self.old.seats.items }
        requires u { u < length self.old.seats.items }
        ensures { Becomes self.old (Lock.wakes (state_of self.old) t u (place_of then) (place_of to)) self.new }
    {
        self.goes(u, then);
        self.goes(t, to);
    }

    /// Its handler begins or ends: it is there, and has interrupted this.
    fn frames(&mut self, t: usize, place: LockPlace, under: Option<Frame>)
        requires { t < length self.old.seats.items }
        ensures { Becomes self.old (Lock.frames (state_of self.old) t (place_of place) (under_of under)) self.new }
    {
        let seat = self.seats[t];
        self.set(
            t,
            Seat {
                place,
                under,
                ..seat
            },
        );
    }

    /// Where a thread is that has given the lock back.
    fn given(&self) -> LockPlace
        ensures { place_of result ≡ Lock.given (state_of self.now).lock }
    {
        if self.lock == LockWord::Wanted {
            LockPlace::ToWake
        } else {
            LockPlace::Out
        }
    }

    /// From one place to another.
    pub(crate) fn walk(&mut self, t: usize, from: LockPlace, to: LockPlace) -> bool
        requires { t < length self.old.seats.items }
        ensures { Reads self.old (Moves.walk (state_of self.old) t from to) self.new result }
    {
        let comes = self.is_at(t, from);
        if comes {
            self.goes(t, to);
        }
        comes
    }

    /// From one place to another, where the lock passes this test.
    pub(crate) fn walk_if(
        &mut self,
        t: usize,
        from: LockPlace,
        test: LockTest,
        to: LockPlace,
    ) -> bool
        requires { t < length self.old.seats.items }
        ensures { Reads self.old (Moves.walk_if (state_of self.old) t from test to) self.new result }
    {
        let comes = self.is_at(t, from) && self.holds(test);
        if comes {
            self.goes(t, to);
        }
        comes
    }

    /// From one place to another, where the lock passes this test and the thread's plain stores have arrived.
    pub(crate) fn miss(&mut self, t: usize, from: LockPlace, test: LockTest, to: LockPlace) -> bool
        requires { t < length self.old.seats.items }
        ensures { Reads self.old (Moves.miss (state_of self.old) t from test to) self.new result }
    {
        let comes = self.is_at(t, from) && self.is_drained(t) && self.holds(test);
        if comes {
            self.goes(t, to);
        }
        comes
    }

    /// Makes the lock so, which was so.
    pub(crate) fn make(
        &mut self,
        t: usize,
        from: LockPlace,
        test: LockTest,
        lock: LockWord,
        to: LockPlace,
    ) -> bool
        requires { t < length self.old.seats.items }
        ensures { Reads self.old (Moves.make (state_of self.old) t from test lock to) self.new result }
    {
        let comes = self.is_at(t, from) && self.is_drained(t) && self.holds(test);
        if comes {
            self.makes(t, lock, to);
        }
        comes
    }

    /// Makes the lock so, and wakes one if it was wanted.
    pub(crate) fn give(&mut self, t: usize, from: LockPlace, lock: LockWord) -> bool
        requires { t < length self.old.seats.items }
        ensures { Reads self.old (Moves.give (state_of self.old) t from lock) self.new result }
    {
        let comes = self.is_at(t, from) && self.is_drained(t);
        if comes {
            let to = self.given();
            self.makes(t, lock, to);
        }
        comes
    }

    /// Stores to `inside` by a plain store.
    pub(crate) fn store(&mut self, t: usize, from: LockPlace, inside: bool, to: LockPlace) -> bool
        requires { t < length self.old.seats.items }
        ensures { Reads self.old (Moves.store (state_of self.old) t from inside to) self.new result }
    {
        let comes = self.is_at(t, from) && self.is_drained(t);
        if comes {
            self.stores(t, inside, to);
        }
        comes
    }

    /// Clears `inside` by an exchange.
    pub(crate) fn clear(&mut self, t: usize, from: LockPlace) -> bool
        requires { t < length self.old.seats.items }
        ensures { Reads self.old (Moves.clear (state_of self.old) t from) self.new result }
    {
        let comes = self.is_at(t, from) && self.is_drained(t);
        if comes {
            self.clears(t);
        }
        comes
    }

    /// Looks at the `inside` of n, which is so.
    pub(crate) fn look(
        &mut self,
        t: usize,
        from: LockPlace,
        n: usize,
        inside: bool,
        to: LockPlace,
    ) -> bool
        requires t { t < length self.old.seats.items }
        requires n { n < length self.old.seats.items }
        ensures { Reads self.old (Moves.look (state_of self.old) t from n inside to) self.new result }
    {
        let comes = self.is_at(t, from) && self.seats[n].inside == inside;
        if comes {
            self.goes(t, to);
        }
        comes
    }

    /// Has n pass a barrier.
    pub(crate) fn pass(&mut self, t: usize, n: usize, once: bool) -> bool
        requires t { t < length self.old.seats.items }
        requires n { n < length self.old.seats.items }
        ensures { Reads self.old (Moves.pass (state_of self.old) t n once) self.new result }
    {
        let comes = self.is_at(t, LockPlace::ToBar(n, once)) && self.is_drained(n);
        if comes {
            self.goes(t, LockPlace::ToLook(n, once));
        }
        comes
    }

    /// Wakes u.
    pub(crate) fn wake(
        &mut self,
        t: usize,
        from: LockPlace,
        u: usize,
        asleep: LockPlace,
        then: LockPlace,
        to: LockPlace,
    ) -> bool
        requires t { t < length self.old.seats.items }
        requires u { u < length self.old.seats.items }
        ensures { Reads self.old (Moves.wake (state_of self.old) t from u asleep then to) self.new result }
    {
        let comes = self.is_at(t, from) && self.is_at(u, asleep);
        if comes {
            self.wakes(t, u, then, to);
        }
        comes
    }

    /// Finds nobody to wake.
    pub(crate) fn wake_nobody(
        &mut self,
        t: usize,
        from: LockPlace,
        asleep: LockPlace,
        to: LockPlace,
    ) -> bool
        requires t { t < length self.old.seats.items }
        requires asleep { place_of asleep ≢ Lock.Place.Out }
        ensures { Reads self.old (Moves.wake_nobody (state_of self.old) t from asleep to) self.new result }
    {
        let comes = self.is_at(t, from) && self.nobody_is_at(asleep);
        if comes {
            self.goes(t, to);
        }
        comes
    }

    /// The plain store arrives.
    pub(crate) fn arrive(&mut self, t: usize, inside: bool) -> bool
        requires { t < length self.old.seats.items }
        ensures { Reads self.old (Moves.arrive (state_of self.old) t inside) self.new result }
    {
        let comes = self.seats[t].buffer == Buffer::Holds(inside);
        if comes {
            self.arrives(t, inside);
        }
        comes
    }

    /// A handler has interrupted thread t.
    pub(crate) fn is_handling(&self, t: usize) -> bool
        ensures { IsFalse result ↔ (((state_of self.now).seats t).under ≡ []) }
    {
        self.seat(t).under.is_some()
    }

    /// A handler has interrupted thread t where it was so.
    fn is_under(&self, t: usize, frame: Frame) -> bool
        ensures { IsTrue result ↔ (((state_of self.now).seats t).under ≡ frame_of frame ∷ []) }
    {
        self.seat(t).under == Some(frame)
    }

    /// A handler begins.
    pub(crate) fn interrupt(&mut self, t: usize, frame: Frame) -> bool
        requires t { t < length self.old.seats.items }
        requires room { ((state_of self.old).seats t).under ≡ [] }
        ensures { Reads self.old (Lock.step (state_of self.old) (Lock.Event.Interrupts t (frame_of frame))) self.new result }
    {
        let comes = self.is_at(t, frame_place(frame));
        if comes {
            self.frames(t, LockPlace::Out, Some(frame));
        }
        comes
    }

    /// It ends.
    pub(crate) fn resume(&mut self, t: usize, frame: Frame) -> bool
        requires { t < length self.old.seats.items }
        ensures { Reads self.old (Lock.step (state_of self.old) (Lock.Event.Resumes t (frame_of frame) [])) self.new result }
    {
        let comes = self.is_at(t, LockPlace::Out) && self.is_under(t, frame);
        if comes {
            self.frames(t, frame_place(frame), None);
        }
        comes
    }
}
