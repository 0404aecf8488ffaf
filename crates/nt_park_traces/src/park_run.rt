//! A run of parking, one event at a time.

ghost use Rattle.std.specs.Prelude.{◌≡◌, ◌<◌, ◌↔◌, ℕ, IsTrue, IsFalse, length, get_or, true, false};
ghost use Rattle.nt_protocols.specs.Parking as Protocol;
ghost use Rattle.nt_protocols.specs.Threads.{put};
ghost use Rattle.nt_park_traces.specs.declared.park.TheConstants.{MOST_PARKED};
ghost use Rattle.nt_park_traces.specs.ParkMoves.{HasUnparked, NobodyCounts};
ghost use Rattle.nt_park_traces.specs.ParkTrace.{AsIfCounted, Becomes, Makes, outside, place_of, seat_of, standing_of, state_of, uncounted, uncounted_seat};

use crate::park::{ParkPlace, ParkSeat, ParkStanding};

/// The value, the latch and the threads, as the events that were read have led to them.
#[derive(Drop)]
pub struct ParkRun {
    pub(crate) value: usize,
    pub(crate) latch: bool,
    pub(crate) seats: Vec<ParkSeat>,
}

/// Where futex_wait leads a thread whose word says parked, or does not.
fn dozed(parked: bool) -> ParkPlace
    ensures { place_of result ≡ Protocol.dozed parked }
{
    if parked {
        ParkPlace::Asleep
    } else {
        ParkPlace::ToLoad
    }
}

/// Where a thread is that is woken there.
fn woken(place: ParkPlace) -> ParkPlace
    ensures { place_of result ≡ Protocol.woken (place_of place) }
{
    match place {
        ParkPlace::Asleep => ParkPlace::ToLoad,
        place => place,
    }
}

/// The thread, which has read its word.
fn read(seat: ParkSeat) -> ParkSeat
    ensures seat { seat_of result ≡ uncounted_seat (Protocol.read (seat_of seat) seat.parked) }
    ensures owes { result.owes ≡ seat.owes }
{
    let place = if seat.parked {
        ParkPlace::ToSleep
    } else {
        ParkPlace::Out
    };
    ParkSeat { place, ..seat }
}

/// The thread, which has read its word under the latch.
fn read_again(seat: ParkSeat) -> ParkSeat
    ensures seat { seat_of result ≡ uncounted_seat (Protocol.read_again (seat_of seat) seat.parked) }
    ensures owes { result.owes ≡ seat.owes }
{
    if seat.parked {
        ParkSeat {
            place: ParkPlace::GivesToGo,
            parked: false,
            standing: ParkStanding::Absent,
            ..seat
        }
    } else {
        ParkSeat {
            place: ParkPlace::GivesToGo,
            ..seat
        }
    }
}

/// Whether a thread is counted that stands there.
fn is_counted(standing: ParkStanding, place: ParkPlace) -> bool
    ensures { result ≡ Protocol.is_counted (standing_of standing) (place_of place) }
{
    match standing {
        ParkStanding::Listed => true,
        _ => matches!(
            place,
            ParkPlace::TakesToLook | ParkPlace::ToLook | ParkPlace::ToPark
        ),
    }
}

/// No mark is set.
fn none_is_set(marks: &[bool]) -> bool
    ensures none { IsTrue result → (k : ℕ) → get_or marks.now k false ≡ false }
    ensures some { IsFalse result → (k : ℕ) × (get_or marks.now k false ≡ true) }
{
    for mark in marks {
        if *mark {
            return false;
        }
    }
    true
}

impl ParkRun {
    /// What there is of thread t.
    pub(crate) fn seat(&self, t: usize) -> ParkSeat
        requires { t < length self.now.seats.items }
        ensures { result ≡ get_or self.now.seats.items t outside }
    {
        self.seats[t]
    }

    pub(crate) fn is_at(&self, t: usize, place: ParkPlace) -> bool
        requires { t < length self.now.seats.items }
        ensures { IsTrue result ↔ Protocol.IsAt (state_of self.now) t (place_of place) }
    {
        self.seat(t).place == place
    }

    pub(crate) fn stands(&self, t: usize, standing: ParkStanding) -> bool
        requires { t < length self.now.seats.items }
        ensures { IsTrue result ↔ (((state_of self.now).seats t).standing ≡ standing_of standing) }
    {
        self.seat(t).standing == standing
    }

    /// The value is the one that thread t waits at.
    pub(crate) fn is_expected(&self, t: usize) -> bool
        requires { t < length self.now.seats.items }
        ensures { IsTrue result ↔ ((state_of self.now).value ≡ ((state_of self.now).seats t).expected) }
    {
        self.value == self.seat(t).expected
    }

    pub(crate) fn owes(&self, t: usize, u: usize) -> bool
        requires t { t < length self.now.seats.items }
        requires u { u < MOST_PARKED }
        ensures { result ≡ (state_of self.now).owes t u }
    {
        self.seat(t).owes[u]
    }

    /// Thread t owes nobody a wake-up.
    pub(crate) fn owes_nobody(&self, t: usize) -> bool
        requires { t < length self.now.seats.items }
        ensures none { IsTrue result → (u : ℕ) → (state_of self.now).owes t u ≡ false }
        ensures some { IsFalse result → (u : ℕ) × ((state_of self.now).owes t u ≡ true) }
    {
        let seat = self.seat(t);
        none_is_set(&seat.owes)
    }

    /// No thread is counted.
    pub(crate) fn nobody_counts(&self) -> bool
        ensures none { IsTrue result → NobodyCounts (state_of self.now) }
        ensures some { IsFalse result → NobodyCounts (state_of self.now) → ⊥ }
    {
        for seat in &self.seats {
            if is_counted(seat.standing, seat.place) {
                return false;
            }
        }
        true
    }

    /// Thread t has unparked all that it has taken off the list, and nobody stands there if it takes all.
    pub(crate) fn has_unparked(&self, t: usize, all: bool) -> bool
        ensures none { IsTrue result → HasUnparked (state_of self.now) t all }
        ensures some { IsFalse result → HasUnparked (state_of self.now) t all → ⊥ }
    {
        for seat in &self.seats {
            if seat.standing == ParkStanding::Taken(t) {
                return false;
            }
            if all && seat.standing == ParkStanding::Listed {
                return false;
            }
        }
        true
    }

    /// Thread t is so from now on.
    fn set(&mut self, t: usize, seat: ParkSeat)
        requires { t < length self.old.seats.items }
        ensures value { self.new.value ≡ self.old.value }
        ensures latch { self.new.latch ≡ self.old.latch }
        ensures seats { (state_of self.new).seats ≡ put (state_of self.old).seats t (seat_of seat) }
        ensures owes { (state_of self.new).owes ≡ put (state_of self.old).owes t (λ u. get_or seat.owes u false) }
        ensures len { length self.new.seats.items ≡ length self.old.seats.items }
    {
        self.seats[t] = seat;
    }

    /// Thread t is so from now on, and owes whom it owed.
    pub(crate) fn becomes(&mut self, t: usize, seat: ParkSeat)
        requires t { t < length self.old.seats.items }
        requires owes { seat.owes ≡ (get_or self.old.seats.items t outside).owes }
        ensures { Becomes self.old (Protocol.becomes (state_of self.old) t (seat_of seat)) self.new }
    {
        self.set(t, seat);
    }

    /// Thread t owes u a wake-up, or does not, from now on.
    fn owe(&mut self, t: usize, u: usize, owed: bool)
        requires t { t < length self.old.seats.items }
        requires u { u < MOST_PARKED }
        ensures { Becomes self.old (Protocol.owing (state_of self.old) t u owed) self.new }
    {
        let mut seat = self.seat(t);
        seat.owes[u] = owed;
        self.set(t, seat);
    }

    pub(crate) fn goes(&mut self, t: usize, place: ParkPlace)
        requires { t < length self.old.seats.items }
        ensures { Becomes self.old (uncounted (Protocol.goes (state_of self.old) t (place_of place))) self.new }
    {
        let seat = self.seat(t);
        self.becomes(t, ParkSeat { place, ..seat });
    }

    /// Thread t goes to this place, and the latch is so from now on.
    pub(crate) fn latches(&mut self, t: usize, place: ParkPlace, latch: bool)
        requires { t < length self.old.seats.items }
        ensures { Becomes self.old
            (uncounted (record (Protocol.goes (state_of self.old) t (place_of place)) { latch = latch })) self.new }
    {
        self.goes(t, place);
        self.latch = latch;
    }

    /// It waits while the value is this one.
    pub(crate) fn counts(&mut self, t: usize, expected: usize)
        requires { t < length self.old.seats.items }
        ensures { Makes self.old (Protocol.Event.Counts t expected) self.new }
    {
        let seat = self.seat(t);
        self.becomes(
            t,
            ParkSeat {
                place: ParkPlace::TakesToLook,
                expected,
                ..seat
            },
        );
    }

    pub(crate) fn changes(&mut self, t: usize, value: usize)
        requires { t < length self.old.seats.items }
        ensures { Makes self.old (Protocol.Event.Changes t value) self.new }
    {
        self.goes(t, ParkPlace::ToCheck(true));
        self.value = value;
    }

    pub(crate) fn parks(&mut self, t: usize)
        requires { t < length self.old.seats.items }
        ensures { Makes self.old (Protocol.Event.Parks t) self.new }
    {
        let seat = self.seat(t);
        self.becomes(
            t,
            ParkSeat {
                place: ParkPlace::GivesToSleep,
                parked: true,
                standing: ParkStanding::Listed,
                ..seat
            },
        );
    }

    pub(crate) fn dozes(&mut self, t: usize)
        requires { t < length self.old.seats.items }
        ensures { Makes self.old (Protocol.Event.FallsAsleep t) self.new }
    {
        let place = dozed(self.seat(t).parked);
        self.goes(t, place);
    }

    pub(crate) fn reads(&mut self, t: usize)
        requires { t < length self.old.seats.items }
        ensures { Makes self.old (Protocol.Event.Reads t) self.new }
    {
        let seat = read(self.seat(t));
        self.becomes(t, seat);
    }

    pub(crate) fn leaves(&mut self, t: usize)
        requires { t < length self.old.seats.items }
        ensures { Makes self.old (Protocol.Event.Leaves t) self.new }
    {
        let seat = read_again(self.seat(t));
        self.becomes(t, seat);
    }

    /// Thread t takes u off the list.
    pub(crate) fn takes_off(&mut self, t: usize, u: usize)
        requires { u < length self.old.seats.items }
        ensures { Makes self.old (Protocol.Event.TakesOff t u false) self.new }
    {
        let seat = self.seat(u);
        self.becomes(
            u,
            ParkSeat {
                standing: ParkStanding::Taken(t),
                ..seat
            },
        );
    }

    pub(crate) fn unparks(&mut self, t: usize, u: usize)
        requires t { t < length self.old.seats.items }
        requires u { u < length self.old.seats.items }
        requires most { u < MOST_PARKED }
        ensures { Makes self.old (Protocol.Event.Unparks t u) self.new }
    {
        let seat = self.seat(u);
        self.becomes(
            u,
            ParkSeat {
                parked: false,
                standing: ParkStanding::Absent,
                ..seat
            },
        );
        self.owe(t, u, true);
    }

    pub(crate) fn wakes(&mut self, t: usize, u: usize)
        requires t { t < length self.old.seats.items }
        requires u { u < length self.old.seats.items }
        requires most { u < MOST_PARKED }
        ensures { Makes self.old (Protocol.Event.Wakes t u) self.new }
    {
        let seat = self.seat(u);
        let place = woken(seat.place);
        self.goes(u, place);
        self.owe(t, u, false);
    }
}

/// A run is one of the protocol whether unparks and answers are counted or not.
#[tactic(auto, using(crate::proofs::ParkCounts::opening_uncounted))]
pub fn counts_tell_nothing()
    ensures { AsIfCounted }
{}
