//! A run of the words on which threads sleep, one event at a time.

ghost use Rattle.std.specs.Prelude.{◌≡◌, ◌<◌, ◌↔◌, ◌+◌, ◌||◌, ℕ, IsTrue, IsFalse, length, get_or, true, false};
ghost use Rattle.nt_protocols.specs.Word as Protocol;
ghost use Rattle.nt_protocols.specs.Threads.{put};
ghost use Rattle.nt_traces.specs.declared.word.TheConstants.{MOST_SEATS};
ghost use Rattle.nt_traces.specs.WordTrace.{AsIfCounted, Becomes, Makes, outside, owing, place_of, seat_of, state_of, uncounted, uncounted_seat, word_of};

use crate::word::{WordPlace, WordSeat, WordValue};

/// The threads, as the events that were read have led to them.
#[derive(Drop)]
pub struct WordRun {
    pub(crate) seats: Vec<WordSeat>,
}

/// Where futex_wait leads that finds the word so.
fn dozed(word: WordValue) -> WordPlace
    ensures { place_of result ≡ Protocol.dozed (word_of word) }
{
    match word {
        WordValue::Asleep => WordPlace::Sleeping,
        _ => WordPlace::ToLoad,
    }
}

/// Where a thread is that is woken there.
fn woken(place: WordPlace) -> WordPlace
    ensures { place_of result ≡ Protocol.woken (place_of place) }
{
    match place {
        WordPlace::Sleeping => WordPlace::ToLoad,
        place => place,
    }
}

/// What a word says once its thread has looked at the time.
fn in_time(word: WordValue) -> WordValue
    ensures { word_of result ≡ Protocol.in_time (word_of word) }
{
    match word {
        WordValue::Granted => WordValue::Granted,
        _ => WordValue::Awake,
    }
}

/// The thread, which has read its word.
fn told(seat: WordSeat) -> WordSeat
    ensures seat { seat_of result ≡ uncounted_seat (Protocol.told (seat_of seat) (word_of seat.word)) }
    ensures owes { result.owes ≡ seat.owes }
{
    let place = match seat.word {
        WordValue::Granted => WordPlace::InCall,
        WordValue::Asleep => WordPlace::ToSleep,
        _ => WordPlace::ToLookAtTime,
    };
    WordSeat { place, ..seat }
}

/// The thread, which has exchanged its word from awake to asleep, or has found there that it was granted or called.
fn marked(seat: WordSeat) -> WordSeat
    ensures seat { seat_of result ≡ uncounted_seat (Protocol.marked (seat_of seat) (word_of seat.word)) }
    ensures owes { result.owes ≡ seat.owes }
{
    match seat.word {
        WordValue::Awake => WordSeat {
            word: WordValue::Asleep,
            place: WordPlace::ToSleep,
            ..seat
        },
        _ => told(seat),
    }
}

/// No mark is set.
fn none_is_set(marks: &[bool]) -> bool
    ensures none { IsTrue result → (k : ℕ) → get_or marks.now k false ≡ false }
    ensures some { IsFalse result → (k : ℕ) × (get_or marks.now k false ≡ true) }
{
    for mark in marks {
        if *mark {
            return false;
        }
    }
    true
}

impl WordRun {
    /// What there is of thread t.
    pub(crate) fn seat(&self, t: usize) -> WordSeat
        requires { t < length self.now.seats.items }
        ensures { result ≡ get_or self.now.seats.items t outside }
    {
        self.seats[t]
    }

    pub(crate) fn is_at(&self, t: usize, place: WordPlace) -> bool
        requires { t < length self.now.seats.items }
        ensures { IsTrue result ↔ Protocol.IsAt (state_of self.now) t (place_of place) }
    {
        self.seat(t).place == place
    }

    /// Thread t is in a call, where it may tell others something.
    pub(crate) fn is_waking(&self, t: usize) -> bool
        requires { t < length self.now.seats.items }
        ensures { result ≡ Protocol.is_waking ((state_of self.now).seats t).place }
    {
        matches!(
            self.seat(t).place,
            WordPlace::InCall | WordPlace::InWait | WordPlace::Passing
        )
    }

    pub(crate) fn pends(&self, t: usize) -> bool
        requires { t < length self.now.seats.items }
        ensures { result ≡ ((state_of self.now).seats t).pends }
    {
        self.seat(t).pends
    }

    pub(crate) fn owes(&self, t: usize, u: usize) -> bool
        requires t { t < length self.now.seats.items }
        requires u { u < MOST_SEATS }
        ensures { result ≡ (state_of self.now).owes t u }
    {
        self.seat(t).owes[u]
    }

    /// Thread t owes nobody a wake-up.
    pub(crate) fn owes_nobody(&self, t: usize) -> bool
        requires { t < length self.now.seats.items }
        ensures none { IsTrue result → (u : ℕ) → (state_of self.now).owes t u ≡ false }
        ensures some { IsFalse result → (u : ℕ) × ((state_of self.now).owes t u ≡ true) }
    {
        let seat = self.seat(t);
        none_is_set(&seat.owes)
    }

    /// Thread t is so from now on.
    fn set(&mut self, t: usize, seat: WordSeat)
        requires { t < length self.old.seats.items }
        ensures seats { (state_of self.new).seats ≡ put (state_of self.old).seats t (seat_of seat) }
        ensures owes { (state_of self.new).owes ≡ put (state_of self.old).owes t (λ u. get_or seat.owes u false) }
        ensures len { length self.new.seats.items ≡ length self.old.seats.items }
    {
        self.seats[t] = seat;
    }

    /// Thread t is so from now on, and owes whom it owed.
    pub(crate) fn becomes(&mut self, t: usize, seat: WordSeat)
        requires t { t < length self.old.seats.items }
        requires owes { seat.owes ≡ (get_or self.old.seats.items t outside).owes }
        ensures { Becomes self.old (Protocol.becomes (state_of self.old) t (seat_of seat)) self.new }
    {
        self.set(t, seat);
    }

    /// Thread t owes u a wake-up, or does not, from now on.
    fn owe(&mut self, t: usize, u: usize, owed: bool)
        requires t { t < length self.old.seats.items }
        requires u { u < MOST_SEATS }
        ensures { Becomes self.old (owing (state_of self.old) t u owed) self.new }
    {
        let mut seat = self.seat(t);
        seat.owes[u] = owed;
        self.set(t, seat);
    }

    pub(crate) fn goes(&mut self, t: usize, place: WordPlace)
        requires { t < length self.old.seats.items }
        ensures { Becomes self.old (uncounted (Protocol.goes (state_of self.old) t (place_of place))) self.new }
    {
        let seat = self.seat(t);
        self.becomes(t, WordSeat { place, ..seat });
    }

    /// Its wait pends from now on.
    pub(crate) fn begins(&mut self, t: usize)
        requires { t < length self.old.seats.items }
        ensures { Makes self.old (Protocol.Event.Begins t) self.new }
    {
        let seat = self.seat(t);
        self.becomes(
            t,
            WordSeat {
                word: WordValue::Awake,
                place: WordPlace::InWait,
                pends: true,
                due: false,
                ..seat
            },
        );
    }

    pub(crate) fn marks(&mut self, t: usize)
        requires { t < length self.old.seats.items }
        ensures { Makes self.old (Protocol.Event.Marks t) self.new }
    {
        let seat = marked(self.seat(t));
        self.becomes(t, seat);
    }

    pub(crate) fn reads(&mut self, t: usize)
        requires { t < length self.old.seats.items }
        ensures { Makes self.old (Protocol.Event.Reads t) self.new }
    {
        let seat = told(self.seat(t));
        self.becomes(t, seat);
    }

    pub(crate) fn dozes(&mut self, t: usize)
        requires { t < length self.old.seats.items }
        ensures { Makes self.old (Protocol.Event.FallsAsleep t) self.new }
    {
        let place = dozed(self.seat(t).word);
        self.goes(t, place);
    }

    /// It has looked at the time, and is at this place.
    pub(crate) fn looks(&mut self, t: usize, place: WordPlace)
        requires { t < length self.old.seats.items }
        ensures { Becomes self.old (uncounted (Protocol.becomes (state_of self.old) t
            (Protocol.looked ((state_of self.old).seats t) (place_of place)))) self.new }
    {
        let seat = self.seat(t);
        let word = in_time(seat.word);
        self.becomes(
            t,
            WordSeat {
                word,
                place,
                due: false,
                ..seat
            },
        );
    }

    /// Thread t has granted or called u, and owes it a wake-up where u sleeps or is about to.
    fn told_by(&mut self, t: usize, u: usize)
        requires t { t < length self.old.seats.items }
        requires u { u < length self.old.seats.items }
        requires most { u < MOST_SEATS }
        ensures { Becomes self.old (owing (state_of self.old) t u
            ((state_of self.old).owes t u || Protocol.is_asleep ((state_of self.old).seats u).word)) self.new }
    {
        let owed = self.owes(t, u) || self.seat(u).word == WordValue::Asleep;
        self.owe(t, u, owed);
    }

    pub(crate) fn grants(&mut self, t: usize, u: usize)
        requires t { t < length self.old.seats.items }
        requires u { u < length self.old.seats.items }
        requires most { u < MOST_SEATS }
        ensures { Makes self.old (Protocol.Event.Grants t u) self.new }
    {
        self.told_by(t, u);
        let seat = self.seat(u);
        self.becomes(
            u,
            WordSeat {
                word: WordValue::Granted,
                pends: false,
                ..seat
            },
        );
    }

    pub(crate) fn calls(&mut self, t: usize, u: usize)
        requires t { t < length self.old.seats.items }
        requires u { u < length self.old.seats.items }
        requires most { u < MOST_SEATS }
        ensures { Makes self.old (Protocol.Event.Calls t u) self.new }
    {
        self.told_by(t, u);
        let seat = self.seat(u);
        self.becomes(
            u,
            WordSeat {
                word: WordValue::Called,
                due: true,
                ..seat
            },
        );
    }

    pub(crate) fn wakes(&mut self, t: usize, u: usize)
        requires t { t < length self.old.seats.items }
        requires u { u < length self.old.seats.items }
        requires most { u < MOST_SEATS }
        ensures { Makes self.old (Protocol.Event.Wakes t u) self.new }
    {
        self.owe(t, u, false);
        let seat = self.seat(u);
        let place = woken(seat.place);
        self.becomes(u, WordSeat { place, ..seat });
    }
}

/// A run is one of the protocol whether grants and answers are counted or not.
#[tactic(auto, using(crate::proofs::WordCounts::opening_uncounted))]
pub fn counts_tell_nothing()
    ensures { AsIfCounted }
{}
