ghost use Rattle.std.specs.Prelude.{◌≡◌, ◌+◌, ◌<◌, ◌^◌, ◌++◌, ◌∷◌, ◌==◌, [], false, length, replicate, slice_set, Some, None, OnOk, OnErr, IfOk, MatchOption, vec_len, vec_capacity};
ghost use Rattle.nt_alarms.specs.Heap.{alarms_of, IsAlarmTable};

use crate::heap::{arm, disarm, first, moment_of};
use nt_marks::Marks;
use std::alloc::{AllocError, Global};
use std::marker::Model;

/// No table has as many places, so that a place's number and its rank fit into four bytes.
const TOO_MANY: usize = 1 << 31;

/// Makes room for a place more. If memory is refused, or there are too many, no place is added.
fn make_room(
    moments: &mut Vec<u64>,
    ranks: &mut Vec<u32>,
    places: &mut Vec<u32>,
) -> Result<(), AllocError>
    ensures moments { moments.new.items ≡ moments.old.items }
    ensures ranks { ranks.new.items ≡ ranks.old.items }
    ensures places { places.new.items ≡ places.old.items }
    ensures few { OnOk result (length moments.new.items + 1 < 2 ^ 31) }
    ensures room { OnOk result (vec_len moments.new < vec_capacity moments.new) }
    ensures rank_room { OnOk result (vec_len ranks.new < vec_capacity ranks.new) }
    ensures place_room { OnOk result (vec_len places.new < vec_capacity places.new) }
{
    if moments.len() + 1 >= TOO_MANY {
        return Err(AllocError);
    }
    moments.reserve(1)?;
    ranks.reserve(1)?;
    places.reserve(1)
}

/// Adds a place, last, with the last rank and so with no alarm.
fn add_place(moments: &mut Vec<u64>, ranks: &mut Vec<u32>, places: &mut Vec<u32>, armed: usize)
    requires few { length moments.old.items + 1 < 2 ^ 31 }
    requires room { vec_len moments.old < vec_capacity moments.old }
    requires rank_room { vec_len ranks.old < vec_capacity ranks.old }
    requires place_room { vec_len places.old < vec_capacity places.old }
    requires table { IsAlarmTable armed moments.old.items ranks.old.items places.old.items }
    ensures table { IsAlarmTable armed moments.new.items ranks.new.items places.new.items }
    ensures added { alarms_of armed moments.new.items ranks.new.items
        ≡ alarms_of armed moments.old.items ranks.old.items ++ None ∷ [] }
{
    let last = moments.len() as u32;
    prove!(armed <= last as usize);
    moments.push_reserved(0);
    ranks.push_reserved(last);
    places.push_reserved(last);
}

/// A moment for each place, or none: an alarm clock for every timer, or every thread.
///
/// Places are numbered from 0 in the order in which they were added. Setting and clearing an alarm
/// takes steps in the logarithm of the number of alarms that are set, and no memory; reading the earliest one
/// step. There can be 2^31 - 2 places; a further one is refused as if there were no memory.
#[derive(Drop)]
pub struct Alarms {
    /// How many are set.
    armed: usize,
    moments: Vec<u64>,
    ranks: Vec<u32>,
    /// By rank.
    places: Vec<u32>,
}

impl Model for Alarms {
    ghost use Rattle.std.specs.Prelude.{List, ℕ, Option};

    ghost Value = { List (Option ℕ) };

    ghost use Rattle.nt_alarms.specs.Heap.{alarms_of, IsAlarmTable};

    ghost view = { λ a. alarms_of a.armed a.moments.items a.ranks.items };

    ghost invariant = { λ a. IsAlarmTable a.armed a.moments.items a.ranks.items a.places.items };
}

impl Alarms {
    ghost use Rattle.nt_alarms.specs.Alarms.{alarm_at, IsQuiet, IsEarliest, NoneBefore, NoneAt, IsLowestAt};

    /// No place.
    pub fn new(alloc: Global) -> Self
        ensures { result ≡ [] }
    {
        Alarms {
            armed: 0,
            moments: Vec::new(alloc),
            ranks: Vec::new(alloc),
            places: Vec::new(alloc),
        }
    }

    /// This many places, each with no alarm.
    pub fn with_places(alloc: Global, count: usize) -> Result<Self, AllocError>
        ensures { IfOk result (λ alarms. alarms ≡ replicate count None) }
    {
        let mut alarms = Alarms::new(alloc);
        for _ in 0..count {
            alarms.add()?;
        }
        Ok(alarms)
    }

    /// Alarms for `count` places, none of them set, and two kinds of marks for the same places, none of them marked.
    pub fn with_marks(alloc: Global, count: usize) -> Result<(Self, Marks, Marks), AllocError>
        ensures alarms { IfOk result (λ all. all.0 ≡ replicate count None) }
        ensures marks { IfOk result (λ all. all.1 ≡ replicate count false) }
        ensures more { IfOk result (λ all. all.2 ≡ replicate count false) }
    {
        let alarms = Alarms::with_places(alloc, count)?;
        let marks = Marks::with_places(alloc, count)?;
        let more = Marks::with_places(alloc, count)?;
        Ok((alarms, marks, more))
    }

    pub fn len(&self) -> usize
        ensures { result ≡ length self.now }
    {
        self.moments.len()
    }

    pub fn is_empty(&self) -> bool
        ensures { result ≡ (length self.now == 0) }
    {
        self.moments.is_empty()
    }

    /// Adds a place, last, with no alarm.
    pub fn add(&mut self) -> Result<(), AllocError>
        ensures ok { OnOk result (self.new ≡ self.old ++ None ∷ []) }
        ensures err { OnErr result (self.new ≡ self.old) }
    {
        // Room first, so that a refusal changes nothing.
        make_room(&mut self.moments, &mut self.ranks, &mut self.places)?;
        add_place(
            &mut self.moments,
            &mut self.ranks,
            &mut self.places,
            self.armed,
        );
        Ok(())
    }

    /// Adds a place to these alarms, with no alarm, and one to each of two kinds of marks, with no mark, all last; if memory is
    /// refused, to none.
    pub fn add_with(&mut self, marks: &mut Marks, more: &mut Marks) -> Result<(), AllocError>
        ensures ok { OnOk result (self.new ≡ self.old ++ None ∷ []) }
        ensures marks { OnOk result (marks.new ≡ marks.old ++ false ∷ []) }
        ensures more { OnOk result (more.new ≡ more.old ++ false ∷ []) }
        ensures err { OnErr result (self.new ≡ self.old) }
        ensures kept { OnErr result ((marks.new ≡ marks.old) × (more.new ≡ more.old)) }
    {
        make_room(&mut self.moments, &mut self.ranks, &mut self.places)?;
        marks.add_both(more)?;
        add_place(
            &mut self.moments,
            &mut self.ranks,
            &mut self.places,
            self.armed,
        );
        Ok(())
    }

    /// Sets the alarm of this place to this moment, instead of the one that it had.
    pub fn set(&mut self, place: usize, moment: u64)
        requires { place < length self.old }
        ensures { self.new ≡ slice_set self.old place (Some moment) }
    {
        self.clear(place);
        arm(
            &mut self.moments,
            &mut self.ranks,
            &mut self.places,
            self.armed,
            place,
            moment,
        );
        self.armed += 1;
    }

    /// Clears the alarm of this place, if it has one.
    pub fn clear(&mut self, place: usize)
        requires { place < length self.old }
        ensures { self.new ≡ slice_set self.old place None }
    {
        if (self.ranks[place] as usize) < self.armed {
            self.armed -= 1;
            disarm(
                &self.moments,
                &mut self.ranks,
                &mut self.places,
                self.armed,
                place,
            );
        }
    }

    /// The alarm of this place; none past the last place.
    pub fn get(&self, place: usize) -> Option<u64>
        ensures { result ≡ alarm_at self.now place }
    {
        moment_of(&self.moments, &self.ranks, self.armed, place)
    }

    /// The earliest alarm, if there is one.
    pub fn earliest(&self) -> Option<u64>
        ensures { MatchOption result (IsQuiet self.now) (λ moment. IsEarliest self.now moment) }
    {
        match first(&self.moments, &self.places, self.armed) {
            Some(first) => Some(first.moment),
            None => None,
        }
    }

    /// The lowest place whose alarm is this moment, if no alarm is before it.
    pub fn first_at(&self, moment: u64) -> Option<usize>
        requires { NoneBefore self.now moment }
        ensures { MatchOption result (NoneAt self.now moment) (λ place. IsLowestAt self.now moment place) }
    {
        match first(&self.moments, &self.places, self.armed) {
            Some(first) if first.moment == moment => Some(first.place),
            _ => None,
        }
    }

    /// The same alarms in memory of their own.
    pub fn copy(&self) -> Result<Self, AllocError>
        ensures { IfOk result (λ copied. copied ≡ self.now) }
    {
        let alloc = *self.moments.allocator();
        Ok(Alarms {
            armed: self.armed,
            moments: Vec::from_slice(alloc, &self.moments)?,
            ranks: Vec::from_slice(alloc, &self.ranks)?,
            places: Vec::from_slice(alloc, &self.places)?,
        })
    }

    /// The same alarms, and the same marks of two kinds, in memory of their own.
    pub fn copy_with(&self, marks: &Marks, more: &Marks) -> Result<(Self, Marks, Marks), AllocError>
        ensures alarms { IfOk result (λ copied. copied.0 ≡ self.now) }
        ensures marks { IfOk result (λ copied. copied.1 ≡ marks.now) }
        ensures more { IfOk result (λ copied. copied.2 ≡ more.now) }
    {
        let alarms = self.copy()?;
        let marks = marks.copy()?;
        let more = more.copy()?;
        Ok((alarms, marks, more))
    }
}
