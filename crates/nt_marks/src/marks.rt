//! Marks in three levels.
ghost use Rattle.std.specs.Prelude.{◌≡◌, ◌<◌, ◌≤◌, ◌+◌, ◌/◌, ◌++◌, ◌∷◌, ◌↔◌, [], true, false, length, replicate, slice_set, vec_len, vec_capacity, None, Some, OnOk, OnErr, IfOk, IsTrue, MatchOption};
ghost use Rattle.nt_marks.specs.Marks.{NoneMarked, IsFirstMarked};
ghost use Rattle.nt_marks.specs.Levels.{marks_of, Reaches, AreLevels};

use crate::bits::{clear_bit, lowest_bit, set_bit};
use std::alloc::{AllocError, Global};
use std::marker::Model;

/// The most places: 64 words of 64 bits each in the middle level, and so 64 bits at the top.
const MAX_PLACES: usize = 64 * 64 * 64;

/// Makes room for the word of this number, which is there or would be the next.
fn make_word_room(words: &mut Vec<u64>, word: usize) -> Result<(), AllocError>
    ensures items { words.new.items ≡ words.old.items }
    ensures room { OnOk result (length words.new.items ≤ word → vec_len words.new < vec_capacity words.new) }
{
    if words.len() <= word {
        words.reserve(1)?;
    }
    Ok(())
}

/// Adds a word of 0 if there is none of this number yet.
fn reach_word(words: &mut Vec<u64>, word: usize)
    requires room { length words.old.items ≤ word → vec_len words.old < vec_capacity words.old }
    requires next { word ≤ length words.old.items }
    ensures { Reaches words.old.items words.new.items word }
{
    if words.len() <= word {
        words.push_reserved(0);
    }
}

/// Makes room for this place, the next. If memory is refused, or there are too many places, nothing is added.
fn make_room(words: &mut Vec<u64>, groups: &mut Vec<u64>, place: usize) -> Result<(), AllocError>
    ensures words { words.new.items ≡ words.old.items }
    ensures groups { groups.new.items ≡ groups.old.items }
    ensures few { OnOk result (place < 262144) }
    ensures word_room { OnOk result (length words.new.items ≤ place / 64 → vec_len words.new < vec_capacity words.new) }
    ensures group_room { OnOk result
        (length groups.new.items ≤ place / 4096 → vec_len groups.new < vec_capacity groups.new) }
{
    if place >= MAX_PLACES {
        return Err(AllocError);
    }
    make_word_room(words, place / 64)?;
    make_word_room(groups, place / 4096)
}

/// Adds this place, the next, with no mark.
fn add_place(words: &mut Vec<u64>, groups: &mut Vec<u64>, top: &[u64], place: usize)
    requires few { place < 262144 }
    requires word_room { length words.old.items ≤ place / 64 → vec_len words.old < vec_capacity words.old }
    requires group_room { length groups.old.items ≤ place / 4096 → vec_len groups.old < vec_capacity groups.old }
    requires levels { AreLevels words.old.items groups.old.items top.now place }
    ensures levels { AreLevels words.new.items groups.new.items top.now (place + 1) }
    ensures added { marks_of words.new.items (place + 1) ≡ marks_of words.old.items place ++ false ∷ [] }
{
    let _ = top;
    reach_word(words, place / 64);
    reach_word(groups, place / 4096);
}

/// A mark for each place, or none. The lowest marked place is at hand.
///
/// Places are numbered from 0 in the order in which they were added. To set, to find and to clear a mark takes a few steps, however many
/// places there are. There can be 262,144 places; a further one is refused as if there were no memory.
#[derive(Drop)]
pub struct Marks {
    places: usize,
    words: Vec<u64>,
    groups: Vec<u64>,
    top: [u64; 1],
}

impl Model for Marks {
    ghost use Rattle.std.specs.Prelude.{List, Bool};
    ghost use Rattle.nt_marks.specs.Levels.{marks_of, AreLevels};

    ghost Value = { List Bool };

    ghost view = { λ m. marks_of m.words.items m.places };

    ghost invariant = { λ m. AreLevels m.words.items m.groups.items m.top m.places };
}

impl Marks {
    /// No place.
    pub fn new(alloc: Global) -> Self
        ensures { result ≡ [] }
    {
        Marks {
            places: 0,
            words: Vec::new(alloc),
            groups: Vec::new(alloc),
            top: [0],
        }
    }

    /// This many places, none of them marked.
    pub fn with_places(alloc: Global, count: usize) -> Result<Self, AllocError>
        ensures { IfOk result (λ marks. marks ≡ replicate count false) }
    {
        let mut marks = Marks::new(alloc);
        for _ in 0..count {
            marks.add()?;
        }
        Ok(marks)
    }

    /// Adds a place, last, with no mark. If memory is refused, nothing changes.
    pub fn add(&mut self) -> Result<(), AllocError>
        ensures ok { OnOk result (self.new ≡ self.old ++ false ∷ []) }
        ensures err { OnErr result (self.new ≡ self.old) }
    {
        // Room first, so that a refusal changes nothing.
        make_room(&mut self.words, &mut self.groups, self.places)?;
        add_place(&mut self.words, &mut self.groups, &self.top, self.places);
        self.places += 1;
        Ok(())
    }

    /// Adds a place to these marks and one to the others, both last, with no mark. If memory is refused, neither changes.
    pub fn add_both(&mut self, others: &mut Marks) -> Result<(), AllocError>
        ensures ok { OnOk result (self.new ≡ self.old ++ false ∷ []) }
        ensures others { OnOk result (others.new ≡ others.old ++ false ∷ []) }
        ensures err { OnErr result (self.new ≡ self.old) }
        ensures kept { OnErr result (others.new ≡ others.old) }
    {
        make_room(&mut self.words, &mut self.groups, self.places)?;
        others.add()?;
        add_place(&mut self.words, &mut self.groups, &self.top, self.places);
        self.places += 1;
        Ok(())
    }

    /// How many places there are.
    pub fn places(&self) -> usize
        ensures { result ≡ length self.now }
    {
        self.places
    }

    /// Marks this place.
    pub fn set(&mut self, place: usize)
        requires { place < length self.old }
        ensures { self.new ≡ slice_set self.old place true }
    {
        set_bit(&mut self.words, place);
        set_bit(&mut self.groups, place / 64);
        set_bit(&mut self.top, place / 64 / 64);
    }

    /// Takes the mark of this place away, if it has one.
    pub fn clear(&mut self, place: usize)
        requires { place < length self.old }
        ensures { self.new ≡ slice_set self.old place false }
    {
        if !clear_bit(&mut self.words, place) {
            return;
        }
        if !clear_bit(&mut self.groups, place / 64) {
            return;
        }
        clear_bit(&mut self.top, place / 64 / 64);
    }

    /// The lowest place that is marked, if one is.
    pub fn first(&self) -> Option<usize>
        ensures { MatchOption result (NoneMarked self.now) (λ place. IsFirstMarked self.now place) }
    {
        if self.top[0] == 0 {
            return None;
        }
        let group = lowest_bit(&self.top, 0);
        let word = lowest_bit(&self.groups, group);
        Some(lowest_bit(&self.words, word))
    }

    /// Takes away the mark of the lowest place that is marked, if one is, and returns the place.
    pub fn take_first(&mut self) -> Option<usize>
        ensures first { MatchOption result (NoneMarked self.old) (λ place. IsFirstMarked self.old place) }
        ensures rest { MatchOption result (self.new ≡ self.old) (λ place. self.new ≡ slice_set self.old place false) }
    {
        let place = self.first()?;
        self.clear(place);
        Some(place)
    }

    /// Whether no place is marked.
    pub fn is_empty(&self) -> bool
        ensures { IsTrue result ↔ NoneMarked self.now }
    {
        self.first().is_none()
    }

    /// The same marks in memory of their own.
    pub fn copy(&self) -> Result<Self, AllocError>
        ensures { IfOk result (λ copied. copied ≡ self.now) }
    {
        let alloc = *self.words.allocator();
        Ok(Marks {
            places: self.places,
            words: Vec::from_slice(alloc, &self.words)?,
            groups: Vec::from_slice(alloc, &self.groups)?,
            top: self.top,
        })
    }
}
