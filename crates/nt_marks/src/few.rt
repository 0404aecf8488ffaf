//! Marks for few places, in two levels and without memory.
ghost use Rattle.std.specs.Prelude.{◌≡◌, ◌<◌, true, false, length, replicate, slice_set, MatchOption};
ghost use Rattle.nt_marks.specs.Marks.{NoneMarked, IsFirstMarked};

use crate::bits::{clear_bit, lowest_bit, set_bit};
use std::marker::Model;

/// A mark for each of 256 places, or none. It takes no memory, and stands where its owner does.
#[derive(Drop)]
pub struct FewMarks {
    words: [u64; 4],
    top: [u64; 1],
}

impl Model for FewMarks {
    ghost use Rattle.std.specs.Prelude.{List, Bool};
    ghost use Rattle.nt_marks.specs.Levels.{marks_of, AreTwoLevels};

    ghost Value = { List Bool };

    ghost view = { λ m. marks_of m.words 256 };

    ghost invariant = { λ m. AreTwoLevels m.words m.top };
}

impl FewMarks {
    /// No place is marked.
    pub fn none() -> Self
        ensures { result ≡ replicate 256 false }
    {
        FewMarks {
            words: [0; 4],
            top: [0],
        }
    }

    /// Marks this place.
    pub fn set(&mut self, place: usize)
        requires { place < length self.old }
        ensures { self.new ≡ slice_set self.old place true }
    {
        set_bit(&mut self.words, place);
        set_bit(&mut self.top, place / 64);
    }

    /// Takes away the mark of the lowest place that is marked, if one is, and returns the place.
    pub fn take_first(&mut self) -> Option<usize>
        ensures first { MatchOption result (NoneMarked self.old) (λ place. IsFirstMarked self.old place) }
        ensures rest { MatchOption result (self.new ≡ self.old) (λ place. self.new ≡ slice_set self.old place false) }
    {
        if self.top[0] == 0 {
            return None;
        }
        let word = lowest_bit(&self.top, 0);
        let place = lowest_bit(&self.words, word);
        if clear_bit(&mut self.words, place) {
            clear_bit(&mut self.top, word);
        }
        Some(place)
    }
}
