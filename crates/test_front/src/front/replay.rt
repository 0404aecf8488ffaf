//! A journal is made again, call by call.
use nt_core::Core;
use nt_front::{History, PackedEntry, Part};
use nt_replay::{Unreplayed, replay};
use nt_status::Refusal;
use std::alloc::Global;

/// A dispatcher that made the calls of all entries before this number.
#[derive(Drop)]
struct Follower {
    core: Core,
    next: u64,
}

impl Follower {
    /// Makes the calls of the next entries too, as does a copy of the dispatcher that they begin at, which is to be like this one. Answers
    /// the number of the first entry that one of them does not give, or that is missing.
    fn follow(self, first: u64, base: &Core, entries: &[PackedEntry]) -> Result<Follower, u64> {
        match self.precedes(first, base, entries) {
            Ok(()) => self.go_on(first, entries),
            Err(number) => {
                drop(self);
                Err(number)
            }
        }
    }

    /// Whether these entries go on from here, and a copy of the dispatcher that they begin at gives them. Else the number of the first that
    /// it does not give, or that is missing.
    fn precedes(&self, first: u64, base: &Core, entries: &[PackedEntry]) -> Result<(), u64> {
        if self.core.is_like(base) {
            follows(self.next, first, base, entries)
        } else {
            Err(self.next)
        }
    }

    /// Makes the calls of these entries too.
    fn go_on(self, first: u64, entries: &[PackedEntry]) -> Result<Follower, u64> {
        let Follower { core, .. } = self;
        let core = made_again(core, first, entries)?;
        let next = first.wrapping_add(entries.len() as u64);
        Ok(Follower { core, next })
    }
}

/// Whether these entries are those from number `next` on, and a copy of the dispatcher that they begin at gives them. Else the number of
/// the first that it does not give, or that is missing.
fn follows(next: u64, first: u64, base: &Core, entries: &[PackedEntry]) -> Result<(), u64> {
    if first != next {
        return Err(next);
    }
    match base.copy() {
        Ok(copy) => {
            drop(made_again(copy, first, entries)?);
            Ok(())
        }
        Err(_) => Err(first),
    }
}

/// The dispatcher after the calls of these entries, which are numbered from `first` on.
fn made_again(core: Core, first: u64, entries: &[PackedEntry]) -> Result<Core, u64> {
    match replay(core, entries) {
        Ok(core) => Ok(core),
        Err(Unreplayed::Differs(place) | Unreplayed::Memory(place)) => {
            Err(first.wrapping_add(place as u64))
        }
    }
}

/// The number of the first entry of these parts and the history that a fresh dispatcher answers otherwise, or a copy of the part's
/// base does, or that is missing; 0 where there is none.
pub fn first_difference(
    alloc: Global,
    threads: u32,
    parts: &[Part],
    history: &History,
) -> Result<u64, Refusal> {
    let core = Core::new(alloc, threads)?;
    let mut follower = Follower { core, next: 1 };
    for part in parts {
        match follower.follow(part.first, &part.base, part.entries.as_slice()) {
            Ok(further) => follower = further,
            Err(number) => return Ok(number),
        }
    }
    match follower.follow(history.first, &history.base, history.entries.as_slice()) {
        Ok(_) => Ok(0),
        Err(number) => Ok(number),
    }
}
