//! Where in a picture what stands: each shown step as far to the right as its texts need.

use crate::escape::width_of;
use nt_core::Core;
use nt_status::MAX_THREADS;
use nt_timeline::{EndOfWait, Kept, Kind, Selection, Step, name_of};
use std::alloc::{AllocError, Global};

/// The greatest number of threads, each of which has a place.
const MOST_THREADS: usize = MAX_THREADS as usize;

/// How high a lane is, in pixels, and how far down the first begins.
pub(crate) const LANE: u32 = 60;

pub(crate) const TOP: u32 = 92;

/// Where in a picture what stands, in pixels.
#[derive(Drop)]
pub struct Layout {
    /// By the places of steps, how far to the right each stands.
    pub x: Vec<u32>,
    /// Which steps are shown.
    pub is_shown: Vec<bool>,
    /// The threads that have a lane, rising.
    pub lanes: Vec<u32>,
    pub left: u32,
    pub right: u32,
}

/// How far the texts of each lane reach, above it and below it, and the moments of ticks.
#[derive(Drop)]
struct Reach {
    above: Vec<u32>,
    below: Vec<u32>,
    moment: u32,
}

/// The number at this place; 0 past the end.
pub(crate) fn at(numbers: &[u32], place: usize) -> u32 {
    match numbers.get(place) {
        Some(number) => *number,
        None => 0,
    }
}

/// Makes the number at this place at least this.
fn raise(numbers: &mut [u32], place: usize, least: u32) {
    if let Some(number) = numbers.get_mut(place) {
        *number = least.max(*number);
    }
}

/// Whether it is a tick at which nothing happened, with another tick after it.
fn is_dull(step: &Step, next: Option<&Step>) -> bool {
    let ends_none = step.ended.0 == step.ended.1;
    step.kind == Kind::Tick && ends_none && next.is_some_and(|next| next.kind == Kind::Tick)
}

/// How wide the name of a wait's end is, which is left out of one that took its first object.
fn end_width(alloc: Global, end: &EndOfWait) -> Result<u32, AllocError> {
    if end.status.code() == 0 {
        return Ok(0);
    }
    Ok(width_of(name_of(alloc, end.status)?.len(), 10))
}

/// What stands below a call: the name of an error, or how its wait ended, but for one that took its first object.
pub(crate) fn below_of(step: &Step) -> &[u8] {
    match step.kind {
        Kind::AtOnce(status) if status.code() == 0 => b"",
        _ => &step.answer,
    }
}

impl Reach {
    fn new(alloc: Global) -> Result<Reach, AllocError> {
        Ok(Reach {
            above: Vec::from_elem(alloc, 0, MOST_THREADS)?,
            below: Vec::from_elem(alloc, 0, MOST_THREADS)?,
            moment: 0,
        })
    }

    /// How far to the right a call's texts let it stand.
    fn place_call(&mut self, step: &Step, thread: u32, least: u32) -> u32 {
        let lane = thread as usize;
        let below = below_of(step);
        let mut x = least.max(at(&self.above, lane).saturating_add(14));
        if !below.is_empty() {
            x = x.max(at(&self.below, lane).saturating_add(10));
            raise(
                &mut self.below,
                lane,
                x.saturating_add(width_of(below.len(), 10)),
            );
        }
        raise(
            &mut self.above,
            lane,
            x.saturating_add(width_of(step.label.len(), 12)),
        );
        x
    }

    /// How far to the right a tick's moment lets it stand.
    fn place_tick(&mut self, step: &Step, least: u32) -> u32 {
        let half = width_of(step.call.len(), 11) / 2;
        let x = least.max(self.moment.saturating_add(half).saturating_add(8));
        self.moment = x.saturating_add(half);
        x
    }

    /// How far to the right the name of a wait's end, which began there, lets its step stand.
    fn place_end(
        &self,
        alloc: Global,
        end: &EndOfWait,
        began: u32,
        least: u32,
    ) -> Result<u32, AllocError> {
        let width = end_width(alloc, end)?;
        if width == 0 {
            return Ok(least);
        }
        let below = at(&self.below, end.thread as usize);
        Ok(
            least
                .max(below.saturating_add(width).saturating_add(10))
                .max(began.saturating_add(width).saturating_add(4)),
        )
    }

    /// The same of all waits that a step ended.
    fn place_ends(
        &mut self,
        alloc: Global,
        ended: &[EndOfWait],
        x: &[u32],
        least: u32,
    ) -> Result<u32, AllocError> {
        let mut place = least;
        for end in ended {
            place = self.place_end(alloc, end, at(x, end.began), place)?;
        }
        for end in ended {
            raise(&mut self.below, end.thread as usize, place);
        }
        Ok(place)
    }

    /// How far to the right all of the texts reach.
    fn farthest(&self) -> u32 {
        let above = self.above.iter().copied().max().unwrap_or(0);
        above.max(self.below.iter().copied().max().unwrap_or(0))
    }
}

impl Layout {
    /// Places a step, if it is shown, after what stands as far as this. Answers how far it stands.
    fn place(
        &mut self,
        alloc: Global,
        reach: &mut Reach,
        step: &Step,
        ended: &[EndOfWait],
        is_shown: bool,
        last: u32,
    ) -> Result<u32, AllocError> {
        let mut x = last;
        if is_shown {
            x = reach.place_ends(alloc, ended, &self.x, last.saturating_add(30))?;
            x = match step.who {
                Some(thread) => reach.place_call(step, thread, x),
                None => reach.place_tick(step, x),
            };
        }
        self.x.push(x)?;
        self.is_shown.push(is_shown)?;
        Ok(x)
    }

    /// Gives a lane to each thread that calls in a shown step, or whose wait one ended.
    fn give_lanes(&mut self, kept: &Kept) -> Result<(), AllocError> {
        for thread in 0..MOST_THREADS as u32 {
            let has = kept.steps.iter().zip(&self.is_shown).any(|(step, is_shown)| {
                let ended = step.ended(&kept.ended);
                *is_shown
                    && (step.who == Some(thread) || ended.iter().any(|end| end.thread == thread))
            });
            if has {
                self.lanes.push(thread)?;
            }
        }
        Ok(())
    }

    /// Where the steps of the part stand, right of this.
    pub fn of(
        alloc: Global,
        kept: &Kept,
        part: &Selection<'_>,
        core: &Core,
        left: u32,
    ) -> Result<Layout, AllocError> {
        let mut layout = Layout {
            x: Vec::new(alloc),
            is_shown: Vec::new(alloc),
            lanes: Vec::new(alloc),
            left,
            right: 0,
        };
        let mut reach = Reach::new(alloc)?;
        let mut last = left;
        for (place, step) in kept.steps.iter().enumerate() {
            let ended = step.ended(&kept.ended);
            let is_shown = part.shows(step, ended)
                && !is_dull(step, kept.steps.get(place.saturating_add(1)));
            last = layout.place(alloc, &mut reach, step, ended, is_shown, last)?;
        }
        let room = if core.pending() > 0 { 200 } else { 60 };
        layout.right = last
            .saturating_add(room)
            .max(reach.farthest().saturating_add(20))
            .saturating_add(40);
        layout.give_lanes(kept)?;
        Ok(layout)
    }

    /// How far down the thread's lane is, if it has one.
    pub(crate) fn y(&self, thread: u32) -> Option<u32> {
        match self.lanes.iter().position(|lane| *lane == thread) {
            Some(lane) => Some(
                (lane.min(MOST_THREADS) as u32)
                    .saturating_mul(LANE)
                    .saturating_add(TOP + 34),
            ),
            None => None,
        }
    }

    /// How far down the lanes end.
    pub(crate) fn end_of_lanes(&self) -> u32 {
        (self.lanes.len().min(MOST_THREADS) as u32)
            .saturating_mul(LANE)
            .saturating_add(TOP)
    }
}
