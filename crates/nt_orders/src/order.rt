//! An order is gone, from the start; and an order as a script.
ghost use Rattle.std.specs.Prelude.{◌≡◌, ◌++◌, IfErr, IfOk, OnOk, option_map, Some};
ghost use Rattle.nt_lanes.specs.Lanes.{asked};
ghost use Rattle.nt_orders.specs.Ending.{order_of};
ghost use Rattle.nt_orders.specs.Plans.{gone_all, gone_on, none_gone};
ghost use Rattle.nt_orders.specs.declared.fault.OrdersFault.TheVariants.{Memory};
ghost use Rattle.nt_plans.specs.Gates.{close_lines, lost_by, tries_of};
ghost use Rattle.nt_orders.specs.Reading.{gone_of, lanes_of};

use crate::fault::OrdersFault;
use crate::lanes::Script;
use crate::rows::Row;
use nt_calls::{Act, Call};
use nt_core::{Core, Grant, Reply};
use nt_explore::{Ask, OrderVerdict};
use nt_plans::{Line, Made, bytes_at, closed_first, put_closes, put_whole, tries_of};
use nt_status::{Handle, Refusal};
use nt_wording::answer_of;
use std::alloc::{AllocError, Global};

/// Tries the acts, and notes the waits that they end. Answers what the last one answered that was made before the first gap.
fn try_all(
    core: &mut Core,
    lane: u32,
    acts: &[Option<Act>],
    grants: &mut Vec<Grant>,
) -> Result<Reply, Refusal> {
    let mut told = None;
    let mut answer = Ok(Reply::Done);
    for act in acts {
        let Some(act) = act else {
            told = told.or(Some(answer));
            answer = Ok(Reply::Done);
            continue;
        };
        if answer.is_ok() {
            answer = core.call(lane, &Call::Act(*act));
            grants.extend_from_slice(core.grants())?;
        }
        if answer == Err(Refusal::Memory) {
            return answer;
        }
    }
    told.unwrap_or(answer)
}

/// Makes what the lane is asked for, and notes the waits that this ends.
fn make(core: &mut Core, lane: u32, ask: &Ask, grants: &mut Vec<Grant>) -> Result<Reply, Refusal> {
    let answer = match ask {
        Ask::Tries(acts) => return try_all(core, lane, acts, grants),
        Ask::Call(call) => core.call(lane, call),
        Ask::Tick(moment) => core.tick(*moment),
    };
    grants.extend_from_slice(core.grants())?;
    answer
}

impl Script {
    /// The lane's line at this place.
    pub(crate) fn line(&self, lane: u32, place: usize) -> Option<&Line> {
        self.lines.get(lane as usize)?.get(place)
    }

    /// Makes what the lane is asked for at this place, and tells what came of it. Where memory was refused it is another run.
    fn answer(
        &self,
        alloc: Global,
        core: &mut Core,
        lane: u32,
        place: usize,
    ) -> Result<Vec<u8>, AllocError> {
        let Some(ask) = self.plan.ask(lane, place) else {
            return Err(AllocError);
        };
        let mut grants = Vec::new(alloc);
        match make(core, lane, ask, &mut grants) {
            Err(Refusal::Memory) => Err(AllocError),
            answer => answer_of(alloc, &answer, &grants),
        }
    }

    /// The lane goes: its next line is carried out.
    fn go(
        &self,
        alloc: Global,
        core: &mut Core,
        places: &mut [usize],
        lane: u32,
    ) -> Result<Row, AllocError> {
        let Some(place) = places.get(lane as usize) else {
            return Err(AllocError);
        };
        let place = *place;
        let Some(line) = self.line(lane, place) else {
            return Err(AllocError);
        };
        let answer = self.answer(alloc, core, lane, place)?;
        places[lane as usize] = place.saturating_add(1);
        Ok(Row {
            number: line.number,
            text: line.text.clone()?,
            answer,
        })
    }

    /// The lanes go, one after another; each step is returned. `places` says how far each lane is.
    pub(crate) fn walk(
        &self,
        alloc: Global,
        core: &mut Core,
        places: &mut [usize],
        lanes: &[u32],
    ) -> Result<Vec<Row>, AllocError> {
        let mut rows = Vec::new(alloc);
        for lane in lanes {
            rows.push(self.go(alloc, core, places, *lane)?)?;
        }
        Ok(rows)
    }

    /// By thread, the number of the line on which it waits, if it waits: the last one that it carried out.
    pub(crate) fn since(&self, alloc: Global, places: &[usize]) -> Result<Vec<u64>, AllocError> {
        let mut since = Vec::new(alloc);
        for thread in 0..self.session.core().threads() {
            since.push(self.last_line(thread, places))?;
        }
        Ok(since)
    }

    /// The number of the line that the lane carried out last; 0 for none.
    fn last_line(&self, lane: u32, places: &[usize]) -> u64 {
        match places.get(lane as usize) {
            Some(place) if *place > 0 => self.line(lane, *place - 1).map_or(0, |line| line.number),
            _ => 0,
        }
    }

    /// By thread, whether it makes no further call: no line is left for it, and it does not wait.
    pub(crate) fn over(
        &self,
        alloc: Global,
        core: &Core,
        places: &[usize],
    ) -> Result<Vec<bool>, AllocError> {
        let mut over = Vec::new(alloc);
        for thread in 0..core.threads() {
            over.push(!core.is_waiting(thread) && !self.has_more(thread, places))?;
        }
        Ok(over)
    }

    /// Whether a line is left for the lane.
    fn has_more(&self, lane: u32, places: &[usize]) -> bool {
        match places.get(lane as usize) {
            Some(place) => self.plan.ask(lane, *place).is_some(),
            None => false,
        }
    }
}

/// How far an order was gone: its text, how many lines of each lane, and what was closed where acts were tried.
#[derive(Drop)]
pub(crate) struct Gone {
    pub text: Vec<u8>,
    pub at: Vec<usize>,
    pub closed: Vec<Handle>,
}

impl Gone {
    /// Puts what the lane that goes closes with a claim, and notes it.
    fn close(
        &mut self,
        alloc: Global,
        late: &[Made],
        lane: u32,
        ask: &Ask,
    ) -> Result<(), AllocError>
        ensures text { OnOk result (self.new.text.items
            ≡ self.old.text.items ++ close_lines lane (lost_by late.now self.old.closed.items (Some (asked ask.now)))) }
        ensures closed { OnOk result (self.new.closed.items
            ≡ self.old.closed.items ++ tries_of self.old.closed.items (Some (asked ask.now))) }
        ensures at { self.new.at ≡ self.old.at }
    {
        let closed = tries_of(alloc, &self.closed, ask)?;
        put_closes(&mut self.text, late, lane, &closed_first(ask), &closed)?;
        self.closed.extend_from_slice(&closed)
    }
}

impl Script {
    /// The lane goes: its next line follows, and what it closes with a claim.
    fn put_next(&self, alloc: Global, gone: &mut Gone, lane: u32) -> Result<(), AllocError>
        ensures { OnOk result (gone_of gone.new ≡ gone_on (lanes_of self.now) (gone_of gone.old) lane) }
    {
        if lane as usize >= gone.at.len() {
            return Err(AllocError);
        }
        let place = gone.at[lane as usize];
        match (
            bytes_at(&self.lines, lane, place),
            self.plan.ask(lane, place),
        ) {
            (Some(bytes), Some(ask)) => {
                put_whole(&mut gone.text, bytes)?;
                gone.close(alloc, &self.late, lane, ask)?;
                gone.at[lane as usize] = place + 1;
                Ok(())
            }
            _ => Err(AllocError),
        }
    }

    /// No lane went yet.
    fn none_gone(&self, alloc: Global) -> Result<Gone, AllocError>
        ensures { IfOk result (λ gone. gone_of gone ≡ none_gone (lanes_of self.now)) }
    {
        Ok(Gone {
            text: Vec::from_slice(alloc, &self.front)?,
            at: Vec::from_elem(alloc, 0, self.lines.len())?,
            closed: Vec::new(alloc),
        })
    }

    /// These lanes go, one after another.
    fn go_all(&self, alloc: Global, order: &[u32]) -> Result<Gone, AllocError>
        ensures { IfOk result (λ gone. gone_of gone ≡ gone_all (lanes_of self.now) order.now) }
    {
        let mut gone = self.none_gone(alloc)?;
        for lane in order {
            self.put_next(alloc, &mut gone, *lane)?;
        }
        Ok(gone)
    }

    /// The order that hangs, as a script, if one does.
    pub(crate) fn order_of(
        &self,
        alloc: Global,
        verdict: &OrderVerdict,
    ) -> Result<Option<Vec<u8>>, OrdersFault>
        ensures order { IfOk result (λ order. option_map (λ text. text.items) order ≡ order_of (lanes_of self.now) verdict.now) }
        ensures fault { IfErr result (λ fault. fault ≡ Memory) }
    {
        match verdict {
            OrderVerdict::Hangs { lanes, .. } => match self.go_all(alloc, lanes) {
                Ok(Gone { text, .. }) => Ok(Some(text)),
                Err(_) => Err(OrdersFault::Memory),
            },
            OrderVerdict::None | OrderVerdict::Met { .. } => Ok(None),
        }
    }
}
