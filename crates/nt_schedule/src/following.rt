//! The machine follows what a run reports of its steps.

ghost use Rattle.std.specs.Prelude.{◌≡◌, IfOk, OnOk, OnErr};
ghost use Rattle.nt_schedule.specs.Turns.{course_of, beginning, is_turn_of, turn_after, followed, is_same, is_same_thread, turn_differs, differs};

use crate::standing::Choice;
use crate::told::{Differs, Slept, StepReport, Turned, Woken};
use crate::turns::Turns;
use std::alloc::{AllocError, Global};

/// The threads of a run and the time, and whose turn it is.
#[derive(Debug, Drop)]
pub struct Run {
    pub(crate) turns: Turns,
    pub(crate) turn: Option<usize>,
}

fn is_same(one: Choice, other: Choice) -> bool
    ensures { result ≡ is_same one other }
{
    match (one, other) {
        (Choice::Thread(a), Choice::Thread(b)) => a == b,
        (Choice::Clock, Choice::Clock) => true,
        (Choice::Nobody, Choice::Nobody) => true,
        _ => false,
    }
}

fn is_same_thread(one: Option<usize>, other: Option<usize>) -> bool
    ensures { result ≡ is_same_thread one other }
{
    match (one, other) {
        (Some(a), Some(b)) => a == b,
        (None, None) => true,
        _ => false,
    }
}

fn is_turn_of(thread: usize, turn: Option<usize>) -> bool
    ensures { result ≡ is_turn_of thread turn }
{
    match turn {
        Some(who) => who == thread,
        None => false,
    }
}

fn turn_after(caller: usize, choice: Choice) -> Option<usize>
    ensures { result ≡ turn_after caller choice }
{
    match choice {
        Choice::Thread(thread) => Some(thread),
        Choice::Clock => Some(caller),
        Choice::Nobody => None,
    }
}

impl Run {
    /// No thread, at moment 0; it is the turn of the first one.
    pub fn new(alloc: Global) -> Run
        ensures { course_of result ≡ beginning }
    {
        Run {
            turns: Turns::new(alloc),
            turn: Some(0),
        }
    }

    fn turn_differs(&self, thread: usize) -> Option<Differs>
        ensures { result ≡ turn_differs thread (course_of self.now) }
    {
        if is_turn_of(thread, self.turn) {
            None
        } else {
            Some(Differs::HasTurn(self.turn))
        }
    }

    fn sleep(&mut self, it: Slept) -> Option<Differs>
        ensures found { result ≡ differs (StepReport.Sleeps it) (course_of self.old) }
        ensures course { course_of self.new ≡ followed (StepReport.Sleeps it) (course_of self.old) }
    {
        let found = self.turn_differs(it.thread);
        self.turns.fall_asleep(it.thread, it.word, it.until);
        found
    }

    fn wake(&mut self, it: Woken) -> Option<Differs>
        ensures found { result ≡ differs (StepReport.Wakes it) (course_of self.old) }
        ensures course { course_of self.new ≡ followed (StepReport.Wakes it) (course_of self.old) }
    {
        let woken = self.turns.wake(it.word);
        if is_same_thread(woken, it.thread) {
            None
        } else {
            Some(Differs::Wakes(woken))
        }
    }

    /// Whose turn it is goes on, as the machine chooses.
    fn take_turn(&mut self, it: Turned) -> Option<Differs>
        ensures found { result ≡ differs (StepReport.Turns it) (course_of self.old) }
        ensures course { course_of self.new ≡ followed (StepReport.Turns it) (course_of self.old) }
    {
        let before = self.turn;
        let choice = self.turns.turn(it.asked);
        let time = self.turns.time();
        self.turn = turn_after(it.asked.caller, choice);
        if !is_turn_of(it.asked.caller, before) {
            Some(Differs::HasTurn(before))
        } else if !is_same(choice, it.choice) {
            Some(Differs::Chooses(choice))
        } else if time != it.time {
            Some(Differs::IsAt(time))
        } else {
            None
        }
    }

    fn hang(&self) -> Option<Differs>
        ensures { result ≡ differs StepReport.Hangs (course_of self.now) }
    {
        if is_same_thread(self.turn, None) {
            None
        } else {
            Some(Differs::HasTurn(self.turn))
        }
    }

    /// Goes on by the reported step. Answers how the machine goes otherwise there, or none where it goes the same way.
    pub fn follow(&mut self, told: StepReport) -> Result<Option<Differs>, AllocError>
        ensures found { IfOk result (λ found. found ≡ differs told (course_of self.old)) }
        ensures course { OnOk result (course_of self.new ≡ followed told (course_of self.old)) }
        ensures refused { OnErr result (course_of self.new ≡ course_of self.old) }
    {
        match told {
            StepReport::Comes => {
                self.turns.come()?;
            }
            StepReport::Sleeps(it) => return Ok(self.sleep(it)),
            StepReport::Wakes(it) => return Ok(self.wake(it)),
            StepReport::Rouses(thread) => self.turns.rouse(thread),
            StepReport::Ends(thread) => self.turns.end(thread),
            StepReport::Passes(units) => self.turns.pass(units),
            StepReport::Turns(it) => return Ok(self.take_turn(it)),
            StepReport::Hangs => return Ok(self.hang()),
        }
        Ok(None)
    }
}
