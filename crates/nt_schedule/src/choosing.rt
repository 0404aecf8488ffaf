//! Who goes on at a point.

ghost use Rattle.std.specs.Prelude.{◌≡◌, length};
ghost use Rattle.nt_schedule.specs.Turns.{alone, in_turn, usual, may_jump, is_possible, choice_of, is_thread};

use crate::standing::{Choice, Point, TurnRequest};
use crate::turns::Turns;

impl Choice {
    fn is_thread(self) -> bool
        ensures { result ≡ is_thread self }
    {
        match self {
            Choice::Thread(_) => true,
            Choice::Clock => false,
            Choice::Nobody => false,
        }
    }
}

impl Turns {
    /// Where no other thread can go on: the caller if it can, else the clock, if there is a deadline.
    fn alone(&self, caller: usize) -> Choice
        ensures { result ≡ alone caller self.now.threads.items }
    {
        if self.can_go_on(caller) {
            Choice::Thread(caller)
        } else if self.deadline().is_some() {
            Choice::Clock
        } else {
            Choice::Nobody
        }
    }

    /// Who goes on where the caller does not by itself.
    fn in_turn(&self, caller: usize) -> Choice
        ensures { result ≡ in_turn caller self.now.threads.items }
    {
        match self.waiting(caller) {
            Some(turn) => Choice::Thread(turn.thread),
            None => self.alone(caller),
        }
    }

    /// Who goes on where nothing is decided: the caller, where it calls; else the next in turn.
    fn usual(&self, point: Point, caller: usize) -> Choice
        ensures { result ≡ usual point caller self.now.threads.items }
    {
        match point {
            Point::Call => {
                if self.can_go_on(caller) {
                    Choice::Thread(caller)
                } else {
                    self.in_turn(caller)
                }
            }
            Point::Yield => self.in_turn(caller),
            Point::Sleep => self.in_turn(caller),
            Point::End => self.in_turn(caller),
        }
    }

    /// Whether a deadline may come early.
    fn may_jump(&self, asked: TurnRequest) -> bool
        ensures { result ≡ may_jump asked self.now.threads.items }
    {
        asked.is_free
            && self.deadline().is_some()
            && self.usual(asked.point, asked.caller).is_thread()
    }

    fn is_possible(&self, asked: TurnRequest, choice: Choice) -> bool
        ensures { result ≡ is_possible asked self.now.threads.items choice }
    {
        match choice {
            Choice::Thread(thread) => self.can_go_on(thread),
            Choice::Clock => self.may_jump(asked),
            Choice::Nobody => false,
        }
    }

    /// What is wanted if that can be, and else what is usual.
    pub(crate) fn choose(&self, asked: TurnRequest) -> Choice
        ensures { result ≡ choice_of asked self.now.threads.items }
    {
        match asked.wanted {
            Some(choice) => {
                if self.is_possible(asked, choice) {
                    choice
                } else {
                    self.usual(asked.point, asked.caller)
                }
            }
            None => self.usual(asked.point, asked.caller),
        }
    }
}
