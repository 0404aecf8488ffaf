//! The threads of a run, and the time.

ghost use Rattle.std.specs.Prelude.{◌≡◌, ◌<◌, length, IfOk, OnOk, OnErr};
ghost use Rattle.std.specs.Option.{option_map};
ghost use Rattle.nt_schedule.specs.Turns.{standing, can_go_on, deadline, waiting, sleeper, next_number, moment_of, put, let_go_on, due_goes_on, looked_round, looked, jumped, goes_by, choice_of, opening, come, fallen_asleep, woken, waits_anew, sleeps, roused, ended, passed, thread_of};

use crate::standing::{Choice, Sleep, ThreadState, Turn, TurnRequest, earlier, longest};
use std::alloc::{AllocError, Global};

/// The threads of a run by number, and the time in units of 100 ns.
#[derive(Debug, Drop)]
pub struct Turns {
    pub(crate) threads: Vec<ThreadState>,
    pub(crate) time: u64,
    /// How often a thread could go on from then on, and how often one fell asleep.
    pub(crate) turns: u64,
    pub(crate) sleeps: u64,
}

impl Turns {
    /// No thread, at moment 0.
    pub fn new(alloc: Global) -> Turns
        ensures { moment_of result ≡ opening }
    {
        Turns {
            threads: Vec::new(alloc),
            time: 0,
            turns: 0,
            sleeps: 0,
        }
    }

    pub(crate) fn at(&self, number: usize) -> ThreadState
        requires { number < length self.now.threads.items }
        ensures { result ≡ standing self.now.threads.items number }
    {
        self.threads[number]
    }

    pub(crate) fn can_go_on(&self, thread: usize) -> bool
        ensures { result ≡ can_go_on (standing self.now.threads.items thread) }
    {
        if thread < self.threads.len() {
            self.at(thread).can_go_on()
        } else {
            false
        }
    }

    /// The next deadline.
    pub(crate) fn deadline(&self) -> Option<u64>
        ensures { result ≡ deadline (length self.now.threads.items) self.now.threads.items }
    {
        let mut least = None;
        for thread in 0..self.threads.len() {
            least = earlier(least, self.at(thread).until());
        }
        least
    }

    /// Of the other threads that can go on the one that has waited the longest.
    pub(crate) fn waiting(&self, caller: usize) -> Option<Turn>
        ensures { result ≡ waiting (length self.now.threads.items) caller self.now.threads.items }
    {
        let mut first = None;
        for thread in 0..self.threads.len() {
            first = longest(first, self.at(thread).turn_but(caller, thread));
        }
        first
    }

    /// Of the threads that sleep on this word the one that fell asleep first.
    fn sleeper(&self, word: u64) -> Option<Turn>
        ensures { result ≡ sleeper (length self.now.threads.items) word self.now.threads.items }
    {
        let mut first = None;
        for thread in 0..self.threads.len() {
            first = longest(first, self.at(thread).sleep_on(word, thread));
        }
        first
    }

    fn put(&mut self, thread: usize, standing: ThreadState)
        ensures moment { moment_of self.new ≡ put (moment_of self.old) thread standing }
        ensures len { length self.new.threads.items ≡ length self.old.threads.items }
    {
        if thread < self.threads.len() {
            self.threads[thread] = standing;
        }
    }

    fn let_go_on(&mut self, thread: usize)
        ensures moment { moment_of self.new ≡ let_go_on (moment_of self.old) thread }
        ensures len { length self.new.threads.items ≡ length self.old.threads.items }
    {
        self.turns = self.turns.saturating_add(1);
        let turn = self.turns;
        self.put(thread, ThreadState::Ready(turn));
    }

    /// If its deadline has come it can go on.
    fn let_due_go_on(&mut self, thread: usize)
        requires { thread < length self.old.threads.items }
        ensures moment { moment_of self.new ≡ due_goes_on (moment_of self.old) thread }
        ensures len { length self.new.threads.items ≡ length self.old.threads.items }
    {
        if self.at(thread).is_due(self.time) {
            self.let_go_on(thread);
        }
    }

    /// Those whose deadline has come can go on.
    fn look_round(&mut self)
        ensures { moment_of self.new ≡ looked (moment_of self.old) }
    {
        for thread in 0..self.threads.len() {
            self.let_due_go_on(thread);
        }
    }

    /// The next deadline comes: the time is no less than that.
    fn jump(&mut self)
        ensures { moment_of self.new
            ≡ jumped (deadline (length self.old.threads.items) self.old.threads.items) (moment_of self.old) }
    {
        match self.deadline() {
            Some(moment) => {
                self.time = self.time.max(moment);
            }
            None => {}
        }
    }

    /// If the thread can go on it waits for its next turn from now on.
    fn wait_anew(&mut self, thread: usize)
        ensures moment { moment_of self.new ≡ waits_anew thread (moment_of self.old) }
    {
        if self.can_go_on(thread) {
            self.let_go_on(thread);
        }
    }

    fn go(&mut self, caller: usize, choice: Choice)
        ensures { moment_of self.new ≡ goes_by caller choice (moment_of self.old) }
    {
        match choice {
            Choice::Thread(thread) => {
                if thread != caller {
                    self.wait_anew(caller);
                }
            }
            Choice::Clock => self.jump(),
            Choice::Nobody => {}
        }
    }

    /// A thread comes to a point. Answers who goes on, which is what is wanted there if that can be, and else what is usual.
    ///
    /// Where another thread goes on the caller waits for its next turn. Where the clock does, the next deadline has come, and the caller asks once
    /// more.
    pub fn turn(&mut self, asked: TurnRequest) -> Choice
        ensures choice { result ≡ choice_of asked (looked (moment_of self.old)).threads }
        ensures moment { moment_of self.new ≡ goes_by asked.caller result (looked (moment_of self.old)) }
    {
        self.look_round();
        let choice = self.choose(asked);
        self.go(asked.caller, choice);
        choice
    }

    /// A thread is there, and can go on from now on. Answers its number.
    pub fn come(&mut self) -> Result<usize, AllocError>
        ensures number { IfOk result (λ thread. thread ≡ length self.old.threads.items) }
        ensures moment { OnOk result (moment_of self.new ≡ come (moment_of self.old)) }
        ensures refused { OnErr result (moment_of self.new ≡ moment_of self.old) }
    {
        let thread = self.threads.len();
        let turn = self.turns.saturating_add(1);
        self.threads.push(ThreadState::Ready(turn))?;
        self.turns = turn;
        Ok(thread)
    }

    /// The thread falls asleep.
    pub fn fall_asleep(&mut self, thread: usize, word: u64, until: Option<u64>)
        ensures { moment_of self.new ≡ fallen_asleep (moment_of self.old) thread word until }
    {
        self.sleeps = self.sleeps.saturating_add(1);
        let number = self.sleeps;
        self.put(
            thread,
            ThreadState::Asleep(Sleep {
                word,
                until,
                number,
            }),
        );
    }

    /// Wakes who fell asleep first on this word. Answers which thread that is; none sleeps there, if it answers none.
    pub fn wake(&mut self, word: u64) -> Option<usize>
        ensures thread { result
            ≡ option_map thread_of (sleeper (length self.old.threads.items) word self.old.threads.items) }
        ensures moment { moment_of self.new ≡ woken word (moment_of self.old) }
    {
        match self.sleeper(word) {
            Some(first) => {
                self.let_go_on(first.thread);
                Some(first.thread)
            }
            None => None,
        }
    }

    /// What the thread sleeps for has come by another way than a call: it can go on, if it sleeps.
    pub fn rouse(&mut self, thread: usize)
        ensures { moment_of self.new ≡ roused (moment_of self.old) thread }
    {
        if thread < self.threads.len() && self.at(thread).sleeps() {
            self.let_go_on(thread);
        }
    }

    /// The thread has ended.
    pub fn end(&mut self, thread: usize)
        ensures { moment_of self.new ≡ ended (moment_of self.old) thread }
    {
        self.put(thread, ThreadState::Ended);
    }

    /// Time passes with a step.
    pub fn pass(&mut self, units: u64)
        ensures { moment_of self.new ≡ passed units (moment_of self.old) }
    {
        self.time = self.time.saturating_add(units);
    }

    /// The time.
    pub fn time(&self) -> u64
        ensures { result ≡ (moment_of self.now).time }
    {
        self.time
    }
}
