//! How a thread stands, and who goes on.

ghost use Rattle.std.specs.Prelude.{◌≡◌};
ghost use Rattle.nt_schedule.specs.Turns.{can_go_on, sleeps, until_of, is_due, earlier, longest, turn_of, turn_but, sleep_on};

/// A sleep: on a word, and to a moment or until another thread wakes it.
#[derive(Clone, Copy, Debug, PartialEq, Eq)]
pub struct Sleep {
    pub word: u64,
    pub until: Option<u64>,
    /// Which sleep of the run it is.
    pub number: u64,
}

/// How a thread stands.
#[derive(Clone, Copy, Debug, PartialEq, Eq)]
pub enum ThreadState {
    /// It can go on, since this turn.
    Ready(u64),
    Asleep(Sleep),
    Ended,
}

/// Why a thread comes to a point: it calls, lets others go first, sleeps, or has ended.
#[derive(Clone, Copy, Debug, PartialEq, Eq)]
pub enum Point {
    Call,
    Yield,
    Sleep,
    End,
}

/// Who goes on at a point.
#[derive(Clone, Copy, Debug, PartialEq, Eq)]
pub enum Choice {
    Thread(usize),
    /// The next deadline comes.
    Clock,
    /// Nobody can go on, and nothing is due: the run hangs, or each thread has ended.
    Nobody,
}

/// A point, and what is wanted there.
#[derive(Clone, Copy, Debug, PartialEq, Eq)]
pub struct TurnRequest {
    pub point: Point,
    /// The thread that comes to it.
    pub caller: usize,
    /// What is decided; none: what is usual.
    pub wanted: Option<Choice>,
    /// Whether a deadline may come although threads could run.
    pub is_free: bool,
}

/// Since when a thread can go on, or which sleep it sleeps.
#[derive(Clone, Copy, Debug, PartialEq, Eq)]
pub struct Turn {
    pub since: u64,
    pub thread: usize,
}

impl ThreadState {
    pub(crate) fn can_go_on(self) -> bool
        ensures { result ≡ can_go_on self }
    {
        match self {
            ThreadState::Ready(_) => true,
            ThreadState::Asleep(_) => false,
            ThreadState::Ended => false,
        }
    }

    pub(crate) fn sleeps(self) -> bool
        ensures { result ≡ sleeps self }
    {
        match self {
            ThreadState::Ready(_) => false,
            ThreadState::Asleep(_) => true,
            ThreadState::Ended => false,
        }
    }

    /// The moment at which it can go on by itself.
    pub(crate) fn until(self) -> Option<u64>
        ensures { result ≡ until_of self }
    {
        match self {
            ThreadState::Ready(_) => None,
            ThreadState::Asleep(sleep) => sleep.until,
            ThreadState::Ended => None,
        }
    }

    /// Whether its deadline has come.
    pub(crate) fn is_due(self, time: u64) -> bool
        ensures { result ≡ is_due time self }
    {
        match self.until() {
            Some(moment) => moment <= time,
            None => false,
        }
    }

    /// The turn of this thread, if it can go on.
    fn turn(self, thread: usize) -> Option<Turn>
        ensures { result ≡ turn_of thread self }
    {
        match self {
            ThreadState::Ready(since) => Some(Turn { since, thread }),
            ThreadState::Asleep(_) => None,
            ThreadState::Ended => None,
        }
    }

    /// The turn of this thread, if it can go on and is another thread than the caller.
    pub(crate) fn turn_but(self, caller: usize, thread: usize) -> Option<Turn>
        ensures { result ≡ turn_but caller thread self }
    {
        if thread == caller {
            None
        } else {
            self.turn(thread)
        }
    }

    /// The sleep of this thread, if it sleeps on this word.
    pub(crate) fn sleep_on(self, word: u64, thread: usize) -> Option<Turn>
        ensures { result ≡ sleep_on word thread self }
    {
        match self {
            ThreadState::Ready(_) => None,
            ThreadState::Asleep(sleep) => sleep.on(word, thread),
            ThreadState::Ended => None,
        }
    }
}

impl Sleep {
    fn on(self, word: u64, thread: usize) -> Option<Turn>
        ensures { result ≡ sleep_on word thread (ThreadState.Asleep self) }
    {
        if self.word == word {
            Some(Turn {
                since: self.number,
                thread,
            })
        } else {
            None
        }
    }
}

/// The earlier of two moments.
pub(crate) fn earlier(a: Option<u64>, b: Option<u64>) -> Option<u64>
    ensures { result ≡ earlier a b }
{
    match a {
        None => b,
        Some(m) => match b {
            None => Some(m),
            Some(n) => { if n < m { Some(n) } else { Some(m) } }
        },
    }
}

/// Of two turns the earlier one; of equal ones the first.
pub(crate) fn longest(a: Option<Turn>, b: Option<Turn>) -> Option<Turn>
    ensures { result ≡ longest a b }
{
    match a {
        None => b,
        Some(one) => match b {
            None => Some(one),
            Some(other) => {
                if other.since < one.since {
                    Some(other)
                } else {
                    Some(one)
                }
            }
        },
    }
}
