//! The words of scenarios: who asks for what of which objects, what it is answered, and which waits that ends.

/// INFINITE, a timeout that never passes.
pub const INFINITE: u32 = 0xFFFF_FFFF;

/// WAIT_TIMEOUT, a status.
pub const TIMEOUT: u32 = 0x102;

/// WAIT_IO_COMPLETION, a status.
pub const IO_COMPLETION: u32 = 0xC0;

/// WAIT_ABANDONED_0, a status.
pub const ABANDONED: u32 = 0x80;

/// ERROR_ACCESS_DENIED.
pub const ACCESS_DENIED: Answer = Answer::Error(5);

/// ERROR_INVALID_HANDLE.
pub const INVALID_HANDLE: Answer = Answer::Error(6);

/// ERROR_GEN_FAILURE: the thread has ended.
pub const THREAD_GONE: Answer = Answer::Error(31);

/// ERROR_INVALID_PARAMETER.
pub const INVALID_PARAMETER: Answer = Answer::Error(87);

/// ERROR_NOT_OWNER.
pub const NOT_OWNER: Answer = Answer::Error(288);

/// ERROR_TOO_MANY_POSTS.
pub const TOO_MANY_POSTS: Answer = Answer::Error(298);

/// The calling thread waits. This and those below have no Windows name, and so bit 29.
pub const THREAD_WAITING: Answer = Answer::Error(0x2000_0001);

/// The calling thread has ended.
pub const THREAD_ENDED: Answer = Answer::Error(0x2000_0002);

/// No thread has the caller's number.
pub const UNKNOWN_THREAD: Answer = Answer::Error(0x2000_0003);

/// The tick is to a moment before the present one.
pub const MOMENT_BACK: Answer = Answer::Error(0x2000_0005);

/// All 65536 handle numbers are used.
pub const HANDLE_LIMIT: Answer = Answer::Error(0x2000_0007);

/// What a thread asks. Timeouts and periods are in milliseconds, due times in 100 ns.
#[derive(Clone, Copy)]
pub enum Request {
    /// An event, with these flags: 1 manual reset, 2 set at first.
    Event(u32),
    /// A semaphore, with its count at first and its maximum.
    Semaphore(i32, i32),
    /// A mutex, with this flag: 1 owned by the caller.
    Mutex(u32),
    Set,
    Reset,
    Pulse,
    Release(i32),
    Unlock,
    /// A routine and its argument, for the thread that is named.
    Apc(u64, u64),
    /// A timer, with this flag: 1 manual reset.
    Timer(u32),
    /// A due time and a period.
    Arm(i64, i32),
    /// A due time, a period, and a routine with its argument.
    ArmRoutine(i64, i32, u64, u64),
    Cancel,
    /// One handle more, with these rights.
    Duplicate(u32),
    Close,
    /// The caller's oldest APC.
    Next,
    Any(u32),
    All(u32),
    Sleep(u32),
    AlertableAny(u32),
    AlertableAll(u32),
    AlertableSleep(u32),
    /// Signals the first object, and waits for the second.
    Swap(u32),
    AlertableSwap(u32),
    Exit,
}

/// What a call is answered, in the reference's numbers.
#[derive(Clone, Copy, PartialEq, Eq, Debug)]
pub enum Answer {
    Done,
    Handle(u32),
    /// The number of an object.
    Object(u32),
    /// The semaphore's count before.
    Previous(i32),
    Status(u32),
    Pended,
    /// The routine and argument of an APC that a thread queued.
    ThreadApc(u64, u64),
    /// The same of a timer's, and its due moment.
    TimerApc(u64, u64, u64),
    NoApc,
    Error(u32),
    /// None: the test itself had too little memory to ask, or named a moment that there is not.
    NotAsked,
}

/// A thread, and the status with which its wait ends.
pub type EndedWait = (u16, u32);

/// A step of a scenario.
#[derive(Clone, Copy)]
pub enum ScenarioStep {
    /// The caller, what it asks, of which objects, what it is answered, and the waits that end, in their order.
    Call(u32, Request, &'static [u32], Answer, &'static [EndedWait]),
    /// The same as `Call`, and the handles of a wait for objects are handed over as a slice.
    Slice(u32, Request, &'static [u32], Answer, &'static [EndedWait]),
    /// The same as `Call` for a call that takes no memory: whichever growth is refused, it is answered at once.
    NoGrowth(u32, Request, &'static [u32], Answer, &'static [EndedWait]),
    /// This thread creates events, with the handles from the first of these to the last.
    CreateEvents(u32, u32, u32),
    /// This thread creates an object so, asks this of it, which is done, and closes it: with the handles from the first of these to
    /// the last.
    CloseEach(u32, Request, &'static [Request], u32, u32),
    /// The caller creates an object so, with the number of one that is gone, and with that of a closed handle for its handle. The
    /// answer. It takes no memory.
    CreateAgain(u32, Request, u32, u32, Answer),
    /// The caller duplicates this handle, with these rights, and with the number of a closed handle for the new one. The answer. It
    /// takes no memory.
    DuplicateAgain(u32, u32, u32, u32, Answer),
    /// This thread begins again, and its handle has the number of a closed one. The answer. It takes no memory.
    BeginAgain(u32, u32, Answer),
    /// This thread's object, which has ended, gets this number, of one that is gone. The answer: 6 if it can't. It takes no memory.
    SetAside(u32, u32, Answer),
    /// One object number more, of an object that is gone. The answer.
    AddVacant(Answer),
    /// Whether the numbers of these objects may be given again, each of them or none.
    Vacant(&'static [u32], bool),
    /// Whether the numbers of these handles may be given again, each of them or none.
    Closed(&'static [u32], bool),
    /// All moments up to this one pass. The answer, and the waits that end, in their order. It takes no memory.
    Tick(u64, Answer, &'static [EndedWait]),
    /// The last call or tick tested this number of pending waits.
    Tested(u64),
    /// This is the present moment.
    Now(u64),
    /// This number of objects live.
    Living(u64),
    /// The next moment up to this one at which something is due.
    Due(u64, Option<u64>),
    /// Exactly these threads wait.
    Waiting(&'static [u32]),
    /// None of these numbers is that of a thread that waits.
    Idle(&'static [u32]),
}

/// Steps from a new dispatcher on, and what they show.
pub struct Scenario {
    pub shows: &'static str,
    pub threads: u32,
    pub steps: &'static [ScenarioStep],
}
