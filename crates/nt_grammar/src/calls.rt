//! The line of each keyword, after its caller: a function for each row of the grammar's table.

ghost use Rattle.std.specs.Prelude.{◌≡◌};
ghost use Rattle.nt_grammar.specs.Places.{ObjectPlace};
ghost use Rattle.nt_grammar.specs.Scope.{Scope};
ghost use Rattle.nt_grammar.specs.Reading.{Gives, each_at, keyword_line_at};

use crate::fault::LineFault;
use crate::keyword::{Keyword, MANUAL, OWNED, SET};
use crate::parser::{Name, Statement};
use crate::places::object_of;
use crate::scope::Bindings;
use crate::words::Words;
use nt_calls::{Act, Call, WaitCall, WaitMode};
use nt_status::Handles;
use std::alloc::Global;

/// The line of a keyword.
pub(crate) fn parse_call(
    alloc: Global,
    bindings: &Bindings,
    who: u32,
    keyword: Keyword,
    words: Words,
) -> Result<Statement, LineFault>
    ensures { Gives (λ statement. statement) result (keyword_line_at bindings.now.scope who keyword words.entry) }
{
    match keyword {
        Keyword::Event => create_event(alloc, bindings, who, words),
        Keyword::Semaphore => create_semaphore(alloc, bindings, who, words),
        Keyword::Mutex => create_mutex(alloc, bindings, who, words),
        Keyword::Timer => create_timer(alloc, bindings, who, words),
        Keyword::Duplicate => duplicate_handle(alloc, bindings, who, words),
        Keyword::Set => set_event(bindings, who, words),
        Keyword::Reset => reset_event(bindings, who, words),
        Keyword::Pulse => pulse_event(bindings, who, words),
        Keyword::Release => release_semaphore(bindings, who, words),
        Keyword::Unlock => release_mutex(bindings, who, words),
        Keyword::Arm => set_timer(bindings, who, words),
        Keyword::Cancel => cancel_timer(bindings, who, words),
        Keyword::Apc => queue_apc(bindings, who, words),
        Keyword::Close => close_handle(bindings, who, words),
        Keyword::Any => wait_for_any(alloc, bindings, who, words),
        Keyword::All => wait_for_all(alloc, bindings, who, words),
        Keyword::Sleep => sleep_for(who, words),
        Keyword::Swap => signal_and_wait(bindings, who, words),
        Keyword::Next => next_apc(who, words),
        Keyword::Exit => exit_thread(who, words),
    }
}

/// A name, and whether the event is a manual one and whether it is set.
#[tactic(auto, unfolding(crate::specs::Reading::keyword_line_at))]
fn create_event(
    alloc: Global,
    bindings: &Bindings,
    who: u32,
    mut words: Words,
) -> Result<Statement, LineFault>
    ensures { Gives (λ statement. statement) result (keyword_line_at bindings.now.scope who Keyword.Event words.entry) }
{
    let name = words.free_name(bindings)?;
    let manual = words.option(MANUAL);
    let set = words.option(SET);
    words.end()?;
    let flags = if manual { 1 } else { 0 } + if set { 2 } else { 0 };
    let name = Name::new(alloc, name)?;
    let act = Act::CreateEvent(flags);
    Ok(Statement::Create { who, name, act })
}

/// A name, and the first and the greatest count.
#[tactic(auto, unfolding(crate::specs::Reading::keyword_line_at))]
fn create_semaphore(
    alloc: Global,
    bindings: &Bindings,
    who: u32,
    mut words: Words,
) -> Result<Statement, LineFault>
    ensures { Gives (λ statement. statement) result (keyword_line_at bindings.now.scope who Keyword.Semaphore words.entry) }
{
    let name = words.free_name(bindings)?;
    let initial = words.signed32()?;
    let maximum = words.signed32()?;
    words.end()?;
    let name = Name::new(alloc, name)?;
    let act = Act::CreateSemaphore { initial, maximum };
    Ok(Statement::Create { who, name, act })
}

/// A name, and whether the caller owns it.
#[tactic(auto, unfolding(crate::specs::Reading::keyword_line_at))]
fn create_mutex(
    alloc: Global,
    bindings: &Bindings,
    who: u32,
    mut words: Words,
) -> Result<Statement, LineFault>
    ensures { Gives (λ statement. statement) result (keyword_line_at bindings.now.scope who Keyword.Mutex words.entry) }
{
    let name = words.free_name(bindings)?;
    let owned = words.option(OWNED);
    words.end()?;
    let name = Name::new(alloc, name)?;
    let act = Act::CreateMutex(if owned { 1 } else { 0 });
    Ok(Statement::Create { who, name, act })
}

/// A name, and whether the timer is a manual one.
#[tactic(auto, unfolding(crate::specs::Reading::keyword_line_at))]
fn create_timer(
    alloc: Global,
    bindings: &Bindings,
    who: u32,
    mut words: Words,
) -> Result<Statement, LineFault>
    ensures { Gives (λ statement. statement) result (keyword_line_at bindings.now.scope who Keyword.Timer words.entry) }
{
    let name = words.free_name(bindings)?;
    let manual = words.option(MANUAL);
    words.end()?;
    let name = Name::new(alloc, name)?;
    let act = Act::CreateTimer(if manual { 1 } else { 0 });
    Ok(Statement::Create { who, name, act })
}

/// A name, an object, and rights.
#[tactic(auto, unfolding(crate::specs::Reading::keyword_line_at))]
fn duplicate_handle(
    alloc: Global,
    bindings: &Bindings,
    who: u32,
    mut words: Words,
) -> Result<Statement, LineFault>
    ensures { Gives (λ statement. statement) result (keyword_line_at bindings.now.scope who Keyword.Duplicate words.entry) }
{
    let name = words.free_name(bindings)?;
    let handle = words.object(bindings)?;
    let access = words.number(0, u64::from(u32::MAX))?;
    words.end()?;
    let name = Name::new(alloc, name)?;
    let access = access as u32;
    let act = Act::Duplicate { handle, access };
    Ok(Statement::Create { who, name, act })
}

/// An act of a thread.
fn act_of(who: u32, act: Act) -> Statement
    ensures { result ≡ Statement.Perform who (Call.Act act) }
{
    let call = Call::Act(act);
    Statement::Perform { who, call }
}

/// A waiting call of a thread.
fn wait_of(who: u32, wait: WaitCall) -> Statement
    ensures { result ≡ Statement.Perform who (Call.Wait wait) }
{
    let call = Call::Wait(wait);
    Statement::Perform { who, call }
}

/// An event.
#[tactic(auto, unfolding(crate::specs::Reading::keyword_line_at))]
fn set_event(bindings: &Bindings, who: u32, mut words: Words) -> Result<Statement, LineFault>
    ensures { Gives (λ statement. statement) result (keyword_line_at bindings.now.scope who Keyword.Set words.entry) }
{
    let event = words.object(bindings)?;
    words.end()?;
    Ok(act_of(who, Act::SetEvent(event)))
}

/// An event.
#[tactic(auto, unfolding(crate::specs::Reading::keyword_line_at))]
fn reset_event(bindings: &Bindings, who: u32, mut words: Words) -> Result<Statement, LineFault>
    ensures { Gives (λ statement. statement) result (keyword_line_at bindings.now.scope who Keyword.Reset words.entry) }
{
    let event = words.object(bindings)?;
    words.end()?;
    Ok(act_of(who, Act::ResetEvent(event)))
}

/// An event.
#[tactic(auto, unfolding(crate::specs::Reading::keyword_line_at))]
fn pulse_event(bindings: &Bindings, who: u32, mut words: Words) -> Result<Statement, LineFault>
    ensures { Gives (λ statement. statement) result (keyword_line_at bindings.now.scope who Keyword.Pulse words.entry) }
{
    let event = words.object(bindings)?;
    words.end()?;
    Ok(act_of(who, Act::PulseEvent(event)))
}

/// An object, and a count.
#[tactic(auto, unfolding(crate::specs::Reading::keyword_line_at))]
fn release_semaphore(
    bindings: &Bindings,
    who: u32,
    mut words: Words,
) -> Result<Statement, LineFault>
    ensures { Gives (λ statement. statement) result (keyword_line_at bindings.now.scope who Keyword.Release words.entry) }
{
    let semaphore = words.object(bindings)?;
    let count = words.signed32()?;
    words.end()?;
    Ok(act_of(who, Act::ReleaseSemaphore { semaphore, count }))
}

/// A mutex.
#[tactic(auto, unfolding(crate::specs::Reading::keyword_line_at))]
fn release_mutex(bindings: &Bindings, who: u32, mut words: Words) -> Result<Statement, LineFault>
    ensures { Gives (λ statement. statement) result (keyword_line_at bindings.now.scope who Keyword.Unlock words.entry) }
{
    let mutex = words.object(bindings)?;
    words.end()?;
    Ok(act_of(who, Act::ReleaseMutex(mutex)))
}

/// An object, when it is due, its period, and a routine with its argument or none.
#[tactic(auto, unfolding(crate::specs::Reading::keyword_line_at, crate::specs::Reading::routine_at))]
fn set_timer(bindings: &Bindings, who: u32, mut words: Words) -> Result<Statement, LineFault>
    ensures { Gives (λ statement. statement) result (keyword_line_at bindings.now.scope who Keyword.Arm words.entry) }
{
    let timer = words.object(bindings)?;
    let due = words.signed64()?;
    let period = words.signed32()?;
    let routine = words.routine()?;
    let act = Act::SetTimer {
        timer,
        due,
        period,
        routine,
    };
    Ok(act_of(who, act))
}

/// A timer.
#[tactic(auto, unfolding(crate::specs::Reading::keyword_line_at))]
fn cancel_timer(bindings: &Bindings, who: u32, mut words: Words) -> Result<Statement, LineFault>
    ensures { Gives (λ statement. statement) result (keyword_line_at bindings.now.scope who Keyword.Cancel words.entry) }
{
    let timer = words.object(bindings)?;
    words.end()?;
    Ok(act_of(who, Act::CancelTimer(timer)))
}

/// A thread's object, a routine and its argument.
#[tactic(auto, unfolding(crate::specs::Reading::keyword_line_at))]
fn queue_apc(bindings: &Bindings, who: u32, mut words: Words) -> Result<Statement, LineFault>
    ensures { Gives (λ statement. statement) result (keyword_line_at bindings.now.scope who Keyword.Apc words.entry) }
{
    let thread = words.object(bindings)?;
    let routine = words.number(0, u64::MAX)?;
    let arg = words.number(0, u64::MAX)?;
    words.end()?;
    let act = Act::QueueApc {
        thread,
        routine,
        arg,
    };
    Ok(act_of(who, act))
}

/// Any object.
#[tactic(auto, unfolding(crate::specs::Reading::keyword_line_at))]
fn close_handle(bindings: &Bindings, who: u32, mut words: Words) -> Result<Statement, LineFault>
    ensures { Gives (λ statement. statement) result (keyword_line_at bindings.now.scope who Keyword.Close words.entry) }
{
    let handle = words.object(bindings)?;
    words.end()?;
    Ok(act_of(who, Act::Close(handle)))
}

/// How long, whether alertable, and the objects.
#[tactic(auto, unfolding(crate::specs::Reading::keyword_line_at))]
fn wait_for_any(
    alloc: Global,
    bindings: &Bindings,
    who: u32,
    mut words: Words,
) -> Result<Statement, LineFault>
    ensures { Gives (λ statement. statement) result (keyword_line_at bindings.now.scope who Keyword.Any words.entry) }
{
    let ms = words.time()?;
    let alertable = words.mode()?;
    let handles = objects(alloc, bindings, words)?;
    let wait = WaitCall::Objects {
        handles,
        all: false,
        mode: WaitMode { ms, alertable },
    };
    Ok(wait_of(who, wait))
}

/// How long, whether alertable, and the objects.
#[tactic(auto, unfolding(crate::specs::Reading::keyword_line_at))]
fn wait_for_all(
    alloc: Global,
    bindings: &Bindings,
    who: u32,
    mut words: Words,
) -> Result<Statement, LineFault>
    ensures { Gives (λ statement. statement) result (keyword_line_at bindings.now.scope who Keyword.All words.entry) }
{
    let ms = words.time()?;
    let alertable = words.mode()?;
    let handles = objects(alloc, bindings, words)?;
    let wait = WaitCall::Objects {
        handles,
        all: true,
        mode: WaitMode { ms, alertable },
    };
    Ok(wait_of(who, wait))
}

/// The objects of the words that are left.
#[tactic(auto, using(crate::proofs::Parsing::objects_end))]
fn objects(alloc: Global, bindings: &Bindings, mut words: Words) -> Result<Handles, LineFault>
    ensures { Gives (λ handles. handles) result (each_at bindings.now.scope ObjectPlace words.entry) }
{
    let mut handles = Handles::new(alloc);
    let mut place = 0;
    while let Ok(word) = words.next() {
        let object = object_of(bindings, &mut place, word)?;
        handles.push(object)?;
    }
    Ok(handles)
}

/// How long, and whether alertable.
#[tactic(auto, unfolding(crate::specs::Reading::keyword_line_at))]
fn sleep_for(who: u32, mut words: Words) -> Result<Statement, LineFault>
    ensures { (scope : Scope) → Gives (λ statement. statement) result (keyword_line_at scope who Keyword.Sleep words.entry) }
{
    let ms = words.time()?;
    let alertable = words.mode()?;
    words.end()?;
    Ok(wait_of(who, WaitCall::Sleep(WaitMode { ms, alertable })))
}

/// The object to signal, the object to wait for, how long, and whether alertable.
#[tactic(auto, unfolding(crate::specs::Reading::keyword_line_at))]
fn signal_and_wait(bindings: &Bindings, who: u32, mut words: Words) -> Result<Statement, LineFault>
    ensures { Gives (λ statement. statement) result (keyword_line_at bindings.now.scope who Keyword.Swap words.entry) }
{
    let signal = words.object(bindings)?;
    let object = words.object(bindings)?;
    let ms = words.time()?;
    let alertable = words.mode()?;
    words.end()?;
    let wait = WaitCall::Swap {
        signal,
        object,
        mode: WaitMode { ms, alertable },
    };
    Ok(wait_of(who, wait))
}

/// Nothing more.
#[tactic(auto, unfolding(crate::specs::Reading::keyword_line_at))]
fn next_apc(who: u32, words: Words) -> Result<Statement, LineFault>
    ensures { (scope : Scope) → Gives (λ statement. statement) result (keyword_line_at scope who Keyword.Next words.entry) }
{
    words.end()?;
    Ok(act_of(who, Act::NextApc))
}

/// Nothing more.
#[tactic(auto, unfolding(crate::specs::Reading::keyword_line_at))]
fn exit_thread(who: u32, words: Words) -> Result<Statement, LineFault>
    ensures { (scope : Scope) → Gives (λ statement. statement) result (keyword_line_at scope who Keyword.Exit words.entry) }
{
    words.end()?;
    let call = Call::Exit;
    Ok(Statement::Perform { who, call })
}
