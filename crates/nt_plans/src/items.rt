//! What the lines of a script are, and those that go when their lanes do.
ghost use Rattle.std.specs.Prelude.{◌≡◌, ◌==◌, IfOk, Some};
ghost use Rattle.std.specs.List.{list_any};
ghost use Rattle.nt_lanes.specs.Lanes.{asked};
ghost use Rattle.nt_plans.specs.Gates.{closed_by, closes, is_among, is_handle, names};
ghost use Rattle.nt_plans.specs.Kept.{Finds, IsFoundOf, does_of, ended_of};
ghost use Rattle.nt_plans.specs.Lines.{is_refused, source_of};
ghost use Rattle.nt_script.specs.Progress.{progress};

use crate::line::Line;
use nt_calls::{Act, Call};
use nt_grammar::{LineFault, ScriptFault, Statement};
use nt_lanes::Ask;
use nt_lines::MAX_LINE;
use nt_script::Session;
use nt_status::Handle;
use std::alloc::{AllocError, Global};

/// Whose creation a line is, and what it makes another handle of.
#[derive(Clone, Copy)]
pub struct Creation {
    pub who: u32,
    pub source: Option<Handle>,
}

/// What ended on the lines above: the handles that they close, and the threads that exit there.
#[derive(Drop)]
pub struct Ended {
    pub closed: Vec<Handle>,
    pub exited: Vec<u32>,
}

/// What a line does when its lane goes.
#[derive(Drop)]
pub enum Does {
    Asks(Ask),
    /// It is a late creation, which gave this handle, another one of that handle.
    Makes {
        handle: Handle,
        source: Option<Handle>,
    },
}

/// A line that goes when its lane does.
#[derive(Drop)]
pub struct Item {
    pub lane: u32,
    pub line: Line,
    pub does: Does,
}

/// The same, in memory of its own.
pub(crate) fn copy_of(ask: &Ask) -> Result<Ask, AllocError>
    ensures { IfOk result (λ copied. asked copied ≡ asked ask.now) }
{
    match ask {
        Ask::Call(call) => Ok(Ask::Call(call.clone()?)),
        Ask::Tick(moment) => Ok(Ask::Tick(*moment)),
        Ask::Tries(acts) => Ok(Ask::Tries(acts.clone()?)),
    }
}

/// Whether the handle is this one.
pub(crate) fn is_handle(handle: Handle, sought: Option<Handle>) -> bool
    ensures { result ≡ is_handle handle sought }
{
    match sought {
        Some(it) => it == handle,
        None => false,
    }
}

/// The handle that is closed so.
pub fn closed_by(ask: &Ask) -> Option<Handle>
    ensures { result ≡ closed_by (asked ask.now) }
{
    match ask {
        Ask::Call(Call::Act(Act::Close(handle))) => Some(*handle),
        _ => None,
    }
}

/// Whether the handle is one of these.
pub(crate) fn is_one_of(handles: &[Handle], handle: Handle) -> bool
    ensures { result ≡ is_among handles.now (Some handle) }
{
    handles.iter().any(|it| *it == handle)
}

/// Whether the handle, if there is one, is one of these.
pub(crate) fn is_among(handles: &[Handle], sought: Option<Handle>) -> bool
    ensures { result ≡ is_among handles.now sought }
{
    match sought {
        Some(handle) => is_one_of(handles, handle),
        None => false,
    }
}

impl Does {
    /// Whether the line closes this handle, if it is one.
    pub(crate) fn closes(&self, sought: Option<Handle>) -> bool
        ensures { result ≡ closes (does_of self.now) sought }
    {
        match (self, sought) {
            (Does::Asks(ask), Some(handle)) => is_handle(handle, closed_by(ask)),
            _ => false,
        }
    }

    /// Whether the line names this handle.
    pub(crate) fn names(&self, handle: Handle) -> bool
        ensures { result ≡ names (does_of self.now) handle }
    {
        match self {
            Does::Asks(ask) => ask.names(handle),
            Does::Makes { source, .. } => is_handle(handle, *source),
        }
    }
}

/// Why a line can't be read.
#[derive(Clone, Copy)]
pub enum LaneFault {
    Line(LineFault),
    NoThread,
}

/// What a line is.
#[derive(Drop)]
pub enum Found {
    /// It is carried out before all calls, and may be a creation.
    Start(Option<Creation>),
    /// It is left out, since it does nothing in any order.
    Nothing,
    /// It asks this of the lane with this number.
    Asks(u32, Ask),
}

/// The handle that the act makes another one of.
fn source_of(act: Act) -> Option<Handle>
    ensures { result ≡ source_of act }
{
    match act {
        Act::Duplicate { handle, .. } => Some(handle),
        _ => None,
    }
}

impl Ended {
    /// Whether the thread has exited.
    fn has_exited(&self, thread: u32) -> bool
        ensures { result ≡ is_among self.now.exited.items (Some thread) }
    {
        self.exited.iter().any(|it| *it == thread)
    }

    /// Whether the creation is refused in each order.
    fn refuses(&self, creation: &Creation) -> bool
        ensures { result ≡ is_refused (ended_of self.now) creation.now.who creation.now.source }
    {
        self.has_exited(creation.who) || is_among(&self.closed, creation.source)
    }
}

/// What a statement is, after lines that end this.
fn found_of(statement: Statement, threads: u32, ended: &Ended) -> Result<Found, LaneFault>
    ensures { IsFoundOf threads (ended_of ended.now) statement result }
{
    match statement {
        Statement::Blank => Ok(Found::Start(None)),
        Statement::Create {
            who,
            name: _name,
            act,
        } => {
            let creation = Creation {
                who,
                source: source_of(act),
            };
            if ended.refuses(&creation) {
                Ok(Found::Nothing)
            } else {
                Ok(Found::Start(Some(creation)))
            }
        }
        Statement::Perform { who, call } => {
            if who >= threads {
                Err(LaneFault::NoThread)
            } else if ended.has_exited(who) {
                Ok(Found::Nothing)
            } else {
                Ok(Found::Asks(who, Ask::Call(call)))
            }
        }
        Statement::Tick { moment } => Ok(Found::Asks(threads, Ask::Tick(moment))),
    }
}

/// What a line after the `threads` line is, after lines that end this.
pub fn find_in(
    session: &Session,
    alloc: Global,
    ended: &Ended,
    line: &[u8],
) -> Result<Found, LaneFault>
    ensures { Finds (Some (progress session.now)) (ended_of ended.now) line.now result }
{
    if line.len() > MAX_LINE {
        return Err(LaneFault::Line(LineFault::Script(ScriptFault::LineTooLong)));
    }
    match session.read(alloc, line) {
        Ok(statement) => found_of(statement, session.core().threads(), ended),
        Err(fault) => Err(LaneFault::Line(fault)),
    }
}
