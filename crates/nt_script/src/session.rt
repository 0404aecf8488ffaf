//! What a script speaks to after its `threads` line.

ghost use Rattle.std.specs.Prelude.{◌≡◌, ◌+◌, ◌*◌, ◌-◌, ◌<◌, ◌≤◌, ◌^◌, ◌∷◌, [], ◌++◌, OnOk, OnErr, IfOk, IfErr, IfSome, length, None, Some, vec_len, vec_capacity, Result, Ok, Err};
ghost use Rattle.std.specs.FinMap.{len};
ghost use Rattle.nt_lines.specs.declared.input.TheConstants.{MAX_LINE};
ghost use Rattle.nt_machine.specs.Dispatcher.{state};
ghost use Rattle.nt_grammar.specs.Reading.{Gives, statement_of, opening_of};
ghost use Rattle.nt_grammar.specs.Naming.{NamesFree};
ghost use Rattle.nt_grammar.specs.Scope.{bound_in, handle_in, name_in};
ghost use Rattle.std.specs.Option.{option_copied};
ghost use Rattle.nt_script.specs.declared.transcript.TheConstants.{MOST_BYTES};
ghost use Rattle.nt_script.specs.Transcript.{binds};
ghost use Rattle.nt_grammar.specs.Naming.{handle_of};
ghost use Rattle.nt_grammar.specs.Lines.{ReadsOpening, ReadsStatement, opened_scope};
ghost use Rattle.nt_script.specs.Progress.{Opens, AreCounted, LineAnswers, progress_of};

use crate::summary::Summary;
use crate::tally::Tally;
use crate::transcript::{MOST_BYTES, put_turn};
use nt_core::{Act, Call, Core, Reply};
use nt_grammar::{
    Bindings, LineFault, Name, Statement, handle_of, put_number, read_opening, read_statement,
};
use nt_lines::put;
use nt_status::{Handle, MAX_THREADS, Moment, Refusal};
use std::alloc::{AllocError, Global};
use std::mem;

/// How the line after the last begins.
const END: &[u8] = b"end: pending";

/// The core, the names bound so far, and the count of calls.
#[derive(Drop)]
pub struct Session {
    pub(crate) core: Core,
    pub(crate) bindings: Bindings,
    pub(crate) tally: Tally,
}

/// Carries out a line before `threads`. The core is opened by the `threads` line.
pub(crate) fn open(alloc: Global, line: &[u8]) -> Result<Option<Session>, LineFault>
    requires { length line.now ≤ MAX_LINE }
    ensures { Opens line.now result }
{
    match read_opening(line)? {
        Some(threads) => Ok(Some(Session::new(alloc, threads)?)),
        None => Ok(None),
    }
}

impl Session {
    ghost use Rattle.nt_script.specs.Progress.{progress, LineAnswers, MakesTurn, ProgressIsCounted, ProgressIsFresh};
    ghost use Rattle.nt_calls.specs.Runs.{Calls, Ticks};

    fn new(alloc: Global, threads: u32) -> Result<Session, AllocError>
        requires range { (0 < threads) × (threads ≤ MAX_THREADS) }
        ensures fresh { IfOk result (λ session. ProgressIsFresh (progress session)) }
        ensures scope { IfOk result (λ session. session.bindings.scope ≡ opened_scope threads) }
    {
        match Core::new(alloc, threads) {
            Ok(core) => Ok(Session {
                core,
                bindings: Bindings::new(alloc, threads),
                tally: Tally::new(),
            }),
            Err(Refusal::Memory) => Err(AllocError),
            Err(_) => unreachable!(),
        }
    }

    /// What a line after `threads` says. Nothing is carried out.
    pub fn read(&self, alloc: Global, line: &[u8]) -> Result<Statement, LineFault>
        requires { length line.now ≤ MAX_LINE }
        ensures reads { ReadsStatement self.now.bindings.scope line.now result }
        ensures free { IfOk result (NamesFree self.now.bindings.scope) }
    {
        read_statement(alloc, &self.bindings, line)
    }

    /// Makes room for a turn's text, and for a name.
    fn make_room(&mut self, out: &mut Vec<u8>) -> Result<(), AllocError>
        requires { out.old.items ≡ [] }
        ensures empty { out.new.items ≡ [] }
        ensures text { OnOk result ((2 + len (state self.new.core).waits) * MOST_BYTES ≤ vec_capacity out.new) }
        ensures name { OnOk result (0 < self.new.bindings.room) }
        ensures same { progress self.new ≡ progress self.old }
    {
        self.bindings.reserve()?;
        let lines = self.core.pending().checked_add(2).ok_or(AllocError)?;
        out.reserve(lines.checked_mul(MOST_BYTES).ok_or(AllocError)?)
    }

    /// Makes one call, and puts what came of it where there is room for it.
    fn perform(
        &mut self,
        number: u64,
        who: u32,
        call: &Call,
        out: &mut Vec<u8>,
    ) -> Result<Reply, Refusal>
        requires counted { ProgressIsCounted number (progress self.old) }
        requires number { number < 2 ^ 64 }
        requires empty { out.old.items ≡ [] }
        requires room { (2 + len (state self.old.core).waits) * MOST_BYTES ≤ vec_capacity out.old }
        ensures turn { MakesTurn number (Calls who call.now result self.new.core.grants) (progress self.old)
            out.new.items (progress self.new) }
        ensures bindings { self.new.bindings ≡ self.old.bindings }
    {
        let answer = self.core.call(who, call);
        let grants = self.core.grants();
        put_turn(out, number, &answer, grants);
        self.tally.count(&answer, grants.len());
        answer
    }

    /// Makes one tick, and puts what came of it where there is room for it.
    fn tick(&mut self, number: u64, moment: Moment, out: &mut Vec<u8>) -> Result<Reply, Refusal>
        requires counted { ProgressIsCounted number (progress self.old) }
        requires number { number < 2 ^ 64 }
        requires empty { out.old.items ≡ [] }
        requires room { (2 + len (state self.old.core).waits) * MOST_BYTES ≤ vec_capacity out.old }
        ensures turn { MakesTurn number (Ticks 0 moment result self.new.core.grants) (progress self.old)
            out.new.items (progress self.new) }
        ensures bindings { self.new.bindings ≡ self.old.bindings }
    {
        let answer = self.core.tick(moment);
        let ended = self.core.grants();
        put_turn(out, number, &answer, ended);
        self.tally.count(&answer, ended.len());
        answer
    }

    /// Makes a creation's call, and binds its name where it answers a handle.
    fn create(
        &mut self,
        number: u64,
        who: u32,
        name: Name,
        act: Act,
        out: &mut Vec<u8>,
    ) -> Result<Reply, Refusal>
        requires counted { ProgressIsCounted number (progress self.old) }
        requires number { number < 2 ^ 64 }
        requires empty { out.old.items ≡ [] }
        requires room { (2 + len (state self.old.core).waits) * MOST_BYTES ≤ vec_capacity out.old }
        requires place { 0 < self.old.bindings.room }
        requires free { bound_in self.old.bindings.scope.names name ≡ None }
        ensures turn { MakesTurn number (Calls who (Call.Act act) result self.new.core.grants) (progress self.old)
            out.new.items (progress self.new) }
        ensures scope { self.new.bindings.scope ≡ binds name (handle_of result) self.old.bindings.scope }
    {
        let answer = self.perform(number, who, &Call::Act(act), out);
        if let Some(handle) = handle_of(&answer) {
            self.bindings.bind(name.into_bytes(), handle);
        }
        answer
    }

    /// Carries out a line after `threads`, and puts what it says into `out`.
    pub(crate) fn carry_out(
        &mut self,
        alloc: Global,
        number: u64,
        line: &[u8],
        out: &mut Vec<u8>,
    ) -> Result<(), LineFault>
        requires short { length line.now ≤ MAX_LINE }
        requires counted { ProgressIsCounted number (progress self.old) }
        requires number { number < 2 ^ 64 }
        requires empty { out.old.items ≡ [] }
        ensures { LineAnswers number line.now (Some (progress self.old)) result out.new.items
            (Some (progress self.new)) }
    {
        let statement = self.read(alloc, line)?;
        self.make_room(out)?;
        match statement {
            Statement::Blank => Ok(()),
            Statement::Perform { who, call } => {
                let _answer = self.perform(number, who, &call, out);
                Ok(())
            }
            Statement::Tick { moment } => {
                let _answer = self.tick(number, moment, out);
                Ok(())
            }
            Statement::Create { who, name, act } => {
                let _answer = self.create(number, who, name, act, out);
                Ok(())
            }
        }
    }
}

/// Carries out a line before `threads`, where there is no session yet.
fn begin(session: &mut Option<Session>, alloc: Global, line: &[u8]) -> Result<(), LineFault>
    requires short { length line.now ≤ MAX_LINE }
    ensures opens { OnOk result (Opens line.now (Ok session.new)) }
    ensures fault { IfErr result (λ fault. Opens line.now (Err fault)) }
{
    let opened = open(alloc, line)?;
    drop(mem::replace(session, opened));
    Ok(())
}

/// Carries out the line with this number, counted from 1, and puts what it says into `out`, in place of what is there. A session
/// begins with the `threads` line. On `Err` nothing is promised of `out`.
pub fn carry_out(
    session: &mut Option<Session>,
    alloc: Global,
    number: u64,
    line: &[u8],
    out: &mut Vec<u8>,
) -> Result<(), LineFault>
    requires short { length line.now ≤ MAX_LINE }
    requires counted { AreCounted number (progress_of session.old) }
    ensures { LineAnswers number line.now (progress_of session.old) result out.new.items (progress_of session.new) }
{
    out.clear();
    match session {
        Some(session) => session.carry_out(alloc, number, line, out),
        None => begin(session, alloc, line),
    }
}

impl Session {
    ghost use Rattle.nt_script.specs.Progress.{progress};
    ghost use Rattle.nt_script.specs.Running.{end_of, summary_at};
    ghost use Rattle.nt_script.specs.Transcript.{waiting_text};

    /// Puts the names of the threads that still wait, where there is room for them.
    fn put_waiting(&self, out: &mut Vec<u8>)
        requires { vec_len out.old + 22 * self.now.bindings.scope.threads ≤ vec_capacity out.old }
        ensures items { out.new.items
            ≡ out.old.items ++ waiting_text (state self.now.core) self.now.bindings.scope.threads }
        ensures len { vec_len out.new ≤ vec_len out.old + 22 * self.now.bindings.scope.threads }
        ensures room { vec_capacity out.old ≤ vec_capacity out.new }
    {
        for thread in 0..self.bindings.threads() {
            if self.core.is_waiting(thread) {
                put(out, b" t");
                put_number(out, u64::from(thread));
            }
        }
    }

    /// Puts the line after the last.
    pub(crate) fn put_end(&self, out: &mut Vec<u8>) -> Result<(), AllocError>
        requires { out.old.items ≡ [] }
        ensures { OnOk result (out.new.items ≡ end_of (progress self.now)) }
    {
        out.reserve(18 + 22 * self.bindings.threads() as usize)?;
        put(out, END);
        self.put_waiting(out);
        if out.len() == END.len() {
            put(out, b" none");
        }
        put(out, b"\n");
        Ok(())
    }

    /// What the run came to, after `lines` lines.
    pub(crate) fn summary(&self, lines: u64) -> Summary
        ensures { result ≡ summary_at lines (progress self.now) }
    {
        Summary {
            lines,
            calls: self.tally.calls,
            refused: self.tally.refused,
            granted: self.tally.granted,
            pending: self.core.pending(),
        }
    }

    /// Puts another dispatcher in the place of its own, which is answered. What is bound and counted stays.
    pub fn replace_core(&mut self, core: Core) -> Core
        ensures answer { result ≡ self.old.core }
        ensures own { self.new.core ≡ core }
        ensures bindings { self.new.bindings ≡ self.old.bindings }
        ensures tally { self.new.tally ≡ self.old.tally }
    {
        mem::replace(&mut self.core, core)
    }

    /// The dispatcher, as the lines so far left it.
    pub fn core(&self) -> &Core
        ensures { result.now ≡ self.now.core }
    {
        &self.core
    }

    /// What the lines so far bound.
    pub fn bindings(&self) -> &Bindings
        ensures { result.now ≡ self.now.bindings }
    {
        &self.bindings
    }

    /// How many names are bound.
    pub fn names(&self) -> usize
        ensures { result ≡ length (progress self.now).scope.names }
    {
        self.bindings.len()
    }

    /// The name at this place, in the order in which names were bound.
    pub fn name_at(&self, place: usize) -> Option<&[u8]>
        ensures { option_copied result ≡ name_in (progress self.now).scope.names place }
    {
        self.bindings.name_at(place)
    }

    /// The handle that the name at this place stands for.
    pub fn handle_at(&self, place: usize) -> Option<Handle>
        ensures { result ≡ handle_in (progress self.now).scope.names place }
    {
        self.bindings.handle_at(place)
    }
}
