//! A script is read, line by line.
ghost use Rattle.std.specs.Prelude.{◌≡◌, ◌+◌, ◌<◌, ◌≤◌, ◌^◌, ◌++◌, ◌∷◌, ℕ, [], Some, length, IfErr, IfOk, OnOk};
ghost use Rattle.nt_status.specs.declared.limits.TheConstants.{MAX_THREADS};
ghost use Rattle.nt_machine.specs.Dispatcher.{state};
ghost use Rattle.nt_lines.specs.Lines.{lines_of};
ghost use Rattle.nt_script.specs.Progress.{AreCounted};
ghost use Rattle.nt_hangs.specs.Steps.{IsReadyFor, LineHasFault};
ghost use Rattle.nt_hangs.specs.Watching.{Sees, names_of, seen_of};
ghost use Rattle.nt_grammar.specs.Scope.{handle_in};
ghost use Rattle.nt_lanes.specs.Lanes.{asked};
ghost use Rattle.nt_orders.specs.Ending.{IsFirstFault};
ghost use Rattle.nt_orders.specs.Plans.{IsPlanOf, IsUnreadable, Reads, ReadsAll, Stops, given, is_open, made_on, unread, with_closed, with_ended, with_exited, with_made};
ghost use Rattle.nt_orders.specs.Reading.{IsLast, IsLateFault, IsScriptOf, at_line, lanes_of, read_of};
ghost use Rattle.nt_plans.specs.Gates.{closed_by, whole_line};
ghost use Rattle.nt_plans.specs.Kept.{Finds, IsLaneFault, ended_of, item_of};

use crate::fault::{OrdersFault, fault_at};
use crate::lanes::{Script, lay_out};
use nt_calls::Call;
use nt_explore::Ask;
use nt_grammar::{LineFault, ScriptFault};
use nt_hangs::{TakeLine, Watch, take_lines};
use nt_plans::{
    Creation, Does, Ended, Found, Item, LaneFault, closed_by, find_in, line_of, put_whole,
};
use nt_script::RunFault;
use nt_status::Handle;
use std::alloc::{AllocError, Global};

/// A script that is read so far.
#[derive(Drop)]
pub(crate) struct Reading {
    /// What was carried out before all calls.
    watch: Watch,
    /// The lines that were carried out, as they stand.
    front: Vec<u8>,
    /// The lines that go when their lanes do.
    items: Vec<Item>,
    /// What these lines end.
    ended: Ended,
}

/// Why the line with this number can't be read.
fn orders_fault_at(line: u64, fault: LaneFault) -> OrdersFault
    ensures { result ≡ at_line line fault }
{
    match fault {
        LaneFault::Line(fault) => OrdersFault::Run(fault_at(line, fault)),
        LaneFault::NoThread => OrdersFault::NoThread { line },
    }
}

/// The same of any line.
fn find(watch: &Watch, alloc: Global, ended: &Ended, line: &[u8]) -> Result<Found, LaneFault>
    ensures { Finds (seen_of watch.now).now (ended_of ended.now) line.now result }
{
    match watch.session() {
        Some(session) => find_in(session, alloc, ended, line),
        None => Ok(Found::Start(None)),
    }
}

/// Whether the handle names something before all calls.
fn is_open(watch: &Watch, handle: Handle) -> bool
    ensures { result ≡ is_open (seen_of watch.now).now handle }
{
    match watch.session() {
        Some(session) => session.core().opened(handle).is_some(),
        None => false,
    }
}

/// Notes the handle that is closed, if one is that was open.
fn note_closed(
    closed: &mut Vec<Handle>,
    watch: &Watch,
    handle: Option<Handle>,
) -> Result<(), AllocError>
    ensures { OnOk result (closed.new.items ≡ with_closed (seen_of watch.now).now closed.old.items handle) }
{
    if let Some(handle) = handle {
        if is_open(watch, handle) {
            closed.push(handle)?;
        }
    }
    Ok(())
}

/// Notes the lane if its thread exits.
fn note_exited(exited: &mut Vec<u32>, lane: u32, ask: &Ask) -> Result<(), AllocError>
    ensures { OnOk result (exited.new.items ≡ with_exited exited.old.items lane (asked ask.now)) }
{
    match ask {
        Ask::Call(Call::Exit) => {
            exited.push(lane)?;
            Ok(())
        }
        _ => Ok(()),
    }
}

/// Notes what ends where this is asked of the lane.
fn note_ended(ended: &mut Ended, watch: &Watch, lane: u32, ask: &Ask) -> Result<(), AllocError>
    ensures { OnOk result (ended_of ended.new
        ≡ with_ended (seen_of watch.now).now (ended_of ended.old) lane (asked ask.now)) }
{
    note_closed(&mut ended.closed, watch, closed_by(ask))?;
    note_exited(&mut ended.exited, lane, ask)
}

/// How many names are bound.
fn names_bound(watch: &Watch) -> usize
    ensures { result ≡ length (names_of (seen_of watch.now).now) }
{
    match watch.session() {
        Some(session) => session.names(),
        None => 0,
    }
}

/// The handle of the name at this place, if it is bound.
fn handle_at(watch: &Watch, place: usize) -> Option<Handle>
    ensures { result ≡ handle_in (names_of (seen_of watch.now).now) place }
{
    match watch.session() {
        Some(session) => session.handle_at(place),
        None => None,
    }
}

/// The creation on this line, which gave this handle.
fn made_on(
    alloc: Global,
    number: u64,
    bytes: &[u8],
    creation: Creation,
    handle: Handle,
) -> Result<Item, AllocError>
    ensures { IfOk result (λ item. item_of item ∷ [] ≡ made_on number bytes.now (Some creation) (Some handle)) }
{
    Ok(Item {
        lane: creation.who,
        line: line_of(alloc, number, bytes)?,
        does: Does::Makes {
            handle,
            source: creation.source,
        },
    })
}

impl Reading {
    /// Nothing is read yet.
    fn new(alloc: Global) -> Result<Reading, AllocError>
        ensures { IfOk result (λ reading. read_of reading ≡ unread) }
    {
        Ok(Reading {
            watch: Watch::new(alloc)?,
            front: Vec::new(alloc),
            items: Vec::new(alloc),
            ended: Ended {
                closed: Vec::new(alloc),
                exited: Vec::new(alloc),
            },
        })
    }

    /// Has a creation on this line go when its lane does, if there is one above it that does. It gave this handle.
    fn note_made(
        &mut self,
        alloc: Global,
        number: u64,
        bytes: &[u8],
        creation: Option<Creation>,
        handle: Option<Handle>,
    ) -> Result<(), AllocError>
        ensures items { OnOk result ((read_of self.new).items
            ≡ with_made (read_of self.old).items (made_on number bytes.now creation handle)) }
        ensures watch { self.new.watch ≡ self.old.watch }
        ensures front { self.new.front ≡ self.old.front }
        ensures ended { self.new.ended ≡ self.old.ended }
    {
        if self.items.is_empty() {
            return Ok(());
        }
        if let (Some(creation), Some(handle)) = (creation, handle) {
            self.items
                .push(made_on(alloc, number, bytes, creation, handle)?)?;
        }
        Ok(())
    }

    /// Carries out the line with this number.
    fn carry_out(&mut self, alloc: Global, number: u64, line: &[u8]) -> Result<(), LineFault>
        requires counted { AreCounted number (seen_of self.old.watch).now }
        requires places { length (seen_of self.old.watch).since ≡ MAX_THREADS }
        ensures sees { OnOk result (Sees number line.now (seen_of self.old.watch) (seen_of self.new.watch)) }
        ensures front { self.new.front ≡ self.old.front }
        ensures items { self.new.items ≡ self.old.items }
        ensures ended { self.new.ended ≡ self.old.ended }
        ensures counted { OnOk result (AreCounted (number + 1) (seen_of self.new.watch).now) }
        ensures places { length (seen_of self.new.watch).since ≡ MAX_THREADS }
        ensures fault { IfErr result (LineHasFault (seen_of self.old.watch).now line.now) }
    {
        match self.watch.see_line(alloc, number, line) {
            Ok(()) => Ok(()),
            Err(RunFault::Script { fault, .. }) => Err(LineFault::Script(fault)),
            Err(_) => Err(LineFault::Memory),
        }
    }

    /// Puts the line that was carried out, where so many names were bound before it.
    fn put(
        &mut self,
        alloc: Global,
        number: u64,
        line: &[u8],
        creation: Option<Creation>,
        bound: usize,
    ) -> Result<(), AllocError>
        ensures front { OnOk result (self.new.front.items ≡ self.old.front.items ++ whole_line line.now) }
        ensures items { OnOk result ((read_of self.new).items ≡ with_made (read_of self.old).items
            (made_on number line.now creation (handle_in (names_of (seen_of self.old.watch).now) bound))) }
        ensures watch { self.new.watch ≡ self.old.watch }
        ensures ended { self.new.ended ≡ self.old.ended }
    {
        put_whole(&mut self.front, line)?;
        let handle = handle_at(&self.watch, bound);
        self.note_made(alloc, number, line, creation, handle)
    }

    /// Carries out the line with this number, which may be a creation, and puts it in front of the lanes.
    fn see(
        &mut self,
        alloc: Global,
        number: u64,
        line: &[u8],
        creation: Option<Creation>,
    ) -> Result<(), LineFault>
        requires counted { AreCounted number (seen_of self.old.watch).now }
        requires places { length (seen_of self.old.watch).since ≡ MAX_THREADS }
        ensures sees { OnOk result (Sees number line.now (seen_of self.old.watch) (seen_of self.new.watch)) }
        ensures front { OnOk result (self.new.front.items ≡ self.old.front.items ++ whole_line line.now) }
        ensures items { OnOk result ((read_of self.new).items ≡ with_made (read_of self.old).items
            (made_on number line.now creation (given (seen_of self.old.watch).now (seen_of self.new.watch).now))) }
        ensures ended { self.new.ended ≡ self.old.ended }
        ensures counted { OnOk result (AreCounted (number + 1) (seen_of self.new.watch).now) }
        ensures places { length (seen_of self.new.watch).since ≡ MAX_THREADS }
        ensures fault { IfErr result (LineHasFault (seen_of self.old.watch).now line.now) }
    {
        let bound = names_bound(&self.watch);
        self.carry_out(alloc, number, line)?;
        match self.put(alloc, number, line, creation, bound) {
            Ok(()) => Ok(()),
            Err(_) => Err(LineFault::Memory),
        }
    }

    /// Has the line with this number go when its lane does.
    fn add(
        &mut self,
        alloc: Global,
        number: u64,
        lane: u32,
        ask: Ask,
        bytes: &[u8],
    ) -> Result<(), AllocError>
        ensures items { OnOk result (IsLast (read_of self.old).items number bytes.now lane (asked ask)
            (read_of self.new).items) }
        ensures ended { OnOk result (ended_of self.new.ended
            ≡ with_ended (seen_of self.old.watch).now (ended_of self.old.ended) lane (asked ask)) }
        ensures watch { self.new.watch ≡ self.old.watch }
        ensures front { self.new.front ≡ self.old.front }
    {
        let line = line_of(alloc, number, bytes)?;
        note_ended(&mut self.ended, &self.watch, lane, &ask)?;
        self.items.push(Item {
            lane,
            line,
            does: Does::Asks(ask),
        })?;
        Ok(())
    }

    /// Reads the line with this number.
    #[tactic(auto, using(crate::proofs::Lines::counted_on))]
    fn read(&mut self, alloc: Global, number: u64, line: &[u8]) -> Result<(), LaneFault>
        requires counted { AreCounted number (seen_of self.old.watch).now }
        requires places { length (seen_of self.old.watch).since ≡ MAX_THREADS }
        ensures reads { OnOk result (Reads number line.now (read_of self.old) (read_of self.new)) }
        ensures counted { OnOk result (AreCounted (number + 1) (seen_of self.new.watch).now) }
        ensures places { length (seen_of self.new.watch).since ≡ MAX_THREADS }
        ensures fault { IfErr result (IsLaneFault (seen_of self.old.watch).now line.now) }
    {
        match find(&self.watch, alloc, &self.ended, line) {
            Ok(Found::Asks(lane, ask)) => match self.add(alloc, number, lane, ask, line) {
                Ok(()) => Ok(()),
                Err(_) => Err(LaneFault::Line(LineFault::Memory)),
            },
            Ok(Found::Start(creation)) => match self.see(alloc, number, line, creation) {
                Ok(()) => Ok(()),
                Err(fault) => Err(LaneFault::Line(fault)),
            },
            Ok(Found::Nothing) => Ok(()),
            Err(fault) => Err(fault),
        }
    }

    /// Reads all lines, and answers how many there are.
    fn read_all(&mut self, alloc: Global, input: &[u8]) -> Result<u64, OrdersFault>
        requires { read_of self.old ≡ unread }
        ensures reads { IfOk result (λ count. ReadsAll 1 unread (lines_of input.now) (read_of self.new)) }
        ensures stops { IfOk result (λ count. (fault : OrdersFault) → Stops (count + 1) (read_of self.new) [] fault
            → Stops 1 unread (lines_of input.now) fault) }
        ensures few { IfOk result (λ count. count ≤ length input.now) }
        ensures fault { IfErr result (Stops 1 unread (lines_of input.now)) }
    {
        take_lines(self, alloc, input, None)
    }
}

impl TakeLine for Reading {
    type Fault = OrdersFault;

    ghost IsReady = { λ number reading. IsReadyFor number (seen_of reading.watch) };

    ghost Takes = { λ number bytes old new. Reads number bytes (read_of old) (read_of new) };

    ghost Refuses = { λ number bytes reading fault. IsUnreadable (seen_of reading.watch).now number bytes fault };

    fn take_line(&mut self, alloc: Global, number: u64, line: &[u8]) -> Result<(), OrdersFault> {
        match self.read(alloc, number, line) {
            Ok(()) => Ok(()),
            Err(fault) => Err(orders_fault_at(number, fault)),
        }
    }
}

/// The script of these `count` lines, once all were read.
fn finish(alloc: Global, reading: Reading, count: u64) -> Result<Script, OrdersFault>
    requires { count + 1 < 2 ^ 64 }
    ensures script { IfOk result (IsScriptOf (read_of reading)) }
    ensures fault { IfErr result (IsLateFault (count + 1) (read_of reading)) }
{
    let Reading {
        watch,
        front,
        items,
        ..
    } = reading;
    let (session, objects) = watch.into_parts();
    match session {
        Some(session) => lay_out(alloc, session, objects, front, &items),
        None => Err(OrdersFault::Run(RunFault::Script {
            line: count + 1,
            fault: ScriptFault::ThreadsExpected,
        })),
    }
}

/// Reads a script: carries out what is made before all calls, and puts each call and tick into its lane.
#[tactic(auto, using(crate::proofs::Lines::fault_if_err, crate::proofs::Lines::first_fault, crate::proofs::Lines::plan_if_ok))]
pub(crate) fn read_script(alloc: Global, input: &[u8]) -> Result<Script, OrdersFault>
    ensures plan { IfOk result (λ script. IsPlanOf input.now (lanes_of script) (state script.session.core)) }
    ensures fault { IfErr result (IsFirstFault input.now) }
{
    match Reading::new(alloc) {
        Ok(mut reading) => match reading.read_all(alloc, input) {
            Ok(count) => finish(alloc, reading, count),
            Err(fault) => Err(fault),
        },
        Err(_) => Err(OrdersFault::Memory),
    }
}
