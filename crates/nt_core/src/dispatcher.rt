//! The dispatcher as a caller sees it.
ghost use Rattle.std.specs.Prelude.{◌≡◌, ◌≤◌, ◌+◌, ℕ, true, false, [], length, IfOk, IfErr, OnOk, OnErr, MatchBool, nat_le, ◌&&◌};
ghost use Rattle.std.specs.FinMap as map;
ghost use Rattle.nt_status.specs.declared.refusal.Refusal.TheVariants.{InvalidParameter, Memory};
ghost use Rattle.nt_calls.specs.State.{opening, pends};
ghost use Rattle.nt_calls.specs.Naming.{call_named};
ghost use Rattle.nt_calls.specs.Steps.{Called, Ticked};
ghost use Rattle.nt_calls.specs.declared.call.WaitCall.{WaitCall};
ghost use Rattle.nt_machine.specs.Dispatcher.{state};
ghost use Rattle.nt_calls.specs.Living.{living};
ghost use Rattle.nt_machine.specs.Lawful.{IsLawful};
ghost use Rattle.nt_machine.specs.Accepts.{IsLocal, IsTickLocal};
ghost use Rattle.nt_calls.specs.Moves.{Moves, IsMomentAfter, pended, is_wait};

use crate::copy::copy;
use crate::ticks::tick;
use nt_calls::{Call, Grant, Reply, WaitMode, count_living};
use nt_machine::Machine;
use nt_status::{Handle, MAX_MANY_THREADS, MAX_THREADS, Moment, Refusal};
use nt_waits::Reader;
use std::alloc::Global;
use std::marker::Model;

/// A dispatcher for a fixed number of threads, driven by one. Between two calls no pending wait could end.
pub struct Core {
    pub(crate) machine: Machine,
    /// The machine has none, so it sees no pending wait but by a look that is counted.
    pub(crate) reader: Reader,
}

/// Written by hand, so that whoever lets a dispatcher go has one function to call, and nothing to prove of its parts.
impl Drop for Core {
    fn drop(self) {
        let Core {
            machine: _,
            reader: _,
        } = self;
    }
}

impl Model for Core {
    ghost use Rattle.std.specs.Coded.{codes};
    ghost use Rattle.nt_status.specs.declared.limits.TheConstants.{MAX_MANY_THREADS, MAX_THREADS};
    ghost use Rattle.nt_waits.specs.Waits.{waits_code};
    ghost use Rattle.nt_machine.specs.Dispatcher.{Dispatcher};
    ghost use Rattle.nt_machine.specs.Lawful.{IsLawful};

    ghost Value = { Dispatcher };

    ghost coded = { Prim.hlevel (codes, waits_code) };

    ghost view = { λ c. c.machine };

    ghost invariant = { λ c. IsLawful c.machine };
}

impl Core {
    /// A dispatcher whose threads run and wait for nothing.
    ///
    /// Refused with 87 unless there are 1 to `MAX_THREADS` threads, and with 8 where memory is refused.
    pub fn new(alloc: Global, threads: u32) -> Result<Core, Refusal>
        ensures ok { IfOk result (λ core. (1 ≤ threads) × (threads ≤ MAX_THREADS) × (state core ≡ opening threads)
            × (core.grants ≡ [])) }
        ensures untested { IfOk result (λ core. core.table.looked ≡ 0) }
        ensures lawful { IfOk result (λ core. IsLawful core) }
        ensures err { IfErr result (λ r.
            MatchBool (nat_le 1 threads && nat_le threads MAX_THREADS) (r ≡ Memory) (r ≡ InvalidParameter)) }
    {
        if threads == 0 || threads > MAX_THREADS {
            return Err(Refusal::InvalidParameter);
        }
        Core::open(alloc, threads)
    }

    /// A dispatcher for many threads, as `new` makes one for fewer. More threads take more memory, and no call looks at all of them.
    ///
    /// Refused with 87 unless there are 1 to `MAX_MANY_THREADS` threads, and with 8 where memory is refused.
    pub fn with_many_threads(alloc: Global, threads: u32) -> Result<Core, Refusal>
        ensures ok { IfOk result (λ core. (1 ≤ threads) × (threads ≤ MAX_MANY_THREADS) × (state core ≡ opening threads)
            × (core.grants ≡ [])) }
        ensures untested { IfOk result (λ core. core.table.looked ≡ 0) }
        ensures lawful { IfOk result (λ core. IsLawful core) }
        ensures err { IfErr result (λ r.
            MatchBool (nat_le 1 threads && nat_le threads MAX_MANY_THREADS) (r ≡ Memory) (r ≡ InvalidParameter)) }
    {
        if threads == 0 || threads > MAX_MANY_THREADS {
            return Err(Refusal::InvalidParameter);
        }
        Core::open(alloc, threads)
    }

    /// A dispatcher whose threads run and wait for nothing.
    fn open(alloc: Global, threads: u32) -> Result<Core, Refusal>
        requires { threads ≤ MAX_MANY_THREADS }
        ensures ok { IfOk result (λ core. (state core ≡ opening threads) × (core.grants ≡ [])
            × (core.table.looked ≡ 0) × IsLawful core) }
        ensures memory { IfErr result (λ refusal. refusal ≡ Memory) }
    {
        let (machine, reader) = Machine::new(alloc, threads)?;
        machine.objects.agree();
        Ok(Core { machine, reader })
    }

    /// Makes the call of this thread, and answers its reply or why it is refused. The pending waits that it ends are in
    /// `grants`, at most as many as pended before it. A refused call changes nothing.
    #[inline(always)]
    pub fn call(&mut self, who: u32, call: &Call) -> Result<Reply, Refusal>
        ensures called { Called (state self.old) who call.now result self.new.grants (state self.new) }
        ensures lawful { IsLawful self.new }
        ensures local { OnOk result (IsLocal (state self.old) who
            (call_named self.old.handles call.now) self.new.table.looked self.new.grants) }
        ensures most { length self.new.grants ≤ map.len (state self.old).waits }
        ensures few { length self.new.grants + map.len (state self.new).waits ≤ map.len (state self.old).waits + 1 }
        ensures moves { Moves (state self.old) who (pended result) self.new.grants (state self.new) }
        ensures waits { pended result ≡ true → is_wait call.now ≡ true }
        ensures moment { (state self.new).now ≡ (state self.old).now }
        ensures untested { OnErr result (self.new.table.looked ≡ 0) }
    {
        let result = self.machine.call(who, call);
        let machine = &self.machine;
        machine.objects.agree();
        result
    }

    /// The call `WaitCall::Objects` of this thread, for a caller whose handles stand in a slice: it takes no list of them.
    pub fn wait_objects(
        &mut self,
        who: u32,
        handles: &[Handle],
        all: bool,
        mode: WaitMode,
    ) -> Result<Reply, Refusal>
        ensures called { Called (state self.old) who (Call.Wait (WaitCall.Objects all mode handles.now))
            result self.new.grants (state self.new) }
        ensures lawful { IsLawful self.new }
        ensures local { OnOk result (IsLocal (state self.old) who
            (call_named self.old.handles (Call.Wait (WaitCall.Objects all mode handles.now)))
            self.new.table.looked self.new.grants) }
        ensures most { length self.new.grants ≤ map.len (state self.old).waits }
        ensures few { length self.new.grants + map.len (state self.new).waits ≤ map.len (state self.old).waits + 1 }
        ensures moves { Moves (state self.old) who (pended result) self.new.grants (state self.new) }
        ensures moment { (state self.new).now ≡ (state self.old).now }
        ensures untested { OnErr result (self.new.table.looked ≡ 0) }
    {
        let result = self.machine.wait_objects(who, handles, all, mode);
        let machine = &self.machine;
        machine.objects.agree();
        result
    }

    /// Lets all moments up to `m`, counted in 100 ns, pass. The pending waits whose deadlines come end, each as at its own
    /// moment, and are in `grants`.
    ///
    /// A moment before the present one is refused, and changes nothing.
    pub fn tick(&mut self, m: Moment) -> Result<Reply, Refusal>
        ensures ticked { Ticked (state self.old) m result self.new.grants (state self.new) }
        ensures lawful { IsLawful self.new }
        ensures local { OnOk result (IsTickLocal (state self.old) m self.new.table.looked self.new.grants) }
        ensures few { length self.new.grants + map.len (state self.new).waits ≡ map.len (state self.old).waits }
        ensures moves { (by : ℕ) → Moves (state self.old) by false self.new.grants (state self.new) }
        ensures waits { pended result ≡ false }
        ensures moment { IsMomentAfter (state self.old).now m result (state self.new).now }
        ensures untested { OnErr result (self.new.table.looked ≡ 0) }
    {
        let result = tick(&mut self.machine, m);
        let machine = &self.machine;
        machine.objects.agree();
        result
    }

    /// The present moment, counted in 100 ns: that of the last tick.
    pub fn now(&self) -> Moment
        ensures { result ≡ (state self.now).now }
    {
        self.machine.moment
    }

    /// The pending waits that the last call or tick ended, in the order in which they ended.
    pub fn grants(&self) -> &[Grant]
        ensures { result.now ≡ self.now.grants }
    {
        self.machine.grants.as_slice()
    }

    /// How many waits pend.
    pub fn pending(&self) -> usize
        ensures { result ≡ map.len (state self.now).waits }
    {
        self.machine.waits.pending()
    }

    /// How many objects live: those that a handle or a pending wait names, and the threads that run. It walks the list of all
    /// objects that there ever were.
    pub fn living(&self) -> usize
        ensures { result ≡ living (state self.now) }
    {
        count_living(self.machine.objects.as_slice())
    }

    /// Whether the wait of this thread pends. A number that no thread has waits for nothing.
    pub fn is_waiting(&self, thread: u32) -> bool
        ensures { result ≡ pends (state self.now) thread }
    {
        self.waits_for(thread).is_some()
    }

    /// How many pending waits the last call tested: at most those on objects that it changed.
    pub fn tested(&self) -> u64
        ensures { result ≡ self.now.table.looked }
    {
        self.machine.waits.looked()
    }

    /// An equal dispatcher in memory of its own, as a point to come back to. Each goes its own way from then on.
    ///
    /// Refused with 8 where memory is refused.
    pub fn copy(&self) -> Result<Core, Refusal>
        ensures value { IfOk result (λ copied. copied ≡ self.now) }
        ensures memory { IfErr result (λ refusal. refusal ≡ Memory) }
    {
        let machine = copy(&self.machine)?;
        let reader = self.reader;
        Ok(Core { machine, reader })
    }
}
