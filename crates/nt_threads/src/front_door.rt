//! A door to a front.
ghost use Rattle.std.specs.Prelude.{◌≡◌, ◌++◌, ◌∷◌, [], Some, OnOk};
ghost use Rattle.nt_calls.specs.declared.call.Call.{Call};
ghost use Rattle.nt_front.specs.Held.{knowledge_of};
ghost use Rattle.nt_threads.specs.Doors.{accepted_calls, calls_of_hold, made_through, holder_of};

use crate::door::Door;
use nt_core::{Act, Reply, WaitCall};
use nt_front::{Carried, Exited, Front, Held, Named, Pass, Waited};
use nt_status::{Refusal, ThreadId};
use std::sync::Wait;

/// A thread's way to a front: its hold, which is there between any two calls, and the front of that hold.
#[derive(Drop)]
pub struct FrontDoor<'f, N: Named> {
    front: &'f Front<N>,
    thread: ThreadId,
    hold: Option<Carried<Held<N>>>,
    ghost own: { holder_of hold ≡ Some thread },
}

impl<'f, N: Named> FrontDoor<'f, N> {
    /// The door of the thread that has this pass.
    pub fn new(front: &'f Front<N>, pass: Pass<N>) -> FrontDoor<'f, N>
        ensures thread { result.thread ≡ pass.thread }
        ensures made { made_through result.hold ≡ accepted_calls pass.made }
    {
        FrontDoor {
            front,
            thread: pass.thread(),
            hold: Some(Carried {
                hold: Held::Pass(pass),
            }),
        }
    }

    /// What the thread holds at the end.
    pub fn into_held(self) -> Held<N>
        ensures thread { (knowledge_of result).thread ≡ self.entry.thread }
        ensures made { calls_of_hold result ≡ made_through self.entry.hold }
    {
        let FrontDoor {
            front: _,
            thread: _,
            hold,
        } = self;
        let Some(carried) = hold else { unreachable!() };
        carried.into_hold()
    }
}

impl<'f, N: Named> Door for FrontDoor<'f, N> {
    ghost use Rattle.nt_threads.specs.Doors.{made_through};

    ghost thread_of = { λ d. d.thread };

    ghost made_of = { λ d. made_through d.hold };

    fn thread(&self) -> ThreadId {
        self.thread
    }

    fn act<R: Wait>(&mut self, rt: &R, act: Act) -> Result<Reply, Refusal> {
        let Some(carried) = self.hold.take() else {
            unreachable!()
        };
        let (hold, answer) = act_by(rt, self.front, carried.into_hold(), act);
        self.hold = Some(Carried { hold });
        answer
    }

    fn wait<R: Wait>(&mut self, rt: &R, wait: WaitCall) -> Result<Reply, Refusal> {
        let Some(carried) = self.hold.take() else {
            unreachable!()
        };
        let (hold, answer) = wait_by(rt, self.front, carried.into_hold(), wait);
        self.hold = Some(Carried { hold });
        answer
    }

    fn exit<R: Wait>(&mut self, rt: &R) -> Result<Reply, Refusal> {
        let Some(carried) = self.hold.take() else {
            unreachable!()
        };
        let (hold, answer) = exit_by(rt, self.front, carried.into_hold());
        self.hold = Some(Carried { hold });
        answer
    }
}

/// Makes a call that never pends. Only a thread with a pass can.
#[tactic(auto, using(crate::proofs::Accepted::call_accepted))]
fn act_by<N: Named, R: Wait>(
    rt: &R,
    front: &Front<N>,
    held: Held<N>,
    act: Act,
) -> (Held<N>, Result<Reply, Refusal>)
    ensures thread { (knowledge_of result.0).thread ≡ (knowledge_of held).thread }
    ensures made { OnOk result.1 (calls_of_hold result.0 ≡ calls_of_hold held ++ Call.Act act ∷ []) }
{
    let Held::Pass(mut pass) = held else {
        return (held, Err(Refusal::ThreadEnded));
    };
    match front.call(rt, &mut pass, act) {
        Ok(receipt) => (Held::Pass(pass), receipt.result),
        Err(refused) => (Held::Pass(pass), Err(refused)),
    }
}

/// Waits until the wait has ended. Only a thread with a pass can.
#[tactic(auto, using(crate::proofs::Accepted::call_accepted))]
fn wait_by<N: Named, R: Wait>(
    rt: &R,
    front: &Front<N>,
    held: Held<N>,
    wait: WaitCall,
) -> (Held<N>, Result<Reply, Refusal>)
    ensures thread { (knowledge_of result.0).thread ≡ (knowledge_of held).thread }
    ensures made { OnOk result.1 (calls_of_hold result.0 ≡ calls_of_hold held ++ Call.Wait wait ∷ []) }
{
    let Held::Pass(pass) = held else {
        return (held, Err(Refusal::ThreadEnded));
    };
    match front.wait(rt, pass, wait) {
        Waited::Done(pass, receipt) => (Held::Pass(pass), receipt.result),
        Waited::Granted(pass, _, receipt) => (Held::Pass(pass), receipt.result),
        Waited::NoRoom(pass) => (Held::Pass(pass), Err(Refusal::JournalFull)),
    }
}

/// Ends the thread. Only a thread with a pass can.
#[tactic(auto, using(crate::proofs::Accepted::call_accepted))]
fn exit_by<N: Named, R: Wait>(
    rt: &R,
    front: &Front<N>,
    held: Held<N>,
) -> (Held<N>, Result<Reply, Refusal>)
    ensures thread { (knowledge_of result.0).thread ≡ (knowledge_of held).thread }
    ensures made { OnOk result.1 (calls_of_hold result.0 ≡ calls_of_hold held ++ Call.Exit ∷ []) }
{
    let Held::Pass(pass) = held else {
        return (held, Err(Refusal::ThreadEnded));
    };
    match front.exit(rt, pass) {
        Exited::Ended(ended, receipt) => (Held::Ended(ended), receipt.result),
        Exited::NoRoom(pass) => (Held::Pass(pass), Err(Refusal::JournalFull)),
    }
}
