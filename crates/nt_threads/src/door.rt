//! What a thread calls through.
ghost use Rattle.std.specs.Prelude.{◌≡◌, ◌++◌, ◌∷◌, [], List, ℕ, OnOk};
ghost use Rattle.nt_calls.specs.declared.call.Call.{Call};

use nt_core::{Act, Reply, WaitCall};
use nt_status::{Refusal, ThreadId};
use std::sync::Wait;

/// A thread's way to a dispatcher.
pub trait Door: Drop {
    // the thread for which the door calls
    ghost thread_of: { Self → ℕ };

    // the calls that were made through the door and not refused, in order
    ghost made_of: { Self → List Call };

    /// The thread for which the door calls.
    fn thread(&self) -> ThreadId
        ensures { result ≡ thread_of self.now };

    /// Makes a call that never pends.
    fn act<R: Wait>(&mut self, rt: &R, act: Act) -> Result<Reply, Refusal>
        ensures thread { thread_of self.new ≡ thread_of self.old }
        ensures made { OnOk result (made_of self.new ≡ made_of self.old ++ Call.Act act ∷ []) };

    /// Begins a wait, and answers its status once it has ended.
    fn wait<R: Wait>(&mut self, rt: &R, wait: WaitCall) -> Result<Reply, Refusal>
        ensures thread { thread_of self.new ≡ thread_of self.old }
        ensures made { OnOk result (made_of self.new ≡ made_of self.old ++ Call.Wait wait ∷ []) };

    /// Ends the thread.
    fn exit<R: Wait>(&mut self, rt: &R) -> Result<Reply, Refusal>
        ensures thread { thread_of self.new ≡ thread_of self.old }
        ensures made { OnOk result (made_of self.new ≡ made_of self.old ++ Call.Exit ∷ []) };
}
