//! The part of a reply that a call of each kind tells.
//!
//! (`_inside`: the prover wants the types inside of a reply named in each function that takes one apart.)
ghost use Rattle.std.specs.Prelude.{◌≡◌, IsTrue};
ghost use Rattle.nt_calls.specs.declared.call.Reply.{Reply};
ghost use Rattle.nt_answers.specs.Answers.{is_done, is_handle, is_previous, is_apc, is_began, done_reply, created_reply, previous_reply, apc_reply, began_reply};

use crate::began::Began;
use nt_apc::Apc;
use nt_calls::Reply;
use nt_status::{Handle, Refusal};

/// What a call that has nothing to tell answers.
pub fn done_told(reply: Result<Reply, Refusal>) -> Result<(), Refusal>
    requires { IsTrue (is_done reply) }
    ensures { done_reply result ≡ reply }
{
    let _inside: Option<Apc> = None;
    match reply? {
        Reply::Done => Ok(()),
        _ => unreachable!(),
    }
}

/// The handle that a creation or a duplicate answers.
pub fn handle_told(reply: Result<Reply, Refusal>) -> Result<Handle, Refusal>
    requires { IsTrue (is_handle reply) }
    ensures { created_reply result ≡ reply }
{
    let _inside: Option<Apc> = None;
    match reply? {
        Reply::Handle(handle) => Ok(handle),
        _ => unreachable!(),
    }
}

/// The count that a release of a semaphore answers.
pub fn previous_told(reply: Result<Reply, Refusal>) -> Result<i32, Refusal>
    requires { IsTrue (is_previous reply) }
    ensures { previous_reply result ≡ reply }
{
    let _inside: Option<Apc> = None;
    match reply? {
        Reply::Previous(count) => Ok(count),
        _ => unreachable!(),
    }
}

/// The APC, or none, that a thread which asks for its next one is answered.
pub fn apc_told(reply: Result<Reply, Refusal>) -> Result<Option<Apc>, Refusal>
    requires { IsTrue (is_apc reply) }
    ensures { apc_reply result ≡ reply }
{
    match reply? {
        Reply::Apc(apc) => Ok(apc),
        _ => unreachable!(),
    }
}

/// How a wait began.
pub fn began_told(reply: Result<Reply, Refusal>) -> Result<Began, Refusal>
    requires { IsTrue (is_began reply) }
    ensures { began_reply result ≡ reply }
{
    let _inside: Option<Apc> = None;
    match reply? {
        Reply::Status(status) => Ok(Began::Ended(status)),
        Reply::Pended => Ok(Began::Pended),
        _ => unreachable!(),
    }
}
