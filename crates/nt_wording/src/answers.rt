//! What a call answered, and whose waits it ended, in words.
ghost use Rattle.std.specs.Prelude.{◌≡◌, ◌++◌, IfOk, OnOk, codes, decimal};
ghost use Rattle.std.specs.List.{flat_map};
ghost use Rattle.nt_status.specs.Status.{status_text};
ghost use Rattle.nt_wording.specs.Answers.{order_answer_text, apc_text, ending_text, wait_end_text, how_text, reply_text, result_text, whose_text};
ghost use Rattle.nt_script.specs.Transcript.{moment_text};

use crate::text::{put_number, put_signed};
use nt_apc::Apc;
use nt_core::{Grant, Reply};
use nt_status::{OptionalMoment, Refusal, Status, ThreadId};
use std::alloc::{AllocError, Global};

/// Puts the name of a status, with the index of its object.
fn put_indexed(out: &mut Vec<u8>, status: Status) -> Result<(), AllocError>
    ensures { OnOk result (out.new.items ≡ out.old.items ++ status_text status) }
{
    let alloc = *out.allocator();
    let name = format!(in alloc; "{status}")?;
    out.extend_from_slice(name.as_bytes())
}

/// Puts the name of a status. That of the first object has no number after it.
pub fn put_status(out: &mut Vec<u8>, status: Status) -> Result<(), AllocError>
    ensures { OnOk result (out.new.items ≡ out.old.items ++ ending_text status) }
{
    let code = status.code();
    if code == 0 {
        out.extend_from_slice(b"WAIT_OBJECT_0")
    } else if code == 0x80 {
        out.extend_from_slice(b"WAIT_ABANDONED_0")
    } else {
        put_indexed(out, status)
    }
}

/// Puts when the timer was due that queued an APC.
fn put_moment(out: &mut Vec<u8>, at: OptionalMoment) -> Result<(), AllocError>
    ensures { OnOk result (out.new.items ≡ out.old.items ++ moment_text at) }
{
    match at.get() {
        Some(moment) => {
            out.extend_from_slice(b" at ")?;
            put_number(out, moment.get())
        }
        None => Ok(()),
    }
}

/// Puts words and a number.
fn put_numbered(out: &mut Vec<u8>, words: &[u8], number: u64) -> Result<(), AllocError>
    ensures { OnOk result (out.new.items ≡ out.old.items ++ (words.now ++ decimal number)) }
{
    out.extend_from_slice(words)?;
    put_number(out, number)
}

/// Puts an APC: its routine and argument, and a timer's due moment.
fn put_apc(out: &mut Vec<u8>, apc: &Apc) -> Result<(), AllocError>
    ensures { OnOk result (out.new.items ≡ out.old.items ++ apc_text apc.now) }
{
    put_numbered(out, b"apc ", apc.routine)?;
    put_numbered(out, b" ", apc.arg)?;
    put_moment(out, apc.at)
}

/// Puts what a call was answered.
fn put_reply(out: &mut Vec<u8>, reply: &Reply) -> Result<(), AllocError>
    ensures { OnOk result (out.new.items ≡ out.old.items ++ reply_text reply.now) }
{
    match reply {
        Reply::Done => out.extend_from_slice(b"ok"),
        Reply::Handle(handle) => put_numbered(out, b"handle ", u64::from(handle.get())),
        Reply::Previous(count) => {
            out.extend_from_slice(b"previous ")?;
            put_signed(out, *count)
        }
        Reply::Status(status) => put_status(out, *status),
        Reply::Pended => out.extend_from_slice(b"pending"),
        Reply::Apc(None) => out.extend_from_slice(b"apc none"),
        Reply::Apc(Some(apc)) => put_apc(out, apc),
    }
}

/// Puts whose wait a call ended.
#[tactic(auto, unfolding(crate::specs::Answers::whose_text))]
fn put_whose(out: &mut Vec<u8>, thread: ThreadId) -> Result<(), AllocError>
    ensures { OnOk result (out.new.items ≡ out.old.items ++ whose_text thread) }
{
    put_numbered(out, b"; t", u64::from(thread.get()))
}

/// Puts how it ended.
#[tactic(auto, unfolding(crate::specs::Answers::how_text))]
fn put_how(out: &mut Vec<u8>, status: Status) -> Result<(), AllocError>
    ensures { OnOk result (out.new.items ≡ out.old.items ++ how_text status) }
{
    out.extend_from_slice(b"'s wait ends: ")?;
    put_status(out, status)
}

/// Puts whose wait a call ended, and how.
fn put_grant(out: &mut Vec<u8>, grant: &Grant) -> Result<(), AllocError>
    ensures { OnOk result (out.new.items ≡ out.old.items ++ wait_end_text grant.now) }
{
    put_whose(out, grant.thread)?;
    put_how(out, grant.status)
}

/// Puts what a call was answered, or the name of its refusal.
fn put_answer(out: &mut Vec<u8>, answer: &Result<Reply, Refusal>) -> Result<(), AllocError>
    ensures { OnOk result (out.new.items ≡ out.old.items ++ result_text answer.now) }
{
    match answer {
        Ok(reply) => put_reply(out, reply),
        Err(refusal) => out.extend_from_slice(refusal.name().as_bytes()),
    }
}

/// Puts the waits that a call ended.
fn put_grants(out: &mut Vec<u8>, grants: &[Grant]) -> Result<(), AllocError>
    ensures { OnOk result (out.new.items ≡ out.old.items ++ flat_map wait_end_text grants.now) }
{
    for grant in grants {
        put_grant(out, grant)?;
    }
    Ok(())
}

/// What a call answered, and the waits that it ended.
pub fn answer_of(
    alloc: Global,
    answer: &Result<Reply, Refusal>,
    grants: &[Grant],
) -> Result<Vec<u8>, AllocError>
    ensures { IfOk result (λ text. text.items ≡ order_answer_text answer.now grants.now) }
{
    let mut text = Vec::new(alloc);
    put_answer(&mut text, answer)?;
    put_grants(&mut text, grants)?;
    Ok(text)
}
