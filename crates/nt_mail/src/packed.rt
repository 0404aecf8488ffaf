//! Entries as journals keep them.
ghost use Rattle.std.specs.Prelude.{◌≡◌, false, Ok};
ghost use Rattle.nt_mail.specs.declared.entry.Entry.TheVariants.{Called, Ticked, Granted, Renewed};
ghost use Rattle.nt_mail.specs.Packed.{CanHand, hands_apc, long_reply, result_of, read_entry};

use nt_apc::Apc;
use nt_core::{Call, Reply};
use nt_life::Renewal;
use nt_status::{Handle, Moment, Refusal, Status, ThreadId};
use std::marker::Model;

/// A reply that is no APC.
#[derive(Clone, Copy)]
pub(crate) enum ShortReply {
    Done,
    Handle(Handle),
    Previous(i32),
    Status(Status),
    Pended,
}

/// An APC takes the place of its call, which is NextApc.
pub(crate) enum Kept {
    Called {
        who: ThreadId,
        result: Result<ShortReply, Refusal>,
        call: Call,
    },
    Handed {
        who: ThreadId,
        apc: Option<Apc>,
    },
    Ticked {
        by: ThreadId,
        result: Result<ShortReply, Refusal>,
        moment: Moment,
    },
    Granted {
        who: ThreadId,
        status: Status,
    },
    Renewed {
        who: ThreadId,
        result: Result<Handle, Refusal>,
        renewal: Renewal,
    },
}

/// Written by hand, so that whoever lets a journal go has nothing to prove of its entries' parts.
impl Drop for Kept {
    fn drop(self) {
        match self {
            Kept::Called {
                who: _,
                result: _,
                call: _,
            } => {}
            Kept::Handed { who: _, apc: _ } => {}
            Kept::Ticked {
                by: _,
                result: _,
                moment: _,
            } => {}
            Kept::Granted { who: _, status: _ } => {}
            Kept::Renewed {
                who: _,
                result: _,
                renewal: _,
            } => {}
        }
    }
}

/// An entry of a journal, in few bytes. Contracts see the entry.
pub struct PackedEntry {
    kept: Kept,
}

// Writing it is the largest part of what a call of the front costs beside the core's own.
const _: () = prove!(size_of::<PackedEntry>() <= 80);

/// Written by hand, so that whoever lets an entry go has one function to call.
impl Drop for PackedEntry {
    fn drop(self) {
        let PackedEntry { kept: _ } = self;
    }
}

impl Model for PackedEntry {
    ghost use Rattle.nt_mail.specs.declared.entry.Entry.{Entry};

    ghost Value = { Entry };

    ghost use Rattle.nt_mail.specs.Packed.{kept_entry};

    ghost view = { λ p. kept_entry p.kept };
}

/// What an entry tells.
#[derive(Drop)]
pub enum ReadEntry<'e> {
    /// A thread's call, with its answer, which is no APC.
    Called {
        who: ThreadId,
        call: &'e Call,
        result: Result<Reply, Refusal>,
    },
    /// A thread called NextApc, and was handed this APC, or none.
    Handed {
        who: ThreadId,
        apc: Option<Apc>,
    },
    /// A tick, with its answer.
    Ticked {
        by: ThreadId,
        moment: Moment,
        result: Result<Reply, Refusal>,
    },
    /// A pending wait of this thread ended.
    Granted {
        who: ThreadId,
        status: Status,
    },
    /// Numbers were given again to this thread, with the handle that was answered.
    Renewed {
        who: ThreadId,
        renewal: &'e Renewal,
        result: Result<Handle, Refusal>,
    },
}

impl PackedEntry {
    /// The entry of a call.
    pub fn called(who: ThreadId, call: Call, answer: Result<Reply, Refusal>) -> PackedEntry
        requires { CanHand call answer }
        ensures { result ≡ Called who call answer }
    {
        let kept = match answer {
            Ok(Reply::Apc(apc)) => {
                drop(call);
                Kept::Handed { who, apc }
            }
            _ => Kept::Called {
                who,
                result: short_of(answer),
                call,
            },
        };
        PackedEntry { kept }
    }

    /// The entry of a tick.
    pub fn ticked(by: ThreadId, moment: Moment, answer: Result<Reply, Refusal>) -> PackedEntry
        requires { hands_apc answer ≡ false }
        ensures { result ≡ Ticked by moment answer }
    {
        let kept = Kept::Ticked {
            by,
            result: short_of(answer),
            moment,
        };
        PackedEntry { kept }
    }

    /// The entry of a wait that ended.
    pub fn granted(who: ThreadId, status: Status) -> PackedEntry
        ensures { result ≡ Granted who status }
    {
        let kept = Kept::Granted { who, status };
        PackedEntry { kept }
    }

    /// The entry of numbers that were given again.
    pub fn renewed(who: ThreadId, renewal: Renewal, answer: Result<Handle, Refusal>) -> PackedEntry
        ensures { result ≡ Renewed who renewal answer }
    {
        let kept = Kept::Renewed {
            who,
            result: answer,
            renewal,
        };
        PackedEntry { kept }
    }

    /// What the entry tells.
    pub fn read(&self) -> ReadEntry<'_>
        ensures { read_entry result ≡ self.now }
    {
        match &self.kept {
            Kept::Called { who, result, call } => ReadEntry::Called {
                who: *who,
                call,
                result: result_of(*result),
            },
            Kept::Handed { who, apc } => ReadEntry::Handed {
                who: *who,
                apc: *apc,
            },
            Kept::Ticked { by, result, moment } => ReadEntry::Ticked {
                by: *by,
                moment: *moment,
                result: result_of(*result),
            },
            Kept::Granted { who, status } => ReadEntry::Granted {
                who: *who,
                status: *status,
            },
            Kept::Renewed {
                who,
                result,
                renewal,
            } => ReadEntry::Renewed {
                who: *who,
                renewal,
                result: *result,
            },
        }
    }
}

/// The same answer, in few bytes.
fn short_of(answer: Result<Reply, Refusal>) -> Result<ShortReply, Refusal>
    requires { hands_apc answer ≡ false }
    ensures { result_of result ≡ answer }
{
    match answer {
        Ok(reply) => Ok(short_reply(reply)),
        Err(cause) => Err(cause),
    }
}

/// The same reply, in few bytes.
fn short_reply(reply: Reply) -> ShortReply
    requires { hands_apc (Ok reply) ≡ false }
    ensures { long_reply result ≡ reply }
{
    let _inside: Option<Apc> = None;
    match reply {
        Reply::Done => ShortReply::Done,
        Reply::Handle(handle) => ShortReply::Handle(handle),
        Reply::Previous(count) => ShortReply::Previous(count),
        Reply::Status(status) => ShortReply::Status(status),
        Reply::Pended => ShortReply::Pended,
        _ => unreachable!(),
    }
}

/// The answer that was kept in few bytes.
fn result_of(short: Result<ShortReply, Refusal>) -> Result<Reply, Refusal>
    ensures { result ≡ result_of short }
{
    match short {
        Ok(short) => Ok(reply_of(short)),
        Err(cause) => Err(cause),
    }
}

/// The reply that was kept in few bytes.
fn reply_of(short: ShortReply) -> Reply
    ensures { result ≡ long_reply short }
{
    let _inside: Option<Apc> = None;
    match short {
        ShortReply::Done => Reply::Done,
        ShortReply::Handle(handle) => Reply::Handle(handle),
        ShortReply::Previous(count) => Reply::Previous(count),
        ShortReply::Status(status) => Reply::Status(status),
        ShortReply::Pended => Reply::Pended,
    }
}
