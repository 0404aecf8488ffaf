//! What the entries of the journal say.
use nt_core::{Call, Reply};
use nt_life::Renewal;
use nt_status::{Handle, Moment, Refusal, Status, ThreadId};

/// One entry of the journal. Entries are numbered from 1. No value of this type is made: contracts speak of it, and a journal keeps
/// `PackedEntry`s.
pub enum Entry {
    /// A thread's call, with its answer.
    Called {
        who: ThreadId,
        call: Call,
        result: Result<Reply, Refusal>,
    },
    /// A tick, with its answer.
    Ticked {
        by: ThreadId,
        moment: Moment,
        result: Result<Reply, Refusal>,
    },
    /// A pending wait of this thread ended.
    Granted {
        who: ThreadId,
        status: Status,
    },
    /// Numbers were given again to this thread, with the handle that was answered. Only a dispatcher that lasts writes such an entry.
    Renewed {
        who: ThreadId,
        renewal: Renewal,
        result: Result<Handle, Refusal>,
    },
}

/// Written by hand, so that whoever lets a journal go has nothing to prove of its entries' parts.
impl Drop for Entry {
    fn drop(self) {
        match self {
            Entry::Called {
                who: _,
                call: _,
                result: _,
            } => {}
            Entry::Ticked {
                by: _,
                moment: _,
                result: _,
            } => {}
            Entry::Granted { who: _, status: _ } => {}
            Entry::Renewed {
                who: _,
                renewal: _,
                result: _,
            } => {}
        }
    }
}
