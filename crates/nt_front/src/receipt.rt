//! Receipts for entries, and parts of the journal.
ghost use Rattle.std.specs.Prelude.{◌≡◌};

use nt_core::{Core, Reply};
use nt_mail::PackedEntry;
use nt_status::Refusal;

/// The number of an entry, and the result that stands there.
#[derive(Clone, Copy, PartialEq, Eq, Debug)]
pub struct Receipt {
    /// Entries are numbered from 1.
    pub entry: u64,
    pub result: Result<Reply, Refusal>,
}

/// A part of the journal: the entries since the last part, or since the opening.
pub struct Part {
    /// The number of the first of the entries. Numbers go on from part to part.
    pub first: u64,
    /// The dispatcher as it was before the first of the entries, from which they can be made again.
    pub base: Core,
    pub entries: Vec<PackedEntry>,
}

/// Written by hand, so that whoever lets a part go has one function to call, and nothing to prove of its entries.
impl Drop for Part {
    fn drop(self) {
        let Part {
            first: _,
            base: _,
            entries: _,
        } = self;
    }
}

impl Part {
    /// The dispatcher as it was before the first of the entries, and these.
    pub fn into_run(self) -> (Core, Vec<PackedEntry>)
        ensures { (result.0 ≡ self.base) × (result.1 ≡ self.entries) }
    {
        let Part {
            first: _,
            base,
            entries,
        } = self;
        (base, entries)
    }
}

/// The rest of the journal, at the end: all of it where no part was handed out.
pub struct History {
    /// The number of the first of the entries.
    pub first: u64,
    /// The dispatcher as it was before the first of the entries, from which they can be made again.
    pub base: Core,
    pub entries: Vec<PackedEntry>,
}

impl Drop for History {
    fn drop(self) {
        let History {
            first: _,
            base: _,
            entries: _,
        } = self;
    }
}

impl History {
    /// The dispatcher as it was before the first of the entries, and these.
    pub fn into_run(self) -> (Core, Vec<PackedEntry>)
        ensures { (result.0 ≡ self.base) × (result.1 ≡ self.entries) }
    {
        let History {
            first: _,
            base,
            entries: rest,
        } = self;
        (base, rest)
    }
}
