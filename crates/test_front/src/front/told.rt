//! What a thread learned, and the same read off the journal.
use nt_core::Reply;
use nt_front::{Blank, History, PackedEntry, Part, ReadEntry, Receipt};
use nt_life::Renewal;
use nt_status::{Status, ThreadId};

/// Drops a front that was never opened.
pub fn let_go(_blank: Blank) {}

/// The number of the first entry, and how many there are.
#[derive(Clone, Copy, Default, PartialEq, Eq, Debug)]
pub struct Span {
    pub first: u64,
    pub entries: u64,
}

impl Span {
    pub fn of_part(part: &Part) -> Span {
        Span {
            first: part.first,
            entries: part.entries.len() as u64,
        }
    }

    pub fn of_history(history: &History) -> Span {
        Span {
            first: history.first,
            entries: history.entries.len() as u64,
        }
    }
}

/// How many entries of one thread, and the sum of their numbers: two threads that learned of different entries differ in one.
#[derive(Clone, Copy, Default, PartialEq, Eq, Debug)]
pub struct Entries {
    pub count: u64,
    pub sum: u64,
}

impl Entries {
    fn add(&mut self, entry: u64) {
        self.join(Entries {
            count: 1,
            sum: entry,
        });
    }

    pub fn join(&mut self, other: Entries) {
        self.count = self.count.wrapping_add(other.count);
        self.sum = self.sum.wrapping_add(other.sum);
    }
}

/// A thread's calls and ticks that were written, and the grants that it was given.
#[derive(Clone, Copy, Default, PartialEq, Eq, Debug)]
pub struct Learned {
    pub calls: Entries,
    pub grants: Entries,
    /// The sum of the codes of the statuses that it was granted.
    pub codes: u64,
    /// The number of the last entry that it learned of.
    pub last: u64,
    /// Calls that found no room in the journal, and growths of the thread's own that were refused: none of a test that is well.
    pub lost: u64,
}

impl Learned {
    pub fn called(&mut self, receipt: &Receipt) {
        self.last = receipt.entry;
        self.calls.add(receipt.entry);
    }

    pub fn granted(&mut self, receipt: &Receipt) {
        self.last = receipt.entry;
        match &receipt.result {
            Ok(Reply::Status(status)) => self.grant(receipt.entry, *status),
            _ => self.lost(),
        }
    }

    fn grant(&mut self, entry: u64, status: Status) {
        self.grants.add(entry);
        self.codes = self.codes.wrapping_add(u64::from(status.code()));
    }

    pub fn lost(&mut self) {
        self.lost = self.lost.wrapping_add(1);
    }

    /// Adds what these entries, numbered from `first` on, say of this thread.
    pub fn read_all(&mut self, thread: ThreadId, first: u64, entries: &[PackedEntry]) {
        for i in 0..entries.len() {
            self.read(thread, &entries[i], first.wrapping_add(i as u64));
        }
    }

    fn read(&mut self, thread: ThreadId, entry: &PackedEntry, number: u64) {
        // (The checker has to see the type that an entry may borrow.)
        let _inside: Option<Renewal> = None;
        match &entry.read() {
            ReadEntry::Called { who, .. } if *who == thread => self.calls.add(number),
            ReadEntry::Handed { who, .. } if *who == thread => self.calls.add(number),
            ReadEntry::Ticked { by, .. } if *by == thread => self.calls.add(number),
            ReadEntry::Granted { who, status } if *who == thread => self.grant(number, *status),
            _ => {}
        }
    }
}
