//! What became of a crew, by what its threads learned and by what the journal has of them.
use crate::front::crew::Crew;
use crate::front::replay::first_difference;
use crate::front::told::{Entries, Learned};
use nt_front::{History, Part};
use nt_status::{Refusal, ThreadId};

/// What became of a crew.
#[derive(Clone, Copy, Default, PartialEq, Eq, Debug)]
pub struct Seen {
    /// How many parts of the journal were taken.
    pub parts: usize,
    /// How many entries these and the history have.
    pub entries: usize,
    /// The calls and ticks that were written, and the grants that were given, as the threads learned of them.
    pub calls: Entries,
    pub grants: Entries,
    /// Threads that learned of other entries than the journal has of them.
    pub differ: u64,
    /// Threads whose wait still pends at the end.
    pub sleeping: u64,
    pub lost: u64,
    /// The number of the first entry that a fresh dispatcher answers otherwise, or that is missing; 0 where there is none.
    pub difference: u64,
}

/// What the parts and the history say of this thread.
fn written_of(thread: ThreadId, parts: &[Part], history: &History) -> Learned {
    let mut written = Learned::default();
    for part in parts {
        written.read_all(thread, part.first, part.entries.as_slice());
    }
    written.read_all(thread, history.first, history.entries.as_slice());
    written
}

/// How many entries the parts and the history have.
fn entries_of(parts: &[Part], history: &History) -> usize {
    let mut entries = history.entries.len();
    for part in parts {
        entries = entries.wrapping_add(part.entries.len());
    }
    entries
}

/// Compares what the threads learned with what the journal has of them, and makes its calls again.
pub fn look_at(
    crew: &Crew,
    parts: &[Part],
    history: &History,
    told: &[(ThreadId, Learned)],
    mut seen: Seen,
) -> Result<Seen, Refusal> {
    seen.parts = parts.len();
    seen.entries = entries_of(parts, history);
    for (thread, told) in told {
        seen.calls.join(told.calls);
        seen.grants.join(told.grants);
        seen.lost = seen.lost.wrapping_add(told.lost);
        let written = written_of(*thread, parts, history);
        let is_same = written.calls == told.calls
            && written.grants == told.grants
            && written.codes == told.codes;
        seen.differ = seen.differ.wrapping_add(u64::from(!is_same));
    }
    seen.difference = first_difference(crew.alloc, crew.threads, parts, history)?;
    Ok(seen)
}
