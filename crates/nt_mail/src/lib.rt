// SPDX-License-Identifier: MIT OR Apache-2.0
//! Replies without the lock: how a thread learns that its wait was granted, and which entries of the journal are its own.
//!
//! The dispatcher works under one lock and writes what happens into a journal: an entry for each call, each tick and each grant,
//! numbered from 1. A thread whose wait is pending must be able to ask whether its grant has come without taking that lock. So
//! each thread has a *word*, 64 bits that change in single atomic steps, and one more word holds the present moment. A thread's
//! word tells two things: in its low 10 bits how the thread's wait stands, and in its high 54 the number of an entry of the thread:
//! of its last, if the word is armed or granted, and of its last at some time before, if it is idle.
//!
//! ```text
//!        63                                  10 9         0
//!       +--------------------------------------+-----------+     0      idle: no wait, or its grant is taken
//!       |     number of an entry               |   state   |     1      armed: its wait is pending
//!       +--------------------------------------+-----------+     2 + s  granted with status s, not yet taken
//!
//!                      arm                       grant
//!            idle ──────────────▶ armed ───────────────────▶ granted           the dispatcher writes
//!           ▲ │ ▲                                               │
//!           └─┘ └───────────────────────────────────────────────┘               the thread writes
//!           note                        take
//! ```
//!
//! **Who may write.** The dispatcher alone makes a word idle, armed or granted as it writes an entry; it is the only one that
//! writes the moment. A thread writes its own word in one case: the grant that it read there becomes idle, and is taken. Nothing
//! is ever tried again, and nobody waits. A word that is idle and stays so is read and not written: so most calls make no write
//! that other processors have to see at once.
//!
//! **What each one knows.** Who steps has a *seat*, a value without bytes that one owner holds. The dispatcher's seat knows all
//! entries written and all moments published. A thread's seat knows what the thread saw for itself: its calls and ticks with their
//! numbers and answers, the grants that it took, the words and the moments that it read. What seats know is there for contracts
//! alone, and costs nothing when the program runs.
//!
//! **What always holds.** Between any two steps, in whatever order the threads make theirs:
//!
//! - a thread's calls are exactly those written, and as many of them pended as grants were sent to it, and one more where it is
//!   armed;
//! - its word is armed exactly where the thread is; armed or granted it has the number of the thread's last entry, and idle the
//!   number of one that was its last, or 0;
//! - the grants that it took are a part of those sent to it, in order, and a grant in its word is the last sent and above all taken;
//! - published moments never fall, and no thread has read one that is above the moment word, or that was never published.
//!
//! So a thread takes each grant at most once, and at the end its calls and grants are those of the journal (`Mail::close`).
//!
//! | Step | By | Word | After it |
//! |---|---|---|---|
//! | `note` | dispatcher | the caller's | idle, as before if it was: a call or tick was written, and no wait of the caller is pending |
//! | `arm` | dispatcher | the caller's | armed: a call or tick was written, and a wait of the caller is pending |
//! | `grant` | dispatcher | the thread's | granted: a grant to the thread was written |
//! | `publish_moment` | dispatcher | the moment's | this moment, never below the last |
//! | `look` | dispatcher | the moment's | as before: what the caller knows was found to be what is written |
//! | `poll` | thread | its own | as before: it was read |
//! | `take` | thread | its own | idle, where the word was still the one that the poll read |
//! | `read_moment` | thread | the moment's | as before: it was read |
#![tactic(auto)]

mod entry;
mod knowledge;
mod mail;
mod packed;
mod rule;
mod seat;
mod steps;
mod word;

pub use entry::Entry;
pub use knowledge::{Asked, Got, Knowledge, Made, View};
pub use mail::{Mail, Opened};
pub use packed::{PackedEntry, ReadEntry};
pub use seat::{DispatcherSeat, JoinedSeats, ThreadSeat};
pub use word::{ENTRY_LIMIT, STATES, Word, told_by};
