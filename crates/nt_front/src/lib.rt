// SPDX-License-Identifier: MIT OR Apache-2.0
//! The dispatcher behind one lock, for the threads of a process.
//!
//! Whoever takes the lock finds a lawful dispatcher, and beside it the journal: each call and tick with its answer, and each wait
//! that ended, in their order. With the parts of it that were handed out before, the journal is a run of the machine from its opening
//! to the state that lies beside it. So all that is proved of runs is true of what the threads learned.
//!
//! ```text
//!    thread 0: a pass      thread 1: a sleeper      thread 2: a pass
//!        |                       |                        |
//!        | call, tick, begin,    | poll: its own word,    | now: the moment's word,
//!        | wait, exit            |       once             |      once
//!        v                       v                        v
//!    [ the lock ]        [ moment | thread 0 | thread 1 | thread 2 ]   the mail: atomic words, which no lock guards
//!        |                       ^
//!        v                       |  under the lock: the word of each thread that called or was granted
//!    the book: dispatcher and journal
//! ```
//!
//! - A **pass** is a thread's right to call. It knows the calls that it made, with their numbers in the journal and their answers,
//!   the grants that it was given, and the greatest moment that it knows. There is one for each thread, and it can't be copied
//!   or lost: it is spent by what turns it into another hold.
//! - A wait that pends turns the pass into a **sleeper**, which can only `poll`, `sleep`, or be there at the end. A poll reads one
//!   word and never waits for the lock; once the wait is granted, it gives the pass back with the entry of the grant. A thread that
//!   has nothing else to do meanwhile calls `wait`, which begins a wait and sleeps in one hold of the lock.
//! - A thread that ends its work with `exit` keeps an **ended** mark.
//! - `finish` takes the holds of all threads, and gives out the journal. What each hold knows is what stands there: no call is
//!   missing, none is there twice, and no grant was given that the journal does not have.
//! - A program that runs for long takes the journal in parts: `rotate` hands out the entries since the last part, with their base, the
//!   dispatcher as it was before the first of them. The journal is empty then, and the numbers of entries go on.
//!
//! - A front that was prepared to last (`prepare_lasting`) has no end by its numbers: those of closed handles and of objects that are gone are
//!   given again, and an ended thread whose object is gone may `begin_again`. Its journal tells which numbers were given again, so that it
//!   can be made again; it is a run as long as none was, and else a life.
//!
//! Every entry has its place before the call is made: a call is refused with JournalFull, and changes nothing, where there would be
//! no room for its entry and one for each pending wait. So nothing that the dispatcher did can fail to be written.
//!
//! Who does not want to poll waits with `wait` or `sleep`, on a condition variable of its own: a grant wakes the thread that was
//! granted, and no other, once the lock is given back.
#![tactic(auto)]

mod again;
mod bell;
mod blank;
mod book;
mod calls;
mod carried;
mod front;
mod hold;
mod lock;
mod moments;
mod named;
mod polls;
mod receipt;
mod waits;
mod wake;
mod write;

pub use again::BegunAgain;
pub use blank::{Blank, MAX_ROOM, open, prepare, prepare_lasting};
pub use calls::{Begun, Exited};
pub use carried::{Carried, LetGo};
pub use front::Front;
pub use hold::{Ended, Held, Pass, Sleeper};
pub use named::Named;
pub use nt_mail::{Entry, PackedEntry, ReadEntry};
pub use polls::Polled;
pub use receipt::{History, Part, Receipt};
pub use waits::Waited;

// What lies behind the lock.
pub use book::Book;
pub use hold::Hold;
pub use wake::ToWake;
