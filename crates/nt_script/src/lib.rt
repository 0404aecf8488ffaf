// SPDX-License-Identifier: MIT OR Apache-2.0
//! Scripts to transcripts.
//!
//! A script is a text of calls, a line each; its transcript says what each call answered and which waits it ended. To write one is a fold over
//! the lines:
//!
//! ```text
//!    line --> statement --> the dispatcher's call or tick --> the line of its answer, and one for each wait that it ended
//!        |
//!        +--> a fault, which ends the script: nothing was called, and nothing is written of it
//! ```
//!
//! - What a line says is a function of the line and of the names that were bound so far (`nt_grammar`).
//! - A [`Session`] has the dispatcher, the names, and a count of what was done; [`carry_out`] takes it by one line. [`run`] takes it
//!   from a reader's first line to its last, and writes the transcript as it goes; a [`Runner`] can stop before a line.
//! - Room for a line's output is made before its call, so where memory runs out no line's output is half written.
//! - The output is a function of the input ([`output_is_a_function_of_the_input`]).
#![tactic(auto)]

mod fault;
mod laws;
mod runner;
mod session;
mod summary;
mod tally;
mod text;
mod transcript;

pub use fault::RunFault;
pub use laws::output_is_a_function_of_the_input;
pub use nt_devices::{Counted, Sink, Source};
pub use runner::{Runner, run};
pub use session::{Session, carry_out};
pub use summary::Summary;
