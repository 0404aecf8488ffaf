// SPDX-License-Identifier: MIT OR Apache-2.0
//! What a line of a script says.
//!
//! A line is words, and each word stands in a place: who calls, which call it is, and then a place for each thing that the call is given. A table
//! has the places of each call. To read a line is to walk along its row: the first word that can't stand in its place is the
//! line's fault, and if there is none, the words' values are the call's.
//!
//! ```text
//!    t0 any 5 plain e        words
//!    |  |   |  |    |
//!    |  |   |  |    +------- an object: its name, a thread, or the number of a handle
//!    |  |   |  +------------ a mode
//!    |  |   +--------------- a time
//!    |  +------------------- the keyword, which decides the places after it
//!    +---------------------- the caller
//! ```
//!
//! - Which statement a line is depends on the line and on the names that were bound before it, and on nothing else
//!   ([`read_statement`], [`Bindings`]).
//! - A line is read one way ([`lines_read_one_way`]). A statement reads back: its own text is a line of that statement and of no
//!   other ([`statements_read_back`]).
//! - Each word is spelled in one place ([`Keyword::text`] and the constants beside it), as a table of the definitions has it.
#![tactic(auto)]

// Words and their places.
mod fault;
mod keyword;
mod numbers;
mod places;
mod scope;
mod words;
// The lines of the grammar.
mod calls;
mod laws;
mod parser;
mod reading;

pub use fault::{LineFault, ScriptFault};
pub use keyword::{ALERTABLE, INF, KEYWORDS, Keyword, MANUAL, OWNED, PLAIN, SET};
pub use laws::{lines_read_one_way, lines_spell_statements, statements_read_back};
pub use numbers::{put_number, put_signed, put_signed64};
pub use parser::{Name, Statement};
pub use reading::{read_opening, read_statement};
pub use scope::{Bindings, handle_of};
