// SPDX-License-Identifier: MIT OR Apache-2.0
//! Where a script's fault stands, and what can stand there, for whoever wrote it.
//!
//! The transcript of a script needs only the name of its first fault. A reader wants more: which word it is, what may have been meant, and which words are
//! lawful there. So the faulty line is walked over once more, place by place, up to the first word that does not fit:
//!
//! ```text
//!    one.nts:3:4: unknown word
//!      t0 slep inf plain
//!         ^^^^
//!      did you mean `sleep`?
//!      here can stand: ..
//! ```
//!
//! Nothing here decides whether a line has a fault: that is `nt_grammar`'s. A program tells a fault in one line; whoever wants more asks by
//! the environment ([`told_by`]), and [`explain`] runs the script once more, up to that line.
#![tactic(auto)]

mod again;
mod meant;
mod message;
mod near;
mod place;
mod shape;
mod shown;
mod told;
mod walk;

pub use again::explain;
pub use near::nearest_name;
pub use told::{Told, told_by};
