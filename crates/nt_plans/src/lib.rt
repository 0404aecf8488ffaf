// SPDX-License-Identifier: MIT OR Apache-2.0
//! A script's lines as a plan: what is made before all calls, and what each lane has to do then.
//!
//! Each line is a creation, which is made first ([`Found::Start`]), or is asked of a lane ([`find_in`]). A creation after a call is a line of its
//! thread too ([`Does::Makes`]): its gate, an event, is set there, and what names it in another thread waits for that ([`plan_all`]). A line
//! that closes what it is made of closes its claim in the same step, and without that the creation is refused ([`Gates`], [`make_gates`]).
#![tactic(auto)]

mod claims;
mod items;
mod laying;
mod line;
mod planning;

pub use claims::{closed_first, put_closes, tries_of};
pub use items::{Creation, Does, Ended, Found, Item, LaneFault, closed_by, find_in};
pub use laying::{Laid, Made, Pass};
pub use line::{Line, bytes_at, line_of, put_whole};
pub use planning::{Gates, Planned, make_gates, plan_all, race_of};
