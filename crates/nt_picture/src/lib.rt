// SPDX-License-Identifier: MIT OR Apache-2.0
//! The run of a script as a picture: an SVG with a lane for each thread, and below the lanes a row for each object.
//!
//! [`Layout`] places the steps that `nt_timeline` kept, each as far to the right as its texts need. [`picture_of`] draws them there.
#![tactic(auto)]

mod escape;
mod layout;
mod legend;
mod marks;
mod objects;
mod pending;
mod picture;
mod style;

pub use escape::put_escaped;
pub use layout::Layout;
pub use objects::left_of;
pub use picture::picture_of;
