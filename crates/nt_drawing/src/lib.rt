// SPDX-License-Identifier: MIT OR Apache-2.0
//! The run of a script as a drawing: a picture with a lane for each thread, a page with that picture, or a trace.
//!
//! `nt_timeline` runs the script and keeps its steps. `nt_picture` lays them out and draws them as an SVG. Here that becomes a page (`page`), or the
//! steps become events that Perfetto opens (`trace`). [`draw_file`] does it of a file's script.
#![tactic(auto)]

mod draw;
mod drawing;
mod page;
mod page_parts;
mod trace;

pub use draw::{Drawing, Form, draw_file, drawing_on};
