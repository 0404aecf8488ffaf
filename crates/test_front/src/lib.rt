// SPDX-License-Identifier: MIT OR Apache-2.0
//! Tests of the front, its mail and the replay of a journal, by their contracts alone: calls by several threads, calls by name,
//! and parts of a journal.
#![tactic(auto)]

#[cfg(test)]
mod expect;
#[cfg(test)]
mod front;
#[cfg(test)]
mod mail;
#[cfg(test)]
mod refused;
#[cfg(test)]
mod replays;
