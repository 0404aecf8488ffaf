// SPDX-License-Identifier: MIT OR Apache-2.0
//! Tests of what schedules are made of, by their contracts alone: who goes on, which path comes next, and files of decisions.
#![tactic(auto)]

#[cfg(test)]
mod expect;
#[cfg(test)]
mod files;
#[cfg(test)]
mod paths;
#[cfg(test)]
mod refused;
#[cfg(test)]
mod turns;
