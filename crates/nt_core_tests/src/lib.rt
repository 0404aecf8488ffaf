// SPDX-License-Identifier: MIT OR Apache-2.0
//! Tests of the dispatcher and of the crates below it, by their public contracts alone: what no script of `tests/scripts` can say, as counts of
//! tests, of memory and of living objects, copies, and numbers that are given again; and that each call below succeeds if memory is there.
#![tactic(auto)]

#[cfg(test)]
mod below;
#[cfg(test)]
mod expect;
#[cfg(test)]
mod tests;
