// SPDX-License-Identifier: MIT OR Apache-2.0
//! Tests of what `ntrun` is made of, by their contracts alone: scripts and their lines, the program's commands, and the plan of
//! threads.
#![tactic(auto)]

#[cfg(test)]
mod commands;
#[cfg(test)]
mod devices;
#[cfg(test)]
mod expect;
#[cfg(test)]
mod refused;
#[cfg(test)]
mod scripts;
#[cfg(test)]
mod threads;
#[cfg(test)]
mod written;
