// SPDX-License-Identifier: MIT OR Apache-2.0
//! `ntrace` reads a trace from standard input, or `ntrace FILE` from a file, and tells whether its events are runs of their protocols, or which is the
//! first that is no step.
//!
//! The exit status is 0 for runs, 3 for none, and 2 where the trace can't be read or the answer can't be written.
#![tactic(auto)]

use nt_devices::{Counted, Sink, Source, write_and_flush};
use nt_traces::{TraceFault, TraceVerdict, read_trace};
use std::alloc::{AllocError, Global};
use std::env::{self, Env};
use std::fs;
use std::io::{Input, Print};
use std::process::ExitCode;
use std::rt::Files;

/// How many bytes are read at once.
const CHUNK: usize = 1048576;

/// Why nothing is found of a trace.
#[derive(Clone, Copy, Debug, PartialEq, Eq)]
enum Failure {
    Read,
    Memory,
    Line(u64),
}

impl From<AllocError> for Failure {
    fn from(_error: AllocError) -> Failure {
        Failure::Memory
    }
}

impl From<TraceFault> for Failure {
    fn from(fault: TraceFault) -> Failure {
        match fault {
            TraceFault::Line(line) => Failure::Line(line),
            TraceFault::Memory => Failure::Memory,
        }
    }
}

/// The first word after the program's name, if there is one.
fn file_asked<R: AllocGlobal + Env>(rt: &R) -> Option<String> {
    match env::args(rt) {
        Ok(args) => args.into_iter().nth(1),
        Err(_) => None,
    }
}

/// All that the reader has left.
fn read_whole<R: Source>(alloc: Global, reader: &mut R) -> Result<Vec<u8>, Failure> {
    let mut chunk = vec![in alloc; 0; CHUNK]?;
    let mut text = Vec::new(alloc);
    for _turn in 0..u64::MAX {
        match reader.read_counted(&mut chunk) {
            Ok(0) => return Ok(text),
            Ok(count) => text.extend_from_slice(&chunk[..count])?,
            Err(_) => return Err(Failure::Read),
        }
    }
    Err(Failure::Memory)
}

/// What is found of the trace that the reader gives.
fn find<R: Source>(alloc: Global, reader: &mut R) -> Result<TraceVerdict, Failure> {
    let text = read_whole(alloc, reader)?;
    match read_trace(alloc, &text) {
        Ok(verdict) => Ok(verdict),
        Err(fault) => Err(Failure::from(fault)),
    }
}

/// What is found of the trace in this file, or on standard input.
fn found<R: AllocGlobal + Files + Input>(
    rt: &R,
    file: Option<&str>,
) -> Result<TraceVerdict, Failure> {
    match file {
        Some(path) => match fs::open(rt, path) {
            Ok(file) => find(rt.alloc(), &mut Counted::new(file)),
            Err(_) => Err(Failure::Read),
        },
        None => find(rt.alloc(), &mut Counted::new(rt.reader())),
    }
}

/// What is said of a trace.
fn said<R: AllocGlobal>(
    rt: &R,
    found: Result<TraceVerdict, Failure>,
) -> Result<String, AllocError> {
    match found {
        Ok(TraceVerdict::IsRun(lines)) => format!(in rt.alloc(); "{lines} lines are runs\n"),
        Ok(TraceVerdict::IsNoStep(line)) => format!(in rt.alloc();
            "line {line}: no step of its protocol\n"
        ),
        Err(Failure::Line(line)) => format!(in rt.alloc(); "ntrace: line {line}: no event\n"),
        Err(Failure::Read) => format!(in rt.alloc(); "ntrace: read failed\n"),
        Err(Failure::Memory) => format!(in rt.alloc(); "ntrace: out of memory\n"),
    }
}

fn status_of(found: Result<TraceVerdict, Failure>) -> u8 {
    match found {
        Ok(TraceVerdict::IsRun(_)) => 0,
        Ok(TraceVerdict::IsNoStep(_)) => 3,
        Err(_) => 2,
    }
}

/// Tells what was found, and answers the exit status.
fn tell<R: AllocGlobal, W: Sink>(
    rt: &R,
    found: Result<TraceVerdict, Failure>,
    writer: &mut W,
) -> u8 {
    match said(rt, found) {
        Ok(text) => {
            if write_and_flush(writer, text.as_str().as_bytes()).is_ok() {
                status_of(found)
            } else {
                2
            }
        }
        Err(AllocError) => 2,
    }
}

fn main(rt: HostRuntime) -> ExitCode {
    let asked = file_asked(&rt);
    let found = found(&rt, asked.as_ref().map(|file| file.as_str()));
    ExitCode::from(if found.is_ok() {
        tell(&rt, found, &mut Counted::new(rt.stdout()))
    } else {
        tell(&rt, found, &mut Counted::new(rt.stderr()))
    })
}
