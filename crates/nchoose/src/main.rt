// SPDX-License-Identifier: MIT OR Apache-2.0
//! `nchoose` reads from standard input, or `nchoose FILE` from a file, who went on in runs of `c/schedule` (NTWIN_SCHEDULE=..;turns=FILE), and compares
//! each step with the machine of `nt_schedule`: who goes on and wakes, the time, and that nothing is left to come where a run hangs.
//!
//! It tells how many runs and steps there are, or the first line that differs and what the machine does there. The exit status is 0 or 1, or 2 where
//! nothing can be compared.
#![tactic(auto)]

mod follower;
mod told_line;

use crate::follower::{Comparison, follow};
use nt_devices::{Counted, Sink, Source, write_and_flush};
use nt_schedule::{Choice, Differs};
use std::alloc::{AllocError, Global};
use std::env::{self, Env};
use std::fs;
use std::io::{Input, Print};
use std::process::ExitCode;
use std::rt::Files;

/// How many bytes are read at once.
const CHUNK: usize = 1048576;

/// The first word after the program's name, if there is one.
fn file_asked<R: AllocGlobal + Env>(rt: &R) -> Option<String> {
    match env::args(rt) {
        Ok(args) => args.into_iter().nth(1),
        Err(_) => None,
    }
}

/// All that the reader has left; none where a read fails.
fn read_whole<R: Source>(alloc: Global, reader: &mut R) -> Result<Option<Vec<u8>>, AllocError> {
    let mut chunk = vec![in alloc; 0; CHUNK]?;
    let mut text = Vec::new(alloc);
    for _turn in 0..u64::MAX {
        match reader.read_counted(&mut chunk) {
            Ok(0) => return Ok(Some(text)),
            Ok(count) => text.extend_from_slice(&chunk[..count])?,
            Err(_) => return Ok(None),
        }
    }
    Ok(None)
}

/// What is found of what the reader gives; none where a read fails.
fn find<R: Source>(alloc: Global, reader: &mut R) -> Option<Comparison> {
    match read_whole(alloc, reader) {
        Ok(Some(text)) => Some(follow(alloc, &text)),
        Ok(None) => None,
        Err(AllocError) => Some(Comparison::Memory),
    }
}

/// What is found in this file, or on standard input.
fn found<R: AllocGlobal + Files + Input>(rt: &R, file: Option<&str>) -> Option<Comparison> {
    match file {
        Some(path) => match fs::open(rt, path) {
            Ok(file) => find(rt.alloc(), &mut Counted::new(file)),
            Err(_) => None,
        },
        None => find(rt.alloc(), &mut Counted::new(rt.reader())),
    }
}

/// What the machine does, in words.
fn differs_in<R: AllocGlobal>(rt: &R, differs: Differs) -> Result<String, AllocError> {
    match differs {
        Differs::Chooses(Choice::Thread(thread)) => format!(in rt.alloc(); "t{thread} goes on"),
        Differs::Chooses(Choice::Clock) => format!(in rt.alloc(); "the next deadline comes"),
        Differs::Chooses(Choice::Nobody) => format!(in rt.alloc(); "nobody can go on"),
        Differs::IsAt(time) => format!(in rt.alloc(); "the time is {time}"),
        Differs::Wakes(Some(thread)) => format!(in rt.alloc(); "t{thread} is woken"),
        Differs::Wakes(None) => format!(in rt.alloc(); "nobody sleeps there"),
        Differs::HasTurn(Some(thread)) => format!(in rt.alloc(); "it is the turn of t{thread}"),
        Differs::HasTurn(None) => format!(in rt.alloc(); "it is nobody's turn"),
    }
}

fn said<R: AllocGlobal>(rt: &R, found: Option<Comparison>) -> Result<String, AllocError> {
    match found {
        Some(Comparison::Same(runs, steps)) => format!(in rt.alloc();
            "{runs} runs, {steps} steps\n"
        ),
        Some(Comparison::Differs(line, differs)) => {
            let differs = differs_in(rt, differs)?;
            format!(in rt.alloc(); "line {line}: {differs}\n")
        }
        Some(Comparison::NoStep(line)) => format!(in rt.alloc(); "nchoose: line {line}: no step\n"),
        Some(Comparison::Memory) => format!(in rt.alloc(); "nchoose: out of memory\n"),
        None => format!(in rt.alloc(); "nchoose: read failed\n"),
    }
}

fn status_of(found: Option<Comparison>) -> u8 {
    match found {
        Some(Comparison::Same(_, _)) => 0,
        Some(Comparison::Differs(_, _)) => 1,
        _ => 2,
    }
}

/// Tells what was found, and answers the exit status.
fn tell<R: AllocGlobal, W: Sink>(rt: &R, found: Option<Comparison>, writer: &mut W) -> u8 {
    match said(rt, found) {
        Ok(text) => {
            if write_and_flush(writer, text.as_str().as_bytes()).is_ok() {
                status_of(found)
            } else {
                2
            }
        }
        Err(AllocError) => 2,
    }
}

fn main(rt: HostRuntime) -> ExitCode {
    let asked = file_asked(&rt);
    let found = found(&rt, asked.as_ref().map(|file| file.as_str()));
    ExitCode::from(if status_of(found) < 2 {
        tell(&rt, found, &mut Counted::new(rt.stdout()))
    } else {
        tell(&rt, found, &mut Counted::new(rt.stderr()))
    })
}
