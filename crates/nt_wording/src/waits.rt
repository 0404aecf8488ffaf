//! What a thread waits for, in words.
ghost use Rattle.std.specs.Prelude.{◌≡◌, ◌++◌, OnOk, codes, decimal, slice_index_or};
ghost use Rattle.std.specs.List.{flat_map};
ghost use Rattle.std.specs.FinMap.{get};
ghost use Rattle.nt_grammar.specs.Spelling.{mode_word};
ghost use Rattle.nt_script.specs.Progress.{progress};
ghost use Rattle.nt_wording.specs.Names.{thread_title};
ghost use Rattle.nt_wording.specs.Waits.{gap_text, kind_text, names_text, object_text, wait_objects_text};
ghost use Rattle.nt_wording.specs.Waits.{since_text, time_text, wait_text, awaited_text, waiters_text};

use crate::names::{put_object_name, put_thread_title};
use crate::objects::put_object;
use crate::text::put_number;
use nt_grammar::{ALERTABLE, PLAIN};
use nt_script::Session;
use nt_status::ObjectNumber;
use nt_waits::Wait;
use std::alloc::AllocError;

fn kind_text(wait: &Wait) -> &'static [u8]
    ensures { result.now ≡ kind_text wait.now }
{
    if wait.objects.as_slice().is_empty() {
        b"sleep "
    } else if wait.all {
        b"all "
    } else {
        b"any "
    }
}

fn mode_text(alertable: bool) -> &'static [u8]
    ensures { result.now ≡ mode_word alertable }
{
    if alertable { ALERTABLE } else { PLAIN }
}

/// Puts when the wait times out.
fn put_time(out: &mut Vec<u8>, deadline: Option<u64>) -> Result<(), AllocError>
    ensures { OnOk result (out.new.items ≡ out.old.items ++ time_text deadline) }
{
    match deadline {
        Some(moment) => {
            out.extend_from_slice(b"until ")?;
            put_number(out, moment)?;
            out.extend_from_slice(b" ")
        }
        None => out.extend_from_slice(b"inf "),
    }
}

/// Puts the names of these objects.
fn put_names(
    out: &mut Vec<u8>,
    session: &Session,
    objects: &[u32],
    numbers: &[ObjectNumber],
) -> Result<(), AllocError>
    ensures { OnOk result (out.new.items ≡ out.old.items ++ names_text (progress session.now) objects.now numbers.now) }
{
    for number in numbers {
        out.extend_from_slice(b" ")?;
        put_object_name(out, session, objects, number.get())?;
    }
    Ok(())
}

/// Puts the kind of the wait, and when it times out.
fn put_kind(out: &mut Vec<u8>, wait: &Wait) -> Result<(), AllocError>
    ensures { OnOk result (out.new.items ≡ out.old.items ++ (kind_text wait.now ++ time_text wait.now.deadline)) }
{
    out.extend_from_slice(kind_text(wait))?;
    put_time(out, wait.deadline)
}

/// Puts whether the wait is alertable, and the names of its objects.
fn put_mode(
    out: &mut Vec<u8>,
    session: &Session,
    objects: &[u32],
    wait: &Wait,
) -> Result<(), AllocError>
    ensures { OnOk result (out.new.items ≡ out.old.items
        ++ (mode_word wait.now.alertable ++ names_text (progress session.now) objects.now wait.now.objects)) }
{
    out.extend_from_slice(mode_text(wait.alertable))?;
    put_names(out, session, objects, wait.objects.as_slice())
}

/// Puts the wait as a script has it.
fn put_wait(
    out: &mut Vec<u8>,
    session: &Session,
    objects: &[u32],
    wait: &Wait,
) -> Result<(), AllocError>
    ensures { OnOk result (out.new.items ≡ out.old.items ++ wait_text (progress session.now) objects.now wait.now) }
{
    put_kind(out, wait)?;
    put_mode(out, session, objects, wait)
}

/// What stands before an object of a wait.
fn gap_text(wait: &Wait) -> &'static [u8]
    ensures { result.now ≡ gap_text wait.now }
{
    if wait.objects.as_slice().len() <= 1 {
        b"   "
    } else {
        b"\n    "
    }
}

/// Puts these objects, with their states, each after a gap.
fn put_each(
    out: &mut Vec<u8>,
    session: &Session,
    objects: &[u32],
    told: &[u8],
    gap: &[u8],
    numbers: &[ObjectNumber],
) -> Result<(), AllocError>
    ensures { OnOk result (out.new.items ≡ out.old.items
        ++ flat_map (λ o. gap.now ++ object_text (progress session.now) objects.now told.now o) numbers.now) }
{
    for number in numbers {
        out.extend_from_slice(gap)?;
        put_object(out, session, objects, told, *number)?;
    }
    Ok(())
}

/// Puts the objects of the wait, with their states.
fn put_objects(
    out: &mut Vec<u8>,
    session: &Session,
    objects: &[u32],
    told: &[u8],
    wait: &Wait,
) -> Result<(), AllocError>
    ensures { OnOk result (out.new.items ≡ out.old.items ++ wait_objects_text (progress session.now) objects.now told.now wait.now) }
{
    put_each(
        out,
        session,
        objects,
        told,
        gap_text(wait),
        wait.objects.as_slice(),
    )
}

/// Puts a thread's name, at the beginning of its line.
fn put_waiting(out: &mut Vec<u8>, told: &[u8], thread: u32) -> Result<(), AllocError>
    ensures { OnOk result (out.new.items ≡ out.old.items ++ (codes "  " ++ thread_title told.now thread)) }
{
    out.extend_from_slice(b"  ")?;
    put_thread_title(out, told, thread)
}

/// Puts since which line it waits.
fn put_line(out: &mut Vec<u8>, line: u64) -> Result<(), AllocError>
    ensures { OnOk result (out.new.items ≡ out.old.items ++ (codes " since line " ++ (decimal line ++ codes "  "))) }
{
    out.extend_from_slice(b" since line ")?;
    put_number(out, line)?;
    out.extend_from_slice(b"  ")
}

/// Puts a thread, and since which line it waits.
fn put_since(out: &mut Vec<u8>, told: &[u8], thread: u32, since: u64) -> Result<(), AllocError>
    ensures { OnOk result (out.new.items ≡ out.old.items ++ since_text told.now thread since) }
{
    put_waiting(out, told, thread)?;
    put_line(out, since)
}

/// Puts a wait, and its objects with their states.
fn put_whole_wait(
    out: &mut Vec<u8>,
    session: &Session,
    objects: &[u32],
    told: &[u8],
    wait: &Wait,
) -> Result<(), AllocError>
    ensures { OnOk result (out.new.items ≡ out.old.items
        ++ (wait_text (progress session.now) objects.now wait.now
        ++ wait_objects_text (progress session.now) objects.now told.now wait.now)) }
{
    put_wait(out, session, objects, wait)?;
    put_objects(out, session, objects, told, wait)
}

/// Puts what the thread waits for, since this line; nothing where it does not wait.
fn put_waiter(
    out: &mut Vec<u8>,
    session: &Session,
    objects: &[u32],
    told: &[u8],
    since: u64,
    thread: u32,
) -> Result<(), AllocError>
    ensures { OnOk result (out.new.items ≡ out.old.items ++ awaited_text (progress session.now) objects.now told.now since thread
        (get (progress session.now).state.waits thread)) }
{
    match session.core().waits_for(thread) {
        Some(wait) => {
            put_since(out, told, thread, since)?;
            put_whole_wait(out, session, objects, told, wait)?;
            out.extend_from_slice(b"\n")
        }
        None => Ok(()),
    }
}

/// The line since which the thread waits.
fn since_at(since: &[u64], thread: u32) -> u64
    ensures { result ≡ slice_index_or since.now thread 0 }
{
    match since.get(thread as usize) {
        Some(line) => *line,
        None => 0,
    }
}

/// Puts each thread that waits, and what it waits for.
pub fn put_waiters(
    out: &mut Vec<u8>,
    session: &Session,
    objects: &[u32],
    told: &[u8],
    since: &[u64],
) -> Result<(), AllocError>
    ensures { OnOk result (out.new.items ≡ out.old.items ++ waiters_text (progress session.now) objects.now told.now since.now
        (progress session.now).state.threads) }
{
    for thread in 0..session.core().threads() {
        put_waiter(out, session, objects, told, since_at(since, thread), thread)?;
    }
    Ok(())
}
