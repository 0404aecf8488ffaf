//! Claims, as an order closes them.
ghost use Rattle.std.specs.Prelude.{◌≡◌, ◌++◌, ◌||◌, IfOk, OnOk, Some, not, true};
ghost use Rattle.std.specs.List.{filter};
ghost use Rattle.nt_lanes.specs.Lanes.{asked};
ghost use Rattle.nt_plans.specs.Gates.{close_line, close_lines, closed_first, closed_in, goes_after, is_claim, is_told, tries_of};

use crate::items::{is_handle, is_one_of};
use crate::laying::Made;
use nt_calls::Act;
use nt_lanes::Ask;
use nt_status::Handle;
use nt_wording::put_number;
use std::alloc::{AllocError, Global};

/// Whether acts go on after this one: at a gap they do, and not where it closes what was closed before.
fn goes_after(closed: &[Handle], act: &Option<Act>, goes: bool) -> bool
    ensures { result ≡ goes_after closed.now act.now goes }
{
    match act {
        None => true,
        Some(Act::Close(handle)) => goes && !is_one_of(closed, *handle),
        _ => goes,
    }
}

/// What acts close that are tried. What was closed before is refused, with those after it up to the next gap.
fn closed_in(
    alloc: Global,
    closed: &[Handle],
    acts: &[Option<Act>],
) -> Result<Vec<Handle>, AllocError>
    ensures { IfOk result (λ found. found.items ≡ closed_in closed.now acts.now true) }
{
    let mut found = Vec::new(alloc);
    let mut goes = true;
    for act in acts {
        goes = goes_after(closed, act, goes);
        if let Some(Act::Close(handle)) = act {
            if goes {
                found.push(*handle)?;
            }
        }
    }
    Ok(found)
}

/// What is closed where this is asked and acts are tried, after what was closed so before.
pub fn tries_of(alloc: Global, closed: &[Handle], ask: &Ask) -> Result<Vec<Handle>, AllocError>
    ensures { IfOk result (λ found. found.items ≡ tries_of closed.now (Some (asked ask.now))) }
{
    match ask {
        Ask::Tries(acts) => closed_in(alloc, closed, acts),
        _ => Ok(Vec::new(alloc)),
    }
}

/// Whether the handle is a claim of one of these.
fn is_claim(late: &[Made], handle: Handle) -> bool
    ensures { result ≡ is_claim late.now handle }
{
    late.iter().any(|made| made.claim == handle)
}

/// The handle that the line itself closes, where it closes claims too.
pub fn closed_first(ask: &Ask) -> Option<Handle>
    ensures { result ≡ closed_first (Some (asked ask.now)) }
{
    match ask {
        Ask::Tries(acts) => match acts.as_slice() {
            [Some(Act::Close(handle)), ..] => Some(*handle),
            _ => None,
        },
        _ => None,
    }
}

/// Whether the script tells of it already that this handle is closed: it is a claim, or that which the line itself closes.
fn is_told(late: &[Made], first: &Option<Handle>, handle: Handle) -> bool
    ensures { result ≡ is_told late.now first.now handle }
{
    is_claim(late, handle) || is_handle(handle, *first)
}

/// Puts the line with which the thread closes the handle.
fn put_close(out: &mut Vec<u8>, thread: u32, handle: Handle) -> Result<(), AllocError>
    ensures { OnOk result (out.new.items ≡ out.old.items ++ close_line thread handle) }
{
    out.extend_from_slice(b"t")?;
    put_number(out, u64::from(thread))?;
    out.extend_from_slice(b" close ")?;
    put_number(out, u64::from(handle.get()))?;
    out.extend_from_slice(b"\n")
}

/// The same of each of these handles of which the script does not tell it already, after a line that closes this one itself.
pub fn put_closes(
    out: &mut Vec<u8>,
    late: &[Made],
    thread: u32,
    first: &Option<Handle>,
    handles: &[Handle],
) -> Result<(), AllocError>
    ensures { OnOk result (out.new.items
        ≡ out.old.items ++ close_lines thread (filter (λ handle. not (is_told late.now first.now handle)) handles.now)) }
{
    for handle in handles {
        if !is_told(late, first, *handle) {
            put_close(out, thread, *handle)?;
        }
    }
    Ok(())
}
