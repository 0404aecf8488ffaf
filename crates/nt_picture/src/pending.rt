//! The waits that still pend: for what, and an arrow to whom alone each can be ended by.

use crate::escape::{put_escaped, shortened};
use crate::layout::{Layout, at};
use crate::marks::{put_bar, put_raw};
use nt_core::Core;
use nt_objects::Object;
use nt_status::ObjectNumber;
use nt_timeline::{Film, Words, put_object};
use nt_waits::Wait;
use std::alloc::{AllocError, Global};

/// How far the arrows reach beyond the lanes, in pixels.
pub(crate) const BULGE: u32 = 62;

/// The longest text that stands below a wait that pends, in bytes.
const LONGEST: usize = 34;

/// Puts that a wait still pends, and for what.
fn put_wanted(
    alloc: Global,
    out: &mut Vec<u8>,
    words: Words<'_>,
    wait: &Wait,
) -> Result<(), AllocError> {
    let numbers = wait.objects.as_slice();
    if numbers.is_empty() {
        return out.extend_from_slice(b"still sleeps");
    }
    out.extend_from_slice(b"still waits for ")?;
    let between: &[u8] = if wait.all { b" and " } else { b" or " };
    for (place, number) in numbers.iter().enumerate() {
        if place > 0 {
            out.extend_from_slice(between)?;
        }
        put_object(alloc, out, words, number.get())?;
    }
    Ok(())
}

/// The thread that alone can give the object: a mutex's owner, or the thread whose end it is.
fn giver_of(core: &Core, object: ObjectNumber) -> Option<u32> {
    match core.objects().get(object.get() as usize) {
        Some(
            Object::Mutex {
                owner: Some(owner),
                depth: _,
                abandoned: _,
            },
        ) => Some(u32::from(owner.get())),
        Some(Object::Thread { ended: false }) => Some(object.get()),
        _ => None,
    }
}

/// Puts an arrow from the end of a lane to the end of another, or of its own, for a wait since this line.
fn put_arrow(
    alloc: Global,
    out: &mut Vec<u8>,
    (right, since): (u32, u64),
    (from, to): (u32, u32),
    title: &[u8],
) -> Result<(), AllocError> {
    let x = right.saturating_add(2);
    let reach = if from < to { BULGE } else { BULGE / 2 };
    let (far, ends) = (x.saturating_add(reach), x.saturating_add(4));
    let to = if from == to {
        to.saturating_add(12)
    } else {
        to
    };
    put_raw(
        out,
        format!(in alloc; "<g class=\"pending\" data-since=\"{since}\"><title>")?.as_str(),
    )?;
    put_escaped(out, title)?;
    put_raw(
        out,
        format!(in alloc;
            "</title><path class=\"arrow pending\" d=\"M{x} {from} C{far} {from} {far} {to} {ends} {to}\" marker-end=\"url(#tip-pending)\"/></g>\n"
        )?.as_str(),
    )
}

/// Puts, for each object of a wait that a thread alone can give, an arrow from the wait to that thread's lane.
fn put_arrows(
    alloc: Global,
    out: &mut Vec<u8>,
    layout: &Layout,
    words: Words<'_>,
    wait: &Wait,
    (from, since): (u32, u64),
) -> Result<(), AllocError> {
    for number in wait.objects.as_slice() {
        let Some(giver) = giver_of(words.session.core(), *number) else {
            continue;
        };
        if let Some(to) = layout.y(giver) {
            let mut title = Vec::new(alloc);
            put_object(alloc, &mut title, words, number.get())?;
            let whose = format!(in alloc; ": t{giver} alone can give it")?;
            title.extend_from_slice(whose.as_bytes())?;
            put_arrow(alloc, out, (layout.right, since), (from, to), &title)?;
        }
    }
    Ok(())
}

/// Puts the wait of this thread, if it pends.
fn put_waiter(
    alloc: Global,
    out: &mut Vec<u8>,
    film: &Film,
    layout: &Layout,
    words: Words<'_>,
    thread: u32,
) -> Result<(), AllocError> {
    let began = film.kept.began_at(thread);
    if let (Some(wait), Some(step), Some(y)) = (
        words.session.core().waits_for(thread),
        film.kept.steps.get(began),
        layout.y(thread),
    ) {
        let mut how = Vec::new(alloc);
        put_wanted(alloc, &mut how, words, wait)?;
        let shown = shortened(alloc, &how, LONGEST)?;
        put_bar(
            alloc,
            out,
            "pending",
            step,
            (&how, &shown),
            (at(&layout.x, began), layout.right, y),
        )?;
        put_arrows(alloc, out, layout, words, wait, (y, step.line))?;
    }
    Ok(())
}

/// Puts the waits that still pend.
pub(crate) fn put_pending(
    alloc: Global,
    out: &mut Vec<u8>,
    film: &Film,
    layout: &Layout,
    words: Words<'_>,
) -> Result<(), AllocError> {
    for thread in &layout.lanes {
        put_waiter(alloc, out, film, layout, words, *thread)?;
    }
    Ok(())
}
