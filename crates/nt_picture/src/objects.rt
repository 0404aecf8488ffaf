//! The rows of a picture that tell of the objects, each whose it was, or which count it had, or whether it was set.

use crate::escape::{put_cut, put_escaped, put_text, width_of};
use crate::layout::{Layout, at};
use crate::marks::put_raw;
use nt_objects::{Armed, Object};
use nt_timeline::{Kept, ObjectChange, Selection, Words};
use nt_wording::{called_by, put_number, put_signed};
use std::alloc::{AllocError, Global};

/// The longest name that is shown whole, in bytes.
const LONGEST: usize = 40;

/// How high a row is, in pixels.
pub(crate) const ROW: u32 = 26;

/// Puts when a timer is due, if it is armed.
fn put_due(out: &mut Vec<u8>, set: bool, armed: Option<Armed>) -> Result<(), AllocError> {
    match armed {
        Some(armed) => {
            out.extend_from_slice(if set {
                b"set, due at ".as_slice()
            } else {
                b"due at ".as_slice()
            })?;
            put_number(out, armed.due)
        }
        None => put_set(out, set),
    }
}

/// Puts whether an event is set.
fn put_set(out: &mut Vec<u8>, set: bool) -> Result<(), AllocError> {
    out.extend_from_slice(if set {
        b"set".as_slice()
    } else {
        b"not set".as_slice()
    })
}

/// Puts whose a mutex is.
fn put_owner(out: &mut Vec<u8>, owner: u32, depth: u32) -> Result<(), AllocError> {
    out.extend_from_slice(b"t")?;
    put_number(out, u64::from(owner))?;
    if depth > 1 {
        out.extend_from_slice(b" x")?;
        put_number(out, u64::from(depth))?;
    }
    Ok(())
}

/// Puts what an object is at a time.
fn put_state(out: &mut Vec<u8>, object: &Object) -> Result<(), AllocError> {
    match object {
        Object::Event { manual: _, set } => put_set(out, *set),
        Object::Semaphore { count, maximum: _ } => put_signed(out, *count),
        Object::Mutex {
            owner: Some(owner),
            depth,
            abandoned: _,
        } => put_owner(out, u32::from(owner.get()), *depth),
        Object::Mutex {
            owner: None,
            depth: _,
            abandoned: true,
        } => out.extend_from_slice(b"abandoned"),
        Object::Mutex {
            owner: None,
            depth: _,
            abandoned: false,
        } => out.extend_from_slice(b"free"),
        Object::Timer {
            manual: _,
            set,
            armed,
        } => put_due(out, *set, *armed),
        Object::Thread { ended: _ } => Ok(()),
        Object::Gone => out.extend_from_slice(b"gone"),
    }
}

/// The class of an object that is so.
fn class_of(object: &Object) -> &'static str {
    match object {
        Object::Event {
            manual: _,
            set: true,
        }
        | Object::Timer {
            manual: _,
            set: true,
            armed: _,
        } => "on",
        Object::Semaphore { count, maximum: _ } if *count > 0 => "on",
        Object::Timer {
            manual: _,
            set: false,
            armed: Some(_),
        } => "armed",
        Object::Mutex {
            owner: Some(owner),
            depth: _,
            abandoned: _,
        } => match owner.get() % 8 {
            0 => "own o0",
            1 => "own o1",
            2 => "own o2",
            3 => "own o3",
            4 => "own o4",
            5 => "own o5",
            6 => "own o6",
            _ => "own o7",
        },
        _ => "off",
    }
}

/// What kind of object it is; empty of a thread.
fn kind_of(object: &Object) -> &'static [u8] {
    match object {
        Object::Event { manual: _, set: _ } => b"event",
        Object::Semaphore {
            count: _,
            maximum: _,
        } => b"semaphore",
        Object::Mutex {
            owner: _,
            depth: _,
            abandoned: _,
        } => b"mutex",
        Object::Timer {
            manual: _,
            set: _,
            armed: _,
        } => b"timer",
        Object::Thread { ended: _ } => b"",
        Object::Gone => b"",
    }
}

/// The first state of the object with the name at this place.
fn first_of(kept: &Kept, place: usize) -> Option<Object> {
    kept.changes
        .iter()
        .find(|it| it.place == place)
        .map(|it| it.object)
}

/// Whether the name at this place is the first of its object, which has a row where a shown step changed it, or it is asked for.
fn has_row(
    kept: &Kept,
    layout: &Layout,
    words: Words<'_>,
    part: &Selection<'_>,
    place: usize,
) -> bool {
    let Some(number) = words.objects.get(place) else {
        return false;
    };
    let is_first = words.objects.iter().position(|it| it == number) == Some(place);
    let is_thread = *number < words.session.core().threads();
    match part.object {
        Some(object) => is_first
            && !is_thread
            && words.session.name_at(place) == Some(object.as_bytes()),
        None => is_first
            && !is_thread
            && kept
                .changes
                .iter()
                .any(|it| it.place == place && is_shown(layout, it.step)),
    }
}

fn is_shown(layout: &Layout, step: usize) -> bool {
    match layout.is_shown.get(step) {
        Some(is_shown) => *is_shown,
        None => false,
    }
}

/// The places of the names whose objects have a row.
pub(crate) fn rows_of(
    alloc: Global,
    kept: &Kept,
    layout: &Layout,
    words: Words<'_>,
    part: &Selection<'_>,
) -> Result<Vec<usize>, AllocError> {
    let mut rows = Vec::new(alloc);
    for place in 0..words.objects.len() {
        if has_row(kept, layout, words, part, place) {
            rows.push(place)?;
        }
    }
    Ok(rows)
}

/// The name at this place, or what the comments call it.
pub(crate) fn name_at<'a>(words: Words<'a>, place: usize) -> &'a [u8] {
    let name = words.session.name_at(place).unwrap_or(b"");
    called_by(words.told, name).unwrap_or(name)
}

/// Puts an object as it was from one place to another.
fn put_span(
    alloc: Global,
    out: &mut Vec<u8>,
    name: &[u8],
    object: &Object,
    (x, end, y): (u32, u32, u32),
) -> Result<(), AllocError> {
    if end <= x {
        return Ok(());
    }
    let class = class_of(object);
    let (top, base, width) = (
        y.saturating_add(2),
        y.saturating_add(14),
        end.saturating_sub(x),
    );
    let mut state = Vec::new(alloc);
    put_state(&mut state, object)?;
    put_raw(out, format!(in alloc; "<g><title>")?.as_str())?;
    put_escaped(out, name)?;
    out.extend_from_slice(b": ")?;
    put_escaped(out, &state)?;
    put_raw(
        out,
        format!(in alloc;
            "</title><rect class=\"state {class}\" x=\"{x}\" y=\"{top}\" width=\"{width}\" height=\"16\" rx=\"3\"/>\n"
        )?.as_str(),
    )?;
    if width_of(state.len(), 11) <= width {
        let class = format!(in alloc; "value {class}")?;
        put_text(
            alloc,
            out,
            class.as_str(),
            x.saturating_add(6),
            base,
            &state,
        )?;
    }
    out.extend_from_slice(b"</g>\n")
}

/// Puts an object's row.
pub(crate) fn put_row(
    alloc: Global,
    out: &mut Vec<u8>,
    kept: &Kept,
    layout: &Layout,
    words: Words<'_>,
    place: usize,
    y: u32,
) -> Result<(), AllocError> {
    let name = name_at(words, place);
    let kind = match first_of(kept, place) {
        Some(object) => kind_of(&object),
        None => b"",
    };
    let base = y.saturating_add(14);
    put_cut(alloc, out, "object", (20, base), name, LONGEST)?;
    put_text(
        alloc,
        out,
        "kind",
        width_of(name.len().min(LONGEST), 12).saturating_add(24),
        base,
        kind,
    )?;
    let mut last: Option<ObjectChange> = None;
    for change in &kept.changes {
        if change.place == place {
            if let Some(last) = last {
                put_span(
                    alloc,
                    out,
                    name,
                    &last.object,
                    (at(&layout.x, last.step), at(&layout.x, change.step), y),
                )?;
            }
            last = Some(*change);
        }
    }
    match last {
        Some(last) => put_span(
            alloc,
            out,
            name,
            &last.object,
            (at(&layout.x, last.step), layout.right, y),
        ),
        None => Ok(()),
    }
}

/// How far to the right the names of the objects reach.
pub fn left_of(kept: &Kept, words: Words<'_>) -> u32 {
    let mut left: u32 = 150;
    for place in 0..words.objects.len() {
        let kind = match first_of(kept, place) {
            Some(object) => kind_of(&object).len(),
            None => 0,
        };
        let name = name_at(words, place).len().min(LONGEST);
        let width = width_of(name, 12).saturating_add(width_of(kind, 10));
        left = left.max(width.saturating_add(44));
    }
    left
}
