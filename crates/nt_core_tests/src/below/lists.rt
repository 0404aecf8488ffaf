//! Lists of handles and of objects.

use crate::expect::expect;
use crate::tests::memory::{CoreHost, walk_at_last};
use nt_status::{Handle, Handles, ObjectNumber, ObjectNumbers, Refusal};
use std::test::Fail;

/// Nine numbers: one more handle than lies in place.
const NINE: [u32; 9] = [8, 1, 7, 2, 6, 3, 5, 4, 9];

fn list_handles(rt: &impl CoreHost, list: &mut Handles) -> Result<(), Refusal> {
    let nine = NINE.map(|number| Handle::new(number));
    for handle in &nine {
        list.push(*handle)?;
    }
    let copied = Handles::from_slice(rt.alloc(), list.as_slice())?;
    let is_same = list.as_slice() == nine.as_slice() && copied.as_slice() == nine.as_slice();
    expect(rt, is_same, "nine handles");
    Ok(())
}

#[test]
fn handles_keep_their_order(rt: HostRuntime) -> Result<(), Fail> {
    walk_at_last(&rt, "handles", || {
        list_handles(&rt, &mut Handles::with_capacity(rt.alloc(), 3)?)?;
        list_handles(&rt, &mut Handles::new(rt.alloc()))
    })
}

/// The list takes these objects over, and a copy of it has them too.
fn list_objects(
    rt: &impl CoreHost,
    list: &mut ObjectNumbers,
    objects: &[ObjectNumber],
) -> Result<(), Refusal> {
    list.copy_from(objects)?;
    let is_same = list.as_slice() == objects && list.copy()?.as_slice() == objects;
    expect(rt, is_same, "the objects of a list");
    Ok(())
}

/// More objects than lie in place, four that do, four others, one, and four again.
fn list_in_turn(rt: &impl CoreHost) -> Result<(), Refusal> {
    let nine = NINE.map(|number| ObjectNumber::new(number));
    let mut list = ObjectNumbers::new(rt.alloc());
    for (first, end) in [(0, 9), (0, 4), (5, 9), (0, 1), (0, 4)] {
        let objects = nine.get(first..end).unwrap_or(&[]);
        list_objects(rt, &mut list, objects)?;
    }
    Ok(())
}

#[test]
fn objects_keep_their_order(rt: HostRuntime) -> Result<(), Fail> {
    walk_at_last(&rt, "objects", || list_in_turn(&rt))
}
