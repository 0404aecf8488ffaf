//! How many schedules two threads have whose steps can come in any order: as many as there are ways to choose the places of the first one's
//! steps. It costs 1 to leave a thread that has steps left.

use crate::expect::expect_equal;
use crate::refused::tell_refused;
use nt_schedule::{Node, next_branch};
use std::alloc::{AllocError, Global};

/// Goes along the path, and notes the steps behind it, with the usual choice at each.
fn run(path: &mut Vec<Node>, first: u32, second: u32) -> Result<(), AllocError> {
    let mut left = (first, second);
    let mut is_first = true;
    let mut spent = 0u32;
    for step in 0..64usize {
        if left.0 == 0 || left.1 == 0 {
            return Ok(());
        }
        if step >= path.len() {
            path.push(Node {
                width: 2,
                free: 1,
                spent,
                chosen: 0,
            })?;
        } else if path[step].chosen == 1 {
            is_first = !is_first;
            spent = spent.saturating_add(1);
        }
        if is_first {
            left.0 = left.0.saturating_sub(1);
        } else {
            left.1 = left.1.saturating_sub(1);
        }
    }
    Ok(())
}

/// Asks for what comes next after the path: none where that was the last one.
fn ask(path: &mut Vec<Node>, bound: u32) -> Result<bool, AllocError> {
    match next_branch(path.as_slice(), bound) {
        None => Ok(false),
        Some(branch) => {
            path.truncate(branch.at.saturating_add(1));
            match path.pop() {
                Some(node) => {
                    path.push(Node {
                        chosen: branch.choice,
                        ..node
                    })?;
                    Ok(true)
                }
                None => Ok(false),
            }
        }
    }
}

fn count(alloc: Global, first: u32, second: u32, bound: u32) -> Result<u64, AllocError> {
    let mut path = Vec::new(alloc);
    for runs in 1..1000u64 {
        run(&mut path, first, second)?;
        if !ask(&mut path, bound)? {
            return Ok(runs);
        }
    }
    Ok(0)
}

/// Steps of each, the bound, and how many schedules there are. Of two steps each the orders cost 0 (aabb), 1 (abba, bbaa), 2 (abab, baab) and 3
/// (baba).
const ROWS: &[(u32, u32, u32, u64)] = &[
    (2, 2, 100, 6),
    (3, 2, 100, 10),
    (4, 4, 100, 70),
    (5, 3, 100, 56),
    (2, 2, 0, 1),
    (2, 2, 1, 3),
    (2, 2, 2, 5),
    (2, 2, 3, 6),
];

#[test]
fn each_order_is_run_once(rt: HostRuntime) {
    for row in ROWS {
        match count(rt.alloc(), row.0, row.1, row.2) {
            Ok(runs) => expect_equal(&rt, runs, row.3, "how many schedules"),
            Err(_) => tell_refused(&rt, "a path"),
        }
    }
}
