//! The tree of choices of a program's runs, gone through depth first: a run for each path.
//!
//! A run comes to a choice, and to another, until it ends; its choices are its path. Of what can be chosen at a step the usual choice is number 0.
//! The next path after a run is the least one that comes after it: the last choice that has a next one within the bound is that one, and what comes
//! behind it is usual again.

ghost use Rattle.std.specs.Prelude.{◌≡◌, ◌+◌, ◌<◌, length, IfSome, IfNone};
ghost use Rattle.std.specs.Option.{option_map};
ghost use Rattle.nt_schedule.specs.Tree.{after, node_at, next_prefix, prefix_of, IsAsAsked};

/// A step of a run: what it could choose among, and what it chose.
#[derive(Clone, Copy, Debug, PartialEq, Eq)]
pub struct Node {
    /// How many choices there were.
    pub width: u32,
    /// How many of them cost nothing, from the usual one on. Each other one costs 1.
    pub free: u32,
    /// What the choices before it cost.
    pub spent: u32,
    pub chosen: u32,
}

/// Where the next path leaves the last one, and by which choice.
#[derive(Clone, Copy, Debug, PartialEq, Eq)]
pub struct Branch {
    pub at: usize,
    pub choice: u32,
}

impl Node {
    /// The next choice after the one that was made, if a path with it is within the bound.
    pub fn after(self, bound: u32) -> Option<u32>
        ensures { result ≡ after bound self }
    {
        if self.width <= 1 || self.chosen >= self.width - 1 {
            return None;
        }
        let next = self.chosen + 1;
        if next < self.free || self.spent < bound {
            Some(next)
        } else {
            None
        }
    }
}

/// The step of this number.
fn node_at(path: &[Node], at: usize) -> Node
    requires { at < length path.now }
    ensures { result ≡ node_at path.now at }
{
    path[at]
}

/// What is to be asked for after the run of this path: none where each path within the bound was asked for.
pub fn next_branch(path: &[Node], bound: u32) -> Option<Branch>
    ensures prefix { option_map (prefix_of path.now) result ≡ next_prefix bound path.now }
    ensures within { IfSome result (λ branch. branch.at < length path.now) }
{
    let mut at = path.len();
    while at > 0 {
        at -= 1;
        if let Some(choice) = node_at(path, at).after(bound) {
            return Some(Branch { at, choice });
        }
    }
    None
}

/// Where a run went another way than it was asked to: at the first step that is not as asked, or that it did not come to. A run does so
/// if it depends on more than its choices.
pub fn diverges(asked: &[Node], ran: &[Node]) -> Option<usize>
    ensures as_asked { IfNone result (IsAsAsked asked.now ran.now (length asked.now)) }
    ensures step { IfSome result (λ step. (step < length asked.now) × IsAsAsked asked.now ran.now step
        × (IsAsAsked asked.now ran.now (step + 1) → ⊥)) }
{
    for step in 0..asked.len() {
        if step >= ran.len() || node_at(ran, step) != node_at(asked, step) {
            return Some(step);
        }
    }
    None
}
