//! What a search through the tree comes to.
ghost use Rattle.nt_schedule.specs.Tree.{EachPathOnce};

/// Each path whose cost is within the bound is asked for once, in order, and none is left out: at each moment of a search those that do not
/// come after the last one, and all once nothing is asked for next.
#[tactic(auto, using(crate::proofs::Paths::each_once))]
pub fn each_path_once()
    ensures { EachPathOnce }
{}
