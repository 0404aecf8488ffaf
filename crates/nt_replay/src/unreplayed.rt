//! Why entries were not replayed.

/// Why entries were not replayed. Places are counted from 0.
#[derive(Clone, Copy, PartialEq, Eq, Debug)]
pub enum Unreplayed {
    /// The machine does not write the entry at this place. It is the place after the last entry where the last call ended more waits
    /// than the entries tell.
    Differs(usize),
    /// The call at this place was refused for memory in the entries, and not when it was made again, or the other way round: so its
    /// answer can't be compared. A call that was so refused changed nothing, and the entries after it can be replayed by themselves.
    Memory(usize),
}
