//! A law of the definitions, as the contract of a function that does nothing.
ghost use Rattle.nt_life.specs.Laws.{NumbersComeBack};

/// The number of an object that is gone comes back, or another such number, before the tables are used up: among as many creations in a row
/// as there are numbers of objects that no handle names, some takes one, though each but that one is still awaited.
pub fn numbers_come_back()
    ensures { NumbersComeBack }
{}
