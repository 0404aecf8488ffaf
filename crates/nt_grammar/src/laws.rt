//! Laws of the definitions, as contracts of functions that do nothing.
ghost use Rattle.nt_grammar.specs.Laws.{StatementsReadBack, LinesSpellStatements, LinesReadOneWay};

/// A statement reads back: with lawful names and numbers, its own text is a line of that statement and of no other.
pub fn statements_read_back()
    ensures { StatementsReadBack }
{}

/// A line is a statement only where its words are those of the statement's own text, but for leading zeros and names.
pub fn lines_spell_statements()
    ensures { LinesSpellStatements }
{}

/// A line is read one way: it is one statement, or it has a first fault.
pub fn lines_read_one_way()
    ensures { LinesReadOneWay }
{}
