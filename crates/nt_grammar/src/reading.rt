//! What a whole line says: its length is judged first, then its bytes, then its words.

ghost use Rattle.std.specs.Prelude.{◌≡◌, ◌≤◌, ◌<◌, IfOk, IfSome, length};
ghost use Rattle.nt_lines.specs.declared.input.TheConstants.{MAX_LINE};
ghost use Rattle.nt_grammar.specs.Lines.{ReadsOpening, ReadsStatement};
ghost use Rattle.nt_grammar.specs.Naming.{NamesFree};
ghost use Rattle.nt_grammar.specs.Reading.{Gives, statement_of, opening_of};

use crate::fault::{LineFault, ScriptFault};
use crate::parser::{Statement, parse_opening, parse_statement};
use crate::scope::Bindings;
use crate::words::{Words, plain_text};
use nt_status::MAX_THREADS;
use std::alloc::Global;

/// Parses a line before `threads`, which tells the number of threads or says nothing.
fn parse_opening_line(line: &[u8]) -> Result<Option<u32>, ScriptFault>
    requires { length line.now ≤ MAX_LINE }
    ensures exact { result ≡ opening_of line.now }
    ensures range { IfOk result (λ threads. IfSome threads (λ n. (0 < n) × (n ≤ MAX_THREADS))) }
{
    parse_opening(Words::new(plain_text(line)?))
}

/// What a line before `threads` says: how many threads there are, 1 to 256, or nothing. No memory is needed.
pub fn read_opening(line: &[u8]) -> Result<Option<u32>, LineFault>
    requires { length line.now ≤ MAX_LINE }
    ensures reads { ReadsOpening line.now result }
    ensures range { IfOk result (λ threads. IfSome threads (λ n. (0 < n) × (n ≤ MAX_THREADS))) }
{
    match parse_opening_line(line) {
        Ok(threads) => Ok(threads),
        Err(fault) => Err(LineFault::Script(fault)),
    }
}

/// Parses a line after `threads`.
fn parse_line(alloc: Global, bindings: &Bindings, line: &[u8]) -> Result<Statement, LineFault>
    requires { length line.now ≤ MAX_LINE }
    ensures { Gives (λ statement. statement) result (statement_of bindings.now.scope line.now) }
{
    let words = Words::new(plain_text(line)?);
    parse_statement(alloc, bindings, words)
}

/// What a line after `threads` says, where these threads and names are bound. `Memory` where a name or a list of objects had no room.
pub fn read_statement(
    alloc: Global,
    bindings: &Bindings,
    line: &[u8],
) -> Result<Statement, LineFault>
    requires { length line.now ≤ MAX_LINE }
    ensures reads { ReadsStatement bindings.now.scope line.now result }
    ensures free { IfOk result (NamesFree bindings.now.scope) }
{
    parse_line(alloc, bindings, line)
}
