//! From the words of a line to what it says: a function for each line of the grammar.

ghost use Rattle.std.specs.Prelude.{◌≡◌, ◌≤◌, ◌<◌, IfOk, IfSome};
ghost use Rattle.nt_grammar.specs.Places.{ObjectPlace};
ghost use Rattle.nt_grammar.specs.Scope.{Scope};
ghost use Rattle.nt_grammar.specs.Reading.{Gives, each_at, tick_at, keyword_line_at, caller_at, statement_at, opening_at, threads_at};

use crate::calls::parse_call;
use crate::fault::{LineFault, ScriptFault};
use crate::keyword::Keyword;
use crate::scope::Bindings;
use crate::words::Words;
use nt_calls::{Act, Call};
use nt_lines::caller_of;
use nt_status::{MAX_MOMENT, MAX_THREADS, Moment};
use std::alloc::{AllocError, Global};
use std::marker::Model;

/// A name that a creation is to bind.
#[derive(Debug, Drop)]
pub struct Name {
    text: Vec<u8>,
}

impl Model for Name {
    ghost use Rattle.std.specs.Prelude.{ℕ, List};

    ghost Value = { List ℕ };

    ghost view = { λ name. name.text.items };
}

impl Name {
    pub(crate) fn new(alloc: Global, text: &str) -> Result<Name, AllocError>
        ensures { IfOk result (λ name. name ≡ text.now) }
    {
        Ok(Name {
            text: Vec::from_slice(alloc, text.as_bytes())?,
        })
    }

    /// The name's bytes.
    pub fn into_bytes(self) -> Vec<u8>
        ensures { result.items ≡ self }
    {
        self.text
    }
}

/// What a line after `threads` says.
#[derive(Drop)]
pub enum Statement {
    /// Nothing.
    Blank,
    /// A thread makes an object or a handle, which is to have this name.
    Create { who: u32, name: Name, act: Act },
    /// A thread makes another call.
    Perform { who: u32, call: Call },
    /// All moments up to this one pass.
    Tick { moment: Moment },
}

#[tactic(auto, unfolding(crate::specs::Reading::opening_at))]
pub(crate) fn parse_opening(mut words: Words) -> Result<Option<u32>, ScriptFault>
    ensures exact { result ≡ opening_at words.entry }
    ensures range { IfOk result (λ threads. IfSome threads (λ n. (0 < n) × (n ≤ MAX_THREADS))) }
{
    match words.next() {
        Err(_) => Ok(None),
        Ok(first) if first == b"threads".as_slice() => threads(words),
        Ok(_) => Err(ScriptFault::ThreadsExpected),
    }
}

#[tactic(auto, unfolding(crate::specs::Reading::threads_at))]
fn threads(mut words: Words) -> Result<Option<u32>, ScriptFault>
    ensures exact { result ≡ threads_at words.entry }
    ensures range { IfOk result (λ threads. IfSome threads (λ n. (0 < n) × (n ≤ MAX_THREADS))) }
{
    let count = words.number(1, u64::from(MAX_THREADS))?;
    words.end()?;
    Ok(Some(count as u32))
}

/// `tick M`
#[tactic(auto, unfolding(crate::specs::Reading::tick_at))]
fn tick(mut words: Words) -> Result<Statement, ScriptFault>
    ensures { result ≡ tick_at words.entry }
{
    let number = words.number(0, MAX_MOMENT)?;
    words.end()?;
    match Moment::new(number) {
        Some(moment) => Ok(Statement::Tick { moment }),
        None => unreachable!(),
    }
}

/// A line after its caller.
#[tactic(auto, unfolding(crate::specs::Reading::caller_at))]
fn parse_caller_line(
    alloc: Global,
    bindings: &Bindings,
    who: u32,
    mut words: Words,
) -> Result<Statement, LineFault>
    ensures { Gives (λ statement. statement) result (caller_at bindings.now.scope who words.entry) }
{
    let word = words.next()?;
    let keyword = Keyword::of(word).ok_or(ScriptFault::UnknownWord)?;
    parse_call(alloc, bindings, who, keyword, words)
}

/// A line after `threads`.
#[tactic(auto, unfolding(crate::specs::Reading::statement_at))]
pub(crate) fn parse_statement(
    alloc: Global,
    bindings: &Bindings,
    mut words: Words,
) -> Result<Statement, LineFault>
    ensures { Gives (λ statement. statement) result (statement_at bindings.now.scope words.entry) }
{
    let Ok(first) = words.next() else {
        return Ok(Statement::Blank);
    };
    if first == b"tick".as_slice() {
        return Ok(tick(words)?);
    }
    let who = caller_of(first).ok_or(ScriptFault::UnknownWord)?;
    parse_caller_line(alloc, bindings, who, words)
}
