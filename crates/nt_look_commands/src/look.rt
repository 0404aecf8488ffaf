//! What a command line asks for.
ghost use Rattle.std.specs.Prelude.{◌≡◌, ◌<◌, None, Some, IfSome, length, option_map, position, MatchOption, MatchResult, codes, map, string_bytes};
ghost use Rattle.nt_look_commands.specs.CommandLine.{FindsLook, asked_after, asked_of, drawing_asked, is_strict, drawing_in, after_dots, look_asked, both, explore_in, is_dot, line_number_in, line_range_in, look_of, most_in, most_of, timeline_in, told, option_value_in, why_in};
ghost use Rattle.nt_lines.specs.Words.{caller_of};

use crate::command::{Command, command_of};
use crate::words::{are_lawful, file_in, value_in};
use nt_drawing::{Drawing, Form};
use nt_lines::{MAX_DIGITS, caller_of, number_of};
use nt_timeline::Selection;

/// How many states may be met at the most.
const MOST_STATES: u64 = 4_000_000_000;

/// How many may, where the command line does not say.
const MANY_STATES: u64 = 1_000_000;

/// What the program is to do.
#[derive(Clone, Copy, Debug)]
pub enum Look<'a> {
    /// Report why the threads of the script in this file wait after a line, or at its end; strictly, a refused call counts as a fault.
    Why {
        file: &'a str,
        at: Option<u64>,
        strict: bool,
    },
    /// Write a part of the timeline of the script in this file: as text, or as a drawing into another file; strictly, likewise.
    Timeline {
        file: &'a str,
        part: Selection<'a>,
        drawing: Option<Drawing<'a>>,
        strict: bool,
    },
    /// Explore the orders of the lines of the script in this file, until `most` states are met, and write the one that hangs into another file.
    Explore {
        file: &'a str,
        most: u64,
        script: Option<&'a str>,
    },
}

/// The number of a line, from 1 on.
#[tactic(auto, unfolding(crate::specs::CommandLine::line_number_in))]
fn line_of(word: &[u8]) -> Option<u64>
    ensures { result ≡ line_number_in word.now }
{
    match number_of(word, MAX_DIGITS) {
        Some(line) if line > 0 => Some(line),
        _ => None,
    }
}

/// The line that an option tells; `Some(None)` where the option is left out.
fn line_in(option: &str, words: &[String]) -> Option<Option<u64>>
    ensures { result ≡ told line_number_in (option_value_in option.now (map string_bytes words.now)) }
{
    match value_in(option, words) {
        Some(word) => match line_of(word.as_bytes()) {
            Some(line) => Some(Some(line)),
            None => None,
        },
        None => Some(None),
    }
}

/// `ntlook why`
fn why_in<'a>(strict: bool, file: &'a str, words: &[String]) -> Option<Look<'a>>
    ensures { FindsLook (why_in strict file.now (map string_bytes words.now)) result }
{
    match line_in("--at", words) {
        Some(at) => Some(Look::Why { file, at, strict }),
        None => None,
    }
}

/// The number of a line after `..`.
#[tactic(auto, unfolding(crate::specs::CommandLine::after_dots))]
fn after_dots(text: &[u8]) -> Option<u64>
    ensures { result ≡ after_dots text.now }
{
    match text {
        [b'.', b'.', last @ ..] => line_of(last),
        _ => None,
    }
}

/// Two values, where both are there.
fn both(first: Option<u64>, second: Option<u64>) -> Option<(u64, u64)>
    ensures { result ≡ both first second }
{
    match (first, second) {
        (Some(first), Some(second)) => Some((first, second)),
        _ => None,
    }
}

/// Where the first dot is.
fn first_dot(word: &[u8]) -> Option<usize>
    ensures place { result ≡ position is_dot word.now }
    ensures within { IfSome result (λ place. place < length word.now) }
{
    word.iter().position(|byte| *byte == b'.')
}

/// The lines of `A..B`.
fn lines_of(word: &[u8]) -> Option<(u64, u64)>
    ensures { result ≡ line_range_in word.now }
{
    match first_dot(word) {
        Some(place) => both(line_of(&word[..place]), after_dots(&word[place..])),
        None => None,
    }
}

/// The lines that `--lines` tells; `Some(None)` where it is left out.
fn lines_in(words: &[String]) -> Option<Option<(u64, u64)>>
    ensures { result ≡ told line_range_in (option_value_in (codes "--lines") (map string_bytes words.now)) }
{
    match value_in("--lines", words) {
        Some(word) => match lines_of(word.as_bytes()) {
            Some(lines) => Some(Some(lines)),
            None => None,
        },
        None => Some(None),
    }
}

/// The thread that `--thread` tells; `Some(None)` where it is left out.
fn thread_in(words: &[String]) -> Option<Option<u32>>
    ensures { result ≡ told caller_of (option_value_in (codes "--thread") (map string_bytes words.now)) }
{
    match value_in("--thread", words) {
        Some(word) => match caller_of(word.as_bytes()) {
            Some(thread) => Some(Some(thread)),
            None => None,
        },
        None => Some(None),
    }
}

/// The drawing that the words ask for; `Some(None)` where there is none. None where they ask for two.
fn drawing_in(words: &[String]) -> Option<Option<Drawing<'_>>>
    ensures { option_map (option_map drawing_asked) result ≡ drawing_in (map string_bytes words.now) }
{
    match (
        value_in("--svg", words),
        value_in("--html", words),
        value_in("--trace", words),
    ) {
        (None, None, None) => Some(None),
        (Some(out), None, None) => Some(Some(Drawing {
            form: Form::Picture,
            out,
        })),
        (None, Some(out), None) => Some(Some(Drawing {
            form: Form::Page,
            out,
        })),
        (None, None, Some(out)) => Some(Some(Drawing {
            form: Form::Trace,
            out,
        })),
        _ => None,
    }
}

/// `ntlook timeline`
fn timeline_in<'a>(strict: bool, file: &'a str, words: &'a [String]) -> Option<Look<'a>>
    ensures { FindsLook (timeline_in strict file.now (map string_bytes words.now)) result }
{
    match (lines_in(words), thread_in(words), drawing_in(words)) {
        (Some(lines), Some(thread), Some(drawing)) => {
            let object = value_in("--object", words);
            let part = Selection {
                lines,
                object,
                thread,
            };
            Some(Look::Timeline {
                file,
                part,
                drawing,
                strict,
            })
        }
        _ => None,
    }
}

/// How many states may be met.
fn most_of(word: &str) -> Option<u64>
    ensures { result ≡ most_of word.now }
{
    match number_of(word.as_bytes(), MAX_DIGITS) {
        Some(most) if 0 < most && most <= MOST_STATES => Some(most),
        _ => None,
    }
}

/// The states that an option tells, or as many as where it is left out.
fn most_in(words: &[String]) -> Option<u64>
    ensures { result ≡ most_in (map string_bytes words.now) }
{
    match value_in("--most", words) {
        Some(word) => most_of(word),
        None => Some(MANY_STATES),
    }
}

/// `ntlook explore`
fn explore_in<'a>(file: &'a str, words: &'a [String]) -> Option<Look<'a>>
    ensures { FindsLook (explore_in file.now (map string_bytes words.now)) result }
{
    match most_in(words) {
        Some(most) => {
            let script = value_in("--script", words);
            Some(Look::Explore { file, most, script })
        }
        None => None,
    }
}

/// Whether the words after a command begin with `--strict`, where the command can be strict.
#[tactic(auto, unfolding(crate::specs::CommandLine::is_strict))]
fn is_strict(command: Command, words: &[String]) -> bool
    ensures strict { result ≡ is_strict command (map string_bytes words.now) }
{
    match words {
        [word, ..] => command.can_be_strict() && word.as_str() == "--strict",
        [] => false,
    }
}

/// What the words after the command ask for, if they are lawful.
fn after(command: Command, words: &[String]) -> Option<Look<'_>>
    ensures { FindsLook (asked_after command (map string_bytes words.now)) result }
{
    if is_strict(command, words) {
        asked_of(command, true, words.get(1..).unwrap_or(&[]))
    } else {
        asked_of(command, false, words)
    }
}

/// What the words after the command and `--strict`, if that stands there, ask for.
fn asked_of(command: Command, strict: bool, words: &[String]) -> Option<Look<'_>>
    ensures { FindsLook (asked_of command strict (map string_bytes words.now)) result }
{
    if !are_lawful(command, words) {
        return None;
    }
    match file_in(words) {
        Some(file) => match command {
            Command::Why => why_in(strict, file, words),
            Command::Timeline => timeline_in(strict, file, words),
            Command::Explore => explore_in(file, words),
        },
        None => None,
    }
}

/// What the words ask for, the program's own name first. `Err` has the command whose usage is to be shown, or none for the usage of all.
pub fn look_of(words: &[String]) -> Result<Look<'_>, Option<Command>>
    ensures { MatchResult result (λ look. look_of (map string_bytes words.now) ≡ Ok (look_asked look))
        (λ usage. look_of (map string_bytes words.now) ≡ Err usage) }
{
    match words {
        [_, name, words @ ..] => match command_of(name.as_str()) {
            Some(command) => match after(command, words) {
                Some(look) => Ok(look),
                None => Err(Some(command)),
            },
            None => Err(None),
        },
        _ => Err(None),
    }
}
