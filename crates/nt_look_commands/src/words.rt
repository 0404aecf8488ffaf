//! The words after a command: options with a value each, and a file.
ghost use Rattle.std.specs.Prelude.{◌≡◌, ◌==◌, ◌&&◌, length, map, string_bytes};
ghost use Rattle.std.specs.Option.{option_copied};
ghost use Rattle.std.specs.Str.{bytes_eq};
ghost use Rattle.nt_lines.specs.Options.{ends_options, is_operand};
ghost use Rattle.nt_look_commands.specs.CommandLine.{are_lawful_options, file_in, is_told_once, option_value_in};

use crate::command::Command;

/// A word that does not begin with `-`, or is `-` alone.
fn is_operand(word: &str) -> bool
    ensures { result ≡ is_operand word.now }
{
    match word.as_bytes() {
        [first, _, ..] => *first != b'-',
        _ => true,
    }
}

/// Whether the word is this option.
fn is_option(word: &str, option: &str) -> bool
    ensures { result ≡ bytes_eq word.now option.now }
{
    word == option
}

/// The value of the option, if it is among the words.
pub(crate) fn value_in<'a>(option: &str, words: &'a [String]) -> Option<&'a str>
    ensures { option_copied result ≡ option_value_in option.now (map string_bytes words.now) }
{
    match words {
        [] | [_] => None,
        [word, others @ ..] if is_operand(word.as_str()) => value_in(option, others),
        [word, value, ..] if is_option(word.as_str(), option) => Some(value.as_str()),
        [_, _, others @ ..] => value_in(option, others),
    }
}

/// Whether a word is `--`, before a file at the end.
fn ends_options(word: &str, others: &[String]) -> bool
    ensures { result ≡ (ends_options word.now && (length others.now == 0)) }
{
    word == "--" && others.is_empty()
}

/// The file.
pub(crate) fn file_in(words: &[String]) -> Option<&str>
    ensures { option_copied result ≡ file_in (map string_bytes words.now) }
{
    match words {
        [] => None,
        [word, ..] if is_operand(word.as_str()) => Some(word.as_str()),
        [_] => None,
        [word, file, others @ ..] if ends_options(word.as_str(), others) => Some(file.as_str()),
        [_, _, others @ ..] => file_in(others),
    }
}

/// Whether it is an option of the command that the words after it do not tell again.
#[tactic(auto, unfolding(crate::specs::CommandLine::is_told_once))]
fn is_told_once(command: Command, option: &str, others: &[String]) -> bool
    ensures { result ≡ is_told_once command option.now (map string_bytes others.now) }
{
    command.knows(option) && value_in(option, others).is_none()
}

/// Whether the words are options of this command, none of them twice, and at most one file.
pub(crate) fn are_lawful(command: Command, words: &[String]) -> bool
    ensures { result ≡ are_lawful_options command (map string_bytes words.now) }
{
    match words {
        [] => true,
        [word, others @ ..] if is_operand(word.as_str()) => {
            file_in(others).is_none() && are_lawful(command, others)
        }
        [_] => false,
        [word, _, others @ ..] => {
            ends_options(word.as_str(), others)
                || (is_told_once(command, word.as_str(), others) && are_lawful(command, others))
        }
    }
}
