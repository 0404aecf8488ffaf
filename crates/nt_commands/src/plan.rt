//! What the words of a command line ask for.

ghost use Rattle.std.specs.Prelude.{◌≡◌, IfOk, map, string_bytes};
ghost use Rattle.clap.specs.Words.{app_of};
ghost use Rattle.nt_commands.specs.CommandLine.{FindsFile, PlansBy, option_count, counts_of_three, file_asked, threads_asked, two_counts};
ghost use Rattle.nt_commands.specs.Command.{command_line, file_found};

use clap::error::ErrorKind;
use clap::{Arg, ArgAction, ArgMatches, Command};
use nt_lines::number_of;
use nt_threads::{MOST_ROUNDS, MOST_WORKERS};
use std::alloc::{AllocError, Global};

/// What the program is to do.
#[derive(Debug, Drop)]
pub enum CommandPlan {
    /// Run the script in this file.
    Script(String),
    /// Run `workers` threads beside the first one, each for `rounds` rounds.
    Threads { workers: u32, rounds: u32 },
}

/// Why the words ask for nothing that the program does.
#[derive(Clone, Copy, Debug, PartialEq, Eq)]
pub enum PlanFault {
    Usage,
    Memory,
}

/// The command line. No word asks for help: the usage line answers all words but the lawful ones.
fn command<'a>(alloc: Global) -> Result<Command<'a>, AllocError>
    ensures { IfOk result (λ command. app_of command ≡ command_line) }
{
    let file = Arg::new(alloc, "file")
        .required(true)
        .action(ArgAction::Set);
    let script = Command::new(alloc, "script").arg(file)?;
    Command::new(alloc, "ntrun")
        .subcommand_required(true)
        .disable_help_flag(true)
        .disable_help_subcommand(true)
        .subcommand(script)
}

/// What the words ask for, the program's own name first.
pub fn plan_of(alloc: Global, words: &[String]) -> Result<CommandPlan, PlanFault>
    ensures { PlansBy (map string_bytes words.now) result }
{
    match threads_in(words) {
        Some((workers, rounds)) => Ok(CommandPlan::Threads { workers, rounds }),
        None => match file_in(alloc, words) {
            Ok(file) => Ok(CommandPlan::Script(file)),
            Err(fault) => Err(fault),
        },
    }
}

/// The file that the words ask to run.
fn file_in(alloc: Global, words: &[String]) -> Result<String, PlanFault>
    ensures { FindsFile (file_asked (map string_bytes words.now)) result }
{
    let Ok(command) = command(alloc) else {
        return Err(PlanFault::Memory);
    };
    match command.try_get_matches_from(words) {
        Ok(matches) => file_of(alloc, &matches),
        Err(error) => match error.kind() {
            ErrorKind::OutOfMemory => Err(PlanFault::Memory),
            _ => Err(PlanFault::Usage),
        },
    }
}

/// The file that the matches hold.
fn file_of(alloc: Global, matches: &ArgMatches<'_>) -> Result<String, PlanFault>
    ensures { FindsFile (file_found matches.now) result }
{
    let Some(("script", found)) = matches.subcommand() else {
        return Err(PlanFault::Usage);
    };
    let Some(file) = found.get_str("file") else {
        return Err(PlanFault::Usage);
    };
    let Ok(file) = String::from_str(alloc, file) else {
        return Err(PlanFault::Memory);
    };
    Ok(file)
}

/// The workers and rounds that the words ask for.
fn threads_in(words: &[String]) -> Option<(u32, u32)>
    ensures { result ≡ threads_asked (map string_bytes words.now) }
{
    match words {
        [_, command, first, second] if command.as_str() == "threads" => {
            two_counts(first.as_str(), second.as_str())
        }
        [_, command, first, second, third] if command.as_str() == "threads" => {
            counts_of_three(first.as_str(), second.as_str(), third.as_str())
        }
        _ => None,
    }
}

/// The workers and rounds of three words, one of which is `--`.
fn counts_of_three(first: &str, second: &str, third: &str) -> Option<(u32, u32)>
    ensures { result ≡ counts_of_three first.now second.now third.now }
{
    if first == "--" {
        two_counts(second, third)
    } else if second == "--" {
        two_counts(first, third)
    } else if third == "--" {
        two_counts(first, second)
    } else {
        None
    }
}

/// How many workers and rounds two words tell.
fn two_counts(first: &str, second: &str) -> Option<(u32, u32)>
    ensures { result ≡ two_counts first.now second.now }
{
    let workers = count_of(first, MOST_WORKERS)?;
    let rounds = count_of(second, MOST_ROUNDS)?;
    Some((workers, rounds))
}

/// A number from 1 to `most`, of one to four digits.
fn count_of(word: &str, most: u32) -> Option<u32>
    ensures { result ≡ option_count most word.now }
{
    match number_of(word.as_bytes(), 4) {
        Some(n) if 1 <= n && n <= u64::from(most) => Some(n as u32),
        _ => None,
    }
}
