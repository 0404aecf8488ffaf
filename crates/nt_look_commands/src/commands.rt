//! What is done with the words of a command line.
ghost use Rattle.std.specs.Prelude.{◌≡◌, is_some, map, option_map, string_bytes};
ghost use Rattle.std.specs.Option.{option_copied};
ghost use Rattle.nt_look_commands.specs.CommandLine.{drawing_asked, look_asked, look_of};
ghost use Rattle.nt_look_commands.specs.Ending.{CommandEnds, MakesTimeline, PrintOrders, PrintTimeline, PrintTold, usage_for};

use crate::command::Command;
use crate::look::{Look, look_of};
use nt_devices::{Counted, Sink};
use nt_drawing::{Drawing, draw_file};
use nt_hangs::{lacks_memory, say, why_file};
use nt_orders::{Progress, explore_file};
use nt_timeline::{Selection, timeline_file};
use std::io::{self, BufWriter, Print};
use std::rt::Files;

/// The usage of all commands.
const USAGE: &[u8] = b"ntlook: usage: ntlook why [--strict] FILE [--at LINE]
ntlook: usage: ntlook timeline [--strict] FILE [--lines A..B] [--object NAME] [--thread tN] [--svg OUT | --html OUT | --trace OUT]
ntlook: usage: ntlook explore FILE [--script OUT] [--most STATES]   (1 to 4000000000; 1000000 if left out)
";

/// Reports to standard output why the threads of this file's script wait, and answers the exit status.
fn print_why<R: Files + AllocGlobal + Print, E: Sink>(
    rt: &R,
    path: &str,
    last: Option<u64>,
    strict: bool,
    errors: &mut E,
) -> u8
    ensures { PrintTold path.now last strict (E.seen errors.old) (E.seen errors.new) result }
{
    match BufWriter::new(rt.alloc(), io::writer(rt)) {
        Ok(writer) => why_file(rt, path, last, strict, &mut Counted::new(writer), errors),
        Err(_) => lacks_memory(errors),
    }
}

/// Writes the timeline of this file's script to standard output, and answers the exit status.
fn print_timeline<R: Files + AllocGlobal + Print, E: Sink>(
    rt: &R,
    path: &str,
    part: &Selection<'_>,
    strict: bool,
    errors: &mut E,
) -> u8
    ensures { PrintTimeline strict (E.seen errors.old) (E.seen errors.new) result }
{
    match BufWriter::new(rt.alloc(), io::writer(rt)) {
        Ok(writer) => timeline_file(rt, path, part, strict, &mut Counted::new(writer), errors),
        Err(_) => lacks_memory(errors),
    }
}

/// Explores the orders of this file's script, reports on standard output, and writes the order that hangs into a file, if one is named.
/// Answers the exit status.
fn print_orders<R: Files + AllocGlobal + Print, E: Sink, P: Sink>(
    rt: &R,
    path: &str,
    most: u64,
    script: Option<&str>,
    errors: &mut E,
    progress: &mut Progress<P>,
) -> u8
    ensures { PrintOrders most (is_some (option_copied script.entry)) (E.seen errors.old) (E.seen errors.new)
        (P.seen progress.old.sink) (P.seen progress.new.sink) result }
{
    match BufWriter::new(rt.alloc(), io::writer(rt)) {
        Ok(writer) => explore_file(
            rt,
            path,
            most as usize,
            script,
            &mut Counted::new(writer),
            errors,
            progress,
        ),
        Err(_) => lacks_memory(errors),
    }
}

/// The usage of this command, or of all.
fn usage_for(command: Option<Command>) -> &'static [u8]
    ensures { result.now ≡ usage_for command }
{
    match command {
        Some(command) => command.usage(),
        None => USAGE,
    }
}

/// Writes the timeline of this file's script: to standard output, or as a drawing into a file. Answers the exit status.
fn make_timeline<R: Files + AllocGlobal + Print, E: Sink>(
    rt: &R,
    path: &str,
    part: &Selection<'_>,
    drawing: Option<Drawing<'_>>,
    strict: bool,
    errors: &mut E,
) -> u8
    ensures { MakesTimeline (option_map drawing_asked drawing.entry) strict (E.seen errors.old) (E.seen errors.new) result }
{
    match drawing {
        Some(drawing) => draw_file(rt, path, part, drawing, strict, errors),
        None => print_timeline(rt, path, part, strict, errors),
    }
}

/// Does what is asked for, and answers the exit status.
fn take_look<R: Files + AllocGlobal + Print, E: Sink, P: Sink>(
    rt: &R,
    look: Look<'_>,
    errors: &mut E,
    progress: &mut Progress<P>,
) -> u8
    ensures { CommandEnds (Ok (look_asked look.entry)) (E.seen errors.old) (E.seen errors.new)
        (P.seen progress.old.sink) (P.seen progress.new.sink) result }
{
    match look {
        Look::Why { file, at, strict } => print_why(rt, file, at, strict, errors),
        Look::Timeline {
            file,
            part,
            drawing,
            strict,
        } => make_timeline(rt, file, &part, drawing, strict, errors),
        Look::Explore { file, most, script } => {
            print_orders(rt, file, most, script, errors, progress)
        }
    }
}

/// Does what the words ask for, the program's own name first, and answers the exit status. What is not done is said on `errors`; how far a
/// search is goes to `progress`.
pub fn carry_out<R: Files + AllocGlobal + Print, E: Sink, P: Sink>(
    rt: &R,
    words: &[String],
    errors: &mut E,
    progress: &mut Progress<P>,
) -> u8
    ensures { CommandEnds (look_of (map string_bytes words.now)) (E.seen errors.old) (E.seen errors.new)
        (P.seen progress.old.sink) (P.seen progress.new.sink) result }
{
    match look_of(words) {
        Ok(look) => take_look(rt, look, errors, progress),
        Err(command) => say(errors, usage_for(command), 2),
    }
}
