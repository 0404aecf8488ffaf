//! The orders of a script, between a reader and two writers.
ghost use Rattle.std.specs.Prelude.{◌≡◌, is_some, option_map, Ok};
ghost use Rattle.std.specs.Option.{option_copied};
ghost use Rattle.nt_orders.specs.Ending.{KeepsOrder, OrdersEnd, OrdersTold, TellsOrdersFault, TellsOrders, TellsOutcome, WritesOrder, order_due};

use crate::fault::{OrdersFault, message_of, status_of};
use crate::progress::Progress;
use crate::report::{Findings, report_on};
use nt_devices::{Counted, Sink, Source};
use nt_hangs::{InputFault, Report, lacks_memory, read_whole, say, show};
use std::alloc::Global;
use std::fs;
use std::rt::Files;

/// The exit status of a report on an order that hangs.
const HANGS: u8 = 3;

/// Says why the orders are not explored, and answers the exit status.
#[tactic(auto, using(crate::proofs::Telling::told_fault))]
fn tell<E: Sink>(alloc: Global, fault: OrdersFault, errors: &mut E) -> u8
    ensures { TellsOrdersFault fault (E.seen errors.old) (E.seen errors.new) result }
{
    match message_of(alloc, fault) {
        Ok(line) => say(errors, line.as_slice(), status_of(fault)),
        Err(_) => lacks_memory(errors),
    }
}

/// Creates the file, and writes the order into it; 1 where either fails, which is said on `errors`.
fn write_order<F: Files, E: Sink>(files: &F, out: &str, order: &Report, errors: &mut E) -> u8
    requires { order.now.code ≡ 3 }
    ensures { WritesOrder order.now.text.items (E.seen errors.old) (E.seen errors.new) result }
{
    match fs::create(files, out) {
        Ok(file) => show(order, &mut Counted::new(file), errors),
        Err(_) => say(errors, b"ntlook: cannot create\n", 1),
    }
}

/// After a report with this exit status, writes the order if a file is named for it, and there is one. Answers the exit status.
fn keep_order<F: Files, E: Sink>(
    files: &F,
    script: Option<&str>,
    order: Option<Vec<u8>>,
    status: u8,
    errors: &mut E,
) -> u8
    ensures { KeepsOrder
        (order_due (is_some (option_copied script.entry)) status (option_map (λ text. text.items) order))
        (E.seen errors.old) (E.seen errors.new) status result }
{
    if status != HANGS {
        return status;
    }
    match script {
        Some(out) => match order {
            Some(text) => write_order(files, out, &Report { text, code: HANGS }, errors),
            None => status,
        },
        None => status,
    }
}

/// Shows the report, and then writes the order.
fn show_findings<F: Files, W: Sink, E: Sink>(
    files: &F,
    script: Option<&str>,
    found: Findings,
    writer: &mut W,
    errors: &mut E,
) -> u8
    ensures { TellsOutcome (is_some (option_copied script.entry)) (Ok found) (W.seen writer.old) (W.seen writer.new)
        (E.seen errors.old) (E.seen errors.new) result }
{
    let Findings { report, order } = found;
    let status = show(&report, writer, errors);
    keep_order(files, script, order, status, errors)
}

/// Reports on these bytes.
fn explore_input<F: Files + AllocGlobal, W: Sink, E: Sink, P: Sink>(
    files: &F,
    file: &[u8],
    input: &[u8],
    most: usize,
    script: Option<&str>,
    writer: &mut W,
    errors: &mut E,
    progress: &mut Progress<P>,
) -> u8
    ensures { TellsOrders most (is_some (option_copied script.entry)) input.now (W.seen writer.old) (W.seen writer.new)
        (E.seen errors.old) (E.seen errors.new) (P.seen progress.old.sink) (P.seen progress.new.sink) result }
{
    match report_on(files.alloc(), file, input, most, progress) {
        Ok(found) => show_findings(files, script, found, writer, errors),
        Err(fault) => tell(files.alloc(), fault, errors),
    }
}

/// Explores the orders of the script that the reader gives, until `most` states are met, and writes which hangs. `file` is what the report
/// calls the script. If `script` names a file, and an order hangs, that order is written into it as a script, once the report is written.
///
/// Answers the exit status: 0 if none hangs; 3 if one does; 4 if the bound was met before; 2 if a line has a fault; 1 if reading, creating,
/// writing or memory failed. A line on `errors` tells why of 1 and 2, unless that fails. How far the search is goes to `progress`.
pub fn explore_over<F: Files + AllocGlobal, R: Source, W: Sink, E: Sink, P: Sink>(
    files: &F,
    file: &[u8],
    most: usize,
    script: Option<&str>,
    reader: &mut R,
    writer: &mut W,
    errors: &mut E,
    progress: &mut Progress<P>,
) -> u8
    ensures { OrdersEnd most (is_some (option_copied script.entry)) (R.seen reader.old) (R.seen reader.new)
        (W.seen writer.old) (W.seen writer.new) (E.seen errors.old) (E.seen errors.new)
        (P.seen progress.old.sink) (P.seen progress.new.sink) result }
{
    match read_whole(files.alloc(), reader) {
        Ok(input) => explore_input(
            files,
            file,
            input.as_slice(),
            most,
            script,
            writer,
            errors,
            progress,
        ),
        Err(InputFault::Failed) => say(errors, b"ntlook: read failed\n", 1),
        Err(InputFault::Memory) => lacks_memory(errors),
    }
}

/// The same of the script in this file; 1 where it can't be opened, which is said on `errors`.
pub fn explore_file<F: Files + AllocGlobal, W: Sink, E: Sink, P: Sink>(
    files: &F,
    path: &str,
    most: usize,
    script: Option<&str>,
    writer: &mut W,
    errors: &mut E,
    progress: &mut Progress<P>,
) -> u8
    ensures { OrdersTold most (is_some (option_copied script.entry)) (W.seen writer.old) (W.seen writer.new)
        (E.seen errors.old) (E.seen errors.new) (P.seen progress.old.sink) (P.seen progress.new.sink) result }
{
    match fs::open(files, path) {
        Ok(file) => explore_over(
            files,
            path.as_bytes(),
            most,
            script,
            &mut Counted::new(file),
            writer,
            errors,
            progress,
        ),
        Err(_) => say(errors, b"ntlook: cannot open\n", 1),
    }
}
