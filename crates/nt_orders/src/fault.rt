//! Why a script's orders are not explored.
ghost use Rattle.std.specs.Prelude.{◌≡◌, ◌++◌, IfOk, OnOk, codes, decimal};
ghost use Rattle.nt_orders.specs.Reading.{IsFaultAt};
ghost use Rattle.nt_orders.specs.Texts.{order_line, fault_line_text, order_message, order_reason, order_status};

use nt_grammar::LineFault;
use nt_script::RunFault;
use nt_wording::put_number;
use std::alloc::{AllocError, Global};

/// Why the orders of a script are not explored.
#[derive(Clone, Copy, Debug, PartialEq, Eq)]
pub enum OrdersFault {
    /// A line can't be carried out or read.
    Run(RunFault),
    /// No thread has the number of the line's caller.
    NoThread { line: u64 },
    /// In another order a handle would name another thing: the line gives a number that a line above it names.
    Race { line: u64 },
    /// Memory was refused to the search, or to the report.
    Memory,
}

/// Why the line with this number can't be carried out.
pub(crate) fn fault_at(line: u64, fault: LineFault) -> RunFault
    ensures { IsFaultAt line fault result }
{
    match fault {
        LineFault::Memory => RunFault::Memory { line },
        LineFault::Script(fault) => RunFault::Script { line, fault },
    }
}

/// The fault in words, and its line.
fn reason_of(fault: OrdersFault) -> &'static str
    ensures { result.now ≡ order_reason fault }
{
    match fault {
        OrdersFault::Run(fault) => fault.reason(),
        OrdersFault::NoThread { .. } => "no such thread",
        OrdersFault::Race { .. } => "in another order a handle may name another thing",
        OrdersFault::Memory => "out of memory",
    }
}

/// The line that the fault is in, if it is in one.
fn line_of(fault: OrdersFault) -> Option<u64>
    ensures { result ≡ order_line fault }
{
    match fault {
        OrdersFault::Run(fault) => Some(fault.line()),
        OrdersFault::NoThread { line } | OrdersFault::Race { line } => Some(line),
        OrdersFault::Memory => None,
    }
}

/// The exit status: 2 if the script is at fault, 1 if memory was refused.
pub(crate) fn status_of(fault: OrdersFault) -> u8
    ensures { result ≡ order_status fault }
{
    match fault {
        OrdersFault::Run(RunFault::Script { .. }) => 2,
        OrdersFault::Run(
            RunFault::Read { .. } | RunFault::Write { .. } | RunFault::Memory { .. },
        ) => 1,
        OrdersFault::NoThread { .. } | OrdersFault::Race { .. } => 2,
        OrdersFault::Memory => 1,
    }
}

/// Puts the number of a line.
fn put_line(out: &mut Vec<u8>, line: u64) -> Result<(), AllocError>
    ensures { OnOk result (out.new.items ≡ out.old.items ++ (codes "line " ++ (decimal line ++ codes ": "))) }
{
    out.extend_from_slice(b"line ")?;
    put_number(out, line)?;
    out.extend_from_slice(b": ")
}

/// Puts the number of the line, if there is one.
fn put_line_of(out: &mut Vec<u8>, line: Option<u64>) -> Result<(), AllocError>
    ensures { OnOk result (out.new.items ≡ out.old.items ++ fault_line_text line) }
{
    match line {
        Some(line) => put_line(out, line),
        None => Ok(()),
    }
}

/// The line that tells why.
pub(crate) fn message_of(alloc: Global, fault: OrdersFault) -> Result<Vec<u8>, AllocError>
    ensures { IfOk result (λ line. line.items ≡ order_message fault) }
{
    let mut line = Vec::new(alloc);
    line.extend_from_slice(b"ntlook: ")?;
    put_line_of(&mut line, line_of(fault))?;
    line.extend_from_slice(reason_of(fault).as_bytes())?;
    line.push(b'\n')?;
    Ok(line)
}
