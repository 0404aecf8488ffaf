//! The text of a turn, and of the end.

ghost use Rattle.std.specs.Prelude.{◌≡◌, ◌+◌, ◌*◌, ◌≤◌, ◌++◌, length, vec_len, vec_capacity, codes, decimal};
ghost use Rattle.nt_script.specs.declared.transcript.TheConstants.{MOST_BYTES};
ghost use Rattle.nt_script.specs.Transcript.{turn_text, moment_text, output_line, answer_text, grant_text, hexadecimal_status, line_start};

use crate::text::put_hex;
use nt_apc::Apc;
use nt_core::{Grant, Reply};
use nt_grammar::{put_number, put_signed};
use nt_lines::put;
use nt_status::{Refusal, Status};

/// The most bytes in a line of output.
pub(crate) const MOST_BYTES: usize = 96;

fn put_status(out: &mut Vec<u8>, status: Status)
    requires { vec_len out.old + 10 ≤ vec_capacity out.old }
    ensures items { out.new.items ≡ out.old.items ++ hexadecimal_status status }
    ensures len { vec_len out.new ≤ vec_len out.old + 10 }
    ensures room { vec_capacity out.old ≤ vec_capacity out.new }
{
    put(out, b"0x");
    put_hex(out, 8, status.code());
}

fn put_apc(out: &mut Vec<u8>, apc: &Apc)
    requires { vec_len out.old + 70 ≤ vec_capacity out.old }
    ensures items { out.new.items ≡ out.old.items
        ++ (codes "apc " ++ decimal apc.now.routine ++ codes " " ++ decimal apc.now.arg ++ moment_text apc.now.at) }
    ensures len { vec_len out.new ≤ vec_len out.old + 70 }
    ensures room { vec_capacity out.old ≤ vec_capacity out.new }
{
    put(out, b"apc ");
    put_number(out, apc.routine);
    put(out, b" ");
    put_number(out, apc.arg);
    if let Some(moment) = apc.at.get() {
        put(out, b" at ");
        put_number(out, moment.get());
    }
}

fn put_answer(out: &mut Vec<u8>, answer: &Result<Reply, Refusal>)
    requires { vec_len out.old + 70 ≤ vec_capacity out.old }
    ensures items { out.new.items ≡ out.old.items ++ answer_text answer.now }
    ensures len { vec_len out.new ≤ vec_len out.old + 70 }
    ensures room { vec_capacity out.old ≤ vec_capacity out.new }
{
    match answer {
        Ok(Reply::Done) => put(out, b"ok"),
        Ok(Reply::Handle(handle)) => {
            put(out, b"handle ");
            put_number(out, u64::from(handle.get()));
        }
        Ok(Reply::Previous(count)) => {
            put(out, b"previous ");
            put_signed(out, *count);
        }
        Ok(Reply::Status(status)) => {
            put(out, b"status ");
            put_status(out, *status);
        }
        Ok(Reply::Pended) => put(out, b"pending"),
        Ok(Reply::Apc(None)) => put(out, b"apc none"),
        Ok(Reply::Apc(Some(apc))) => put_apc(out, apc),
        Err(refusal) => {
            put(out, b"error ");
            put_number(out, u64::from(refusal.number()));
        }
    }
}

fn put_grant(out: &mut Vec<u8>, grant: &Grant)
    requires { vec_len out.old + 40 ≤ vec_capacity out.old }
    ensures items { out.new.items ≡ out.old.items ++ grant_text grant.now }
    ensures len { vec_len out.new ≤ vec_len out.old + 40 }
    ensures room { vec_capacity out.old ≤ vec_capacity out.new }
{
    put(out, b"t");
    put_number(out, u64::from(grant.thread.get()));
    put(out, b" status ");
    put_status(out, grant.status);
}

fn put_line_number(out: &mut Vec<u8>, line: u64)
    requires { vec_len out.old + 22 ≤ vec_capacity out.old }
    ensures items { out.new.items ≡ out.old.items ++ line_start line }
    ensures len { vec_len out.new ≤ vec_len out.old + 22 }
    ensures room { vec_capacity out.old ≤ vec_capacity out.new }
{
    put_number(out, line);
    put(out, b": ");
}

fn put_answer_line(out: &mut Vec<u8>, line: u64, answer: &Result<Reply, Refusal>)
    requires { vec_len out.old + MOST_BYTES ≤ vec_capacity out.old }
    ensures items { out.new.items ≡ out.old.items ++ output_line line (answer_text answer.now) }
    ensures len { vec_len out.new ≤ vec_len out.old + MOST_BYTES }
    ensures room { vec_capacity out.old ≤ vec_capacity out.new }
{
    put_line_number(out, line);
    put_answer(out, answer);
    put(out, b"\n");
}

fn put_grant_line(out: &mut Vec<u8>, line: u64, grant: &Grant)
    requires { vec_len out.old + MOST_BYTES ≤ vec_capacity out.old }
    ensures items { out.new.items ≡ out.old.items ++ output_line line (grant_text grant.now) }
    ensures len { vec_len out.new ≤ vec_len out.old + MOST_BYTES }
    ensures room { vec_capacity out.old ≤ vec_capacity out.new }
{
    put_line_number(out, line);
    put_grant(out, grant);
    put(out, b"\n");
}

/// Puts a call's answer, and the waits that it ended, where there is room for as many lines.
pub(crate) fn put_turn(
    out: &mut Vec<u8>,
    line: u64,
    answer: &Result<Reply, Refusal>,
    grants: &[Grant],
)
    requires { vec_len out.old + (1 + length grants.now) * MOST_BYTES ≤ vec_capacity out.old }
    ensures { out.new.items ≡ out.old.items ++ turn_text line answer.now grants.now }
{
    put_answer_line(out, line, answer);
    for grant in grants {
        put_grant_line(out, line, grant);
    }
}
