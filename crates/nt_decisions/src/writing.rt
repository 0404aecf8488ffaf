//! A file, as it is written.

ghost use Rattle.std.specs.Prelude.{◌≡◌, ◌++◌, ◌∷◌, [], OnOk, IfOk, decimal};
ghost use Rattle.nt_grammar.specs.Spelling.{caller_word};
ghost use Rattle.nt_decisions.specs.Decisions.{WrittenIsRead, chosen_word, decision_text, lines_text, word_if, first_text, file_text};

use crate::decision::{CLOCK, Chosen, Decision};
use crate::file::{FIRST_LINE, Time};
use itoa::Buffer;
use std::alloc::{AllocError, Global};

fn put_number(out: &mut Vec<u8>, number: u64) -> Result<(), AllocError>
    ensures { OnOk result (out.new.items ≡ out.old.items ++ decimal number) }
{
    let mut buffer = Buffer::new();
    out.extend_from_slice(buffer.format(number).as_bytes())
}

fn put_thread(out: &mut Vec<u8>, thread: u32) -> Result<(), AllocError>
    ensures { OnOk result (out.new.items ≡ out.old.items ++ caller_word thread) }
{
    out.extend_from_slice(b"t")?;
    put_number(out, u64::from(thread))
}

fn put_chosen(out: &mut Vec<u8>, chosen: Chosen) -> Result<(), AllocError>
    ensures { OnOk result (out.new.items ≡ out.old.items ++ chosen_word chosen) }
{
    match chosen {
        Chosen::Thread(thread) => put_thread(out, thread),
        Chosen::Clock => out.extend_from_slice(CLOCK),
    }
}

fn put_decision(out: &mut Vec<u8>, decision: Decision) -> Result<(), AllocError>
    ensures { OnOk result (out.new.items ≡ out.old.items ++ (decision_text decision ++ 10 ∷ [])) }
{
    put_thread(out, decision.thread)?;
    out.extend_from_slice(b" ")?;
    put_number(out, decision.ordinal)?;
    out.extend_from_slice(b" ")?;
    put_chosen(out, decision.chosen)?;
    out.extend_from_slice(b"\n")
}

fn put_if(out: &mut Vec<u8>, is_so: bool, word: &[u8]) -> Result<(), AllocError>
    ensures { OnOk result (out.new.items ≡ out.old.items ++ word_if is_so word.now) }
{
    if is_so {
        out.extend_from_slice(word)
    } else {
        Ok(())
    }
}

fn put_first(out: &mut Vec<u8>, time: Time) -> Result<(), AllocError>
    ensures { OnOk result (out.new.items ≡ out.old.items ++ (first_text time ++ 10 ∷ [])) }
{
    out.extend_from_slice(FIRST_LINE)?;
    put_if(out, time.is_free, b" time=free")?;
    put_if(out, time.is_still, b" time=still")?;
    out.extend_from_slice(b"\n")
}

fn put_decisions(out: &mut Vec<u8>, decisions: &[Decision]) -> Result<(), AllocError>
    ensures { OnOk result (out.new.items ≡ out.old.items ++ lines_text decisions.now) }
{
    for decision in decisions {
        put_decision(out, *decision)?;
    }
    Ok(())
}

/// Writes a file of decisions.
pub fn write_schedule(
    alloc: Global,
    time: Time,
    decisions: &[Decision],
) -> Result<Vec<u8>, AllocError>
    ensures { IfOk result (λ text. text.items ≡ file_text time decisions.now) }
{
    let mut out = Vec::new(alloc);
    put_first(&mut out, time)?;
    put_decisions(&mut out, decisions)?;
    Ok(out)
}

/// What is read of a file that was written is what was written, if each of its numbers has nine digits at the most.
#[tactic(auto, using(crate::proofs::Written::file_back))]
pub fn written_is_read()
    ensures { WrittenIsRead }
{}
