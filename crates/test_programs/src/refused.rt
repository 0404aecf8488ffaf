//! What the tests do where memory is refused.

use std::env::Env;
use std::io::Print;
use std::process::Abort;

/// What the tests want of the system.
pub trait ProgramHost: Abort + AllocGlobal + Env + Print {}

impl<R: Abort + AllocGlobal + Env + Print> ProgramHost for R {}

/// Whether growths are refused on purpose, as `tests/growths/tests` does: it sets REFUSE. This takes no memory itself.
pub fn is_refusing(rt: &impl Env) -> bool {
    let mut number = [0; 20];
    rt.var("REFUSE", &mut number).is_ok()
}

/// Tells that a growth was refused, and whose it was. That is right only in a run that refuses one on purpose:
/// `tests/growths/tests` wants exactly one such line of each test.
pub fn tell_refused(rt: &impl ProgramHost, whose: &str) {
    assert!(rt; is_refusing(rt), "out of memory with ample memory: {whose}");
    assert!(rt; println!(rt; "refused: {whose}").is_ok());
}

/// What of a transcript stands before the answer of the first call to which memory was refused: all, if there is none.
pub fn before_refusal(transcript: &[u8]) -> &[u8] {
    let mut end = 0usize;
    for line in transcript.split(|byte| *byte == b'\n') {
        if line.ends_with(b": error 8") {
            return transcript.get(..end).unwrap_or(transcript);
        }
        end = end.saturating_add(line.len()).saturating_add(1);
    }
    transcript
}
