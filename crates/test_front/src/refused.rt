//! What the tests do where memory is refused.

use std::env::Env;
use std::io::Print;
use std::process::Abort;

/// What the tests want of the system.
pub trait FrontHost: Abort + AllocGlobal + Env + Print {}

impl<R: Abort + AllocGlobal + Env + Print> FrontHost for R {}

/// Whether growths are refused on purpose, as `tests/growths/tests` does: it sets REFUSE. This takes no memory itself.
pub fn is_refusing(rt: &impl Env) -> bool {
    let mut number = [0; 20];
    rt.var("REFUSE", &mut number).is_ok()
}

/// Tells that a growth was refused, and whose it was. That is right only in a run that refuses one on purpose:
/// `tests/growths/tests` wants exactly one such line of each test.
pub fn tell_refused(rt: &impl FrontHost, whose: &str) {
    assert!(rt; is_refusing(rt), "out of memory with ample memory: {whose}");
    assert!(rt; println!(rt; "refused: {whose}").is_ok());
}
