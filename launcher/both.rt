// SPDX-License-Identifier: MIT OR Apache-2.0
//! `ntrun` and `ntlook` as one program, which is either by the name that it is run by: so a build without proofs takes little longer than for one.
#![tactic(auto)]

mod ntlook;
mod ntrun;

use nt_devices::Counted;
use std::env::{self, Env};
use std::process::ExitCode;

/// Whether the program is run as ntlook.
fn is_ntlook<R: AllocGlobal + Env>(rt: &R) -> bool {
    if let Ok(words) = env::args(rt) {
        for word in words {
            return word.as_str().ends_with("/ntlook_unproved");
        }
    }
    false
}

fn main(rt: HostRuntime) -> ExitCode {
    let mut errors = Counted::new(rt.stderr());
    ExitCode::from(if is_ntlook(&rt) {
        ntlook::start(&rt, &mut errors)
    } else {
        ntrun::start(&rt, &mut errors)
    })
}
