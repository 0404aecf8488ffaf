//! A fault that was reported, and of which more is asked for.

use nt_lines::{MAX_DIGITS, number_of};
use std::alloc::AllocError;
use std::env::{self, Env, VarError};

/// A fault that was reported: what the script is called, the number of its line, and the words of the fault.
#[derive(Drop)]
pub struct Told {
    pub(crate) name: String,
    pub(crate) line: u64,
    pub(crate) fault: String,
}

/// The value of a variable of the environment. A value that is not UTF-8 counts as none.
fn value_of<R: AllocGlobal + Env>(rt: &R, name: &str) -> Result<Option<String>, AllocError> {
    match env::var(rt, name) {
        Ok(value) => Ok(Some(value)),
        Err(VarError::NotPresent | VarError::NotUnicode) => Ok(None),
        Err(VarError::OutOfMemory) => Err(AllocError),
    }
}

/// The fault of which the environment asks for more: `NT_FAULT` has its words, `NT_FAULT_LINE` the number of its line, and `NT_FAULT_SCRIPT` what the
/// script is called. `Err` if there is no memory to read them.
pub fn told_by<R: AllocGlobal + Env>(rt: &R) -> Result<Option<Told>, AllocError> {
    let (Some(fault), Some(line), Some(name)) = (
        value_of(rt, "NT_FAULT")?,
        value_of(rt, "NT_FAULT_LINE")?,
        value_of(rt, "NT_FAULT_SCRIPT")?,
    ) else {
        return Ok(None);
    };
    Ok(number_of(line.as_bytes(), MAX_DIGITS).map(|line| Told { name, line, fault }))
}
