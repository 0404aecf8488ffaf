//! A reader's bytes as a whole.
ghost use Rattle.std.specs.Prelude.{◌≡◌, ◌<◌, [], length, IfOk, OnOk};
ghost use Rattle.nt_script.specs.Running.{Has};
ghost use Rattle.nt_hangs.specs.Inputs.{CountsInput, ReadsPiece};
ghost use Rattle.nt_hangs.specs.declared.reading.InputFault.TheVariants.{Memory};

use nt_devices::Source;
use std::alloc::{AllocError, Global};

/// How many bytes are read at once.
const CHUNK: usize = 65536;

/// Why a reader's bytes could not be taken.
#[derive(Clone, Copy, Debug, PartialEq, Eq)]
pub enum InputFault {
    Failed,
    Memory,
}

impl From<AllocError> for InputFault {
    ghost from_gives = { λ _ fault. fault ≡ Memory };

    fn from(_error: AllocError) -> InputFault {
        InputFault::Memory
    }
}

/// Reads once, and puts what was read at the end of `bytes`. Answers whether anything was read.
fn read_piece<R: Source>(
    reader: &mut R,
    chunk: &mut [u8],
    bytes: &mut Vec<u8>,
) -> Result<bool, InputFault>
    requires { 0 < length chunk.old }
    ensures room { length chunk.new ≡ length chunk.old }
    ensures piece { ReadsPiece (R.seen reader.old) (R.seen reader.new) bytes.old.items bytes.new.items result }
{
    match reader.read_counted(chunk) {
        Ok(0) => Ok(false),
        Ok(count) => {
            bytes.extend_from_slice(&chunk[..count])?;
            Ok(true)
        }
        Err(_) => Err(InputFault::Failed),
    }
}

/// Reads until nothing is left, and puts all of it at the end of `bytes`.
fn read_pieces<R: Source>(
    reader: &mut R,
    chunk: &mut [u8],
    bytes: &mut Vec<u8>,
) -> Result<(), InputFault>
    requires room { 0 < length chunk.old }
    requires empty { bytes.old.items ≡ [] }
    ensures ok { OnOk result (Has (R.seen reader.old).left bytes.new.items) }
    ensures counts { CountsInput (R.seen reader.old) (R.seen reader.new) result }
{
    for _turn in 0..u64::MAX {
        if !read_piece(reader, chunk, bytes)? {
            return Ok(());
        }
    }
    Err(InputFault::Memory)
}

/// All bytes that the reader has left.
pub fn read_whole<R: Source>(alloc: Global, reader: &mut R) -> Result<Vec<u8>, InputFault>
    ensures ok { IfOk result (λ bytes. Has (R.seen reader.old).left bytes.items) }
    ensures counts { CountsInput (R.seen reader.old) (R.seen reader.new) result }
{
    let mut chunk = vec![in alloc; 0; CHUNK]?;
    let mut bytes = Vec::new(alloc);
    read_pieces(reader, &mut chunk, &mut bytes)?;
    Ok(bytes)
}
