//! Reading line by line.

ghost use Rattle.std.specs.Prelude.{◌≡◌, ◌≢◌, ◌↔◌, ◌≤◌, ◌+◌, [], drop, length, IfOk, IfErr, IsTrue, OnOk, OnErr, Err, vec_capacity, vec_len};
ghost use Rattle.std.specs.Io.KnownBytes.{Keeps, IsAtEnd};
ghost use Rattle.nt_devices.specs.Device.{one_more};
ghost use Rattle.nt_lines.specs.declared.input.TheConstants.{MAX_LINE};
ghost use Rattle.nt_lines.specs.Lines.{to_come, ReadsLine, StopsInLine, CountsReadFault, TakesPiece};

use crate::text::put;
use memchr::memchr;
use nt_devices::Source;
use std::alloc::{AllocError, Global};
use std::marker::Model;

/// The most bytes in a line, without the LF that ends it.
pub const MAX_LINE: usize = 4096;

const _: () = prove!(MAX_LINE == 4_096);

/// How much is read at once.
const CHUNK: usize = 65536;

/// What was read from a reader and not taken yet.
#[derive(Drop)]
pub struct Input {
    chunk: Vec<u8>,
    start: usize,
    end: usize,
}

impl Model for Input {
    ghost use Rattle.std.specs.Prelude.{◌-◌, ◌<◌, ◌≤◌, ℕ, List, drop, take, vec_len};

    ghost Value = { List ℕ };

    ghost view = { λ i. take (i.end - i.start) (drop i.start i.chunk.items) };

    ghost invariant = { λ i. (i.start ≤ i.end) × (i.end ≤ vec_len i.chunk) × (0 < vec_len i.chunk) };
}

/// How a line ends.
#[derive(Clone, Copy, Debug, PartialEq, Eq)]
pub enum Ending {
    Feed,
    EndOfInput,
}

/// Why a line can't be read to its end.
#[derive(Clone, Copy, Debug, PartialEq, Eq)]
pub enum ReadFault {
    Failed,
    TooLong,
}

/// How far a line came with the bytes that were read ahead.
#[derive(Clone, Copy, Debug, PartialEq, Eq)]
pub(crate) enum Piece {
    Ended,
    Open,
    Full,
}

impl Input {
    pub fn new(alloc: Global) -> Result<Input, AllocError>
        ensures { IfOk result (λ input. input ≡ []) }
    {
        Ok(Input {
            chunk: vec![in alloc; 0; CHUNK]?,
            start: 0,
            end: 0,
        })
    }

    /// The bytes that were read ahead.
    fn ahead(&self) -> &[u8]
        ensures { result.now ≡ self.now }
    {
        &self.chunk[self.start..self.end]
    }

    /// Reads ahead, where nothing is left of what was read before.
    fn fill<R: Source>(&mut self, reader: &mut R) -> Result<(), ReadFault>
        ensures bytes { Keeps (to_come self.old (R.seen reader.old).left) (to_come self.new (R.seen reader.new).left) }
        ensures end { OnOk result (self.new ≡ [] → IsAtEnd (R.seen reader.new).left) }
        ensures failed { OnErr result (result ≡ Err ReadFault.Failed) }
        ensures nothing_ahead { OnErr result (self.new ≡ []) }
        ensures uncounted { OnOk result ((R.seen reader.new).failed ≡ (R.seen reader.old).failed) }
        ensures counted { OnErr result ((R.seen reader.new).failed ≡ one_more (R.seen reader.old).failed) }
    {
        if self.start < self.end {
            return Ok(());
        }
        match reader.read_counted(&mut self.chunk) {
            Ok(count) => {
                self.start = 0;
                self.end = count;
                Ok(())
            }
            Err(_) => Err(ReadFault::Failed),
        }
    }

    /// Leaves out this many of the bytes that were read ahead.
    fn skip(&mut self, count: usize)
        requires { count ≤ length self.old }
        ensures { self.new ≡ drop count self.old }
    {
        self.start += count;
    }

    /// Puts what was read ahead at the end of the line, up to its LF, or to the first byte too many.
    fn take_piece(&mut self, line: &mut Vec<u8>) -> Piece
        requires some { self.old ≢ [] }
        requires short { vec_len line.old ≤ MAX_LINE }
        requires room { MAX_LINE + 1 ≤ vec_capacity line.old }
        ensures piece { TakesPiece self.old self.new line.old.items line.new.items result }
        ensures room { vec_capacity line.old ≤ vec_capacity line.new }
    {
        let ahead = self.ahead();
        let most = MAX_LINE + 1 - line.len();
        let piece = &ahead[..most.min(ahead.len())];
        match memchr(b'\n', piece) {
            Some(place) => {
                put(line, &piece[..place]);
                self.skip(place + 1);
                Piece::Ended
            }
            None => {
                let taken = piece.len();
                put(line, piece);
                self.skip(taken);
                if line.len() > MAX_LINE {
                    Piece::Full
                } else {
                    Piece::Open
                }
            }
        }
    }

    /// Reads the next line into `line`, without the LF that ends it. Where a read failed, `line` has the bytes of it that
    /// were read before, and nothing else was read ahead.
    pub fn read_line<R: Source>(
        &mut self,
        reader: &mut R,
        line: &mut Vec<u8>,
    ) -> Result<Ending, ReadFault>
        requires { MAX_LINE + 1 ≤ vec_capacity line.old }
        ensures ok { IfOk result (ReadsLine (to_come self.old (R.seen reader.old).left)
            (to_come self.new (R.seen reader.new).left) line.new.items) }
        ensures err { IfErr result (StopsInLine (to_come self.old (R.seen reader.old).left)
            (to_come self.new (R.seen reader.new).left) line.new.items) }
        ensures nothing_ahead { result ≡ Err ReadFault.Failed → self.new ≡ [] }
        ensures counted { CountsReadFault (R.seen reader.old).failed (R.seen reader.new).failed result }
        ensures room { vec_capacity line.old ≤ vec_capacity line.new }
    {
        line.clear();
        loop {
            self.fill(reader)?;
            if self.is_empty() {
                return Ok(Ending::EndOfInput);
            }
            match self.take_piece(line) {
                Piece::Ended => return Ok(Ending::Feed),
                Piece::Full => return Err(ReadFault::TooLong),
                Piece::Open => {}
            }
        }
    }

    fn is_empty(&self) -> bool
        ensures { IsTrue result ↔ (self.now ≡ []) }
    {
        self.start == self.end
    }
}
