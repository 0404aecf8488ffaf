//! A script that is run, and what is kept of it.
ghost use Rattle.std.specs.Prelude.{◌≡◌, IfOk, OnOk};
ghost use Rattle.nt_lines.specs.Lines.{lines_of};
ghost use Rattle.nt_hangs.specs.Absent.{AreAbsent};
ghost use Rattle.nt_hangs.specs.Steps.{IsFaultOf, IsReadyFor, WatchesLines};
ghost use Rattle.nt_hangs.specs.Watching.{seen_of, unseen, Sees};

use crate::kept::Kept;
use crate::labels::Words;
use nt_hangs::{TakeLine, Watch, absent_in, take_lines};
use nt_script::RunFault;
use std::alloc::{AllocError, Global};

/// A script that is run, and what is kept of it.
#[derive(Drop)]
pub struct Film {
    pub watch: Watch,
    pub kept: Kept,
    /// The marks of the threads that are none of the script's.
    pub absent: Vec<bool>,
}

impl Film {
    /// Nothing is run yet.
    pub fn new(alloc: Global, is_drawn: bool) -> Result<Film, AllocError>
        ensures { IfOk result (λ film. seen_of film.watch ≡ unseen) }
    {
        Ok(Film {
            watch: Watch::new(alloc)?,
            kept: Kept::new(alloc, is_drawn)?,
            absent: Vec::new(alloc),
        })
    }

    /// Keeps what the line with this number did.
    fn keep(&mut self, alloc: Global, number: u64, line: &[u8]) -> Result<(), AllocError>
        ensures { self.new.watch ≡ self.old.watch }
    {
        match self.watch.session() {
            Some(session) => {
                let words = Words {
                    session,
                    objects: self.watch.objects(),
                    told: self.watch.told(),
                };
                let said = self.watch.said();
                self.kept.keep(alloc, number, line, words, said)
            }
            None => Ok(()),
        }
    }

    /// Notes which threads are none of the script's, and which object is asked for.
    fn prepare(
        &mut self,
        alloc: Global,
        input: &[u8],
        object: Option<&str>,
    ) -> Result<(), AllocError>
        ensures watch { self.new.watch ≡ self.old.watch }
        ensures absent { OnOk result (AreAbsent (lines_of input.now) self.new.absent.items) }
    {
        self.absent = absent_in(alloc, input)?;
        self.kept.ask_for(alloc, object)
    }

    /// Carries out all lines, a `threads` line among them, and answers how many there were.
    pub fn run(
        &mut self,
        alloc: Global,
        input: &[u8],
        object: Option<&str>,
    ) -> Result<u64, RunFault>
        requires { seen_of self.old.watch ≡ unseen }
        ensures { WatchesLines (lines_of input.now) result (seen_of self.new.watch) }
    {
        if self.prepare(alloc, input, object).is_err() {
            return Err(RunFault::Memory { line: 1 });
        }
        let taken = take_lines(self, alloc, input, None);
        self.watch.opened(taken)
    }
}

impl TakeLine for Film {
    type Fault = RunFault;

    ghost IsReady = { λ number film. IsReadyFor number (seen_of film.watch) };

    ghost Takes = { λ number bytes old new. Sees number bytes (seen_of old.watch) (seen_of new.watch) };

    ghost Refuses = { λ number bytes film fault. IsFaultOf number (seen_of film.watch).now bytes fault };

    /// Carries out the line with this number, and keeps what it did.
    fn take_line(&mut self, alloc: Global, number: u64, line: &[u8]) -> Result<(), RunFault> {
        match self.watch.see_line(alloc, number, line) {
            Ok(()) => match self.keep(alloc, number, line) {
                Ok(()) => Ok(()),
                Err(_) => Err(RunFault::Memory { line: number }),
            },
            Err(fault) => Err(fault),
        }
    }
}
