//! How far a search is, told to a sink.
ghost use Rattle.std.specs.Prelude.{◌≡◌};
ghost use Rattle.nt_orders.specs.Progress.{SaysCount, TellsLook, deeper_then, depth_then, IsTold};

use itoa::Buffer;
use nt_devices::{Sink, write_whole};
use nt_explore::Watcher;

/// After how many looks a line is told.
const LOOKS: usize = 64;

/// Tells a sink after each 64 looks how many states were looked at and met, and how deep the last one lies. A failure to write is ignored.
#[derive(Drop)]
pub struct Progress<P> {
    pub sink: P,
    /// How many steps deep the next state lies.
    depth: usize,
    /// The number of the first state that lies deeper.
    deeper: usize,
}

/// Writes a number, and what ends it.
fn say_count<P: Sink>(sink: &mut P, count: usize, end: &[u8])
    ensures { SaysCount count end.now (P.seen sink.old) (P.seen sink.new) }
{
    let mut buffer = Buffer::new();
    let _ = write_whole(sink, buffer.format(count as u64).as_bytes());
    let _ = write_whole(sink, end);
}

/// Writes the line after every so many looks.
fn say_look<P: Sink>(sink: &mut P, looked: usize, states: usize, depth: usize)
    ensures { TellsLook looked states depth (P.seen sink.old) (P.seen sink.new) }
{
    if looked % LOOKS == 0 {
        say_count(sink, looked, b" ");
        say_count(sink, states, b" ");
        say_count(sink, depth, b"\n");
    }
}

impl<P> Progress<P> {
    /// Of a search that has not begun.
    pub fn new(sink: P) -> Progress<P>
        ensures { result.sink ≡ sink }
    {
        Progress {
            sink,
            depth: 0,
            deeper: 1,
        }
    }

    /// A search begins: its first state is the start, and no other is as deep.
    pub(crate) fn begin(&mut self)
        ensures sink { self.new.sink ≡ self.old.sink }
        ensures depth { self.new.depth ≡ 0 }
        ensures deeper { self.new.deeper ≡ 1 }
    {
        self.depth = 0;
        self.deeper = 1;
    }

    /// The last state of a level may have been looked at: then the states that were met since lie a step deeper.
    fn go_deeper(&mut self, looked: usize, states: usize)
        ensures sink { self.new.sink ≡ self.old.sink }
        ensures depth { self.new.depth ≡ depth_then looked self.old.deeper self.old.depth }
        ensures deeper { self.new.deeper ≡ deeper_then looked self.old.deeper states }
    {
        if looked == self.deeper {
            self.depth = self.depth.saturating_add(1);
            self.deeper = states;
        }
    }
}

impl<P: Sink> Watcher for Progress<P> {
    ghost learns = { λ old looked states new. IsTold P.seen old looked states new };

    fn tell(&mut self, looked: usize, states: usize) {
        say_look(&mut self.sink, looked, states, self.depth);
        self.go_deeper(looked, states);
    }
}
