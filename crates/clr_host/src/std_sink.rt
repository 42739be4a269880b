ghost use Rattle.clr_edge.specs.Faults.{HasRisen, counted};
ghost use Rattle.clr_host.specs.Left.{GrowsByPart};
ghost use Rattle.std.specs.Io.KnownBytes.{Appends};
ghost use Rattle.std.specs.Prelude.{◌≡◌, ◌<◌, ◌≤◌, None, length, take, IfOk, OnOk, OnErr};

use clr_edge::{Sink, SinkFault};
use std::io;
use std::io::{ErrorKind, Write};

/// A stream of the system that takes bytes, as the standard output. It tells none of them.
#[derive(Drop)]
pub struct StdSink<W> {
    stream: W,
    faults: u64,
}

impl<W> StdSink<W> {
    /// A stream that has not failed yet.
    pub fn new(stream: W) -> StdSink<W>
        ensures { result.faults ≡ 0 }
    {
        StdSink { stream, faults: 0 }
    }
}

impl<W: Write> Sink for StdSink<W> {
    ghost written = { λ _. None };

    ghost faults = { λ sink. sink.faults };

    ghost counts_faults_alone = { Unit {0} };

    fn put(&mut self, piece: &[u8]) -> Result<usize, SinkFault>
        requires { 0 < length piece.now }
        ensures at_least_one { IfOk result (λ n. 1 ≤ n) }
        ensures within { IfOk result (λ n. n ≤ length piece.now) }
        ensures faults { self.old.faults ≤ self.new.faults }
        ensures failed { OnErr result (HasRisen self.old.faults self.new.faults) }

        // A failure is counted once, and nothing else. After what the stream held it holds a front
        // of the piece: of the length that is answered, or at an `Err` of any, from none to all.
        ensures well { OnOk result (self.new.faults ≡ self.old.faults) }
        ensures fault_counted { OnErr result (self.new.faults ≡ counted self.old.faults) }
        ensures taken { IfOk result (λ n.
            Appends (W.contents self.old.stream) (W.contents self.new.stream) (take n piece.now)) }
        ensures left { OnErr result
            (GrowsByPart (W.contents self.old.stream) (W.contents self.new.stream) piece.now) }
    {
        match write_some(&mut self.stream, piece) {
            Ok(taken) => Ok(taken),
            Err(_) => {
                self.faults = self.faults.saturating_add(1);
                Err(SinkFault)
            }
        }
    }
}

// How often a write that a signal interrupts is tried.
const TRIES: u32 = 64;

// Writes bytes from the front of a piece, one at least, and answers how many. At an `Err` some may
// be written too, since a flush can fail after a write.
fn write_some<W: Write>(stream: &mut W, piece: &[u8]) -> io::Result<usize>
    requires { 0 < length piece.now }
    ensures at_least_one { IfOk result (λ n. 1 ≤ n) }
    ensures within { IfOk result (λ n. n ≤ length piece.now) }
    ensures taken { IfOk result (λ n. Appends (W.contents stream.old) (W.contents stream.new)
        (take n piece.now)) }
    ensures left { OnErr result
        (GrowsByPart (W.contents stream.old) (W.contents stream.new) piece.now) }
{
    for _ in 0..TRIES {
        match stream.write(piece) {
            Ok(0) => return Err(io::Error::from(ErrorKind::WriteZero)),
            Ok(taken) => {
                stream.flush()?;
                return Ok(taken);
            }
            Err(error) if error.kind() == ErrorKind::Interrupted => {}
            Err(error) => return Err(error),
        }
    }
    Err(io::Error::from(ErrorKind::Interrupted))
}
