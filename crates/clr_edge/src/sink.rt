ghost use Rattle.clr_edge.specs.Faults.{HasRisen};
ghost use Rattle.clr_edge.specs.Sink.{with_bytes, WritesPart};
ghost use Rattle.std.specs.Prelude.{◌≡◌, ◌<◌, ◌≤◌, ℕ, List, Option, Some, codes, length, take, IfOk, OnOk, OnErr};

use std::error::Error;
use std::fmt;

/// The sink failed, and counted it.
#[derive(Clone, Copy, Debug, PartialEq, Eq)]
pub struct SinkFault;

impl fmt::Display for SinkFault {
    ghost output = { λ _. Some (codes "cannot write the output") };

    fn fmt<W: fmt::Write>(&self, f: &mut fmt::Formatter<W>) -> fmt::Result {
        f.write_str("cannot write the output")
    }
}

impl Error for SinkFault {}

/// What takes bytes, in order.
pub trait Sink {
    /// The bytes that it has taken. A sink need not tell them.
    ghost written: { Self → Option (List ℕ) };

    /// How often it has failed.
    ghost faults: { Self → ℕ };

    /// What shows that its count rises at a put that fails and at no other, where anything does.
    ghost counts_faults_alone: { Type 0 } = { ⊥ };

    /// Takes bytes from the front of the piece, and answers how many: from one to all. At a fault
    /// it took none, and the count rose. It takes no memory.
    fn put(&mut self, piece: &[u8]) -> Result<usize, SinkFault>
        requires { 0 < length piece.now }
        ensures at_least_one { IfOk result (λ n. 1 ≤ n) }
        ensures within { IfOk result (λ n. n ≤ length piece.now) }
        ensures written { IfOk result
            (λ n. written self.new ≡ with_bytes (written self.old) (take n piece.now)) }
        ensures unwritten { OnErr result (written self.new ≡ written self.old) }
        ensures faults { faults self.old ≤ faults self.new }
        ensures well { counts_faults_alone → OnOk result (faults self.new ≡ faults self.old) }
        ensures failed { OnErr result (HasRisen (faults self.old) (faults self.new)) };
}

/// Writes all bytes. `SinkFault` is a fault of the sink: some bytes from the front have been written
/// then, but not all, and the count rose. Where the sink counts faults alone, no put failed at an
/// `Ok`. It takes no memory.
pub fn put_all<S: Sink>(sink: &mut S, bytes: &[u8]) -> Result<(), SinkFault>
    ensures written { OnOk result
        (S.written sink.new ≡ with_bytes (S.written sink.old) bytes.now) }
    ensures part { OnErr result
        (WritesPart (S.written sink.old) (S.written sink.new) bytes.now) }
    ensures faults { S.faults sink.old ≤ S.faults sink.new }
    ensures well { S.counts_faults_alone → OnOk result (S.faults sink.new ≡ S.faults sink.old) }
    ensures failed { OnErr result (HasRisen (S.faults sink.old) (S.faults sink.new)) }
{
    let mut done = 0;
    while done < bytes.len() {
        done += sink.put(&bytes[done..])?;
    }
    Ok(())
}
