ghost use Rattle.clr_edge.specs.Faults.{HasRisen};
ghost use Rattle.clr_edge.specs.MemSink.{empty_sink, is_refused, taken_of, with_put, with_fault};
ghost use Rattle.clr_edge.specs.Sink.{with_bytes};
ghost use Rattle.std.specs.Prelude.{◌≡◌, ◌<◌, ◌≤◌, Some, length, take, is_err, IfOk, OnOk, OnErr};

use crate::{Sink, SinkFault};
use clr_net::Mem;
use std::alloc::Global;
use std::marker::Model;

/// Bytes in memory, which it tells, up to a room that is reserved when it is made. A put fails
/// where the room is full, and where its number is the one that is to fail; it is counted.
#[derive(Drop)]
pub struct MemSink {
    bytes: Vec<u8>,
    room: usize,
    most: usize,
    fail_at: u64,
    puts: u64,
    faults: u64,
}

impl Model for MemSink {
    ghost use Rattle.clr_edge.specs.MemSink.{SinkState};
    ghost use Rattle.std.specs.Prelude.{◌≤◌, length, vec_capacity};

    ghost Value = { SinkState };

    ghost view = { λ s. record {
      bytes = s.bytes.items;
      room = s.room;
      most = s.most;
      fail_at = s.fail_at;
      puts = s.puts;
      faults = s.faults;
    } };

    ghost invariant = { λ s. (s.room ≤ vec_capacity s.bytes) × (1 ≤ s.most) };
}

impl MemSink {
    /// A sink that holds at most `room` bytes and takes at most `most` at a put. Put number
    /// `fail_at` fails, counted from 1; 0 is none. The room, in bytes, is reserved here; `Mem` is want
    /// of memory for it.
    pub fn with_room(alloc: Global, room: usize, most: usize, fail_at: u64) -> Result<MemSink, Mem>
        requires { 1 ≤ most }
        ensures { IfOk result (λ sink. sink ≡ empty_sink room most fail_at) }
    {
        Ok(MemSink {
            bytes: Vec::with_capacity(alloc, room)?,
            room,
            most,
            fail_at,
            puts: 0,
            faults: 0,
        })
    }

    /// The bytes that it has taken.
    pub fn written(&self) -> &[u8]
        ensures { result.now ≡ self.now.bytes }
    {
        &self.bytes
    }
}

impl Sink for MemSink {
    ghost written = { λ s. Some s.bytes };

    ghost faults = { λ s. s.faults };

    ghost counts_faults_alone = { Unit {0} };

    fn put(&mut self, piece: &[u8]) -> Result<usize, SinkFault>
        requires { 0 < length piece.now }
        ensures at_least_one { IfOk result (λ n. 1 ≤ n) }
        ensures within { IfOk result (λ n. n ≤ length piece.now) }
        ensures written { IfOk result
            (λ n. Some self.new.bytes ≡ with_bytes (Some self.old.bytes) (take n piece.now)) }
        ensures unwritten { OnErr result (Some self.new.bytes ≡ Some self.old.bytes) }
        ensures faults { self.old.faults ≤ self.new.faults }
        ensures failed { OnErr result (HasRisen self.old.faults self.new.faults) }

        // It fails exactly where it is to, and else takes as much as it may and counts nothing.
        ensures refused { is_err result ≡ is_refused self.old }
        ensures share { IfOk result (λ n. n ≡ taken_of self.old (length piece.now)) }
        ensures ok { IfOk result (λ n. self.new ≡ with_put self.old piece.now n) }
        ensures well { OnOk result (self.new.faults ≡ self.old.faults) }
        ensures err { OnErr result (self.new ≡ with_fault self.old) }
    {
        self.puts = self.puts.saturating_add(1);
        if self.puts == self.fail_at || self.room <= self.bytes.len() {
            self.faults = self.faults.saturating_add(1);
            return Err(SinkFault);
        }
        let taken = piece.len().min(self.most).min(self.room - self.bytes.len());
        self.bytes.extend_from_slice(&piece[..taken]).unwrap();
        Ok(taken)
    }
}
