//! A sink whose count rises though it takes what is put.
ghost use Rattle.std.specs.Prelude.{Some};

use super::{CHAIN_BANKS, CHAIN_DEBTS, CHAIN_TEXT, CLEAR, run_line, same, same_code, shelf};
use clr_edge::{MemSink, OpenGate, Sink, SinkFault};
use std::alloc::Global;
use std::process::Abort;
use std::test::Fail;
use std::thread::Threads;

// A sink that counts each put, also one that takes bytes.
#[derive(Drop)]
struct Restless {
    taken: MemSink,
    count: u64,
}

impl Sink for Restless {
    ghost written = { λ s. Some s.taken.bytes };

    ghost faults = { λ s. s.count };

    fn put(&mut self, piece: &[u8]) -> Result<usize, SinkFault> {
        self.count = self.count.saturating_add(1);
        self.taken.put(piece)
    }
}

// Runs a line on the chain into such a sink, and compares the code and what the sink took.
fn ends_on_restless<R: Threads + Sync + Abort>(
    rt: &R,
    alloc: Global,
    fail_at: u64,
    (code, text): (u8, &str),
) -> Result<(), Fail> {
    let mut files = shelf(alloc, CHAIN_BANKS, CHAIN_DEBTS)?;
    let taken = MemSink::with_room(alloc, 1000, 10, fail_at)?;
    let mut out = Restless { taken, count: 0 };
    let mut err = MemSink::with_room(alloc, 1000, 1000, 0)?;
    let (status, _) = run_line(
        rt,
        alloc,
        CLEAR,
        &mut files,
        (&mut out, &mut err),
        &OpenGate,
    )?;
    same_code(rt, CLEAR, status.code(), code);
    same(rt, CLEAR, out.taken.written(), text.as_bytes());
    Ok(())
}

#[test]
fn a_count_that_rises_where_bytes_are_taken_is_no_fault(rt: HostRuntime) -> Result<(), Fail> {
    ends_on_restless(&rt, rt.alloc(), 0, (0, CHAIN_TEXT))?;
    ends_on_restless(&rt, rt.alloc(), 2, (5, "debtor,cre"))
}
