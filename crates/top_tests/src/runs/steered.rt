//! The journal that a run answers is that of the visits that passed its gate: a gate has them go in an
//! order that a run without it would seldom come to.

use super::waits::{LONG, waits_for};
use super::{CHAIN_DEBTS, runs_on, same, shelf, tells};
use clr_edge::{Gate, MemSink};
use std::alloc::Global;
use std::process::Abort;
use std::sync::atomic::{AtomicU64, Ordering};
use std::test::Fail;
use std::thread::Threads;
use std::time::Clock;

// Of two workers, has the one of this number wait at its first visit until the other is at its
// second, and counts all visits.
#[derive(Drop)]
struct Order<'a, R: Clock + Sync> {
    rt: &'a R,
    waiting: u32,
    paid: AtomicU64,
    visits: AtomicU64,
}

impl<'a, R: Clock + Sync> Gate for Order<'a, R> {
    fn at(&self, worker: u32, visit: u64) {
        self.visits.fetch_add(1, Ordering::SeqCst);
        if worker == self.waiting && visit == 1 {
            waits_for(self.rt, &self.paid, 1, LONG);
        } else if worker != self.waiting && visit == 2 {
            self.paid.store(1, Ordering::SeqCst);
        }
    }
}

fn new_order<R: Clock + Sync>(rt: &R, waiting: u32) -> Order<'_, R> {
    Order {
        rt,
        waiting,
        paid: AtomicU64::new(0),
        visits: AtomicU64::new(0),
    }
}

// A bank more than the chain has, so that each of two workers has two banks.
const FOUR_BANKS: &str = "name,cash,rule\nA,7,order\nB,1,order\nC,0,order\nD,0,order\n";

// The worker that waits, the journal then, and how many visits there are at least and at most. Where
// B waits it sees what A paid, and pays all at once; C is visited again, and B where A rang it after
// its bell was taken. Where A waits B pays its own unit first, and B and C are visited again.
const ORDERS: [(u32, &str, u64, u64); 2] = [
    (
        1,
        "stamp,debtor,creditor,class,to\n1,A,B,1,7\n2,B,C,1,8\nrounds,2\n",
        5,
        6,
    ),
    (
        0,
        "stamp,debtor,creditor,class,to\n1,A,B,1,7\n1,B,C,1,1\n2,B,C,1,8\nrounds,3\n",
        6,
        6,
    ),
];

// Clears by two workers in this order, and compares the journal.
fn shows<R: Threads + Clock + Sync + Abort>(
    rt: &R,
    alloc: Global,
    (waiting, text, least, most): (u32, &str, u64, u64),
) -> Result<(), Fail> {
    let line = "clear --banks b.csv --debts d.csv --show journal --workers 2 --sweeps 1";
    let mut files = shelf(alloc, FOUR_BANKS, CHAIN_DEBTS)?;
    let mut out = MemSink::with_room(alloc, 1000, 1000, 0)?;
    let gate = new_order(rt, waiting);
    tells(rt, alloc, line, &mut files, &mut out, &gate, (100, 0, ""))?;
    same(rt, line, out.written(), text.as_bytes());
    let visits = gate.visits.load(Ordering::SeqCst);
    assert!(rt; least <= visits && visits <= most, "{waiting}: {visits}");
    Ok(())
}

// Tasks on the same files whose record is of one run.
const TASKS: [&str; 3] = [
    "clear --banks b.csv --debts d.csv --workers 2 --sweeps 1",
    "defaults --banks b.csv --debts d.csv --workers 2 --sweeps 1",
    "bounds --banks b.csv --debts d.csv --workers 2 --sweeps 1",
];

fn raises<R: Threads + Clock + Sync + Abort>(
    rt: &R,
    alloc: Global,
    line: &str,
    (waiting, wanted): (u32, u64),
) -> Result<(), Fail> {
    let mut files = shelf(alloc, FOUR_BANKS, CHAIN_DEBTS)?;
    let gate = new_order(rt, waiting);
    let told = (100, 0, "");
    let made = match runs_on(rt, alloc, line, &mut files, 1000, &gate, told)? {
        Some((made, _, _, _)) => made,
        None => 0,
    };
    assert_eq!(rt; made, wanted, "{line}");
    Ok(())
}

#[test]
fn the_journal_is_of_the_visits_that_pass_the_gate(rt: HostRuntime) -> Result<(), Fail> {
    for _ in 0..3 {
        for order in &ORDERS {
            shows(&rt, rt.alloc(), *order)?;
        }
    }
    Ok(())
}

#[test]
fn the_record_is_of_the_visits_that_pass_the_gate(rt: HostRuntime) -> Result<(), Fail> {
    for line in &TASKS {
        raises(&rt, rt.alloc(), line, (1, 2))?;
        raises(&rt, rt.alloc(), line, (0, 3))?;
    }
    Ok(())
}
