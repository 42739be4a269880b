//! Which visits of a run are made at once: those of the workers of one board, and those of several
//! scenarios, whose boards start no threads of their own.

use super::tasks::NO_DEBTS;
use super::waits::{LONG, SHORT, waits_for};
use super::{runs_on, shelf_of_three};
use clr_edge::Gate;
use std::alloc::Global;
use std::process::Abort;
use std::sync::atomic::{AtomicU64, Ordering};
use std::test::Fail;
use std::thread::Threads;
use std::time::Clock;

// Lets some first visits of a round go on, and has each later one wait until so many have come.
#[derive(Drop)]
struct Meeting<'a, R: Clock + Sync> {
    rt: &'a R,
    skipped: u64,
    wanted: u64,
    // For how many milliseconds each waits.
    millis: u32,
    come: AtomicU64,
    // How many did not wait in vain.
    met: AtomicU64,
}

impl<'a, R: Clock + Sync> Gate for Meeting<'a, R> {
    fn at(&self, _worker: u32, visit: u64) {
        if visit != 1 || self.come.fetch_add(1, Ordering::SeqCst) < self.skipped {
            return;
        }
        if waits_for(self.rt, &self.come, self.wanted, self.millis) {
            self.met.fetch_add(1, Ordering::SeqCst);
        }
    }
}

const FOUR_BANKS: &str = "name,cash,rule\nA,0,order\nB,0,order\nC,0,order\nD,0,order\n";

const FOUR_SCENARIOS: &str = "scenario = [{name=\"1\"},{name=\"2\"},{name=\"3\"},{name=\"4\"}]";

const TWELVE_SCENARIOS: &str = "scenario = [{name=\"1\"},{name=\"2\"},{name=\"3\"},\
    {name=\"4\"},{name=\"5\"},{name=\"6\"},{name=\"7\"},{name=\"8\"},{name=\"9\"},\
    {name=\"10\"},{name=\"11\"},{name=\"12\"}]";

// A line on four banks without debts, a file of scenarios, the first visits that are skipped, for
// how many the others wait, and how many do not do so in vain. Each worker has one first visit in a
// run.
type Case<'a> = (&'a str, &'a str, u64, u64, u64);

const CASES: [Case<'static>; 11] = [
    ("clear --banks b.csv --debts d.csv --workers 2", "", 0, 2, 2),
    ("clear --banks b.csv --debts d.csv --workers 4", "", 0, 4, 4),
    // Four workers, where the line does not say how many.
    ("clear --banks b.csv --debts d.csv", "", 0, 4, 4),
    ("defaults --banks b.csv --debts d.csv", "", 0, 4, 4),
    ("bounds --banks b.csv --debts d.csv", "", 0, 4, 4),
    ("gen --seed 1 --size 4 --tries 0", "", 0, 4, 4),
    // The second run too.
    (
        "rescue --banks b.csv --debts d.csv --bank A --workers 2",
        "",
        2,
        4,
        2,
    ),
    (
        "rescue --banks b.csv --debts d.csv --bank A --workers 4",
        "",
        4,
        8,
        4,
    ),
    // The first worker waits in vain, and the second finds it there.
    (
        "stress --banks b.csv --debts d.csv --scenarios s.toml --workers 2",
        "scenario = [{name=\"1\"}]",
        0,
        2,
        1,
    ),
    (
        "stress --banks b.csv --debts d.csv --scenarios s.toml --workers 1",
        FOUR_SCENARIOS,
        0,
        4,
        4,
    ),
    // Four at a time; those that come later find as many come already.
    (
        "stress --banks b.csv --debts d.csv --scenarios s.toml --workers 1",
        TWELVE_SCENARIOS,
        0,
        4,
        12,
    ),
];

fn meets<R: Threads + Clock + Sync + Abort>(
    rt: &R,
    alloc: Global,
    (line, scenarios, skipped, wanted, met): Case<'_>,
) -> Result<(), Fail> {
    let mut files = shelf_of_three(alloc, [FOUR_BANKS, NO_DEBTS, scenarios])?;
    let in_vain = met < wanted.saturating_sub(skipped);
    let gate = Meeting {
        rt,
        skipped,
        wanted,
        millis: if in_vain { SHORT } else { LONG },
        come: AtomicU64::new(0),
        met: AtomicU64::new(0),
    };
    runs_on(rt, alloc, line, &mut files, 4000, &gate, (100, 0, ""))?;
    assert_eq!(rt; gate.met.load(Ordering::SeqCst), met, "{line}");
    Ok(())
}

#[test]
fn workers_and_scenarios_are_cleared_at_once(rt: HostRuntime) -> Result<(), Fail> {
    for case in &CASES {
        meets(&rt, rt.alloc(), *case)?;
    }
    Ok(())
}
