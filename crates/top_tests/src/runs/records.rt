//! What a run answers beside its text: the record of the board, and the visits at the gate.

use super::tasks::{NO_DEBTS, RING_BANKS, RING_DEBTS, THREE_SCENARIOS};
use super::{CHAIN_BANKS, CHAIN_DEBTS, Numbers, TWO_BANKS, runs_on, shelf_of_three};
use clr_edge::{Gate, MemShelf, OpenGate};
use std::alloc::Global;
use std::process::Abort;
use std::sync::atomic::{AtomicU64, Ordering};
use std::test::Fail;
use std::thread::Threads;

// A line on the chain with a third file, for how many bytes of its text there is room, the code,
// and the numbers of the record; nothing where it answers no record.
type Recorded<'a> = (&'a str, &'a str, usize, Option<Numbers>);

const CLEAR_BY_ONE: &str = "clear --banks b.csv --debts d.csv --workers 1";

const REPLAY: &str = "replay --banks b.csv --debts d.csv --journal j.csv";

const JOURNAL: &str = "stamp,debtor,creditor,class,to\n1,A,B,1,7\n2,B,C,1,8\n";

const STRESS: &str = "stress --banks b.csv --debts d.csv --scenarios s.toml";

// Each task once, and some also where the text is written in part.
const RECORDED: [Recorded<'static>; 20] = [
    (CLEAR_BY_ONE, "", 1000, Some((2, 1, 2, 2))),
    (CLEAR_BY_ONE, "", 5, Some((2, 1, 2, 2))),
    (
        "defaults --banks b.csv --debts d.csv --workers 1",
        "",
        1000,
        Some((2, 1, 2, 2)),
    ),
    (
        "bounds --banks b.csv --debts d.csv --workers 1",
        "",
        1000,
        Some((2, 1, 2, 2)),
    ),
    // One raise after the two of the run before.
    (
        "rescue --banks b.csv --debts d.csv --bank B --workers 1",
        "",
        1000,
        Some((1, 1, 2, 3)),
    ),
    (
        "gen --seed 1 --size 1 --tries 20 --workers 1",
        "",
        1000,
        Some((0, 1, 1, 0)),
    ),
    ("check --banks b.csv --debts d.csv", "", 1000, None),
    ("central --banks b.csv --debts d.csv", "", 1000, None),
    (STRESS, THREE_SCENARIOS, 1000, None),
    (STRESS, THREE_SCENARIOS, 5, None),
    (REPLAY, JOURNAL, 1000, None),
    (REPLAY, JOURNAL, 5, None),
    ("convert --banks b.csv --debts d.csv", "", 1000, None),
    ("compress --banks b.csv --debts d.csv", "", 1000, None),
    (
        "costs --banks b.csv --debts d.csv --keep 500",
        "",
        1000,
        None,
    ),
    ("breaking --banks b.csv --debts d.csv", "", 1000, None),
    ("impact --banks b.csv --debts d.csv", "", 1000, None),
    ("rescues --banks b.csv --debts d.csv", "", 1000, None),
    (
        "outcomes --banks b.csv --debts d.csv --scenarios s.toml",
        THREE_SCENARIOS,
        1000,
        None,
    ),
    (
        "cost-bounds --banks b.csv --debts d.csv --keep 500",
        "",
        1000,
        None,
    ),
];

// Runs a line, and compares the numbers of its record.
fn has_record<R: Threads + Sync + Abort>(
    rt: &R,
    alloc: Global,
    (line, third, room, wanted): Recorded<'_>,
) -> Result<(), Fail> {
    let mut files = shelf_of_three(alloc, [CHAIN_BANKS, CHAIN_DEBTS, third])?;
    let told = if room < 50 {
        (100, 5, "clearing: cannot write the output\n")
    } else {
        (100, 0, "")
    };
    let numbers = runs_on(rt, alloc, line, &mut files, room, &OpenGate, told)?;
    same_numbers(rt, line, numbers, wanted);
    Ok(())
}

fn same_numbers<R: Abort>(rt: &R, line: &str, numbers: Option<Numbers>, wanted: Option<Numbers>) {
    assert_eq!(rt; numbers, wanted, "{line}");
}

#[test]
fn tasks_on_one_board_answer_its_record(rt: HostRuntime) -> Result<(), Fail> {
    for row in &RECORDED {
        has_record(&rt, rt.alloc(), *row)?;
    }
    Ok(())
}

// Counts the visits of all workers, keeps the greatest number of a visit in its round, and adds up
// the numbers of the workers.
#[derive(Drop)]
struct Counter {
    visits: AtomicU64,
    last: AtomicU64,
    workers: AtomicU64,
}

impl Gate for Counter {
    fn at(&self, worker: u32, visit: u64) {
        self.visits.fetch_add(1, Ordering::SeqCst);
        self.last.fetch_max(visit, Ordering::SeqCst);
        self.workers.fetch_add(u64::from(worker), Ordering::SeqCst);
    }
}

impl Counter {
    fn new() -> Counter {
        Counter {
            visits: AtomicU64::new(0),
            last: AtomicU64::new(0),
            workers: AtomicU64::new(0),
        }
    }

    fn counts(&self) -> (u64, u64, u64) {
        (
            self.visits.load(Ordering::SeqCst),
            self.last.load(Ordering::SeqCst),
            self.workers.load(Ordering::SeqCst),
        )
    }
}

// What a gate counts in a run that ends well: the visits, the greatest number of a visit in its
// round, and the numbers of the workers in all visits together.
fn counted_on<R: Threads + Sync + Abort>(
    rt: &R,
    alloc: Global,
    line: &str,
    files: &mut MemShelf,
) -> Result<(u64, u64, u64), Fail> {
    let gate = Counter::new();
    runs_on(rt, alloc, line, files, 2000, &gate, (100, 0, ""))?;
    Ok(gate.counts())
}

// What it counts for a task by a plan.
fn counted<R: Threads + Sync + Abort>(
    rt: &R,
    alloc: Global,
    (task, plan): (&str, &str),
    texts: [&str; 3],
) -> Result<(u64, u64, u64), Fail> {
    let mut files = shelf_of_three(alloc, texts)?;
    let line = format!(in alloc; "{task} {plan}")?;
    counted_on(rt, alloc, line.as_str(), &mut files)
}

// A task, its visits on the ring and the greatest number of one in its round, and its runs.
const TASKS: [(&str, u64, u64, u64); 6] = [
    ("clear --banks b.csv --debts d.csv", 11, 11, 1),
    ("defaults --banks b.csv --debts d.csv", 11, 11, 1),
    ("bounds --banks b.csv --debts d.csv", 11, 11, 1),
    ("rescue --banks b.csv --debts d.csv --bank A", 13, 11, 2),
    (STRESS, 11, 11, 1),
    ("gen --seed 1 --size 3 --tries 0", 3, 3, 1),
];

const AS_IT_IS: &str = "scenario = [{name = \"as it is\"}]";

const THREE_BANKS: &str = "name,cash,rule\nA,0,order\nB,0,order\nC,0,order\n";

// Runs a task on the ring by one worker, and on three banks without debts by three.
fn passes<R: Threads + Sync + Abort>(
    rt: &R,
    alloc: Global,
    (task, visits, last, runs): (&str, u64, u64, u64),
) -> Result<(), Fail> {
    let ring = [RING_BANKS, RING_DEBTS, AS_IT_IS];
    let one = counted(rt, alloc, (task, "--workers 1 --sweeps 7"), ring)?;
    assert_eq!(rt; one, (visits, last, 0), "{task}");
    // In each run the workers 0, 1 and 2 visit a bank each.
    let still = [THREE_BANKS, NO_DEBTS, AS_IT_IS];
    let three = counted(rt, alloc, (task, "--workers 3 --sweeps 1"), still)?;
    let of_all = runs.saturating_mul(3);
    assert_eq!(rt; three, (of_all, 1, of_all), "{task}");
    Ok(())
}

// On the ring one unit goes round five times: ten visits that raise, and one of A that does not.
// One worker with sweeps enough makes them in one round. A saved bank costs a second run, from what
// was paid: a visit of each bank.
#[test]
fn the_gate_of_a_job_is_passed(rt: HostRuntime) -> Result<(), Fail> {
    for task in &TASKS {
        passes(&rt, rt.alloc(), *task)?;
    }
    Ok(())
}

const OWE_SIXTY: &str = "debtor,creditor,class,claim\nA,B,1,60\nB,A,1,60\n";

// A task by one worker with sweeps enough, its banks, the visits, and the greatest number of one in
// its round.
const IN_ONE_ROUND: [(&str, &str, u64, u64); 7] = [
    ("clear --banks b.csv --debts d.csv", RING_BANKS, 121, 121),
    ("defaults --banks b.csv --debts d.csv", RING_BANKS, 121, 121),
    ("bounds --banks b.csv --debts d.csv", RING_BANKS, 121, 121),
    (STRESS, RING_BANKS, 121, 121),
    // A plain model of visits makes as many, in fifteen sweeps.
    ("gen --seed 7 --size 7 --tries 28", "", 51, 51),
    // All is paid before the bank is saved, and each bank is visited once more.
    (
        "rescue --banks b.csv --debts d.csv --bank A",
        RING_BANKS,
        123,
        121,
    ),
    // Nothing is paid before the bank is saved, in a visit of each bank.
    (
        "rescue --banks b.csv --debts d.csv --bank A",
        TWO_BANKS,
        123,
        121,
    ),
];

// Two for each of four threads. In all but the second nobody has cash, and each of the two banks is
// visited once.
const SECOND_HAS_CASH: &str = "scenario = [{name=\"1\",cut=1000},{name=\"2\"},\
    {name=\"3\",cut=1000},{name=\"4\",cut=1000},{name=\"5\",cut=1000},{name=\"6\",cut=1000},\
    {name=\"7\",cut=1000},{name=\"8\",cut=1000}]";

#[test]
fn a_job_has_as_many_sweeps_as_it_says(rt: HostRuntime) -> Result<(), Fail> {
    for (task, banks, visits, last) in &IN_ONE_ROUND {
        let plan = "--workers 1 --sweeps 1000";
        let texts = [banks, OWE_SIXTY, AS_IT_IS];
        let told = counted(&rt, rt.alloc(), (task, plan), texts)?;
        assert_eq!(rt; told, (*visits, *last, 0), "{task}");
    }
    let texts = [RING_BANKS, OWE_SIXTY, SECOND_HAS_CASH];
    let plan = "--workers 1 --sweeps 1000";
    let told = counted(&rt, rt.alloc(), (STRESS, plan), texts)?;
    assert_eq!(rt; told, (121 + 7 * 2, 121, 0));
    Ok(())
}

#[test]
fn scenarios_are_cleared_on_boards(rt: HostRuntime) -> Result<(), Fail> {
    // Three banks are visited once in each scenario, and C never again: nobody pays it more after
    // its visit.
    let texts = [CHAIN_BANKS, CHAIN_DEBTS, THREE_SCENARIOS];
    let one = counted(&rt, rt.alloc(), (STRESS, "--workers 1 --sweeps 1"), texts)?;
    assert_eq!(rt; one.0, 9);
    Ok(())
}
