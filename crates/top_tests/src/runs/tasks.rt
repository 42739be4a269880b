//! Each task on small networks: the text that it writes, byte for byte.

use super::{
    CENTRAL, CHAIN_BANKS, CHAIN_BANKS_2, CHAIN_BOTH, CHAIN_CHECKED, CHAIN_DEBTS, CHAIN_OUTSIDE,
    CHAIN_OUTSIDE_CHECKED, CHAIN_TEXT, CHECK, CLEAR, CLEAR_BOTH, CONVERT, Done, REPLAY, STRESS,
    TWO_BANKS, all_done, check, twelve_banks,
};
use std::alloc::Global;
use std::process::Abort;
use std::test::Fail;
use std::thread::Threads;

const DEFAULTS: &str = "defaults --banks b.csv --debts d.csv";

const BOUNDS: &str = "bounds --banks b.csv --debts d.csv --workers 2";

const COMPRESS: &str = "compress --banks b.csv --debts d.csv";

const BOTH_OWE_TEN: &str = "debtor,creditor,class,claim\nA,B,1,10\nB,A,1,10\n";

const NOTHING_PAID: &str = "debtor,creditor,class,claim,paid\nA,B,1,10,0\nB,A,1,10,0\n";

pub const RING_BANKS: &str = "name,cash,rule\nA,1,order\nB,0,order\n";

pub const RING_DEBTS: &str = "debtor,creditor,class,claim\nA,B,1,5\nB,A,1,5\n";

const NO_BANKS: &str = "name,cash,rule\n";

pub const NO_DEBTS: &str = "debtor,creditor,class,claim\n";

const CHAIN_DEFAULTS: &str = "bank,estate,paid,owed,equity,state\nA,7,7,10,0,fundamental\n\
B,8,8,9,0,contagion\nC,8,0,0,8,sound\ntotal,23,15,19,8,2\ncash,8\n";

pub const THREE_SCENARIOS: &str =
    "[[scenario]]\nname = \"A loses all\"\n[[scenario.loss]]\nbank = \"A\"\n\
amount = 7\n\n[[scenario]]\nname = \"A loses more than it has\"\n[[scenario.loss]]\nbank = \"A\"\n\
amount = 20\n\n[[scenario]]\nname = \"half\"\ncut = 500\n";

// What is left of the chain where A has nothing, twice, and where half the cash is cut.
const THREE_LEFT: &str = "scenario,A loses all\n\
debtor,creditor,class,claim,paid\nA,B,1,10,0\nB,C,1,9,1\n\
bank,estate,paid,owed,equity,state\nA,0,0,10,0,fundamental\nB,1,1,9,0,contagion\n\
C,1,0,0,1,sound\ntotal,2,1,19,1,2\ncash,1\n\n\
scenario,A loses more than it has\ndebtor,creditor,class,claim,paid\nA,B,1,10,0\nB,C,1,9,1\n\
bank,estate,paid,owed,equity,state\nA,0,0,10,0,fundamental\nB,1,1,9,0,contagion\n\
C,1,0,0,1,sound\ntotal,2,1,19,1,2\ncash,1\n\n\
scenario,half\ndebtor,creditor,class,claim,paid\nA,B,1,10,4\nB,C,1,9,5\n\
bank,estate,paid,owed,equity,state\nA,4,4,10,0,fundamental\nB,5,5,9,0,contagion\n\
C,5,0,0,5,sound\ntotal,14,9,19,5,2\ncash,5\n";

// The chain as it is, five times.
const FIVE_LEFT: &str = "scenario,1\n\
debtor,creditor,class,claim,paid\nA,B,1,10,7\nB,C,1,9,8\n\
bank,estate,paid,owed,equity,state\nA,7,7,10,0,fundamental\n\
B,8,8,9,0,contagion\nC,8,0,0,8,sound\ntotal,23,15,19,8,2\ncash,8\n\n\
scenario,2\ndebtor,creditor,class,claim,paid\nA,B,1,10,7\nB,C,1,9,8\n\
bank,estate,paid,owed,equity,state\nA,7,7,10,0,fundamental\n\
B,8,8,9,0,contagion\nC,8,0,0,8,sound\ntotal,23,15,19,8,2\ncash,8\n\n\
scenario,3\ndebtor,creditor,class,claim,paid\nA,B,1,10,7\nB,C,1,9,8\n\
bank,estate,paid,owed,equity,state\nA,7,7,10,0,fundamental\n\
B,8,8,9,0,contagion\nC,8,0,0,8,sound\ntotal,23,15,19,8,2\ncash,8\n\n\
scenario,4\ndebtor,creditor,class,claim,paid\nA,B,1,10,7\nB,C,1,9,8\n\
bank,estate,paid,owed,equity,state\nA,7,7,10,0,fundamental\n\
B,8,8,9,0,contagion\nC,8,0,0,8,sound\ntotal,23,15,19,8,2\ncash,8\n\n\
scenario,5\ndebtor,creditor,class,claim,paid\nA,B,1,10,7\nB,C,1,9,8\n\
bank,estate,paid,owed,equity,state\nA,7,7,10,0,fundamental\n\
B,8,8,9,0,contagion\nC,8,0,0,8,sound\ntotal,23,15,19,8,2\ncash,8\n";

const ON_THE_CHAIN: [Done<'static>; 11] = [
    (CHECK, CHAIN_BANKS, CHAIN_DEBTS, CHAIN_CHECKED),
    (CHECK, CHAIN_BANKS_2, CHAIN_DEBTS, CHAIN_CHECKED),
    (CHECK, CHAIN_OUTSIDE, CHAIN_DEBTS, CHAIN_OUTSIDE_CHECKED),
    (CLEAR, CHAIN_BANKS, CHAIN_DEBTS, CHAIN_TEXT),
    (CLEAR, CHAIN_BANKS_2, CHAIN_DEBTS, CHAIN_TEXT),
    (CENTRAL, CHAIN_BANKS, CHAIN_DEBTS, CHAIN_TEXT),
    // Paying all would clear as well.
    (CENTRAL, TWO_BANKS, BOTH_OWE_TEN, NOTHING_PAID),
    (CONVERT, CHAIN_BANKS, CHAIN_DEBTS, CHAIN_BANKS_2),
    (CONVERT, CHAIN_BANKS_2, CHAIN_DEBTS, CHAIN_BANKS_2),
    (CONVERT, CHAIN_OUTSIDE, CHAIN_DEBTS, CHAIN_OUTSIDE),
    // Options before the task, and with their values in one word.
    (
        "--debts=d.csv --banks b.csv clear",
        CHAIN_BANKS,
        CHAIN_DEBTS,
        CHAIN_TEXT,
    ),
];

#[test]
fn tasks_on_the_chain(rt: HostRuntime) -> Result<(), Fail> {
    all_done(&rt, rt.alloc(), &ON_THE_CHAIN)
}

// Clearing by one worker with one sweep a round, and with seven; the journal is shown.
const BY_ONE: &str = "clear --banks b.csv --debts d.csv --workers 1 --sweeps 1 --show journal";

const BY_ONE_IN_SEVEN: &str =
    "clear --banks b.csv --debts d.csv --workers 1 --sweeps 7 --show journal";

const SHOWN: [Done<'static>; 4] = [
    (CLEAR_BOTH, CHAIN_BANKS, CHAIN_DEBTS, CHAIN_BOTH),
    // One unit goes round five times, once in a sweep, and the last round raises nothing.
    (
        BY_ONE,
        RING_BANKS,
        RING_DEBTS,
        "stamp,debtor,creditor,class,to\n1,A,B,1,1\n2,B,A,1,1\n3,A,B,1,2\n4,B,A,1,2\n\
         5,A,B,1,3\n6,B,A,1,3\n7,A,B,1,4\n8,B,A,1,4\n9,A,B,1,5\n10,B,A,1,5\nrounds,6\n",
    ),
    (
        BY_ONE_IN_SEVEN,
        RING_BANKS,
        RING_DEBTS,
        "stamp,debtor,creditor,class,to\n1,A,B,1,1\n2,B,A,1,1\n3,A,B,1,2\n4,B,A,1,2\n\
         5,A,B,1,3\n6,B,A,1,3\n7,A,B,1,4\n8,B,A,1,4\n9,A,B,1,5\n10,B,A,1,5\nrounds,2\n",
    ),
    (
        "clear --banks b.csv --debts d.csv --show both",
        NO_BANKS,
        NO_DEBTS,
        "debtor,creditor,class,claim,paid\n\nstamp,debtor,creditor,class,to\nrounds,1\n",
    ),
];

#[test]
fn journals_are_shown(rt: HostRuntime) -> Result<(), Fail> {
    all_done(&rt, rt.alloc(), &SHOWN)
}

// Runs the ring by a plan.
fn pays<R: Threads + Sync + Abort>(rt: &R, alloc: Global, plan: &str) -> Result<(), Fail> {
    let paid = "debtor,creditor,class,claim,paid\nA,B,1,5,5\nB,A,1,5,5\n";
    let line = format!(in alloc; "{CLEAR} {plan}")?;
    check(
        rt,
        alloc,
        line.as_str(),
        [RING_BANKS, RING_DEBTS, ""],
        (0, paid, ""),
    )
}

const PLANS: [&str; 6] = [
    "--workers 1 --sweeps 1",
    "--workers 1 --sweeps 7",
    "--workers 2 --sweeps 1",
    "--workers 2 --sweeps 7",
    "--workers 64 --sweeps 1",
    "--workers 64 --sweeps 7",
];

#[test]
fn every_plan_pays_the_same(rt: HostRuntime) -> Result<(), Fail> {
    for plan in &PLANS {
        pays(&rt, rt.alloc(), plan)?;
    }
    Ok(())
}

const SUMS: &str = "banks,200\ndebts,1979\nowed,499394\ncash,206031\npaid,453789\ndefaults,58\n\
equity,206031\n";

const GENERATED: [Done<'static>; 3] = [
    (
        "gen --seed 1 --size 200 --tries 2000 --workers 1",
        "",
        "",
        SUMS,
    ),
    (
        "gen --seed 1 --size 200 --tries 2000 --workers 8",
        "",
        "",
        SUMS,
    ),
    // One bank owes itself nothing, however often a debt is drawn.
    (
        "gen --seed 1 --size 1 --tries 20",
        "",
        "",
        "banks,1\ndebts,0\nowed,0\ncash,737\npaid,0\ndefaults,0\nequity,737\n",
    ),
];

#[test]
fn a_generated_network_is_summed_up(rt: HostRuntime) -> Result<(), Fail> {
    // There are no files, and so no limits for them.
    for (line, banks, debts, text) in &GENERATED {
        check(&rt, rt.alloc(), line, [banks, debts, ""], (0, text, ""))?;
    }
    Ok(())
}

// A journal on the chain after its header, and its verdict.
const UNLAWFUL: [(&str, &str); 7] = [
    ("1,B,C,1,8\n1,A,B,1,7\n", "unlawful,1,0,1\n"),
    ("1,A,B,1,7\n", "unfinished,B\n"),
    ("", "unfinished,A\n"),
    ("2,A,B,1,7\n1,B,C,1,8\n", "falls,2,2,1\n"),
    ("1,A,B,1,7\n2,A,B,1,7\n", "unlawful,2,7,7\n"),
    ("1,A,B,1,11\n", "unlawful,1,0,7\n"),
    ("1,A,B,1,0\n", "unlawful,1,0,7\n"),
];

// A banks file of the chain, a journal that is lawful and complete, and its verdict.
const LAWFUL: [(&str, &str, &str); 3] = [
    (
        CHAIN_BANKS,
        "1,A,B,1,7\n2,B,C,1,8\nrounds,2\n",
        "lawful,2\n",
    ),
    // The second form of the banks file means the same.
    (
        CHAIN_BANKS_2,
        "1,A,B,1,7\n2,B,C,1,8\nrounds,2\n",
        "lawful,2\n",
    ),
    (
        CHAIN_BANKS,
        "0,A,B,1,3\n0,A,B,1,7\n0,B,C,1,8\n",
        "lawful,3\n",
    ),
];

// Replays a journal on the chain, which is given after its header.
fn replays<R: Threads + Sync + Abort>(
    rt: &R,
    alloc: Global,
    banks: &str,
    raises: &str,
    ending: (u8, &str, &str),
) -> Result<(), Fail> {
    let journal = format!(in alloc; "stamp,debtor,creditor,class,to\n{raises}")?;
    let texts = [banks, CHAIN_DEBTS, journal.as_str()];
    check(rt, alloc, REPLAY, texts, ending)
}

// Replays a journal that is lawful and complete.
fn is_lawful<R: Threads + Sync + Abort>(
    rt: &R,
    alloc: Global,
    (banks, raises, verdict): (&str, &str, &str),
) -> Result<(), Fail> {
    let text = format!(in alloc; "{verdict}\n{CHAIN_TEXT}")?;
    replays(rt, alloc, banks, raises, (0, text.as_str(), ""))
}

#[test]
fn journals_are_judged(rt: HostRuntime) -> Result<(), Fail> {
    let told = "clearing: the journal is not a lawful complete history\n";
    for (raises, verdict) in &UNLAWFUL {
        replays(&rt, rt.alloc(), CHAIN_BANKS, raises, (7, verdict, told))?;
    }
    for row in &LAWFUL {
        is_lawful(&rt, rt.alloc(), *row)?;
    }
    Ok(())
}

const DEFAULT_TEXTS: [Done<'static>; 7] = [
    (DEFAULTS, CHAIN_BANKS, CHAIN_DEBTS, CHAIN_DEFAULTS),
    (
        DEFAULTS,
        twelve_banks::BANKS,
        twelve_banks::DEBTS,
        twelve_banks::DEFAULTS,
    ),
    (
        DEFAULTS,
        TWO_BANKS,
        BOTH_OWE_TEN,
        "bank,estate,paid,owed,equity,state\nA,0,0,10,0,contagion\nB,0,0,10,0,contagion\n\
         total,0,0,20,0,2\ncash,0\n",
    ),
    (
        DEFAULTS,
        NO_BANKS,
        NO_DEBTS,
        "bank,estate,paid,owed,equity,state\ntotal,0,0,0,0,0\ncash,0\n",
    ),
    // What is owed outside comes first, and has a column of its own.
    (
        DEFAULTS,
        CHAIN_OUTSIDE,
        CHAIN_DEBTS,
        "bank,estate,outside_paid,paid,owed,equity,state\nA,7,3,4,10,0,fundamental\n\
         B,5,0,5,9,0,contagion\nC,5,2,0,0,3,sound\ntotal,17,5,9,19,3,2\ncash,8\n",
    ),
    (
        DEFAULTS,
        "name,cash,rule,outside\nA,7,order,8\nB,1,order,0\nC,0,order,2\n",
        CHAIN_DEBTS,
        "bank,estate,outside_paid,paid,owed,equity,state\nA,7,7,0,10,0,fundamental\n\
         B,1,0,1,9,0,contagion\nC,1,1,0,0,0,contagion\ntotal,9,8,1,19,0,3\ncash,8\n",
    ),
    // A bank without debts that owes outsiders more than it has.
    (
        DEFAULTS,
        "name,cash,rule,outside\nA,3,equal,5\n",
        NO_DEBTS,
        "bank,estate,outside_paid,paid,owed,equity,state\nA,3,3,0,0,0,fundamental\n\
         total,3,3,0,0,0,1\ncash,3\n",
    ),
];

#[test]
fn who_defaults_and_why(rt: HostRuntime) -> Result<(), Fail> {
    all_done(&rt, rt.alloc(), &DEFAULT_TEXTS)
}

const SCENARIOS: [(&str, &str); 3] = [
    (THREE_SCENARIOS, THREE_LEFT),
    (
        "scenario = [{name=\"1\"},{name=\"2\"},{name=\"3\"},{name=\"4\"},{name=\"5\"}]",
        FIVE_LEFT,
    ),
    // A file of no bytes has no scenarios.
    ("", ""),
];

#[test]
fn scenarios_in_their_order(rt: HostRuntime) -> Result<(), Fail> {
    let alloc = rt.alloc();
    for (scenarios, text) in &SCENARIOS {
        let texts = [CHAIN_BANKS, CHAIN_DEBTS, scenarios];
        check(&rt, alloc, STRESS, texts, (0, text, ""))?;
    }
    let unknown = "[[scenario]]\nname = \"1\"\n[[scenario]]\nname = \"2\"\n\
                   [[scenario.loss]]\nbank = \"X\"\namount = 1\n";
    check(
        &rt,
        alloc,
        STRESS,
        [CHAIN_BANKS, CHAIN_DEBTS, unknown],
        (4, "", "clearing: scenarios row 2: unknown bank (8)\n"),
    )
}

const BOUNDS_TEXTS: [Done<'static>; 2] = [
    (
        BOUNDS,
        TWO_BANKS,
        BOTH_OWE_TEN,
        "debtor,creditor,class,claim,least,greatest\nA,B,1,10,0,10\nB,A,1,10,0,10\n\n\
         bank,wave,gridlock,equity\nA,0,yes,0\nB,0,yes,0\n",
    ),
    (
        BOUNDS,
        CHAIN_BANKS,
        CHAIN_DEBTS,
        "debtor,creditor,class,claim,least,greatest\nA,B,1,10,7,7\nB,C,1,9,8,8\n\n\
         bank,wave,gridlock,equity\nA,1,no,0\nB,2,no,0\nC,0,no,8\n",
    ),
];

#[test]
fn bounds_of_what_clears(rt: HostRuntime) -> Result<(), Fail> {
    all_done(&rt, rt.alloc(), &BOUNDS_TEXTS)
}

const CANCELLED: [Done<'static>; 2] = [
    (
        COMPRESS,
        CHAIN_BANKS,
        "debtor,creditor,class,claim\nA,B,1,5\nB,C,1,3\nC,A,1,4\n",
        "debtor,creditor,class,claim\nA,B,1,2\nB,C,1,0\nC,A,1,1\n\n\
         class,bank,rank\n1,A,1\n1,B,2\n1,C,0\ncancelled,9\n",
    ),
    (
        COMPRESS,
        TWO_BANKS,
        BOTH_OWE_TEN,
        "debtor,creditor,class,claim\nA,B,1,0\nB,A,1,0\n\n\
         class,bank,rank\n1,A,0\n1,B,0\ncancelled,20\n",
    ),
];

#[test]
fn cycles_are_cancelled(rt: HostRuntime) -> Result<(), Fail> {
    all_done(&rt, rt.alloc(), &CANCELLED)
}

// Clearing where half of an estate is kept on default, and all of it.
const COSTS_OF_HALF: &str = "costs --banks b.csv --debts d.csv --keep 500";

const NO_COSTS: &str = "costs --banks b.csv --debts d.csv --keep 1000";

const COSTS: [Done<'static>; 3] = [
    (
        COSTS_OF_HALF,
        CHAIN_BANKS,
        CHAIN_DEBTS,
        "debtor,creditor,class,claim,paid\nA,B,1,10,3\nB,C,1,9,2\n\n\
         bank,estate,lost,outside_paid,paid,equity,state\nA,7,4,0,3,0,fundamental\n\
         B,4,2,0,2,0,contagion\nC,2,0,0,0,2,sound\ntotal,13,6,0,5,2,2\ncash,8\n",
    ),
    // Paying 5 and 5 would clear as well.
    (
        COSTS_OF_HALF,
        RING_BANKS,
        RING_DEBTS,
        "debtor,creditor,class,claim,paid\nA,B,1,5,0\nB,A,1,5,0\n\n\
         bank,estate,lost,outside_paid,paid,equity,state\nA,1,1,0,0,0,contagion\n\
         B,0,0,0,0,0,contagion\ntotal,1,1,0,0,0,2\ncash,1\n",
    ),
    (
        NO_COSTS,
        CHAIN_BANKS,
        CHAIN_DEBTS,
        "debtor,creditor,class,claim,paid\nA,B,1,10,7\nB,C,1,9,8\n\n\
         bank,estate,lost,outside_paid,paid,equity,state\nA,7,0,0,7,0,fundamental\n\
         B,8,0,0,8,0,contagion\nC,8,0,0,0,8,sound\ntotal,23,0,0,15,8,2\ncash,8\n",
    ),
];

#[test]
fn default_costs(rt: HostRuntime) -> Result<(), Fail> {
    all_done(&rt, rt.alloc(), &COSTS)
}

const SAVE_A: &str = "rescue --banks b.csv --debts d.csv --bank A";

const SAVE_B: &str = "rescue --banks b.csv --debts d.csv --bank B";

const SAVE_C: &str = "rescue --banks b.csv --debts d.csv --bank C";

const SAVE_X: &str = "rescue --banks b.csv --debts d.csv --bank X";

const SAVED: [Done<'static>; 5] = [
    (
        SAVE_B,
        CHAIN_BANKS,
        CHAIN_DEBTS,
        "rescue,B,1\nshort,1\n\ndebtor,creditor,class,claim,paid\nA,B,1,10,7\nB,C,1,9,9\n",
    ),
    (
        SAVE_A,
        TWO_BANKS,
        BOTH_OWE_TEN,
        "rescue,A,1\nshort,10\n\ndebtor,creditor,class,claim,paid\nA,B,1,10,10\nB,A,1,10,10\n",
    ),
    (
        SAVE_C,
        CHAIN_BANKS,
        CHAIN_DEBTS,
        "rescue,C,0\nshort,0\n\ndebtor,creditor,class,claim,paid\nA,B,1,10,7\nB,C,1,9,8\n",
    ),
    // Banks without a unit, to which nobody owes anything.
    (
        SAVE_A,
        "name,cash,rule,outside\nA,0,order,6000000\nB,0,order,0\n",
        "debtor,creditor,class,claim\nA,B,1,1000000\n",
        "rescue,A,7000000\nshort,1\n\ndebtor,creditor,class,claim,paid\nA,B,1,1000000,1000000\n",
    ),
    (
        SAVE_B,
        "name,cash,rule,outside\nB,0,equal,1000000000\n",
        NO_DEBTS,
        "rescue,B,1000000000\nshort,1\n\ndebtor,creditor,class,claim,paid\n",
    ),
];

#[test]
fn banks_are_saved(rt: HostRuntime) -> Result<(), Fail> {
    all_done(&rt, rt.alloc(), &SAVED)?;
    check(
        &rt,
        rt.alloc(),
        SAVE_X,
        [CHAIN_BANKS, CHAIN_DEBTS, ""],
        (4, "", "clearing: words row 0: unknown bank (8)\n"),
    )
}
