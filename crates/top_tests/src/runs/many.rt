//! The tasks that tell of many banks, cuts or scenarios at once: the text that each writes, byte for
//! byte. Fifteen banks and eleven scenarios are more than a share of one thread.

use super::tasks::{NO_DEBTS, RING_BANKS, RING_DEBTS, THREE_SCENARIOS};
use super::{
    CHAIN_BANKS, CHAIN_DEBTS, CHAIN_OUTSIDE, Done, TWO_BANKS, all_done, check, fifteen_banks,
    twelve_banks,
};
use std::test::Fail;

const BREAKING: &str = "breaking --banks b.csv --debts d.csv";

const IMPACT: &str = "impact --banks b.csv --debts d.csv";

const RESCUES: &str = "rescues --banks b.csv --debts d.csv";

const OUTCOMES: &str = "outcomes --banks b.csv --debts d.csv --scenarios s.toml";

const HALF_KEPT: &str = "cost-bounds --banks b.csv --debts d.csv --keep 500";

const ALL_KEPT: &str = "cost-bounds --banks b.csv --debts d.csv --keep 1000";

const NO_BANKS: &str = "name,cash,rule\n";

const THIRTY_EACH: &str = "name,cash,rule\nA,30,order\nB,30,order\n";

const OWE_HUNDRED: &str = "debtor,creditor,class,claim\nA,B,1,100\nB,A,1,100\n";

// One unit among five banks that owe in a ring.
const FIVE_BANKS: &str = "name,cash,rule\nA,1,order\nB,0,order\nC,0,order\nD,0,order\nE,0,order\n";

const RING_OF_FIVE: &str =
    "debtor,creditor,class,claim\nA,B,1,4\nB,C,1,4\nC,D,1,4\nD,E,1,4\nE,A,1,4\n";

const BROKEN: [Done<'static>; 6] = [
    (
        BREAKING,
        CHAIN_BANKS,
        CHAIN_DEBTS,
        "bank,cut,state\nA,0,fundamental\nB,0,contagion\nC,1001,sound\n",
    ),
    (
        BREAKING,
        CHAIN_OUTSIDE,
        CHAIN_DEBTS,
        "bank,cut,state\nA,0,fundamental\nB,0,contagion\nC,572,contagion\n",
    ),
    // Only a loss of all cash breaks them.
    (
        BREAKING,
        THIRTY_EACH,
        OWE_HUNDRED,
        "bank,cut,state\nA,1000,contagion\nB,1000,contagion\n",
    ),
    (
        BREAKING,
        twelve_banks::BANKS,
        twelve_banks::DEBTS,
        twelve_banks::BREAKING,
    ),
    (
        BREAKING,
        fifteen_banks::BANKS,
        fifteen_banks::DEBTS,
        fifteen_banks::BREAKING,
    ),
    (BREAKING, NO_BANKS, NO_DEBTS, "bank,cut,state\n"),
];

#[test]
fn the_least_cut_that_breaks_each_bank(rt: HostRuntime) -> Result<(), Fail> {
    all_done(&rt, rt.alloc(), &BROKEN)
}

const RUINED: [Done<'static>; 6] = [
    (
        IMPACT,
        CHAIN_BANKS,
        CHAIN_DEBTS,
        "bank,cash,own,others,falls\nA,7,0,7,0\nB,1,0,1,0\nC,0,0,0,0\n\nbank,of,lost,falls\n\
        A,C,7,no\nB,C,1,no\n",
    ),
    // What is paid outside is kept too.
    (
        IMPACT,
        CHAIN_OUTSIDE,
        CHAIN_DEBTS,
        "bank,cash,own,others,falls\nA,7,3,4,1\nB,1,0,1,0\nC,0,0,0,0\n\nbank,of,lost,falls\n\
        A,A,3,no\nA,C,4,yes\nB,C,1,no\n",
    ),
    // Without its unit all of a ring fall, though they lose nothing by it.
    (
        IMPACT,
        FIVE_BANKS,
        RING_OF_FIVE,
        "bank,cash,own,others,falls\nA,1,1,0,4\nB,0,0,0,0\nC,0,0,0,0\nD,0,0,0,0\nE,0,0,0,0\n\n\
        bank,of,lost,falls\nA,A,1,yes\nA,B,0,yes\nA,C,0,yes\nA,D,0,yes\nA,E,0,yes\n",
    ),
    (
        IMPACT,
        twelve_banks::BANKS,
        twelve_banks::DEBTS,
        twelve_banks::IMPACT,
    ),
    (
        IMPACT,
        fifteen_banks::BANKS,
        fifteen_banks::DEBTS,
        fifteen_banks::IMPACT,
    ),
    (
        IMPACT,
        NO_BANKS,
        NO_DEBTS,
        "bank,cash,own,others,falls\n\nbank,of,lost,falls\n",
    ),
];

#[test]
fn who_would_hurt_whom(rt: HostRuntime) -> Result<(), Fail> {
    all_done(&rt, rt.alloc(), &RUINED)
}

const SAVED: [Done<'static>; 7] = [
    (
        RESCUES,
        CHAIN_BANKS,
        CHAIN_DEBTS,
        "bank,added,short,also_saved,still_short\nA,3,1,1,0\nB,1,1,0,1\n\nbank,saves\nA,B\n",
    ),
    (
        RESCUES,
        CHAIN_OUTSIDE,
        CHAIN_DEBTS,
        "bank,added,short,also_saved,still_short\nA,6,1,1,0\nB,4,1,0,1\n\nbank,saves\nA,B\n",
    ),
    // One unit goes round until all have paid.
    (
        RESCUES,
        "name,cash,rule\nA,0,order\nB,0,order\nC,0,order\n",
        "debtor,creditor,class,claim\nA,B,1,100\nB,C,1,100\nC,A,1,100\n",
        "bank,added,short,also_saved,still_short\nA,1,100,2,0\nB,1,100,2,0\nC,1,100,2,0\n\n\
        bank,saves\nA,B\nA,C\nB,A\nB,C\nC,A\nC,B\n",
    ),
    (
        RESCUES,
        twelve_banks::BANKS,
        twelve_banks::DEBTS,
        twelve_banks::RESCUES,
    ),
    (
        RESCUES,
        fifteen_banks::POOR_BANKS,
        fifteen_banks::DEBTS,
        fifteen_banks::POOR_RESCUES,
    ),
    // No bank is in default.
    (
        RESCUES,
        TWO_BANKS,
        NO_DEBTS,
        "bank,added,short,also_saved,still_short\n\nbank,saves\n",
    ),
    (
        RESCUES,
        RING_BANKS,
        RING_DEBTS,
        "bank,added,short,also_saved,still_short\n\nbank,saves\n",
    ),
];

#[test]
fn what_saves_each_bank_in_default(rt: HostRuntime) -> Result<(), Fail> {
    all_done(&rt, rt.alloc(), &SAVED)
}

// The three files, and the text.
const SUMMED: [([&str; 3], &str); 4] = [
    (
        [CHAIN_BANKS, CHAIN_DEBTS, THREE_SCENARIOS],
        "scenario,cash,paid,outside_paid,equity,defaults,fundamental\nA loses all,1,1,0,1,2,1\n\
        A loses more than it has,1,1,0,1,2,1\nhalf,5,9,0,5,2,1\n\nbank,defaults,fundamental\n\
        A,3,3\nB,3,0\nC,0,0\n",
    ),
    (
        [
            twelve_banks::BANKS,
            twelve_banks::DEBTS,
            twelve_banks::SCENARIOS,
        ],
        twelve_banks::OUTCOMES,
    ),
    (
        [
            fifteen_banks::BANKS,
            fifteen_banks::DEBTS,
            fifteen_banks::SCENARIOS,
        ],
        fifteen_banks::OUTCOMES,
    ),
    // No scenario.
    (
        [CHAIN_BANKS, CHAIN_DEBTS, ""],
        "scenario,cash,paid,outside_paid,equity,defaults,fundamental\n\n\
         bank,defaults,fundamental\nA,0,0\nB,0,0\nC,0,0\n",
    ),
];

// Two scenarios, of which the second takes from a bank that there is not.
const UNKNOWN_BANK: &str = "[[scenario]]\nname = \"1\"\n[[scenario]]\nname = \"2\"\n\
[[scenario.loss]]\nbank = \"X\"\namount = 1\n";

// The three files, and what is told of the first fault in them.
const SCENARIO_FAULTS: [([&str; 3], &str); 4] = [
    (
        [CHAIN_BANKS, CHAIN_DEBTS, UNKNOWN_BANK],
        "clearing: scenarios row 2: unknown bank (8)\n",
    ),
    (
        [CHAIN_BANKS, CHAIN_DEBTS, "scenario = 1"],
        "clearing: scenarios row 0: shape (17)\n",
    ),
    // The debts come before the scenarios, and the banks before both.
    (
        [CHAIN_BANKS, "", "scenario = 1"],
        "clearing: debts row 0: header (1)\n",
    ),
    (
        ["", "", "scenario = 1"],
        "clearing: banks row 0: header (1)\n",
    ),
];

#[test]
fn scenarios_in_sums(rt: HostRuntime) -> Result<(), Fail> {
    let alloc = rt.alloc();
    for (texts, text) in &SUMMED {
        check(&rt, alloc, OUTCOMES, *texts, (0, text, ""))?;
    }
    for (texts, message) in &SCENARIO_FAULTS {
        check(&rt, alloc, OUTCOMES, *texts, (4, "", message))?;
    }
    Ok(())
}

const BOTH_ENDS: [Done<'static>; 5] = [
    (
        HALF_KEPT,
        CHAIN_BANKS,
        CHAIN_DEBTS,
        "debtor,creditor,class,claim,least,greatest\nA,B,1,10,3,3\nB,C,1,9,2,2\n\n\
        bank,lost_at_least,equity_at_least,state_at_least,lost_at_greatest,equity_at_greatest,state_at_greatest\n\
        A,4,0,fundamental,4,0,fundamental\nB,2,0,contagion,2,0,contagion\n\
        C,0,2,sound,0,2,sound\n",
    ),
    (
        HALF_KEPT,
        THIRTY_EACH,
        OWE_HUNDRED,
        "debtor,creditor,class,claim,least,greatest\nA,B,1,100,29,100\nB,A,1,100,29,100\n\n\
        bank,lost_at_least,equity_at_least,state_at_least,lost_at_greatest,equity_at_greatest,state_at_greatest\n\
        A,30,0,contagion,0,30,sound\nB,30,0,contagion,0,30,sound\n",
    ),
    (
        HALF_KEPT,
        FIVE_BANKS,
        RING_OF_FIVE,
        "debtor,creditor,class,claim,least,greatest\nA,B,1,4,0,4\nB,C,1,4,0,4\nC,D,1,4,0,4\n\
        D,E,1,4,0,4\nE,A,1,4,0,4\n\n\
        bank,lost_at_least,equity_at_least,state_at_least,lost_at_greatest,equity_at_greatest,state_at_greatest\n\
        A,1,0,contagion,0,1,sound\nB,0,0,contagion,0,0,sound\nC,0,0,contagion,0,0,sound\n\
        D,0,0,contagion,0,0,sound\nE,0,0,contagion,0,0,sound\n",
    ),
    // Where all is kept, a default costs nothing.
    (
        ALL_KEPT,
        TWO_BANKS,
        OWE_HUNDRED,
        "debtor,creditor,class,claim,least,greatest\nA,B,1,100,0,100\nB,A,1,100,0,100\n\n\
        bank,lost_at_least,equity_at_least,state_at_least,lost_at_greatest,equity_at_greatest,state_at_greatest\n\
        A,0,0,contagion,0,0,sound\nB,0,0,contagion,0,0,sound\n",
    ),
    (
        ALL_KEPT,
        twelve_banks::BANKS,
        twelve_banks::DEBTS,
        twelve_banks::COST_BOUNDS,
    ),
];

#[test]
fn both_ends_where_default_costs(rt: HostRuntime) -> Result<(), Fail> {
    all_done(&rt, rt.alloc(), &BOTH_ENDS)
}
