//! Networks at the standard limits, at the wide ones and past them.

use super::{CHECK, REPLAY, ends, runs_on, shelf};
use clr_edge::OpenGate;
use std::alloc::Global;
use std::process::Abort;
use std::test::Fail;
use std::thread::Threads;

const CHECK_WIDE: &str = "check --banks b.csv --debts d.csv --limits wide";

// A banks file of so many banks, each with a unit of cash.
fn banks_file(alloc: Global, banks: u32) -> Result<String, Fail> {
    let mut text = String::new(alloc);
    text.push_str("name,cash,rule\n")?;
    for i in 0..banks {
        let line = format!(in alloc; "B{i},1,order\n")?;
        text.push_str(line.as_str())?;
    }
    Ok(text)
}

// A debts file of so many debts of such a claim, among banks of numbers up to 999.
fn debts_file(alloc: Global, debts: u32, claim: u32) -> Result<String, Fail> {
    let mut text = String::new(alloc);
    text.push_str("debtor,creditor,class,claim\n")?;
    for k in 0..debts {
        let (debtor, creditor) = (k / 999, 999 - k % 999);
        let other = if creditor > debtor {
            creditor
        } else {
            creditor - 1
        };
        let line = format!(in alloc; "B{debtor},B{other},1,{claim}\n")?;
        text.push_str(line.as_str())?;
    }
    Ok(text)
}

// A line; how many banks, and how many debts of which claim; the lines of further debts; and the code
// and message.
type Sized<'a> = (&'a str, u32, (u32, u32), &'a str, (u8, &'a str));

const SIZES: [Sized<'static>; 10] = [
    (CHECK, 1000, (20_000, 1), "", (0, "")),
    (
        CHECK,
        1001,
        (0, 1),
        "",
        (4, "clearing: banks row 1001: too many (12)\n"),
    ),
    (CHECK_WIDE, 1001, (0, 1), "", (0, "")),
    (
        CHECK_WIDE,
        10_001,
        (0, 1),
        "",
        (4, "clearing: banks row 10001: too many (12)\n"),
    ),
    (
        CHECK,
        1000,
        (20_001, 1),
        "",
        (4, "clearing: debts row 20001: too many (12)\n"),
    ),
    (CHECK_WIDE, 1000, (20_001, 1), "", (0, "")),
    // The most that may be owed, and a debt of one unit more.
    (
        CHECK,
        1000,
        (10, 1_000_000),
        "B1,B0,1,1\n",
        (4, "clearing: debts row 11: total (13)\n"),
    ),
    (CHECK_WIDE, 1000, (10, 1_000_000), "B1,B0,1,1\n", (0, "")),
    (CHECK_WIDE, 1000, (25, 1_000_000), "B1,B0,1,0\n", (0, "")),
    (
        CHECK_WIDE,
        1000,
        (25, 1_000_000),
        "B1,B0,1,1\n",
        (4, "clearing: debts row 26: total (13)\n"),
    ),
];

// Runs a line on files of these sizes, and compares its code and message.
fn is_of_size<R: Threads + Sync + Abort>(
    rt: &R,
    alloc: Global,
    (line, banks, (debts, claim), more, (code, message)): Sized<'_>,
) -> Result<(), Fail> {
    let banks = banks_file(alloc, banks)?;
    let mut debts = debts_file(alloc, debts, claim)?;
    debts.push_str(more)?;
    let mut files = shelf(alloc, banks.as_str(), debts.as_str())?;
    let told = (1000, code, message);
    runs_on(rt, alloc, line, &mut files, 1_000_000, &OpenGate, told)?;
    Ok(())
}

#[test]
fn networks_at_their_limits(rt: HostRuntime) -> Result<(), Fail> {
    for row in &SIZES {
        is_of_size(&rt, rt.alloc(), *row)?;
    }
    Ok(())
}

const SHOW_WIDE: &str =
    "clear --banks b.csv --debts d.csv --workers 1 --show journal --limits wide";

const JOURNAL: &str = "stamp,debtor,creditor,class,to\n1,B0,B999,1,1\nrounds,2\n";

const REPLAYED: &str =
    "lawful,1\n\ndebtor,creditor,class,claim,paid\nB0,B999,1,1,1\nB0,B998,1,1,0\n";

// The journal that is shown of a network of more banks than the standard limits allow is read by the
// wide ones.
#[test]
fn a_journal_of_a_wide_network_is_read_back(rt: HostRuntime) -> Result<(), Fail> {
    let alloc = rt.alloc();
    let banks = banks_file(alloc, 1001)?;
    let debts = debts_file(alloc, 2, 1)?;
    let mut files = shelf(alloc, banks.as_str(), debts.as_str())?;
    ends(&rt, alloc, SHOW_WIDE, &mut files, (0, JOURNAL, ""))?;
    files.add("j.csv", JOURNAL.as_bytes())?;
    let wide = format!(in alloc; "{REPLAY} --limits wide")?;
    ends(&rt, alloc, wide.as_str(), &mut files, (0, REPLAYED, ""))?;
    let told = "clearing: banks row 1001: too many (12)\n";
    ends(&rt, alloc, REPLAY, &mut files, (4, "", told))
}
