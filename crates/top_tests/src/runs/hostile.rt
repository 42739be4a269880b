//! Faults at every fetch and at every put, and hostile journals.

use super::{
    CHAIN_BANKS, CHAIN_BOTH, CHAIN_DEBTS, CHAIN_TEXT, CLEAR, CLEAR_BOTH, REPLAY, STRESS, check,
    ends, runs_on, same, shelf, tells,
};
use clr_edge::{MemShelf, MemSink, OpenGate};
use std::alloc::Global;
use std::process::Abort;
use std::test::Fail;
use std::thread::Threads;

// Runs a line whose output takes one byte a put, and so many before it fails.
fn puts<R: Threads + Sync + Abort>(
    rt: &R,
    alloc: Global,
    line: &str,
    text: &str,
    before: usize,
) -> Result<(), Fail> {
    let mut files = shelf(alloc, CHAIN_BANKS, CHAIN_DEBTS)?;
    let mut out = MemSink::with_room(alloc, 200, 1, (before as u64).saturating_add(1))?;
    let ending = if before == text.len() {
        (100, 0, "")
    } else {
        (100, 5, "clearing: cannot write the output\n")
    };
    tells(rt, alloc, line, &mut files, &mut out, &OpenGate, ending)?;
    same(
        rt,
        line,
        out.written(),
        text.as_bytes().get(..before).unwrap_or(b""),
    );
    Ok(())
}

fn puts_all<R: Threads + Sync + Abort>(
    rt: &R,
    alloc: Global,
    line: &str,
    text: &str,
) -> Result<(), Fail> {
    for before in 0..text.len() + 1 {
        puts(rt, alloc, line, text, before)?;
    }
    Ok(())
}

#[test]
fn every_put_may_fail(rt: HostRuntime) -> Result<(), Fail> {
    puts_all(&rt, rt.alloc(), CLEAR, CHAIN_TEXT)?;
    puts_all(&rt, rt.alloc(), CLEAR_BOTH, CHAIN_BOTH)
}

// The files of each line below, of which one fetch fails.
fn files_failing(alloc: Global, fail_at: u64) -> Result<MemShelf, Fail> {
    let mut files = shelf(alloc, CHAIN_BANKS, CHAIN_DEBTS)?;
    files.add(
        "j.csv",
        b"stamp,debtor,creditor,class,to\n1,A,B,1,7\n2,B,C,1,8\nrounds,2\n",
    )?;
    files.add("s.toml", b"scenario = [{name = \"none\"}]")?;
    files.add("bad.toml", b"scenario = [{cut = 5}]")?;
    files.fail_at(fail_at)?;
    Ok(files)
}

// Runs a line on such files, and then on all. The text is compared elsewhere.
fn fetches<R: Threads + Sync + Abort>(
    rt: &R,
    alloc: Global,
    line: &str,
    (fail_at, unread): (u64, &str),
    (code, message): (u8, &str),
) -> Result<(), Fail> {
    let mut files = files_failing(alloc, fail_at)?;
    if !unread.is_empty() {
        ends(rt, alloc, line, &mut files, (3, "", unread))?;
    }
    let told = (100, code, message);
    runs_on(rt, alloc, line, &mut files, 1000, &OpenGate, told)?;
    Ok(())
}

// Runs a line where each fetch fails in turn, and none.
fn fetches_each<R: Threads + Sync + Abort>(
    rt: &R,
    alloc: Global,
    line: &str,
    no_third: &str,
    found: (u8, &str),
) -> Result<(), Fail> {
    fetches(rt, alloc, line, (1, "clearing: cannot read b.csv\n"), found)?;
    fetches(rt, alloc, line, (2, "clearing: cannot read d.csv\n"), found)?;
    fetches(rt, alloc, line, (3, no_third), found)?;
    fetches(rt, alloc, line, (4, ""), found)
}

// A line, what is told where its third file cannot be read, and its code and message where all can.
const FETCHES: [(&str, &str, (u8, &str)); 6] = [
    (CLEAR, "", (0, "")),
    (REPLAY, "clearing: cannot read j.csv\n", (0, "")),
    (STRESS, "clearing: cannot read s.toml\n", (0, "")),
    (
        "stress --banks b.csv --debts d.csv --scenarios bad.toml",
        "clearing: cannot read bad.toml\n",
        (4, "clearing: scenarios row 1: shape (17)\n"),
    ),
    ("rescue --banks b.csv --debts d.csv --bank B", "", (0, "")),
    (
        "rescue --banks b.csv --debts d.csv --bank X",
        "",
        (4, "clearing: words row 0: unknown bank (8)\n"),
    ),
];

// Each fetch of a job fails in turn, and then a second run finds all files; beyond the last fetch
// the first run does.
#[test]
fn every_fetch_may_fail(rt: HostRuntime) -> Result<(), Fail> {
    for (line, no_third, found) in &FETCHES {
        fetches_each(&rt, rt.alloc(), line, no_third, *found)?;
    }
    Ok(())
}

// Journals on the chain, and what is told of them.
const JOURNALS: [(&str, &str); 13] = [
    // The closing record closes where it is the last alone.
    (
        "stamp,debtor,creditor,class,to\nrounds,2\n1,A,B,1,7\n",
        "clearing: journal row 1: fields (2)\n",
    ),
    (
        "stamp,debtor,creditor,class,to\nrounds,2\nrounds,2\n",
        "clearing: journal row 1: fields (2)\n",
    ),
    (
        "stamp,debtor,creditor,class,to\n4294967296,A,B,1,7\n",
        "clearing: journal row 1: limit (6)\n",
    ),
    (
        "stamp,debtor,creditor,class,to\n1,A,B,1,1000001\n",
        "clearing: journal row 1: limit (6)\n",
    ),
    (
        "stamp,debtor,creditor,class,to\n1,A,B,2,7\n",
        "clearing: journal row 1: unknown debt (15)\n",
    ),
    (
        "stamp,debtor,creditor,class,to\n1,A,C,1,1\n",
        "clearing: journal row 1: unknown debt (15)\n",
    ),
    ("", "clearing: journal row 0: header (1)\n"),
    (
        "stamp,debtor,creditor,class\n1,A,B,1,7\n",
        "clearing: journal row 0: header (1)\n",
    ),
    (
        "stamp,debtor,creditor,class,to\n1,A,B,1\n",
        "clearing: journal row 1: fields (2)\n",
    ),
    (
        "stamp,debtor,creditor,class,to\nx,X,B,1,7\n",
        "clearing: journal row 1: number (4)\n",
    ),
    (
        "stamp,debtor,creditor,class,to\n1,A,X,0,7\n",
        "clearing: journal row 1: unknown bank (8)\n",
    ),
    (
        "stamp,debtor,creditor,class,to\n1,A,\"A,B\",0,7\n",
        "clearing: journal row 1: name (3)\n",
    ),
    (
        "stamp,debtor,creditor,class,to\n1,A,B,0,x\n",
        "clearing: journal row 1: class (10)\n",
    ),
];

#[test]
fn hostile_journals(rt: HostRuntime) -> Result<(), Fail> {
    for (journal, message) in &JOURNALS {
        let texts = [CHAIN_BANKS, CHAIN_DEBTS, journal];
        check(&rt, rt.alloc(), REPLAY, texts, (4, "", message))?;
    }
    Ok(())
}
