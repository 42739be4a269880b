mod fifteen_banks;
mod hostile;
mod limits;
mod many;
mod records;
mod sinks;
mod steered;
mod tasks;
mod threads;
mod twelve_banks;
mod waits;

use clear_top::{Ended, Status, run};
use clr_edge::{Gate, MemShelf, MemSink, OpenGate, Shelf, Sink};
use pay_words::Record;
use std::alloc::Global;
use std::process::Abort;
use std::test::Fail;
use std::thread::Threads;

const CLEAR: &str = "clear --banks b.csv --debts d.csv";

const REPLAY: &str = "replay --banks b.csv --debts d.csv --journal j.csv";

const STRESS: &str = "stress --banks b.csv --debts d.csv --scenarios s.toml";

// Clearing by one worker, with payments and journal shown.
const CLEAR_BOTH: &str = "clear --banks b.csv --debts d.csv --show both --workers 1";

const CHECK: &str = "check --banks b.csv --debts d.csv";

const CENTRAL: &str = "central --banks b.csv --debts d.csv";

const CONVERT: &str = "convert --banks b.csv --debts d.csv";

const CHAIN_BANKS: &str = "name,cash,rule\nA,7,order\nB,1,order\nC,0,order\n";

const CHAIN_DEBTS: &str = "debtor,creditor,class,claim\nA,B,1,10\nB,C,1,9\n";

const CHAIN_TEXT: &str = "debtor,creditor,class,claim,paid\nA,B,1,10,7\nB,C,1,9,8\n";

const CHAIN_BOTH: &str = "debtor,creditor,class,claim,paid\nA,B,1,10,7\nB,C,1,9,8\n\n\
stamp,debtor,creditor,class,to\n1,A,B,1,7\n2,B,C,1,8\nrounds,2\n";

// The chain's banks in the second form of their file, with no outside claims and with some.
const CHAIN_BANKS_2: &str = "name,cash,rule,outside\nA,7,order,0\nB,1,order,0\nC,0,order,0\n";

const CHAIN_OUTSIDE: &str = "name,cash,rule,outside\nA,7,order,3\nB,1,order,0\nC,0,order,2\n";

const TWO_BANKS: &str = "name,cash,rule\nA,0,order\nB,0,order\n";

// The most that may be owed, and a debt of no unit more.
const TOTAL_AND_NO_MORE: &str =
    "debtor,creditor,class,claim\nA,B,1,1000000\nA,B,2,1000000\nA,B,3,1000000\n\
A,B,4,1000000\nA,B,5,1000000\nA,B,6,1000000\nA,B,7,1000000\nA,B,8,1000000\n\
A,B,9,1000000\nB,A,1,1000000\nB,A,2,0\n";

// Nothing is there to be paid.
const TOTAL_PAYMENTS: &str = "debtor,creditor,class,claim,paid\nA,B,1,1000000,0\nA,B,2,1000000,0\n\
A,B,3,1000000,0\nA,B,4,1000000,0\nA,B,5,1000000,0\nA,B,6,1000000,0\nA,B,7,1000000,0\n\
A,B,8,1000000,0\nA,B,9,1000000,0\nB,A,1,1000000,0\nB,A,2,0,0\n";

const CHAIN_CHECKED: &str = "banks,3\ndebts,2\nowed,19\ncash,8\n\n\
name,cash,rule\nA,7,order\nB,1,order\nC,0,order\n\n\
debtor,creditor,class,claim\nA,B,1,10\nB,C,1,9\n";

const CHAIN_OUTSIDE_CHECKED: &str = "banks,3\ndebts,2\nowed,19\ncash,8\n\n\
name,cash,rule,outside\nA,7,order,3\nB,1,order,0\nC,0,order,2\n\n\
debtor,creditor,class,claim\nA,B,1,10\nB,C,1,9\n";

// The numbers of a run's record: raises made, workers, seats, and the raises of its journal.
type Numbers = (u64, u32, u64, usize);

// How a run of these words ends, and the numbers of its record. Each test comes here.
fn run_words<R: Threads + Sync, F: Shelf, O: Sink, G: Gate + Sync>(
    rt: &R,
    alloc: Global,
    words: &[&str],
    files: &mut F,
    (out, err): (&mut O, &mut MemSink),
    gate: &G,
) -> (Status, Option<Numbers>) {
    let Ended { status, sealed } = run(rt, alloc, words, files, out, err, gate);
    match sealed {
        Some(record) => (status, Some(numbers_of(&record))),
        None => (status, None),
    }
}

fn numbers_of(record: &Record) -> Numbers {
    (
        record.made(),
        record.workers(),
        record.seats(),
        record.journal().len(),
    )
}

// A run of a command line.
fn run_line<R: Threads + Sync, F: Shelf, O: Sink, G: Gate + Sync>(
    rt: &R,
    alloc: Global,
    line: &str,
    files: &mut F,
    sinks: (&mut O, &mut MemSink),
    gate: &G,
) -> Result<(Status, Option<Numbers>), Fail> {
    let words = line.split_whitespace().collect::<Vec<&str>>(alloc)?;
    Ok(run_words(rt, alloc, words.as_slice(), files, sinks, gate))
}

fn same<R: Abort>(rt: &R, line: &str, written: &[u8], wanted: &[u8]) {
    assert_eq!(rt; written, wanted, "{line}");
}

fn same_code<R: Abort>(rt: &R, line: &str, code: u8, wanted: u8) {
    assert_eq!(rt; code, wanted, "{line}");
}

// Runs a line, and compares the code, and what is told by seven bytes a put, for which there is so
// much room. Where there is none, the first put fails.
fn tells<R: Threads + Sync + Abort, G: Gate + Sync>(
    rt: &R,
    alloc: Global,
    line: &str,
    files: &mut MemShelf,
    out: &mut MemSink,
    gate: &G,
    (room, code, message): (usize, u8, &str),
) -> Result<Option<Numbers>, Fail> {
    let mut err = MemSink::with_room(alloc, room, 7, u64::from(room == 0))?;
    let (status, numbers) = run_line(rt, alloc, line, files, (out, &mut err), gate)?;
    same(rt, line, err.written(), message.as_bytes());
    same_code(rt, line, status.code(), code);
    Ok(numbers)
}

// Runs a line so, with so much room for its text, which is not compared.
fn runs_on<R: Threads + Sync + Abort, G: Gate + Sync>(
    rt: &R,
    alloc: Global,
    line: &str,
    files: &mut MemShelf,
    room: usize,
    gate: &G,
    told: (usize, u8, &str),
) -> Result<Option<Numbers>, Fail> {
    let mut out = MemSink::with_room(alloc, room, 1000, 0)?;
    tells(rt, alloc, line, files, &mut out, gate, told)
}

// Runs a line, and compares its code and what it writes and tells.
fn ends<R: Threads + Sync + Abort>(
    rt: &R,
    alloc: Global,
    line: &str,
    files: &mut MemShelf,
    (code, text, message): (u8, &str, &str),
) -> Result<(), Fail> {
    let mut out = MemSink::with_room(alloc, 6000, 1000, 0)?;
    tells(
        rt,
        alloc,
        line,
        files,
        &mut out,
        &OpenGate,
        (1000, code, message),
    )?;
    same(rt, line, out.written(), text.as_bytes());
    Ok(())
}

// A shelf with the two files `b.csv` and `d.csv`.
fn shelf(alloc: Global, banks: &str, debts: &str) -> Result<MemShelf, Fail> {
    let mut files = MemShelf::make(alloc);
    files.add("b.csv", banks.as_bytes())?;
    files.add("d.csv", debts.as_bytes())?;
    Ok(files)
}

// Such a shelf, on which a third file is the scenarios and the journal.
fn shelf_of_three(alloc: Global, [banks, debts, third]: [&str; 3]) -> Result<MemShelf, Fail> {
    let mut files = shelf(alloc, banks, debts)?;
    files.add("s.toml", third.as_bytes())?;
    files.add("j.csv", third.as_bytes())?;
    Ok(files)
}

// Runs a line on three files, and compares.
fn check<R: Threads + Sync + Abort>(
    rt: &R,
    alloc: Global,
    line: &str,
    texts: [&str; 3],
    ending: (u8, &str, &str),
) -> Result<(), Fail> {
    let mut files = shelf_of_three(alloc, texts)?;
    ends(rt, alloc, line, &mut files, ending)
}

// Runs a line on three files by the limits that it has without words for them, and by the wide ones.
fn check_by_both<R: Threads + Sync + Abort>(
    rt: &R,
    alloc: Global,
    line: &str,
    texts: [&str; 3],
    ending: (u8, &str, &str),
) -> Result<(), Fail> {
    check(rt, alloc, line, texts, ending)?;
    let wide = format!(in alloc; "{line} --limits wide")?;
    check(rt, alloc, wide.as_str(), texts, ending)
}

// A line, the two files, and the text of a run that ends well.
type Done<'a> = (&'a str, &'a str, &'a str, &'a str);

fn all_done<R: Threads + Sync + Abort>(
    rt: &R,
    alloc: Global,
    rows: &[Done<'_>],
) -> Result<(), Fail> {
    for (line, banks, debts, text) in rows {
        check_by_both(rt, alloc, line, [banks, debts, ""], (0, text, ""))?;
    }
    Ok(())
}

// The two files, and what is told of the first fault in them.
type Refused<'a> = (&'a str, &'a str, &'a str);

fn all_refused<R: Threads + Sync + Abort>(
    rt: &R,
    alloc: Global,
    rows: &[Refused<'_>],
) -> Result<(), Fail> {
    for (banks, debts, message) in rows {
        check_by_both(rt, alloc, CLEAR, [banks, debts, ""], (4, "", message))?;
    }
    Ok(())
}

const PAYMENTS: [Done<'static>; 12] = [
    (CLEAR, CHAIN_BANKS, CHAIN_DEBTS, CHAIN_TEXT),
    // A quoted field is what stands between the quotes.
    (
        CLEAR,
        "name,cash,rule\n\"A\",7,order\nB,1,order\nC,0,order\n",
        CHAIN_DEBTS,
        CHAIN_TEXT,
    ),
    // One unit goes round until both debts are paid.
    (
        CLEAR,
        "name,cash,rule\nA,1,order\nB,0,order\n",
        "debtor,creditor,class,claim\nA,B,1,5\nB,A,1,5\n",
        "debtor,creditor,class,claim,paid\nA,B,1,5,5\nB,A,1,5,5\n",
    ),
    // With no unit to begin with none goes round, though paying all would clear as well.
    (
        CLEAR,
        "name,cash,rule\nA,0,order\nB,0,order\n",
        "debtor,creditor,class,claim\nA,B,1,10\nB,A,1,10\n",
        "debtor,creditor,class,claim,paid\nA,B,1,10,0\nB,A,1,10,0\n",
    ),
    (
        CLEAR,
        "name,cash,rule\n",
        "debtor,creditor,class,claim\n",
        "debtor,creditor,class,claim,paid\n",
    ),
    (CLEAR, TWO_BANKS, TOTAL_AND_NO_MORE, TOTAL_PAYMENTS),
    (
        CLEAR,
        "name,cash,rule\nA,1000000000000,order\nB,0,order\n",
        "debtor,creditor,class,claim\nA,B,1,1000000\n",
        "debtor,creditor,class,claim,paid\nA,B,1,1000000,1000000\n",
    ),
    // Two debts of two classes between the same banks: the lower class is paid first.
    (
        CLEAR,
        CHAIN_BANKS,
        "debtor,creditor,class,claim\nA,B,1,10\nB,C,1,9\nA,B,2,2\n",
        "debtor,creditor,class,claim,paid\nA,B,1,10,7\nB,C,1,9,8\nA,B,2,2,0\n",
    ),
    // A byte order mark, line ends of two bytes, spaces round fields, and no line end after the
    // last record.
    (
        CLEAR,
        "\u{FEFF}name,cash,rule\r\n Crédit A ,7,order\r\nB,1,order\r\nC,0,order",
        "\u{FEFF}debtor,creditor,class,claim\r\n Crédit A ,B,1,10\r\nB,C,1,9",
        "debtor,creditor,class,claim,paid\nCrédit A,B,1,10,7\nB,C,1,9,8\n",
    ),
    // A owes 3 outside, and pays B what that leaves of its cash; B owes nothing outside.
    (
        CLEAR,
        CHAIN_OUTSIDE,
        CHAIN_DEBTS,
        "debtor,creditor,class,claim,paid\nA,B,1,10,4\nB,C,1,9,5\n",
    ),
    // All six rules, over three classes.
    (
        CLEAR,
        twelve_banks::BANKS,
        twelve_banks::DEBTS,
        twelve_banks::PAYMENTS,
    ),
    // A owes more outside than it has.
    (
        CLEAR,
        "name,cash,rule,outside\nA,7,order,8\nB,1,order,0\nC,0,order,2\n",
        CHAIN_DEBTS,
        "debtor,creditor,class,claim,paid\nA,B,1,10,0\nB,C,1,9,1\n",
    ),
];

#[test]
fn payments_of_small_networks(rt: HostRuntime) -> Result<(), Fail> {
    all_done(&rt, rt.alloc(), &PAYMENTS)
}

const FAULTS: [Refused<'static>; 17] = [
    (
        "name,cash,rule\nA,1000000000000,order\nB,0,order\n",
        "debtor,creditor,class,claim\nA,B,1,1000001\n",
        "clearing: debts row 1: limit (6)\n",
    ),
    (
        "name,cash,rule\nA,1000000000001,order\nB,0,order\n",
        "debtor,creditor,class,claim\nA,B,1,1000001\n",
        "clearing: banks row 1: limit (6)\n",
    ),
    (
        CHAIN_BANKS,
        "debtor,creditor,class,claim\nA,B,1,10\nB,C,1,9\nA,B,1,2\n",
        "clearing: debts row 3: double debt (11)\n",
    ),
    (
        CHAIN_BANKS,
        "debtor,creditor,class,claim\nA,A,1,5\nA,X,1,5\n",
        "clearing: debts row 1: self debt (9)\n",
    ),
    (
        CHAIN_BANKS,
        "debtor,creditor,class,claim\nB,C,1,9\nA,B,1",
        "clearing: debts row 2: fields (2)\n",
    ),
    ("", CHAIN_DEBTS, "clearing: banks row 0: header (1)\n"),
    (
        "name,cash,rule\nA,7,equally\n",
        "debtor,creditor,class,claim\n",
        "clearing: banks row 1: rule (5)\n",
    ),
    // Under the header of the second form each bank has four fields.
    (
        "name,cash,rule,outside\nA,7,order\n",
        "debtor,creditor,class,claim\n",
        "clearing: banks row 1: fields (2)\n",
    ),
    (
        "name,cash,rule,outside\nA,7,order,100000000001\n",
        "debtor,creditor,class,claim\n",
        "clearing: banks row 1: limit (6)\n",
    ),
    (
        "name,cash,rule\nA,7,order\nB,1,order\nA,x,order\n",
        CHAIN_DEBTS,
        "clearing: banks row 3: double bank (7)\n",
    ),
    (
        CHAIN_BANKS,
        "debtor,creditor,class,claim\nA,B,1,10\nA,X,0,x\n",
        "clearing: debts row 2: unknown bank (8)\n",
    ),
    (
        CHAIN_BANKS,
        "debtor,creditor,class,claim\nX,A,1,1\n",
        "clearing: debts row 1: unknown bank (8)\n",
    ),
    (
        CHAIN_BANKS,
        "debtor,creditor,class,claim\nA,B,1,10\nB,\"A,B\",0,x\n",
        "clearing: debts row 2: name (3)\n",
    ),
    (
        CHAIN_BANKS,
        "debtor,creditor,class,claim\nA,B,0,x\n",
        "clearing: debts row 1: class (10)\n",
    ),
    (
        "name,cash,rule\n\"A,B\",7,order\n",
        CHAIN_DEBTS,
        "clearing: banks row 1: name (3)\n",
    ),
    (
        "name,cash,rule\nA,99999999999999999999,order\n",
        CHAIN_DEBTS,
        "clearing: banks row 1: limit (6)\n",
    ),
    (
        "name,cash,rule\nA,999999999999999999999,order\n",
        CHAIN_DEBTS,
        "clearing: banks row 1: number (4)\n",
    ),
];

#[test]
fn faults_of_files_are_named(rt: HostRuntime) -> Result<(), Fail> {
    all_refused(&rt, rt.alloc(), &FAULTS)
}

const NO_JOBS: [&str; 8] = [
    "",
    "--help",
    "clear --banks b.csv",
    "clear --banks b.csv --debts d.csv --workers 65",
    "central --banks b.csv --debts d.csv --sweeps 2",
    "gen --seed 7 --size 3 --tries 5 --limits wide",
    "clear --banks b.csv --debts d.csv --limits big",
    "clear --banks b.csv --debts d.csv --limits wide --limits wide",
];

#[test]
fn words_that_are_no_job(rt: HostRuntime) -> Result<(), Fail> {
    let usage = (2, "", "clearing: the command line is not understood\n");
    for line in &NO_JOBS {
        check(&rt, rt.alloc(), line, [CHAIN_BANKS, CHAIN_DEBTS, ""], usage)?;
    }
    Ok(())
}

#[test]
fn files_that_are_missing(rt: HostRuntime) -> Result<(), Fail> {
    let alloc = rt.alloc();
    let no_banks = "clearing: cannot read b.csv\n";
    let no_debts = "clearing: cannot read d.csv\n";
    let mut files = MemShelf::make(alloc);
    ends(&rt, alloc, CLEAR, &mut files, (3, "", no_banks))?;
    for banks in ["no header", CHAIN_BANKS] {
        files.add("b.csv", banks.as_bytes())?;
        ends(&rt, alloc, CLEAR, &mut files, (3, "", no_debts))?;
    }
    // A message of which nothing can be written changes nothing.
    runs_on(&rt, alloc, CLEAR, &mut files, 0, &OpenGate, (0, 3, ""))?;
    Ok(())
}

#[test]
fn an_output_that_breaks(rt: HostRuntime) -> Result<(), Fail> {
    let alloc = rt.alloc();
    let mut files = shelf(alloc, CHAIN_BANKS, CHAIN_DEBTS)?;
    let mut out = MemSink::with_room(alloc, 1000, 10, 2)?;
    let told = (1000, 5, "clearing: cannot write the output\n");
    tells(&rt, alloc, CLEAR, &mut files, &mut out, &OpenGate, told)?;
    same(&rt, CLEAR, out.written(), b"debtor,cre");
    Ok(())
}

// Ends for a banks file that is no text of banks, and for nothing else: the debts file has this
// name.
fn no_banks<R: Threads + Sync + Abort>(
    rt: &R,
    alloc: Global,
    banks: &[u8],
    debts: &str,
    message: &str,
) -> Result<(), Fail> {
    let mut files = MemShelf::make(alloc);
    files.add("b.csv", banks)?;
    files.add(debts, CHAIN_DEBTS.as_bytes())?;
    ends(rt, alloc, CLEAR, &mut files, (4, "", message))
}

#[test]
fn banks_files_that_are_no_text(rt: HostRuntime) -> Result<(), Fail> {
    let alloc = rt.alloc();
    // A name that is no UTF-8.
    no_banks(
        &rt,
        alloc,
        b"name,cash,rule\n\xFF,7,order\n",
        "d.csv",
        "clearing: banks row 1: name (3)\n",
    )?;
    // Longer than a banks file may be, and there is no debts file.
    let long = vec![in alloc; b'\n'; 8_388_609]?;
    no_banks(
        &rt,
        alloc,
        long.as_slice(),
        "other.csv",
        "clearing: banks row 0: file size (14)\n",
    )?;
    // By the wide limits the debts file is missed.
    let mut files = MemShelf::make(alloc);
    files.add("b.csv", long.as_slice())?;
    let wide = format!(in alloc; "{CLEAR} --limits wide")?;
    let no_debts = (3, "", "clearing: cannot read d.csv\n");
    ends(&rt, alloc, wide.as_str(), &mut files, no_debts)
}
