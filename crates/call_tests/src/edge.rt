use clr_edge::{FetchFault, Gate, MemShelf, MemSink, OpenGate, Shelf, Sink, put_all};
use clr_net::Mem;
use std::alloc::Global;
use std::test::Fail;

const BANKS: &[u8] = b"name,cash,rule\nA,7,equal\nB,1,equal\nC,0,equal\n";

const DEBTS: &[u8] = b"debtor,creditor,class,claim\nA,B,1,10\nB,C,1,9\n";

// 54 bytes
const PAYMENTS: &[u8] = b"debtor,creditor,class,claim,paid\nA,B,1,10,7\nB,C,1,9,8\n";

// Whether a fetch up to a limit gives these bytes, or fails where none are wanted.
fn gives<S: Shelf>(
    alloc: Global,
    shelf: &mut S,
    name: &str,
    limit: u32,
    wanted: Option<&[u8]>,
) -> Result<bool, Mem> {
    match shelf.fetch(alloc, name, u64::from(limit)) {
        Ok(bytes) => Ok(wanted == Some(bytes.as_slice())),
        Err(FetchFault::Failed) => Ok(wanted.is_none()),
        Err(FetchFault::Mem) => Err(Mem),
    }
}

// Three fetches of the files of three banks and two debts, each up to a limit, and what they give.
type Fetches = [(&'static str, u32, Option<&'static [u8]>); 3];

// Whether these fetches give these bytes in turn, where the fetch of a number is to fail.
fn answers(
    alloc: Global,
    shelf: &mut MemShelf,
    failing: u64,
    fetches: &Fetches,
) -> Result<bool, Mem> {
    shelf.fail_at(failing)?;
    shelf.add("b.csv", b"")?;
    shelf.add("d.csv", DEBTS)?;
    shelf.add("b.csv", BANKS)?;
    for (name, limit, wanted) in fetches {
        if !gives(alloc, shelf, name, *limit, *wanted)? {
            return Ok(false);
        }
    }
    Ok(true)
}

// The fetch that is to fail, and the fetches.
const FETCHES: [(u64, Fetches); 3] = [
    // A shelf has its files and no others; the later of one name is the one that is there.
    (
        0,
        [
            ("b.csv", 1000, Some(BANKS)),
            ("d.csv", 1000, Some(DEBTS)),
            ("e.csv", 1000, None),
        ],
    ),
    // A file past the limit is cut one byte behind it.
    (
        0,
        [
            ("d.csv", 45, Some(DEBTS)),
            ("d.csv", 5, Some(b"debtor")),
            ("d.csv", 45, Some(DEBTS)),
        ],
    ),
    // Only the second fetch fails.
    (
        2,
        [
            ("b.csv", 1000, Some(BANKS)),
            ("b.csv", 1000, None),
            ("b.csv", 1000, Some(BANKS)),
        ],
    ),
];

#[test]
fn a_shelf_gives_its_files_up_to_the_limit(rt: HostRuntime) -> Result<(), Fail> {
    let alloc = rt.alloc();
    for (failing, fetches) in &FETCHES {
        assert!(rt; answers(alloc, &mut MemShelf::make(alloc), *failing, fetches)?);
    }
    Ok(())
}

// Whether a sink with so much room, which takes at most so much at a put and fails at the put of a
// number, takes so many bytes of the payments, and ends so.
fn takes(alloc: Global, row: (usize, usize, u64), count: usize) -> Result<bool, Mem> {
    let (room, most, fail_at) = row;
    let mut sink = MemSink::with_room(alloc, room, most.max(1), fail_at)?;
    let end = put_all(&mut sink, PAYMENTS);
    let all = count == PAYMENTS.len();
    Ok(end.is_ok() == all && PAYMENTS.starts_with(sink.written()) && sink.written().len() == count)
}

// The room, the most at a put, the put that fails, and how many bytes are taken.
const TAKEN: [((usize, usize, u64), usize); 8] = [
    ((100, 10, 1), 0),
    ((100, 10, 2), 10),
    ((100, 10, 3), 20),
    ((100, 10, 6), 50),
    // A room that is full takes no more.
    ((15, 10, 0), 15),
    ((0, 10, 0), 0),
    // Byte by byte.
    ((54, 1, 55), 54),
    ((54, 1, 54), 53),
];

// Whether a sink without room takes an empty text, and not a byte.
fn takes_nothing(alloc: Global) -> Result<bool, Mem> {
    let mut none = MemSink::with_room(alloc, 0, 1, 0)?;
    Ok(put_all(&mut none, b"").is_ok() && none.put(b"A").is_err())
}

#[test]
fn a_failing_put_leaves_what_was_put_before_and_is_not_tried_again(
    rt: HostRuntime,
) -> Result<(), Fail> {
    for (row, count) in &TAKEN {
        assert!(rt; takes(rt.alloc(), *row, *count)?, "at {count}");
    }
    assert!(rt; takes_nothing(rt.alloc())?);
    Ok(())
}

fn passed<G: Gate + Sync>(gate: &G) {
    gate.at(0, 1);
}

#[test]
fn the_open_gate_lets_pass() {
    passed(&OpenGate);
}
