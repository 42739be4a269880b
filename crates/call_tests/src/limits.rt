//! Files with as much as the limits by which they are read allow, and with one more.
use clr_edge::line::{push_field, push_number};
use clr_net::Mem;
use net_check::{FaultKind, FileKind, Limits, ReadNet};
use net_csv::{read_network, read_network_within};
use std::alloc::Global;
use std::test::Fail;

// What two files give: how many banks and debts, and the units owed; or their first fault.
type Told = Result<(u32, u32, u64), (FileKind, u32, FaultKind)>;

// What is read of two files. By the standard limits that is read by the call that names none.
fn told(alloc: Global, by: Limits, banks: &[u8], debts: &[u8]) -> Result<Told, Mem> {
    let read = match by {
        Limits::Standard => read_network(alloc, banks, debts),
        Limits::Wide => read_network_within(alloc, by, banks, debts),
    };
    match read {
        Ok(net) => Ok(Ok((net.banks(), net.debts(), net.owed()))),
        Err(ReadNet::Refused(fault)) => Ok(Err((fault.file, fault.row, fault.kind))),
        Err(ReadNet::Mem) => Err(Mem),
    }
}

// A banks file of so many banks without cash, named by their numbers.
fn banks_of(alloc: Global, banks: u32) -> Result<Vec<u8>, Mem> {
    let mut text = Vec::from_slice(alloc, b"name,cash,rule\n")?;
    for bank in 0..banks {
        push_number(&mut text, bank, b',')?;
        push_field(&mut text, b"0,order", b'\n')?;
    }
    Ok(text)
}

// A debts file of so many debts among 1,000 banks: all have this claim but the last, which has
// another.
fn debts_of(alloc: Global, debts: u32, claim: u64, last: u64) -> Result<Vec<u8>, Mem> {
    let mut text = Vec::from_slice(alloc, b"debtor,creditor,class,claim\n")?;
    for debt in 0..debts {
        push_number(&mut text, debt % 900, b',')?;
        push_number(&mut text, 900 + debt / 900, b',')?;
        push_field(&mut text, b"1", b',')?;
        let units = if debt + 1 < debts { claim } else { last };
        push_number(&mut text, units, b'\n')?;
    }
    Ok(text)
}

// How many banks and debts files have, the claims of the debts but the last, and of the last; and
// what they give by the standard limits and by the wide ones.
type Case = ((u32, u32, u64, u64), Told, Told);

const NUMBERS: [Case; 4] = [
    (
        (1_001, 0, 0, 0),
        Err((FileKind::Banks, 1_001, FaultKind::TooMany)),
        Ok((1_001, 0, 0)),
    ),
    (
        (1_000, 20_001, 1, 1),
        Err((FileKind::Debts, 20_001, FaultKind::TooMany)),
        Ok((1_000, 20_001, 20_001)),
    ),
    (
        (1_000, 25, 1_000_000, 1_000_000),
        Err((FileKind::Debts, 11, FaultKind::Total)),
        Ok((1_000, 25, 25_000_000)),
    ),
    (
        (1_000, 26, 1_000_000, 1),
        Err((FileKind::Debts, 11, FaultKind::Total)),
        Err((FileKind::Debts, 26, FaultKind::Total)),
    ),
];

#[test]
fn networks_at_their_limits_are_read(rt: HostRuntime) -> Result<(), Fail> {
    let alloc = rt.alloc();
    for ((banks, debts, claim, last), standard, wide) in &NUMBERS {
        let banks = banks_of(alloc, *banks)?;
        let debts = debts_of(alloc, *debts, *claim, *last)?;
        let (banks, debts) = (banks.as_slice(), debts.as_slice());
        assert_eq!(rt; told(alloc, Limits::Standard, banks, debts)?, *standard);
        assert_eq!(rt; told(alloc, Limits::Wide, banks, debts)?, *wide);
    }
    Ok(())
}
