//! How many rounds, visits and raises a run takes, and what its gate is told of each visit.
use crate::gates::Numbers;
use crate::nets::Sample;
use crate::runs::{Begun, Job, run};
use clr_net::Mem;
use std::alloc::Global;
use std::test::Fail;
use std::thread::Threads;

// A network, workers and sweeps; the rounds, visits and raises of a run; and the calls of its gate,
// those of a first visit, those of a wrong one, and the workers that are told.
type Row = (Sample, [u32; 2], [u64; 3], [u64; 4]);

// On the long ring there are two visits for each unit and one in the end; by one sweep they are of a
// round for each, numbered anew, and by sweeps enough all are of the first. Of the 700 banks two are
// visited a second time. A plain model of visits counts as many on the woven networks.
const COUNTED: [Row; 14] = [
    (Sample::NoBank, [1, 1], [1, 0, 0], [0; 4]),
    (Sample::NoBank, [4, 1], [1, 0, 0], [0; 4]),
    (Sample::Chain, [1, 1], [2, 3, 2], [3, 1, 0, 1]),
    (Sample::Ring, [1, 1], [6, 11, 10], [11, 6, 0, 1]),
    (Sample::Ring, [1, 7], [2, 11, 10], [11, 1, 0, 1]),
    (
        Sample::LongRing(150),
        [1, 1],
        [151, 301, 300],
        [301, 151, 0, 1],
    ),
    (
        Sample::LongRing(150),
        [1, 1000],
        [2, 301, 300],
        [301, 1, 0, 1],
    ),
    (
        Sample::LongRing(900),
        [1, 1000],
        [2, 1801, 1800],
        [1801, 1, 0, 1],
    ),
    (Sample::TwoPairs, [1, 1], [2, 702, 2], [702, 2, 0, 1]),
    (Sample::TwoPairs, [4, 1], [2, 702, 2], [702, 6, 0, 4]),
    (
        Sample::TwoPoorPairs(1000),
        [64, 1],
        [1, 1000, 0],
        [1000, 64, 0, 64],
    ),
    (Sample::Woven(30), [1, 1], [5, 83, 127], [83, 4, 0, 1]),
    (Sample::Woven(30), [1, 7], [2, 83, 127], [83, 1, 0, 1]),
    (
        Sample::Woven(1000),
        [1, 1000],
        [2, 2526, 3793],
        [2526, 1, 0, 1],
    ),
];

// Whether a run that is so begun comes to what a row says.
fn is_counted<R: Threads + Sync>(
    rt: &R,
    alloc: Global,
    begun: Begun,
    row: Row,
) -> Result<bool, Mem> {
    let (sample, [workers, sweeps], counts, calls) = row;
    let job = Job {
        begun,
        sample,
        workers,
        sweeps,
    };
    let gate = Numbers::new(alloc)?;
    let told = run(rt, alloc, job, &gate)?;
    Ok(told.counts == counts && gate.counts() == calls)
}

// The first row of which a run that is so begun comes to something else.
fn first_miscounted<R: Threads + Sync>(
    rt: &R,
    alloc: Global,
    begun: Begun,
    rows: &[Row],
) -> Result<Option<usize>, Mem> {
    for (place, row) in rows.iter().enumerate() {
        if !is_counted(rt, alloc, begun, *row)? {
            return Ok(Some(place));
        }
    }
    Ok(None)
}

#[test]
fn the_gate_is_told_the_worker_and_the_visit(rt: HostRuntime) -> Result<(), Fail> {
    for begun in [Begun::Settled, Begun::Alone, Begun::Driven] {
        let wrong = first_miscounted(&rt, rt.alloc(), begun, &COUNTED)?;
        assert_eq!(rt; wrong, None);
    }
    Ok(())
}

// A worker calls the bank that it rings, which the next one visits in the same round. All banks are
// visited in the first round, four in each of the 74 after it, and the first in the last.
const PASSED_ON: [Row; 1] = [(Sample::WideRing, [4, 1], [76, 597, 300], [597, 301, 0, 4])];

#[test]
fn a_unit_passes_all_workers_that_go_in_turn(rt: HostRuntime) -> Result<(), Fail> {
    let wrong = first_miscounted(&rt, rt.alloc(), Begun::Alone, &PASSED_ON)?;
    assert_eq!(rt; wrong, None);
    Ok(())
}
