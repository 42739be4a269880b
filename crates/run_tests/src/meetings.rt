//! Whether workers are at work at once, or one after another: those that are, meet at a gate.
use crate::gates::{LONG, SHORT, new_meeting};
use crate::nets::Sample;
use crate::runs::{Begun, Job, run};
use clr_net::Mem;
use std::alloc::Global;
use std::sync::atomic::Ordering;
use std::test::Fail;
use std::thread::Threads;
use std::time::Clock;

// A run whose workers meet: how it is begun, its network, workers and sweeps; the round in which
// those workers that have a visit meet; how many each of them waits for; and how many do not wait in
// vain.
type Row = (Begun, Sample, [u32; 2], [u64; 3]);

// How many do not wait in vain, where each waits at most so many milliseconds.
fn met_in<R: Threads + Clock + Sync>(
    rt: &R,
    alloc: Global,
    job: Job,
    [round, wanted]: [u64; 2],
    millis: u32,
) -> Result<u64, Mem> {
    let gate = new_meeting(rt, alloc, wanted, round, millis)?;
    run(rt, alloc, job, &gate)?;
    Ok(gate.met.load(Ordering::SeqCst))
}

// The first row of which others meet than are wanted, and how many do.
fn first_unmet<R: Threads + Clock + Sync>(
    rt: &R,
    alloc: Global,
    rows: &[Row],
    millis: u32,
) -> Result<Option<(usize, u64)>, Mem> {
    for (place, row) in rows.iter().enumerate() {
        let (begun, sample, [workers, sweeps], [round, wanted, all]) = *row;
        let job = Job {
            begun,
            sample,
            workers,
            sweeps,
        };
        let met = met_in(rt, alloc, job, [round, wanted], millis)?;
        if met != all {
            return Ok(Some((place, met)));
        }
    }
    Ok(None)
}

// On networks of two debts, and of three debts a bank. Of 64 workers 30 have one of 30 banks each.
const AT_FIRST: [Row; 30] = [
    (Begun::Settled, Sample::Chain, [2, 1], [0, 2, 2]),
    (Begun::Driven, Sample::Chain, [2, 1], [0, 2, 2]),
    (Begun::Resumed, Sample::Chain, [2, 1], [0, 2, 2]),
    (Begun::Settled, Sample::Woven(30), [2, 1], [0, 2, 2]),
    (Begun::Settled, Sample::Woven(30), [3, 1], [0, 3, 3]),
    (Begun::Settled, Sample::Woven(30), [8, 1], [0, 8, 8]),
    (Begun::Settled, Sample::Woven(30), [64, 1], [0, 30, 30]),
    (Begun::Settled, Sample::Woven(30), [2, 3], [0, 2, 2]),
    (Begun::Settled, Sample::Woven(30), [3, 3], [0, 3, 3]),
    (Begun::Settled, Sample::Woven(30), [8, 3], [0, 8, 8]),
    (Begun::Settled, Sample::Woven(31), [2, 1], [0, 2, 2]),
    (Begun::Settled, Sample::Woven(60), [3, 1], [0, 3, 3]),
    (Begun::Settled, Sample::Woven(100), [8, 3], [0, 8, 8]),
    (Begun::Settled, Sample::Woven(200), [3, 3], [0, 3, 3]),
    (Begun::Settled, Sample::Woven(400), [64, 1], [0, 64, 64]),
    (Begun::Settled, Sample::Woven(700), [2, 1], [0, 2, 2]),
    (Begun::Settled, Sample::Woven(700), [3, 1], [0, 3, 3]),
    (Begun::Settled, Sample::Woven(700), [8, 1], [0, 8, 8]),
    (Begun::Settled, Sample::Woven(700), [2, 3], [0, 2, 2]),
    (Begun::Settled, Sample::Woven(700), [3, 3], [0, 3, 3]),
    (Begun::Settled, Sample::Woven(700), [8, 3], [0, 8, 8]),
    (Begun::Settled, Sample::Woven(700), [64, 1], [0, 64, 64]),
    (Begun::Settled, Sample::Woven(1000), [2, 1], [0, 2, 2]),
    (Begun::Settled, Sample::Woven(1000), [64, 3], [0, 64, 64]),
    (Begun::Driven, Sample::TwoPairs, [3, 3], [0, 3, 3]),
    (Begun::Driven, Sample::Woven(30), [2, 1], [0, 2, 2]),
    (Begun::Driven, Sample::Woven(30), [8, 3], [0, 8, 8]),
    (Begun::Driven, Sample::Woven(700), [64, 1], [0, 64, 64]),
    (Begun::Driven, Sample::Woven(1000), [64, 1], [0, 64, 64]),
    (Begun::Resumed, Sample::Woven(700), [8, 1], [0, 8, 8]),
];

#[test]
fn all_workers_work_at_once(rt: HostRuntime) -> Result<(), Fail> {
    let wrong = first_unmet(&rt, rt.alloc(), &AT_FIRST, LONG)?;
    assert_eq!(rt; wrong, None);
    Ok(())
}

#[test]
fn each_number_of_workers_works_at_once(rt: HostRuntime) -> Result<(), Fail> {
    for workers in 2..65_u32 {
        let all = u64::from(workers);
        let row = (
            Begun::Settled,
            Sample::TwoPairs,
            [workers, 1],
            [0, all, all],
        );
        let wrong = first_unmet(&rt, rt.alloc(), &[row], LONG)?;
        assert_eq!(rt; wrong, None, "{workers}");
    }
    Ok(())
}

// Of the two pairs, two of two or four workers have a visit in the second round. Down the stairs,
// whose steps are of one worker each, each of all workers has one in each of the first rounds.
const LATER: [Row; 17] = [
    (Begun::Settled, Sample::TwoPairs, [2, 1], [1, 2, 2]),
    (Begun::Settled, Sample::TwoPairs, [4, 1], [1, 2, 2]),
    (Begun::Settled, Sample::Stairs(700, 2), [2, 1], [1, 2, 2]),
    (Begun::Settled, Sample::Stairs(700, 3), [3, 1], [1, 3, 3]),
    (Begun::Settled, Sample::Stairs(700, 8), [8, 1], [1, 8, 8]),
    (Begun::Settled, Sample::Stairs(700, 2), [2, 3], [1, 2, 2]),
    (Begun::Settled, Sample::Stairs(700, 3), [3, 3], [1, 3, 3]),
    (Begun::Settled, Sample::Stairs(700, 8), [8, 3], [1, 8, 8]),
    (
        Begun::Settled,
        Sample::Stairs(700, 64),
        [64, 1],
        [1, 64, 64],
    ),
    (Begun::Settled, Sample::Stairs(700, 2), [2, 1], [2, 2, 2]),
    (Begun::Settled, Sample::Stairs(700, 3), [3, 3], [2, 3, 3]),
    (Begun::Settled, Sample::Stairs(700, 8), [8, 1], [2, 8, 8]),
    (
        Begun::Settled,
        Sample::Stairs(700, 64),
        [64, 1],
        [2, 64, 64],
    ),
    (Begun::Driven, Sample::TwoPairs, [2, 1], [1, 2, 2]),
    (Begun::Driven, Sample::Stairs(700, 3), [3, 1], [1, 3, 3]),
    (Begun::Driven, Sample::Stairs(700, 3), [3, 1], [2, 3, 3]),
    (Begun::Driven, Sample::Stairs(700, 64), [64, 1], [2, 64, 64]),
];

#[test]
fn workers_work_at_once_in_a_later_round_too(rt: HostRuntime) -> Result<(), Fail> {
    let wrong = first_unmet(&rt, rt.alloc(), &LATER, LONG)?;
    assert_eq!(rt; wrong, None);
    Ok(())
}

// The first worker waits in vain for a second one, and the others find it there.
const ALONE: [Row; 6] = [
    (Begun::Alone, Sample::TwoPairs, [2, 1], [0, 2, 1]),
    (Begun::Alone, Sample::TwoPairs, [3, 1], [0, 2, 2]),
    (Begun::Alone, Sample::TwoPairs, [8, 1], [0, 2, 7]),
    (Begun::Alone, Sample::TwoPairs, [4, 1], [1, 2, 1]),
    (Begun::Alone, Sample::Woven(700), [64, 1], [0, 2, 63]),
    (Begun::Alone, Sample::Stairs(700, 4), [4, 1], [2, 2, 3]),
];

#[test]
fn alone_no_worker_works_beside_another(rt: HostRuntime) -> Result<(), Fail> {
    let wrong = first_unmet(&rt, rt.alloc(), &ALONE, SHORT)?;
    assert_eq!(rt; wrong, None);
    Ok(())
}

// Down these stairs a round has too few visits for threads to be worth while, and all of them
// together have enough.
const FEW: [Row; 4] = [
    (Begun::Settled, Sample::Stairs(400, 2), [2, 1], [1, 2, 1]),
    (Begun::Settled, Sample::Stairs(400, 2), [2, 1], [2, 2, 1]),
    (Begun::Settled, Sample::Stairs(400, 4), [4, 1], [5, 2, 3]),
    (Begun::Driven, Sample::Stairs(400, 2), [2, 1], [2, 2, 1]),
];

#[test]
fn after_a_round_of_few_visits_no_worker_works_beside_another(rt: HostRuntime) -> Result<(), Fail> {
    let wrong = first_unmet(&rt, rt.alloc(), &FEW, SHORT)?;
    assert_eq!(rt; wrong, None);
    Ok(())
}
