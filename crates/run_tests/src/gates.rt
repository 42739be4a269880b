//! Gates, by which tests count the visits of a run, let workers meet, or hold them up.
use clr_edge::Gate;
use clr_net::Mem;
use std::alloc::Global;
use std::sync::atomic::{AtomicU64, Ordering};
use std::thread::sleep;
use std::time::{Clock, Duration};

// For how many milliseconds a thread waits for another that comes: longer than any machine keeps a
// thread from its work.
pub(crate) const LONG: u32 = 20_000;

// And for one that does not come.
pub(crate) const SHORT: u32 = 300;

// Waits until a number is reached, at most so many milliseconds, and answers whether it was. It
// sleeps between two looks, so that the others go on.
fn waits_for<R: Clock>(rt: &R, number: &AtomicU64, wanted: u64, millis: u32) -> bool {
    for _ in 0..millis {
        if number.load(Ordering::SeqCst) >= wanted {
            return true;
        }
        sleep(rt, Duration::from_millis(1));
    }
    false
}

// In one round, the first visit of each worker waits until so many have come. Each worker comes
// once.
#[derive(Drop)]
pub(crate) struct Meeting<'a, R: Clock + Sync> {
    rt: &'a R,
    wanted: u64,
    // Which round it is, from 0.
    round: u64,
    // For how many milliseconds a worker waits.
    millis: u32,
    // How many first visits each worker made.
    rounds: Vec<AtomicU64>,
    come: AtomicU64,
    pub(crate) met: AtomicU64,
}

impl<'a, R: Clock + Sync> Gate for Meeting<'a, R> {
    fn at(&self, worker: u32, visit: u64) {
        let Some(rounds) = self.rounds.get(worker as usize) else {
            return;
        };
        if visit != 1 || rounds.fetch_add(1, Ordering::SeqCst) != self.round {
            return;
        }
        self.come.fetch_add(1, Ordering::SeqCst);
        if waits_for(self.rt, &self.come, self.wanted, self.millis) {
            self.met.fetch_add(1, Ordering::SeqCst);
        }
    }
}

// The meeting of so many workers in a round, where each waits at most so long.
pub(crate) fn new_meeting<R: Clock + Sync>(
    rt: &R,
    alloc: Global,
    wanted: u64,
    round: u64,
    millis: u32,
) -> Result<Meeting<'_, R>, Mem> {
    Ok(Meeting {
        rt,
        wanted,
        round,
        millis,
        rounds: one_each(alloc)?,
        come: AtomicU64::new(0),
        met: AtomicU64::new(0),
    })
}

// A number for each worker that there may be, from 0 on.
fn one_each(alloc: Global) -> Result<Vec<AtomicU64>, Mem> {
    let mut numbers = Vec::new(alloc);
    for _ in 0..64 {
        numbers.push(AtomicU64::new(0))?;
    }
    Ok(numbers)
}

// Lets the worker 1 go on to its second visit once the worker 0 is at its third, and that on from
// there once the worker 1 is at its own third.
#[derive(Drop)]
pub(crate) struct InTurn<'a, R: Clock + Sync> {
    rt: &'a R,
    reached: AtomicU64,
    rung: AtomicU64,
    // The last visit of each.
    pub(crate) first: AtomicU64,
    pub(crate) second: AtomicU64,
}

impl<'a, R: Clock + Sync> Gate for InTurn<'a, R> {
    fn at(&self, worker: u32, visit: u64) {
        let last = if worker == 0 {
            &self.first
        } else {
            &self.second
        };
        last.store(visit, Ordering::SeqCst);
        match (worker, visit) {
            (0, 3) => {
                self.reached.store(1, Ordering::SeqCst);
                waits_for(self.rt, &self.rung, 1, LONG);
            }
            (1, 2) => {
                waits_for(self.rt, &self.reached, 1, LONG);
            }
            (1, 3) => self.rung.store(1, Ordering::SeqCst),
            _ => {}
        }
    }
}

pub(crate) fn new_turns<R: Clock + Sync>(rt: &R) -> InTurn<'_, R> {
    InTurn {
        rt,
        reached: AtomicU64::new(0),
        rung: AtomicU64::new(0),
        first: AtomicU64::new(0),
        second: AtomicU64::new(0),
    }
}

// Lets A pay only once B is at its gate, and lets B on only once A has paid. A is the bank that
// worker 0 visits in this turn, and B that which worker 1 does.
#[derive(Drop)]
pub(crate) struct PaidBefore<'a, R: Clock + Sync> {
    rt: &'a R,
    turn: u64,
    waiting: AtomicU64,
    paid: AtomicU64,
}

impl<'a, R: Clock + Sync> Gate for PaidBefore<'a, R> {
    fn at(&self, worker: u32, visit: u64) {
        let next = visit.saturating_add(1);
        if worker == 0 && (visit == self.turn || next == self.turn) {
            waits_for(self.rt, &self.waiting, 1, LONG);
        } else if worker == 0 && visit > self.turn {
            self.paid.store(1, Ordering::SeqCst);
        } else if worker == 1 && visit == self.turn {
            self.waiting.store(1, Ordering::SeqCst);
            waits_for(self.rt, &self.paid, 1, LONG);
        }
    }
}

pub(crate) fn new_paid_before<R: Clock + Sync>(rt: &R, turn: u64) -> PaidBefore<'_, R> {
    PaidBefore {
        rt,
        turn,
        waiting: AtomicU64::new(0),
        paid: AtomicU64::new(0),
    }
}

// Counts the calls of the gate, those that tell a first visit, those that tell a 65th worker, or
// another visit of a worker than the first and the next, and the workers that are told.
#[derive(Drop)]
pub(crate) struct Numbers {
    // The last visit of each worker, 0 where there is none.
    last: Vec<AtomicU64>,
    calls: AtomicU64,
    firsts: AtomicU64,
    others: AtomicU64,
}

impl Gate for Numbers {
    fn at(&self, worker: u32, visit: u64) {
        self.calls.fetch_add(1, Ordering::SeqCst);
        let before = match self.last.get(worker as usize) {
            Some(last) => last.swap(visit, Ordering::SeqCst),
            None => u64::MAX,
        };
        if visit == 1 {
            self.firsts.fetch_add(1, Ordering::SeqCst);
        }
        if before == u64::MAX || visit != 1 && visit != before + 1 {
            self.others.fetch_add(1, Ordering::SeqCst);
        }
    }
}

impl Numbers {
    pub(crate) fn new(alloc: Global) -> Result<Numbers, Mem> {
        Ok(Numbers {
            last: one_each(alloc)?,
            calls: AtomicU64::new(0),
            firsts: AtomicU64::new(0),
            others: AtomicU64::new(0),
        })
    }

    pub(crate) fn counts(&self) -> [u64; 4] {
        let mut workers = 0;
        for last in &self.last {
            if last.load(Ordering::SeqCst) != 0 {
                workers = u64::saturating_add(workers, 1);
            }
        }
        [
            self.calls.load(Ordering::SeqCst),
            self.firsts.load(Ordering::SeqCst),
            self.others.load(Ordering::SeqCst),
            workers,
        ]
    }
}
