//! What is paid, as the seats keep it in memory: a list for each worker.
ghost use Rattle.std.specs.Prelude.{◌≡◌, ◌<◌, ◌^◌, [], All, IfOk, length, map, replicate};
ghost use Rattle.std.specs.Prelude.{slice_index, slice_set};

use crate::payment::Payment;
use std::alloc::{AllocError, Global};
use std::marker::Model;

/// A value for each debt, in units, in file order. Those count of debts that a worker's banks owe.
/// Each takes four bytes, as in a payment word.
///
/// Contracts see it as a list.
#[derive(Drop)]
pub(crate) struct Paid {
    values: Vec<u32>,
}

impl Model for Paid {
    ghost use Rattle.std.specs.Prelude.{ℕ, List};

    ghost Value = { List ℕ };

    ghost view = { λ p. p.values.items };
}

impl Paid {
    /// No value: it takes no memory.
    pub(crate) fn none(alloc: Global) -> Paid
        ensures { result ≡ [] }
    {
        Paid {
            values: Vec::new(alloc),
        }
    }

    /// The value of each payment.
    pub(crate) fn of(alloc: Global, start: &[Payment]) -> Result<Paid, AllocError>
        requires { All (λ q. q.value < 2 ^ 32) start.now }
        ensures { IfOk result (λ p. p ≡ map (λ q. q.value) start.now) }
    {
        let mut values = Vec::with_capacity(alloc, start.len())?;
        for payment in start {
            values.push_reserved(payment.value as u32);
        }
        Ok(Paid { values })
    }

    /// For each worker a list with the value of each payment. The first is made from the payments,
    /// and the others are copies of it.
    pub(crate) fn of_each(
        alloc: Global,
        start: &[Payment],
        workers: u32,
    ) -> Result<Vec<Paid>, AllocError>
        requires { All (λ q. q.value < 2 ^ 32) start.now }
        ensures { IfOk result (λ lists. lists.items
            ≡ replicate workers (map (λ q. q.value) start.now)) }
    {
        let mut lists = Vec::new(alloc);
        if workers == 0 {
            return Ok(lists);
        }
        lists.push(Paid::of(alloc, start)?)?;
        for _ in 1..workers {
            let list = lists[0].copy(alloc)?;
            lists.push(list)?;
        }
        Ok(lists)
    }

    // A list of the same values.
    fn copy(&self, alloc: Global) -> Result<Paid, AllocError>
        ensures { IfOk result (λ p. p ≡ self.now) }
    {
        let mut values = Vec::with_capacity(alloc, self.values.len())?;
        values.extend_from_slice(self.values.as_slice())?;
        Ok(Paid { values })
    }

    /// The value of a debt.
    pub(crate) fn at(&self, debt: u32) -> u64
        requires { debt < length self.now }
        ensures { result ≡ slice_index self.now debt }
    {
        self.values[debt as usize] as u64
    }

    /// Writes down the value of a debt.
    pub(crate) fn set(&mut self, debt: u32, to: u64)
        requires debt { debt < length self.old }
        requires fits { to < 2 ^ 32 }
        ensures { self.new ≡ slice_set self.old debt to }
    {
        self.values[debt as usize] = to as u32;
    }
}
