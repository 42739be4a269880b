//! The desks of a worker.
ghost use Rattle.bank_desk.specs.Desks.{desk_of, with_cash_in};
ghost use Rattle.bank_worker.specs.BankSets.{is_in};
ghost use Rattle.bank_worker.specs.Offices.{banks_of_worker};
ghost use Rattle.bank_worker.specs.Rings.{is_among};
ghost use Rattle.bank_worker.specs.Views.{banks_of, desk_at};
ghost use Rattle.clr_net.specs.Net.{cash_of as cash_in};
ghost use Rattle.clr_net.specs.declared.TheConstants.{MAX_BANKS, MAX_CASH};
ghost use Rattle.std.specs.Prelude.{◌≡◌, ◌<◌, ◌≤◌, ℕ, All, IfOk, false, length, map, true};

use crate::bank_set::BankSet;
use bank_desk::Desk;
use clr_net::{BankId, Mem, Network};
use std::alloc::Global;
use std::marker::Model;

/// The desks of a worker, in file order, and beside them the bank of each, as a list and as a set,
/// so that a sweep passes over the desks of banks that are not called.
#[derive(Drop)]
pub struct Desks {
    desks: Vec<Desk>,
    banks: Vec<u32>,
    // It stays in its place in memory, as an office's workspace does.
    set: Box<BankSet>,
    // How many workers there are. The worker i among n has the banks i, i + n, i + 2 n and so on.
    workers: u32,
}

impl Model for Desks {
    ghost use Rattle.bank_desk.specs.Desks.{BankView};
    ghost use Rattle.bank_worker.specs.BankSets.{AreInPlace};
    ghost use Rattle.bank_worker.specs.Views.{banks_of};
    ghost use Rattle.std.specs.Prelude.{◌≡◌, List};

    ghost Value = { List BankView };

    ghost view = { λ d. d.desks.items };

    ghost invariant = { λ d. (d.banks.items ≡ banks_of d.desks.items)
        × AreInPlace d.banks.items d.set.value d.workers };
}

impl Desks {
    /// The desks of a worker among so many.
    pub fn of(alloc: Global, net: &Network, worker: u32, workers: u32) -> Result<Desks, Mem>
        requires workers { 1 ≤ workers }
        ensures { IfOk result (λ desks.
            desks ≡ map (desk_of net.now) (banks_of_worker net.now workers worker)) }
    {
        let mut desks = Vec::new(alloc);
        let mut banks = Vec::new(alloc);
        for number in 0..net.banks() {
            if number % workers == worker {
                desks.push(Desk::of(alloc, net, BankId(number))?)?;
                banks.push(number)?;
            }
        }
        let set = set_of(banks.as_slice());
        let set = Box::new(alloc, set)?;
        Ok(Desks {
            desks,
            banks,
            set,
            workers,
        })
    }

    /// Gives each desk the cash that its bank has in a network, and changes nothing else. Takes no
    /// memory.
    pub fn set_cash(&mut self, net: &Network)
        requires { All (λ d. d.bank < length net.now.banks) self.old }
        ensures { self.new ≡ map (with_cash_in net.now) self.old }
    {
        set_cash_of(self.desks.as_mut_slice(), net);
    }

    /// How many there are.
    pub fn len(&self) -> usize
        ensures { result ≡ length self.now }
    {
        self.desks.len()
    }

    /// The desk in this place.
    pub fn at(&self, place: usize) -> &Desk
        requires { place < length self.now }
        ensures { result.now ≡ desk_at self.now place }
    {
        &self.desks[place]
    }

    /// The bank of each desk.
    pub fn banks(&self) -> &[u32]
        ensures { result.now ≡ banks_of self.now }
    {
        self.banks.as_slice()
    }

    /// The place of the next desk, from this place on, whose bank is called; past all desks if
    /// there is none. Costs a look at each word of a set between them.
    pub fn next_called(&self, called: &BankSet, from: usize) -> usize
        requires from { from ≤ length self.now }
        ensures ahead { from ≤ result }
        ensures none_before { (k : ℕ) → from ≤ k → k < result → k < length self.now
            → is_in called.now (desk_at self.now k).bank ≡ false }
        ensures called_there { result < length self.now
            → is_in called.now (desk_at self.now result).bank ≡ true }
    {
        let banks = self.banks.as_slice();
        if from == banks.len() {
            return from;
        }
        let last = banks[banks.len() - 1];
        match self.set.first_in_both(called, banks[from], last) {
            Some(bank) => (bank.0 / self.workers) as usize,
            None => banks.len(),
        }
    }
}

// The set of these banks.
fn set_of(banks: &[u32]) -> BankSet
    requires { All (λ b. b < MAX_BANKS) banks.now }
    ensures { (b : ℕ) → is_in result b ≡ is_among banks.now b }
{
    let mut set = BankSet::none();
    for bank in banks {
        set.add(BankId(*bank));
    }
    set
}

// Gives each of these desks the cash that its bank has in a network.
fn set_cash_of(desks: &mut [Desk], net: &Network)
    requires { All (λ d. d.bank < length net.now.banks) desks.old }
    ensures { desks.new ≡ map (with_cash_in net.now) desks.old }
{
    for desk in desks.iter_mut() {
        desk.set_cash(cash_of(net, desk.bank()));
    }
}

// The cash of a bank, in units.
fn cash_of(net: &Network, bank: BankId) -> u64
    requires { bank.0 < length net.now.banks }
    ensures cash { result ≡ cash_in net.now bank.0 }
    ensures few { result ≤ MAX_CASH }
{
    prove!(bank.0 < net.banks());
    net.bank(bank).cash
}
