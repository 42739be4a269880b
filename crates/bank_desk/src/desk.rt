ghost use Rattle.bank_desk.specs.Desks.{IsSound, desk_of, target as target_of};
ghost use Rattle.clr_net.specs.Net.{numbers};
ghost use Rattle.clr_net.specs.declared.TheConstants.{MAX_CASH, MAX_OWED};
ghost use Rattle.std.specs.Prelude.{◌≡◌, ◌<◌, ◌≤◌, IfOk, length};

use clear_core::{lay_out_row, spendable};
use clr_net::{BankId, DebtId, Mem, Network, RuleKind};
use rule_level::share_by_level;
use std::alloc::Global;
use std::marker::Model;

/// What one bank of a network knows: itself, the debts that it owes, and the numbers of those that
/// are owed to it.
///
/// Contracts see a record of this and nothing else, `BankView`. What a desk holds always is in the
/// limits of a network (`IsSound`).
#[derive(Drop)]
pub struct Desk {
    bank: BankId,
    cash: u64,
    outside: u64,
    rule: RuleKind,
    debts_out: Vec<DebtId>,
    claims: Vec<u64>,
    classes: Vec<u8>,
    debts_in: Vec<DebtId>,
}

impl Model for Desk {
    ghost use Rattle.bank_desk.specs.Desks.{BankView, IsSound};
    ghost use Rattle.bank_desk.specs.Fields.{view_of};

    ghost Value = { BankView };

    ghost view = { view_of };

    ghost invariant = { λ d. IsSound (view_of d) };
}

impl Desk {
    /// The desk of a bank of a network: copies of what the bank knows. Its costs grow with the
    /// bank's own debts. `Mem` is want of memory.
    pub fn of(alloc: Global, net: &Network, bank: BankId) -> Result<Desk, Mem>
        requires bank { bank.0 < length net.now.banks }
        ensures { IfOk result (λ desk. desk ≡ desk_of net.now bank.0) }
    {
        prove!(bank.0 < net.banks());
        let known = net.bank(bank);
        let row = net.row(bank);
        let mut claims = Vec::with_capacity(alloc, row.len())?;
        let mut classes = Vec::with_capacity(alloc, row.len())?;
        lay_out_row(net, bank, &mut claims, &mut classes);
        Ok(Desk {
            bank,
            cash: known.cash,
            outside: known.outside,
            rule: known.rule,
            debts_out: Vec::from_slice(alloc, row)?,
            claims,
            classes,
            debts_in: Vec::from_slice(alloc, net.column(bank))?,
        })
    }

    /// The bank whose desk this is.
    pub fn bank(&self) -> BankId
        ensures bank { result.0 ≡ self.now.bank }
        ensures sound { IsSound self.now }
    {
        self.bank
    }

    /// Changes the cash of the bank, in units, and nothing else. Takes no memory.
    pub fn set_cash(&mut self, cash: u64)
        requires { cash ≤ MAX_CASH }
        ensures { self.new ≡ record self.old { cash = cash } }
    {
        self.cash = cash;
    }

    /// The debts that the bank owes, in file order.
    pub fn debts_out(&self) -> &[DebtId]
        ensures { numbers result.now ≡ self.now.debts_out }
    {
        self.debts_out.as_slice()
    }

    /// The debts that are owed to the bank, in file order.
    pub fn debts_in(&self) -> &[DebtId]
        ensures { numbers result.now ≡ self.now.debts_in }
    {
        self.debts_in.as_slice()
    }

    /// Writes what the bank's rule gives each of its debts where the bank receives so many units:
    /// of its cash and receipts, less what it owes outside the network.
    ///
    /// `into` has a place for each debt that the bank owes, in file order, in units. Takes no
    /// memory.
    pub fn target(&self, receipts: u64, into: &mut [u64])
        requires places { length into.old ≡ length self.now.debts_out }
        requires receipts { receipts ≤ MAX_OWED }
        ensures { into.new ≡ target_of self.now receipts }
    {
        share_by_level(
            self.rule,
            self.claims.as_slice(),
            self.classes.as_slice(),
            spendable(self.cash, self.outside, receipts),
            into,
        );
    }
}
